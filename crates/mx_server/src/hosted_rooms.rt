// The rooms of the server as a worker reaches them: to read them, and to host further ones.
use crate::workers::Worker;
use mx_admin::RoomsReply;
use mx_keeper::{BookRow, CallError, Keeper, ShardRow};
use mx_log::{HostLine, host_answer_line, read_host_line};
use mx_pdu::PresenceVerifier;
use mx_room::Room;
use mx_shard::Answer;
use mx_watch::ServerRooms;
use std::alloc::{AllocError, Global};
use std::sync::Wait;

const OK: u16 = 200;

const BAD_REQUEST: u16 = 400;

const UNAVAILABLE: u16 = 503;

impl<K: Keeper<Row = ShardRow>, L: Keeper<Row = BookRow>> ServerRooms for Worker<K, L> {
    fn read_rooms<R: Wait, A, F: FnOnce(&[Room]) -> A + Drop>(
        &mut self,
        rt: &R,
        shard: usize,
        read: F,
    ) -> Option<A>
        requires { F.IsAlwaysCallable read }
    {
        self.read(rt, shard, read)
    }

    fn host_line<R: Wait>(
        &mut self,
        rt: &R,
        alloc: Global,
        line: &[u8],
    ) -> Result<RoomsReply, AllocError> {
        match read_host_line(alloc, &PresenceVerifier, line.trim_ascii())? {
            HostLine::Event(event) => {
                let answered = self.host(rt, alloc, event.pdu);
                answer_to_host(alloc, answered)
            }
            HostLine::Malformed => told(alloc, BAD_REQUEST, "{\"refused\":\"malformed\"}"),
            HostLine::Other => told(alloc, BAD_REQUEST, "{\"error\":\"bad line\"}"),
        }
    }
}

// What a line that hosts a room is answered, where its room was answered so.
fn answer_to_host(
    alloc: Global,
    answered: Result<Answer, CallError>,
) -> Result<RoomsReply, AllocError> {
    let answer = match answered {
        Ok(answer) => answer,
        Err(CallError::Memory) => return told(alloc, UNAVAILABLE, "{\"error\":\"memory\"}"),
        Err(CallError::Storage) => return told(alloc, UNAVAILABLE, "{\"error\":\"storage\"}"),
    };
    let status = match answer {
        Answer::Hosted(_) | Answer::AlreadyHosted(_) => OK,
        _ => BAD_REQUEST,
    };
    let line = host_answer_line(alloc, &answer)?;
    told(alloc, status, &String::from_utf8_lossy(alloc, &line)?)
}

// A line, with its end.
fn told(alloc: Global, status: u16, line: &str) -> Result<RoomsReply, AllocError> {
    let mut text = String::from_str(alloc, line)?;
    text.push('\n')?;
    Ok(RoomsReply { status, text })
}
