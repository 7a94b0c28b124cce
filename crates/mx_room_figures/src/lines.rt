// Rooms, each on a line.
use crate::servers::joined_servers;
use mx_canon::{TextBuffer, TextSink, write_key, write_string, write_text};
use mx_graph::MOST_ROWS;
use mx_room::Room;
use serde_json::{Number, Value};
use std::alloc::{AllocError, Global};

// Of how many events the rooms are at least that are read at a time, as far as there are so many.
const EVENTS_AT_A_TIME: usize = 10_000;

/// The lines of some rooms, and the place of the next one, if some are left.
#[derive(Drop)]
pub struct RoomLines {
    pub text: Vec<u8>,
    pub next: Option<usize>,
}

/// The lines of the rooms from a place on, each in canonical JSON with its newline, until they have 10,000 events or more:
/// its ID and version, how many events it has of those that it may have, how many forward extremities, and how many servers
/// are in it. `AllocError` where no memory is left.
pub fn room_lines(alloc: Global, rooms: &[Room], from: usize) -> Result<RoomLines, AllocError> {
    let mut lines = TextBuffer::new(alloc);
    let mut events = 0usize;
    let mut place = from;
    while place < rooms.len() && events < EVENTS_AT_A_TIME {
        let room = &rooms[place];
        write_room(&mut lines, room, joined_servers(alloc, room)?);
        events = events.saturating_add(room.len());
        place += 1;
    }
    let next = if place < rooms.len() {
        Some(place)
    } else {
        None
    };
    let text = lines.into_bytes()?;
    Ok(RoomLines { text, next })
}

// Adds the line of a room in which so many servers are.
fn write_room<S: TextSink>(sink: &mut S, room: &Room, servers: usize) {
    sink.put(b"{");
    write_key(sink, false, b"events");
    write_count(sink, room.len());
    write_key(sink, true, b"extremities");
    write_count(sink, room.timeline().extremities().len());
    write_key(sink, true, b"joined_servers");
    write_count(sink, servers);
    write_key(sink, true, b"most_events");
    write_count(sink, MOST_ROWS);
    write_key(sink, true, b"room");
    write_string(sink, room.id().as_str().as_bytes());
    write_key(sink, true, b"version");
    write_string(sink, room.version().text().as_bytes());
    sink.put(b"}\n");
}

fn write_count<S: TextSink>(sink: &mut S, count: usize) {
    write_text(sink, &Value::Number(Number::from(count)));
}
