// The admin port: one request at a time, one request a connection.
use crate::calls::AdminCall;
use crate::replies::{AdminReply, JSON_LINES, PLAIN_TEXT, reply_bytes};
use crate::requests::{AdminRequest, read_request};
use crate::rooms::RoomsReply;
use std::alloc::{AllocError, AllocGlobal, Global};
use std::io::{Read, Write};
use std::net::{TcpListener, TcpStream};
use std::sync::Wait;
use std::thread;
use std::time::{Clock, Duration};

// For how long a client may say nothing, in milliseconds.
const LONGEST_SILENCE: u64 = 500;
// How many milliseconds it waits where a connection can't be taken in.
const PAUSE: u64 = 50;

/// What the admin port shows, and what may be done there.
pub trait AdminSource {
    /// What failed, a line each; no text where the server is well.
    fn failures<R: Wait>(&self, rt: &R) -> Result<String, AllocError>;

    /// What the server counts, in the text form of Prometheus.
    fn metrics<R: Wait>(&self, rt: &R, alloc: Global) -> Result<String, AllocError>;

    /// The rooms, a line of JSON each; none where that takes too long.
    fn rooms<R: Wait + Clock>(&self, rt: &R) -> Option<RoomsReply>;

    /// Hosts the room of a line, as of a file of rooms, and gives what the line is answered; none where that takes too long.
    fn host_room<R: Wait + Clock>(&self, rt: &R, line: Vec<u8>) -> Option<RoomsReply>;
}

/// Answers the requests that come to a listener, one after another, for good. A client has a second for its request.
pub fn serve_admin<R: Wait + Clock + AllocGlobal, S: AdminSource>(
    rt: &R,
    listener: &TcpListener,
    source: &S,
) {
    for stream in listener.incoming() {
        match stream {
            Ok(stream) => answer_stream(rt, stream, source),
            Err(_error) => thread::sleep(rt, Duration::from_millis(PAUSE)),
        }
    }
}

fn answer_stream<R: Wait + Clock + AllocGlobal, S: AdminSource>(
    rt: &R,
    stream: TcpStream,
    source: &S,
) {
    let mut stream = stream;
    let silence = Duration::from_millis(LONGEST_SILENCE);
    if stream.set_read_timeout(Some(silence)).is_ok()
        && stream.set_write_timeout(Some(silence)).is_ok()
    {
        let _ = answer_one(rt, rt.alloc(), &mut stream, source);
    }
}

/// Answers the one request of a connection. `AllocError` where no memory is left for the reply: then none is written.
pub fn answer_one<R: Wait + Clock, S: AdminSource, T: Read + Write>(
    rt: &R,
    alloc: Global,
    stream: &mut T,
    source: &S,
) -> Result<(), AllocError> {
    let reply = match read_request(rt, alloc, stream)? {
        AdminRequest::Asking(call, body) => reply_to(rt, alloc, call, body, source)?,
        AdminRequest::FromPage => plain(alloc, 403, "a page of a browser may not ask\n")?,
        AdminRequest::Malformed => plain(alloc, 400, "malformed request\n")?,
    };
    let text = reply_bytes(alloc, &reply)?;
    let _ = stream.write_all(text.as_bytes());
    let _ = stream.flush();
    Ok(())
}

// The reply to what is asked, with this body.
fn reply_to<R: Wait + Clock, S: AdminSource>(
    rt: &R,
    alloc: Global,
    call: AdminCall,
    body: Vec<u8>,
    source: &S,
) -> Result<AdminReply, AllocError> {
    match call {
        AdminCall::Health => health(rt, alloc, source),
        AdminCall::Metrics => Ok(reply(200, PLAIN_TEXT, source.metrics(rt, alloc)?)),
        AdminCall::Rooms => of_rooms(alloc, source.rooms(rt)),
        AdminCall::HostRoom => of_rooms(alloc, source.host_room(rt, body)),
        AdminCall::UnknownMethod => plain(alloc, 405, "unknown method\n"),
        AdminCall::UnknownPath => plain(alloc, 404, "unknown path\n"),
    }
}

// The reply of who has the rooms.
fn of_rooms(alloc: Global, answered: Option<RoomsReply>) -> Result<AdminReply, AllocError> {
    match answered {
        Some(RoomsReply { status, text }) => Ok(reply(status, JSON_LINES, text)),
        None => plain(alloc, 503, "busy\n"),
    }
}

fn health<R: Wait, S: AdminSource>(
    rt: &R,
    alloc: Global,
    source: &S,
) -> Result<AdminReply, AllocError> {
    let failures = source.failures(rt)?;
    if failures.is_empty() {
        return plain(alloc, 200, "ok\n");
    }
    Ok(reply(503, PLAIN_TEXT, failures))
}

fn plain(alloc: Global, status: u16, body: &str) -> Result<AdminReply, AllocError> {
    Ok(reply(status, PLAIN_TEXT, String::from_str(alloc, body)?))
}

fn reply(status: u16, media: &'static str, body: String) -> AdminReply {
    AdminReply {
        status,
        reason: reason_of(status),
        media,
        body,
    }
}

// The name of a status of HTTP. Source: RFC 9110, section 15.
fn reason_of(status: u16) -> &'static str {
    match status {
        200 => "OK",
        403 => "Forbidden",
        404 => "Not Found",
        405 => "Method Not Allowed",
        503 => "Service Unavailable",
        _ => "Bad Request",
    }
}
