// What became of the events of a request, as its reply tells.
use serde_json::Value;
use std::alloc::{AllocError, Global};

// The status of a request that was done.
const DONE: u16 = 200;

/// The reply to a request that offers events, as a value; none where it is none of JSON.
///
/// `AllocError` where no memory is left.
pub(crate) fn reply_value(alloc: Global, body: &[u8]) -> Result<Option<Value>, AllocError> {
    match Value::from_slice(alloc, body) {
        Ok(value) => Ok(Some(value)),
        Err(error) if error.is_memory() => Err(AllocError),
        Err(_) => Ok(None),
    }
}

/// What became of an event.
#[derive(Clone, Copy, Debug)]
pub(crate) enum Told<'a> {
    // The reply does not tell.
    Nothing,
    Taken,
    NotTaken(&'a str),
}

/// What a reply to a transaction or a join of this status tells of an event.
pub(crate) fn told_of<'a>(reply: &'a Value, status: u16, is_join: bool, id: &str) -> Told<'a> {
    if is_join {
        return match status {
            DONE => Told::Taken,
            _ => told_in(reply),
        };
    }
    match reply.get("pdus").and_then(|pdus| pdus.get(id)) {
        Some(about) => told_in(about),
        None => Told::Nothing,
    }
}

// The error of an event's result; without one the event was taken.
fn told_in(about: &Value) -> Told<'_> {
    match about.get("error").and_then(|error| error.as_str()) {
        Some(error) => Told::NotTaken(error),
        None => Told::Taken,
    }
}
