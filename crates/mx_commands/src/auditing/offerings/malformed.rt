// The values of a transaction that are no events.
use crate::event_faults::fault_of;
use json::Scratch;
use mx_body::{BodyError, body_value};
use mx_lines::{EventFault, EventField};
use mx_pdu::Offered;
use mx_world::TransactionKey;
use serde_json::{Map, Value};
use std::alloc::{AllocError, Global};

/// A value of a transaction that is no event: its place there, from 1, its fault, and the field whose it is.
#[derive(Clone, Copy, Debug)]
pub(crate) struct Malformed {
    pub(crate) position: usize,
    pub(crate) field: Option<EventField>,
    pub(crate) fault: EventFault,
}

// A line that opens a transaction, with no origin, no number and no event.
const EMPTY_OPEN: &str = "{\"origin\":\"\",\"pdus\":[],\"step\":\"open\",\"txn\":\"\"}";

/// Whether it is plain that a line which opens a transaction has these events and no other value: it is as long as the
/// shortest line that has them, in which there is no room for one more.
pub(crate) fn has_no_more(line: &[u8], key: &TransactionKey, events: &[Offered]) -> bool {
    line.len() == shortest_open(key, events)
}

// How long the shortest line is that opens a transaction with these events: none of its texts has an escape.
fn shortest_open(key: &TransactionKey, events: &[Offered]) -> usize {
    let texts = [EMPTY_OPEN, key.origin.as_str(), key.txn.as_str()];
    let mut length = events.len().saturating_sub(1);
    for text in texts {
        length = length.saturating_add(text.len());
    }
    for event in events {
        length = length.saturating_add(event.pdu.text().len());
    }
    length
}

/// The values that stand in the place of events in a line of a log: those in its `pdus`, or in the `pdus` of its `body`.
///
/// `AllocError` where no memory is left; none where the line has no such place.
pub(crate) fn values_in(
    alloc: Global,
    scratch: &mut Scratch,
    line: &[u8],
) -> Result<Option<Vec<Value>>, AllocError> {
    let Some(mut members) = members_in(alloc, scratch, line)? else {
        return Ok(None);
    };
    if let Some(Value::String(body)) = members.remove("body") {
        let Some(inner) = members_in(alloc, scratch, body.as_bytes())? else {
            return Ok(None);
        };
        members = inner;
    }
    match members.remove("pdus") {
        Some(Value::Array(values)) => Ok(Some(values)),
        _ => Ok(None),
    }
}

/// The value at the `event` of a line that hosts a room.
pub(crate) fn hosting_value(
    alloc: Global,
    scratch: &mut Scratch,
    line: &[u8],
) -> Result<Option<Value>, AllocError> {
    match members_in(alloc, scratch, line)? {
        Some(mut members) => Ok(members.remove("event")),
        None => Ok(None),
    }
}

/// Those among these values that are no events, and may be of this room: their `room_id` is its ID, or no text.
pub(crate) fn malformed_among(
    alloc: Global,
    values: &[Value],
    room: &str,
) -> Result<Vec<Malformed>, AllocError> {
    let mut found = Vec::new(alloc);
    let mut position: usize = 0;
    for value in values {
        position = position.saturating_add(1);
        if let Some(malformed) = malformed_at(value, position, room) {
            found.push(malformed)?;
        }
    }
    Ok(found)
}

fn malformed_at(value: &Value, position: usize, room: &str) -> Option<Malformed> {
    let (field, fault) = fault_of(value)?;
    if !may_be_of(value, room) {
        return None;
    }
    Some(Malformed {
        position,
        field,
        fault,
    })
}

fn may_be_of(value: &Value, room: &str) -> bool {
    match value.get("room_id").and_then(|id| id.as_str()) {
        Some(id) => id == room,
        None => true,
    }
}

// The members of the object that a text is, as a log is read.
fn members_in(
    alloc: Global,
    scratch: &mut Scratch,
    text: &[u8],
) -> Result<Option<Map<String, Value>>, AllocError> {
    match body_value(alloc, scratch, text) {
        Ok(Value::Object(members)) => Ok(Some(members)),
        Ok(_) => Ok(None),
        Err(BodyError::Memory) => Err(AllocError),
        Err(BodyError::NotJson) => Ok(None),
    }
}
