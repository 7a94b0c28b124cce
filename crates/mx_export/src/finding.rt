// The values of an input that may be events.
use crate::exporting::Input;
use json::{Reader, Scratch, Token};
use memchr::memchr;
use mx_body::{BodyError, MAX_DEPTH, body_value, read_value};
use serde_json::{Map, Value};
use std::alloc::{AllocError, Global};

// Where an object that is no event has events, the older ones first: as replies to federation requests, and as what is
// put round an event in a list.
const PLACES: [&str; 7] = [
    "auth_chain",
    "auth_events",
    "state",
    "pdus",
    "events",
    "event",
    "json",
];

/// What stands in the places of events in an input: one JSON value, or one on each line. Each event is made as it is found,
/// and its JSON value let go; of an array no value is made as a whole.
///
/// The one error is that no memory is left.
pub(crate) fn find_events(alloc: Global, input: &[u8]) -> Result<Input, AllocError> {
    match find_in_value(alloc, input) {
        Ok(found) => Ok(found),
        Err(BodyError::Memory) => Err(AllocError),
        Err(BodyError::NotJson) => find_in_lines(alloc, input),
    }
}

// Of an input that is one JSON value.
fn find_in_value(alloc: Global, input: &[u8]) -> Result<Input, BodyError> {
    let mut found = Input::new(alloc);
    let mut reading = Reading::new(alloc);
    if input.trim_ascii_start().first() == Some(&b'[') {
        take_array(&mut reading, &mut found, input)?;
    } else {
        let value = body_value(alloc, &mut reading.scratch, input)?;
        take_value(&mut reading, &mut found, value)?;
    }
    Ok(found)
}

// Takes what stands in an array, one item after the other.
fn take_array(reading: &mut Reading, found: &mut Input, input: &[u8]) -> Result<(), BodyError> {
    let Ok(text) = str::from_utf8(input) else {
        return Err(BodyError::NotJson);
    };
    let mut scratch = Scratch::new(reading.alloc);
    let mut reader = Reader::new(text, &mut scratch)?;
    let Some(Token::BeginArray) = reader.next() else {
        return Err(BodyError::NotJson);
    };
    for _ in 0..u64::MAX {
        if reader.take_end_array() {
            break;
        }
        let item = read_value(reading.alloc, &mut reader, MAX_DEPTH - 1)?;
        take_value(reading, found, item)?;
    }
    match reader.next() {
        Some(_) => Err(BodyError::NotJson),
        None => Ok(()),
    }
}

// Of an input that has a value on each line.
fn find_in_lines(alloc: Global, input: &[u8]) -> Result<Input, AllocError> {
    let mut found = Input::new(alloc);
    let mut reading = Reading::new(alloc);
    take_lines(&mut reading, &mut found, input)?;
    Ok(found)
}

// What is kept from one text that is read to the next.
#[derive(Drop)]
struct Reading {
    alloc: Global,
    scratch: Scratch,
}

impl Reading {
    fn new(alloc: Global) -> Reading {
        Reading {
            alloc,
            scratch: Scratch::new(alloc),
        }
    }

    // The value that bytes are JSON for, if they are.
    fn value_of(&mut self, bytes: &[u8]) -> Result<Option<Value>, AllocError> {
        match body_value(self.alloc, &mut self.scratch, bytes) {
            Ok(value) => Ok(Some(value)),
            Err(BodyError::Memory) => Err(AllocError),
            Err(BodyError::NotJson) => Ok(None),
        }
    }
}

// Takes what stands on each line that is not blank.
fn take_lines(reading: &mut Reading, found: &mut Input, input: &[u8]) -> Result<(), AllocError> {
    let mut rest = input;
    for number in 1..u64::MAX {
        if rest.is_empty() {
            return Ok(());
        }
        let (line, others) = first_line(rest);
        rest = others;
        if line.trim_ascii().is_empty() {
            continue;
        }
        match reading.value_of(line)? {
            Some(value) => take_value(reading, found, value)?,
            None => found.bad_lines.push(number)?,
        }
    }
    Ok(())
}

// The first line of a text without its newline, and what comes after it.
fn first_line(text: &[u8]) -> (&[u8], &[u8]) {
    let end = memchr(b'\n', text).unwrap_or(text.len());
    let (line, rest) = text.split_at(end);
    match rest.split_first() {
        Some((_newline, others)) => (line, others),
        None => (line, rest),
    }
}

// Takes the events of a value, in their order.
fn take_value(reading: &mut Reading, found: &mut Input, value: Value) -> Result<(), AllocError> {
    let mut left = vec![in reading.alloc; value]?;
    for _ in 0..u64::MAX {
        let Some(next) = left.pop() else {
            return Ok(());
        };
        take_next(reading, found, &mut left, next)?;
    }
    Ok(())
}

// Takes an event, or puts what stands in the places of events before what is left.
fn take_next(
    reading: &mut Reading,
    found: &mut Input,
    left: &mut Vec<Value>,
    value: Value,
) -> Result<(), AllocError> {
    match value {
        Value::Object(members) => take_object(reading, found, left, members),
        Value::Array(items) => put_items(left, items),
        Value::String(text) => take_text(reading, found, &text),
        _ => {
            found.take_other();
            Ok(())
        }
    }
}

fn put_items(left: &mut Vec<Value>, items: Vec<Value>) -> Result<(), AllocError> {
    let mut items = items;
    items.reverse();
    left.append(&mut items)
}

fn take_object(
    reading: &mut Reading,
    found: &mut Input,
    left: &mut Vec<Value>,
    members: Map<String, Value>,
) -> Result<(), AllocError> {
    if is_event(&members) {
        return found.take_event(reading.alloc, members);
    }
    let mut members = members;
    let mut is_empty = true;
    for place in PLACES.iter().rev() {
        if let Some(value) = members.remove(*place) {
            left.push(value)?;
            is_empty = false;
        }
    }
    if is_empty {
        found.take_other();
    }
    Ok(())
}

// Takes the event that a text is JSON for.
fn take_text(reading: &mut Reading, found: &mut Input, text: &str) -> Result<(), AllocError> {
    match reading.value_of(text.as_bytes())? {
        Some(value) => take_inner(reading, found, value),
        None => {
            found.take_other();
            Ok(())
        }
    }
}

// Takes a value that a text held, where it is an event.
fn take_inner(reading: &mut Reading, found: &mut Input, value: Value) -> Result<(), AllocError> {
    match value {
        Value::Object(members) => take_event_alone(reading, found, members),
        _ => {
            found.take_other();
            Ok(())
        }
    }
}

fn take_event_alone(
    reading: &mut Reading,
    found: &mut Input,
    members: Map<String, Value>,
) -> Result<(), AllocError> {
    if is_event(&members) {
        found.take_event(reading.alloc, members)
    } else {
        found.take_other();
        Ok(())
    }
}

fn is_event(members: &Map<String, Value>) -> bool {
    members.contains_key("type") && members.contains_key("sender")
}
