// Objects that hold events.
ghost use Rattle.std.specs.Prelude.{◌≡◌, ◌<◌, ◌≤◌, ◌⊎◌, IfErr, IfOk, IfSome, IsTrue, None, OnOk, Some, length};
ghost use Rattle.json.specs.Json.{items, members, parse_map, value};
ghost use Rattle.serde_json.specs.Data.{Data, array, no_members, object, put};
ghost use Rattle.serde_json.specs.View.{members_view};
ghost use Rattle.serde_json.specs.Read.{of_json, of_items, of_members, converted, read as read_text};
ghost use Rattle.mx_body.specs.Bodies.{json_of};
ghost use Rattle.mx_event_reading.specs.BodiesRead.{AreOffered, AreOfferedIf, IsOffered, ReadsMember, events_of, items_of, members_of, object_of, value_of};

use crate::events::read_event;
use crate::in_order::AppendError;
use json::{Reader, Scratch, Token};
use mx_body::{BodyError, body_value, read_value};
use mx_pdu::{Offered, Verifier};
use serde_json::{Map, Value};
use std::alloc::Global;

// How deep the values of a body's members may nest.
const MEMBER_DEPTH: usize = 126;

/// What was read of a body or of a line.
#[derive(Debug, Drop)]
pub enum BodyRead {
    // Its value.
    Value(Value),
    // An object with events at `pdus`.
    Events(EventsRead),
}

/// An object with an array of events at `pdus`, all of them well formed: the events as they are offered, and the other
/// members.
#[derive(Debug, Drop)]
pub struct EventsRead {
    pub events: Vec<Offered>,
    pub others: Map<String, Value>,
}

// What was read of an object so far.
#[derive(Drop)]
struct Found {
    events: Option<Vec<Offered>>,
    others: Map<String, Value>,
}

/// What a body is JSON for, with no value of the events at `pdus` where all of them are events whose members come in
/// canonical order. The scratch is kept from body to body.
///
/// `NotJson` where the body is not UTF-8, or no JSON, or nests deeper than 127; `Memory`. Source: the Matrix
/// specification, Server-Server API, "API standards" and "Transactions".
pub fn read_body<V: Verifier>(
    alloc: Global,
    scratch: &mut Scratch,
    verifier: &V,
    body: &[u8],
) -> Result<BodyRead, BodyError>
    ensures value { IfOk result (λ read. json_of body.now ≡ Some (value_of read)) }
    ensures offered { IfOk result (IsOffered (V.judges verifier.now)) }
    ensures err { IfErr result (λ e. (e ≡ BodyError.Memory)
        ⊎ ((e ≡ BodyError.NotJson) × (json_of body.now ≡ None))) }
{
    if let Some(read) = read_by_tokens(alloc, scratch, verifier, body) {
        return Ok(BodyRead::Events(read));
    }
    let value = body_value(alloc, scratch, body)?;
    Ok(BodyRead::Value(value))
}

// The events of a body and its other members, where all events are in canonical order; nothing for another body,
// and where no memory is left.
fn read_by_tokens<V: Verifier>(
    alloc: Global,
    scratch: &mut Scratch,
    verifier: &V,
    body: &[u8],
) -> Option<EventsRead>
    ensures value { IfSome result (λ read. json_of body.now ≡ Some (object_of read)) }
    ensures offered { IfSome result (λ read. AreOffered (V.judges verifier.now) read.events.items) }
{
    let text = match str::from_utf8(body) {
        Ok(text) => text,
        Err(_) => return None,
    };
    match read_whole(alloc, scratch, verifier, text) {
        Ok(read) => Some(read),
        Err(_) => None,
    }
}

fn read_whole<V: Verifier>(
    alloc: Global,
    scratch: &mut Scratch,
    verifier: &V,
    text: &str,
) -> Result<EventsRead, AppendError>
    ensures value { IfOk result (λ read. read_text text.now ≡ Some (object_of read)) }
    ensures offered { IfOk result (λ read. AreOffered (V.judges verifier.now) read.events.items) }
{
    let Ok(mut reader) = Reader::new(text, scratch) else {
        return Err(AppendError::Memory);
    };
    let read = read_object(alloc, &mut reader, verifier)?;
    if reader.next().is_some() {
        return Err(AppendError::NotInOrder);
    }
    Ok(read)
}

fn read_object<V: Verifier>(
    alloc: Global,
    reader: &mut Reader<'_>,
    verifier: &V,
) -> Result<EventsRead, AppendError>
    ensures value { IfOk result (λ read. converted of_json (value 127 reader.old) ≡ Some (object_of read, reader.new)) }
    ensures offered { IfOk result (λ read. AreOffered (V.judges verifier.now) read.events.items) }
{
    let Some(Token::BeginObject) = reader.next() else {
        return Err(AppendError::NotInOrder);
    };
    let found = read_members(alloc, reader, verifier)?;
    let Found { events, others } = found;
    match events {
        Some(events) => Ok(EventsRead { events, others }),
        None => Err(AppendError::NotInOrder),
    }
}

fn read_members<V: Verifier>(
    alloc: Global,
    reader: &mut Reader<'_>,
    verifier: &V,
) -> Result<Found, AppendError>
    ensures value { IfOk result (λ found. parse_map object
        (converted (λ ms. of_members ms no_members) (members (value 126) (length reader.old) reader.old))
        ≡ Some (object (members_of found), reader.new)) }
    ensures offered { IfOk result (λ found. AreOfferedIf (V.judges verifier.now) (events_of found)) }
{
    let mut found = Found {
        events: None,
        others: Map::new(alloc),
    };
    'members: while let Some(key) = reader.next_key()? {
        found = with_member(alloc, reader, verifier, key, found)?;
    }
    Ok(found)
}

// What was found with one member more.
fn with_member<V: Verifier>(
    alloc: Global,
    reader: &mut Reader<'_>,
    verifier: &V,
    key: &str,
    found: Found,
) -> Result<Found, AppendError>
    ensures member { IfOk result (λ after.
        ReadsMember key.now found after (converted of_json (value 126 reader.old)) reader.new) }
    ensures offered { IfOk result (λ after. AreOfferedIf (V.judges verifier.now) (events_of found)
        → AreOfferedIf (V.judges verifier.now) (events_of after)) }
    ensures shorter { OnOk result (length reader.new < length reader.old) }
{
    let Found { events, others } = found;
    if key == "pdus" {
        let None = events else {
            return Err(AppendError::NotInOrder);
        };
        let read = read_events(alloc, reader, verifier)?;
        return Ok(Found {
            events: Some(read),
            others,
        });
    }
    let all = with_other(alloc, reader, key, others)?;
    Ok(Found {
        events,
        others: all,
    })
}

fn with_other(
    alloc: Global,
    reader: &mut Reader<'_>,
    key: &str,
    mut others: Map<String, Value>,
) -> Result<Map<String, Value>, AppendError>
    ensures ok { IfOk result (λ all. (d : Data) × (converted of_json (value 126 reader.old) ≡ Some (d, reader.new))
        × (members_view all.entries ≡ put key.now d (members_view others.entries))) }
    ensures shorter { OnOk result (length reader.new < length reader.old) }
{
    let name = String::from_str(alloc, key)?;
    let Ok(value) = read_value(alloc, reader, MEMBER_DEPTH) else {
        return Err(AppendError::NotInOrder);
    };
    drop(others.insert(name, value)?);
    Ok(others)
}

// The next value, an array of events.
fn read_events<V: Verifier>(
    alloc: Global,
    reader: &mut Reader<'_>,
    verifier: &V,
) -> Result<Vec<Offered>, AppendError>
    ensures value { IfOk result (λ events.
        converted of_json (value 126 reader.old) ≡ Some (array (items_of events.items), reader.new)) }
    ensures offered { IfOk result (λ events. AreOffered (V.judges verifier.now) events.items) }
    ensures shorter { OnOk result (length reader.new < length reader.old) }
{
    let Some(Token::BeginArray) = reader.next() else {
        return Err(AppendError::NotInOrder);
    };
    let events = read_items(alloc, reader, verifier)?;
    Ok(events)
}

fn read_items<V: Verifier>(
    alloc: Global,
    reader: &mut Reader<'_>,
    verifier: &V,
) -> Result<Vec<Offered>, AppendError>
    ensures value { IfOk result (λ events.
        parse_map array (converted of_items (items (value 125) (length reader.old) reader.old))
        ≡ Some (array (items_of events.items), reader.new)) }
    ensures offered { IfOk result (λ events. AreOffered (V.judges verifier.now) events.items) }
    ensures shorter { OnOk result (length reader.new ≤ length reader.old) }
{
    let mut events = Vec::new(alloc);
    'items: while !reader.take_end_array() {
        let event = read_event(alloc, reader, verifier)?;
        events.push(event)?;
    }
    Ok(events)
}
