// Events as other servers export them.
use crate::exported_events::ExportedEvent;
use crate::finding::find_events;
use base64::engine::general_purpose::STANDARD_NO_PAD;
use mx_pdu::{NotAnEvent, PduError};
use mx_redact::{Digests, text_field};
use serde_json::{Map, Value};
use std::alloc::{AllocError, Global};
use std::collections::BTreeMap;

/// What is read of an input.
#[derive(Debug, Drop)]
pub struct Input {
    /// The events, in the order of the input, each as often as it is there.
    pub events: Vec<ExportedEvent>,
    /// Those that are no events of room versions 6 and 7.
    pub refused: Vec<RefusedEvent>,
    /// The keys that were let go, each with the number of events that had it.
    pub let_go: BTreeMap<String, u64>,
    /// How many other values stand in the places of events.
    pub others: u64,
    /// The numbers of the lines, from 1, that are no JSON.
    pub bad_lines: Vec<u64>,
}

/// An object in the place of an event that is none.
#[derive(Clone, Copy, Debug, Drop)]
pub struct RefusedEvent {
    /// Its place among the events of the input, from 1.
    pub place: u64,
    pub cause: NotAnEvent,
}

/// Reads events as other servers export them: one JSON value, or one on each line, which is an event, an array, an object
/// that has events at `auth_chain`, `auth_events`, `state`, `pdus`, `events`, `event` or `json`, or a text of JSON.
///
/// An object with a `type` and a `sender` is an event. `unsigned` is let go, and the keys that no event of room version 6
/// has are, unless the content hash holds with them. The one error is that no memory is left. The time is linear in the
/// input. Source: the Matrix specification, Room Version 6, "Event format", and Server-Server API, "Calculating the
/// content hash for an event".
pub fn read_input(alloc: Global, input: &[u8]) -> Result<Input, AllocError> {
    find_events(alloc, input)
}

impl Input {
    // Of an input that has nothing.
    pub(crate) fn new(alloc: Global) -> Input {
        Input {
            events: Vec::new(alloc),
            refused: Vec::new(alloc),
            let_go: BTreeMap::new(alloc),
            others: 0,
            bad_lines: Vec::new(alloc),
        }
    }

    // Takes an object in the place of an event.
    pub(crate) fn take_event(
        &mut self,
        alloc: Global,
        members: Map<String, Value>,
    ) -> Result<(), AllocError> {
        match event_of(alloc, &mut self.let_go, members) {
            Ok(event) => self.events.push(event)?,
            Err(PduError::Memory) => return Err(AllocError),
            Err(PduError::NotAnEvent(cause)) => {
                let before = self.events.len().saturating_add(self.refused.len());
                let place = (before as u64).saturating_add(1);
                self.refused.push(RefusedEvent { place, cause })?;
            }
        }
        Ok(())
    }

    // Takes another value in the place of an event.
    pub(crate) fn take_other(&mut self) {
        self.others = self.others.saturating_add(1);
    }
}

// The event that an object is, without what was put to it.
fn event_of(
    alloc: Global,
    let_go: &mut BTreeMap<String, u64>,
    members: Map<String, Value>,
) -> Result<ExportedEvent, PduError> {
    let mut members = members;
    let mut additions = additions_in(alloc, &members)?;
    if let Some(place) = additions.iter().position(|key| key.as_str() == "unsigned") {
        drop(additions.remove(place));
        drop(members.remove("unsigned"));
        count(alloc, let_go, "unsigned")?;
    }
    if additions.is_empty() {
        return ExportedEvent::from_value(alloc, &Value::Object(members));
    }
    event_without(alloc, let_go, members, &additions)
}

// The event that an object is without these keys, or with them, where its content hash holds with them alone.
fn event_without(
    alloc: Global,
    let_go: &mut BTreeMap<String, u64>,
    members: Map<String, Value>,
    additions: &[String],
) -> Result<ExportedEvent, PduError> {
    let mut left = members;
    let taken = taken_out(alloc, &mut left, additions)?;
    let left = Value::Object(left);
    if let Some(event) = event_beside_its_id(alloc, &left, &taken)? {
        count(alloc, let_go, "event_id")?;
        return Ok(event);
    }
    let made = ExportedEvent::with_digests(alloc, &left);
    if !hash_holds(&left, &made) {
        if let Some(whole) = whole_event(alloc, left, taken)? {
            return Ok(whole);
        }
    }
    for key in additions {
        count(alloc, let_go, key)?;
    }
    let (event, _digests) = made?;
    Ok(event)
}

// The event that an object is, where all that was taken out of it is the event's own id. No hash is asked whether the id
// belongs to it: an event's id is made of its content hash, so no content hash covers the id.
fn event_beside_its_id(
    alloc: Global,
    left: &Value,
    taken: &Map<String, Value>,
) -> Result<Option<ExportedEvent>, AllocError> {
    let Some(id) = only_id(taken) else {
        return Ok(None);
    };
    match ExportedEvent::from_value(alloc, left) {
        Ok(event) if event.event_id().as_str() == id => Ok(Some(event)),
        Err(PduError::Memory) => Err(AllocError),
        _ => Ok(None),
    }
}

// The text at `event_id`, where nothing else is there.
fn only_id(members: &Map<String, Value>) -> Option<&str> {
    if members.len() == 1 {
        text_field(members, "event_id")
    } else {
        None
    }
}

// Takes the members at these keys out of an object.
fn taken_out(
    alloc: Global,
    members: &mut Map<String, Value>,
    keys: &[String],
) -> Result<Map<String, Value>, AllocError> {
    let mut taken = Map::new(alloc);
    for key in keys {
        if let Some(value) = members.remove(key.as_str()) {
            taken.insert(key.clone()?, value)?;
        }
    }
    Ok(taken)
}

// The event that an object is with members which were taken out of it, where its content hash holds.
fn whole_event(
    alloc: Global,
    left: Value,
    taken: Map<String, Value>,
) -> Result<Option<ExportedEvent>, AllocError> {
    let mut members = taken;
    if let Value::Object(mut others) = left {
        members.append(&mut others)?;
    }
    let whole = Value::Object(members);
    let made = ExportedEvent::with_digests(alloc, &whole);
    let holds = hash_holds(&whole, &made);
    match made {
        Ok((event, _digests)) if holds => Ok(Some(event)),
        Err(PduError::Memory) => Err(AllocError),
        _ => Ok(None),
    }
}

// Whether an event was made of a value, and the value names the event's content hash.
fn hash_holds(event: &Value, made: &Result<(ExportedEvent, Digests), PduError>) -> bool {
    let Ok((_event, digests)) = made else {
        return false;
    };
    let named = event.get("hashes").and_then(|hashes| hashes.get("sha256"));
    let Some(text) = named.and_then(|hash| hash.as_str()) else {
        return false;
    };
    let mut encoded = [0; 43];
    STANDARD_NO_PAD
        .encode_slice(&digests.content, &mut encoded)
        .is_ok()
        && text.as_bytes() == encoded.as_slice()
}

// The keys of an object that no event has.
fn additions_in(alloc: Global, members: &Map<String, Value>) -> Result<Vec<String>, AllocError> {
    let mut keys = Vec::new(alloc);
    for (key, _) in members.iter() {
        if !is_event_key(key) {
            keys.push(key.clone()?)?;
        }
    }
    Ok(keys)
}

// Counts one event more that had this key.
fn count(alloc: Global, counts: &mut BTreeMap<String, u64>, key: &str) -> Result<(), AllocError> {
    if let Some(events) = counts.get_mut(key) {
        *events = events.saturating_add(1);
        return Ok(());
    }
    let name = String::from_str(alloc, key)?;
    counts.insert(name, 1)?;
    Ok(())
}

// Whether events of room version 6 have this key, or redaction keeps it, but for `event_id`, which servers put to events
// since room version 3.
fn is_event_key(key: &str) -> bool {
    match key.len() {
        4 => key == "type",
        5 => key == "depth",
        6 => matches!(key, "hashes" | "origin" | "sender"),
        7 => matches!(key, "content" | "redacts" | "room_id"),
        9 => key == "state_key",
        10 => matches!(key, "membership" | "prev_state" | "signatures"),
        11 => matches!(key, "auth_events" | "prev_events"),
        16 => key == "origin_server_ts",
        _ => false,
    }
}
