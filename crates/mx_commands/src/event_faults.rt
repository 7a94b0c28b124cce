// What keeps a value from being an event, and which of its fields has the fault.
use mx_ident::{EventId, NotAnId, RoomId, UserId};
use mx_lines::{EventFault, EventField};
use mx_pdu::{NotAnEvent, Pdu};
use serde_json::{Map, Value};

// The most bytes of a text.
const LONGEST: usize = 255;

// What the value of a field has to be.
#[derive(Clone, Copy, Debug)]
enum Kind {
    EventIds,
    Object,
    Integer,
    RoomId,
    UserId,
    Text,
}

// The fields that every event has, in the order in which they are looked at.
const FIELDS: [(EventField, Kind); 10] = [
    (EventField::AuthEvents, Kind::EventIds),
    (EventField::Content, Kind::Object),
    (EventField::Depth, Kind::Integer),
    (EventField::Hashes, Kind::Object),
    (EventField::OriginServerTs, Kind::Integer),
    (EventField::PrevEvents, Kind::EventIds),
    (EventField::RoomId, Kind::RoomId),
    (EventField::Sender, Kind::UserId),
    (EventField::Signatures, Kind::Object),
    (EventField::Type, Kind::Text),
];

// The fields with a limit, in the order in which they are looked at.
const LIMITED: [EventField; 7] = [
    EventField::AuthEvents,
    EventField::Depth,
    EventField::PrevEvents,
    EventField::RoomId,
    EventField::Sender,
    EventField::StateKey,
    EventField::Type,
];

/// What keeps a value from being an event, with the field whose fault it is, if it is one field's; none of an event.
///
/// Source: the Matrix specification, Room Version 6, "Event format", and Client-Server API, "Size limits".
pub(crate) fn fault_of(value: &Value) -> Option<(Option<EventField>, EventFault)> {
    match Pdu::check(value) {
        Ok(()) => None,
        Err(NotAnEvent::NotAnObject) => Some((None, EventFault::NotAnObject)),
        Err(NotAnEvent::NotCanonical) => Some((None, EventFault::NotCanonical)),
        Err(NotAnEvent::TextTooLong) => Some((None, EventFault::TooLong)),
        Err(NotAnEvent::WrongField) => Some(field_fault(value)),
        Err(NotAnEvent::OverLimit) => Some(limit_fault(value)),
    }
}

// The first field that is missing or of a wrong kind. The state key is looked at last, since an event may lack it.
fn field_fault(value: &Value) -> (Option<EventField>, EventFault) {
    let Some(event) = value.as_object() else {
        return (None, EventFault::NotAnObject);
    };
    for (field, kind) in &FIELDS {
        match event.get(field.name()) {
            Some(value) if is_of_kind(value, *kind) => {}
            Some(_) => return (Some(*field), EventFault::WrongKind),
            None => return (Some(*field), EventFault::Missing),
        }
    }
    (Some(EventField::StateKey), EventFault::WrongKind)
}

// The first field past its limit; without one the event nests too deep.
fn limit_fault(value: &Value) -> (Option<EventField>, EventFault) {
    let Some(event) = value.as_object() else {
        return (None, EventFault::NotAnObject);
    };
    for field in &LIMITED {
        if is_over_limit(event, *field) {
            return (Some(*field), EventFault::OverLimit);
        }
    }
    (None, EventFault::TooDeep)
}

fn is_of_kind(value: &Value, kind: Kind) -> bool {
    match kind {
        Kind::EventIds => are_event_ids(value),
        Kind::Object => value.is_object(),
        Kind::Integer => is_integer(value),
        Kind::RoomId => value
            .as_str()
            .is_some_and(|text| is_id(RoomId::check(text))),
        Kind::UserId => value
            .as_str()
            .is_some_and(|text| is_id(UserId::check(text))),
        Kind::Text => value.is_string(),
    }
}

fn are_event_ids(value: &Value) -> bool {
    match value.as_array() {
        Some(items) => items.iter().all(is_event_id),
        None => false,
    }
}

fn is_event_id(value: &Value) -> bool {
    match value.as_str() {
        Some(text) => is_id(EventId::check(text)),
        None => false,
    }
}

fn is_integer(value: &Value) -> bool {
    match value.as_number() {
        Some(number) => number.as_i128().is_some(),
        None => false,
    }
}

// A text that is too long is past a limit, and of no wrong kind.
fn is_id(outcome: Result<(), NotAnId>) -> bool {
    matches!(outcome, Ok(()) | Err(NotAnId::TooLong))
}

fn is_over_limit(event: &Map<String, Value>, field: EventField) -> bool {
    let Some(value) = event.get(field.name()) else {
        return false;
    };
    match field {
        EventField::AuthEvents => is_long_list(value, 10),
        EventField::PrevEvents => is_long_list(value, 20),
        EventField::Depth => is_beyond_depth(value),
        _ => is_long_text(value),
    }
}

fn is_long_list(value: &Value, most: usize) -> bool {
    match value.as_array() {
        Some(items) => items.len() > most || items.iter().any(is_long_text),
        None => false,
    }
}

fn is_long_text(value: &Value) -> bool {
    match value.as_str() {
        Some(text) => text.len() > LONGEST,
        None => false,
    }
}

// A depth is from 0 to 2^53 - 1.
fn is_beyond_depth(value: &Value) -> bool {
    match value.as_number().and_then(|number| number.as_i128()) {
        Some(depth) => depth < 0 || depth >= 1 << 53,
        None => false,
    }
}
