// Why a line of a log is bad.
use json::Scratch;
use mx_body::{BodyError, MOST_EVENTS, body_value};
use mx_ident::ServerName;
use mx_lines::EventFault;
use mx_redact::text_field;
use mx_room::LATEST_MILLISECONDS;
use serde_json::{Map, Value};
use std::alloc::{AllocError, Global};

// What a member of a line has to be.
#[derive(Clone, Copy, Debug)]
enum Kind {
    Anything,
    ServerName,
    Text,
    TextIfThere,
    Moment,
    Events,
}

// The members that a line of each step has beside `step`, and what each has to be, in the order in which they are looked at.
const HOST: [(&str, Kind); 1] = [("event", Kind::Anything)];

const OPEN: [(&str, Kind); 3] = [
    ("origin", Kind::ServerName),
    ("txn", Kind::Text),
    ("pdus", Kind::Events),
];

const NEXT_OR_CLOSE: [(&str, Kind); 2] = [("origin", Kind::ServerName), ("txn", Kind::Text)];

const CALL: [(&str, Kind); 5] = [
    ("method", Kind::Text),
    ("target", Kind::Text),
    ("now", Kind::Moment),
    ("authorization", Kind::TextIfThere),
    ("body", Kind::TextIfThere),
];

/// Why a bad line is bad, in words: it is no JSON, or no object; or the first fault of its members, by key.
///
/// `AllocError` where no memory is left.
pub(crate) fn why_bad(alloc: Global, line: &[u8]) -> Result<String, AllocError> {
    let mut scratch = Scratch::new(alloc);
    match body_value(alloc, &mut scratch, line) {
        Ok(Value::Object(members)) => why_bad_object(alloc, &members),
        Ok(_) => String::from_str(alloc, EventFault::NotAnObject.text()),
        Err(BodyError::NotJson) => String::from_str(alloc, "not JSON"),
        Err(BodyError::Memory) => Err(AllocError),
    }
}

fn why_bad_object(alloc: Global, members: &Map<String, Value>) -> Result<String, AllocError> {
    match text_field(members, "step") {
        Some("host") => why_bad_form(alloc, members, &HOST),
        Some("open") => why_bad_form(alloc, members, &OPEN),
        Some("next" | "close") => why_bad_form(alloc, members, &NEXT_OR_CLOSE),
        Some("call") => why_bad_form(alloc, members, &CALL),
        Some(_) => String::from_str(alloc, "step: unknown"),
        None if members.contains_key("step") => String::from_str(alloc, "step: wrong kind"),
        None => String::from_str(alloc, "step: missing"),
    }
}

// The first key that a form has not, or else its first member with a fault.
fn why_bad_form(
    alloc: Global,
    members: &Map<String, Value>,
    form: &[(&str, Kind)],
) -> Result<String, AllocError> {
    if let Some(key) = unknown_key(members, form) {
        return format!(in alloc; "{key:?}: unknown key");
    }
    for (key, kind) in form {
        if let Some(fault) = fault_of(members.get(*key), *kind) {
            let fault = fault.text();
            return format!(in alloc; "{key}: {fault}");
        }
    }
    String::from_str(alloc, "no form")
}

fn unknown_key<'a>(members: &'a Map<String, Value>, form: &[(&str, Kind)]) -> Option<&'a str> {
    for (key, _value) in members.iter() {
        if key.as_str() != "step" && !form.iter().any(|(known, _)| key.as_str() == *known) {
            return Some(key.as_str());
        }
    }
    None
}

// What keeps a value, if it is there, from being what a member has to be.
fn fault_of(value: Option<&Value>, kind: Kind) -> Option<EventFault> {
    let Some(value) = value else {
        return match kind {
            Kind::TextIfThere => None,
            _ => Some(EventFault::Missing),
        };
    };
    match kind {
        Kind::Anything => None,
        Kind::Text | Kind::TextIfThere => wrong_unless(value.is_string()),
        Kind::ServerName => wrong_unless(value.as_str().is_some_and(|name| ServerName::is(name))),
        Kind::Moment => fault_of_moment(value),
        Kind::Events => fault_of_events(value),
    }
}

fn wrong_unless(is_right: bool) -> Option<EventFault> {
    if is_right {
        None
    } else {
        Some(EventFault::WrongKind)
    }
}

fn fault_of_moment(value: &Value) -> Option<EventFault> {
    match value.as_u64() {
        Some(milliseconds) if milliseconds <= LATEST_MILLISECONDS => None,
        Some(_) => Some(EventFault::OverLimit),
        None => Some(EventFault::WrongKind),
    }
}

fn fault_of_events(value: &Value) -> Option<EventFault> {
    match value.as_array() {
        Some(events) if events.len() <= MOST_EVENTS => None,
        Some(_) => Some(EventFault::OverLimit),
        None => Some(EventFault::WrongKind),
    }
}
