// What the body of a transaction says.
ghost use Rattle.std.specs.Prelude.{◌≡◌, IfErr, IfOk, None, Ok, Some, codes, if◌then◌else◌, filter, map, option_and_then, option_map};
ghost use Rattle.serde_json.specs.Data.{object};
ghost use Rattle.serde_json.specs.View.{view, members_view};
ghost use Rattle.mx_pdu.specs.Format.{is_well_formed};
ghost use Rattle.mx_body.specs.Bodies.{texts_of};
ghost use Rattle.mx_redact.specs.Fields.{field as field_of, is_none_or};
ghost use Rattle.mx_requests.specs.BodyEvents.{AreEventsOf, IsEventOf, IsFaultOf, offered_if_formed, offered_in};
ghost use Rattle.mx_requests.specs.Requests as definition;
ghost use Rattle.mx_pdu.specs.Offers.{Judge, offer_by};
ghost use Rattle.mx_event_reading.specs.BodiesRead.{AreOffered, object_of};

use crate::faults::Fault;
use json::Scratch;
use mx_body::{
    BodyError, MOST_EPHEMERAL_EVENTS, MOST_EVENTS, body_value, event_text, transaction_texts,
};
use mx_canon::check;
use mx_event_reading::{BodyRead, EventsRead, read_body};
use mx_pdu::{Offered, PduError, TextError, Verifier};
use mx_redact::field;
use serde_json::{Map, Value};
use std::alloc::{AllocError, Global};

/// How many bytes the canonical text of an event has at most.
///
/// Source: the Matrix specification, Client-Server API, "Size limits".
const LONGEST_EVENT: usize = 65_536;

/// How many bytes a body has at most of which a JSON value is made. A longer one is read by its tokens to the texts of
/// its events, which takes longer, and memory of a few times its length. A value takes 130 times the length of its text
/// at most, so here some 9 MB.
const LONGEST_VALUE: usize = 65_536;

/// The events of a transaction that are well formed, in their order, each with its id and the verifier's answer.
///
/// None where `pdus` is no array of at most [`MOST_EVENTS`], or `edus` is there and is no array of at most
/// [`MOST_EPHEMERAL_EVENTS`]. `NotJson` as for a body; `Memory`. Source: the Matrix specification, Server-Server API,
/// `PUT /_matrix/federation/v1/send/{txnId}`.
///
/// A body of at most [`LONGEST_VALUE`] bytes whose events all come in canonical JSON is read to these, and another
/// one to its value, out of which the events are taken. Of a longer one no value is made, and of its events one at a time.
/// One contract says of all ways which events they give. The scratch is kept from body to body.
pub(crate) fn transaction_events<V: Verifier>(
    alloc: Global,
    scratch: &mut Scratch,
    body: &[u8],
    verifier: &V,
) -> Result<Option<Vec<Offered>>, Fault>
    ensures ok { IfOk result (λ events.
        AreEventsOf (offer_by (V.judges verifier.now)) body.now (option_map (λ events. events.items) events)) }
    ensures err { IfErr result (IsFaultOf body.now) }
{
    if body.len() > LONGEST_VALUE {
        return events_by_texts(alloc, scratch, body, verifier);
    }
    match read_body(alloc, scratch, verifier, body) {
        Ok(BodyRead::Events(read)) => Ok(events_read(read)),
        Ok(BodyRead::Value(value)) => {
            let events = events_of_value(alloc, value, verifier)?;
            Ok(events)
        }
        Err(BodyError::Memory) => Err(Fault::Memory),
        Err(BodyError::NotJson) => Err(Fault::NotJson),
    }
}

/// The event that a body is JSON for, as it is offered; none where it is malformed.
///
/// `NotJson` as for a body; `Memory`. Source: the Matrix specification, Server-Server API, "Joining Rooms".
///
/// The body is read as a transaction's is, by its length: to its value or to its text.
pub(crate) fn event_of_body<V: Verifier>(
    alloc: Global,
    scratch: &mut Scratch,
    body: &[u8],
    verifier: &V,
) -> Result<Option<Offered>, Fault>
    ensures ok { IfOk result (IsEventOf (offer_by (V.judges verifier.now)) body.now) }
    ensures err { IfErr result (IsFaultOf body.now) }
{
    if body.len() > LONGEST_VALUE {
        return event_by_text(alloc, scratch, body, verifier);
    }
    let value = value_of_body(alloc, scratch, body)?;
    let event = well_formed(alloc, value, verifier)?;
    Ok(event)
}

// ---- bodies of which a value is made

// The value that a body is JSON for. `NotJson`; `Memory`.
fn value_of_body(alloc: Global, scratch: &mut Scratch, body: &[u8]) -> Result<Value, Fault>
    ensures ok { IfOk result (λ value. definition.body_value body.now ≡ Ok (view value)) }
    ensures err { IfErr result (IsFaultOf body.now) }
{
    match body_value(alloc, scratch, body) {
        Ok(value) => Ok(value),
        Err(BodyError::Memory) => Err(Fault::Memory),
        Err(BodyError::NotJson) => Err(Fault::NotJson),
    }
}

// The well-formed events of the transaction that a value is; none where it is no transaction.
fn events_of_value<V: Verifier>(
    alloc: Global,
    value: Value,
    verifier: &V,
) -> Result<Option<Vec<Offered>>, AllocError>
    ensures { IfOk result (λ events. option_map (λ events. events.items) events
        ≡ option_map (map (offer_by (V.judges verifier.now))) (definition.events_in (view value))) }
{
    match value {
        Value::Object(members) => events_of_members(alloc, members, verifier),
        _ => Ok(None),
    }
}

fn events_of_members<V: Verifier>(
    alloc: Global,
    mut members: Map<String, Value>,
    verifier: &V,
) -> Result<Option<Vec<Offered>>, AllocError>
    ensures { IfOk result (λ events. option_map (λ events. events.items) events
        ≡ option_map (map (offer_by (V.judges verifier.now))) (definition.events_in (object (members_view members.entries)))) }
{
    if !has_few_ephemeral_events(&members) {
        return Ok(None);
    }
    match members.remove("pdus") {
        Some(events) => events_in(alloc, events, verifier),
        None => Ok(None),
    }
}

// The events of a transaction that were read; none where it is no transaction.
fn events_read(read: EventsRead) -> Option<Vec<Offered>>
    ensures { (judges : Judge) → AreOffered judges read.events.items → option_map (λ events. events.items) result
        ≡ option_map (map (offer_by judges)) (definition.events_in (object_of read)) }
{
    let EventsRead { events, others } = read;
    if !has_few_ephemeral_events(&others) {
        return None;
    }
    if events.len() > MOST_EVENTS {
        return None;
    }
    Some(events)
}

fn has_few_ephemeral_events(members: &Map<String, Value>) -> bool
    ensures { result ≡ is_none_or (definition.is_array_up_to 100)
        (field_of (codes "edus") (object (members_view members.now.entries))) }
{
    match field(members, "edus") {
        Some(events) => is_array_up_to(events, MOST_EPHEMERAL_EVENTS),
        None => true,
    }
}

fn is_array_up_to(value: &Value, most: usize) -> bool
    ensures { result ≡ definition.is_array_up_to most (view value.now) }
{
    match value.as_array() {
        Some(entries) => entries.len() <= most,
        None => false,
    }
}

// ---- longer bodies, of which no value is made

// The well-formed events of a transaction, by the texts of its entries.
fn events_by_texts<V: Verifier>(
    alloc: Global,
    scratch: &mut Scratch,
    body: &[u8],
    verifier: &V,
) -> Result<Option<Vec<Offered>>, Fault>
    ensures ok { IfOk result (λ events.
        AreEventsOf (offer_by (V.judges verifier.now)) body.now (option_map (λ events. events.items) events)) }
    ensures err { IfErr result (IsFaultOf body.now) }
{
    match transaction_texts(alloc, scratch, body, LONGEST_EVENT) {
        Ok(Some(texts)) => {
            let events = events_of_texts(alloc, texts, verifier)?;
            Ok(Some(events))
        }
        Ok(None) => Ok(None),
        Err(BodyError::Memory) => Err(Fault::Memory),
        Err(BodyError::NotJson) => Err(Fault::NotJson),
    }
}

// The event that a body is JSON for, by its text.
fn event_by_text<V: Verifier>(
    alloc: Global,
    scratch: &mut Scratch,
    body: &[u8],
    verifier: &V,
) -> Result<Option<Offered>, Fault>
    ensures ok { IfOk result (IsEventOf (offer_by (V.judges verifier.now)) body.now) }
    ensures err { IfErr result (IsFaultOf body.now) }
{
    match event_text(alloc, scratch, body, LONGEST_EVENT) {
        Ok(Some(text)) => {
            let event = event_of_text(alloc, &text, verifier)?;
            Ok(event)
        }
        Ok(None) => Ok(None),
        Err(BodyError::Memory) => Err(Fault::Memory),
        Err(BodyError::NotJson) => Err(Fault::NotJson),
    }
}

// The well-formed events that these texts are JSON for.
fn events_of_texts<V: Verifier>(
    alloc: Global,
    texts: Vec<Vec<u8>>,
    verifier: &V,
) -> Result<Vec<Offered>, AllocError>
    ensures { IfOk result (λ events.
        events.items ≡ offered_in (offer_by (V.judges verifier.now)) (texts_of texts.items)) }
{
    let mut events = Vec::with_capacity(alloc, texts.len())?;
    for text in texts {
        if let Some(event) = event_of_text(alloc, &text, verifier)? {
            events.push(event)?;
        }
    }
    Ok(events)
}

// The event that a text is JSON for; none where it is malformed, or no JSON. An event keeps the text that is its own.
fn event_of_text<V: Verifier>(
    alloc: Global,
    text: &[u8],
    verifier: &V,
) -> Result<Option<Offered>, AllocError>
    ensures { IfOk result (λ event.
        event ≡ option_and_then (offered_if_formed (offer_by (V.judges verifier.now))) (definition.json_of text.now)) }
{
    let Ok(own) = str::from_utf8(text) else {
        return Ok(None);
    };
    match Offered::from_text(alloc, own, verifier) {
        Ok(event) => Ok(Some(event)),
        Err(TextError::Memory) => Err(AllocError),
        Err(TextError::NotAnEventText) => event_of_json(alloc, text, verifier),
    }
}

// The event that a text is JSON for; none where it is malformed, or no JSON.
fn event_of_json<V: Verifier>(
    alloc: Global,
    text: &[u8],
    verifier: &V,
) -> Result<Option<Offered>, AllocError>
    ensures { IfOk result (λ event.
        event ≡ option_and_then (offered_if_formed (offer_by (V.judges verifier.now))) (definition.json_of text.now)) }
{
    match Value::from_slice(alloc, text) {
        Ok(value) => well_formed(alloc, value, verifier),
        Err(error) => if error.is_memory() {
            Err(AllocError)
        } else {
            Ok(None)
        },
    }
}

/// The well-formed events among the entries of an array, in their order, each with its id and the verifier's answer; none
/// where the value is no array of at most 50. `AllocError` where it is one and no memory is left.
pub fn events_in<V: Verifier>(
    alloc: Global,
    value: Value,
    verifier: &V,
) -> Result<Option<Vec<Offered>>, AllocError>
    ensures { IfOk result (λ events. option_map (λ events. events.items) events
        ≡ option_map (map (offer_by (V.judges verifier.now))) (option_map (filter is_well_formed) (definition.entries_up_to 50 (view value)))) }
{
    let Value::Array(entries) = value else {
        return Ok(None);
    };
    if entries.len() > MOST_EVENTS {
        return Ok(None);
    }
    let events = well_formed_among(alloc, entries, verifier)?;
    Ok(Some(events))
}

fn well_formed_among<V: Verifier>(
    alloc: Global,
    entries: Vec<Value>,
    verifier: &V,
) -> Result<Vec<Offered>, AllocError>
    ensures { IfOk result (λ events.
        events.items ≡ map (offer_by (V.judges verifier.now)) (filter is_well_formed (map view entries.items))) }
{
    let mut events = Vec::with_capacity(alloc, entries.len())?;
    for entry in entries {
        if let Some(event) = well_formed(alloc, entry, verifier)? {
            events.push(event)?;
        }
    }
    Ok(events)
}

/// The event that a value is, as it is offered; none where it is malformed. `AllocError` where no memory is left for it.
///
/// Its canonical text is written once, and not counted before.
pub fn well_formed<V: Verifier>(
    alloc: Global,
    value: Value,
    verifier: &V,
) -> Result<Option<Offered>, AllocError>
    ensures { IfOk result (λ event.
        event ≡ (if is_well_formed (view value) then Some (offer_by (V.judges verifier.now) (view value)) else None)) }
{
    let Ok(()) = check(&value) else {
        return Ok(None);
    };
    let text = value.to_string(alloc)?;
    match Offered::from_canonical(alloc, value, text, verifier) {
        Ok(event) => Ok(Some(event)),
        Err(PduError::Memory) => Err(AllocError),
        Err(PduError::NotAnEvent(_)) => Ok(None),
    }
}
