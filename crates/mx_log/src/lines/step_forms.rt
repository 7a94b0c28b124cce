// Lines of a log that are a step of the server.
ghost use Rattle.std.specs.Prelude.{◌≡◌, IfOk, option_map};
ghost use Rattle.serde_json.specs.Data.{object};
ghost use Rattle.serde_json.specs.View.{view, members_view};
ghost use Rattle.mx_log.specs.Lines as definition;
ghost use Rattle.mx_log.specs.LinesShown.{line_shown};
ghost use Rattle.mx_pdu.specs.Offers.{Judge, offer_by};
ghost use Rattle.mx_event_reading.specs.BodiesRead.{AreOffered, object_of};

use crate::lines::Line;
use crate::lines::keys::{TRANSACTION_KEYS, has_only, key_in};
use mx_body::MOST_EVENTS;
use mx_event_reading::EventsRead;
use mx_pdu::Verifier;
use mx_requests::{events_in, well_formed};
use mx_world::{Step, TransactionKey};
use serde_json::{Map, Value};
use std::alloc::{AllocError, Global};

const HOST_KEYS: [&str; 2] = ["step", "event"];

const OPEN_KEYS: [&str; 4] = ["step", "origin", "txn", "pdus"];

/// The line that hosts the room of its `event`. Nothing of the event is copied.
pub(crate) fn host_line<V: Verifier>(
    alloc: Global,
    verifier: &V,
    mut members: Map<String, Value>,
) -> Result<Line, AllocError>
    ensures { IfOk result (λ line. line_shown line
        ≡ definition.host_form (offer_by (V.judges verifier.now)) (object (members_view members.entries))) }
{
    if !has_only(&members, &HOST_KEYS) {
        return Ok(Line::Bad);
    }
    match members.remove("event") {
        Some(event) => hosting(alloc, verifier, event),
        None => Ok(Line::Bad),
    }
}

fn hosting<V: Verifier>(alloc: Global, verifier: &V, event: Value) -> Result<Line, AllocError>
    ensures { IfOk result (λ line. line_shown line
        ≡ definition.host_of (offer_by (V.judges verifier.now)) (view event)) }
{
    match well_formed(alloc, event, verifier)? {
        Some(event) => Ok(Line::Step(Step::Host(event))),
        None => Ok(Line::MalformedHost),
    }
}

/// The line that opens the transaction that it names, with the events in its `pdus`. Nothing of them is copied.
pub(crate) fn open_line<V: Verifier>(
    alloc: Global,
    verifier: &V,
    mut members: Map<String, Value>,
) -> Result<Line, AllocError>
    ensures { IfOk result (λ line. line_shown line
        ≡ definition.open_form (offer_by (V.judges verifier.now)) (object (members_view members.entries))) }
{
    if !has_only(&members, &OPEN_KEYS) {
        return Ok(Line::Bad);
    }
    let Some(key) = key_in(alloc, &members)? else {
        return Ok(Line::Bad);
    };
    match members.remove("pdus") {
        Some(events) => opening(alloc, verifier, key, events),
        None => Ok(Line::Bad),
    }
}

fn opening<V: Verifier>(
    alloc: Global,
    verifier: &V,
    key: TransactionKey,
    events: Value,
) -> Result<Line, AllocError>
    ensures { IfOk result (λ line. line_shown line
        ≡ definition.or_bad (option_map (definition.opening key) (definition.events_of (offer_by (V.judges verifier.now)) (view events)))) }
{
    match events_in(alloc, events, verifier)? {
        Some(events) => Ok(Line::Step(Step::Open(key, events))),
        None => Ok(Line::Bad),
    }
}

/// The line that opens the transaction that it names, with these events.
pub(crate) fn open_read(alloc: Global, read: EventsRead) -> Result<Line, AllocError>
    ensures { IfOk result (λ line. (judges : Judge) → AreOffered judges read.events.items → line_shown line
        ≡ definition.open_form (offer_by judges) (object_of read)) }
{
    let EventsRead { events, others } = read;
    if !has_only(&others, &OPEN_KEYS) {
        return Ok(Line::Bad);
    }
    if events.len() > MOST_EVENTS {
        return Ok(Line::Bad);
    }
    match key_in(alloc, &others)? {
        Some(key) => Ok(Line::Step(Step::Open(key, events))),
        None => Ok(Line::Bad),
    }
}

/// The line for the next event of the transaction that it names.
pub(crate) fn next_line(alloc: Global, members: &Map<String, Value>) -> Result<Line, AllocError>
    ensures { IfOk result (λ line. line_shown line
        ≡ definition.next_form (object (members_view members.now.entries))) }
{
    if !has_only(members, &TRANSACTION_KEYS) {
        return Ok(Line::Bad);
    }
    match key_in(alloc, members)? {
        Some(key) => Ok(Line::Step(Step::Next(key))),
        None => Ok(Line::Bad),
    }
}

/// The line that closes the transaction that it names.
pub(crate) fn close_line(alloc: Global, members: &Map<String, Value>) -> Result<Line, AllocError>
    ensures { IfOk result (λ line. line_shown line
        ≡ definition.close_form (object (members_view members.now.entries))) }
{
    if !has_only(members, &TRANSACTION_KEYS) {
        return Ok(Line::Bad);
    }
    match key_in(alloc, members)? {
        Some(key) => Ok(Line::Step(Step::Close(key))),
        None => Ok(Line::Bad),
    }
}
