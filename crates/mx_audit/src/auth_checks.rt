// The check of an event by its auth events, and the state that these make.
ghost use Rattle.std.specs.Prelude.{◌≡◌, ◌<◌, All, IfOk, IfSome, filter_map, find, length, map};
ghost use Rattle.mx_auth.specs.Keys.{cited_shown};
ghost use Rattle.mx_auth.specs.Rules.{key_of, same_key};
ghost use Rattle.mx_redact.specs.Fields.{is_some_and};
ghost use Rattle.mx_graph.specs.Record as record_of;
ghost use Rattle.mx_graph.specs.Record.{place_of};
ghost use Rattle.mx_receipt.specs.Receipt as receipt;
ghost use Rattle.mx_receipt.specs.Citing.{cited_in};

use crate::asking::StateLookup;
use crate::earlier_events::EarlierEvents;
use mx_auth::{CitedEvent, RoomState, Rule, is_at, judge, judge_auth_events};
use mx_graph::EventNo;
use mx_ident::EventId;
use mx_pdu::Pdu;
use std::alloc::{AllocError, Global};
use std::marker::Model;

/// The state that some events of a room make: of two with one type and state key it has the first.
#[derive(Debug, Drop)]
pub(crate) struct StateOfEvents<'a> {
    earlier: &'a EarlierEvents<'a>,
    events: &'a [EventNo],
}

impl<'a> Model for StateOfEvents<'a> {
    ghost use Rattle.std.specs.Prelude.{List, ℕ, ◌<◌, All, length};
    ghost use Rattle.mx_receipt.specs.Receipt.{Kept};
    ghost use Rattle.mx_audit.specs.EventsCode.{events_in_record_code};

    ghost Value = { List Kept × List ℕ };

    ghost coded = { events_in_record_code };

    ghost view = { λ s. (s.earlier.now, s.events.now) };

    ghost invariant = { λ s. All (λ p. p < length s.earlier.now) s.events.now };
}

impl<'a> StateOfEvents<'a> {
    ghost use Rattle.std.specs.Prelude.{◌≡◌, ◌<◌, All, IfSome, length};
    ghost use Rattle.mx_receipt.specs.Receipt.{rows_of};
    ghost use Rattle.mx_graph.specs.StateMap.{entry as entry_at};
    ghost use Rattle.mx_orders.specs.StateMap.{state_of};

    /// The state that these events make.
    pub(crate) fn of(earlier: &'a EarlierEvents<'a>, events: &'a [EventNo]) -> StateOfEvents<'a>
        requires { All (λ event. event < length earlier.now) events.now }
        ensures { result ≡ (earlier.now, events.now) }
    {
        StateOfEvents { earlier, events }
    }

    // The number of the event at a type and a state key.
    fn place_at(&self, kind: &str, key: &str) -> Option<EventNo>
        ensures number { result ≡ entry_at (state_of (rows_of self.now.0) self.now.1) (kind.now, key.now) }
        ensures known { IfSome result (λ n. n < length self.now.0) }
    {
        first_at(self.earlier, self.events, kind, key)
    }
}

impl<'a> StateLookup for StateOfEvents<'a> {
    ghost use Rattle.mx_receipt.specs.Receipt.{rows_of};
    ghost use Rattle.mx_orders.specs.StateMap.{state_of};

    ghost state = { λ s. state_of (rows_of s.0) s.1 };

    fn number_at(&self, kind: &str, state_key: &str) -> Option<EventNo> {
        self.place_at(kind, state_key)
    }
}

impl<'a> RoomState for StateOfEvents<'a> {
    ghost use Rattle.mx_receipt.specs.Receipt.{rows_of};
    ghost use Rattle.mx_orders.specs.StateMap.{state_of, view};

    ghost state = { λ s. view (rows_of s.0) (state_of (rows_of s.0) s.1) };

    fn create_id(&self) -> Option<&EventId> {
        match self.place_at("m.room.create", "") {
            Some(number) => Some(&self.earlier.row(number).id),
            None => None,
        }
    }

    fn entry(&self, kind: &str, key: &str) -> Option<&Pdu> {
        match self.place_at(kind, key) {
            Some(number) => Some(&self.earlier.row(number).event),
            None => None,
        }
    }
}

// The first of some events that has this type and this state key.
fn first_at(
    earlier: &EarlierEvents<'_>,
    events: &[EventNo],
    kind: &str,
    state_key: &str,
) -> Option<EventNo>
    requires { All (λ event. event < length earlier.now) events.now }
    ensures first { result ≡ find (λ p. is_some_and (same_key (kind.now, state_key.now))
        (key_of (record_of.event (receipt.rows_of earlier.now) p))) events.now }
    ensures known { IfSome result (λ event. event < length earlier.now) }
{
    for event in events {
        if is_at(&earlier.row(*event).event, kind, state_key) {
            return Some(*event);
        }
    }
    None
}

/// The numbers of the events that an event cites as its auth events, in its order, without those that are not there.
pub(crate) fn auth_events_of(
    alloc: Global,
    earlier: &EarlierEvents<'_>,
    event: &Pdu,
) -> Result<Vec<EventNo>, AllocError>
    ensures numbers { IfOk result (λ numbers. numbers.items
        ≡ record_of.auth_events (receipt.rows_of earlier.now) event.now) }
    ensures known { IfOk result (λ numbers. All (λ number. number < length earlier.now) numbers.items) }
{
    numbers_of(alloc, earlier, event.auth_events())
}

fn numbers_of(
    alloc: Global,
    earlier: &EarlierEvents<'_>,
    ids: &[EventId],
) -> Result<Vec<EventNo>, AllocError>
    ensures numbers { IfOk result (λ numbers. numbers.items
        ≡ filter_map (place_of (receipt.rows_of earlier.now)) ids.now) }
    ensures known { IfOk result (λ numbers. All (λ number. number < length earlier.now) numbers.items) }
{
    let mut numbers = Vec::with_capacity(alloc, ids.len())?;
    for id in ids {
        if let Some(number) = earlier.find(id) {
            numbers.push(number)?;
        }
    }
    Ok(numbers)
}

/// The line that does not allow an event by its auth events, which have these numbers, or in the state that they make.
///
/// Source: the Matrix specification, Server-Server API, "Checks performed on receipt of a PDU", check 4.
#[tactic(auto, unfolding(mx_receipt::specs::Receipt::auth_failure))]
pub(crate) fn auth_failure(
    alloc: Global,
    earlier: &EarlierEvents<'_>,
    event: &Pdu,
    auth_events: &[EventNo],
) -> Result<Option<Rule>, AllocError>
    requires auth { auth_events.now ≡ record_of.auth_events (receipt.rows_of earlier.now) event.now }
    requires known { All (λ number. number < length earlier.now) auth_events.now }
    ensures { IfOk result (λ rule. rule ≡ receipt.auth_failure (receipt.rows_of earlier.now) event.now) }
{
    let cited = cited_events(alloc, earlier, auth_events)?;
    let version = earlier.version();
    if let Err(rule) = judge_auth_events(version, event, &cited) {
        return Ok(Some(rule));
    }
    let state = StateOfEvents::of(earlier, auth_events);
    Ok(judge(version, event, &state).err())
}

fn cited_events<'t>(
    alloc: Global,
    earlier: &EarlierEvents<'t>,
    numbers: &[EventNo],
) -> Result<Vec<CitedEvent<'t>>, AllocError>
    requires { All (λ number. number < length earlier.now) numbers.now }
    ensures { IfOk result (λ cited. map cited_shown cited.items
        ≡ map (cited_in (receipt.rows_of earlier.now)) numbers.now) }
{
    let mut cited = Vec::with_capacity(alloc, numbers.len())?;
    for number in numbers {
        let row = earlier.row(*number);
        cited.push(CitedEvent {
            event: &row.event,
            rejected: row.rejected,
        })?;
    }
    Ok(cited)
}
