// What becomes of an event among others that are checked.
ghost use Rattle.std.specs.Prelude.{◌≡◌, ◌≤◌, ◌<◌, ◌++◌, ◌∷◌, IfOk, IfSome, Some, [], drop, false, length, take};
ghost use Rattle.mx_pdu.specs.StateKeys.{Key};
ghost use Rattle.mx_auth.specs.Rules.{key_of};
ghost use Rattle.mx_graph.specs.Record as record_of;
ghost use Rattle.mx_graph.specs.Record.{is_in};
ghost use Rattle.mx_orders.specs.Mainline.{mainline_cmp, put_in_order};
ghost use Rattle.mx_state_res.specs.KeptResolutions.{IsKept, IsOutcome, events_checked, state_before, states_of};
ghost use Rattle.mx_state_res.specs.LaterResolution.{agreed_line};
ghost use Rattle.mx_state_res.specs.Numbered.{AreKnown};
ghost use Rattle.mx_states.specs.Numbered.{state_at};
ghost use Rattle.mx_state_res.specs.Resolution.{iterative_auth_checks, unconflicted};

use crate::checks::working_states::WorkingState;
use crate::kept_resolutions::KeptResolution;
use crate::kept_resolutions::added_places::place_of;
use crate::kept_resolutions::checked_events::is_put;
use crate::kept_resolutions::checked_places::{KeptChecks, is_put_at_place, stays_behind};
use crate::kept_resolutions::standing_events::PutEvent;
use mx_auth::RoomVersion;
use mx_graph::{EventNo, Graph, graph_is_sound};
use mx_states::{StateMap, States};
use std::alloc::{AllocError, Global};

/// What becomes of an event among others that are checked.
#[derive(Clone, Copy, Debug)]
pub(crate) enum Outcome {
    // It is not put.
    Refused,
    // It is put, and another event comes in its place.
    Replaced,
    // It is put, and stays.
    Stays,
}

impl Outcome {
    ghost use Rattle.std.specs.Prelude.{◌≡◌};
    ghost use Rattle.mx_state_res.specs.KeptResolutions.{is_put_by, put_outcome};

    // What becomes of an event that is put, and stays or does not.
    fn of_put(stays: bool) -> Outcome
        ensures { result ≡ put_outcome stays }
    {
        if stays {
            Outcome::Stays
        } else {
            Outcome::Replaced
        }
    }

    /// Whether it is put.
    pub(crate) fn is_put(self) -> bool
        ensures { result ≡ is_put_by self }
    {
        match self {
            Outcome::Refused => false,
            Outcome::Replaced | Outcome::Stays => true,
        }
    }
}

/// The place of an event in the order of those that were checked, and what becomes of it there; `None` where that is not
/// told, since another event would be judged otherwise because of it.
pub(crate) fn outcome_of(
    version: RoomVersion,
    alloc: Global,
    graph: &Graph,
    states: &States,
    kept: &KeptResolution,
    event: EventNo,
) -> Result<Option<(usize, Outcome)>, AllocError>
    requires event { event < length graph.now }
    requires known { AreKnown graph.now states.now }
    requires kept { IsKept version graph.now states.now kept.now }
    requires new { is_in (events_checked kept.now.order.items) event ≡ false }
    ensures place { IfOk result (λ told. IfSome told (λ found. found.0 ≤ length kept.now.order.items)) }
    ensures placed { IfOk result (λ told. IfSome told (λ found.
        put_in_order (mainline_cmp graph.now (agreed_line graph.now (states_of states.now kept.now))) event (events_checked kept.now.order.items)
        ≡ take found.0 (events_checked kept.now.order.items) ++ (event ∷ drop found.0 (events_checked kept.now.order.items)))) }
    ensures outcome { (key : Key) → key_of (record_of.event graph.now event) ≡ Some key → IfOk result (λ told. IfSome told (λ found.
        IsOutcome version graph.now key event
        (iterative_auth_checks version graph.now (unconflicted (states_of states.now kept.now)) (take found.0 (events_checked kept.now.order.items)))
        (drop found.0 (events_checked kept.now.order.items)) found.1)) }
{
    graph_is_sound(graph);
    let Some(base) = kept.numbers.first() else {
        return Ok(None);
    };
    states.state_is_sorted(*base);
    let mut state = WorkingState::without(alloc, states.state(*base), &kept.differing);
    let power_levels = state.get("m.room.power_levels", "");
    let place = place_of(alloc, graph, &power_levels, &kept.order, event)?;
    if kept.are_settled && place == kept.order.len() {
        let outcome = outcome_at_end(version, alloc, graph, states, kept, event);
        return Ok(Some((place, outcome)));
    }
    let checks = KeptChecks {
        version,
        alloc,
        graph,
        states,
        kept,
    };
    match outcome_at(&checks, place, event)? {
        Some(outcome) => Ok(Some((place, outcome))),
        None => Ok(None),
    }
}

// What becomes of an event that is checked after all others, in what was resolved of them.
fn outcome_at_end(
    version: RoomVersion,
    alloc: Global,
    graph: &Graph,
    states: &States,
    kept: &KeptResolution,
    event: EventNo,
) -> Outcome
    requires event { event < length graph.now }
    requires known { AreKnown graph.now states.now }
    requires below { kept.now.resolved < length states.now }
    ensures { (key : Key) → IsOutcome version graph.now key event (state_at states.now kept.now.resolved) [] result }
{
    states.state_is_sorted(kept.resolved);
    let nothing = StateMap::new(alloc);
    let state = WorkingState::without(alloc, states.state(kept.resolved), &nothing);
    if is_put(version, graph, &state, event) {
        Outcome::Stays
    } else {
        Outcome::Refused
    }
}

// What becomes of an event at a place among others that are checked.
fn outcome_at(
    checks: &KeptChecks<'_>,
    place: usize,
    event: EventNo,
) -> Result<Option<Outcome>, AllocError>
    requires known { AreKnown checks.now.graph.now checks.now.states.now }
    requires kept { IsKept checks.now.version checks.now.graph.now checks.now.states.now checks.now.kept.now }
    requires place { place ≤ length checks.now.kept.now.order.items }
    requires event { event < length checks.now.graph.now }
    ensures { (key : Key) → key_of (record_of.event checks.now.graph.now event) ≡ Some key → IfOk result (λ told. IfSome told
        (IsOutcome checks.now.version checks.now.graph.now key event
        (state_before checks.now.version checks.now.graph.now checks.now.states.now checks.now.kept.now place)
        (drop place (events_checked checks.now.kept.now.order.items)))) }
{
    if !is_put_at_place(checks, place, event)? {
        return Ok(Some(Outcome::Refused));
    }
    let row = &checks.graph.row(event).event;
    let kind = row.kind();
    let Some(state_key) = row.state_key() else {
        return Ok(None);
    };
    let put = PutEvent {
        event,
        kind,
        state_key,
    };
    let Some(is_last) = stays_behind(checks, place, &put)? else {
        return Ok(None);
    };
    Ok(Some(Outcome::of_put(is_last)))
}
