// An event at a place among others that were checked.
ghost use Rattle.std.specs.Prelude.{◌≡◌, ◌≤◌, ◌<◌, All, IfOk, IfSome, Some, T, drop, length, true};
ghost use Rattle.std.specs.FinMap.Entries.{is_sorted, put as put_in};
ghost use Rattle.mx_graph.specs.StateMap.{key_cmp};
ghost use Rattle.mx_state_res.specs.KeptResolutions.{IsKept, events_checked, state_before, states_of};
ghost use Rattle.mx_state_res.specs.LaterResolution as later;
ghost use Rattle.mx_state_res.specs.Numbered.{AreKnown, shown_by};
ghost use Rattle.mx_state_res.specs.Resolution.{unconflicted};
ghost use Rattle.mx_state_res.specs.TouchedKeys.{HasKeysOf, IsUntouched};

use crate::checks::working_states::WorkingState;
use crate::kept_resolutions::KeptResolution;
use crate::kept_resolutions::checked_events::{CheckedEvent, is_put, is_put_at, needs};
use crate::kept_resolutions::standing_events::{
    EventsBefore, PutEvent, is_put_beside, put_judged_by,
};
use mx_auth::RoomVersion;
use mx_graph::{EventNo, Graph};
use mx_states::States;
use std::alloc::{AllocError, Global};

/// The checks of the events of a resolution that is kept.
#[derive(Drop)]
pub(crate) struct KeptChecks<'a> {
    pub(crate) version: RoomVersion,
    pub(crate) alloc: Global,
    pub(crate) graph: &'a Graph,
    pub(crate) states: &'a States,
    pub(crate) kept: &'a KeptResolution,
}

/// Whether an event is put where it is checked at a place among the others.
pub(crate) fn is_put_at_place(
    checks: &KeptChecks<'_>,
    place: usize,
    event: EventNo,
) -> Result<bool, AllocError>
    requires known { AreKnown checks.now.graph.now checks.now.states.now }
    requires kept { IsKept checks.now.version checks.now.graph.now checks.now.states.now checks.now.kept.now }
    requires place { place ≤ length checks.now.kept.now.order.items }
    requires event { event < length checks.now.graph.now }
    ensures { IfOk result (λ is_put. is_put ≡ later.is_put checks.now.version checks.now.graph.now
        (state_before checks.now.version checks.now.graph.now checks.now.states.now checks.now.kept.now place) event) }
{
    let mut state = agreed_state(checks);
    let (front, _) = checks.kept.order.split_at(place);
    let before = EventsBefore {
        graph: checks.graph,
        order: front,
        put_keys: &checks.kept.touched.put_keys,
    };
    put_judged_by(checks.version, &before, &mut state, event)?;
    Ok(is_put(checks.version, checks.graph, &state, event))
}

// The state in which the first of the events is checked.
fn agreed_state<'a>(checks: &KeptChecks<'a>) -> WorkingState<'a>
    requires known { AreKnown checks.now.graph.now checks.now.states.now }
    requires kept { IsKept checks.now.version checks.now.graph.now checks.now.states.now checks.now.kept.now }
    ensures shown { shown_by result ≡ unconflicted (states_of checks.now.states.now checks.now.kept.now) }
    ensures sorted { T (is_sorted key_cmp (shown_by result)) }
    ensures known { All (λ e. e.1 < length checks.now.graph.now) (shown_by result) }
{
    let kept = checks.kept;
    let states = checks.states;
    let base = kept.numbers[0];
    states.state_is_sorted(base);
    WorkingState::without(checks.alloc, states.state(base), &kept.differing)
}

/// Whether an event that is put at its key, before the event at a place, stays there while the others from this place on are
/// checked; `None` where one of them would be judged otherwise. Where none of them needs the key, and none was put there, none
/// is looked at.
pub(crate) fn stays_behind(
    checks: &KeptChecks<'_>,
    place: usize,
    put: &PutEvent<'_>,
) -> Result<Option<bool>, AllocError>
    requires known { AreKnown checks.now.graph.now checks.now.states.now }
    requires kept { IsKept checks.now.version checks.now.graph.now checks.now.states.now checks.now.kept.now }
    requires place { place ≤ length checks.now.kept.now.order.items }
    requires event { put.now.event < length checks.now.graph.now }
    ensures { IfOk result (λ told. IfSome told (λ here.
        later.stays checks.now.version checks.now.graph.now (put.now.kind.now, put.now.state_key.now) put.now.event
        (state_before checks.now.version checks.now.graph.now checks.now.states.now checks.now.kept.now place)
        (drop place (events_checked checks.now.kept.now.order.items)) ≡ Some here)) }
{
    if is_untouched(checks, put) {
        return Ok(Some(true));
    }
    let kept = checks.kept;
    for at in place..kept.order.len() {
        let checked = &kept.order[at];
        if !is_judged_alike(checks, at, *checked, put)? {
            return Ok(None);
        }
        if is_put_at(checks.graph, *checked, put.kind, put.state_key) {
            return Ok(Some(false));
        }
    }
    Ok(Some(true))
}

// Whether no event needs the key of an event, and none was put there.
fn is_untouched(checks: &KeptChecks<'_>, put: &PutEvent<'_>) -> bool
    requires { All (HasKeysOf checks.now.version checks.now.graph.now checks.now.kept.now.touched) checks.now.kept.now.order.items }
    ensures { result ≡ true → IsUntouched checks.now.version checks.now.graph.now
        (put.now.kind.now, put.now.state_key.now) checks.now.kept.now.order.items }
{
    if put.kind == "m.room.create" {
        return false;
    }
    let keys = &checks.kept.touched;
    if keys.needed_keys.get(put.kind, put.state_key).is_some() {
        return false;
    }
    keys.put_keys.get(put.kind, put.state_key).is_none()
}

// Whether an event at a place is judged, with another put at its key before, as it was without.
fn is_judged_alike(
    checks: &KeptChecks<'_>,
    at: usize,
    checked: CheckedEvent,
    put: &PutEvent<'_>,
) -> Result<bool, AllocError>
    requires known { AreKnown checks.now.graph.now checks.now.states.now }
    requires kept { IsKept checks.now.version checks.now.graph.now checks.now.states.now checks.now.kept.now }
    requires place { at ≤ length checks.now.kept.now.order.items }
    requires checked { checked.event < length checks.now.graph.now }
    requires event { put.now.event < length checks.now.graph.now }
    requires was { checked.is_put ≡ later.is_put checks.now.version checks.now.graph.now
        (state_before checks.now.version checks.now.graph.now checks.now.states.now checks.now.kept.now at) checked.event }
    ensures { IfOk result (λ alike. alike ≡ true → later.is_put checks.now.version checks.now.graph.now
        (put_in key_cmp (put.now.kind.now, put.now.state_key.now) put.now.event
        (state_before checks.now.version checks.now.graph.now checks.now.states.now checks.now.kept.now at)) checked.event
        ≡ checked.is_put) }
{
    if !needs(
        checks.version,
        checks.graph,
        checked.event,
        put.kind,
        put.state_key,
    ) {
        return Ok(true);
    }
    let state = agreed_state(checks);
    let (front, _) = checks.kept.order.split_at(at);
    let before = EventsBefore {
        graph: checks.graph,
        order: front,
        put_keys: &checks.kept.touched.put_keys,
    };
    let is_put = is_put_beside(checks.version, &before, state, checked.event, put)?;
    Ok(is_put == checked.is_put)
}
