// What is kept of a resolution that was worked out from nothing.
ghost use Rattle.std.specs.Prelude.{◌≡◌, ◌<◌, All, IfOk, IfSome, IsTrue, length, map, true};
ghost use Rattle.mx_orders.specs.Mainline.{mainline, mainline_order as ordered, power_key};
ghost use Rattle.mx_graph.specs.StateMap.{entry as entry_at};
ghost use Rattle.mx_state_res.specs.KeptResolutions.{AreChecked, IsKept, events_checked, is_settled};
ghost use Rattle.mx_state_res.specs.Numbered.{AreKnown};
ghost use Rattle.mx_states.specs.Numbered.{state_at, without};
ghost use Rattle.mx_state_res.specs.Resolution as definition;
ghost use Rattle.mx_states.specs.Entries.{has_entry};

use crate::checks::powers::power_events;
use crate::checks::working_states::WorkingState;
use crate::conflicts::numbered_conflicts::{all_are_sorted, full_conflicted_at};
use crate::kept_resolutions::KeptResolution;
use crate::kept_resolutions::checked_events::{CheckedEvent, checked_each};
use crate::kept_resolutions::touched_keys::touched_keys;
use mx_auth::RoomVersion;
use mx_graph::{EventNo, Graph};
use mx_orders::mainline_order;
use mx_states::{StateMap, StateNo, States};
use std::alloc::{AllocError, Global};

/// What is kept of a resolution, where the events in conflict are no power events.
pub(crate) fn kept_resolution(
    version: RoomVersion,
    alloc: Global,
    graph: &Graph,
    states: &States,
    numbers: &[StateNo],
    resolved: StateNo,
) -> Result<Option<KeptResolution>, AllocError>
    requires numbers { All (λ number. number < length states.now) numbers.now }
    requires known { AreKnown graph.now states.now }
    requires below { resolved < length states.now }
    requires resolved { state_at states.now resolved
        ≡ definition.resolve version graph.now (map (state_at states.now) numbers.now) }
    ensures { IfOk result (λ told. IfSome told (IsKept version graph.now states.now)) }
{
    let Some((base, _)) = numbers.split_first() else {
        return Ok(None);
    };
    all_are_sorted(states, numbers);
    let differing = states.differing(alloc, numbers)?;
    let Some(_) = differing.entries().first() else {
        return Ok(None);
    };
    let full = full_conflicted_at(alloc, graph, states, numbers, *base, &differing)?;
    if !power_events(alloc, graph, &full)?.is_empty() {
        return Ok(None);
    }
    let are_settled = are_all_settled(graph, states, *base, &differing, &full);
    let order = order_checked(version, alloc, graph, states, *base, &differing, &full)?;
    let touched = touched_keys(version, alloc, graph, &order)?;
    let numbers = Vec::from_slice(alloc, numbers)?;
    Ok(Some(KeptResolution {
        numbers,
        differing,
        order,
        touched,
        are_settled,
        resolved,
    }))
}

// The events in conflict, none of which is a power event, as they are checked.
fn order_checked(
    version: RoomVersion,
    alloc: Global,
    graph: &Graph,
    states: &States,
    base: StateNo,
    differing: &StateMap,
    full: &[EventNo],
) -> Result<Vec<CheckedEvent>, AllocError>
    requires base { base < length states.now }
    requires known { AreKnown graph.now states.now }
    requires full { All (λ event. event < length graph.now) full.now }
    ensures order { IfOk result (λ order. events_checked order.items
        ≡ ordered graph.now (mainline graph.now (entry_at (without differing.now (state_at states.now base)) power_key)) full.now) }
    ensures checked { IfOk result (λ order. AreChecked version graph.now (without differing.now (state_at states.now base)) order.items) }
    ensures known { IfOk result (λ order. All (λ checked. checked.event < length graph.now) order.items) }
{
    states.state_is_sorted(base);
    let mut state = WorkingState::without(alloc, states.state(base), differing);
    let power_levels = state.get("m.room.power_levels", "");
    let order = mainline_order(alloc, graph, power_levels, full)?;
    let order = checked_each(version, alloc, graph, &mut state, &order)?;
    Ok(order)
}

// Whether each of these events stands at one of the keys of a map, or in a state.
fn are_all_settled(
    graph: &Graph,
    states: &States,
    base: StateNo,
    differing: &StateMap,
    events: &[EventNo],
) -> bool
    requires base { base < length states.now }
    requires events { All (λ event. event < length graph.now) events.now }
    ensures { IsTrue result → All (λ event.
        is_settled graph.now differing.now (state_at states.now base) event ≡ true) events.now }
{
    for event in events {
        if !is_event_settled(graph, states, base, differing, *event) {
            return false;
        }
    }
    true
}

fn is_event_settled(
    graph: &Graph,
    states: &States,
    base: StateNo,
    differing: &StateMap,
    event: EventNo,
) -> bool
    requires base { base < length states.now }
    requires event { event < length graph.now }
    ensures { result ≡ is_settled graph.now differing.now (state_at states.now base) event }
{
    let row = &graph.row(event).event;
    match row.state_key() {
        Some(state_key) => {
            differing.get(row.kind(), state_key).is_some()
                || is_entry(states, base, row.kind(), state_key, event)
        }
        None => false,
    }
}

// Whether a state has an event at a key.
fn is_entry(states: &States, state: StateNo, kind: &str, state_key: &str, event: EventNo) -> bool
    requires { state < length states.now }
    ensures { result ≡ has_entry ((kind.now, state_key.now), event) (state_at states.now state) }
{
    match states.get(state, kind, state_key) {
        Some(there) => there == event,
        None => false,
    }
}
