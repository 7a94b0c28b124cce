// The event by which a state differs from one that was resolved.
ghost use Rattle.std.specs.Prelude.{◌≡◌, ◌<◌, ◌⊎◌, All, IfOk, IfSome, None, Some, T, false, is_some, length, true};
ghost use Rattle.std.specs.FinMap.Entries.{is_sorted};
ghost use Rattle.mx_auth.specs.Rules.{key_of};
ghost use Rattle.mx_graph.specs.Record as record_of;
ghost use Rattle.mx_graph.specs.Record.{is_in};
ghost use Rattle.mx_orders.specs.Lists.{In};
ghost use Rattle.mx_graph.specs.StateMap.{entry as entry_at, key_cmp};
ghost use Rattle.mx_state_res.specs.KeptResolutions.{DifferAtKeys, IsAdded, IsKeptAside, events_checked, first_of, states_of};
ghost use Rattle.mx_state_res.specs.Numbered.{AreKnown};
ghost use Rattle.mx_states.specs.Numbered.{state_at};
ghost use Rattle.mx_state_res.specs.Resolution as definition;

use crate::checks::powers::is_power_event;
use crate::conflicts::numbered_conflicts::all_are_sorted;
use crate::kept_resolutions::KeptResolution;
use crate::kept_resolutions::checked_events::is_checked;
use crate::kept_resolutions::reached_events::reach_alike;
use mx_auth::is_at;
use mx_graph::{EventNo, Graph, graph_is_sound};
use mx_states::{StateEntry, StateNo, StateRef, States};
use std::alloc::{AllocError, Global};

// With so many of the states that were resolved, from the last, a new one is compared.
const MOST_COMPARED: usize = 16;
// At so many keys it may differ from that one.
const MOST_KEYS: usize = 8;

// The event by which a state differs from one of the last that were resolved, where there is one.
pub(crate) fn added_event(
    alloc: Global,
    graph: &Graph,
    states: &States,
    kept: &KeptResolution,
    newest: StateNo,
) -> Result<Option<EventNo>, AllocError>
    requires newest { newest < length states.now }
    requires known { AreKnown graph.now states.now }
    requires numbers { All (λ number. number < length states.now) kept.now.numbers.items }
    requires at_keys { DifferAtKeys graph.now (states_of states.now kept.now) (first_of states.now kept.now) kept.now }
    ensures { IfOk result (λ told. IfSome told (IsAdded graph.now states.now kept.now newest)) }
{
    all_are_sorted(states, &kept.numbers);
    let mut left = kept.numbers.len();
    let fewest = left.saturating_sub(MOST_COMPARED);
    while left > fewest {
        left -= 1;
        let event = event_beside(alloc, graph, states, kept, kept.numbers[left], newest)?;
        if event.is_some() {
            return Ok(event);
        }
    }
    Ok(None)
}

// The event by which a state differs from one that was resolved: new among what is in conflict, and no power event. What
// else is not alike in the two is in conflict already.
fn event_beside(
    alloc: Global,
    graph: &Graph,
    states: &States,
    kept: &KeptResolution,
    number: StateNo,
    newest: StateNo,
) -> Result<Option<EventNo>, AllocError>
    requires among { In number kept.now.numbers.items }
    requires sorted { All (λ number. T (is_sorted key_cmp (state_at states.now number))) kept.now.numbers.items }
    requires newest { newest < length states.now }
    requires known { AreKnown graph.now states.now }
    requires numbers { All (λ number. number < length states.now) kept.now.numbers.items }
    requires at_keys { DifferAtKeys graph.now (states_of states.now kept.now) (first_of states.now kept.now) kept.now }
    ensures { IfOk result (λ told. IfSome told (IsAdded graph.now states.now kept.now newest)) }
{
    graph_is_sound(graph);
    states.state_is_sorted(newest);
    let differing = states.differing(alloc, &[number, newest])?;
    let entries = differing.entries();
    if entries.len() > MOST_KEYS {
        return Ok(None);
    }
    let (before, later) = (states.state(number), states.state(newest));
    let Some(entry) = new_entry(kept, &later, entries) else {
        return Ok(None);
    };
    let Some(event) = new_event(graph, kept, &before, &later, entry) else {
        return Ok(None);
    };
    if !are_aside(kept, &later, entry, entries) {
        return Ok(None);
    }
    if !reach_alike(graph, &kept.order, entries, &before, &later) {
        return Ok(None);
    }
    Ok(Some(event))
}

// The first of these entries at whose key a state has an event that was not checked.
fn new_entry<'e>(
    kept: &KeptResolution,
    later: &StateRef<'_>,
    entries: &'e [StateEntry],
) -> Option<&'e StateEntry> {
    for entry in entries {
        if !is_settled_at(kept, later, entry) {
            return Some(entry);
        }
    }
    None
}

// The event of a state at the key of an entry, where it was not checked, is no power event, and either states are in conflict
// there already or the state before has nothing there.
fn new_event(
    graph: &Graph,
    kept: &KeptResolution,
    before: &StateRef<'_>,
    later: &StateRef<'_>,
    entry: &StateEntry,
) -> Option<EventNo>
    requires { All (λ e. e.1 < length graph.now) later.now }
    ensures { IfSome result (λ event.
        (event < length graph.now)
        × (entry_at later.now entry.now.0 ≡ Some event)
        × (key_of (record_of.event graph.now event) ≡ Some entry.now.0)
        × (is_in (events_checked kept.now.order.items) event ≡ false)
        × (definition.is_power_event (record_of.event graph.now event) ≡ false)
        × ((entry_at before.now entry.now.0 ≡ None) ⊎ (is_some (entry_at kept.now.differing entry.now.0) ≡ true))) }
{
    let (kind, state_key) = (entry.kind(), entry.state_key());
    let event = later.get(kind, state_key)?;
    let row = &graph.row(event).event;
    if !is_at(row, kind, state_key) || is_power_event(row) {
        return None;
    }
    if !is_open_at(kept, before, kind, state_key) {
        return None;
    }
    if is_checked(&kept.order, event) {
        return None;
    }
    Some(event)
}

// Whether a state has nothing at a type and a state key, or states are in conflict there.
fn is_open_at(kept: &KeptResolution, state: &StateRef<'_>, kind: &str, state_key: &str) -> bool
    ensures { result ≡ true → (entry_at state.now (kind.now, state_key.now) ≡ None)
        ⊎ (is_some (entry_at kept.now.differing (kind.now, state_key.now)) ≡ true) }
{
    state.get(kind, state_key).is_none() || kept.differing.get(kind, state_key).is_some()
}

// Whether, at the keys of all entries but one, states are in conflict, and what a state has there was checked.
fn are_aside(
    kept: &KeptResolution,
    later: &StateRef<'_>,
    own: &StateEntry,
    entries: &[StateEntry],
) -> bool
    ensures { result ≡ true → All (λ e. (e.0 ≡ own.now.0) ⊎ IsKeptAside kept.now later.now e.0) entries.now }
{
    for entry in entries {
        if !is_own_or_aside(kept, later, own, entry) {
            return false;
        }
    }
    true
}

// Whether an entry is at the key of another, or states are in conflict at its key, and what a state has there was checked.
fn is_own_or_aside(
    kept: &KeptResolution,
    later: &StateRef<'_>,
    own: &StateEntry,
    entry: &StateEntry,
) -> bool
    ensures { result ≡ true → (entry.now.0 ≡ own.now.0) ⊎ IsKeptAside kept.now later.now entry.now.0 }
{
    let (kind, state_key) = (entry.kind(), entry.state_key());
    if kind == own.kind() && state_key == own.state_key() {
        return true;
    }
    if kept.differing.get(kind, state_key).is_none() {
        return false;
    }
    is_settled_at(kept, later, entry)
}

// Whether what a state has at the key of an entry was checked, if it has anything there.
fn is_settled_at(kept: &KeptResolution, later: &StateRef<'_>, entry: &StateEntry) -> bool
    ensures { result ≡ true → IfSome (entry_at later.now entry.now.0) (λ event. is_in (events_checked kept.now.order.items) event ≡ true) }
{
    match later.get(entry.kind(), entry.state_key()) {
        Some(event) => is_checked(&kept.order, event),
        None => true,
    }
}
