// The events in conflict, of each state those that are its own.
ghost use Rattle.std.specs.Prelude.{◌≡◌, ◌<◌, ◌∷◌, ℕ, All, IfOk, List, flat_map, length, map, true};
ghost use Rattle.std.specs.List.{AllZip};
ghost use Rattle.mx_graph.specs.Record.{is_in};
ghost use Rattle.mx_state_res.specs.Numbered.{HaveSameEvents};
ghost use Rattle.mx_state_res.specs.Numbered as definition;
ghost use Rattle.mx_states.specs.Numbered.{IsDiffering, events_at, state_at};

use crate::conflicts::numbered_conflicts::all_are_sorted;
use mx_graph::EventNo;
use mx_states::{StateMap, StateNo, States};
use std::alloc::{AllocError, Global};

// At more keys not all events of each state are taken.
const MOST_KEYS: usize = 8;

/// Of each of some states, in their order, events that it has at the keys at which they are not all alike: of all states
/// together these are all events in conflict. `base` is the first of them.
///
/// At eight keys or fewer they are all that a state has there, and the time is that of the keys for each state. At more
/// keys they are, of each state but the first, those that the first hasn't at the same key, and the time is that of the keys,
/// and of where each state differs from the first. `AllocError` where no memory is left.
pub(crate) fn parts_in_conflict(
    alloc: Global,
    states: &States,
    numbers: &[StateNo],
    base: StateNo,
    keys: &StateMap,
) -> Result<Vec<Vec<EventNo>>, AllocError>
    requires numbers { All (λ number. number < length states.now) numbers.now }
    requires base { (others : List ℕ) × (numbers.now ≡ base ∷ others) }
    requires differing { IsDiffering keys.now (map (state_at states.now) numbers.now) }
    ensures own { IfOk result (λ parts. AllZip (λ part whole. (p : ℕ) → is_in part p ≡ true → is_in whole p ≡ true)
        (map (λ part. part.items) parts.items) (map (events_at keys.now) (map (state_at states.now) numbers.now))) }
    ensures all { IfOk result (λ parts. (p : ℕ) → is_in (flat_map (λ part. part) (map (λ part. part.items) parts.items)) p
        ≡ is_in (flat_map (λ whole. whole) (map (events_at keys.now) (map (state_at states.now) numbers.now))) p) }
{
    all_are_sorted(states, numbers);
    let are_few = keys.entries().len() <= MOST_KEYS;
    if are_few {
        let whole = states.events_at_keys(alloc, numbers, keys)?;
        return Ok(whole);
    }
    let parts = event_parts(alloc, states, base, &numbers[1..], keys)?;
    Ok(parts)
}

// Of the first of some states, `base`, its events at some keys, and of each of the others, in their order, those that the
// first hasn't at the same key.
fn event_parts(
    alloc: Global,
    states: &States,
    base: StateNo,
    others: &[StateNo],
    keys: &StateMap,
) -> Result<Vec<Vec<EventNo>>, AllocError>
    requires base { base < length states.now }
    requires others { All (λ number. number < length states.now) others.now }
    ensures { IfOk result (λ parts. HaveSameEvents (map (λ part. part.items) parts.items)
        (definition.event_parts keys.now (state_at states.now base) (map (state_at states.now) others.now))) }
{
    let mut parts = states.events_at_keys(alloc, &[base], keys)?;
    for number in others {
        let part = own_events(alloc, states, base, *number)?;
        parts.push(part)?;
    }
    Ok(parts)
}

// The events that a state has and another one hasn't at the same key.
fn own_events(
    alloc: Global,
    states: &States,
    other: StateNo,
    number: StateNo,
) -> Result<Vec<EventNo>, AllocError>
    requires other { other < length states.now }
    requires number { number < length states.now }
    ensures { IfOk result (λ events. (p : ℕ) → is_in events.items p
        ≡ is_in (definition.own_events (state_at states.now other) (state_at states.now number)) p) }
{
    states.state_is_sorted(other);
    states.state_is_sorted(number);
    let differing = states.differing(alloc, &[other, number])?;
    let mut events = Vec::new(alloc);
    for entry in differing.entries() {
        if let Some(event) = states.get(number, entry.kind(), entry.state_key()) {
            events.push(event)?;
        }
    }
    Ok(events)
}
