// What is in conflict between states.
ghost use Rattle.std.specs.Prelude.{◌≡◌, IfOk, filter, map, not};
ghost use Rattle.mx_graph.specs.Record.{is_in};
ghost use Rattle.mx_states.specs.Entries as definition;

use mx_graph::EventNo;
use mx_states::{StateEntry, StateMap};
use std::alloc::{AllocError, Global};

/// Of each state, the entries that are not in the unconflicted state.
pub(crate) fn conflicted_entries(
    alloc: Global,
    agreed: &StateMap,
    states: &[&StateMap],
) -> Result<Vec<StateMap>, AllocError>
    ensures { IfOk result (λ found. found.items
        ≡ map (λ s. filter (λ e. not (definition.has_entry e agreed.now)) s.now) states.now) }
{
    let mut found = Vec::with_capacity(alloc, states.len())?;
    for state in states {
        found.push(conflicted_in(alloc, agreed, state)?)?;
    }
    Ok(found)
}

fn conflicted_in(alloc: Global, agreed: &StateMap, state: &StateMap) -> Result<StateMap, AllocError>
    ensures { IfOk result (λ found. found ≡ filter (λ e. not (definition.has_entry e agreed.now)) state.now) }
{
    let mut found = StateMap::new(alloc);
    for entry in state.entries() {
        if lacks(agreed, entry) {
            found.insert(entry.kind(), entry.state_key(), entry.event())?;
        }
    }
    Ok(found)
}

// Whether a state does not have an entry.
fn lacks(state: &StateMap, entry: &StateEntry) -> bool
    ensures { result ≡ not (definition.has_entry entry.now state.now) }
{
    !has_entry(state, entry)
}

fn has_entry(state: &StateMap, entry: &StateEntry) -> bool
    ensures { result ≡ definition.has_entry entry.now state.now }
{
    match state.get(entry.kind(), entry.state_key()) {
        Some(event) => event == entry.event(),
        None => false,
    }
}

/// The events of a list that are not in another.
pub(crate) fn without(
    alloc: Global,
    events: &[EventNo],
    others: &[EventNo],
) -> Result<Vec<EventNo>, AllocError>
    ensures { IfOk result (λ rest. rest.items ≡ filter (λ p. not (is_in others.now p)) events.now) }
{
    events
        .iter()
        .copied()
        .filter(|event| !stands_in(others, *event))
        .collect(alloc)
}

// Whether an event is one of these.
fn stands_in(events: &[EventNo], event: EventNo) -> bool
    ensures { result ≡ is_in events.now event }
{
    events.iter().any(|other| *other == event)
}
