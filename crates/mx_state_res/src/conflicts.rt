// Where the states of a room agree, and where they are in conflict.
ghost use Rattle.std.specs.Prelude.{◌≡◌, ◌<◌, ◌++◌, ℕ, All, IfOk, OnErr, OnOk, T, filter, flat_map, length, map, not, take};
ghost use Rattle.std.specs.FinMap.Entries.{is_sorted};
ghost use Rattle.std.specs.List.{list_all};
ghost use Rattle.mx_graph.specs.Edges.{Rises};
ghost use Rattle.mx_graph.specs.StateMap.{events_of as events_in, key_cmp};
ghost use Rattle.mx_states.specs.Entries.{has_entry};
ghost use Rattle.mx_state_res.specs.Agreed.{IsAgreed};
ghost use Rattle.mx_state_res.specs.Resolution as definition;

mod cited_events;
pub(crate) mod numbered_conflicts;
pub(crate) mod rising_lists;
mod state_parts;

use crate::chains::chain_difference::chain_difference;
use mx_graph::{EventNo, Graph, graph_is_sound, rising};
use mx_states::{StateEntry, StateMap, has_entry};
use std::alloc::{AllocError, Global};

/// The unconflicted state: the entries that every state has. `AllocError` where no memory is left.
///
/// Source: the Matrix specification, Room Version 2, "State resolution", unconflicted state map.
pub fn unconflicted(alloc: Global, states: &[&StateMap]) -> Result<StateMap, AllocError>
    ensures state { IfOk result (λ agreed. agreed ≡ definition.unconflicted (map (λ s. s.now) states.now)) }
    ensures agreed { IfOk result (λ agreed. IsAgreed agreed (map (λ s. s.now) states.now)) }
{
    match states.split_first() {
        Some((state, others)) => shared(alloc, state, others),
        None => Ok(StateMap::new(alloc)),
    }
}

// The entries of a state that each of the others has.
fn shared(alloc: Global, state: &StateMap, others: &[&StateMap]) -> Result<StateMap, AllocError>
    ensures entries { IfOk result (λ agreed. agreed
        ≡ filter (λ e. list_all (λ s. has_entry e s.now) others.now) state.now) }
    ensures sorted { T (is_sorted key_cmp state.now) }
{
    let mut agreed = StateMap::new(alloc);
    for entry in state.entries() {
        if is_in_every(others, entry) {
            agreed.insert(entry.kind(), entry.state_key(), entry.event())?;
        }
    }
    Ok(agreed)
}

// Whether every state has an entry.
fn is_in_every(states: &[&StateMap], entry: &StateEntry) -> bool
    ensures { result ≡ list_all (λ s. has_entry entry.now s.now) states.now }
{
    states.iter().all(|state| has_entry(state, entry))
}

/// For each state, the events of its entries that are not in the unconflicted state.
pub(crate) fn conflicted_events(
    alloc: Global,
    agreed: &StateMap,
    states: &[&StateMap],
) -> Result<Vec<Vec<EventNo>>, AllocError>
    ensures { IfOk result (λ found. map (λ events. events.items) found.items ≡ map
        (λ s. events_in (filter (λ e. not (has_entry e agreed.now)) s.now)) states.now) }
{
    let mut found = Vec::new(alloc);
    for state in states {
        let mut events = Vec::new(alloc);
        push_conflicted(&mut events, agreed, state)?;
        found.push(events)?;
    }
    Ok(found)
}

// At an error some of them were put.
fn push_conflicted(
    found: &mut Vec<EventNo>,
    agreed: &StateMap,
    state: &StateMap,
) -> Result<(), AllocError>
    ensures ok { OnOk result (found.new.items ≡ found.old.items
        ++ events_in (filter (λ e. not (has_entry e agreed.now)) state.now)) }
    ensures err { OnErr result ((count : ℕ) × (found.new.items ≡ found.old.items
        ++ events_in (filter (λ e. not (has_entry e agreed.now)) (take count state.now)))) }
{
    for entry in state.entries() {
        if !has_entry(agreed, entry) {
            found.push(entry.event())?;
        }
    }
    Ok(())
}

/// The events of the entries of a state.
pub(crate) fn events_of(alloc: Global, state: &StateMap) -> Result<Vec<EventNo>, AllocError>
    ensures { IfOk result (λ events. events.items ≡ events_in state.now) }
{
    state
        .entries()
        .iter()
        .map(|entry| entry.event())
        .collect(alloc)
}

/// The events of some lists, one list after another.
pub(crate) fn joined(alloc: Global, lists: &[Vec<EventNo>]) -> Result<Vec<EventNo>, AllocError>
    ensures { IfOk result (λ all. all.items ≡ flat_map (λ c. c.items) lists.now) }
{
    let mut all = Vec::new(alloc);
    for events in lists {
        all.extend_from_slice(events)?;
    }
    Ok(all)
}

/// The full conflicted set, rising: the events of the entries that are not in the unconflicted state, and the auth
/// difference. Where the auth chains differ is found from these events and from those that all states share.
/// `AllocError` where no memory is left.
///
/// Source: the Matrix specification, Room Version 2, "State resolution", full conflicted set.
pub fn full_conflicted(
    alloc: Global,
    graph: &Graph,
    agreed: &StateMap,
    states: &[&StateMap],
) -> Result<Vec<EventNo>, AllocError>
    requires known { All (λ s. All (λ e. e.1 < length graph.now) s.now) states.now }
    requires unconflicted { agreed.now ≡ definition.unconflicted (map (λ s. s.now) states.now) }
    requires agreed { IsAgreed agreed.now (map (λ s. s.now) states.now) }
    ensures set { IfOk result (λ events. events.items ≡ definition.full_conflicted graph.now (map (λ s. s.now) states.now)) }
    ensures rises { IfOk result (λ events. Rises events.items) }
    ensures known { IfOk result (λ events. All (λ event. event < length graph.now) events.items) }
{
    graph_is_sound(graph);
    let apart = conflicted_events(alloc, agreed, states)?;
    let shared = events_of(alloc, agreed)?;
    let difference = chain_difference(alloc, graph, &shared, &apart)?;
    let mut found = joined(alloc, &apart)?;
    found.extend_from_slice(&difference)?;
    let events = rising(alloc, &found)?;
    Ok(events)
}
