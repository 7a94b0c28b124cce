// Where numbered states are in conflict.
ghost use Rattle.std.specs.Prelude.{◌≡◌, ◌<◌, ◌∷◌, ℕ, All, IfOk, List, T, length, map};
ghost use Rattle.std.specs.FinMap.Entries.{is_sorted};
ghost use Rattle.mx_graph.specs.Edges.{Rises};
ghost use Rattle.mx_graph.specs.StateMap.{events_of as events_in, key_cmp};
ghost use Rattle.mx_state_res.specs.ChainDifference as differences;
ghost use Rattle.mx_state_res.specs.Numbered.{AreKnown};
ghost use Rattle.mx_states.specs.Numbered.{IsDiffering, events_at, state_at, without};
ghost use Rattle.mx_state_res.specs.Resolution as definition;

use crate::chains::chain_difference::chain_difference;
use crate::conflicts::cited_events::cite_within;
use crate::conflicts::joined;
use crate::conflicts::state_parts::parts_in_conflict;
use mx_graph::{EventNo, Graph, graph_is_sound, rising};
use mx_states::{StateMap, StateNo, States};
use std::alloc::{AllocError, Global};

/// The full conflicted set of some states, rising, where `differing` has the keys at which they are not all alike, and
/// `base` is the first of them.
///
/// Of each state events are taken that together are all events in conflict. Where what the events in conflict cite is
/// among them or in the auth chains of all states, the chains differ at none but them; that an event is in the chain of a
/// part of a state's events is enough to tell that. Elsewhere the chains of all states are looked at. `AllocError` where no
/// memory is left. Source: the Matrix specification, Room Version 2, "State resolution".
pub(crate) fn full_conflicted_at(
    alloc: Global,
    graph: &Graph,
    states: &States,
    numbers: &[StateNo],
    base: StateNo,
    differing: &StateMap,
) -> Result<Vec<EventNo>, AllocError>
    requires numbers { All (λ number. number < length states.now) numbers.now }
    requires known { AreKnown graph.now states.now }
    requires base { (others : List ℕ) × (numbers.now ≡ base ∷ others) }
    requires differing { IsDiffering differing.now (map (state_at states.now) numbers.now) }
    ensures set { IfOk result (λ events. events.items
        ≡ definition.full_conflicted graph.now (map (state_at states.now) numbers.now)) }
    ensures rises { IfOk result (λ events. Rises events.items) }
    ensures known { IfOk result (λ events. All (λ event. event < length graph.now) events.items) }
{
    graph_is_sound(graph);
    all_are_sorted(states, numbers);
    let _ = differing.entries();
    let parts = parts_in_conflict(alloc, states, numbers, base, differing)?;
    let mut found = joined(alloc, &parts)?;
    let events = rising(alloc, &found)?;
    let is_told = cite_within(alloc, graph, &parts, &events)?;
    if is_told {
        return Ok(events);
    }
    let difference = apart_chains(alloc, graph, states, numbers, base, differing)?;
    found.extend_from_slice(&difference)?;
    let full = rising(alloc, &found)?;
    Ok(full)
}

/// The entries of these states are in the order of their keys. It changes nothing: this is what it ensures.
pub(crate) fn all_are_sorted(states: &States, numbers: &[StateNo])
    requires { All (λ number. number < length states.now) numbers.now }
    ensures { All (λ number. T (is_sorted key_cmp (state_at states.now number))) numbers.now }
{
    for number in numbers {
        states.state_is_sorted(*number);
    }
}

// The events that are in the auth chains of what some states have at some keys, not of all, and not in the chain of what
// they share, which is what `base` has at all others.
fn apart_chains(
    alloc: Global,
    graph: &Graph,
    states: &States,
    numbers: &[StateNo],
    base: StateNo,
    keys: &StateMap,
) -> Result<Vec<EventNo>, AllocError>
    requires numbers { All (λ number. number < length states.now) numbers.now }
    requires base { base < length states.now }
    requires known { AreKnown graph.now states.now }
    ensures { IfOk result (λ found. found.items
        ≡ differences.chain_difference graph.now (events_in (without keys.now (state_at states.now base)))
        (map (λ number. events_at keys.now (state_at states.now number)) numbers.now)) }
{
    graph_is_sound(graph);
    let apart = states.events_at_keys(alloc, numbers, keys)?;
    let shared = states.events_at_other_keys(alloc, base, keys)?;
    let found = chain_difference(alloc, graph, &shared, &apart)?;
    Ok(found)
}
