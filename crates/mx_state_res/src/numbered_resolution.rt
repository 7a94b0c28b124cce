// The resolution of some of a room's states.
ghost use Rattle.std.specs.Prelude.{◌≡◌, ◌<◌, ◌++◌, ◌∷◌, ℕ, All, IfOk, List, OnErr, length, map};
ghost use Rattle.mx_graph.specs.StateMap.{State};
ghost use Rattle.mx_state_res.specs.Numbered.{AreAdded, AreKnown};
ghost use Rattle.mx_states.specs.Numbered.{IsDiffering, edited, state_at};
ghost use Rattle.mx_state_res.specs.Resolution as definition;

use crate::checks::conflict_checks::check_conflicted;
use crate::checks::working_states::WorkingState;
use crate::conflicts::numbered_conflicts::{all_are_sorted, full_conflicted_at};
use mx_auth::RoomVersion;
use mx_graph::Graph;
use mx_states::{
    StateChange, StateMap, StateNo, States, each_once, least_change, restored_puts, rise,
};
use std::alloc::{AllocError, Global};

/// The one state that some of a room's states resolve to, by its number. See [`resolve`].
///
/// Where it is one of them, it is that one, and nothing is added. Otherwise it is added as a change of the one from
/// which it differs at the fewest keys. The states are looked at where they differ, beside what the events in conflict
/// need; one of them is listed whole, to find where their auth chains differ, unless what the events cite tells it.
///
/// `AllocError` where no memory is left.
///
/// Source: the Matrix specification, Room Version 2, "State resolution".
pub fn resolve_numbered(
    version: RoomVersion,
    alloc: Global,
    graph: &Graph,
    states: &mut States,
    numbers: &[StateNo],
) -> Result<StateNo, AllocError>
    requires numbers { All (λ number. number < length states.old) numbers.now }
    requires known { AreKnown graph.now states.old }
    ensures resolved { IfOk result (λ number. state_at states.new number
        ≡ definition.resolve version graph.now (map (state_at states.old) numbers.now)) }
    ensures number { IfOk result (λ number. number < length states.new) }
    ensures added { AreAdded graph.now states.old states.new }
{
    if rise(numbers) {
        return resolve_each(version, alloc, graph, states, numbers);
    }
    all_are_sorted(states, numbers);
    let each = each_once(alloc, numbers)?;
    resolve_each(version, alloc, graph, states, &each)
}

// The same, where each number counts: one that is there twice is looked at twice.
fn resolve_each(
    version: RoomVersion,
    alloc: Global,
    graph: &Graph,
    states: &mut States,
    numbers: &[StateNo],
) -> Result<StateNo, AllocError>
    requires numbers { All (λ number. number < length states.old) numbers.now }
    requires known { AreKnown graph.now states.old }
    ensures resolved { IfOk result (λ number. state_at states.new number
        ≡ definition.resolve version graph.now (map (state_at states.old) numbers.now)) }
    ensures number { IfOk result (λ number. number < length states.new) }
    ensures added { AreAdded graph.now states.old states.new }
{
    let Some((first, _)) = numbers.split_first() else {
        let number = states.add_empty()?;
        return Ok(number);
    };
    all_are_sorted(states, numbers);
    let differing = states.differing(alloc, numbers)?;
    if differing.entries().is_empty() {
        return Ok(*first);
    }
    let change = resolving_change(version, alloc, graph, states, numbers, *first, &differing)?;
    made(states, &change)
}

// The state that a change makes. Where it changes nothing it is the one that is there.
fn made(states: &mut States, change: &StateChange) -> Result<StateNo, AllocError>
    requires { change.now.parent < length states.old }
    ensures made { IfOk result (λ number. state_at states.new number
        ≡ edited change.now.taken (state_at states.old change.now.parent) change.now.puts) }
    ensures number { IfOk result (λ number. number < length states.new) }
    ensures added { (more : List State) × (states.new ≡ states.old ++ more)
        × All (λ s. s ≡ edited change.now.taken (state_at states.old change.now.parent) change.now.puts) more }
{
    if change.is_empty() {
        return Ok(change.parent);
    }
    states.apply(change.parent, &change.taken, &change.puts)
}

// What makes the resolution of some states of one of them.
fn resolving_change(
    version: RoomVersion,
    alloc: Global,
    graph: &Graph,
    states: &States,
    numbers: &[StateNo],
    base: StateNo,
    differing: &StateMap,
) -> Result<StateChange, AllocError>
    requires numbers { All (λ number. number < length states.now) numbers.now }
    requires known { AreKnown graph.now states.now }
    requires base { (others : List ℕ) × (numbers.now ≡ base ∷ others) }
    requires differing { IsDiffering differing.now (map (state_at states.now) numbers.now) }
    ensures parent { IfOk result (λ change. change.parent < length states.now) }
    ensures resolved { IfOk result (λ change. edited change.taken (state_at states.now change.parent) change.puts
        ≡ definition.resolve version graph.now (map (state_at states.now) numbers.now)) }
    ensures known { IfOk result (λ change. All (λ e. e.1 < length graph.now)
        (edited change.taken (state_at states.now change.parent) change.puts)) }
{
    all_are_sorted(states, numbers);
    let _ = differing.entries();
    let puts = resolving_puts(version, alloc, graph, states, numbers, base, differing)?;
    let change = least_change(alloc, states, base, &numbers[1..], differing, &puts)?;
    Ok(change)
}

// What is put over the first of some states, without the keys at which they differ, in their resolution.
fn resolving_puts(
    version: RoomVersion,
    alloc: Global,
    graph: &Graph,
    states: &States,
    numbers: &[StateNo],
    base: StateNo,
    differing: &StateMap,
) -> Result<StateMap, AllocError>
    requires numbers { All (λ number. number < length states.now) numbers.now }
    requires known { AreKnown graph.now states.now }
    requires base { (others : List ℕ) × (numbers.now ≡ base ∷ others) }
    requires differing { IsDiffering differing.now (map (state_at states.now) numbers.now) }
    ensures resolved { IfOk result (λ puts. edited differing.now (state_at states.now base) puts
        ≡ definition.resolve version graph.now (map (state_at states.now) numbers.now)) }
    ensures known { IfOk result (λ puts. All (λ e. e.1 < length graph.now)
        (edited differing.now (state_at states.now base) puts)) }
{
    all_are_sorted(states, numbers);
    let _ = differing.entries();
    let full = full_conflicted_at(alloc, graph, states, numbers, base, differing)?;
    states.state_is_sorted(base);
    let mut state = WorkingState::without(alloc, states.state(base), differing);
    check_conflicted(version, alloc, graph, &mut state, &full)?;
    let puts = state.into_puts();
    let kept = restored_puts(alloc, states, base, differing, &puts)?;
    Ok(kept)
}
