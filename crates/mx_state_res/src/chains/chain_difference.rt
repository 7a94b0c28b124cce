// Where the auth chains of several states differ.
ghost use Rattle.std.specs.Prelude.{◌≡◌, ◌<◌, ◌&&◌, ◌||◌, ◌⊎◌, ℕ, All, IfOk, IsTrue, OnOk, true, reverse, length, map, slice_index_or, []};
ghost use Rattle.mx_graph.specs.Edges.{Rises};
ghost use Rattle.mx_graph.specs.Graph.{IsSound, is_in_difference};
ghost use Rattle.mx_graph.specs.Record.{is_in};
ghost use Rattle.mx_state_res.specs.ChainDifference as definition;
ghost use Rattle.mx_state_res.specs.Masks.{has, waits, is_due, is_there, AreKept, AreLow, ArePart};

use crate::chains::chain_walks::{ChainWalk, Taken};
use crate::chains::dense_difference::dense_chain_difference;
use crate::chains::event_masks::masks_by_event;
use crate::chains::masks::{differs, every};
use crate::chains::state_sets::MOST_STATES;
use mx_graph::{EventNo, Graph, graph_is_sound, rising, set_of};
use std::alloc::{AllocError, Global};

/// The events that are in the auth chains of some of these sets, and not of all, and not in the chain of what all sets
/// share, rising.
///
/// The graph mostly tells it from what it keeps of auth chains, and no event below the given ones is visited. Else see
/// [`walked_chain_difference`] for the time. Source: the Matrix specification, Room Version 2, "State resolution", auth
/// difference.
pub(crate) fn chain_difference(
    alloc: Global,
    graph: &Graph,
    shared: &[EventNo],
    apart: &[Vec<EventNo>],
) -> Result<Vec<EventNo>, AllocError>
    requires shared { All (λ s. s < length graph.now) shared.now }
    requires apart { All (λ others. All (λ s. s < length graph.now) others.items) apart.now }
    ensures { IfOk result (λ found. found.items
        ≡ definition.chain_difference graph.now shared.now (map (λ others. others.items) apart.now)) }
{
    if let Some(events) = graph.auth_difference(alloc, shared, apart)? {
        return in_order(alloc, graph, shared, apart, &events);
    }
    walked_chain_difference(alloc, graph, shared, apart)
}

// The events of the difference, rising.
fn in_order(
    alloc: Global,
    graph: &Graph,
    shared: &[EventNo],
    apart: &[Vec<EventNo>],
    events: &[EventNo],
) -> Result<Vec<EventNo>, AllocError>
    requires { (p : ℕ) → is_in events.now p
        ≡ is_in_difference graph.now shared.now (map (λ others. others.items) apart.now) p }
    ensures { IfOk result (λ found. found.items
        ≡ definition.chain_difference graph.now shared.now (map (λ others. others.items) apart.now)) }
{
    graph_is_sound(graph);
    let found = rising(alloc, events)?;
    Ok(found)
}

/// The same, by a walk down the auth chains. Of at most 64 sets see [`dense_chain_difference`] for the time, of more
/// [`sparse_chain_difference`].
pub(crate) fn walked_chain_difference(
    alloc: Global,
    graph: &Graph,
    shared: &[EventNo],
    apart: &[Vec<EventNo>],
) -> Result<Vec<EventNo>, AllocError>
    requires shared { All (λ s. s < length graph.now) shared.now }
    requires apart { All (λ others. All (λ s. s < length graph.now) others.items) apart.now }
    ensures { IfOk result (λ found. found.items
        ≡ definition.chain_difference graph.now shared.now (map (λ others. others.items) apart.now)) }
{
    if apart.len() > MOST_STATES {
        return sparse_chain_difference(alloc, graph, shared, apart);
    }
    dense_chain_difference(alloc, graph, shared, apart)
}

/// The events that are in the auth chains of some of these sets, and not of all, and not in the chain of what all sets
/// share, rising: of any number of sets, by a map of the events that wait.
///
/// It walks from the last event down, and ends where every set reaches all that is left: no event is visited below the
/// place where the chains meet. The time is that of the edges from there up, times the sets and a logarithm, that of a
/// look-up for each event of each set, and that of a sort of the shared events. `AllocError` where no memory is left.
/// Source: the Matrix specification, Room Version 2, "State resolution", auth difference.
pub fn sparse_chain_difference(
    alloc: Global,
    graph: &Graph,
    shared: &[EventNo],
    apart: &[Vec<EventNo>],
) -> Result<Vec<EventNo>, AllocError>
    requires shared { All (λ s. s < length graph.now) shared.now }
    requires apart { All (λ others. All (λ s. s < length graph.now) others.items) apart.now }
    ensures { IfOk result (λ found. found.items
        ≡ definition.chain_difference graph.now shared.now (map (λ others. others.items) apart.now)) }
{
    graph_is_sound(graph);
    let starts = set_of(alloc, shared)?;
    let mut walk = ChainWalk::new(alloc, apart.len(), starts);
    mark_apart(alloc, &mut walk, graph, apart)?;
    let all = every(alloc, apart.len())?;
    mark_starts(&mut walk, graph, &all)?;
    let mut found = taken_down(alloc, walk, graph, &all)?;
    found.reverse();
    Ok(found)
}

// What an event cites waits, for the states that reach the event, from the last event down.
fn taken_down(
    alloc: Global,
    mut walk: ChainWalk,
    graph: &Graph,
    all: &[bool],
) -> Result<Vec<EventNo>, AllocError>
    requires sound { IsSound graph.now }
    requires kept { AreKept walk.states walk.masks walk.unsettled }
    requires wide { length all.now ≡ walk.states }
    requires full { (i : ℕ) → i < walk.states → has all.now i ≡ true }
    requires known { (p : ℕ) → is_there walk.masks p ≡ true → p < length graph.now }
    requires starts { (s : ℕ) → is_in walk.starts.keys s ≡ true → s < length graph.now }
    requires low { AreLow walk.masks walk.starts.keys }
    ensures falls { IfOk result (λ found. Rises (reverse found.items)) }
    ensures part { IfOk result (λ found.
        ArePart walk.states (definition.cites graph.now) walk.masks walk.starts.keys (reverse found.items)) }
{
    let mut found = Vec::new(alloc);
    while let Some(taken) = walk.next() {
        let Taken { event, mask } = taken;
        if differs(&mask) {
            found.push(event)?;
        }
        walk.mark_all(graph.auth_events(event), &mask)?;
        mark_starts(&mut walk, graph, all)?;
    }
    Ok(found)
}

// What the starts cite waits for all states, down to the last event that is unsettled.
fn mark_starts(walk: &mut ChainWalk, graph: &Graph, all: &[bool]) -> Result<(), AllocError>
    requires kept { AreKept walk.old.states walk.old.masks walk.old.unsettled }
    requires wide { length all.now ≡ walk.old.states }
    requires full { (i : ℕ) → i < walk.old.states → has all.now i ≡ true }
    requires known { (s : ℕ) → is_in walk.old.starts.keys s ≡ true → s < length graph.now }
    ensures states { OnOk result (walk.new.states ≡ walk.old.states) }
    ensures kept { OnOk result (AreKept walk.new.states walk.new.masks walk.new.unsettled) }
    ensures low { OnOk result (AreLow walk.new.masks walk.new.starts.keys) }
    ensures fewer { OnOk result ((s : ℕ) → is_in walk.new.starts.keys s ≡ true → is_in walk.old.starts.keys s ≡ true) }
    ensures there { OnOk result ((p : ℕ)
        → (is_there walk.new.masks p || definition.is_cited graph.now walk.new.starts.keys p)
        ≡ (is_there walk.old.masks p || definition.is_cited graph.now walk.old.starts.keys p)) }
    ensures due { OnOk result ((p i : ℕ) → i < walk.old.states
        → is_due (definition.cites graph.now) walk.new.masks walk.new.starts.keys p i
        ≡ is_due (definition.cites graph.now) walk.old.masks walk.old.starts.keys p i) }
{
    while let Some(start) = walk.next_start() {
        walk.mark_all(graph.auth_events(start), all)?;
    }
    Ok(())
}

// What the events of each set cite waits for it. Each event is looked at once, for all sets that have it.
fn mark_apart(
    alloc: Global,
    walk: &mut ChainWalk,
    graph: &Graph,
    apart: &[Vec<EventNo>],
) -> Result<(), AllocError>
    requires sound { IsSound graph.now }
    requires states { walk.old.states ≡ length apart.now }
    requires kept { AreKept walk.old.states walk.old.masks walk.old.unsettled }
    requires apart { All (λ others. All (λ s. s < length graph.now) others.items) apart.now }
    ensures states { OnOk result (walk.new.states ≡ walk.old.states) }
    ensures starts { OnOk result (walk.new.starts ≡ walk.old.starts) }
    ensures kept { OnOk result (AreKept walk.new.states walk.new.masks walk.new.unsettled) }
    ensures known { OnOk result ((p : ℕ) → is_there walk.new.masks p ≡ true
        → IsTrue (is_there walk.old.masks p) ⊎ (p < length graph.now)) }
    ensures marked { OnOk result ((p i : ℕ) → i < length apart.now → waits walk.new.masks p i
        ≡ (waits walk.old.masks p i
        || definition.is_cited graph.now (slice_index_or (map (λ others. others.items) apart.now) i []) p)) }
{
    let masks = masks_by_event(alloc, apart)?;
    for (event, mask) in masks.iter() {
        walk.mark_all(graph.auth_events(*event), mask)?;
    }
    Ok(())
}
