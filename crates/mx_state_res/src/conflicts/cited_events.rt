// What events in conflict cite.
ghost use Rattle.std.specs.Prelude.{◌≡◌, ◌<◌, ◌++◌, ◌&&◌, ℕ, All, IfOk, IsTrue, OnOk, filter, flat_map, length, map, not, true};
ghost use Rattle.std.specs.List.{list_all};
ghost use Rattle.mx_graph.specs.Edges.{Rises};
ghost use Rattle.mx_graph.specs.Graph.{auth_chain};
ghost use Rattle.mx_graph.specs.Record.{is_in};
ghost use Rattle.mx_state_res.specs.ChainDifference as definition;

use crate::conflicts::rising_lists::without;
use mx_graph::{EventNo, Graph, rising};
use std::alloc::{AllocError, Global};

// Of more it isn't told: each is looked for in the auth chains of all sets.
const MOST_CITED: usize = 64;

/// Whether each event that these cite, which rise, is one of them, or in the auth chains of all of some sets, as far as that
/// is told from what the graph keeps of auth chains. Where they cite more than 64 others it is not told.
///
/// The time is that of what they cite, times a logarithm, and that of the sets for each of the others. `AllocError` where
/// no memory is left.
pub(crate) fn cite_within(
    alloc: Global,
    graph: &Graph,
    sets: &[Vec<EventNo>],
    events: &[EventNo],
) -> Result<bool, AllocError>
    requires rises { Rises events.now }
    requires known { All (λ event. event < length graph.now) events.now }
    ensures { IfOk result (λ is_told. IsTrue is_told
        → definition.CiteWithin graph.now (map (λ others. others.items) sets.now) events.now) }
{
    let others = cited_beside(alloc, graph, events)?;
    if others.len() > MOST_CITED {
        return Ok(false);
    }
    Ok(are_in_each_chain(graph, sets, &others))
}

// The events that these cite, without these, which rise.
fn cited_beside(
    alloc: Global,
    graph: &Graph,
    events: &[EventNo],
) -> Result<Vec<EventNo>, AllocError>
    requires rises { Rises events.now }
    requires known { All (λ event. event < length graph.now) events.now }
    ensures { IfOk result (λ others. (p : ℕ) → is_in others.items p
        ≡ (definition.is_cited graph.now events.now p && not (is_in events.now p))) }
{
    let cited = all_cited(alloc, graph, events)?;
    let each = rising(alloc, &cited)?;
    let others = without(alloc, &each, events)?;
    Ok(others)
}

// What these cite, of one after another, without what the one before it cites too.
fn all_cited(alloc: Global, graph: &Graph, events: &[EventNo]) -> Result<Vec<EventNo>, AllocError>
    requires { All (λ event. event < length graph.now) events.now }
    ensures { IfOk result (λ cited. (p : ℕ) → is_in cited.items p
        ≡ is_in (flat_map (definition.cites graph.now) events.now) p) }
{
    let mut cited = Vec::new(alloc);
    // Often the next event cites the same ones.
    let mut last: &[EventNo] = &[];
    for event in events {
        let next = graph.auth_events(*event);
        push_others(&mut cited, last, next)?;
        last = next;
    }
    Ok(cited)
}

// Pushes those of some events that are not among others.
fn push_others(
    found: &mut Vec<EventNo>,
    others: &[EventNo],
    events: &[EventNo],
) -> Result<(), AllocError>
    ensures { OnOk result (found.new.items ≡ found.old.items ++ filter (λ p. not (is_in others.now p)) events.now) }
{
    for event in events {
        if !is_one_of(others, *event) {
            found.push(*event)?;
        }
    }
    Ok(())
}

fn is_one_of(events: &[EventNo], event: EventNo) -> bool
    ensures { result ≡ is_in events.now event }
{
    events.iter().any(|other| *other == event)
}

// Whether each of these is in the auth chains of all of some sets.
fn are_in_each_chain(graph: &Graph, sets: &[Vec<EventNo>], events: &[EventNo]) -> bool
    ensures { IsTrue result → All (λ event. list_all (λ others. is_in (auth_chain graph.now others) event)
        (map (λ others. others.items) sets.now) ≡ true) events.now }
{
    for event in events {
        if !is_in_each_chain(graph, sets, *event) {
            return false;
        }
    }
    true
}

// Whether an event is in the auth chains of all of some sets.
fn is_in_each_chain(graph: &Graph, sets: &[Vec<EventNo>], event: EventNo) -> bool
    ensures { IsTrue result
        → list_all (λ others. is_in (auth_chain graph.now others) event) (map (λ others. others.items) sets.now) ≡ true }
{
    for others in sets {
        if !is_in_chain(graph, others, event) {
            return false;
        }
    }
    true
}

fn is_in_chain(graph: &Graph, starts: &[EventNo], event: EventNo) -> bool
    ensures { IsTrue result → is_in (auth_chain graph.now starts.now) event ≡ true }
{
    match graph.is_in_auth_chain(event, starts) {
        Some(is_there) => is_there,
        None => false,
    }
}
