// What citations lead to.
ghost use Rattle.std.specs.Prelude.{◌≡◌, ◌<◌, ◌≤◌, ◌^◌, ◌||◌, Bool, ℕ, IfOk, OnOk, reverse, true};
ghost use Rattle.std.specs.Ordering.{nat_cmp};
ghost use Rattle.std.specs.BTreeSet.{contains};
ghost use Rattle.std.specs.List.{list_any};
ghost use Rattle.mx_graph.specs.Closing.{AreCitedBelow};
ghost use Rattle.mx_graph.specs.Edges.{cited, LeadDown, Rises, IsAllFrom};
ghost use Rattle.mx_graph.specs.Graph.{IsLeastClosed};
ghost use Rattle.mx_graph.specs.Record.{is_in};

use crate::closing_above::reached_between;
use crate::numbers::EventNo;
use std::alloc::{AllocError, Global};
use std::collections::BTreeSet;

// How many rows are gone through for each citation of the starts, at most: an event that waits in a set costs as much.
const ROWS_FOR_ONE: usize = 16;

// The events that one citation or more lead to from the starts, rising. It costs the edges below them, times a
// logarithm, and where the starts cite many events, or early ones alone, a few steps for each edge.
pub fn reached(
    alloc: Global,
    edges: &[Vec<EventNo>],
    starts: &[EventNo],
) -> Result<Vec<EventNo>, AllocError>
    requires { LeadDown (cited edges.now) }
    ensures rises { IfOk result (λ found. Rises found.items) }
    ensures all { IfOk result (λ found. (all : ℕ → Bool) → IsLeastClosed (cited edges.now) starts.now all
        → (p : ℕ) → is_in found.items p ≡ all p) }
{
    let bound = bound_of_starts(edges, starts);
    if bound <= citations_of(edges, starts).saturating_mul(ROWS_FOR_ONE) {
        let by_marks = reached_between(alloc, edges, starts, 0, bound)?;
        return Ok(by_marks);
    }
    let by_set = reached_by_set(alloc, edges, starts)?;
    Ok(by_set)
}

// A number above all that the starts cite.
fn bound_of_starts(edges: &[Vec<EventNo>], starts: &[EventNo]) -> usize
    ensures few { result ≤ 2 ^ 32 }
    ensures within { AreCitedBelow (cited edges.now) starts.now result }
{
    let mut bound = 0;
    for start in starts {
        bound = bound.max(bound_of_cited(edges, *start));
    }
    bound
}

// A number above all that an event cites.
fn bound_of_cited(edges: &[Vec<EventNo>], event: EventNo) -> usize
    ensures few { result ≤ 2 ^ 32 }
    ensures within { (p : ℕ) → is_in (cited edges.now event) p ≡ true → p < result }
{
    if event.index() < edges.len() {
        bound_of(&edges[event.index()])
    } else {
        0
    }
}

// A number above each of these.
fn bound_of(events: &[EventNo]) -> usize
    ensures few { result ≤ 2 ^ 32 }
    ensures within { (p : ℕ) → is_in events.now p ≡ true → p < result }
{
    let mut bound = 0;
    for event in events {
        bound = bound.max(event.index() + 1);
    }
    bound
}

// How many events the starts cite, each as often as it is cited.
fn citations_of(edges: &[Vec<EventNo>], starts: &[EventNo]) -> usize {
    let mut count: usize = 0;
    for start in starts {
        if start.index() < edges.len() {
            count = count.saturating_add(edges[start.index()].len());
        }
    }
    count
}

// The events that one citation or more lead to from the starts, rising. The events that wait for their citations are
// taken from the last one down, so that each comes up once.
fn reached_by_set(
    alloc: Global,
    edges: &[Vec<EventNo>],
    starts: &[EventNo],
) -> Result<Vec<EventNo>, AllocError>
    requires { LeadDown (cited edges.now) }
    ensures rises { IfOk result (λ found. Rises found.items) }
    ensures least { IfOk result (λ found. IsLeastClosed (cited edges.now) starts.now (is_in found.items)) }
{
    let mut waiting = BTreeSet::new(alloc);
    wait_for_starts(&mut waiting, edges, starts)?;
    let mut found = taken_down(alloc, waiting, edges)?;
    found.reverse();
    Ok(found)
}

// The events that wait and what they lead to, from the last one down.
fn taken_down(
    alloc: Global,
    mut waiting: BTreeSet<EventNo>,
    edges: &[Vec<EventNo>],
) -> Result<Vec<EventNo>, AllocError>
    requires { LeadDown (cited edges.now) }
    ensures falls { IfOk result (λ found. Rises (reverse found.items)) }
    ensures all { IfOk result (λ found.
        IsAllFrom (cited edges.now) (contains nat_cmp waiting) (is_in (reverse found.items))) }
{
    let mut found = Vec::new(alloc);
    while let Some(event) = waiting.pop_last() {
        found.push(event)?;
        wait_for_cited(&mut waiting, edges, event)?;
    }
    Ok(found)
}

// What the starts cite waits.
fn wait_for_starts(
    waiting: &mut BTreeSet<EventNo>,
    edges: &[Vec<EventNo>],
    starts: &[EventNo],
) -> Result<(), AllocError>
    ensures { OnOk result ((p : ℕ) → contains nat_cmp waiting.new p
        ≡ (contains nat_cmp waiting.old p || list_any (λ s. is_in (cited edges.now s) p) starts.now)) }
{
    for start in starts {
        wait_for_cited(waiting, edges, *start)?;
    }
    Ok(())
}

// What an event cites waits.
fn wait_for_cited(
    waiting: &mut BTreeSet<EventNo>,
    edges: &[Vec<EventNo>],
    event: EventNo,
) -> Result<(), AllocError>
    ensures { OnOk result ((p : ℕ)
        → contains nat_cmp waiting.new p ≡ (contains nat_cmp waiting.old p || is_in (cited edges.now event) p)) }
{
    if event.index() < edges.len() {
        wait_for(waiting, &edges[event.index()])?;
    }
    Ok(())
}

// These events wait.
fn wait_for(waiting: &mut BTreeSet<EventNo>, events: &[EventNo]) -> Result<(), AllocError>
    ensures { OnOk result ((p : ℕ)
        → contains nat_cmp waiting.new p ≡ (contains nat_cmp waiting.old p || is_in events.now p)) }
{
    for event in events {
        waiting.insert(*event)?;
    }
    Ok(())
}
