// What citations lead to, down to a number, by a mark for each row.
ghost use Rattle.std.specs.Prelude.{◌≡◌, ◌==◌, ◌<◌, ◌≤◌, ◌+◌, ◌^◌, ◌&&◌, ◌||◌, Bool, ℕ, IfOk, length, nat_le, nat_lt, reverse, slice_index_or, false, true};
ghost use Rattle.std.specs.List.{list_any};
ghost use Rattle.mx_graph.specs.Closing.{AreCitedBelow};
ghost use Rattle.mx_graph.specs.Edges.{cited, LeadDown, Rises};
ghost use Rattle.mx_graph.specs.Graph.{IsLeastClosed};
ghost use Rattle.mx_graph.specs.Record.{is_in};

use crate::numbers::EventNo;
use std::alloc::{AllocError, Global};

// The events with this number or a greater one that one citation or more lead to from the starts, rising. It costs the
// edges of these events, and a few steps for each number down to the least.
pub fn reached_above(
    alloc: Global,
    edges: &[Vec<EventNo>],
    starts: &[EventNo],
    least: usize,
) -> Result<Vec<EventNo>, AllocError>
    requires down { LeadDown (cited edges.now) }
    requires few { length edges.now < 2 ^ 32 }
    ensures rises { IfOk result (λ found. Rises found.items) }
    ensures part { IfOk result (λ found. (all : ℕ → Bool) → IsLeastClosed (cited edges.now) starts.now all
        → (p : ℕ) → is_in found.items p ≡ (nat_le least p && all p)) }
{
    let found = reached_between(alloc, edges, starts, least, edges.len())?;
    Ok(found)
}

// The same where all that the starts cite is below the bound. It costs the edges of these events, and a few steps for each
// number from the bound down to the least.
pub fn reached_between(
    alloc: Global,
    edges: &[Vec<EventNo>],
    starts: &[EventNo],
    least: usize,
    bound: usize,
) -> Result<Vec<EventNo>, AllocError>
    requires down { LeadDown (cited edges.now) }
    requires few { bound ≤ 2 ^ 32 }
    requires within { AreCitedBelow (cited edges.now) starts.now bound }
    ensures rises { IfOk result (λ found. Rises found.items) }
    ensures part { IfOk result (λ found. (all : ℕ → Bool) → IsLeastClosed (cited edges.now) starts.now all
        → (p : ℕ) → is_in found.items p ≡ (nat_le least p && all p)) }
{
    let mut marks = unmarked(alloc, bound.saturating_sub(least))?;
    mark_starts(&mut marks, edges, starts, least);
    let mut found = Vec::new(alloc);
    let mut left = marks.len();
    while left > 0 {
        left -= 1;
        if marks[left] {
            let event = EventNo::at((least + left) as u32);
            found.push(event)?;
            mark_cited(&mut marks, edges, event, least);
        }
    }
    found.reverse();
    Ok(found)
}

// So many numbers, none of them marked.
fn unmarked(alloc: Global, count: usize) -> Result<Vec<bool>, AllocError>
    ensures len { IfOk result (λ marks. length marks.items ≡ count) }
    ensures none { IfOk result (λ marks. (q : ℕ) → slice_index_or marks.items q false ≡ false) }
{
    vec![in alloc; false; count]
}

// What the starts cite is marked.
fn mark_starts(marks: &mut [bool], edges: &[Vec<EventNo>], starts: &[EventNo], least: usize)
    ensures len { length marks.new ≡ length marks.old }
    ensures marked { (q : ℕ) → slice_index_or marks.new q false
        ≡ (slice_index_or marks.old q false
        || (nat_lt q (length marks.old) && list_any (λ s. is_in (cited edges.now s) (least + q)) starts.now)) }
{
    for start in starts {
        mark_cited(marks, edges, *start, least);
    }
}

fn mark_cited(marks: &mut [bool], edges: &[Vec<EventNo>], event: EventNo, least: usize)
    ensures len { length marks.new ≡ length marks.old }
    ensures marked { (q : ℕ) → slice_index_or marks.new q false
        ≡ (slice_index_or marks.old q false
        || (nat_lt q (length marks.old) && is_in (cited edges.now event) (least + q))) }
{
    if event.index() < edges.len() {
        mark(marks, &edges[event.index()], least);
    }
}

// These events are marked, each at its number above the least.
fn mark(marks: &mut [bool], events: &[EventNo], least: usize)
    ensures len { length marks.new ≡ length marks.old }
    ensures marked { (q : ℕ) → slice_index_or marks.new q false
        ≡ (slice_index_or marks.old q false || (nat_lt q (length marks.old) && is_in events.now (least + q))) }
{
    for event in events {
        mark_one(marks, *event, least);
    }
}

fn mark_one(marks: &mut [bool], event: EventNo, least: usize)
    ensures len { length marks.new ≡ length marks.old }
    ensures marked { (q : ℕ) → slice_index_or marks.new q false
        ≡ (slice_index_or marks.old q false || (nat_lt q (length marks.old) && (event == least + q))) }
{
    let number = event.index();
    if number >= least && number - least < marks.len() {
        marks[number - least] = true;
    }
}
