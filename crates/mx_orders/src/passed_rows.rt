// The rows that a power order passes beside its events.
ghost use Rattle.std.specs.Prelude.{◌≡◌, ◌<◌, ◌==◌, ◌||◌, ◌&&◌, All, IfOk, OnOk, filter, length, nat_le, not, reverse, true, ℕ};
ghost use Rattle.std.specs.BTreeSet.{contains};
ghost use Rattle.std.specs.Ordering.{nat_cmp};
ghost use Rattle.mx_graph.specs.Edges.{IsAllFrom, Rises};
ghost use Rattle.mx_graph.specs.Graph.{IsSound};
ghost use Rattle.mx_graph.specs.Record.{is_in};
ghost use Rattle.mx_orders.specs.Passed.{ArePassed, cites_from};

use mx_graph::{EventNo, Graph, graph_is_sound, least_of, set_of};
use std::alloc::{AllocError, Global};
use std::collections::BTreeSet;

/// The rows in the auth chains of these events, from the least of their numbers on, that are none of them. No other row
/// is looked at.
pub(crate) fn passed_rows(
    alloc: Global,
    graph: &Graph,
    events: &[EventNo],
) -> Result<Vec<EventNo>, AllocError>
    requires { All (λ event. event < length graph.now) events.now }
    ensures { IfOk result (λ passed. ArePassed graph.now events.now passed.items) }
{
    graph_is_sound(graph);
    let waiting = set_of(alloc, events)?;
    let members = set_of(alloc, events)?;
    let mut walked = walked_down(alloc, graph, waiting, least_of(events))?;
    walked.reverse();
    let passed = without(alloc, &walked, &members)?;
    Ok(passed)
}

// The rows of a list that are not in a set.
fn without(
    alloc: Global,
    rows: &[EventNo],
    members: &BTreeSet<EventNo>,
) -> Result<Vec<EventNo>, AllocError>
    ensures { IfOk result (λ rest. rest.items ≡ filter (λ p. not (contains nat_cmp members.now p)) rows.now) }
{
    rows.iter()
        .copied()
        .filter(|row| !members.contains(row))
        .collect(alloc)
}

// The rows that wait and what they cite from a number on, and so on, from the last one down.
fn walked_down(
    alloc: Global,
    graph: &Graph,
    mut waiting: BTreeSet<EventNo>,
    least: EventNo,
) -> Result<Vec<EventNo>, AllocError>
    requires sound { IsSound graph.now }
    requires known { (p : ℕ) → contains nat_cmp waiting p ≡ true → p < length graph.now }
    ensures falls { IfOk result (λ found. Rises (reverse found.items)) }
    ensures all { IfOk result (λ found.
        IsAllFrom (cites_from graph.now least) (contains nat_cmp waiting) (is_in (reverse found.items))) }
    ensures known { IfOk result (λ found. (p : ℕ) → is_in (reverse found.items) p ≡ true → p < length graph.now) }
{
    let mut found = Vec::new(alloc);
    while let Some(row) = waiting.pop_last() {
        found.push(row)?;
        wait_for(&mut waiting, graph.auth_events(row), least)?;
    }
    Ok(found)
}

// Those of these rows that are not before the least wait.
fn wait_for(
    waiting: &mut BTreeSet<EventNo>,
    rows: &[EventNo],
    least: EventNo,
) -> Result<(), AllocError>
    ensures { OnOk result ((p : ℕ) → contains nat_cmp waiting.new p
        ≡ (contains nat_cmp waiting.old p || (is_in rows.now p && nat_le least p))) }
{
    for row in rows {
        wait_for_one(waiting, *row, least)?;
    }
    Ok(())
}

fn wait_for_one(
    waiting: &mut BTreeSet<EventNo>,
    row: EventNo,
    least: EventNo,
) -> Result<(), AllocError>
    ensures { OnOk result ((p : ℕ) → contains nat_cmp waiting.new p
        ≡ (contains nat_cmp waiting.old p || ((row == p) && nat_le least p))) }
{
    if row.index() >= least.index() {
        waiting.insert(row)?;
    }
    Ok(())
}
