// Where the auth chains of a few sets of events differ, by a set of states for each row.
ghost use Rattle.std.specs.Prelude.{◌≡◌, ◌<◌, ◌≤◌, ◌^◌, ◌||◌, ℕ, All, IfOk, length, map, reverse, slice_index_or, []};
ghost use Rattle.mx_graph.specs.Edges.{Rises};
ghost use Rattle.mx_graph.specs.Graph.{IsSound};
ghost use Rattle.mx_state_res.specs.ChainDifference as definition;
ghost use Rattle.mx_state_res.specs.Masks.{ArePartOf};
ghost use Rattle.mx_state_res.specs.RowSets.{is_reached, AreCounted};

use crate::chains::row_sets::{ReachedRow, RowSets};
use crate::chains::state_sets::StateSet;
use mx_graph::{EventNo, Graph, graph_is_sound};
use std::alloc::{AllocError, Global};

/// The events that are in the auth chains of some of these sets, at most 64, and not of all, and not in the chain of what
/// all sets share, rising.
///
/// It walks from the last row down, and ends where each row that is left is reached by every set or by none. The time is
/// that of the edges of the rows from there up and of the shared events, and a few steps for each row of the graph.
/// `AllocError` where no memory is left. Source: the Matrix specification, Room Version 2, "State resolution", auth
/// difference.
pub fn dense_chain_difference(
    alloc: Global,
    graph: &Graph,
    shared: &[EventNo],
    apart: &[Vec<EventNo>],
) -> Result<Vec<EventNo>, AllocError>
    requires states { length apart.now ≤ 64 }
    requires shared { All (λ s. s < length graph.now) shared.now }
    requires apart { All (λ others. All (λ s. s < length graph.now) others.items) apart.now }
    ensures { IfOk result (λ found. found.items
        ≡ definition.chain_difference graph.now shared.now (map (λ others. others.items) apart.now)) }
{
    graph_is_sound(graph);
    let states = apart.len();
    let mut rows = RowSets::new(alloc, graph.len(), states)?;
    mark_apart(&mut rows, graph, apart);
    rows.mark_each(graph, shared, StateSet::every(states));
    let mut found = partly_reached(alloc, rows, graph)?;
    found.reverse();
    Ok(found)
}

// The rows that some states reach and not all, from the last row down.
fn partly_reached(
    alloc: Global,
    mut rows: RowSets,
    graph: &Graph,
) -> Result<Vec<EventNo>, AllocError>
    requires sound { IsSound graph.now }
    requires counted { AreCounted rows.states rows.all rows.sets.items rows.unsettled }
    requires len { length rows.sets.items ≤ length graph.now }
    requires few { length rows.sets.items < 2 ^ 32 }
    ensures falls { IfOk result (λ found. Rises (reverse found.items)) }
    ensures part { IfOk result (λ found.
        ArePartOf rows.states (definition.cites graph.now) (is_reached rows.sets.items) (reverse found.items)) }
{
    let mut found = Vec::new(alloc);
    while let Some(row) = rows.pop() {
        let ReachedRow { event, states } = row;
        if rows.is_partial(states) {
            found.push(event)?;
        }
        rows.mark_cited(graph, event, states);
    }
    Ok(found)
}

// Each state reaches what its events cite.
fn mark_apart(rows: &mut RowSets, graph: &Graph, apart: &[Vec<EventNo>])
    requires few { length apart.now ≤ 64 }
    requires states { rows.old.states ≡ length apart.now }
    requires counted { AreCounted rows.old.states rows.old.all rows.old.sets.items rows.old.unsettled }
    requires len { length graph.now ≤ length rows.old.sets.items }
    requires apart { All (λ others. All (λ s. s < length graph.now) others.items) apart.now }
    ensures states { rows.new.states ≡ rows.old.states }
    ensures all { rows.new.all ≡ rows.old.all }
    ensures len { length rows.new.sets.items ≡ length rows.old.sets.items }
    ensures counted { AreCounted rows.new.states rows.new.all rows.new.sets.items rows.new.unsettled }
    ensures reached { (p i : ℕ) → i < length apart.now → is_reached rows.new.sets.items p i
        ≡ (is_reached rows.old.sets.items p i
        || definition.is_cited graph.now (slice_index_or (map (λ others. others.items) apart.now) i []) p) }
{
    for (i, others) in apart.iter().enumerate() {
        rows.mark_each(graph, others, StateSet::only(i));
    }
}
