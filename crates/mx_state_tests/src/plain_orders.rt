// Reverse topological power ordering by the definition's words, over the graphs of `random_graphs`.
ghost use Rattle.std.specs.Prelude.{◌<◌, length};

use mx_graph::{EventNo, Graph};
use std::alloc::{AllocError, Global};
use std::cmp::Ordering;

// Again and again, of the events in whose auth chain none of those that are left stands, the first by power.
pub(crate) fn plain_power_order(
    alloc: Global,
    graph: &Graph,
    events: &[EventNo],
) -> Result<Vec<EventNo>, AllocError> {
    let mut rest = events.to_vec(alloc)?;
    let mut order = Vec::new(alloc);
    for _ in 0..events.len() {
        let free = free_events(alloc, graph, &rest)?;
        let Some(first) = first_by_power(graph, &free) else {
            return Ok(order);
        };
        rest.retain(|event| *event != first);
        order.push(first)?;
    }
    Ok(order)
}

// Those of these events in whose auth chain none of them stands.
fn free_events(
    alloc: Global,
    graph: &Graph,
    events: &[EventNo],
) -> Result<Vec<EventNo>, AllocError> {
    let mut free = Vec::new(alloc);
    for event in events {
        let chain = graph.auth_chain(alloc, &[*event])?;
        if !events.iter().any(|other| chain.contains(other)) {
            free.push(*event)?;
        }
    }
    Ok(free)
}

// The event of the greatest level, then of the earliest time, then of the least id.
fn first_by_power(graph: &Graph, events: &[EventNo]) -> Option<EventNo> {
    let mut first = *events.first()?;
    for event in events {
        if by_power(graph, *event, first) == Ordering::Less {
            first = *event;
        }
    }
    Some(first)
}

fn by_power(graph: &Graph, one: EventNo, other: EventNo) -> Ordering {
    if one.index() >= graph.len() || other.index() >= graph.len() {
        return Ordering::Equal;
    }
    let (row, other_row) = (graph.row(one), graph.row(other));
    level(graph, other)
        .cmp(&level(graph, one))
        .then(
            row.event
                .origin_server_ts()
                .cmp(&other_row.event.origin_server_ts()),
        )
        .then(row.id.cmp(&other_row.id))
}

// The level of the one sender of these graphs: what the power levels event among the auth events gives her, where these
// have a create event.
fn level(graph: &Graph, event: EventNo) -> i64
    requires { event < length graph.now }
{
    let mut has_create = false;
    let mut level = 0;
    for other in graph.auth_events(event) {
        match graph.row(*other).event.kind() {
            "m.room.create" => has_create = true,
            "m.room.power_levels" => level = 100,
            _ => {}
        }
    }
    if has_create { level } else { 0 }
}
