// Reverse topological power ordering.
ghost use Rattle.std.specs.Prelude.{◌≡◌, ◌<◌, All, IfOk, filter, length, map, nat_le, slice_index};
ghost use Rattle.mx_orders.specs.Lists.{Distinct};
ghost use Rattle.mx_orders.specs.PowerOrder as definition;

use crate::candidates::by_power;
use crate::following::{Following, following_of};
use crate::passed_rows::passed_rows;
use crate::readiness::{ready_at_first, release};
use mx_graph::{EventNo, Graph, graph_is_sound};
use std::alloc::{AllocError, Global};

/// The least list of events in which each comes after those that stand in its auth chain. Lesser is the event with the
/// greater level of its sender by the event's own auth events, then the one with the earlier `origin_server_ts`, then
/// the one with the lesser event id by bytes.
///
/// It passes the rows in the auth chains of the events, from the least of the events on: each once, whatever the chains.
/// The time is that of the auth events of these rows, times a logarithm, and of a sort of the events; the memory is that
/// of the rows. Source: the Matrix specification, Room Version 2, "State resolution", reverse topological power ordering.
pub fn power_order(
    alloc: Global,
    graph: &Graph,
    events: &[EventNo],
) -> Result<Vec<EventNo>, AllocError>
    requires known { All (λ event. event < length graph.now) events.now }
    requires distinct { Distinct events.now }
    ensures { IfOk result (λ order. order.items ≡ definition.power_order graph.now events.now) }
{
    // Each id is there once, so that no two events tie.
    graph_is_sound(graph);
    let mut numbers = passed_rows(alloc, graph, events)?;
    let passed = numbers.len();
    let sorted = by_power(alloc, graph, events)?;
    numbers.extend_from_slice(&sorted)?;
    let Following {
        followers,
        mut awaited,
    } = following_of(alloc, graph, &numbers)?;
    let mut ready = ready_at_first(alloc, &awaited)?;
    // A row that is passed has a lesser rank than each event, so it is taken as soon as it is ready.
    let mut taken = Vec::with_capacity(alloc, numbers.len())?;
    while let Some(rank) = ready.pop_first() {
        taken.push(rank)?;
        release(&mut awaited, &mut ready, &followers[rank])?;
    }
    let order = events_of(alloc, &numbers, passed, &taken)?;
    Ok(order)
}

// The events of those of these ranks that are not before the first.
fn events_of(
    alloc: Global,
    numbers: &[EventNo],
    first: usize,
    ranks: &[usize],
) -> Result<Vec<EventNo>, AllocError>
    requires { All (λ rank. rank < length numbers.now) ranks.now }
    ensures { IfOk result (λ events. events.items ≡ map (slice_index numbers.now) (filter (nat_le first) ranks.now)) }
{
    let mut events = Vec::new(alloc);
    for rank in ranks {
        if *rank >= first {
            events.push(numbers[*rank])?;
        }
    }
    Ok(events)
}
