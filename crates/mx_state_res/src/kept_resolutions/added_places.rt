// The place of an event among others in the order of a mainline.
ghost use Rattle.std.specs.Prelude.{◌≡◌, ◌≤◌, ◌<◌, ◌++◌, ◌∷◌, [], All, IfOk, drop, false, length, not, take};
ghost use Rattle.std.specs.Ordering.{is_gt};
ghost use Rattle.mx_graph.specs.Record.{is_in};
ghost use Rattle.mx_orders.specs.Mainline.{mainline, mainline_cmp, put_in_order};
ghost use Rattle.mx_state_res.specs.KeptResolutions.{IsInOrder, events_checked};

use crate::kept_resolutions::checked_events::CheckedEvent;
use mx_graph::{EventNo, Graph};
use mx_orders::mainline_order;
use std::alloc::{AllocError, Global};

/// The place of the first of these events that an event comes before, in the order of the mainline of a power levels
/// event.
pub(crate) fn place_of(
    alloc: Global,
    graph: &Graph,
    power: &Option<EventNo>,
    order: &[CheckedEvent],
    event: EventNo,
) -> Result<usize, AllocError>
    requires event { event < length graph.now }
    requires known { All (λ checked. checked.event < length graph.now) order.now }
    requires new { is_in (events_checked order.now) event ≡ false }
    requires order { IsInOrder (mainline_cmp graph.now (mainline graph.now power.now)) (events_checked order.now) }
    ensures place { IfOk result (λ place. place ≤ length order.now) }
    ensures placed { IfOk result (λ place.
        put_in_order (mainline_cmp graph.now (mainline graph.now power.now)) event (events_checked order.now)
        ≡ take place (events_checked order.now) ++ (event ∷ drop place (events_checked order.now))) }
{
    let mut low = 0;
    let mut high = order.len();
    while low < high {
        let middle = low + (high - low) / 2;
        let is_first = comes_before(alloc, graph, power, event, order[middle].event)?;
        if is_first {
            high = middle;
        } else {
            low = middle + 1;
        }
    }
    Ok(low)
}

// Whether of two events the first comes first.
fn comes_before(
    alloc: Global,
    graph: &Graph,
    power: &Option<EventNo>,
    event: EventNo,
    other: EventNo,
) -> Result<bool, AllocError>
    requires event { event < length graph.now }
    requires other { other < length graph.now }
    ensures { IfOk result (λ first. is_in (other ∷ []) event ≡ false
        → first ≡ not (is_gt (mainline_cmp graph.now (mainline graph.now power.now) event other))) }
{
    let order = mainline_order(alloc, graph, number_in(power), &[event, other])?;
    match order.first() {
        Some(first) => {
            let is_first = *first == event;
            Ok(is_first)
        }
        None => Ok(false),
    }
}

fn number_in(power: &Option<EventNo>) -> Option<EventNo>
    ensures { result ≡ power.now }
{
    match power {
        Some(number) => Some(*number),
        None => None,
    }
}
