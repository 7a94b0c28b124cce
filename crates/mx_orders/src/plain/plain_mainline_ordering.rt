// Mainline ordering by the definition's words: the whole mainline, and then the position of each event in it.
ghost use Rattle.std.specs.Prelude.{◌≡◌, ◌<◌, All, IfOk, length, map};
ghost use Rattle.mx_orders.specs.Mainline as definition;
ghost use Rattle.mx_orders.specs.Places.{IsPositioned};

use crate::mainline_ordering::{Positioned, in_order};
use crate::mainlines::Mainline;
use mx_graph::{EventNo, Graph};
use std::alloc::{AllocError, Global};

/// The order of [`mainline_order`](crate::mainline_order), by a plain body under the same contract: it follows the
/// mainline to its end. `AllocError` where no memory is left.
pub fn plain_mainline_order(
    alloc: Global,
    graph: &Graph,
    power: Option<EventNo>,
    events: &[EventNo],
) -> Result<Vec<EventNo>, AllocError>
    requires { All (λ event. event < length graph.now) events.now }
    ensures { IfOk result (λ order. order.items
        ≡ definition.mainline_order graph.now (definition.mainline graph.now power) events.now) }
{
    let mainline = Mainline::of(alloc, graph, power)?;
    let positions = plain_positions_of(alloc, graph, &mainline, events)?;
    let order = in_order(alloc, graph, &positions)?;
    Ok(order)
}

fn plain_positions_of(
    alloc: Global,
    graph: &Graph,
    mainline: &Mainline,
    events: &[EventNo],
) -> Result<Vec<Positioned>, AllocError>
    requires { All (λ event. event < length graph.now) events.now }
    ensures numbers { IfOk result (λ positions. map (λ positioned. positioned.number) positions.items ≡ events.now) }
    ensures positioned { IfOk result (λ positions. All (IsPositioned graph.now mainline.now) positions.items) }
{
    events
        .iter()
        .map(|event| positioned_at(graph, mainline, *event))
        .collect(alloc)
}

fn positioned_at(graph: &Graph, mainline: &Mainline, number: EventNo) -> Positioned
    requires { number < length graph.now }
    ensures number { result.number ≡ number }
    ensures positioned { IsPositioned graph.now mainline.now result }
{
    Positioned {
        number,
        position: mainline.position(graph, number),
    }
}
