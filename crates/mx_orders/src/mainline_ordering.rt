// Mainline ordering.
ghost use Rattle.std.specs.Prelude.{◌≡◌, ◌<◌, ℕ, All, IfOk, List, length, map};
ghost use Rattle.mx_orders.specs.Mainline as definition;
ghost use Rattle.mx_orders.specs.MainlineWalk.{IsWalk, whole};
ghost use Rattle.mx_orders.specs.Places.{CompareAlike, IsPositioned, IsRead, event_position, place_cmp, place_position};

use crate::mainline_walks::MainlineWalk;
use crate::tied_positions::tied_positions;
use mx_graph::{EventNo, Graph, graph_is_sound};
use mx_ident::EventId;
use std::alloc::{AllocError, Global};
use std::cmp::Ordering;

// An event with its position in a mainline.
#[derive(Clone, Copy, Debug)]
pub(crate) struct Positioned {
    pub(crate) number: EventNo,
    pub(crate) position: Option<u32>,
}

// What the order of an event goes by, read once.
#[derive(Clone, Copy, Debug)]
struct Place<'g> {
    position: Option<u32>,
    timestamp: i64,
    id: &'g EventId,
    number: EventNo,
}

/// Events in the order of the mainline of a power levels event: greater position first, infinite ones before all, then
/// earlier `origin_server_ts`, then lesser event id by bytes.
///
/// The mainline is the power levels event, the one among its auth events, the one among that one's, and so on; without
/// one it is empty. The position of an event is the place there, from 0, of the first power levels event that lies
/// there of those that the event rests on: the one among its auth events, the one among that one's, and so on. The event
/// itself does not count. Where none lies there the position is infinite.
///
/// The mainline is followed only as far as positions have to be compared: down to the last event that is looked for
/// there, and not down to the oldest of the events' first power levels events, since the events that come to it tie.
/// Where an event does not come to it, its exact position is looked for. `AllocError` where no memory is left.
///
/// Source: the Matrix specification, Room Version 2, "State resolution", mainline ordering.
pub fn mainline_order(
    alloc: Global,
    graph: &Graph,
    power: Option<EventNo>,
    events: &[EventNo],
) -> Result<Vec<EventNo>, AllocError>
    requires { All (λ event. event < length graph.now) events.now }
    ensures { IfOk result (λ order. order.items
        ≡ definition.mainline_order graph.now (definition.mainline graph.now power) events.now) }
{
    let positions = positions_of(alloc, graph, power, events)?;
    let order = in_order(alloc, graph, &positions)?;
    Ok(order)
}

// Each event with a position, which compares with the others' as their positions in the mainline do.
fn positions_of(
    alloc: Global,
    graph: &Graph,
    power: Option<EventNo>,
    events: &[EventNo],
) -> Result<Vec<Positioned>, AllocError>
    requires { All (λ event. event < length graph.now) events.now }
    ensures numbers { IfOk result (λ positions. map (λ positioned. positioned.number) positions.items ≡ events.now) }
    ensures alike { IfOk result (λ positions.
        CompareAlike graph.now (definition.mainline graph.now power) (map event_position positions.items)) }
{
    let mut walk = MainlineWalk::new(alloc, power);
    let tied = tied_positions(alloc, graph, &mut walk, events)?;
    if let Some(positions) = tied {
        return Ok(positions);
    }
    let positions = exact_positions(alloc, graph, &mut walk, events)?;
    Ok(positions)
}

// Each event with its position in the mainline.
fn exact_positions(
    alloc: Global,
    graph: &Graph,
    walk: &mut MainlineWalk,
    events: &[EventNo],
) -> Result<Vec<Positioned>, AllocError>
    requires walk { IsWalk walk.old }
    requires known { All (λ event. event < length graph.now) events.now }
    ensures numbers { IfOk result (λ positions. map (λ positioned. positioned.number) positions.items ≡ events.now) }
    ensures positioned { IfOk result (λ positions.
        All (IsPositioned graph.now (whole graph.now walk.old)) positions.items) }
{
    let mut positions = Vec::with_capacity(alloc, events.len())?;
    for event in events {
        let position = walk.position(graph, *event)?;
        positions.push(Positioned {
            number: *event,
            position,
        })?;
    }
    Ok(positions)
}

// These events in the order of their positions, and of what else the order goes by.
pub(crate) fn in_order(
    alloc: Global,
    graph: &Graph,
    positions: &[Positioned],
) -> Result<Vec<EventNo>, AllocError>
    requires { All (λ positioned. positioned.number < length graph.now) positions.now }
    ensures { IfOk result (λ order. (line : List ℕ) → CompareAlike graph.now line (map event_position positions.now)
        → order.items ≡ definition.mainline_order graph.now line (map (λ positioned. positioned.number) positions.now)) }
{
    // Each id is there once, so that no two events tie.
    graph_is_sound(graph);
    let mut places = places_of(alloc, graph, positions)?;
    places.sort_by(|a, b| compare(a, b))?;
    let order = numbers_of(alloc, &places)?;
    Ok(order)
}

fn places_of<'g>(
    alloc: Global,
    graph: &'g Graph,
    positions: &[Positioned],
) -> Result<Vec<Place<'g>>, AllocError>
    requires { All (λ positioned. positioned.number < length graph.now) positions.now }
    ensures positions { IfOk result (λ places. map place_position places.items ≡ map event_position positions.now) }
    ensures numbers { IfOk result (λ places. map (λ place. place.number) places.items
        ≡ map (λ positioned. positioned.number) positions.now) }
    ensures read { IfOk result (λ places. All (IsRead graph.now) places.items) }
{
    positions
        .iter()
        .map(|positioned| place_at(graph, *positioned))
        .collect(alloc)
}

fn place_at(graph: &Graph, positioned: Positioned) -> Place<'_>
    requires { positioned.number < length graph.now }
    ensures number { result.number ≡ positioned.number }
    ensures position { result.position ≡ positioned.position }
    ensures read { IsRead graph.now result }
{
    let number = positioned.number;
    let row = graph.row(number);
    Place {
        position: positioned.position,
        timestamp: row.event.origin_server_ts(),
        id: &row.id,
        number,
    }
}

fn numbers_of(alloc: Global, places: &[Place<'_>]) -> Result<Vec<EventNo>, AllocError>
    ensures { IfOk result (λ numbers. numbers.items ≡ map (λ place. place.number) places.now) }
{
    places.iter().map(|place| place.number).collect(alloc)
}

fn compare(a: &Place<'_>, b: &Place<'_>) -> Ordering
    ensures { result ≡ place_cmp a.now b.now }
{
    compare_positions(a.position, b.position)
        .then(a.timestamp.cmp(&b.timestamp))
        .then(a.id.cmp(b.id))
}

// The greater position first, and an infinite one before all.
fn compare_positions(a: Option<u32>, b: Option<u32>) -> Ordering
    ensures { result ≡ definition.position_cmp a b }
{
    match (a, b) {
        (None, None) => Ordering::Equal,
        (None, Some(_)) => Ordering::Less,
        (Some(_), None) => Ordering::Greater,
        (Some(a), Some(b)) => b.cmp(&a),
    }
}
