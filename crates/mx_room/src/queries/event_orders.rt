// Events of a room in an order.
ghost use Rattle.std.specs.Prelude.{◌≡◌, ◌<◌, All, IfOk, IsTrue, filter, length, map, take};
ghost use Rattle.mx_graph.specs.Record.{event};
ghost use Rattle.mx_orders.specs.Mainline.{sorted};
ghost use Rattle.mx_pdu.specs.Event.{depth_of};
ghost use Rattle.mx_receipt.specs.Receipt.{rows_of};
ghost use Rattle.mx_room.specs.EventOrders.{IsListed, is_as_deep, listed_depth_falling, listed_depth_rising, listed_id_rising};
ghost use Rattle.mx_room.specs.Queries.{depth_falling, depth_rising, id_rising};

use mx_graph::EventNo;
use mx_ident::EventId;
use mx_receipt::Timeline;
use std::alloc::{AllocError, Global};
use std::cmp::Ordering;

// What the orders of an event go by, read once.
#[derive(Clone, Copy, Debug)]
pub(crate) struct Listed<'t> {
    depth: u64,
    id: &'t EventId,
    number: EventNo,
}

/// Events by lesser id.
pub(crate) fn by_id(
    alloc: Global,
    timeline: &Timeline,
    events: &[EventNo],
) -> Result<Vec<EventNo>, AllocError>
    requires { All (λ event. event < length timeline.now.kept) events.now }
    ensures order { IfOk result (λ numbers. numbers.items ≡ sorted (id_rising (rows_of timeline.now.kept)) events.now) }
    ensures below { IfOk result (λ numbers. All (λ event. event < length timeline.now.kept) numbers.items) }
{
    let mut listed = listed_of(alloc, timeline, events)?;
    listed.sort_by(|a, b| compare_ids(a, b))?;
    let numbers = numbers_of(alloc, &listed)?;
    Ok(numbers)
}

// Events by greater depth, then lesser id.
fn deepest_first(
    alloc: Global,
    timeline: &Timeline,
    events: &[EventNo],
) -> Result<Vec<EventNo>, AllocError>
    requires { All (λ event. event < length timeline.now.kept) events.now }
    ensures order { IfOk result (λ numbers. numbers.items ≡ sorted (depth_falling (rows_of timeline.now.kept)) events.now) }
    ensures below { IfOk result (λ numbers. All (λ event. event < length timeline.now.kept) numbers.items) }
{
    let mut listed = listed_of(alloc, timeline, events)?;
    listed.sort_by(|a, b| compare_falling(a, b))?;
    let numbers = numbers_of(alloc, &listed)?;
    Ok(numbers)
}

/// The first of these events by greater depth, then lesser id, at most so many.
///
/// The time is that of a look at each event, and of a sort of those that are as deep as any of the last ones.
pub(crate) fn deepest(
    alloc: Global,
    timeline: &Timeline,
    events: &[EventNo],
    most: usize,
) -> Result<Vec<EventNo>, AllocError>
    requires { All (λ event. event < length timeline.now.kept) events.now }
    ensures order { IfOk result (λ numbers. numbers.items ≡ take most (sorted (depth_falling (rows_of timeline.now.kept)) events.now)) }
    ensures below { IfOk result (λ numbers. All (λ event. event < length timeline.now.kept) numbers.items) }
{
    if events.len() <= most {
        let numbers = deepest_first(alloc, timeline, events)?;
        return Ok(numbers);
    }
    let depth = least_depth(timeline, &events[events.len() - most..]);
    let deep = as_deep(alloc, timeline, events, depth)?;
    let mut numbers = deepest_first(alloc, timeline, &deep)?;
    numbers.truncate(most);
    Ok(numbers)
}

// A depth that each of these events has or exceeds.
fn least_depth(timeline: &Timeline, events: &[EventNo]) -> u64
    requires { All (λ event. event < length timeline.now.kept) events.now }
    ensures { All (λ event. IsTrue (is_as_deep (rows_of timeline.now.kept) result event)) events.now }
{
    let mut least = u64::MAX;
    for event in events {
        least = least.min(depth_of_event(timeline, *event));
    }
    least
}

// Those of these events that are at least so deep, in their order.
fn as_deep(
    alloc: Global,
    timeline: &Timeline,
    events: &[EventNo],
    depth: u64,
) -> Result<Vec<EventNo>, AllocError>
    requires { All (λ event. event < length timeline.now.kept) events.now }
    ensures deep { IfOk result (λ deep. deep.items ≡ filter (is_as_deep (rows_of timeline.now.kept) depth) events.now) }
    ensures below { IfOk result (λ deep. All (λ event. event < length timeline.now.kept) deep.items) }
{
    let mut deep = Vec::new(alloc);
    for event in events {
        if depth <= depth_of_event(timeline, *event) {
            deep.push(*event)?;
        }
    }
    Ok(deep)
}

/// The depth of an event.
pub(crate) fn depth_of_event(timeline: &Timeline, number: EventNo) -> u64
    requires { number < length timeline.now.kept }
    ensures { result ≡ depth_of (event (rows_of timeline.now.kept) number) }
{
    timeline.row(number).event.depth()
}

/// Events by lesser depth, then lesser id.
pub(crate) fn deepest_last(
    alloc: Global,
    timeline: &Timeline,
    events: &[EventNo],
) -> Result<Vec<EventNo>, AllocError>
    requires { All (λ event. event < length timeline.now.kept) events.now }
    ensures order { IfOk result (λ numbers. numbers.items ≡ sorted (depth_rising (rows_of timeline.now.kept)) events.now) }
    ensures below { IfOk result (λ numbers. All (λ event. event < length timeline.now.kept) numbers.items) }
{
    let mut listed = listed_of(alloc, timeline, events)?;
    listed.sort_by(|a, b| compare_rising(a, b))?;
    let numbers = numbers_of(alloc, &listed)?;
    Ok(numbers)
}

fn listed_of<'t>(
    alloc: Global,
    timeline: &'t Timeline,
    events: &[EventNo],
) -> Result<Vec<Listed<'t>>, AllocError>
    requires { All (λ event. event < length timeline.now.kept) events.now }
    ensures numbers { IfOk result (λ listed. map (λ event. event.number) listed.items ≡ events.now) }
    ensures read { IfOk result (λ listed. All (IsListed (rows_of timeline.now.kept)) listed.items) }
{
    events
        .iter()
        .map(|event| listed_event(timeline, *event))
        .collect(alloc)
}

fn listed_event(timeline: &Timeline, number: EventNo) -> Listed<'_>
    requires { number < length timeline.now.kept }
    ensures number { result.number ≡ number }
    ensures read { IsListed (rows_of timeline.now.kept) result }
{
    let row = timeline.row(number);
    Listed {
        depth: row.event.depth(),
        id: &row.id,
        number,
    }
}

fn numbers_of(alloc: Global, listed: &[Listed<'_>]) -> Result<Vec<EventNo>, AllocError>
    ensures { IfOk result (λ numbers. numbers.items ≡ map (λ event. event.number) listed.now) }
{
    listed.iter().map(|event| event.number).collect(alloc)
}

fn compare_ids(a: &Listed<'_>, b: &Listed<'_>) -> Ordering
    ensures { result ≡ listed_id_rising a.now b.now }
{
    a.id.cmp(b.id)
}

fn compare_rising(a: &Listed<'_>, b: &Listed<'_>) -> Ordering
    ensures { result ≡ listed_depth_rising a.now b.now }
{
    a.depth.cmp(&b.depth).then(a.id.cmp(b.id))
}

fn compare_falling(a: &Listed<'_>, b: &Listed<'_>) -> Ordering
    ensures { result ≡ listed_depth_falling a.now b.now }
{
    b.depth.cmp(&a.depth).then(a.id.cmp(b.id))
}
