// Positions in a mainline that is not followed down to the oldest events, since these tie.
ghost use Rattle.std.specs.Prelude.{◌≡◌, ◌<◌, ◌^◌, ◌-◌, All, IfOk, IfSome, OnOk, length, map};
ghost use Rattle.mx_orders.specs.MainlineWalk.{IsWalk, whole};
ghost use Rattle.mx_orders.specs.Places.{CompareAlike, event_position};
ghost use Rattle.mx_orders.specs.Ties.{IsInPlace, least_power};

use crate::mainline_ordering::Positioned;
use crate::mainline_walks::MainlineWalk;
use crate::mainlines::power_levels_event;
use mx_graph::{EventNo, Graph};
use std::alloc::{AllocError, Global};

// The place of all the oldest events, whose position is not looked for. It comes after each place in a mainline.
const LAST_PLACE: u32 = u32::MAX;

// Each event with a position that compares with the others' as those in the mainline do: that in the mainline, or the
// last place for the oldest events. These come to the oldest of all the events' first power levels events, with none of
// the mainline before it, so that they have one position, which is infinite or after each place that was looked for.
// `None` where an event has neither.
pub(crate) fn tied_positions(
    alloc: Global,
    graph: &Graph,
    walk: &mut MainlineWalk,
    events: &[EventNo],
) -> Result<Option<Vec<Positioned>>, AllocError>
    requires { IsWalk walk.old }
    ensures walk { OnOk result (IsWalk walk.new) }
    ensures whole { OnOk result (whole graph.now walk.new ≡ whole graph.now walk.old) }
    ensures numbers { IfOk result (λ found. IfSome found (λ positions.
        map (λ positioned. positioned.number) positions.items ≡ events.now)) }
    ensures alike { IfOk result (λ found. IfSome found (λ positions.
        CompareAlike graph.now (whole graph.now walk.old) (map event_position positions.items))) }
{
    let Some(oldest) = oldest_power_levels_event(graph, events) else {
        return Ok(None);
    };
    let mut positions = Vec::with_capacity(alloc, events.len())?;
    for event in events {
        let position = place_of(walk, graph, *event, oldest)?;
        if position.is_none() {
            return Ok(None);
        }
        positions.push(Positioned {
            number: *event,
            position,
        })?;
    }
    Ok(Some(positions))
}

// The least number of the first power levels event of each of these events; `None` where one of them rests on none.
fn oldest_power_levels_event(graph: &Graph, events: &[EventNo]) -> Option<EventNo>
    ensures { result ≡ least_power graph.now (2 ^ 32 - 1) events.now }
{
    let mut oldest = EventNo::at(u32::MAX);
    for event in events {
        let power = power_levels_event(graph, *event)?;
        oldest = oldest.min(power);
    }
    Some(oldest)
}

// The place in the mainline of the first power levels event that lies there of those that an event rests on, as far as
// they come after `oldest`. Where none does, the last place if they come to `oldest`, and otherwise `None`.
fn place_of(
    walk: &mut MainlineWalk,
    graph: &Graph,
    event: EventNo,
    oldest: EventNo,
) -> Result<Option<u32>, AllocError>
    requires { IsWalk walk.old }
    ensures walk { OnOk result (IsWalk walk.new) }
    ensures whole { OnOk result (whole graph.now walk.new ≡ whole graph.now walk.old) }
    ensures place { IfOk result (λ found. IfSome found (λ place.
        IsInPlace graph.now (whole graph.now walk.old) oldest event place)) }
{
    let mut above = event;
    while let Some(power) = power_levels_event(graph, above) {
        if power == oldest {
            return Ok(Some(LAST_PLACE));
        }
        if power < oldest {
            return Ok(None);
        }
        walk.follow(graph, power)?;
        if let Some(place) = walk.place_so_far(graph, power) {
            return Ok(Some(place));
        }
        above = power;
    }
    Ok(None)
}
