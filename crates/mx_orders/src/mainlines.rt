// The mainline of a power levels event, followed to its end.
ghost use Rattle.std.specs.Prelude.{◌≡◌, ◌==◌, ◌<◌, ◌≤◌, IfOk, IfSome, length, position};
ghost use Rattle.mx_graph.specs.Graph.{IsSound};
ghost use Rattle.mx_graph.specs.Record as record_of;
ghost use Rattle.mx_orders.specs.Lists.{Falls};
ghost use Rattle.mx_orders.specs.Mainline as definition;
ghost use Rattle.mx_orders.specs.StateMap.{auth_event_at};

use crate::citing::auth_event;
use mx_graph::{EventNo, Graph, MOST_ROWS};
use std::alloc::{AllocError, Global};
use std::marker::Model;

/// The mainline of a power levels event: that event, the power levels event among its auth events, the one among that
/// one's, and so on. Without a power levels event it is empty.
///
/// Source: the Matrix specification, Room Version 2, state resolution, "mainline ordering".
#[derive(Debug, Drop)]
pub struct Mainline {
    line: Vec<EventNo>,
}

impl Model for Mainline {
    ghost use Rattle.std.specs.Prelude.{ℕ, List};
    ghost use Rattle.mx_orders.specs.Lists.{IsLine};

    ghost Value = { List ℕ };

    ghost view = { λ mainline. mainline.line.items };

    ghost invariant = { λ mainline. IsLine mainline.line.items };
}

impl Mainline {
    /// The mainline of a power levels event. The one error is that no memory is left.
    pub fn of(alloc: Global, graph: &Graph, power: Option<EventNo>) -> Result<Mainline, AllocError>
        ensures { IfOk result (λ mainline. mainline ≡ definition.mainline graph.now power) }
    {
        let mut line = Vec::new(alloc);
        let mut next = power;
        while let Some(event) = next {
            line.push(event)?;
            next = power_levels_event(graph, event);
        }
        Ok(Mainline { line })
    }

    /// The place in the mainline, from 0, of the first power levels event that lies there of those that an event rests
    /// on. The event itself does not count. `None` where none lies there: the position is infinite. It takes no memory.
    pub fn position(&self, graph: &Graph, event: EventNo) -> Option<u32>
        ensures { result ≡ definition.mainline_position graph.now self.now event }
    {
        let mut above = event;
        while let Some(power) = power_levels_event(graph, above) {
            if let Some(place) = self.place_in_line(power) {
                return Some(place);
            }
            above = power;
        }
        None
    }

    // The place of an event in the mainline.
    fn place_in_line(&self, event: EventNo) -> Option<u32>
        ensures { result ≡ position (λ other. other == event) self.now }
    {
        let place = place_in(&self.line, event)?;
        Some(place as u32)
    }
}

// The place of an event in a list that falls.
pub(crate) fn place_in(line: &[EventNo], event: EventNo) -> Option<usize>
    requires { Falls line.now }
    ensures place { result ≡ position (λ other. other == event) line.now }
    ensures below { IfSome result (λ place. place < length line.now) }
{
    line.binary_search_by(|other| event.cmp(other)).ok()
}

// The power levels event among the auth events of an event.
pub(crate) fn power_levels_event(graph: &Graph, number: EventNo) -> Option<EventNo>
    ensures first { result ≡ auth_event_at graph.now (record_of.event graph.now number) definition.power_key }
    ensures earlier { IfSome result (λ other. other < number) }
    ensures known { IfSome result (λ other. other < length graph.now) }
    ensures few { length graph.now ≤ MOST_ROWS }
    ensures sound { IsSound graph.now }
{
    auth_event(graph, number, "m.room.power_levels")
}
