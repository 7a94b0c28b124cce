// A mainline that is followed only as far as positions ask.
ghost use Rattle.std.specs.Prelude.{◌≡◌, ◌==◌, ◌<◌, [], IfOk, IfSome, OnOk, length, position};
ghost use Rattle.mx_orders.specs.Mainline as definition;
ghost use Rattle.mx_orders.specs.MainlineWalk.{IsWalk, whole};

use crate::mainlines::{place_in, power_levels_event};
use mx_graph::{EventNo, Graph, graph_is_sound};
use std::alloc::{AllocError, Global};

// The first events of a mainline, and the one that comes after them.
#[derive(Debug, Drop)]
pub(crate) struct MainlineWalk {
    line: Vec<EventNo>,
    next: Option<EventNo>,
}

impl MainlineWalk {
    // The mainline of a power levels event, of which nothing was followed yet.
    pub(crate) fn new(alloc: Global, power: Option<EventNo>) -> MainlineWalk
        ensures walk { IsWalk result }
        ensures line { result.line.items ≡ [] }
        ensures next { result.next ≡ power }
    {
        MainlineWalk {
            line: Vec::new(alloc),
            next: power,
        }
    }

    // The place in the mainline, from 0, of the first power levels event that lies there of those that an event rests
    // on: the one among its auth events, the one among that one's, and so on. The event itself does not count. `None`
    // where none lies there: the position is infinite. It follows the mainline down to that place, or past the last of
    // these events.
    pub(crate) fn position(
        &mut self,
        graph: &Graph,
        event: EventNo,
    ) -> Result<Option<u32>, AllocError>
        requires { IsWalk self.old }
        ensures walk { OnOk result (IsWalk self.new) }
        ensures whole { OnOk result (whole graph.now self.new ≡ whole graph.now self.old) }
        ensures position { IfOk result (λ place.
            place ≡ definition.mainline_position graph.now (whole graph.now self.old) event) }
    {
        let mut above = event;
        while let Some(power) = power_levels_event(graph, above) {
            self.follow(graph, power)?;
            if let Some(place) = self.place_so_far(graph, power) {
                return Ok(Some(place));
            }
            above = power;
        }
        Ok(None)
    }

    // Follows the mainline as far as there are events with this number or a greater one.
    pub(crate) fn follow(&mut self, graph: &Graph, least: EventNo) -> Result<(), AllocError>
        requires { IsWalk self.old }
        ensures walk { OnOk result (IsWalk self.new) }
        ensures whole { OnOk result (whole graph.now self.new ≡ whole graph.now self.old) }
        ensures followed { OnOk result (IfSome self.new.next (λ next. next < least)) }
    {
        while let Some(next) = self.next {
            if next < least {
                return Ok(());
            }
            self.line.push(next)?;
            self.next = power_levels_event(graph, next);
        }
        Ok(())
    }

    // The place of an event in the mainline, which was followed down to it.
    pub(crate) fn place_so_far(&self, graph: &Graph, event: EventNo) -> Option<u32>
        requires walk { IsWalk self.now }
        requires followed { IfSome self.now.next (λ next. next < event) }
        ensures { result ≡ position (λ other. other == event) (whole graph.now self.now) }
    {
        graph_is_sound(graph);
        let place = place_in(&self.line, event)?;
        Some(place as u32)
    }
}
