// The power level of an event's sender, by the event's own auth events.
ghost use Rattle.std.specs.Prelude.{◌≡◌, ◌<◌, IfSome, length, option_map};
ghost use Rattle.mx_graph.specs.Record as record_of;
ghost use Rattle.mx_orders.specs.PowerOrder as definition;

use crate::citing::auth_event;
use mx_graph::{EventNo, Graph};
use mx_levels::Levels;
use mx_pdu::Pdu;

/// The power level of an event's sender in the state that the event's auth events make, 0 where these have no create
/// event.
pub(crate) fn sender_level(graph: &Graph, number: EventNo) -> i64
    requires { number < length graph.now }
    ensures { result ≡ definition.sender_level graph.now number }
{
    let create = auth_event(graph, number, "m.room.create");
    let power = auth_event(graph, number, "m.room.power_levels");
    if create.is_none() {
        return 0;
    }
    Levels::of(event_at(graph, create), event_at(graph, power)).user(
        graph.row(number).event.sender().as_str(),
    )
}

// The event with this number, where there is one.
fn event_at(graph: &Graph, number: Option<EventNo>) -> Option<&Pdu>
    requires { IfSome number (λ n. n < length graph.now) }
    ensures { option_map (λ event. event.now) result ≡ option_map (record_of.event graph.now) number }
{
    match number {
        Some(number) => Some(&graph.row(number).event),
        None => None,
    }
}
