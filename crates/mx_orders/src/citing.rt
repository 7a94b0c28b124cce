// The auth events of an event, by their keys.
ghost use Rattle.std.specs.Prelude.{◌≡◌, ◌<◌, ◌≤◌, [], IfSome, length};
ghost use Rattle.mx_graph.specs.Graph.{IsSound};
ghost use Rattle.mx_graph.specs.Record as record_of;
ghost use Rattle.mx_orders.specs.StateMap.{auth_event_at};

use mx_auth::is_at;
use mx_graph::{EventNo, Graph, MOST_ROWS};

/// The first auth event of an event that has this type and an empty state key.
pub(crate) fn auth_event(graph: &Graph, number: EventNo, kind: &str) -> Option<EventNo>
    ensures first { result ≡ auth_event_at graph.now (record_of.event graph.now number) (kind.now, []) }
    ensures earlier { IfSome result (λ other. other < number) }
    ensures known { IfSome result (λ other. other < length graph.now) }
    ensures few { length graph.now ≤ MOST_ROWS }
    ensures sound { IsSound graph.now }
{
    if number.index() >= graph.len() {
        return None;
    }
    for other in graph.auth_events(number) {
        if is_at(&graph.row(*other).event, kind, "") {
            return Some(*other);
        }
    }
    None
}
