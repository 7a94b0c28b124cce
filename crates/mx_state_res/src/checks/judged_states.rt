// The state in which an event is judged while states are resolved.
ghost use Rattle.std.specs.Prelude.{◌≡◌, ◌<◌, All, IfSome, None, Some, if◌then◌else◌, length};
ghost use Rattle.std.specs.Option.{option_copied, option_or};
ghost use Rattle.mx_graph.specs.Record as record_of;
ghost use Rattle.mx_orders.specs.StateMap.{auth_event_at};
ghost use Rattle.mx_graph.specs.StateMap.{entry as entry_at};
ghost use Rattle.mx_state_res.specs.Numbered.{shown_by};
ghost use Rattle.mx_state_res.specs.Resolution as definition;

use crate::checks::working_states::WorkingState;
use mx_auth::{RoomState, RoomVersion, is_at, judge, needed_keys};
use mx_graph::{EventNo, Graph};
use mx_ident::EventId;
use mx_pdu::Pdu;
use std::marker::Model;

// A state, in which what it lacks is taken from the auth events of an event.
#[derive(Debug, Drop)]
pub(crate) struct JudgedState<'a, 's> {
    version: RoomVersion,
    graph: &'a Graph,
    state: &'a WorkingState<'s>,
    number: EventNo,
}

impl<'a, 's> Model for JudgedState<'a, 's> {
    ghost use Rattle.std.specs.Prelude.{List, ℕ, ◌<◌, All, length};
    ghost use Rattle.mx_auth.specs.declared.versions.RoomVersion.{RoomVersion};
    ghost use Rattle.mx_graph.specs.Record.{Row};
    ghost use Rattle.mx_graph.specs.StateMap.{State};
    ghost use Rattle.mx_state_res.specs.Numbered.{shown_by};
    ghost use Rattle.mx_state_res.specs.StateCode.{judged_code};

    ghost Value = { List Row × (State × (ℕ × RoomVersion)) };

    ghost coded = { judged_code };

    ghost view = { λ j. (j.graph.now, (shown_by j.state.now, (j.number, j.version))) };

    ghost invariant = { λ j.
        (j.number < length j.graph.now) × All (λ e. e.1 < length j.graph.now) (shown_by j.state.now) };
}

impl<'a, 's> JudgedState<'a, 's> {
    ghost use Rattle.std.specs.Prelude.{◌≡◌, ◌<◌, IfSome, length};
    ghost use Rattle.std.specs.Option.{option_or};
    ghost use Rattle.mx_graph.specs.Record as record_of;
    ghost use Rattle.mx_graph.specs.StateMap.{entry as entry_at};
    ghost use Rattle.mx_state_res.specs.Resolution as definition;

    // The number of the event at a type and a state key.
    fn number_at(&self, kind: &str, key: &str) -> Option<EventNo>
        ensures number { result ≡ option_or (entry_at self.now.1.0 (kind.now, key.now))
            (definition.usable_auth_event self.now.1.1.1 self.now.0 (record_of.event self.now.0 self.now.1.1.0) (kind.now, key.now)) }
        ensures known { IfSome result (λ n. n < length self.now.0) }
    {
        match self.state.get(kind, key) {
            Some(number) => Some(number),
            None => usable_auth_event(self.version, self.graph, self.number, kind, key),
        }
    }
}

impl<'a, 's> RoomState for JudgedState<'a, 's> {
    ghost use Rattle.mx_graph.specs.Record as record_of;
    ghost use Rattle.mx_state_res.specs.Resolution as definition;

    ghost state = { λ j. definition.judged_in j.1.1.1 j.0 j.1.0 (record_of.event j.0 j.1.1.0) };

    fn create_id(&self) -> Option<&EventId> {
        match self.number_at("m.room.create", "") {
            Some(number) => Some(&self.graph.row(number).id),
            None => None,
        }
    }

    fn entry(&self, kind: &str, key: &str) -> Option<&Pdu> {
        match self.number_at(kind, key) {
            Some(number) => Some(&self.graph.row(number).event),
            None => None,
        }
    }
}

/// The auth event that an event needs at a type and a state key, where it cites one there that was not rejected: it stands
/// in for what a state lacks while the event is judged in it. It takes no memory.
///
/// Source: the Matrix specification, Room Version 2, "State resolution", iterative auth checks.
pub fn usable_auth_event(
    version: RoomVersion,
    graph: &Graph,
    number: EventNo,
    kind: &str,
    state_key: &str,
) -> Option<EventNo>
    requires { number < length graph.now }
    ensures usable { result ≡ definition.usable_auth_event version graph.now (record_of.event graph.now number)
        (kind.now, state_key.now) }
    ensures known { IfSome result (λ n. n < length graph.now) }
{
    if !needed_keys(version, &graph.row(number).event).contains(kind, state_key) {
        return None;
    }
    match auth_event(graph, number, kind, state_key) {
        Some(other) => unless_rejected(graph, other),
        None => None,
    }
}

fn unless_rejected(graph: &Graph, number: EventNo) -> Option<EventNo>
    requires { number < length graph.now }
    ensures usable { result ≡ (if (record_of.row graph.now number).rejected then None else Some number) }
    ensures known { IfSome result (λ n. n < length graph.now) }
{
    if graph.row(number).rejected {
        None
    } else {
        Some(number)
    }
}

// The first auth event of an event that has this type and this state key.
fn auth_event(graph: &Graph, number: EventNo, kind: &str, state_key: &str) -> Option<EventNo>
    requires { number < length graph.now }
    ensures first { result ≡ auth_event_at graph.now (record_of.event graph.now number) (kind.now, state_key.now) }
    ensures known { IfSome result (λ other. other < length graph.now) }
{
    for other in graph.auth_events(number) {
        if is_at(&graph.row(*other).event, kind, state_key) {
            return Some(*other);
        }
    }
    None
}

/// Whether the rules of a version allow an event in a state, where what the state lacks is taken from the event's auth events. It
/// takes no memory.
#[tactic(auto, unfolding(crate::specs::Resolution::is_allowed))]
pub(crate) fn is_allowed(
    version: RoomVersion,
    graph: &Graph,
    state: &WorkingState<'_>,
    number: EventNo,
) -> bool
    requires number { number < length graph.now }
    requires known { All (λ e. e.1 < length graph.now) (shown_by state.now) }
    ensures { result ≡ definition.is_allowed version graph.now (shown_by state.now) (record_of.event graph.now number) }
{
    let judged = JudgedState {
        version,
        graph,
        state,
        number,
    };
    judge(version, &graph.row(number).event, &judged).is_ok()
}
