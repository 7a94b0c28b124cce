// The state in which an event is judged while states are resolved.
ghost use Rattle.std.specs.Prelude.{◌≡◌, ◌<◌, All, length};
ghost use Rattle.mx_audit.specs.Steps.{refusal_at};

use mx_auth::{RoomState, RoomVersion, Rule, judge};
use mx_graph::{EventNo, Graph};
use mx_ident::EventId;
use mx_pdu::Pdu;
use mx_state_res::usable_auth_event;
use mx_states::StateMap;
use std::marker::Model;

// A state, in which what it lacks is taken from the auth events of an event.
#[derive(Debug, Drop)]
struct JudgedState<'a> {
    version: RoomVersion,
    graph: &'a Graph,
    state: &'a StateMap,
    number: EventNo,
}

impl<'a> Model for JudgedState<'a> {
    ghost use Rattle.std.specs.Prelude.{List, ℕ, ◌<◌, All, length};
    ghost use Rattle.mx_auth.specs.declared.versions.RoomVersion.{RoomVersion};
    ghost use Rattle.mx_graph.specs.Record.{Row};
    ghost use Rattle.mx_graph.specs.StateMap.{State};
    ghost use Rattle.mx_state_res.specs.StateCode.{judged_code};

    ghost Value = { List Row × (State × (ℕ × RoomVersion)) };

    ghost coded = { judged_code };

    ghost view = { λ j. (j.graph.now, (j.state.now, (j.number, j.version))) };

    ghost invariant = { λ j.
        (j.number < length j.graph.now) × All (λ e. e.1 < length j.graph.now) j.state.now };
}

impl<'a> JudgedState<'a> {
    ghost use Rattle.std.specs.Prelude.{◌≡◌, ◌<◌, IfSome, length};
    ghost use Rattle.std.specs.Option.{option_or};
    ghost use Rattle.mx_graph.specs.Record as record_of;
    ghost use Rattle.mx_graph.specs.StateMap.{entry as entry_at};
    ghost use Rattle.mx_state_res.specs.Resolution as definition;

    // The number of the event at a type and a state key.
    fn number_at(&self, kind: &str, key: &str) -> Option<EventNo>
        ensures number { result ≡ option_or (entry_at self.now.1.0 (kind.now, key.now))
            (definition.usable_auth_event self.now.1.1.1 self.now.0 (record_of.event self.now.0 self.now.1.1.0) (kind.now, key.now)) }
        ensures known { IfSome result (λ n. n < length self.now.0) }
    {
        match self.state.get(kind, key) {
            Some(number) => Some(number),
            None => usable_auth_event(self.version, self.graph, self.number, kind, key),
        }
    }
}

impl<'a> RoomState for JudgedState<'a> {
    ghost use Rattle.mx_graph.specs.Record as record_of;
    ghost use Rattle.mx_state_res.specs.Resolution as definition;

    ghost state = { λ j. definition.judged_in j.1.1.1 j.0 j.1.0 (record_of.event j.0 j.1.1.0) };

    fn create_id(&self) -> Option<&EventId> {
        match self.number_at("m.room.create", "") {
            Some(number) => Some(&self.graph.row(number).id),
            None => None,
        }
    }

    fn entry(&self, kind: &str, key: &str) -> Option<&Pdu> {
        match self.number_at(kind, key) {
            Some(number) => Some(&self.graph.row(number).event),
            None => None,
        }
    }
}

/// The line of the rules of a version that does not allow an event in a state, where what the state lacks is taken from
/// the event's auth events; none where they allow it. It takes no memory.
///
/// Source: the Matrix specification, Room Version 2, "State resolution", iterative auth checks.
#[tactic(auto, unfolding(crate::specs::Steps::refusal_at))]
pub(crate) fn refusal_in(
    version: RoomVersion,
    graph: &Graph,
    state: &StateMap,
    number: EventNo,
) -> Option<Rule>
    requires number { number < length graph.now }
    requires known { All (λ e. e.1 < length graph.now) state.now }
    ensures { result ≡ refusal_at version graph.now state.now number }
{
    let judged = JudgedState {
        version,
        graph,
        state,
        number,
    };
    judge(version, &graph.row(number).event, &judged).err()
}
