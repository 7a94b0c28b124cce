// A state of a room, as the authorization rules look at it.
ghost use Rattle.std.specs.Prelude.{◌≡◌, ◌<◌, All, IfSome, find, length};
ghost use Rattle.mx_auth.specs.Rules.{key_of, rules, same_key};
ghost use Rattle.mx_redact.specs.Fields.{is_some_and};
ghost use Rattle.mx_graph.specs.Record as record_of;
ghost use Rattle.mx_orders.specs.StateMap as state_of_events;
ghost use Rattle.mx_state_res.specs.Numbered.{AreKnown};
ghost use Rattle.mx_states.specs.Numbered.{state_at};
ghost use Rattle.mx_receipt.specs.Receipt.{created_version as created_version_of, version_in as version_in_rows};

use mx_auth::{RoomState, RoomVersion, Rule, is_at, judge};
use mx_graph::{EventNo, Graph};
use mx_ident::EventId;
use mx_pdu::Pdu;
use mx_states::{StateNo, StateRef, States};
use std::marker::Model;

// A state, with the graph that its events stand in.
#[derive(Debug, Drop)]
struct StateInGraph<'a> {
    graph: &'a Graph,
    state: StateRef<'a>,
}

impl<'a> Model for StateInGraph<'a> {
    ghost use Rattle.std.specs.Prelude.{List, ℕ, ◌<◌, All, length};
    ghost use Rattle.mx_graph.specs.Record.{Row};
    ghost use Rattle.mx_graph.specs.StateMap.{State};
    ghost use Rattle.mx_receipt.specs.KeptCode.{state_in_graph_code};

    ghost Value = { List Row × State };

    ghost coded = { state_in_graph_code };

    ghost view = { λ s. (s.graph.now, s.state) };

    ghost invariant = { λ s. All (λ e. e.1 < length s.graph.now) s.state };
}

impl<'a> StateInGraph<'a> {
    ghost use Rattle.std.specs.Prelude.{◌≡◌, ◌<◌, IfSome, length};
    ghost use Rattle.mx_graph.specs.StateMap.{entry as entry_at};

    // The number of the event at a type and a state key.
    fn number_at(&self, kind: &str, key: &str) -> Option<EventNo>
        ensures number { result ≡ entry_at self.now.1 (kind.now, key.now) }
        ensures known { IfSome result (λ n. n < length self.now.0) }
    {
        self.state.get(kind, key)
    }
}

impl<'a> RoomState for StateInGraph<'a> {
    ghost use Rattle.mx_orders.specs.StateMap.{view};

    ghost state = { λ s. view s.0 s.1 };

    fn create_id(&self) -> Option<&EventId> {
        match self.number_at("m.room.create", "") {
            Some(number) => Some(&self.graph.row(number).id),
            None => None,
        }
    }

    fn entry(&self, kind: &str, key: &str) -> Option<&Pdu> {
        match self.number_at(kind, key) {
            Some(number) => Some(&self.graph.row(number).event),
            None => None,
        }
    }
}

// The state that some events make: of two with one type and state key it has the first.
#[derive(Debug, Drop)]
struct StateOfEvents<'a> {
    graph: &'a Graph,
    events: &'a [EventNo],
}

impl<'a> Model for StateOfEvents<'a> {
    ghost use Rattle.std.specs.Prelude.{List, ℕ, ◌<◌, All, length};
    ghost use Rattle.mx_graph.specs.Record.{Row};
    ghost use Rattle.mx_receipt.specs.KeptCode.{events_in_graph_code};

    ghost Value = { List Row × List ℕ };

    ghost coded = { events_in_graph_code };

    ghost view = { λ s. (s.graph.now, s.events.now) };

    ghost invariant = { λ s. All (λ p. p < length s.graph.now) s.events.now };
}

impl<'a> StateOfEvents<'a> {
    ghost use Rattle.std.specs.Prelude.{◌≡◌, ◌<◌, IfSome, length};
    ghost use Rattle.mx_graph.specs.StateMap.{entry as entry_at};
    ghost use Rattle.mx_orders.specs.StateMap.{state_of};

    // The number of the event at a type and a state key.
    fn number_at(&self, kind: &str, key: &str) -> Option<EventNo>
        ensures number { result ≡ entry_at (state_of self.now.0 self.now.1) (kind.now, key.now) }
        ensures known { IfSome result (λ n. n < length self.now.0) }
    {
        first_at(self.graph, self.events, kind, key)
    }
}

impl<'a> RoomState for StateOfEvents<'a> {
    ghost use Rattle.mx_orders.specs.StateMap.{state_of, view};

    ghost state = { λ s. view s.0 (state_of s.0 s.1) };

    fn create_id(&self) -> Option<&EventId> {
        match self.number_at("m.room.create", "") {
            Some(number) => Some(&self.graph.row(number).id),
            None => None,
        }
    }

    fn entry(&self, kind: &str, key: &str) -> Option<&Pdu> {
        match self.number_at(kind, key) {
            Some(number) => Some(&self.graph.row(number).event),
            None => None,
        }
    }
}

// The first of some events that has this type and this state key.
fn first_at(graph: &Graph, events: &[EventNo], kind: &str, state_key: &str) -> Option<EventNo>
    requires { All (λ event. event < length graph.now) events.now }
    ensures first { result ≡ find (λ p. is_some_and (same_key (kind.now, state_key.now)) (key_of (record_of.event graph.now p))) events.now }
    ensures known { IfSome result (λ event. event < length graph.now) }
{
    for event in events {
        if is_at(&graph.row(*event).event, kind, state_key) {
            return Some(*event);
        }
    }
    None
}

/// The version of the room that a create event makes: the one that it names, and 6 where it names none that is known
/// here, which no event does that the rules allow. It takes no memory.
///
/// Source: the Matrix specification, `m.room.create`.
pub fn created_version(create: &Pdu) -> RoomVersion
    ensures { result ≡ created_version_of create.now }
{
    RoomVersion::of(create).unwrap_or(RoomVersion::V6)
}

/// The version of a graph's room: that of its first event, which is its create event. It takes no memory.
///
/// Source: the Matrix specification, `m.room.create`.
pub(crate) fn version_in(graph: &Graph) -> RoomVersion
    ensures { result ≡ version_in_rows graph.now }
{
    if graph.len() == 0 {
        return RoomVersion::V6;
    }
    created_version(&graph.row(EventNo::at(0)).event)
}

/// The line of the authorization rules that does not allow an event in a state, where there is one. It takes no memory.
pub(crate) fn failure_in(
    graph: &Graph,
    states: &States,
    number: StateNo,
    event: &Pdu,
) -> Option<Rule>
    requires states { AreKnown graph.now states.now }
    requires number { number < length states.now }
    ensures { result ≡ rules (version_in_rows graph.now) event.now (state_of_events.view graph.now (state_at states.now number)) }
{
    let state = StateInGraph {
        graph,
        state: states.state(number),
    };
    judge(version_in(graph), event, &state).err()
}

/// The line of the authorization rules that does not allow an event in the state that some events make, where there is
/// one. It takes no memory.
pub(crate) fn failure_by(graph: &Graph, events: &[EventNo], event: &Pdu) -> Option<Rule>
    requires { All (λ number. number < length graph.now) events.now }
    ensures { result ≡ rules (version_in_rows graph.now) event.now (state_of_events.view graph.now (state_of_events.state_of graph.now events.now)) }
{
    let state = StateOfEvents { graph, events };
    judge(version_in(graph), event, &state).err()
}
