// One of a room's states.
ghost use Rattle.std.specs.Prelude.{◌≡◌, ◌<◌, ◌&&◌, ℕ, All, IfOk, length};
ghost use Rattle.std.specs.List.{list_any};
ghost use Rattle.mx_graph.specs.StateMap.{entry, events_of as events_in};
ghost use Rattle.mx_states.specs.MemberKeys.{is_member_key};
ghost use Rattle.mx_states.specs.Numbered.{state_at};

use crate::state_maps::StateMap;
use crate::states::States;
use crate::states::event_tests::EventTest;
use crate::states::state_numbers::StateNo;
use mx_graph::EventNo;
use std::alloc::{AllocError, Global};
use std::marker::Model;

/// One of a room's states: at a type and a state key at most one event.
///
/// Source: the Matrix specification, Server-Server API, "PDUs".
#[derive(Debug, Drop)]
pub struct StateRef<'s> {
    states: &'s States,
    number: StateNo,
}

impl<'s> Model for StateRef<'s> {
    ghost use Rattle.std.specs.Prelude.{◌<◌, length};
    ghost use Rattle.mx_graph.specs.StateMap.{State};
    ghost use Rattle.mx_states.specs.Numbered.{state_at};
    ghost use Rattle.mx_states.specs.StateCode.{state_code};

    ghost Value = { State };

    ghost coded = { state_code };

    ghost view = { λ state. state_at state.states.now state.number };

    ghost invariant = { λ state. state.number < length state.states.now };
}

impl<'s> StateRef<'s> {
    // The state with this number.
    pub(crate) fn of(states: &'s States, number: StateNo) -> StateRef<'s>
        requires { number < length states.now }
        ensures { result ≡ state_at states.now number }
    {
        StateRef { states, number }
    }

    /// The event at a type and a state key. It takes no memory.
    pub fn get(&self, kind: &str, state_key: &str) -> Option<EventNo>
        ensures { result ≡ entry self.now (kind.now, state_key.now) }
    {
        self.states.get(self.number, kind, state_key)
    }

    /// Whether the membership of a user of a server passes a test. It takes no memory.
    ///
    /// The time is that of one look-up of the server, which is logarithmic in the servers of the room's members, and of
    /// one in the state for each user of that server who has a membership in any of the room's states.
    pub fn has_member_where<T: EventTest>(&self, server: &str, test: &T) -> bool
        requires { All (λ e. e.1 < T.event_count test.now) self.now }
        ensures { result ≡ list_any (λ e. is_member_key server.now e.0 && T.event_test test.now e.1) self.now }
    {
        self.states.has_member_where(self.number, server, test)
    }

    /// The state as a map of its own, whose entries are in the order of their keys.
    pub fn map(&self, alloc: Global) -> Result<StateMap, AllocError>
        ensures { IfOk result (λ map. map ≡ self.now) }
    {
        self.states.map(alloc, self.number)
    }

    /// The events of the state, in the order of their keys. `AllocError` where no memory is left.
    pub fn events(&self, alloc: Global) -> Result<Vec<EventNo>, AllocError>
        ensures events { IfOk result (λ found. found.items ≡ events_in self.now) }
        // They are below each number that those of the state are below.
        ensures known { (bound : ℕ) → All (λ e. e.1 < bound) self.now
            → IfOk result (λ found. All (λ event. event < bound) found.items) }
    {
        let events = self.states.events(alloc, self.number)?;
        Ok(events)
    }
}
