// Entries of a room's state.
ghost use Rattle.std.specs.Prelude.{◌≡◌, IfOk};
ghost use Rattle.mx_graph.specs.StateMap.{key_cmp};

use mx_graph::EventNo;
use std::alloc::{AllocError, Global};
use std::cmp::Ordering;
use std::marker::Model;

/// An entry of a room's state: the event at a type and a state key.
///
/// Source: the Matrix specification, Server-Server API, "PDUs".
#[derive(Debug, Drop)]
pub struct StateEntry {
    kind: String,
    state_key: String,
    event: EventNo,
}

impl Model for StateEntry {
    ghost use Rattle.std.specs.Prelude.{List, ℕ, string_bytes};

    ghost Value = { (List ℕ × List ℕ) × ℕ };

    ghost view = { λ e. ((string_bytes e.kind, string_bytes e.state_key), e.event) };
}

impl StateEntry {
    // The entry of an event at a type and a state key.
    pub(crate) fn new(
        alloc: Global,
        kind: &str,
        state_key: &str,
        event: EventNo,
    ) -> Result<StateEntry, AllocError>
        ensures { IfOk result (λ entry. entry ≡ ((kind.now, state_key.now), event)) }
    {
        let kind = String::from_str(alloc, kind)?;
        let state_key = String::from_str(alloc, state_key)?;
        Ok(StateEntry {
            kind,
            state_key,
            event,
        })
    }

    /// The type.
    pub fn kind(&self) -> &str
        ensures { result.now ≡ self.now.0.0 }
    {
        &self.kind
    }

    /// The state key.
    pub fn state_key(&self) -> &str
        ensures { result.now ≡ self.now.0.1 }
    {
        &self.state_key
    }

    /// The event.
    pub fn event(&self) -> EventNo
        ensures { result ≡ self.now.1 }
    {
        self.event
    }

    // Puts another event at its key.
    pub(crate) fn set_event(&mut self, event: EventNo)
        ensures { self.new ≡ (self.old.0, event) }
    {
        self.event = event;
    }

    // Its key beside another: types first, and then state keys, by bytes.
    pub(crate) fn compare(&self, kind: &str, state_key: &str) -> Ordering
        ensures { result ≡ key_cmp self.now.0 (kind.now, state_key.now) }
    {
        match self.kind.as_str().cmp(kind) {
            Ordering::Equal => self.state_key.as_str().cmp(state_key),
            unequal => unequal,
        }
    }
}

impl Clone for StateEntry {
    ghost is_clone = { λ entry copy. copy ≡ entry };

    fn clone(&self) -> Result<StateEntry, AllocError> {
        let kind = self.kind.clone()?;
        let state_key = self.state_key.clone()?;
        let event = self.event;
        Ok(StateEntry {
            kind,
            state_key,
            event,
        })
    }
}
