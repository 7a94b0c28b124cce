// What stands in a state at the keys that the rules ask for.
ghost use Rattle.std.specs.Prelude.{◌≡◌, IfOk, map};
ghost use Rattle.mx_auth.specs.Keys.{key_shown};
ghost use Rattle.mx_audit.specs.Explaining.{entries_at};

use mx_auth::{NeededKeys, StateKey};
use mx_graph::EventNo;
use mx_states::StateRef;
use std::alloc::{AllocError, Global};
use std::marker::Model;

/// A type and a state key that the rules ask a state for, with the event that stands there, if any.
///
/// Source: the Matrix specification, Server-Server API, "Auth events selection".
#[derive(Debug, Drop)]
pub struct AskedEntry {
    kind: String,
    state_key: String,
    event: Option<EventNo>,
}

impl Model for AskedEntry {
    ghost use Rattle.std.specs.Prelude.{List, ℕ, Option, string_bytes};

    ghost Value = { (List ℕ × List ℕ) × Option ℕ };

    ghost view = { λ e. ((string_bytes e.kind, string_bytes e.state_key), e.event) };
}

impl AskedEntry {
    fn new(
        alloc: Global,
        key: &StateKey<'_>,
        event: Option<EventNo>,
    ) -> Result<AskedEntry, AllocError>
        ensures { IfOk result (λ entry. entry ≡ (key_shown key.now, event)) }
    {
        let kind = String::from_str(alloc, key.kind)?;
        let state_key = String::from_str(alloc, key.state_key)?;
        Ok(AskedEntry {
            kind,
            state_key,
            event,
        })
    }

    /// The type.
    pub fn kind(&self) -> &str
        ensures { result.now ≡ self.now.0.0 }
    {
        &self.kind
    }

    /// The state key.
    pub fn state_key(&self) -> &str
        ensures { result.now ≡ self.now.0.1 }
    {
        &self.state_key
    }

    /// The event that stands there.
    pub fn event(&self) -> Option<EventNo>
        ensures { result ≡ self.now.1 }
    {
        self.event
    }
}

/// A state, as it is asked for the event at a key.
pub(crate) trait StateLookup {
    ghost use Rattle.mx_graph.specs.StateMap.{State, entry};

    ghost state: { Self → State };

    /// The number of the event at a type and a state key.
    fn number_at(&self, kind: &str, state_key: &str) -> Option<EventNo>
        ensures { result ≡ entry (state self.now) (kind.now, state_key.now) };
}

impl<'s> StateLookup for StateRef<'s> {
    ghost state = { λ s. s };

    fn number_at(&self, kind: &str, state_key: &str) -> Option<EventNo> {
        self.get(kind, state_key)
    }
}

/// What stands in a state at these keys. `AllocError` where no memory is left.
pub(crate) fn entries_of<S: StateLookup>(
    alloc: Global,
    keys: &NeededKeys<'_>,
    state: &S,
) -> Result<Vec<AskedEntry>, AllocError>
    ensures { IfOk result (λ asked. asked.items ≡ entries_at (S.state state.now) keys.now) }
{
    asked_in(alloc, keys.as_slice(), state)
}

fn asked_in<S: StateLookup>(
    alloc: Global,
    keys: &[StateKey<'_>],
    state: &S,
) -> Result<Vec<AskedEntry>, AllocError>
    ensures { IfOk result (λ asked. asked.items ≡ entries_at (S.state state.now) (map key_shown keys.now)) }
{
    let mut asked = Vec::with_capacity(alloc, keys.len())?;
    for key in keys {
        let event = state.number_at(key.kind, key.state_key);
        asked.push(AskedEntry::new(alloc, key, event)?)?;
    }
    Ok(asked)
}
