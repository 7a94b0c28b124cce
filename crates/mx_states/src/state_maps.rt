// A room's state.
ghost use Rattle.std.specs.Prelude.{◌≡◌, [], IfErr, IfOk, OnErr, OnOk, T};
ghost use Rattle.std.specs.FinMap.Entries.{is_sorted, put};
ghost use Rattle.mx_graph.specs.StateMap.{entry, key_cmp};
ghost use Rattle.mx_states.specs.Places.{IsAt, IsGapFor};

use crate::entries::StateEntry;
use mx_graph::EventNo;
use std::alloc::{AllocError, Global};
use std::marker::Model;

/// A room's state: at a type and a state key at most one event.
///
/// Source: the Matrix specification, Server-Server API, "PDUs".
#[derive(Debug, Drop)]
pub struct StateMap {
    alloc: Global,
    // In the order of their keys.
    entries: Vec<StateEntry>,
}

impl Model for StateMap {
    ghost use Rattle.std.specs.Prelude.{List, T, ℕ};
    ghost use Rattle.std.specs.FinMap.Entries.{is_sorted};
    ghost use Rattle.mx_graph.specs.StateMap.{key_cmp};

    ghost Value = { List ((List ℕ × List ℕ) × ℕ) };

    ghost view = { λ state. state.entries.items };

    ghost invariant = { λ state. T (is_sorted key_cmp state.entries.items) };
}

impl StateMap {
    /// A state with no events.
    pub fn new(alloc: Global) -> StateMap
        ensures { result ≡ [] }
    {
        StateMap {
            alloc,
            entries: Vec::new(alloc),
        }
    }

    /// The event at a type and a state key. It takes no memory, and the time is logarithmic in the entries.
    pub fn get(&self, kind: &str, state_key: &str) -> Option<EventNo>
        ensures { result ≡ entry self.now (kind.now, state_key.now) }
    {
        match entry_place(&self.entries, kind, state_key) {
            Ok(place) => Some(self.entries[place].event()),
            Err(_) => None,
        }
    }

    /// Puts an event at a type and a state key, in place of one that is there. At an error the entries stay.
    ///
    /// The time is logarithmic in the entries, and for a new key also linear in those behind it.
    pub fn insert(&mut self, kind: &str, state_key: &str, event: EventNo) -> Result<(), AllocError>
        ensures ok { OnOk result (self.new ≡ put key_cmp (kind.now, state_key.now) event self.old) }
        ensures err { OnErr result (self.new ≡ self.old) }
    {
        match entry_place(&self.entries, kind, state_key) {
            Ok(place) => self.entries[place].set_event(event),
            Err(place) => {
                let entry = StateEntry::new(self.alloc, kind, state_key, event)?;
                self.entries.insert(place, entry)?;
            }
        }
        Ok(())
    }

    /// Its entries in the order of their keys: types first, and then state keys, by bytes.
    pub fn entries(&self) -> &[StateEntry]
        ensures entries { result.now ≡ self.now }
        // Each key is there once.
        ensures sorted { T (is_sorted key_cmp self.now) }
    {
        &self.entries
    }
}

// The place of the entry at a key, or the one where it would stand.
fn entry_place(entries: &[StateEntry], kind: &str, state_key: &str) -> Result<usize, usize>
    requires { T (is_sorted key_cmp entries.now) }
    ensures found { IfOk result (IsAt (kind.now, state_key.now) entries.now) }
    ensures absent { IfErr result (IsGapFor (kind.now, state_key.now) entries.now) }
{
    entries.binary_search_by(|entry| entry.compare(kind, state_key))
}

impl Clone for StateMap {
    ghost is_clone = { λ state copy. copy ≡ state };

    fn clone(&self) -> Result<StateMap, AllocError> {
        let entries = self.entries.clone()?;
        Ok(StateMap {
            alloc: self.alloc,
            entries,
        })
    }
}
