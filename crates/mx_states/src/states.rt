// A room's states by number.
ghost use Rattle.std.specs.Prelude.{◌≡◌, ◌<◌, ◌++◌, ◌∷◌, ◌↔◌, ◌&&◌, [], All, IfOk, None, OnErr, OnOk, T, ◌||◌, ℕ, is_some, length, map, take};
ghost use Rattle.std.specs.List.{list_any};
ghost use Rattle.std.specs.FinMap.Entries.{is_sorted, put};
ghost use Rattle.mx_pdu.specs.StateKeys.{Key};
ghost use Rattle.mx_graph.specs.Record.{is_in};
ghost use Rattle.mx_graph.specs.StateMap.{entry, events_of, key_cmp};
ghost use Rattle.mx_states.specs.Entries.{has_missed, overwritten};
ghost use Rattle.mx_states.specs.MemberKeys.{is_member_key};
ghost use Rattle.mx_states.specs.Numbered.{AllAlike, events_at, state_at, without};

mod change_sizes;
pub(crate) mod event_tests;
mod key_events;
pub(crate) mod key_numbers;
pub(crate) mod member_lists;
mod member_search;
pub(crate) mod number_sets;
mod numbered_entries;
mod shared_events;
pub(crate) mod state_changes;
mod state_keys;
pub(crate) mod state_numbers;
pub(crate) mod state_refs;

use crate::state_maps::StateMap;
use crate::states::event_tests::EventTest;
use crate::states::key_events::events_at_keys;
use crate::states::member_search::has_passing_member;
use crate::states::numbered_entries::{
    changes_of, entries_of, events_in_order, map_of, put_differing,
};
use crate::states::shared_events::events_at_other_keys;
use crate::states::state_keys::Keys;
use crate::states::state_numbers::StateNo;
use crate::states::state_refs::StateRef;
use crate::trees::Snapshots;
use mx_graph::EventNo;
use std::alloc::{AllocError, Global};
use std::marker::Model;

/// A room's states by number. A state stays as it was added.
///
/// The texts of a key are kept once. A state is kept as a tree of its events by the numbers of their keys, which shares
/// with the tree of an earlier state what both have, and as what it changes of that one.
///
/// Source: the Matrix specification, Server-Server API, "PDUs".
#[derive(Debug, Drop)]
pub struct States {
    alloc: Global,
    keys: Keys,
    // Entries by the numbers of their keys.
    snapshots: Snapshots,
}

impl Model for States {
    ghost use Rattle.std.specs.Prelude.{List, map};
    ghost use Rattle.mx_graph.specs.StateMap.{State};
    ghost use Rattle.mx_states.specs.KeyNumbers.{AreShown, shown};
    ghost use Rattle.mx_states.specs.StateCode.{states_code};

    ghost Value = { List State };

    ghost coded = { states_code };

    ghost view = { λ states. map (shown states.keys) states.snapshots };

    ghost invariant = { λ states. AreShown states.keys states.snapshots };
}

impl States {
    /// No states.
    pub fn new(alloc: Global) -> States
        ensures { result ≡ [] }
    {
        States {
            alloc,
            keys: Keys::new(alloc),
            snapshots: Snapshots::new(alloc),
        }
    }

    /// Adds the state with no events. At an error the states stay.
    pub fn add_empty(&mut self) -> Result<StateNo, AllocError>
        ensures number { IfOk result (λ number. number ≡ length self.old) }
        ensures added { OnOk result (self.new ≡ self.old ++ [] ∷ []) }
        ensures err { OnErr result (self.new ≡ self.old) }
    {
        self.snapshots.add_whole(Vec::new(self.alloc))
    }

    /// Adds a state with these entries. At an error the states stay.
    pub fn add(&mut self, map: &StateMap) -> Result<StateNo, AllocError>
        ensures number { IfOk result (λ number. number ≡ length self.old) }
        ensures added { OnOk result (self.new ≡ self.old ++ map.now ∷ []) }
        ensures err { OnErr result (self.new ≡ self.old) }
    {
        let entries = entries_of(self.alloc, &mut self.keys, map)?;
        self.snapshots.add_whole(entries)
    }

    /// Adds the state that is another one with an event put at a type and a state key, in place of one that is there. At
    /// an error the states stay.
    pub fn with(
        &mut self,
        parent: StateNo,
        kind: &str,
        state_key: &str,
        event: EventNo,
    ) -> Result<StateNo, AllocError>
        requires { parent < length self.old }
        ensures number { IfOk result (λ number. number ≡ length self.old) }
        ensures added { OnOk result (self.new
            ≡ self.old ++ put key_cmp (kind.now, state_key.now) event (state_at self.old parent) ∷ []) }
        ensures err { OnErr result (self.new ≡ self.old) }
    {
        let key = self.keys.number_for(kind, state_key)?;
        self.snapshots.with(parent, key, event)
    }

    /// How many states there are.
    pub fn len(&self) -> usize
        ensures { result ≡ length self.now }
    {
        self.snapshots.len()
    }

    /// Gives up all states but the first of them, so many. It takes no memory.
    pub fn truncate(&mut self, count: usize)
        ensures { self.new ≡ take count self.old }
    {
        self.snapshots.truncate(count);
    }

    /// The state with this number.
    pub fn state(&self, number: StateNo) -> StateRef<'_>
        requires { number < length self.now }
        ensures { result ≡ state_at self.now number }
    {
        StateRef::of(self, number)
    }

    /// The event at a type and a state key of a state. It takes no memory.
    pub fn get(&self, number: StateNo, kind: &str, state_key: &str) -> Option<EventNo>
        requires { number < length self.now }
        ensures { result ≡ entry (state_at self.now number) (kind.now, state_key.now) }
    {
        match self.keys.number_of(kind, state_key) {
            Some(key) => self.snapshots.get(number, key),
            None => None,
        }
    }

    // Whether in a state the membership of a user of a server passes a test. It takes no memory.
    pub(crate) fn has_member_where<T: EventTest>(
        &self,
        number: StateNo,
        server: &str,
        test: &T,
    ) -> bool
        requires number { number < length self.now }
        requires known { All (λ e. e.1 < T.event_count test.now) (state_at self.now number) }
        ensures { result
            ≡ list_any (λ e. is_member_key server.now e.0 && T.event_test test.now e.1) (state_at self.now number) }
    {
        has_passing_member(&self.keys, &self.snapshots, number, server, test)
    }

    // A state as a map of its own.
    pub(crate) fn map(&self, alloc: Global, number: StateNo) -> Result<StateMap, AllocError>
        requires { number < length self.now }
        ensures { IfOk result (λ map. map ≡ state_at self.now number) }
    {
        let entries = self.snapshots.entries(alloc, number)?;
        map_of(alloc, &self.keys, &entries)
    }

    // The events of a state, in the order of their keys.
    pub(crate) fn events(&self, alloc: Global, number: StateNo) -> Result<Vec<EventNo>, AllocError>
        requires { number < length self.now }
        ensures { IfOk result (λ events. events.items ≡ events_of (state_at self.now number)) }
    {
        let entries = self.snapshots.entries(alloc, number)?;
        events_in_order(alloc, &self.keys, &entries)
    }

    /// For each of some states, its events at the keys of a map, in their order. `AllocError` where no memory is left.
    pub fn events_at_keys(
        &self,
        alloc: Global,
        numbers: &[StateNo],
        wanted: &StateMap,
    ) -> Result<Vec<Vec<EventNo>>, AllocError>
        requires { All (λ number. number < length self.now) numbers.now }
        ensures { IfOk result (λ found. map (λ events. events.items) found.items
            ≡ map (λ number. events_at wanted.now (state_at self.now number)) numbers.now) }
    {
        let found = events_at_keys(alloc, &self.keys, &self.snapshots, numbers, wanted)?;
        Ok(found)
    }

    /// The events of a state at the keys that a map lacks, in no order that is told. `AllocError` where no memory is left.
    pub fn events_at_other_keys(
        &self,
        alloc: Global,
        number: StateNo,
        taken: &StateMap,
    ) -> Result<Vec<EventNo>, AllocError>
        requires { number < length self.now }
        ensures { IfOk result (λ events. (p : ℕ) → is_in events.items p
            ≡ is_in (events_of (without taken.now (state_at self.now number))) p) }
    {
        let entries = self.snapshots.entries(alloc, number)?;
        let events = events_at_other_keys(alloc, &self.keys, &entries, taken)?;
        Ok(events)
    }

    /// The keys at which states are not all alike: it has an event at each of them, and none elsewhere. `AllocError` where
    /// no memory is left.
    pub fn differing(&self, alloc: Global, numbers: &[StateNo]) -> Result<StateMap, AllocError>
        requires { All (λ number. number < length self.now) numbers.now }
        ensures { IfOk result (λ found. (key : Key)
            → (entry found key ≡ None) ↔ AllAlike key (map (state_at self.now) numbers.now)) }
    {
        let mut found = StateMap::new(alloc);
        if let Some((first, others)) = numbers.split_first() {
            for other in others {
                self.put_differing(&mut found, *first, *other)?;
            }
        }
        Ok(found)
    }

    // Puts an event at each key at which two states differ. At an error some of them were put.
    fn put_differing(
        &self,
        found: &mut StateMap,
        first: StateNo,
        other: StateNo,
    ) -> Result<(), AllocError>
        requires first { first < length self.now }
        requires other { other < length self.now }
        ensures sorted { OnOk result (T (is_sorted key_cmp (state_at self.now first))
            × T (is_sorted key_cmp (state_at self.now other))) }
        ensures found { OnOk result ((key : Key) → is_some (entry found.new key)
            ≡ ((is_some (entry found.old key) || has_missed (state_at self.now other) (state_at self.now first) key)
            || has_missed (state_at self.now first) (state_at self.now other) key)) }
    {
        // Past as many changes as there are keys, whole maps are less to read.
        let most = self.keys.len();
        let differing = self.snapshots.differences(self.alloc, first, other, most)?;
        put_differing(found, &self.keys, &self.snapshots, first, other, &differing)
    }

    /// Adds the state that is another one without the keys of `taken`, with the entries of `puts` put over it. At an
    /// error the states stay.
    pub fn apply(
        &mut self,
        parent: StateNo,
        taken: &StateMap,
        puts: &StateMap,
    ) -> Result<StateNo, AllocError>
        requires { parent < length self.old }
        ensures number { IfOk result (λ number. number ≡ length self.old) }
        ensures added { OnOk result (self.new
            ≡ self.old ++ overwritten (without taken.now (state_at self.old parent)) puts.now ∷ []) }
        ensures err { OnErr result (self.new ≡ self.old) }
    {
        let changes = changes_of(self.alloc, &mut self.keys, taken, puts)?;
        self.snapshots.apply(parent, changes)
    }

    /// A law: the entries of a state are in the order of their keys, each key once. It changes nothing: this is what it
    /// ensures.
    pub fn state_is_sorted(&self, number: StateNo)
        requires { number < length self.now }
        ensures { T (is_sorted key_cmp (state_at self.now number)) }
    {
        let _ = &self.snapshots;
    }
}
