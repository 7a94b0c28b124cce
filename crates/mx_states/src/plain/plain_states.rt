// A room's states by number, each a map of its own. They are what the numbered states are tested beside.
ghost use Rattle.std.specs.Prelude.{◌≡◌, ◌<◌, ◌++◌, ◌∷◌, ◌↔◌, [], All, IfOk, None, OnErr, OnOk, T, ◌||◌, is_some, length, map, take};
ghost use Rattle.std.specs.FinMap.Entries.{is_sorted, put};
ghost use Rattle.mx_pdu.specs.StateKeys.{Key};
ghost use Rattle.mx_graph.specs.StateMap.{entry, key_cmp};
ghost use Rattle.mx_states.specs.Entries.{has_missed, overwritten};
ghost use Rattle.mx_states.specs.Numbered.{AllAlike, state_at, without};

use crate::map_entries::overwrite;
use crate::plain::differing_keys::{put_differing, without_keys};
use crate::state_maps::StateMap;
use crate::states::state_numbers::StateNo;
use mx_graph::EventNo;
use std::alloc::{AllocError, Global};
use std::marker::Model;

/// A room's states by number, by plain bodies under the contracts of [`States`](crate::States): each state is a map of its
/// own, and stays as it was added.
#[derive(Debug, Drop)]
pub struct PlainStates {
    alloc: Global,
    maps: Vec<StateMap>,
}

impl Model for PlainStates {
    ghost use Rattle.std.specs.Prelude.{List};
    ghost use Rattle.mx_graph.specs.StateMap.{State};
    ghost use Rattle.mx_states.specs.StateCode.{states_code};

    ghost Value = { List State };

    ghost coded = { states_code };

    ghost view = { λ states. states.maps.items };
}

impl PlainStates {
    /// No states.
    pub fn new(alloc: Global) -> PlainStates
        ensures { result ≡ [] }
    {
        PlainStates {
            alloc,
            maps: Vec::new(alloc),
        }
    }

    /// Adds the state with no events. At an error the states stay.
    pub fn add_empty(&mut self) -> Result<StateNo, AllocError>
        ensures number { IfOk result (λ number. number ≡ length self.old) }
        ensures added { OnOk result (self.new ≡ self.old ++ [] ∷ []) }
        ensures err { OnErr result (self.new ≡ self.old) }
    {
        let number = StateNo::at(self.maps.len());
        self.maps.push(StateMap::new(self.alloc))?;
        Ok(number)
    }

    /// Adds a state with these entries. At an error the states stay.
    pub fn add(&mut self, map: &StateMap) -> Result<StateNo, AllocError>
        ensures number { IfOk result (λ number. number ≡ length self.old) }
        ensures added { OnOk result (self.new ≡ self.old ++ map.now ∷ []) }
        ensures err { OnErr result (self.new ≡ self.old) }
    {
        let map = map.clone()?;
        let number = StateNo::at(self.maps.len());
        self.maps.push(map)?;
        Ok(number)
    }

    /// Adds the state that is another one with an event put at a type and a state key, in place of one that is there. At
    /// an error the states stay.
    pub fn with(
        &mut self,
        parent: StateNo,
        kind: &str,
        state_key: &str,
        event: EventNo,
    ) -> Result<StateNo, AllocError>
        requires { parent < length self.old }
        ensures number { IfOk result (λ number. number ≡ length self.old) }
        ensures added { OnOk result (self.new
            ≡ self.old ++ put key_cmp (kind.now, state_key.now) event (state_at self.old parent) ∷ []) }
        ensures err { OnErr result (self.new ≡ self.old) }
    {
        let mut map = self.maps[parent.index()].clone()?;
        map.insert(kind, state_key, event)?;
        let number = StateNo::at(self.maps.len());
        self.maps.push(map)?;
        Ok(number)
    }

    /// How many states there are.
    pub fn len(&self) -> usize
        ensures { result ≡ length self.now }
    {
        self.maps.len()
    }

    /// Gives up all states but the first of them, so many. It takes no memory.
    pub fn truncate(&mut self, count: usize)
        ensures { self.new ≡ take count self.old }
    {
        self.maps.truncate(count);
    }

    /// The event at a type and a state key of a state. It takes no memory.
    pub fn get(&self, number: StateNo, kind: &str, state_key: &str) -> Option<EventNo>
        requires { number < length self.now }
        ensures { result ≡ entry (state_at self.now number) (kind.now, state_key.now) }
    {
        self.maps[number.index()].get(kind, state_key)
    }

    /// A state as a map of its own.
    pub fn map(&self, alloc: Global, number: StateNo) -> Result<StateMap, AllocError>
        requires { number < length self.now }
        ensures { IfOk result (λ map. map ≡ state_at self.now number) }
    {
        let _ = alloc;
        self.maps[number.index()].clone()
    }

    /// The keys at which states are not all alike: it has an event at each of them, and none elsewhere.
    pub fn differing(&self, alloc: Global, numbers: &[StateNo]) -> Result<StateMap, AllocError>
        requires { All (λ number. number < length self.now) numbers.now }
        ensures { IfOk result (λ found. (key : Key)
            → (entry found key ≡ None) ↔ AllAlike key (map (state_at self.now) numbers.now)) }
    {
        let mut found = StateMap::new(alloc);
        if let Some((first, others)) = numbers.split_first() {
            for other in others {
                self.put_differing(&mut found, *first, *other)?;
            }
        }
        Ok(found)
    }

    // Puts an event at each key at which two states differ. At an error some of them were put.
    fn put_differing(
        &self,
        found: &mut StateMap,
        first: StateNo,
        other: StateNo,
    ) -> Result<(), AllocError>
        requires first { first < length self.now }
        requires other { other < length self.now }
        ensures sorted { OnOk result (T (is_sorted key_cmp (state_at self.now first))
            × T (is_sorted key_cmp (state_at self.now other))) }
        ensures found { OnOk result ((key : Key) → is_some (entry found.new key)
            ≡ ((is_some (entry found.old key) || has_missed (state_at self.now other) (state_at self.now first) key)
            || has_missed (state_at self.now first) (state_at self.now other) key)) }
    {
        let first = &self.maps[first.index()];
        let other = &self.maps[other.index()];
        put_differing(found, first, other)
    }

    /// Adds the state that is another one without the keys of `taken`, with the entries of `puts` put over it. At an
    /// error the states stay.
    pub fn apply(
        &mut self,
        parent: StateNo,
        taken: &StateMap,
        puts: &StateMap,
    ) -> Result<StateNo, AllocError>
        requires { parent < length self.old }
        ensures number { IfOk result (λ number. number ≡ length self.old) }
        ensures added { OnOk result (self.new
            ≡ self.old ++ overwritten (without taken.now (state_at self.old parent)) puts.now ∷ []) }
        ensures err { OnErr result (self.new ≡ self.old) }
    {
        let mut map = without_keys(self.alloc, taken, &self.maps[parent.index()])?;
        overwrite(&mut map, puts)?;
        let number = StateNo::at(self.maps.len());
        self.maps.push(map)?;
        Ok(number)
    }
}
