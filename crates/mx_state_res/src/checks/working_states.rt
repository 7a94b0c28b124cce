// States that are worked on while states are resolved.
ghost use Rattle.std.specs.Prelude.{◌≡◌, [], OnErr, OnOk, T, unwrap_or};
ghost use Rattle.std.specs.FinMap.Entries.{is_sorted, put};
ghost use Rattle.mx_graph.specs.StateMap.{entry, key_cmp};
ghost use Rattle.mx_state_res.specs.Numbered.{shown_by};

use mx_graph::EventNo;
use mx_states::{StateMap, StateRef};
use std::alloc::{AllocError, Global};
use std::marker::Model;

// A state that is another one without some of its keys, with entries put over it. Where there is no other one, it is of
// these entries alone.
#[derive(Debug, Drop)]
pub(crate) struct WorkingState<'s> {
    base: Option<StateRef<'s>>,
    taken: &'s StateMap,
    puts: StateMap,
}

impl<'s> Model for WorkingState<'s> {
    ghost use Rattle.std.specs.Prelude.{[], T, unwrap_or};
    ghost use Rattle.std.specs.FinMap.Entries.{is_sorted};
    ghost use Rattle.mx_graph.specs.StateMap.{State, key_cmp};
    ghost use Rattle.mx_state_res.specs.StateCode.{edit_code};

    ghost Value = { State × (State × State) };

    ghost coded = { edit_code };

    ghost view = { λ w. (unwrap_or w.base [], (w.taken.now, w.puts)) };

    ghost invariant = { λ w. T (is_sorted key_cmp (unwrap_or w.base [])) × T (is_sorted key_cmp w.puts) };
}

impl<'s> WorkingState<'s> {
    // The state of these entries alone.
    pub(crate) fn of(nothing: &'s StateMap, entries: StateMap) -> WorkingState<'s>
        ensures result { result ≡ ([], (nothing.now, entries)) }
        ensures shown { shown_by result ≡ entries }
    {
        let _ = entries.entries();
        WorkingState {
            base: None,
            taken: nothing,
            puts: entries,
        }
    }

    // A state without the keys of another.
    pub(crate) fn without(
        alloc: Global,
        base: StateRef<'s>,
        taken: &'s StateMap,
    ) -> WorkingState<'s>
        requires { T (is_sorted key_cmp base) }
        ensures { result ≡ (base.entry, (taken.now, [])) }
    {
        WorkingState {
            base: Some(base),
            taken,
            puts: StateMap::new(alloc),
        }
    }

    // What was put.
    pub(crate) fn into_puts(self) -> StateMap
        ensures puts { result ≡ self.entry.1.1 }
        ensures base { T (is_sorted key_cmp self.entry.0) }
        ensures sorted { T (is_sorted key_cmp self.entry.1.1) }
    {
        self.puts
    }

    // The event at a type and a state key. It takes no memory.
    pub(crate) fn get(&self, kind: &str, state_key: &str) -> Option<EventNo>
        ensures { result ≡ entry (shown_by self.now) (kind.now, state_key.now) }
    {
        if let Some(event) = self.puts.get(kind, state_key) {
            return Some(event);
        }
        if self.taken.get(kind, state_key).is_some() {
            return None;
        }
        get_in(&self.base, kind, state_key)
    }

    // Puts an event at a type and a state key, in place of one that is there. At an error the entries stay.
    pub(crate) fn insert(
        &mut self,
        kind: &str,
        state_key: &str,
        event: EventNo,
    ) -> Result<(), AllocError>
        ensures ok { OnOk result (shown_by self.new ≡ put key_cmp (kind.now, state_key.now) event (shown_by self.old)) }
        ensures base { self.new.0 ≡ self.old.0 }
        ensures taken { self.new.1.0 ≡ self.old.1.0 }
        ensures err { OnErr result (self.new ≡ self.old) }
    {
        self.puts.insert(kind, state_key, event)?;
        Ok(())
    }
}

fn get_in(state: &Option<StateRef<'_>>, kind: &str, state_key: &str) -> Option<EventNo>
    ensures { result ≡ entry (unwrap_or state.now []) (kind.now, state_key.now) }
{
    match state {
        Some(state) => state.get(kind, state_key),
        None => None,
    }
}
