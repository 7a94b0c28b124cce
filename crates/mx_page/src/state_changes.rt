// What differs between two states.
ghost use Rattle.std.specs.Prelude.{◌≡◌, ◌++◌, ◌∷◌, [], IfOk, OnOk, flat_map, if◌then◌else◌};
ghost use Rattle.mx_graph.specs.StateMap.{entry as entry_at};
ghost use Rattle.mx_page.specs.Changes as definition;

use mx_graph::EventNo;
use mx_states::{StateEntry, StateMap};
use std::alloc::{AllocError, Global};
use std::marker::Model;

/// A type and a state key at which two states differ, with the event that stands there in the later one, if any.
///
/// Source: the Matrix specification, Server-Server API, "PDUs".
#[derive(Debug, Drop)]
pub struct StateChange {
    kind: String,
    state_key: String,
    event: Option<EventNo>,
}

impl Model for StateChange {
    ghost use Rattle.std.specs.Prelude.{List, ℕ, Option, string_bytes};

    ghost Value = { (List ℕ × List ℕ) × Option ℕ };

    ghost view = { λ c. ((string_bytes c.kind, string_bytes c.state_key), c.event) };
}

impl StateChange {
    fn new(
        alloc: Global,
        kind: &str,
        state_key: &str,
        event: Option<EventNo>,
    ) -> Result<StateChange, AllocError>
        ensures { IfOk result (λ change. change ≡ ((kind.now, state_key.now), event)) }
    {
        let kind = String::from_str(alloc, kind)?;
        let state_key = String::from_str(alloc, state_key)?;
        Ok(StateChange {
            kind,
            state_key,
            event,
        })
    }

    /// The type.
    pub fn kind(&self) -> &str
        ensures { result.now ≡ self.now.0.0 }
    {
        &self.kind
    }

    /// The state key.
    pub fn state_key(&self) -> &str
        ensures { result.now ≡ self.now.0.1 }
    {
        &self.state_key
    }

    /// The event that stands there.
    pub fn event(&self) -> Option<EventNo>
        ensures { result ≡ self.now.1 }
    {
        self.event
    }
}

/// What differs between two states: first the keys of `old` that `new` lacks, then those of `new` that are new or have
/// another event, each in the order of the keys. `AllocError` where no memory is left.
///
/// The time is that of a look-up in each state for each entry of both.
pub fn changes(
    alloc: Global,
    old: &StateMap,
    new: &StateMap,
) -> Result<Vec<StateChange>, AllocError>
    ensures { IfOk result (λ found. found.items ≡ definition.changes old.now new.now) }
{
    let mut found = Vec::new(alloc);
    add_gone(alloc, &mut found, old, new)?;
    add_standing(alloc, &mut found, old, new)?;
    Ok(found)
}

// Adds the keys of the old state that the new one lacks.
fn add_gone(
    alloc: Global,
    found: &mut Vec<StateChange>,
    old: &StateMap,
    new: &StateMap,
) -> Result<(), AllocError>
    ensures { OnOk result (found.new.items ≡ found.old.items ++ flat_map (λ e. definition.gone_at old.now new.now e.0) old.now) }
{
    for entry in old.entries() {
        add_if_gone(alloc, found, old, new, entry)?;
    }
    Ok(())
}

// Adds those of the new state that are new or have another event.
fn add_standing(
    alloc: Global,
    found: &mut Vec<StateChange>,
    old: &StateMap,
    new: &StateMap,
) -> Result<(), AllocError>
    ensures { OnOk result (found.new.items ≡ found.old.items ++ flat_map (λ e. definition.change_at old.now new.now e.0) new.now) }
{
    for entry in new.entries() {
        add_change(alloc, found, old, new, entry)?;
    }
    Ok(())
}

fn add_if_gone(
    alloc: Global,
    found: &mut Vec<StateChange>,
    old: &StateMap,
    new: &StateMap,
    entry: &StateEntry,
) -> Result<(), AllocError>
    ensures { OnOk result (found.new.items ≡ found.old.items ++ definition.gone_at old.now new.now entry.now.0) }
{
    if new.get(entry.kind(), entry.state_key()).is_none() {
        add_change(alloc, found, old, new, entry)?;
    }
    Ok(())
}

// Adds the key of an entry, where the states differ there.
fn add_change(
    alloc: Global,
    found: &mut Vec<StateChange>,
    old: &StateMap,
    new: &StateMap,
    entry: &StateEntry,
) -> Result<(), AllocError>
    ensures { OnOk result (found.new.items ≡ found.old.items ++ definition.change_at old.now new.now entry.now.0) }
{
    if !is_alike(old, new, entry) {
        let event = new.get(entry.kind(), entry.state_key());
        let change = StateChange::new(alloc, entry.kind(), entry.state_key(), event)?;
        found.push(change)?;
    }
    Ok(())
}

// Whether both states have the same event at the key of an entry, or none.
fn is_alike(old: &StateMap, new: &StateMap, entry: &StateEntry) -> bool
    ensures { result ≡ definition.same_event (entry_at old.now entry.now.0) (entry_at new.now entry.now.0) }
{
    let one = old.get(entry.kind(), entry.state_key());
    let other = new.get(entry.kind(), entry.state_key());
    is_same(one, other)
}

fn is_same(one: Option<EventNo>, other: Option<EventNo>) -> bool
    ensures { result ≡ definition.same_event one other }
{
    match one {
        Some(one) => other == Some(one),
        None => other.is_none(),
    }
}

/// What differs once an event is put at a key where `old` stood: the key, unless it is the same event. `AllocError` where
/// no memory is left.
pub(crate) fn changes_by_put(
    alloc: Global,
    old: Option<EventNo>,
    kind: &str,
    state_key: &str,
    event: EventNo,
) -> Result<Vec<StateChange>, AllocError>
    ensures { IfOk result (λ found. found.items
        ≡ (if definition.same_event old (Some event) then [] else ((kind.now, state_key.now), Some event) ∷ [])) }
{
    let mut found = Vec::new(alloc);
    if !is_same(old, Some(event)) {
        let change = StateChange::new(alloc, kind, state_key, Some(event))?;
        found.push(change)?;
    }
    Ok(found)
}
