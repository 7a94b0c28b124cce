// The entries of states by the numbers of their keys.
ghost use Rattle.std.specs.Prelude.{◌≡◌, ◌<◌, ◌||◌, All, IfOk, None, OnOk, Option, Some, T, filter_map, is_some, length, option_map, ℕ};
ghost use Rattle.std.specs.FinMap.Entries.{find, is_sorted};
ghost use Rattle.std.specs.Ordering.{nat_cmp};
ghost use Rattle.std.specs.Option.{option_or};
ghost use Rattle.mx_pdu.specs.StateKeys.{Key};
ghost use Rattle.mx_graph.specs.StateMap.{entry as entry_at, events_of as events_in, key_cmp};
ghost use Rattle.mx_states.specs.KeyNumbers.{AllBelow, AreChanges, AreDistinct, AreGrown, AreShown, changes_at, has_number_in, shown};
ghost use Rattle.mx_states.specs.SnapshotEntries.{DifferAt, snapshot};

use crate::state_maps::StateMap;
use crate::states::key_numbers::KeyNo;
use crate::states::state_keys::Keys;
use crate::states::state_numbers::StateNo;
use crate::trees::Snapshots;
use crate::trees::snapshot_edits::{change_entry, value_in};
use mx_graph::EventNo;
use std::alloc::{AllocError, Global};

// The entries of a state by the numbers of their keys, which rise. Keys that are new are added; at an error some of
// them may have been.
pub(crate) fn entries_of(
    alloc: Global,
    keys: &mut Keys,
    map: &StateMap,
) -> Result<Vec<(KeyNo, EventNo)>, AllocError>
    requires distinct { AreDistinct keys.old }
    ensures grown { AreGrown keys.old keys.new }
    ensures distinct { AreDistinct keys.new }
    ensures below { IfOk result (λ entries. AllBelow (length keys.new) entries.items) }
    ensures sorted { IfOk result (λ entries. T (is_sorted nat_cmp entries.items)) }
    ensures shown { IfOk result (λ entries. shown keys.new entries.items ≡ map.now) }
{
    let mut entries = Vec::new(alloc);
    for entry in map.entries() {
        let key = keys.number_for(entry.kind(), entry.state_key())?;
        change_entry(&mut entries, key, Some(entry.event()))?;
    }
    Ok(entries)
}

// The state with these entries. It is made in the order of the keys, so that no entry is put before others.
pub(crate) fn map_of(
    alloc: Global,
    keys: &Keys,
    entries: &[(KeyNo, EventNo)],
) -> Result<StateMap, AllocError>
    requires distinct { AreDistinct keys.now }
    requires below { AllBelow (length keys.now) entries.now }
    requires sorted { T (is_sorted nat_cmp entries.now) }
    ensures { IfOk result (λ map. map ≡ shown keys.now entries.now) }
{
    let mut map = StateMap::new(alloc);
    for &number in keys.in_order() {
        if let Some(event) = value_in(entries, number) {
            let key = keys.key(number);
            map.insert(key.kind(), key.state_key(), event)?;
        }
    }
    Ok(map)
}

// The events of the state with these entries, in the order of the keys.
pub(crate) fn events_in_order(
    alloc: Global,
    keys: &Keys,
    entries: &[(KeyNo, EventNo)],
) -> Result<Vec<EventNo>, AllocError>
    requires distinct { AreDistinct keys.now }
    requires below { AllBelow (length keys.now) entries.now }
    requires sorted { T (is_sorted nat_cmp entries.now) }
    ensures { IfOk result (λ events. events.items ≡ events_in (shown keys.now entries.now)) }
{
    let events = values_at(alloc, entries, keys.in_order())?;
    Ok(events)
}

// What stands at keys with these numbers, where something does, in their order.
fn values_at(
    alloc: Global,
    entries: &[(KeyNo, EventNo)],
    numbers: &[KeyNo],
) -> Result<Vec<EventNo>, AllocError>
    requires { T (is_sorted nat_cmp entries.now) }
    ensures { IfOk result (λ values. values.items ≡ filter_map (λ number. find nat_cmp number entries.now) numbers.now) }
{
    numbers
        .iter()
        .filter_map(|number| value_in(entries, *number))
        .collect(alloc)
}

// Puts an event at each key at which two snapshots differ: that of the first, or else that of the other. At an error
// some of them were put.
pub(crate) fn put_differing(
    found: &mut StateMap,
    keys: &Keys,
    snapshots: &Snapshots,
    first: StateNo,
    other: StateNo,
    differing: &[KeyNo],
) -> Result<(), AllocError>
    requires shown { AreShown keys.now snapshots.now }
    requires first { first < length snapshots.now }
    requires other { other < length snapshots.now }
    requires differing { All (λ key. DifferAt key (snapshot snapshots.now first) (snapshot snapshots.now other))
        differing.now }
    ensures { OnOk result ((key : Key) → is_some (entry_at found.new key)
        ≡ (is_some (entry_at found.old key) || has_number_in keys.now differing.now key)) }
{
    for &number in differing {
        let event = event_of_either(snapshots, first, other, number);
        if let Some(event) = event {
            let key = keys.key(number);
            found.insert(key.kind(), key.state_key(), event)?;
        }
    }
    Ok(())
}

// The event that a snapshot has at a key, or else that of the other one.
fn event_of_either(
    snapshots: &Snapshots,
    first: StateNo,
    other: StateNo,
    key: KeyNo,
) -> Option<EventNo>
    requires first { first < length snapshots.now }
    requires other { other < length snapshots.now }
    ensures { result ≡ option_or (find nat_cmp key (snapshot snapshots.now first))
        (find nat_cmp key (snapshot snapshots.now other)) }
{
    match snapshots.get(first, key) {
        Some(event) => Some(event),
        None => snapshots.get(other, key),
    }
}

// The changes that put the entries of a state, and take the keys of another away, by the numbers of the keys; of two
// changes at one key the first counts. Keys that are new are added; at an error some of them may have been.
pub(crate) fn changes_of(
    alloc: Global,
    keys: &mut Keys,
    taken: &StateMap,
    puts: &StateMap,
) -> Result<Vec<(KeyNo, Option<EventNo>)>, AllocError>
    requires { AreDistinct keys.old }
    ensures grown { AreGrown keys.old keys.new }
    ensures distinct { AreDistinct keys.new }
    ensures below { IfOk result (λ changes. AllBelow (length keys.new) changes.items) }
    ensures found { IfOk result (λ changes. (key : Key) → changes_at keys.new changes.items key
        ≡ option_or (option_map (λ event. Some event) (entry_at puts.now key))
        (option_map (λ event. None) (entry_at taken.now key))) }
    ensures sorted { T (is_sorted key_cmp puts.now) }
{
    let mut changes = Vec::new(alloc);
    push_puts(keys, &mut changes, puts)?;
    push_removals(keys, &mut changes, taken)?;
    Ok(changes)
}

// Adds the changes that put the entries of a state. Keys that are new are added, at an error too.
fn push_puts(
    keys: &mut Keys,
    changes: &mut Vec<(KeyNo, Option<EventNo>)>,
    puts: &StateMap,
) -> Result<(), AllocError>
    requires distinct { AreDistinct keys.old }
    requires below { AllBelow (length keys.old) changes.old.items }
    ensures grown { AreGrown keys.old keys.new }
    ensures distinct { AreDistinct keys.new }
    ensures changes { OnOk result (AreChanges keys.old keys.new changes.old.items changes.new.items
        (λ event. Some event) puts.now) }
    ensures sorted { T (is_sorted key_cmp puts.now) }
{
    for entry in puts.entries() {
        let key = keys.number_for(entry.kind(), entry.state_key())?;
        changes.push((key, Some(entry.event())))?;
    }
    Ok(())
}

// Adds the changes that take the keys of a state away. Keys that are new are added, at an error too.
fn push_removals(
    keys: &mut Keys,
    changes: &mut Vec<(KeyNo, Option<EventNo>)>,
    taken: &StateMap,
) -> Result<(), AllocError>
    requires distinct { AreDistinct keys.old }
    requires below { AllBelow (length keys.old) changes.old.items }
    ensures grown { AreGrown keys.old keys.new }
    ensures distinct { AreDistinct keys.new }
    ensures changes { OnOk result (AreChanges keys.old keys.new changes.old.items changes.new.items
        (λ event. None) taken.now) }
{
    for entry in taken.entries() {
        let key = keys.number_for(entry.kind(), entry.state_key())?;
        changes.push((key, None))?;
    }
    Ok(())
}
