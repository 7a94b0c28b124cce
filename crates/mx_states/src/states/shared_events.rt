// The events that states share.
ghost use Rattle.std.specs.Prelude.{◌≡◌, ◌<◌, ◌||◌, IfOk, OnOk, T, filter, is_some, length, map, not, ℕ};
ghost use Rattle.std.specs.BTreeSet.{contains};
ghost use Rattle.std.specs.FinMap.Entries.{is_sorted};
ghost use Rattle.std.specs.Ordering.{eq_by_cmp, nat_cmp};
ghost use Rattle.mx_graph.specs.Record.{is_in};
ghost use Rattle.mx_graph.specs.StateMap.{entry as entry_at, events_of as events_in, key_cmp};
ghost use Rattle.mx_states.specs.KeyNumbers.{AllBelow, AreDistinct, key_at, shown};
ghost use Rattle.mx_states.specs.Numbered.{without};

use crate::state_maps::StateMap;
use crate::states::key_numbers::KeyNo;
use crate::states::state_keys::Keys;
use mx_graph::EventNo;
use std::alloc::{AllocError, Global};
use std::collections::BTreeSet;

/// The events that a state has at the keys that another map lacks, from its entries by the numbers of their keys. Which
/// order they have is not told.
pub(crate) fn events_at_other_keys(
    alloc: Global,
    keys: &Keys,
    entries: &[(KeyNo, EventNo)],
    taken: &StateMap,
) -> Result<Vec<EventNo>, AllocError>
    requires distinct { AreDistinct keys.now }
    requires below { AllBelow (length keys.now) entries.now }
    requires sorted { T (is_sorted nat_cmp entries.now) }
    ensures { IfOk result (λ found. (p : ℕ) → is_in found.items p
        ≡ is_in (events_in (without taken.now (shown keys.now entries.now))) p) }
{
    let numbers = numbers_of(alloc, keys, taken)?;
    let found = events_without(alloc, entries, &numbers)?;
    Ok(found)
}

// The numbers of a map's keys.
fn numbers_of(alloc: Global, keys: &Keys, map: &StateMap) -> Result<BTreeSet<KeyNo>, AllocError>
    requires { AreDistinct keys.now }
    ensures { IfOk result (λ numbers. (n : ℕ) → n < length keys.now
        → contains nat_cmp numbers n ≡ is_some (entry_at map.now (key_at keys.now n))) }
{
    let mut numbers = BTreeSet::new(alloc);
    for entry in map.entries() {
        add_number(&mut numbers, keys, entry.kind(), entry.state_key())?;
    }
    Ok(numbers)
}

// Adds the number of a key, if it has one.
fn add_number(
    numbers: &mut BTreeSet<KeyNo>,
    keys: &Keys,
    kind: &str,
    state_key: &str,
) -> Result<(), AllocError>
    requires { AreDistinct keys.now }
    ensures { OnOk result ((n : ℕ) → n < length keys.now → contains nat_cmp numbers.new n
        ≡ (contains nat_cmp numbers.old n || eq_by_cmp key_cmp (key_at keys.now n) (kind.now, state_key.now))) }
{
    if let Some(number) = keys.number_of(kind, state_key) {
        numbers.insert(number)?;
    }
    Ok(())
}

// The events of the entries that are at no key of a set.
fn events_without(
    alloc: Global,
    entries: &[(KeyNo, EventNo)],
    numbers: &BTreeSet<KeyNo>,
) -> Result<Vec<EventNo>, AllocError>
    ensures { IfOk result (λ found. found.items
        ≡ map (λ e. e.1) (filter (λ e. not (contains nat_cmp numbers.now e.0)) entries.now)) }
{
    entries
        .iter()
        .filter(|entry| !numbers.contains(&entry.0))
        .map(|entry| entry.1)
        .collect(alloc)
}
