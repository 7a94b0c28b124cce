// The events that states have at some keys.
ghost use Rattle.std.specs.Prelude.{◌≡◌, ◌<◌, All, IfOk, flat_map, length, map};
ghost use Rattle.std.specs.FinMap.Entries.{find};
ghost use Rattle.std.specs.Ordering.{nat_cmp};
ghost use Rattle.mx_states.specs.KeyNumbers.{AreShown, number_of, shown};
ghost use Rattle.mx_states.specs.Numbered.{events_at, option_list};
ghost use Rattle.mx_states.specs.SnapshotEntries.{snapshot};

use crate::state_maps::StateMap;
use crate::states::key_numbers::KeyNo;
use crate::states::state_keys::Keys;
use crate::states::state_numbers::StateNo;
use crate::trees::Snapshots;
use mx_graph::EventNo;
use std::alloc::{AllocError, Global};

/// For each of some states, its events at the keys of a map. The number of each key is looked up once.
pub(crate) fn events_at_keys(
    alloc: Global,
    keys: &Keys,
    snapshots: &Snapshots,
    numbers: &[StateNo],
    wanted: &StateMap,
) -> Result<Vec<Vec<EventNo>>, AllocError>
    requires shown { AreShown keys.now snapshots.now }
    requires numbers { All (λ number. number < length snapshots.now) numbers.now }
    ensures { IfOk result (λ found. map (λ events. events.items) found.items
        ≡ map (λ number. events_at wanted.now (shown keys.now (snapshot snapshots.now number))) numbers.now) }
{
    let key_numbers = key_numbers_of(alloc, keys, wanted)?;
    let found = events_of_each(alloc, snapshots, numbers, &key_numbers)?;
    Ok(found)
}

// The numbers of a map's keys, in their order, of those that have one.
fn key_numbers_of(alloc: Global, keys: &Keys, wanted: &StateMap) -> Result<Vec<KeyNo>, AllocError>
    ensures { IfOk result (λ found. found.items ≡ flat_map (λ e. option_list (number_of keys.now e.0)) wanted.now) }
{
    let mut found = Vec::new(alloc);
    for entry in wanted.entries() {
        if let Some(number) = keys.number_of(entry.kind(), entry.state_key()) {
            found.push(number)?;
        }
    }
    Ok(found)
}

// For each of some states, its events at the keys with these numbers.
fn events_of_each(
    alloc: Global,
    snapshots: &Snapshots,
    numbers: &[StateNo],
    key_numbers: &[KeyNo],
) -> Result<Vec<Vec<EventNo>>, AllocError>
    requires { All (λ number. number < length snapshots.now) numbers.now }
    ensures { IfOk result (λ found. map (λ events. events.items) found.items
        ≡ map (λ number. flat_map (λ key. option_list (find nat_cmp key (snapshot snapshots.now number))) key_numbers.now)
        numbers.now) }
{
    let mut found = Vec::with_capacity(alloc, numbers.len())?;
    for number in numbers {
        let events = events_of_one(alloc, snapshots, *number, key_numbers)?;
        found.push(events)?;
    }
    Ok(found)
}

// The events of a state at the keys with these numbers.
fn events_of_one(
    alloc: Global,
    snapshots: &Snapshots,
    number: StateNo,
    key_numbers: &[KeyNo],
) -> Result<Vec<EventNo>, AllocError>
    requires { number < length snapshots.now }
    ensures { IfOk result (λ events. events.items
        ≡ flat_map (λ key. option_list (find nat_cmp key (snapshot snapshots.now number))) key_numbers.now) }
{
    let mut events = Vec::new(alloc);
    for key in key_numbers {
        if let Some(event) = snapshots.get(number, *key) {
            events.push(event)?;
        }
    }
    Ok(events)
}
