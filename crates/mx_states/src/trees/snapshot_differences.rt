// The keys at which two snapshots differ.
ghost use Rattle.std.specs.Prelude.{◌≡◌, ◌<◌, ◌++◌, ◌↔◌, ◌⊎◌, [], ◌∷◌, cond, Contains, IfOk, IfSome, Some, IsTrue, OnOk, ℕ, length};
ghost use Rattle.std.specs.List.Sorted.{IsStrictlyIncreasing};
ghost use Rattle.std.specs.Map.{keys_of};
ghost use Rattle.mx_states.specs.SnapshotEntries.{AgreeAt, DifferAt, snapshot};
ghost use Rattle.mx_states.specs.StoredSnapshots.{AllSound, snapshots_of, step_of};

use crate::states::key_numbers::KeyNo;
use crate::trees::key_trees::KeyTree;
use crate::trees::stored_snapshots::{Stored, entries_at, event_of, step};
use mx_graph::EventNo;
use std::alloc::{AllocError, Global};

// Adds the keys of entries or changes.
fn push_keys<V>(keys: &mut Vec<KeyNo>, entries: &[(KeyNo, V)]) -> Result<(), AllocError>
    ensures { OnOk result (keys.new.items ≡ keys.old.items ++ keys_of entries.now) }
{
    for entry in entries {
        keys.push(entry.0)?;
    }
    Ok(())
}

// What a stored snapshot is over, and the changes to it, where the way up goes on.
fn step_if(stored: &Stored, goes_on: bool) -> Option<(usize, &[(KeyNo, Option<EventNo>)])>
    ensures { IfSome result (λ s. step_of stored.now ≡ Some (s.0, s.1.now)) }
{
    if goes_on {
        return step(stored);
    }
    None
}

// Each key at which two snapshots differ, and more. It goes up from the later of both until both are one, and reads
// whole maps only where they share none, or where so many changes were met on the way.
fn candidates(
    alloc: Global,
    trees: &[KeyTree],
    stored: &[Stored],
    first: usize,
    second: usize,
    most: usize,
) -> Result<Vec<KeyNo>, AllocError>
    requires sound { AllSound trees.now stored.now }
    requires first_in_range { first < length stored.now }
    requires second_in_range { second < length stored.now }
    ensures { IfOk result (λ keys. (key : ℕ) → Contains keys.items key
        ⊎ AgreeAt key (snapshot (snapshots_of trees.now stored.now) first) (snapshot (snapshots_of trees.now stored.now) second)) }
{
    let mut keys = Vec::new(alloc);
    let mut one = first;
    let mut other = second;
    while one != other {
        let later = one.max(other);
        let earlier = one.min(other);
        match step_if(&stored[later], keys.len() < most) {
            None => {
                let entries = entries_at(alloc, trees, stored, later)?;
                push_keys(&mut keys, &entries)?;
                let others = entries_at(alloc, trees, stored, earlier)?;
                push_keys(&mut keys, &others)?;
                return Ok(keys);
            }
            Some((parent, changes)) => {
                push_keys(&mut keys, changes)?;
                one = earlier;
                other = parent;
            }
        }
    }
    Ok(keys)
}

fn differ_at(trees: &[KeyTree], stored: &[Stored], first: usize, second: usize, key: KeyNo) -> bool
    requires sound { AllSound trees.now stored.now }
    requires first_in_range { first < length stored.now }
    requires second_in_range { second < length stored.now }
    ensures { IsTrue result
        ↔ DifferAt key (snapshot (snapshots_of trees.now stored.now) first) (snapshot (snapshots_of trees.now stored.now) second) }
{
    event_of(trees, stored, first, key) != event_of(trees, stored, second, key)
}

fn push_if(keys: &mut Vec<KeyNo>, key: KeyNo, wanted: bool) -> Result<(), AllocError>
    ensures { OnOk result (keys.new.items ≡ keys.old.items ++ cond wanted (key ∷ []) []) }
{
    if wanted {
        keys.push(key)?;
    }
    Ok(())
}

// Those of the candidates at which two snapshots differ.
fn kept_keys(
    alloc: Global,
    trees: &[KeyTree],
    stored: &[Stored],
    first: usize,
    second: usize,
    candidates: &[KeyNo],
) -> Result<Vec<KeyNo>, AllocError>
    requires sound { AllSound trees.now stored.now }
    requires first_in_range { first < length stored.now }
    requires second_in_range { second < length stored.now }
    ensures { IfOk result (λ keys. (key : ℕ) → Contains keys.items key ↔ (Contains candidates.now key
        × DifferAt key (snapshot (snapshots_of trees.now stored.now) first) (snapshot (snapshots_of trees.now stored.now) second))) }
{
    let mut keys = Vec::new(alloc);
    for &key in candidates {
        let wanted = differ_at(trees, stored, first, second, key);
        push_if(&mut keys, key, wanted)?;
    }
    Ok(keys)
}

// The keys at which two snapshots differ, rising. It reads whole maps where so many changes lie between the two.
pub(crate) fn differing_keys(
    alloc: Global,
    trees: &[KeyTree],
    stored: &[Stored],
    first: usize,
    second: usize,
    most: usize,
) -> Result<Vec<KeyNo>, AllocError>
    requires sound { AllSound trees.now stored.now }
    requires first_in_range { first < length stored.now }
    requires second_in_range { second < length stored.now }
    ensures exact { IfOk result (λ keys. (key : ℕ) → Contains keys.items key
        ↔ DifferAt key (snapshot (snapshots_of trees.now stored.now) first) (snapshot (snapshots_of trees.now stored.now) second)) }
    ensures rising { IfOk result (λ keys. IsStrictlyIncreasing keys.items) }
{
    let candidates = candidates(alloc, trees, stored, first, second, most)?;
    let mut keys = kept_keys(alloc, trees, stored, first, second, &candidates)?;
    keys.sort_unstable();
    keys.dedup();
    Ok(keys)
}
