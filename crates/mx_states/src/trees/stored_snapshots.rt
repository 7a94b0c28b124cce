// Snapshots as they are kept: by trees, and by what they change of earlier ones.
ghost use Rattle.std.specs.Prelude.{◌≡◌, ◌≤◌, ◌<◌, ◌+◌, ◌^◌, ◌++◌, ◌∷◌, [], ℕ, All, IfOk, OnErr, OnOk, T, length, map, option_map, unwrap_or};
ghost use Rattle.std.specs.FinMap.Entries.{find, is_sorted};
ghost use Rattle.std.specs.Ordering.{nat_cmp};
ghost use Rattle.mx_states.specs.KeyTrees.{AreLower, IsLonger, at_key};
ghost use Rattle.mx_states.specs.SnapshotEntries.{changed, snapshot};
ghost use Rattle.mx_states.specs.StoredSnapshots.{AllSound, IsSound, snapshot_of, snapshots_of, step_of, trees_at, with_entry};

use crate::states::key_numbers::KeyNo;
use crate::states::state_numbers::StateNo;
use crate::trees::key_trees::{KeyTree, TreeNo, event_at, put_all, put_at};
use mx_graph::EventNo;
use std::alloc::{AllocError, Global};

// What a snapshot was made from.
#[derive(Debug, Drop)]
pub(crate) enum Origin {
    // Its entries.
    Entries,
    // Changes to an earlier snapshot.
    Changes {
        parent: StateNo,
        changes: Vec<(KeyNo, Option<EventNo>)>,
    },
}

// A snapshot: the tree of its events, and how many trees there were with it. The numbers of its keys are below `keys`.
#[derive(Debug, Drop)]
pub(crate) struct Stored {
    origin: Origin,
    tree: TreeNo,
    keys: usize,
    trees: usize,
}

// The place of the earlier snapshot that a stored one is made from, and the changes to it.
pub(crate) fn step(stored: &Stored) -> Option<(usize, &[(KeyNo, Option<EventNo>)])>
    ensures { option_map (λ s. (s.0, s.1.now)) result ≡ step_of stored.now }
{
    match &stored.origin {
        Origin::Entries => None,
        Origin::Changes { parent, changes } => Some((parent.index(), changes.as_slice())),
    }
}

// How many trees there are with the last of these snapshots.
pub(crate) fn trees_with(stored: &[Stored]) -> usize
    ensures { result ≡ trees_at stored.now }
{
    if stored.is_empty() {
        return 0;
    }
    stored[stored.len() - 1].trees
}

// The event at a key of the snapshot at a place.
pub(crate) fn event_of(
    trees: &[KeyTree],
    stored: &[Stored],
    place: usize,
    key: KeyNo,
) -> Option<EventNo>
    requires sound { AllSound trees.now stored.now }
    requires in_range { place < length stored.now }
    ensures { result ≡ find nat_cmp key (snapshot (snapshots_of trees.now stored.now) place) }
{
    event_at(trees, stored[place].tree, key)
}

fn push_entry(
    entries: &mut Vec<(KeyNo, EventNo)>,
    key: KeyNo,
    event: Option<EventNo>,
) -> Result<(), AllocError>
    ensures { OnOk result (entries.new.items ≡ entries.old.items ++ with_entry key event []) }
{
    if let Some(event) = event {
        entries.push((key, event))?;
    }
    Ok(())
}

// All entries of the snapshot at a place.
pub(crate) fn entries_at(
    alloc: Global,
    trees: &[KeyTree],
    stored: &[Stored],
    place: usize,
) -> Result<Vec<(KeyNo, EventNo)>, AllocError>
    requires sound { AllSound trees.now stored.now }
    requires in_range { place < length stored.now }
    ensures { IfOk result (λ entries. entries.items ≡ snapshot (snapshots_of trees.now stored.now) place) }
{
    let snapshot = &stored[place];
    let mut entries = Vec::new(alloc);
    let mut number = 0;
    while number < snapshot.keys {
        let key = KeyNo::at(number as u32);
        let event = event_at(trees, snapshot.tree, key);
        push_entry(&mut entries, key, event)?;
        number += 1;
    }
    Ok(entries)
}

// A number that the numbers of all keys of a map and of these entries are below.
fn keys_with<V>(keys: usize, entries: &[(KeyNo, V)]) -> usize
    ensures all { All (λ entry. entry.0 < result) entries.now }
    ensures more { keys ≤ result }
    ensures few { keys ≤ 2 ^ 32 → result ≤ 2 ^ 32 }
{
    let mut most = keys;
    for entry in entries {
        most = most.max(entry.0.index() + 1);
    }
    most
}

// So many changes are put one by one.
const FEW_CHANGES: usize = 4;

// Adds the tree that is another one with all changes. Where two are at one key, the first of them counts.
fn put_changes(
    alloc: Global,
    trees: &mut Vec<KeyTree>,
    tree: TreeNo,
    changes: &[(KeyNo, Option<EventNo>)],
) -> Result<TreeNo, AllocError>
    requires lower { AreLower trees.old.items }
    requires tree { tree ≤ length trees.old.items }
    ensures more { IsLonger trees.old.items trees.new.items }
    ensures lower { AreLower trees.new.items }
    ensures tree { IfOk result (λ made. made ≤ length trees.new.items) }
    ensures put { IfOk result (λ made. (key : ℕ) → at_key trees.new.items made key
        ≡ unwrap_or (find nat_cmp key changes.now) (at_key trees.old.items tree key)) }
{
    if changes.len() <= FEW_CHANGES {
        return put_each(trees, tree, changes);
    }
    let puts = puts_of(alloc, changes)?;
    put_all(alloc, trees, tree, &puts)
}

// What changes put at places, which are from 1.
fn puts_of(
    alloc: Global,
    changes: &[(KeyNo, Option<EventNo>)],
) -> Result<Vec<(usize, Option<EventNo>)>, AllocError>
    ensures { IfOk result (λ puts. puts.items ≡ map (λ change. (change.0 + 1, change.1)) changes.now) }
{
    let mut puts = Vec::with_capacity(alloc, changes.len())?;
    for &(key, event) in changes {
        puts.push((key.index() + 1, event))?;
    }
    Ok(puts)
}

// Adds the tree that is another one with changes, one by one.
fn put_each(
    trees: &mut Vec<KeyTree>,
    tree: TreeNo,
    changes: &[(KeyNo, Option<EventNo>)],
) -> Result<TreeNo, AllocError>
    requires lower { AreLower trees.old.items }
    requires tree { tree ≤ length trees.old.items }
    ensures more { IsLonger trees.old.items trees.new.items }
    ensures lower { AreLower trees.new.items }
    ensures tree { IfOk result (λ made. made ≤ length trees.new.items) }
    ensures put { IfOk result (λ made. (key : ℕ) → at_key trees.new.items made key
        ≡ unwrap_or (find nat_cmp key changes.now) (at_key trees.old.items tree key)) }
{
    let mut made = tree;
    let mut left = changes.len();
    while left > 0 {
        left -= 1;
        let (key, event) = changes[left];
        made = put_at(trees, made, key.index() + 1, event)?;
    }
    Ok(made)
}

// Adds the tree of these entries.
fn put_entries(trees: &mut Vec<KeyTree>, entries: &[(KeyNo, EventNo)]) -> Result<TreeNo, AllocError>
    requires { AreLower trees.old.items }
    ensures more { IsLonger trees.old.items trees.new.items }
    ensures lower { AreLower trees.new.items }
    ensures tree { IfOk result (λ made. made ≤ length trees.new.items) }
    ensures put { IfOk result (λ made. (key : ℕ) → at_key trees.new.items made key ≡ find nat_cmp key entries.now) }
{
    let mut made = TreeNo::empty();
    let mut left = entries.len();
    while left > 0 {
        left -= 1;
        let (key, event) = entries[left];
        made = put_at(trees, made, key.index() + 1, Some(event))?;
    }
    Ok(made)
}

// What is to be stored next for a snapshot with changes.
fn with_changes(
    alloc: Global,
    trees: &mut Vec<KeyTree>,
    stored: &[Stored],
    parent: StateNo,
    changes: Vec<(KeyNo, Option<EventNo>)>,
) -> Result<Stored, AllocError>
    requires sound { AllSound trees.old.items stored.now }
    requires in_range { parent < length stored.now }
    ensures more { IsLonger trees.old.items trees.new.items }
    ensures lower { AreLower trees.new.items }
    ensures sound { IfOk result (IsSound trees.new.items stored.now (length stored.now)) }
    ensures meant { IfOk result (λ s. snapshot_of trees.new.items s
        ≡ changed changes.items (snapshot (snapshots_of trees.old.items stored.now) parent)) }
{
    let before = &stored[parent.index()];
    let tree = put_changes(alloc, trees, before.tree, &changes)?;
    let keys = keys_with(before.keys, &changes);
    Ok(Stored {
        origin: Origin::Changes { parent, changes },
        tree,
        keys,
        trees: trees.len(),
    })
}

// What is to be stored next for a snapshot with these entries.
fn with_entries(
    trees: &mut Vec<KeyTree>,
    stored: &[Stored],
    entries: &[(KeyNo, EventNo)],
) -> Result<Stored, AllocError>
    requires sound { AllSound trees.old.items stored.now }
    requires sorted { T (is_sorted nat_cmp entries.now) }
    ensures more { IsLonger trees.old.items trees.new.items }
    ensures lower { AreLower trees.new.items }
    ensures sound { IfOk result (IsSound trees.new.items stored.now (length stored.now)) }
    ensures meant { IfOk result (λ s. snapshot_of trees.new.items s ≡ entries.now) }
{
    let tree = put_entries(trees, entries)?;
    let keys = keys_with(0, entries);
    Ok(Stored {
        origin: Origin::Entries,
        tree,
        keys,
        trees: trees.len(),
    })
}

// Adds a snapshot that is another one with changes.
pub(crate) fn push_changed(
    alloc: Global,
    trees: &mut Vec<KeyTree>,
    stored: &mut Vec<Stored>,
    parent: StateNo,
    changes: Vec<(KeyNo, Option<EventNo>)>,
) -> Result<(), AllocError>
    requires sound { AllSound trees.old.items stored.old.items }
    requires in_range { parent < length stored.old.items }
    ensures sound { AllSound trees.new.items stored.new.items }
    ensures added { OnOk result (snapshots_of trees.new.items stored.new.items ≡ snapshots_of trees.old.items stored.old.items
        ++ changed changes.items (snapshot (snapshots_of trees.old.items stored.old.items) parent) ∷ []) }
    ensures err { OnErr result (snapshots_of trees.new.items stored.new.items
        ≡ snapshots_of trees.old.items stored.old.items) }
{
    let next = with_changes(alloc, trees, stored, parent, changes)?;
    stored.push(next)?;
    Ok(())
}

// Adds a snapshot with these entries.
pub(crate) fn push_whole(
    trees: &mut Vec<KeyTree>,
    stored: &mut Vec<Stored>,
    entries: &[(KeyNo, EventNo)],
) -> Result<(), AllocError>
    requires sound { AllSound trees.old.items stored.old.items }
    requires sorted { T (is_sorted nat_cmp entries.now) }
    ensures sound { AllSound trees.new.items stored.new.items }
    ensures added { OnOk result (snapshots_of trees.new.items stored.new.items
        ≡ snapshots_of trees.old.items stored.old.items ++ entries.now ∷ []) }
    ensures err { OnErr result (snapshots_of trees.new.items stored.new.items
        ≡ snapshots_of trees.old.items stored.old.items) }
{
    let next = with_entries(trees, stored, entries)?;
    stored.push(next)?;
    Ok(())
}
