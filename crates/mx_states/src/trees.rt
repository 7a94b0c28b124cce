// A room's numbered snapshots.
ghost use Rattle.std.specs.Prelude.{◌≡◌, ◌<◌, ◌++◌, ◌↔◌, ◌∷◌, [], Contains, IfOk, OnErr, OnOk, T, ℕ, length, take};
ghost use Rattle.std.specs.FinMap.Entries.{find, is_sorted, put};
ghost use Rattle.std.specs.Ordering.{nat_cmp};
ghost use Rattle.std.specs.List.Sorted.{IsStrictlyIncreasing};
ghost use Rattle.mx_states.specs.SnapshotEntries.{DifferAt, changed, snapshot};

mod key_trees;
mod snapshot_differences;
pub(crate) mod snapshot_edits;
mod stored_snapshots;

use crate::states::key_numbers::KeyNo;
use crate::states::state_numbers::StateNo;
use crate::trees::key_trees::KeyTree;
use crate::trees::snapshot_differences::differing_keys;
use crate::trees::stored_snapshots::{
    Stored, entries_at, event_of, push_changed, push_whole, trees_with,
};
use mx_graph::EventNo;
use std::alloc::{AllocError, Global};
use std::marker::Model;

// A room's snapshots by number: each a map from keys to values, seen as its entries in the order of the keys.
#[derive(Debug, Drop)]
pub(crate) struct Snapshots {
    alloc: Global,
    trees: Vec<KeyTree>,
    stored: Vec<Stored>,
}

impl Model for Snapshots {
    ghost use Rattle.std.specs.Prelude.{List, [], ℕ};
    ghost use Rattle.mx_states.specs.StoredSnapshots.{AllSound, snapshots_of};

    ghost Value = { List (List (ℕ × ℕ)) };

    ghost view = { λ table. snapshots_of table.trees.items table.stored.items };

    ghost invariant = { λ table. AllSound table.trees.items table.stored.items };
}

impl Snapshots {
    // A table with no snapshot.
    pub(crate) fn new(alloc: Global) -> Snapshots
        ensures { result ≡ [] }
    {
        Snapshots {
            alloc,
            trees: Vec::new(alloc),
            stored: Vec::new(alloc),
        }
    }

    // How many snapshots there are.
    pub(crate) fn len(&self) -> usize
        ensures { result ≡ length self.now }
    {
        self.stored.len()
    }

    // Adds a snapshot with these entries.
    pub(crate) fn add_whole(
        &mut self,
        entries: Vec<(KeyNo, EventNo)>,
    ) -> Result<StateNo, AllocError>
        requires { T (is_sorted nat_cmp entries.items) }
        ensures number { IfOk result (λ n. n ≡ length self.old) }
        ensures added { OnOk result (self.new ≡ self.old ++ entries.items ∷ []) }
        ensures err { OnErr result (self.new ≡ self.old) }
    {
        let number = StateNo::at(self.stored.len());
        push_whole(&mut self.trees, &mut self.stored, &entries)?;
        Ok(number)
    }

    // Adds a snapshot that is another one with a value put at a key.
    pub(crate) fn with(
        &mut self,
        parent: StateNo,
        key: KeyNo,
        event: EventNo,
    ) -> Result<StateNo, AllocError>
        requires { parent < length self.old }
        ensures number { IfOk result (λ n. n ≡ length self.old) }
        ensures added { OnOk result (self.new ≡ self.old ++ put nat_cmp key event (snapshot self.old parent) ∷ []) }
        ensures err { OnErr result (self.new ≡ self.old) }
    {
        let changes = vec![in self.alloc; (key, Some(event))]?;
        self.apply(parent, changes)
    }

    // Adds a snapshot that is another one with changes: at each key a value to put, or `None` to take it out.
    // Where two changes are at one key, the first of them counts.
    pub(crate) fn apply(
        &mut self,
        parent: StateNo,
        changes: Vec<(KeyNo, Option<EventNo>)>,
    ) -> Result<StateNo, AllocError>
        requires { parent < length self.old }
        ensures number { IfOk result (λ n. n ≡ length self.old) }
        ensures added { OnOk result (self.new ≡ self.old ++ changed changes.items (snapshot self.old parent) ∷ []) }
        ensures err { OnErr result (self.new ≡ self.old) }
    {
        let number = StateNo::at(self.stored.len());
        push_changed(
            self.alloc,
            &mut self.trees,
            &mut self.stored,
            parent,
            changes,
        )?;
        Ok(number)
    }

    // Gives up all snapshots but the first of them, so many. It takes no memory.
    pub(crate) fn truncate(&mut self, count: usize)
        ensures { self.new ≡ take count self.old }
    {
        self.stored.truncate(count);
        self.trees.truncate(trees_with(&self.stored));
    }

    // The value at a key. It takes no memory, and the time is logarithmic in the key's number.
    pub(crate) fn get(&self, number: StateNo, key: KeyNo) -> Option<EventNo>
        requires { number < length self.now }
        ensures { result ≡ find nat_cmp key (snapshot self.now number) }
    {
        event_of(&self.trees, &self.stored, number.index(), key)
    }

    // All entries, in the order of their keys.
    pub(crate) fn entries(
        &self,
        alloc: Global,
        number: StateNo,
    ) -> Result<Vec<(KeyNo, EventNo)>, AllocError>
        requires { number < length self.now }
        ensures entries { IfOk result (λ entries. entries.items ≡ snapshot self.now number) }
        // Each key is there once.
        ensures sorted { IfOk result (λ entries. T (is_sorted nat_cmp entries.items)) }
    {
        entries_at(alloc, &self.trees, &self.stored, number.index())
    }

    // The keys at which two snapshots differ, rising. It reads whole maps only where the two share none, or where so
    // many changes lie between them.
    pub(crate) fn differences(
        &self,
        alloc: Global,
        first: StateNo,
        second: StateNo,
        most: usize,
    ) -> Result<Vec<KeyNo>, AllocError>
        requires first_is_here { first < length self.now }
        requires second_is_here { second < length self.now }
        ensures exact { IfOk result (λ keys. (key : ℕ) → Contains keys.items key
            ↔ DifferAt key (snapshot self.now first) (snapshot self.now second)) }
        ensures rising { IfOk result (λ keys. IsStrictlyIncreasing keys.items) }
    {
        differing_keys(
            alloc,
            &self.trees,
            &self.stored,
            first.index(),
            second.index(),
            most,
        )
    }
}
