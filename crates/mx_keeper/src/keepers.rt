// What keeps rows.
ghost use Rattle.std.specs.Prelude.{◌≡◌, ◌⊎◌, ◌≤◌, IfOk, OnErr, OnOk, Option, Some, None, List, ℕ};
ghost use Rattle.mx_keeper.specs.Keeping.{with_row, Rose};

use crate::faults::KeeperFault;
use crate::storing::Storable;

/// What keeps a list of rows, which a crash does not take away.
///
/// What is said of the rows holds while the keeper is honest: whoever holds the bytes gave back what was written, and
/// nobody else wrote them. No call can test this, so it is a premise of the clauses; a keeper in memory always meets
/// it. A call that fails leaves the rows. A failure may shut a keeper, and a keeper that is shut refuses each call with
/// `Store`, until what holds the rows is opened again.
pub trait Keeper: Drop {
    /// What a row is.
    type Row: Storable;

    /// The rows in the order in which they were added; none where what is held does not read as rows.
    ghost rows: { Self → Option (List Self.Row) };

    /// No failure has shut it.
    ghost is_open: { Self → Type 0 };

    /// Until now what was written was given back, and nobody else wrote.
    ghost is_honest: { Self → Type 0 };

    /// The rows that may be found after a crash at this moment; none where what is left does not read as rows.
    ghost may_leave: { Self → Option (List Self.Row) → Type 0 };

    /// How often what holds the rows has failed.
    ghost failed: { Self → ℕ };

    /// How often it answered `Store` since no memory was left to find whether a call that had no memory has shut it.
    ghost unsure: { Self → ℕ };

    /// Its rows are read already, so that giving them asks for nothing but memory.
    ghost is_ready: { Self → Type 0 };

    /// Why what holds the rows may have refused a call between these two: to add this row, or, where none is named, to
    /// give all rows.
    ghost may_refuse: { Self → Option Self.Row → Self → Type 0 };

    /// Adds a row at the end.
    ///
    /// `Memory` where no memory is left: it stays open. `Store` where what holds the rows failed: then it may be shut,
    /// and a crash may leave the rows with the new one or without it. It never answers `Table`. The count of failures
    /// rises where the answer is `Store`, and stays at any other answer.
    fn append(&mut self, row: &Self::Row) -> Result<(), KeeperFault>
        ensures honest { is_honest self.new → is_honest self.old }
        ensures ok { is_honest self.new → OnOk result (rows self.new ≡ with_row (rows self.old) row.now) }
        ensures open { is_honest self.new → OnOk result (is_open self.new) }
        ensures memory { is_honest self.new → is_open self.old → result ≡ Err KeeperFault.Memory → is_open self.new }
        ensures err { is_honest self.new → is_open self.old → OnErr result (is_open self.new → rows self.new ≡ rows self.old) }

        // A crash leaves what it might have left before the call, or the rows with this one.
        ensures crash { is_honest self.new → (left : Option (List Self.Row)) → may_leave self.new left
            → may_leave self.old left ⊎ (left ≡ with_row (rows self.old) row.now) }

        ensures told { result ≡ Err KeeperFault.Store → Rose (failed self.old) (failed self.new) }
        ensures calm { ¬ (result ≡ Err KeeperFault.Store) → failed self.new ≡ failed self.old }
        ensures counted { failed self.old ≤ failed self.new }
        ensures no_table { ¬ (result ≡ Err KeeperFault.Table) }

        // What holds the rows may have refused the row, or it could not be found whether it is shut.
        ensures refused { is_honest self.new → result ≡ Err KeeperFault.Store → may_refuse self.old (Some row.now) self.new ⊎ Rose (unsure self.old) (unsure self.new) }
        ensures sure { ¬ (result ≡ Err KeeperFault.Store) → unsure self.new ≡ unsure self.old };

    /// All rows in the order in which they were added. It changes nothing that is kept.
    ///
    /// `Memory` where no memory is left: it stays open. `Store` where what holds the rows failed: then it may be shut.
    /// `Table` where what is held does not read as rows. The count of failures rises where the answer is `Store`, and
    /// stays at any other answer. The time is linear in the rows.
    fn rows(&mut self) -> Result<Vec<Self::Row>, KeeperFault>
        ensures honest { is_honest self.new → is_honest self.old }
        ensures ok { is_honest self.new → IfOk result (λ all. rows self.old ≡ Some all.items) }
        ensures table { is_honest self.new → is_open self.old → result ≡ Err KeeperFault.Table → rows self.old ≡ None }
        ensures open { is_honest self.new → OnOk result (is_open self.new) }
        ensures memory { is_honest self.new → is_open self.old → result ≡ Err KeeperFault.Memory → is_open self.new }
        ensures stay { is_honest self.new → is_open self.new → rows self.new ≡ rows self.old }
        ensures crash { is_honest self.new → (left : Option (List Self.Row)) → may_leave self.new left → may_leave self.old left }
        ensures told { result ≡ Err KeeperFault.Store → Rose (failed self.old) (failed self.new) }
        ensures calm { ¬ (result ≡ Err KeeperFault.Store) → failed self.new ≡ failed self.old }
        ensures counted { failed self.old ≤ failed self.new }
        ensures refused { is_honest self.new → result ≡ Err KeeperFault.Store → may_refuse self.old None self.new ⊎ Rose (unsure self.old) (unsure self.new) }
        ensures sure { ¬ (result ≡ Err KeeperFault.Store) → unsure self.new ≡ unsure self.old }

        // A keeper that is ready refuses nothing but for memory, and stays honest.
        ensures ready { is_ready self.old → (¬ (result ≡ Err KeeperFault.Store)) × (¬ (result ≡ Err KeeperFault.Table)) }
        ensures ready_honest { is_ready self.old → is_honest self.old → is_honest self.new };

    /// How often what holds the rows has failed, but for memory. A count at 2^64-1 stays there, and counts as risen.
    fn failures(&self) -> u64
        ensures { result ≡ failed self.now };

    /// While it is open, a crash leaves its rows.
    ghost settled: { (keeper : Self) (left : Option (List Self.Row)) → is_honest keeper → is_open keeper → may_leave keeper left → left ≡ rows keeper };
}
