// Rows that have tables.
ghost use Rattle.std.specs.Prelude.{◌≡◌, ◌↔◌, ◌⊎◌, ◌+◌, ◌<◌, ◌^◌, ℕ, OnOk, OnErr, IfOk, IsTrue, List, Option, None, Some};
ghost use Rattle.sqlite.specs.Held.{state};
ghost use Rattle.sqlite.specs.Schema.{Schema as TheSchema};
ghost use Rattle.sqlite.specs.State.{HasCleanDisk, State, Survives};
ghost use Rattle.sqlite.specs.Tree.{Trees};
ghost use Rattle.mx_keeper.specs.Connections.{HasRows, HasSchema, IsIdle, IsMoved, MayRefuse, Puts, Stays};
ghost use Rattle.mx_keeper.specs.Keeping.{with_row};
ghost use Rattle.mx_keeper.specs.Refusals.{RefusesRow};
ghost use Rattle.mx_keeper.specs.Schemas.{no_schema};

use crate::faults::KeeperFault;
use crate::storing::Storable;
use sqlite::{Alter, Connection, Error};
use sqlite_schema::schema::Schema;
use std::alloc::Global;

/// A row that stands in tables of its own, the only ones of its file.
pub trait TableRow: Storable {
    /// The schema of the file.
    ghost schema: { TheSchema };

    /// The rows that the tables read as, by their places, which count from 1; none where they do not read.
    ghost read: { Trees → Option (List Self) };

    /// A file with another schema is one of an earlier layout, or one that has nothing, and these are its rows.
    ghost before: { TheSchema → Trees → List Self → Type 0 };

    /// The schema of a file of an earlier layout.
    ghost earlier: { TheSchema → Type 0 };

    /// SQLite refuses to make the tables in such a file, by what a statement that makes them means in this state.
    ghost refuses_tables: { State → Type 0 };

    /// SQLite refuses the row behind so many, by what the statement that adds it means in this state.
    ghost refuses: { Self → ℕ → State → Type 0 };

    /// Whether the tables are known: the schema is that of the file.
    fn is_known(found: &Schema) -> bool
        ensures { IsTrue result ↔ (found.now ≡ schema) };

    /// Whether the tables are those of an earlier layout.
    fn is_earlier(found: &Schema) -> bool
        ensures earlier { IsTrue result ↔ earlier found.now }
        ensures other { IsTrue result → ¬ (found.now ≡ schema) };

    /// Makes the tables in a file with another schema, puts the rows into them that it has, and gives these out. `Table`
    /// where it is none of an earlier layout and has something, or its rows do not read. After another error the
    /// connection may be shut, and a crash may leave the tables, with all these rows.
    fn make_tables<S: Alter>(
        alloc: Global,
        connection: &mut Connection<S>,
    ) -> Result<Vec<Self>, KeeperFault>
    where
        Self: Sized,
        requires idle { IsTrue (state S.Store connection.old).is_open → IsIdle (state S.Store connection.old) }
        requires other { ¬ ((state S.Store connection.old).now.schema ≡ schema) }
        ensures ok { HasCleanDisk (state S.Store connection.new) → IfOk result (λ rows. before (state S.Store connection.old).now.schema (state S.Store connection.old).committed.trees rows.items
            × Puts schema (λ db. read db ≡ Some rows.items) (state S.Store connection.old) (state S.Store connection.new)) }
        ensures table { HasCleanDisk (state S.Store connection.new) → result ≡ Err KeeperFault.Table
            → (rows : List Self) → ¬ before (state S.Store connection.old).now.schema (state S.Store connection.old).committed.trees rows }
        ensures refused { HasCleanDisk (state S.Store connection.new) → result ≡ Err KeeperFault.Store
            → MayRefuse (state S.Store connection.old) (state S.Store connection.new) ⊎ refuses_tables (state S.Store connection.old) }
        ensures survives { Survives (state S.Store connection.old) (state S.Store connection.new) (IsMoved schema read before (state S.Store connection.old)) };

    /// Adds the row behind so many. After an error the connection may be shut, and a crash may leave the row. Where SQLite
    /// refuses it, `words` is what it says.
    fn insert<S: Alter>(
        &self,
        connection: &mut Connection<S>,
        count: u64,
        words: &mut Option<Error>,
    ) -> Result<(), KeeperFault>
        requires { IsTrue (state S.Store connection.old).is_open → HasRows schema read count (state S.Store connection.old) }
        ensures open { HasCleanDisk (state S.Store connection.new) → OnOk result (IsTrue (state S.Store connection.new).is_open) }
        ensures kept { HasCleanDisk (state S.Store connection.new) → OnOk result (HasRows schema read (count + 1) (state S.Store connection.new)) }
        ensures row { HasCleanDisk (state S.Store connection.new) → OnOk result (read (state S.Store connection.new).committed.trees
            ≡ with_row (read (state S.Store connection.old).committed.trees) self.now) }
        ensures few { OnOk result (count < 2 ^ 63) }
        ensures err { HasCleanDisk (state S.Store connection.new) → OnErr result (IsTrue (state S.Store connection.new).is_open
            → Stays (state S.Store connection.old) (state S.Store connection.new)) }
        ensures no_table { ¬ (result ≡ Err KeeperFault.Table) }
        ensures refused { HasCleanDisk (state S.Store connection.new) → result ≡ Err KeeperFault.Store
            → MayRefuse (state S.Store connection.old) (state S.Store connection.new) ⊎ RefusesRow (refuses self.now) count (state S.Store connection.old) }
        ensures survives { Survives (state S.Store connection.old) (state S.Store connection.new)
            (λ db. HasSchema schema db × (read db ≡ with_row (read (state S.Store connection.old).committed.trees) self.now)) };

    /// All rows, by their places, where the tables are known.
    ///
    /// After `Memory` and `Store` the connection may be shut. `Table` where the tables do not read.
    fn all<S: Alter>(
        alloc: Global,
        connection: &mut Connection<S>,
    ) -> Result<Vec<Self>, KeeperFault>
    where
        Self: Sized,
        requires idle { IsTrue (state S.Store connection.old).is_open → IsIdle (state S.Store connection.old) }
        requires known { IsTrue (state S.Store connection.old).is_open → (state S.Store connection.old).now.schema ≡ schema }
        ensures ok { HasCleanDisk (state S.Store connection.new) → IfOk result (λ all. read (state S.Store connection.old).committed.trees ≡ Some all.items) }
        ensures open { HasCleanDisk (state S.Store connection.new) → OnOk result (IsTrue (state S.Store connection.new).is_open) }
        ensures table { HasCleanDisk (state S.Store connection.new) → result ≡ Err KeeperFault.Table
            → IsTrue (state S.Store connection.old).is_open × (read (state S.Store connection.old).committed.trees ≡ None) }
        ensures store { HasCleanDisk (state S.Store connection.new) → result ≡ Err KeeperFault.Store → MayRefuse (state S.Store connection.old) (state S.Store connection.new) }
        ensures stays { HasCleanDisk (state S.Store connection.new) → IsTrue (state S.Store connection.new).is_open → Stays (state S.Store connection.old) (state S.Store connection.new) }
        ensures survives { Survives (state S.Store connection.old) (state S.Store connection.new) (λ _. ⊥) };

    /// A file with this schema is none of an earlier layout, and has something.
    ghost is_new: { (db : Trees) (rows : List Self) → ¬ before schema db rows };

    /// A file with another schema that has rows is one of an earlier layout, or has nothing.
    ghost is_earlier_or_empty: { (found : TheSchema) (db : Trees) (rows : List Self) → before found db rows
        → earlier found ⊎ (found ≡ no_schema) };
}
