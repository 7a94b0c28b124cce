// Rows that the query of all rows of a table shows.
ghost use Rattle.std.specs.Prelude.{◌≡◌, ◌≢◌, IfErr, ◌+◌, ℕ, pos, List, Option, OnOk, OnErr, IfOk, IsTrue, None, Some};
ghost use Rattle.sqlite.specs.declared.types.Value.TheVariants.{Int};
ghost use Rattle.sqlite.specs.Held.{state};
ghost use Rattle.sqlite.specs.Order.{Row as Cells};
ghost use Rattle.sqlite.specs.Schema.{Schema as TheSchema};
ghost use Rattle.sqlite.specs.State.{HasCleanDisk, IsUnchanged, Survives};
ghost use Rattle.sqlite_trees.specs.Tree.{rowid};
ghost use Rattle.mx_keeper.specs.Connections.{IsIdle, MayRefuse, Stays};
ghost use Rattle.mx_keeper.specs.Selecting.{IsSelect};
ghost use Rattle.mx_keeper.specs.TableRows.{read_from, read_rows};

use crate::faults::KeeperFault;
use crate::statements::fault_of;
use sqlite::{Alter, Connection, Error, ErrorCode, Row};
use std::alloc::Global;

/// What a row of a table is read as. The rows have places, which count from 1.
pub trait SelectedRow: Drop {
    /// The query of all rows of the table.
    ghost select_text: { List ℕ };

    /// The schemas under which the table is read.
    ghost has_table: { TheSchema → Type 0 };

    /// The tree of the table.
    ghost tree: { ℕ };

    /// The columns that a row is read from, beside its place.
    ghost columns: { List ℕ };

    /// What a row that the query shows reads as at a place; none where it does not read.
    ghost shown: { ℕ → Cells → Option Self };

    /// The query of all rows of the table.
    fn select() -> &'static str
        ensures { result.now ≡ select_text };

    /// The row that is shown at a place. `Table` where it does not read, `Memory` where no memory is left.
    fn read(alloc: Global, row: &Row, place: u64) -> Result<Self, KeeperFault>
    where
        Self: Sized,
        ensures ok { IfOk result (λ read. shown place row.now ≡ Some read) }
        ensures table { result ≡ Err KeeperFault.Table → shown place row.now ≡ None }
        ensures no_store { ¬ (result ≡ Err KeeperFault.Store) };

    /// The text is such a query.
    ghost selects: { (schema : TheSchema) → has_table schema → IsSelect select_text schema tree columns };

    /// A row that reads at a place has its number.
    ghost placed: { (place : ℕ) (row : Cells) (read : Self) → shown place row ≡ Some read → rowid row ≡ Int (pos place) };
}

/// All rows of a table, by their places, where it is there.
///
/// After `Memory` and `Store` the connection may be shut. `Table` where the rows do not read.
pub fn all_rows<S: Alter, R: SelectedRow>(
    alloc: Global,
    connection: &mut Connection<S>,
) -> Result<Vec<R>, KeeperFault>
    requires idle { IsTrue (state S.Store connection.old).is_open → IsIdle (state S.Store connection.old) }
    requires known { IsTrue (state S.Store connection.old).is_open → R.has_table (state S.Store connection.old).now.schema }
    ensures ok { HasCleanDisk (state S.Store connection.new) → IfOk result (λ all. read_rows R.columns R.shown ((state S.Store connection.old).committed.trees R.tree) ≡ Some all.items) }
    ensures open { HasCleanDisk (state S.Store connection.new) → OnOk result (IsTrue (state S.Store connection.new).is_open) }
    ensures table { HasCleanDisk (state S.Store connection.new) → result ≡ Err KeeperFault.Table
        → IsTrue (state S.Store connection.old).is_open × (read_rows R.columns R.shown ((state S.Store connection.old).committed.trees R.tree) ≡ None) }
    ensures store { HasCleanDisk (state S.Store connection.new) → result ≡ Err KeeperFault.Store → MayRefuse (state S.Store connection.old) (state S.Store connection.new) }
    ensures stays { HasCleanDisk (state S.Store connection.new) → IsTrue (state S.Store connection.new).is_open → Stays (state S.Store connection.old) (state S.Store connection.new) }
    ensures same { HasCleanDisk (state S.Store connection.new) → OnOk result (IsUnchanged (state S.Store connection.old) (state S.Store connection.new)) }
    ensures survives { Survives (state S.Store connection.old) (state S.Store connection.new) (λ _. ⊥) }
{
    match select_rows::<S, R>(connection) {
        Ok(rows) => rows_of(alloc, &rows),
        Err(error) => Err(fault_of(error)),
    }
}

// The rows of the table as they are shown, by their places. After an error the connection may be shut.
fn select_rows<S: Alter, R: SelectedRow>(connection: &mut Connection<S>) -> Result<Vec<Row>, Error>
    requires idle { IsTrue (state S.Store connection.old).is_open → IsIdle (state S.Store connection.old) }
    requires known { IsTrue (state S.Store connection.old).is_open → R.has_table (state S.Store connection.old).now.schema }
    ensures ok { HasCleanDisk (state S.Store connection.new) → IfOk result (λ rows. read_from R.shown 1 rows.items
        ≡ read_rows R.columns R.shown ((state S.Store connection.old).committed.trees R.tree)) }
    ensures same { HasCleanDisk (state S.Store connection.new) → OnOk result (IsUnchanged (state S.Store connection.old) (state S.Store connection.new)) }
    ensures err { HasCleanDisk (state S.Store connection.new) → OnErr result (IsTrue (state S.Store connection.new).is_open
        → Stays (state S.Store connection.old) (state S.Store connection.new)) }
    ensures refused { HasCleanDisk (state S.Store connection.new) → IfErr result (λ error. error ≢ Error.SqliteFailure ErrorCode.OutOfMemory
        → MayRefuse (state S.Store connection.old) (state S.Store connection.new)) }
    ensures survives { Survives (state S.Store connection.old) (state S.Store connection.new) (λ _. ⊥) }
{
    let select = connection.prepare(R::select())?;
    let rows = select.query_all(connection, &[])?;
    Ok(rows)
}

// The rows that were shown, whose places count from 1.
fn rows_of<R: SelectedRow>(alloc: Global, rows: &[Row]) -> Result<Vec<R>, KeeperFault>
    ensures ok { IfOk result (λ all. read_from R.shown 1 rows.now ≡ Some all.items) }
    ensures table { result ≡ Err KeeperFault.Table → read_from R.shown 1 rows.now ≡ None }
    ensures no_store { ¬ (result ≡ Err KeeperFault.Store) }
{
    let mut all = Vec::new(alloc);
    for row in rows {
        match R::read(alloc, row, all.len() as u64 + 1) {
            Ok(read) => all.push(read)?,
            Err(fault) => return Err(fault),
        }
    }
    Ok(all)
}
