// Rows in a table of SQLite.
ghost use Rattle.std.specs.Prelude.{◌≡◌, ◌⊎◌, [], Err, IfErr, IfOk, IsErrAnd, List, OnOk, IsTrue, Some, length, true};
ghost use Rattle.sqlite.specs.Held.{state};
ghost use Rattle.sqlite.specs.State.{HasCleanDisk, Survives};
ghost use Rattle.sqlite.specs.Tree.{Trees};
ghost use Rattle.mx_keeper.specs.Connections.{Finds, HasRows, HasSchema, IsMoved, MayRefuse};

use crate::failure_notes::{FailureNote, note_failure};
use crate::faults::KeeperFault;
use crate::keepers::Keeper;
use crate::statements::{Doubts, counted, idle_statement, told};
use crate::tables::table_rows::TableRow;
use sqlite::{Alter, Connection, Statement};
use std::alloc::Global;
use std::marker::Model;
use std::sync::Arc;

/// Rows in a table of SQLite, which a crash does not take away.
///
/// It is honest while the disk gives back what was written. Each row is added by one statement, which is a transaction
/// of its own.
#[derive(Drop)]
pub struct SqliteKeeper<S: Alter + Drop, R: TableRow> {
    alloc: Global,
    connection: Connection<S>,
    // What finds whether the connection is open.
    probe: Statement,
    // How many rows the table has.
    count: u64,
    failures: u64,
    unsure: Doubts,
    // The rows that were read when the connection was adopted, until they are asked for, or one is added.
    found: Option<Vec<R>>,
    // Where it notes that it failed.
    note: Option<Arc<FailureNote>>,
}

impl<S: Alter + Drop, R: TableRow> Model for SqliteKeeper<S, R> {
    ghost use Rattle.std.specs.Prelude.{◌≡◌, [], IfSome, IsTrue, Some, is_some};
    ghost use Rattle.sqlite.specs.Held.{state};
    ghost use Rattle.sqlite.specs.State.{HasCleanDisk};
    ghost use Rattle.sqlite.specs.Tree.{Trees};
    ghost use Rattle.mx_keeper.specs.Connections.{HasRows, HasSchema};
    ghost use Rattle.mx_keeper.specs.SqliteKeepers.{KeeperView, keeper_code};

    ghost Value = { KeeperView S };

    ghost coded = { keeper_code S.code };

    ghost view = { λ keeper. record {
      connection = keeper.connection;
      failures = keeper.failures;
      unsure = keeper.unsure;
      is_ready = is_some keeper.found;
      is_noted = is_some keeper.note;
    } };

    ghost invariant = { λ keeper. record {
      kept : IsTrue (state S.Store keeper.connection).is_open → HasRows R.schema R.read keeper.count (state S.Store keeper.connection);
      found : IfSome keeper.found (λ rows. HasCleanDisk (state S.Store keeper.connection)
          → IsTrue (state S.Store keeper.connection).is_open × (R.read (state S.Store keeper.connection).committed.trees ≡ Some rows.items));
      left : HasCleanDisk (state S.Store keeper.connection) → (db : Trees) → (state S.Store keeper.connection).may_leave db → HasSchema R.schema db;
      probe : HasCleanDisk (state S.Store keeper.connection) → keeper.probe.text ≡ [];
    } };
}

/// A connection that was not adopted, and why not.
#[derive(Drop)]
pub struct NotAdopted<S: Alter + Drop> {
    pub fault: KeeperFault,
    pub connection: Connection<S>,
}

impl<S: Alter + Drop, R: TableRow> SqliteKeeper<S, R> {
    /// Takes a connection whose file has the tables of these rows alone, or is one of an earlier layout, or has nothing:
    /// then the tables are made, with the rows that the file has, in one transaction. All rows are read: the first call
    /// of `rows` gives these out.
    ///
    /// `Table` where the file has something else, or its rows do not read; then nothing is changed. `Store` where
    /// a transaction is begun, or SQLite refused a statement for another cause than memory. `Memory` where no
    /// memory is left. The connection is given back with each. The time is linear in the rows.
    pub fn adopt(
        alloc: Global,
        connection: Connection<S>,
    ) -> Result<SqliteKeeper<S, R>, NotAdopted<S>>
        ensures honest { IfOk result (λ keeper. HasCleanDisk (state S.Store keeper.connection) → HasCleanDisk (state S.Store connection)) }
        ensures open { IfOk result (λ keeper. HasCleanDisk (state S.Store keeper.connection) → IsTrue (state S.Store keeper.connection).is_open) }
        ensures rows { IfOk result (λ keeper. HasCleanDisk (state S.Store keeper.connection) → (rows : List R)
            × (R.read (state S.Store keeper.connection).committed.trees ≡ Some rows) × Finds R.schema R.read R.before (state S.Store connection) rows) }
        ensures none_failed { IfOk result (λ keeper. keeper.failures ≡ 0) }
        ensures ready { IfOk result (λ keeper. IsTrue keeper.is_ready) }

        // A crash leaves what it might have left before, or the tables with the rows that are found now.
        ensures crash { IfOk result (λ keeper. HasCleanDisk (state S.Store keeper.connection) → (db : Trees)
            → (state S.Store keeper.connection).may_leave db → (state S.Store connection).may_leave db ⊎ IsMoved R.schema R.read R.before (state S.Store connection) db) }
        ensures refused_honest { IfErr result (λ refused. HasCleanDisk (state S.Store refused.connection) → HasCleanDisk (state S.Store connection)) }
        ensures refused_crash { IfErr result (λ refused. HasCleanDisk (state S.Store refused.connection) → (db : Trees)
            → (state S.Store refused.connection).may_leave db → (state S.Store connection).may_leave db ⊎ IsMoved R.schema R.read R.before (state S.Store connection) db) }

        // The tables are refused only where no rows are to be found.
        ensures table { IfErr result (λ refused. HasCleanDisk (state S.Store refused.connection) → refused.fault ≡ KeeperFault.Table
            → (rows : List R) → ¬ Finds R.schema R.read R.before (state S.Store connection) rows) }
        // Only a transaction, or what SQLite refuses of the making of the tables or of a query is told as `Store`.
        ensures store { IfErr result (λ refused. HasCleanDisk (state S.Store refused.connection) → refused.fault ≡ KeeperFault.Store → IsTrue (state S.Store connection).in_transaction
            ⊎ (((¬ ((state S.Store connection).now.schema ≡ R.schema)) × R.refuses_tables (state S.Store connection)) ⊎ MayRefuse (state S.Store connection) (state S.Store refused.connection))) }
        ensures begun { IsTrue (state S.Store connection).in_transaction → IsErrAnd result (λ refused. refused.fault ≡ KeeperFault.Store) }
    {
        let mut connection = connection;
        match found_all::<S, R>(alloc, &mut connection) {
            Ok((rows, probe)) => Ok(SqliteKeeper {
                alloc,
                connection,
                probe,
                count: rows.len() as u64,
                failures: 0,
                unsure: Doubts::none(),
                found: Some(rows),
                note: None,
            }),
            Err(fault) => Err(NotAdopted { fault, connection }),
        }
    }

    /// From now on it notes here that it failed, for who runs the program. Nothing else changes.
    pub fn note_failures_in(&mut self, note: Arc<FailureNote>)
        ensures { self.new ≡ record self.old { is_noted = true } }
    {
        self.note = Some(note);
    }

    /// A law: what a crash may leave now is a file with these tables, also where a failure has shut the connection.
    pub fn leaves_its_table(&self)
        ensures { HasCleanDisk (state S.Store self.now.connection) → (db : Trees) → (state S.Store self.now.connection).may_leave db → HasSchema R.schema db }
    {
        let _ = &self.connection;
    }

    /// The connection as it is.
    pub fn into_connection(self) -> Connection<S>
        ensures { result ≡ self.connection }
    {
        let SqliteKeeper {
            alloc: _,
            connection,
            probe: _,
            count: _,
            failures: _,
            unsure: _,
            found: _,
            note: _,
        } = self;
        connection
    }
}

// The rows of the tables, which are made where the file is one of an earlier layout or has nothing, and what finds
// whether the connection is open.
fn found_all<S: Alter, R: TableRow>(
    alloc: Global,
    connection: &mut Connection<S>,
) -> Result<(Vec<R>, Statement), KeeperFault>
    ensures open { HasCleanDisk (state S.Store connection.new) → OnOk result (IsTrue (state S.Store connection.new).is_open) }
    ensures kept { HasCleanDisk (state S.Store connection.new) → IfOk result (λ it. HasRows R.schema R.read (length it.0.items) (state S.Store connection.new)) }
    ensures reads { HasCleanDisk (state S.Store connection.new) → IfOk result (λ it. R.read (state S.Store connection.new).committed.trees ≡ Some it.0.items) }
    ensures found { HasCleanDisk (state S.Store connection.new) → IfOk result (λ it. Finds R.schema R.read R.before (state S.Store connection.old) it.0.items) }
    ensures probe { HasCleanDisk (state S.Store connection.new) → IfOk result (λ it. it.1.text ≡ []) }
    ensures table { HasCleanDisk (state S.Store connection.new) → result ≡ Err KeeperFault.Table → (rows : List R) → ¬ Finds R.schema R.read R.before (state S.Store connection.old) rows }
    ensures left { HasCleanDisk (state S.Store connection.new) → OnOk result ((db : Trees) → (state S.Store connection.new).may_leave db → HasSchema R.schema db) }
    ensures store { HasCleanDisk (state S.Store connection.new) → result ≡ Err KeeperFault.Store → IsTrue (state S.Store connection.old).in_transaction
        ⊎ (((¬ ((state S.Store connection.old).now.schema ≡ R.schema)) × R.refuses_tables (state S.Store connection.old)) ⊎ MayRefuse (state S.Store connection.old) (state S.Store connection.new)) }
    ensures begun { IsTrue (state S.Store connection.old).in_transaction → result ≡ Err KeeperFault.Store }
    ensures survives { Survives (state S.Store connection.old) (state S.Store connection.new) (IsMoved R.schema R.read R.before (state S.Store connection.old)) }
{
    let rows = found_rows::<S, R>(alloc, connection)?;
    let probe = idle_statement(connection)?;
    Ok((rows, probe))
}

// The rows of the tables, which are made where the file is one of an earlier layout, or has nothing. `Table` where it
// has something else.
fn found_rows<S: Alter, R: TableRow>(
    alloc: Global,
    connection: &mut Connection<S>,
) -> Result<Vec<R>, KeeperFault>
    ensures open { HasCleanDisk (state S.Store connection.new) → OnOk result (IsTrue (state S.Store connection.new).is_open) }
    ensures kept { HasCleanDisk (state S.Store connection.new) → IfOk result (λ rows. HasRows R.schema R.read (length rows.items) (state S.Store connection.new)) }
    ensures reads { HasCleanDisk (state S.Store connection.new) → IfOk result (λ rows. R.read (state S.Store connection.new).committed.trees ≡ Some rows.items) }
    ensures found { HasCleanDisk (state S.Store connection.new) → IfOk result (λ rows. Finds R.schema R.read R.before (state S.Store connection.old) rows.items) }
    ensures table { HasCleanDisk (state S.Store connection.new) → result ≡ Err KeeperFault.Table → (rows : List R) → ¬ Finds R.schema R.read R.before (state S.Store connection.old) rows }
    ensures left { HasCleanDisk (state S.Store connection.new) → OnOk result ((db : Trees) → (state S.Store connection.new).may_leave db → HasSchema R.schema db) }
    ensures store { HasCleanDisk (state S.Store connection.new) → result ≡ Err KeeperFault.Store → IsTrue (state S.Store connection.old).in_transaction
        ⊎ (((¬ ((state S.Store connection.old).now.schema ≡ R.schema)) × R.refuses_tables (state S.Store connection.old)) ⊎ MayRefuse (state S.Store connection.old) (state S.Store connection.new)) }
    ensures begun { IsTrue (state S.Store connection.old).in_transaction → result ≡ Err KeeperFault.Store }
    ensures survives { Survives (state S.Store connection.old) (state S.Store connection.new) (IsMoved R.schema R.read R.before (state S.Store connection.old)) }
{
    if !connection.is_autocommit() {
        return Err(KeeperFault::Store);
    }
    if R::is_known(connection.schema()) {
        return R::all(alloc, connection);
    }
    R::make_tables(alloc, connection)
}

impl<S: Alter + Drop, R: TableRow> Keeper for SqliteKeeper<S, R> {
    ghost use Rattle.std.specs.Prelude.{◌≡◌, IsTrue};
    ghost use mathlib.Core.Path.{ap, ◌∙◌};
    ghost use Rattle.sqlite.specs.Held.{state};
    ghost use Rattle.sqlite.specs.State.{HasCleanDisk};
    ghost use Rattle.sqlite.specs.Tree.{Trees};
    ghost use Rattle.mx_keeper.specs.Refusals.{MayRefuseCall};

    type Row = R;

    ghost rows = { λ keeper. R.read (state S.Store keeper.connection).committed.trees };

    ghost is_open = { λ keeper. IsTrue (state S.Store keeper.connection).is_open };

    ghost is_honest = { λ keeper. HasCleanDisk (state S.Store keeper.connection) };

    ghost may_leave = { λ keeper left. (db : Trees) × (state S.Store keeper.connection).may_leave db × (left ≡ R.read db) };

    ghost failed = { λ keeper. keeper.failures };

    ghost unsure = { λ keeper. keeper.unsure };

    ghost is_ready = { λ keeper. IsTrue keeper.is_ready };

    ghost may_refuse = { λ old row new. MayRefuseCall R.schema R.read R.refuses row (state S.Store old.connection) (state S.Store new.connection) };

    fn append(&mut self, row: &R) -> Result<(), KeeperFault> {
        self.found = None;
        let mut words = None;
        match row.insert(&mut self.connection, self.count, &mut words) {
            Ok(()) => {
                self.count += 1;
                Ok(())
            }
            Err(fault) => {
                let fault = told(&mut self.connection, &self.probe, &mut self.unsure, fault);
                self.failures = counted(self.failures, fault);
                note_failure(&self.note, self.alloc, fault, words);
                Err(fault)
            }
        }
    }

    fn rows(&mut self) -> Result<Vec<R>, KeeperFault> {
        if let Some(rows) = self.found.take() {
            return Ok(rows);
        }
        match R::all(self.alloc, &mut self.connection) {
            Ok(all) => Ok(all),
            Err(fault) => {
                let fault = told(&mut self.connection, &self.probe, &mut self.unsure, fault);
                self.failures = counted(self.failures, fault);
                Err(fault)
            }
        }
    }

    fn failures(&self) -> u64 {
        self.failures
    }

    ghost settled = { λ keeper left _ live it. it.2 ∙ ap R.read (S.Store.settled keeper.connection.store it.0 live it.1) };
}
