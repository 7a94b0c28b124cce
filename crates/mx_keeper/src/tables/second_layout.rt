// Files of shards that are brought to the second layout.
ghost use Rattle.std.specs.Prelude.{◌≡◌, ◌⊎◌, ◌+◌, ◌++◌, ◌<◌, ◌^◌, [], ◌∷◌, ⊤, true, Err, OnOk, Some, IsTrue, if◌then◌else◌};
ghost use Rattle.sqlite.specs.Effect.{IsDatabase};
ghost use Rattle.sqlite.specs.Held.{state};
ghost use Rattle.sqlite.specs.State.{HasCleanDisk, Survives};
ghost use Rattle.sqlite.specs.Values.{bound};
ghost use Rattle.mx_keeper.specs.Connections.{HasSchema, IsIdle, IsPut, MayRefuse, Puts};
ghost use Rattle.mx_keeper.specs.FirstLayout.{kept_schema};
ghost use Rattle.mx_keeper.specs.Moving.{AreEmpty, Changes, DoesMove, HasOneMore, HasRun, HasTheseRows, IsInside, IsStopped, ReadsSoMany, TellsMove, drop_steps};
ghost use Rattle.mx_keeper.specs.Schemas.{no_schema};
ghost use Rattle.mx_keeper.specs.ShardTable.{RefusesLayout, fill_steps, layout_row, number_steps, read_shard, read_table, row_steps, shard_schema, table_steps};

use crate::faults::KeeperFault;
use crate::rows::ShardRow;
use crate::statements::fault_of;
use crate::tables::schemas::has_kept;
use crate::tables::shard_tables::cells_of;
use sqlite::types::ValueRef;
use sqlite::{Alter, Connection, Transaction, params};

/// Makes the file one of the second layout that has these rows, in one transaction, where it is one of the first layout
/// or has nothing. What the first layout's table had is dropped.
///
/// After an error the connection may be shut, and a crash may leave the file of the second layout with these rows.
pub fn lay_out<S: Alter>(
    connection: &mut Connection<S>,
    rows: &[ShardRow],
) -> Result<(), KeeperFault>
    requires idle { IsTrue (state S.Store connection.old).is_open → IsIdle (state S.Store connection.old) }
    requires known { IsTrue (state S.Store connection.old).is_open → ((state S.Store connection.old).now.schema ≡ kept_schema) ⊎ ((state S.Store connection.old).now.schema ≡ no_schema) }
    ensures ok { HasCleanDisk (state S.Store connection.new) → OnOk result (Puts shard_schema (λ db. read_shard db ≡ Some rows.now) (state S.Store connection.old) (state S.Store connection.new)) }
    ensures no_table { ¬ (result ≡ Err KeeperFault.Table) }
    ensures refused { HasCleanDisk (state S.Store connection.new) → result ≡ Err KeeperFault.Store
        → MayRefuse (state S.Store connection.old) (state S.Store connection.new)
        ⊎ RefusesLayout rows.now (record (state S.Store connection.old) { in_transaction = true }) }
    ensures survives { Survives (state S.Store connection.old) (state S.Store connection.new) (λ db. HasSchema shard_schema db × (read_shard db ≡ Some rows.now)) }
{
    if !connection.is_autocommit() {
        return Err(KeeperFault::Store);
    }
    let had_first = has_kept(connection.schema());
    let mut transaction = connection.transaction();
    fill(&mut transaction, had_first, rows)?;
    match transaction.commit() {
        Ok(()) => Ok(()),
        Err(error) => Err(fault_of(error)),
    }
}

// Makes the tables anew, with these rows, and states the layout.
fn fill<S: Alter>(
    transaction: &mut Transaction<'_, S>,
    had_first: bool,
    rows: &[ShardRow],
) -> Result<(), KeeperFault>
    requires { IsTrue (state S.Store transaction.old.conn.now).is_open → IsInside (if had_first then kept_schema else no_schema) (state S.Store transaction.old.conn.now) }
    ensures same_reference { transaction.new.conn.ghost_name ≡ transaction.old.conn.ghost_name }
    ensures ok { HasCleanDisk (state S.Store transaction.new.conn.now) → OnOk result (Changes shard_schema (λ db. read_shard db ≡ Some rows.now) (state S.Store transaction.old.conn.now) (state S.Store transaction.new.conn.now)) }
    ensures sound { HasCleanDisk (state S.Store transaction.new.conn.now) → OnOk result (IsDatabase (state S.Store transaction.new.conn.now).now) }
    ensures no_table { ¬ (result ≡ Err KeeperFault.Table) }
    ensures refused { TellsMove (drop_steps had_first ++ fill_steps rows.now) (state S.Store transaction.old.conn.now)
        (state S.Store transaction.new.conn.now) result }
    ensures survives { Survives (state S.Store transaction.old.conn.now) (state S.Store transaction.new.conn.now) (λ _. ⊥) }
{
    drop_first(transaction, had_first)?;
    create_tables(transaction)?;
    add_rows(transaction, rows)?;
    add_number(transaction)
}

// Drops the table of the first layout, where it is there.
fn drop_first<S: Alter>(
    transaction: &mut Transaction<'_, S>,
    had_first: bool,
) -> Result<(), KeeperFault>
    requires { IsTrue (state S.Store transaction.old.conn.now).is_open → IsInside (if had_first then kept_schema else no_schema) (state S.Store transaction.old.conn.now) }
    ensures same_reference { transaction.new.conn.ghost_name ≡ transaction.old.conn.ghost_name }
    ensures ok { HasCleanDisk (state S.Store transaction.new.conn.now) → OnOk result (IsTrue (state S.Store transaction.new.conn.now).is_open → Changes no_schema (λ _. ⊤) (state S.Store transaction.old.conn.now) (state S.Store transaction.new.conn.now)) }
    ensures no_table { ¬ (result ≡ Err KeeperFault.Table) }
    ensures done { DoesMove (drop_steps had_first) (state S.Store transaction.old.conn.now)
        (state S.Store transaction.new.conn.now) result }
    ensures refused { TellsMove (drop_steps had_first) (state S.Store transaction.old.conn.now)
        (state S.Store transaction.new.conn.now) result }
    ensures survives { Survives (state S.Store transaction.old.conn.now) (state S.Store transaction.new.conn.now) (λ _. ⊥) }
{
    if !had_first {
        return Ok(());
    }
    run(transaction, "DROP TABLE kept", &[])
}

// Makes the three tables where there is none.
fn create_tables<S: Alter>(transaction: &mut Transaction<'_, S>) -> Result<(), KeeperFault>
    requires { IsTrue (state S.Store transaction.old.conn.now).is_open → IsInside no_schema (state S.Store transaction.old.conn.now) }
    ensures same_reference { transaction.new.conn.ghost_name ≡ transaction.old.conn.ghost_name }
    ensures ok { HasCleanDisk (state S.Store transaction.new.conn.now) → OnOk result (Changes shard_schema AreEmpty (state S.Store transaction.old.conn.now) (state S.Store transaction.new.conn.now)) }
    ensures no_table { ¬ (result ≡ Err KeeperFault.Table) }
    ensures done { DoesMove table_steps (state S.Store transaction.old.conn.now)
        (state S.Store transaction.new.conn.now) result }
    ensures refused { TellsMove table_steps (state S.Store transaction.old.conn.now)
        (state S.Store transaction.new.conn.now) result }
    ensures survives { Survives (state S.Store transaction.old.conn.now) (state S.Store transaction.new.conn.now) (λ _. ⊥) }
{
    run(
        transaction,
        "CREATE TABLE kept (place INTEGER PRIMARY KEY, room TEXT NOT NULL, event TEXT NOT NULL, caller INTEGER NOT NULL)",
        &[],
    )?;
    run(
        transaction,
        "CREATE TABLE kept2 (place INTEGER PRIMARY KEY, room TEXT NOT NULL, version TEXT NOT NULL, event TEXT NOT NULL, caller INTEGER NOT NULL)",
        &[],
    )?;
    run(
        transaction,
        "CREATE TABLE layout (place INTEGER PRIMARY KEY, number INTEGER NOT NULL)",
        &[],
    )
}

// Adds the rows to an empty table.
fn add_rows<S: Alter>(
    transaction: &mut Transaction<'_, S>,
    rows: &[ShardRow],
) -> Result<(), KeeperFault>
    requires inside { IsTrue (state S.Store transaction.old.conn.now).is_open → IsInside shard_schema (state S.Store transaction.old.conn.now) }
    requires empty { IsTrue (state S.Store transaction.old.conn.now).is_open → read_table (state S.Store transaction.old.conn.now).now.trees ≡ Some [] }
    ensures same_reference { transaction.new.conn.ghost_name ≡ transaction.old.conn.ghost_name }
    ensures ok { HasCleanDisk (state S.Store transaction.new.conn.now) → OnOk result (IsTrue (state S.Store transaction.new.conn.now).is_open → Changes shard_schema (HasTheseRows rows.now (state S.Store transaction.old.conn.now).now.trees) (state S.Store transaction.old.conn.now) (state S.Store transaction.new.conn.now)) }
    ensures no_table { ¬ (result ≡ Err KeeperFault.Table) }
    ensures done { DoesMove (row_steps 1 rows.now) (state S.Store transaction.old.conn.now)
        (state S.Store transaction.new.conn.now) result }
    ensures refused { TellsMove (row_steps 1 rows.now) (state S.Store transaction.old.conn.now)
        (state S.Store transaction.new.conn.now) result }
    ensures survives { Survives (state S.Store transaction.old.conn.now) (state S.Store transaction.new.conn.now) (λ _. ⊥) }
{
    let mut count = 0;
    for row in rows {
        add_row(transaction, row, count)?;
        count += 1;
    }
    Ok(())
}

// Adds the row behind so many.
fn add_row<S: Alter>(
    transaction: &mut Transaction<'_, S>,
    row: &ShardRow,
    count: u64,
) -> Result<(), KeeperFault>
    requires few { count + 1 < 2 ^ 63 }
    requires inside { IsTrue (state S.Store transaction.old.conn.now).is_open → IsInside shard_schema (state S.Store transaction.old.conn.now) }
    requires read { IsTrue (state S.Store transaction.old.conn.now).is_open → ReadsSoMany count (state S.Store transaction.old.conn.now).now.trees }
    ensures same_reference { transaction.new.conn.ghost_name ≡ transaction.old.conn.ghost_name }
    ensures ok { HasCleanDisk (state S.Store transaction.new.conn.now) → OnOk result (Changes shard_schema (HasOneMore row.now (state S.Store transaction.old.conn.now).now.trees) (state S.Store transaction.old.conn.now) (state S.Store transaction.new.conn.now)) }
    ensures no_table { ¬ (result ≡ Err KeeperFault.Table) }
    ensures done { DoesMove (row_steps (count + 1) (row.now ∷ [])) (state S.Store transaction.old.conn.now)
        (state S.Store transaction.new.conn.now) result }
    ensures refused { TellsMove (row_steps (count + 1) (row.now ∷ [])) (state S.Store transaction.old.conn.now)
        (state S.Store transaction.new.conn.now) result }
    ensures survives { Survives (state S.Store transaction.old.conn.now) (state S.Store transaction.new.conn.now) (λ _. ⊥) }
{
    let cells = cells_of(row, count)?;
    let named = row.version.text();
    run(
        transaction,
        "INSERT INTO kept2 (place, room, version, event, caller) VALUES (?1, ?2, ?3, ?4, ?5)",
        params![
            cells.place,
            row.room.as_str(),
            named,
            cells.event,
            cells.caller
        ],
    )
}

// States the second layout in an empty table.
fn add_number<S: Alter>(transaction: &mut Transaction<'_, S>) -> Result<(), KeeperFault>
    requires inside { IsTrue (state S.Store transaction.old.conn.now).is_open → IsInside shard_schema (state S.Store transaction.old.conn.now) }
    requires empty { IsTrue (state S.Store transaction.old.conn.now).is_open → (state S.Store transaction.old.conn.now).now.trees 2 ≡ [] }
    ensures same_reference { transaction.new.conn.ghost_name ≡ transaction.old.conn.ghost_name }
    ensures ok { HasCleanDisk (state S.Store transaction.new.conn.now) → OnOk result (Changes shard_schema (IsPut shard_schema 2 layout_row (state S.Store transaction.old.conn.now).now.trees) (state S.Store transaction.old.conn.now) (state S.Store transaction.new.conn.now)) }
    ensures sound { HasCleanDisk (state S.Store transaction.new.conn.now) → OnOk result (IsDatabase (state S.Store transaction.new.conn.now).now) }
    ensures no_table { ¬ (result ≡ Err KeeperFault.Table) }
    ensures refused { TellsMove number_steps (state S.Store transaction.old.conn.now)
        (state S.Store transaction.new.conn.now) result }
    ensures survives { Survives (state S.Store transaction.old.conn.now) (state S.Store transaction.new.conn.now) (λ _. ⊥) }
{
    run(
        transaction,
        "INSERT INTO layout (place, number) VALUES (1, 2)",
        &[],
    )
}

// Runs a statement in the transaction.
fn run<S: Alter>(
    transaction: &mut Transaction<'_, S>,
    text: &str,
    given: &[ValueRef<'_>],
) -> Result<(), KeeperFault>
    requires { IsTrue (state S.Store transaction.old.conn.now).is_open → IsTrue (state S.Store transaction.old.conn.now).in_transaction }
    ensures same_reference { transaction.new.conn.ghost_name ≡ transaction.old.conn.ghost_name }
    ensures ok { HasCleanDisk (state S.Store transaction.new.conn.now) → OnOk result (HasRun text.now (bound given.now) (state S.Store transaction.old.conn.now) (state S.Store transaction.new.conn.now)) }
    ensures no_table { ¬ (result ≡ Err KeeperFault.Table) }
    ensures refused { HasCleanDisk (state S.Store transaction.new.conn.now) → result ≡ Err KeeperFault.Store → IsStopped text.now (bound given.now) (state S.Store transaction.old.conn.now) (state S.Store transaction.new.conn.now) }
    ensures survives { Survives (state S.Store transaction.old.conn.now) (state S.Store transaction.new.conn.now) (λ _. ⊥) }
{
    match transaction.execute(text, given) {
        Ok(_) => Ok(()),
        Err(error) => Err(fault_of(error)),
    }
}
