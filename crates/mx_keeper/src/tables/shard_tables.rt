// The tables of a shard.
ghost use Rattle.std.specs.Prelude.{◌≡◌, ◌≢◌, ◌⊎◌, ◌≤◌, IfErr, ◌+◌, ◌-◌, ◌<◌, ◌^◌, FitsSigned, pos, false, IfOk, Some, OnErr, OnOk, IsTrue};
ghost use Rattle.std.specs.Int.{w64};
ghost use Rattle.sqlite.specs.Held.{state};
ghost use Rattle.sqlite.specs.State.{HasCleanDisk, IsUnchanged, Survives};
ghost use Rattle.mx_keeper.specs.Cells.{event_of_text};
ghost use Rattle.mx_keeper.specs.Connections.{HasSchema, IsIdle, IsPut, MayRefuse, Puts, Stays};
ghost use Rattle.mx_keeper.specs.Refusals.{IsRefused};
ghost use Rattle.mx_keeper.specs.ShardTable.{given_row, insert_text, laid, shard_schema, stored};

use crate::event_texts::{event_of, room_of, text_of};
use crate::faults::KeeperFault;
use crate::rows::ShardRow;
use crate::statements::{fault_of, place_after};
use crate::tables::cells::{caller_at, check_place, text_at, version_at};
use crate::tables::first_rows::{FirstRow, versioned};
use crate::tables::layout_numbers::{LayoutNumber, state_the_second};
use crate::tables::schemas::{has_kept, has_nothing, has_shard_tables};
use crate::tables::second_layout::lay_out;
use crate::tables::selected_rows::{SelectedRow, all_rows};
use crate::tables::table_rows::TableRow;
use mx_auth::RoomVersion;
use sqlite::{Alter, Connection, Error, ErrorCode, Row, params};
use sqlite_schema::schema::Schema;
use std::alloc::Global;

impl TableRow for ShardRow {
    ghost use Rattle.std.specs.Prelude.{◌≡◌};
    ghost use Rattle.mx_keeper.specs.FirstLayout.{kept_schema};
    ghost use Rattle.mx_keeper.specs.Placed.{first_or_empty, shard_is_new};
    ghost use Rattle.mx_keeper.specs.ShardTable.{BeforeShard, RefusesKept, RefusesMove, read_shard, shard_schema};

    ghost schema = { shard_schema };

    ghost read = { read_shard };

    ghost before = { BeforeShard };

    ghost earlier = { λ schema. schema ≡ kept_schema };

    ghost refuses_tables = { RefusesMove };

    ghost refuses = { RefusesKept };

    fn is_known(found: &Schema) -> bool {
        has_shard_tables(found)
    }

    fn is_earlier(found: &Schema) -> bool {
        has_kept(found)
    }

    fn make_tables<S: Alter>(
        alloc: Global,
        connection: &mut Connection<S>,
    ) -> Result<Vec<ShardRow>, KeeperFault> {
        if has_nothing(connection.schema()) {
            lay_out(connection, &[])?;
            return Ok(Vec::new(alloc));
        }
        if !has_kept(connection.schema()) {
            return Err(KeeperFault::Table);
        }
        let first = all_rows::<S, FirstRow>(alloc, connection)?;
        let rows = versioned(alloc, first)?;
        lay_out(connection, &rows)?;
        Ok(rows)
    }

    fn insert<S: Alter>(
        &self,
        connection: &mut Connection<S>,
        count: u64,
        words: &mut Option<Error>,
    ) -> Result<(), KeeperFault> {
        let cells = match cells_of(self, count) {
            Ok(cells) => cells,
            Err(fault) => return Err(fault),
        };
        match insert_kept(
            connection,
            cells.place,
            self.room.as_str(),
            self.version,
            cells.event,
            cells.caller,
        ) {
            Ok(_) => Ok(()),
            Err(error) => {
                *words = Some(error);
                Err(fault_of(error))
            }
        }
    }

    fn all<S: Alter>(
        alloc: Global,
        connection: &mut Connection<S>,
    ) -> Result<Vec<ShardRow>, KeeperFault> {
        check_layout(alloc, connection)?;
        all_rows(alloc, connection)
    }

    ghost is_new = { shard_is_new };

    ghost is_earlier_or_empty = { first_or_empty };
}

impl SelectedRow for ShardRow {
    ghost use Rattle.mx_keeper.specs.Placed.{row_placed};
    ghost use Rattle.mx_keeper.specs.Selections.{HasSecond, selects_rows};
    ghost use Rattle.mx_keeper.specs.ShardTable.{read_shown, row_columns, select_text};

    ghost select_text = { select_text };

    ghost has_table = { HasSecond };

    ghost tree = { 1 };

    ghost columns = { row_columns };

    ghost shown = { read_shown };

    fn select() -> &'static str {
        "SELECT place, room, version, event, caller FROM kept2 ORDER BY place"
    }

    fn read(alloc: Global, row: &Row, place: u64) -> Result<ShardRow, KeeperFault> {
        check_place(row, place)?;
        let room_text = text_at(row, 1)?;
        let room = room_of(alloc, room_text.as_str())?;
        let version = version_at(row, 2)?;
        let event_text = text_at(row, 3)?;
        let event = event_of(alloc, event_text)?;
        let caller = caller_at(row, 4)?;
        Ok(ShardRow {
            room,
            version,
            event,
            caller,
        })
    }

    ghost selects = { selects_rows };

    ghost placed = { row_placed };
}

// Finds that the file states the second layout, and that its first table has no row. `Table` where it is not so.
fn check_layout<S: Alter>(alloc: Global, connection: &mut Connection<S>) -> Result<(), KeeperFault>
    requires idle { IsTrue (state S.Store connection.old).is_open → IsIdle (state S.Store connection.old) }
    requires known { IsTrue (state S.Store connection.old).is_open → (state S.Store connection.old).now.schema ≡ shard_schema }
    ensures ok { HasCleanDisk (state S.Store connection.new) → OnOk result (IsTrue (laid (state S.Store connection.old).committed.trees)) }
    ensures table { HasCleanDisk (state S.Store connection.new) → result ≡ Err KeeperFault.Table
        → IsTrue (state S.Store connection.old).is_open × (laid (state S.Store connection.old).committed.trees ≡ false) }
    ensures store { HasCleanDisk (state S.Store connection.new) → result ≡ Err KeeperFault.Store → MayRefuse (state S.Store connection.old) (state S.Store connection.new) }
    ensures stays { HasCleanDisk (state S.Store connection.new) → IsTrue (state S.Store connection.new).is_open → Stays (state S.Store connection.old) (state S.Store connection.new) }
    ensures same { HasCleanDisk (state S.Store connection.new) → OnOk result (IsUnchanged (state S.Store connection.old) (state S.Store connection.new)) }
    ensures survives { Survives (state S.Store connection.old) (state S.Store connection.new) (λ _. ⊥) }
{
    let first = all_rows::<S, FirstRow>(alloc, connection)?;
    let numbers = all_rows::<S, LayoutNumber>(alloc, connection)?;
    if first.is_empty() && state_the_second(&numbers) {
        Ok(())
    } else {
        Err(KeeperFault::Table)
    }
}

// What stands in the table for a row, beside the room and its version.
#[derive(Drop)]
pub struct Cells<'r> {
    pub place: i64,
    pub event: &'r str,
    pub caller: u32,
}

// The cells of the row behind so many. `Store` where no place is left.
pub fn cells_of(row: &ShardRow, count: u64) -> Result<Cells<'_>, KeeperFault>
    ensures place { IfOk result (λ cells. (cells.place ≡ pos (count + 1)) × (count < 2 ^ 63)) }
    ensures event { IfOk result (λ cells. event_of_text cells.event.now ≡ Some row.now.event) }
    ensures caller { IfOk result (λ cells. (cells.caller ≡ row.now.caller) × (cells.caller < 2 ^ 32)) }
    ensures fits { IfOk result (λ cells. FitsSigned w64 cells.place) }
    ensures no_table { ¬ (result ≡ Err KeeperFault.Table) }
    ensures store { result ≡ Err KeeperFault.Store → 2 ^ 63 - 1 ≤ count }
{
    let Some(place) = place_after(count) else {
        return Err(KeeperFault::Store);
    };
    let caller = row.caller.number();
    let event = text_of(&row.event);
    Ok(Cells {
        place,
        event,
        caller,
    })
}

// Adds a row at a place. It is prepared first, which tells whether the connection is open.
fn insert_kept<S: Alter>(
    connection: &mut Connection<S>,
    place: i64,
    room: &str,
    version: RoomVersion,
    event: &str,
    caller: u32,
) -> Result<usize, Error>
    requires idle { IsTrue (state S.Store connection.old).is_open → IsIdle (state S.Store connection.old) }
    requires schema { IsTrue (state S.Store connection.old).is_open → (state S.Store connection.old).now.schema ≡ shard_schema }
    ensures ok { HasCleanDisk (state S.Store connection.new) → OnOk result (Puts shard_schema (IsPut shard_schema 1 (stored place room.now version event.now caller) (state S.Store connection.old).committed.trees)
        (state S.Store connection.old) (state S.Store connection.new)) }
    ensures err { HasCleanDisk (state S.Store connection.new) → OnErr result (IsTrue (state S.Store connection.new).is_open
        → Stays (state S.Store connection.old) (state S.Store connection.new)) }
    ensures refused { HasCleanDisk (state S.Store connection.new) → IfErr result (λ error. error ≢ Error.SqliteFailure ErrorCode.OutOfMemory
        → MayRefuse (state S.Store connection.old) (state S.Store connection.new) ⊎ IsRefused insert_text (given_row place room.now version event.now caller) (state S.Store connection.old)) }
    ensures survives { Survives (state S.Store connection.old) (state S.Store connection.new) (λ db. IsTrue (state S.Store connection.old).is_open
        × HasSchema shard_schema db × IsPut shard_schema 1 (stored place room.now version event.now caller) (state S.Store connection.old).committed.trees db) }
{
    let insert = connection.prepare(
        "INSERT INTO kept2 (place, room, version, event, caller) VALUES (?1, ?2, ?3, ?4, ?5)",
    )?;
    let named = version.text();
    insert.execute(connection, params![place, room, named, event, caller])
}
