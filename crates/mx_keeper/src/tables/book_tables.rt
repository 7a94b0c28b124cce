// The table of a book.
ghost use Rattle.std.specs.Prelude.{◌≡◌, ◌≢◌, ◌⊎◌, IfErr, [], IfOk, None, Some, OnErr, OnOk, IsTrue};
ghost use Rattle.sqlite.specs.Held.{state};
ghost use Rattle.sqlite.specs.State.{HasCleanDisk, Survives};
ghost use Rattle.mx_keeper.specs.BookTable.{create_text, given_row, insert_text, replies_schema, stored_reply};
ghost use Rattle.mx_keeper.specs.Cells.{server_of_text};
ghost use Rattle.mx_keeper.specs.Connections.{HasSchema, IsIdle, IsPut, MayRefuse, Puts, Stays};
ghost use Rattle.mx_keeper.specs.Refusals.{IsRefused};
ghost use Rattle.mx_keeper.specs.Schemas.{no_schema};

use crate::faults::KeeperFault;
use crate::replies::Reply;
use crate::rows::BookRow;
use crate::statements::{fault_of, place_after};
use crate::tables::cells::{check_place, text_at};
use crate::tables::schemas::{has_nothing, has_replies};
use crate::tables::selected_rows::{SelectedRow, all_rows};
use crate::tables::table_rows::TableRow;
use crate::transaction_ids::TransactionId;
use mx_ident::{IdError, ServerName};
use sqlite::{Alter, Connection, Error, ErrorCode, Row, params};
use sqlite_schema::schema::Schema;
use std::alloc::Global;

impl TableRow for BookRow {
    ghost use Rattle.mx_keeper.specs.BookTable.{BeforeReplies, RefusesReplies, RefusesReply, read_replies, replies_schema};
    ghost use Rattle.mx_keeper.specs.Placed.{none_or_empty, replies_are_new};

    ghost schema = { replies_schema };

    ghost read = { read_replies };

    ghost before = { BeforeReplies };

    ghost earlier = { λ _. ⊥ };

    ghost refuses_tables = { RefusesReplies };

    ghost refuses = { RefusesReply };

    fn is_known(found: &Schema) -> bool {
        has_replies(found)
    }

    fn is_earlier(_found: &Schema) -> bool {
        false
    }

    fn make_tables<S: Alter>(
        alloc: Global,
        connection: &mut Connection<S>,
    ) -> Result<Vec<BookRow>, KeeperFault> {
        if !has_nothing(connection.schema()) {
            return Err(KeeperFault::Table);
        }
        match create_replies(connection) {
            Ok(_) => Ok(Vec::new(alloc)),
            Err(error) => Err(fault_of(error)),
        }
    }

    fn insert<S: Alter>(
        &self,
        connection: &mut Connection<S>,
        count: u64,
        words: &mut Option<Error>,
    ) -> Result<(), KeeperFault> {
        let Some(place) = place_after(count) else {
            return Err(KeeperFault::Store);
        };
        match insert_reply(
            connection,
            place,
            self.origin.as_str(),
            self.txn.as_str(),
            self.reply.as_str(),
        ) {
            Ok(_) => Ok(()),
            Err(error) => {
                *words = Some(error);
                Err(fault_of(error))
            }
        }
    }

    fn all<S: Alter>(
        alloc: Global,
        connection: &mut Connection<S>,
    ) -> Result<Vec<BookRow>, KeeperFault> {
        all_rows(alloc, connection)
    }

    ghost is_new = { replies_are_new };

    ghost is_earlier_or_empty = { none_or_empty };
}

impl SelectedRow for BookRow {
    ghost use Rattle.mx_keeper.specs.BookTable.{reply_columns, reply_shown, select_text};
    ghost use Rattle.mx_keeper.specs.Placed.{reply_placed};
    ghost use Rattle.mx_keeper.specs.Selections.{HasReplies, selects_replies};

    ghost select_text = { select_text };

    ghost has_table = { HasReplies };

    ghost tree = { 0 };

    ghost columns = { reply_columns };

    ghost shown = { reply_shown };

    fn select() -> &'static str {
        "SELECT place, origin, txn, reply FROM replies ORDER BY place"
    }

    fn read(alloc: Global, row: &Row, place: u64) -> Result<BookRow, KeeperFault> {
        check_place(row, place)?;
        let origin_text = text_at(row, 1)?;
        let origin = server_of(alloc, origin_text.as_str())?;
        let txn = TransactionId::new(text_at(row, 2)?);
        let reply = Reply::new(text_at(row, 3)?);
        Ok(BookRow { origin, txn, reply })
    }

    ghost selects = { selects_replies };

    ghost placed = { reply_placed };
}

// The server of this name. `Table` where the text is no server's name, `Memory` where no memory is left.
fn server_of(alloc: Global, text: &str) -> Result<ServerName, KeeperFault>
    ensures ok { IfOk result (λ name. server_of_text text.now ≡ Some name) }
    ensures table { result ≡ Err KeeperFault.Table → server_of_text text.now ≡ None }
    ensures no_store { ¬ (result ≡ Err KeeperFault.Store) }
{
    match ServerName::parse(alloc, text) {
        Ok(name) => Ok(name),
        Err(IdError::Memory) => Err(KeeperFault::Memory),
        Err(IdError::NotAnId(_)) => Err(KeeperFault::Table),
    }
}

// Makes the table in a file that has nothing.
fn create_replies<S: Alter>(connection: &mut Connection<S>) -> Result<usize, Error>
    requires idle { IsTrue (state S.Store connection.old).is_open → IsIdle (state S.Store connection.old) }
    requires schema { IsTrue (state S.Store connection.old).is_open → (state S.Store connection.old).now.schema ≡ no_schema }
    ensures ok { HasCleanDisk (state S.Store connection.new) → OnOk result (Puts replies_schema (λ db. db 0 ≡ []) (state S.Store connection.old) (state S.Store connection.new)) }
    ensures refused { HasCleanDisk (state S.Store connection.new) → IfErr result (λ error. error ≢ Error.SqliteFailure ErrorCode.OutOfMemory
        → MayRefuse (state S.Store connection.old) (state S.Store connection.new) ⊎ IsRefused create_text [] (state S.Store connection.old)) }
    ensures survives { Survives (state S.Store connection.old) (state S.Store connection.new) (λ db. HasSchema replies_schema db × (db 0 ≡ [])) }
{
    let create = connection.prepare(
        "CREATE TABLE replies (place INTEGER PRIMARY KEY, origin TEXT NOT NULL, txn TEXT NOT NULL, reply TEXT NOT NULL, UNIQUE (origin, txn))",
    )?;
    create.execute(connection, &[])
}

// Adds a row at a place. It is prepared first, which tells whether the connection is open.
fn insert_reply<S: Alter>(
    connection: &mut Connection<S>,
    place: i64,
    origin: &str,
    txn: &str,
    reply: &str,
) -> Result<usize, Error>
    requires idle { IsTrue (state S.Store connection.old).is_open → IsIdle (state S.Store connection.old) }
    requires schema { IsTrue (state S.Store connection.old).is_open → (state S.Store connection.old).now.schema ≡ replies_schema }
    ensures ok { HasCleanDisk (state S.Store connection.new) → OnOk result (Puts replies_schema (IsPut replies_schema 0 (stored_reply place origin.now txn.now reply.now) (state S.Store connection.old).committed.trees)
        (state S.Store connection.old) (state S.Store connection.new)) }
    ensures err { HasCleanDisk (state S.Store connection.new) → OnErr result (IsTrue (state S.Store connection.new).is_open
        → Stays (state S.Store connection.old) (state S.Store connection.new)) }
    ensures refused { HasCleanDisk (state S.Store connection.new) → IfErr result (λ error. error ≢ Error.SqliteFailure ErrorCode.OutOfMemory
        → MayRefuse (state S.Store connection.old) (state S.Store connection.new) ⊎ IsRefused insert_text (given_row place origin.now txn.now reply.now) (state S.Store connection.old)) }
    ensures survives { Survives (state S.Store connection.old) (state S.Store connection.new) (λ db. IsTrue (state S.Store connection.old).is_open
        × HasSchema replies_schema db × IsPut replies_schema 0 (stored_reply place origin.now txn.now reply.now) (state S.Store connection.old).committed.trees db) }
{
    let insert = connection.prepare(
        "INSERT INTO replies (place, origin, txn, reply) VALUES (?1, ?2, ?3, ?4)",
    )?;
    insert.execute(connection, params![place, origin, txn, reply])
}
