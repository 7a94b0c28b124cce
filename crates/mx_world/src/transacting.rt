// Transactions: their openings, their events in turn, and their ends.
ghost use Rattle.std.specs.Prelude.{◌≡◌, ℕ, List, [], None, Some, IfOk, OnOk, OnErr, map};
ghost use Rattle.mx_shard.specs.LoneRoom.{record_alone};
ghost use Rattle.mx_book.specs.Journal.{free};
ghost use Rattle.mx_book.specs.declared.transaction_keys.TransactionKey.{TransactionKey};
ghost use Rattle.mx_world.specs.Calls.{offers};
ghost use Rattle.mx_world.specs.Replies.{open_reply, next_reply, close_reply};
ghost use Rattle.mx_world.specs.Moves.{rest_of, after_abandon, after_open, after_close};
ghost use Rattle.mx_world.specs.Worlds.{shard_journals, records_of, book_journals, found, status_found, statuses_of, AtTransaction};
ghost use Rattle.mx_world.specs.Storage.{BookFails, BooksLast, NextFails, ShardsLast, OnlyAt, next_room};
ghost use Rattle.mx_world.specs.Crashes.{ShardsLeave, BooksLeave, at_error, next_call, close_entry};
ghost use Rattle.mx_world.specs.Parts.{shard_places, book_places, ArePlaced};
ghost use Rattle.mx_world.specs.Inside.{advanced, AllAgree};

use crate::bodies::reply_body;
use crate::books::{begin_in, give_up_in, keep_in};
use crate::steps::StepReply;
use crate::transactions::Transaction;
use mx_book::{Book, Opening, TransactionKey};
use mx_keeper::{BookRow, CallError, Keeper, ShardRow};
use mx_pdu::Offered;
use mx_shard::Shard;
use std::alloc::{AllocError, Global};
use std::collections::BTreeMap;

/// Opens the transaction with these events, unless it is open or its reply is kept. What needs memory here comes first,
/// so that its book begins it last.
pub(crate) fn open_in<L: Keeper<Row = BookRow>>(
    alloc: Global,
    books: &mut [Book<L>],
    going: &mut BTreeMap<TransactionKey, Transaction>,
    key: &TransactionKey,
    events: &[Offered],
) -> Result<StepReply, CallError>
    requires placed { ArePlaced (book_places books.old) }
    requires agree { AllAgree going.old.entries (book_journals books.old) }
    ensures reply { IfOk result (λ r. r ≡ open_reply events.now (statuses_of going.old.entries (book_journals books.old) key.now)) }
    ensures statuses { OnOk result (AtTransaction (statuses_of going.old.entries (book_journals books.old)) (statuses_of going.new.entries (book_journals books.new)) key.now (after_open events.now)) }
    ensures err { OnErr result ((p : TransactionKey) → statuses_of going.new.entries (book_journals books.new) p ≡ statuses_of going.old.entries (book_journals books.old) p) }
    ensures err_books { OnErr result (book_journals books.new ≡ book_journals books.old) }
    ensures agree { AllAgree going.new.entries (book_journals books.new) }
    ensures places { book_places books.new ≡ book_places books.old }
    ensures storage { result ≡ Err CallError.Storage → BookFails L.failed books.old books.new key.now.origin }
    ensures only { OnlyAt (Some key.now.origin) books.old books.new }
    ensures last { BooksLast L.failed books.old books.new }
    ensures crash { BooksLeave L.is_honest L.may_leave None books.old books.new }
{
    if going.contains_key(key) {
        return Ok(StepReply::Busy);
    }
    add_transaction(alloc, going, key, events)?;
    let opening = match begin_in(books, key) {
        Ok(opening) => opening,
        Err(error) => {
            going.remove(key);
            return Err(error);
        }
    };
    match opening {
        Opening::Fresh => Ok(StepReply::Opened(events.len())),
        Opening::Kept(reply) => {
            going.remove(key);
            Ok(StepReply::Replayed(reply))
        }
        Opening::Busy => unreachable!(),
    }
}

// One transaction more.
fn add_transaction(
    alloc: Global,
    going: &mut BTreeMap<TransactionKey, Transaction>,
    key: &TransactionKey,
    events: &[Offered],
) -> Result<(), AllocError>
    ensures found { OnOk result (AtTransaction (found going.old.entries) (found going.new.entries) key.now (λ _. Some (record { rest = events.now; told = [] }))) }
    ensures err { OnErr result (going.new.entries ≡ going.old.entries) }
{
    let transaction = Transaction::begin(alloc, events)?;
    let owned = key.clone()?;
    going.insert(owned, transaction)?;
    Ok(())
}

/// Offers the transaction's next event to its room.
pub(crate) fn next_in<K: Keeper<Row = ShardRow>>(
    shards: &mut [Shard<K>],
    going: &mut BTreeMap<TransactionKey, Transaction>,
    key: &TransactionKey,
) -> Result<StepReply, CallError>
    requires { ArePlaced (shard_places shards.old) }
    ensures reply { IfOk result (λ r. r ≡ next_reply (records_of (shard_journals shards.old)) key.now.origin (status_found (found going.old.entries key.now) free)) }
    ensures found { OnOk result (AtTransaction (found going.old.entries) (found going.new.entries) key.now (advanced (records_of (shard_journals shards.old)) key.now.origin)) }
    ensures records { OnOk result ((room : List ℕ) → records_of (shard_journals shards.new) room
        ≡ record_alone (records_of (shard_journals shards.old) room) (offers room key.now.origin (rest_of (status_found (found going.old.entries key.now) free)))) }
    ensures err { OnErr result (going.new.entries ≡ going.old.entries) }
    ensures err_shards { OnErr result (shard_journals shards.new ≡ shard_journals shards.old) }
    ensures places { shard_places shards.new ≡ shard_places shards.old }
    ensures storage { result ≡ Err CallError.Storage → NextFails K.failed shards.old shards.new (rest_of (status_found (found going.old.entries key.now) free)) }
    ensures only { OnlyAt (next_room (rest_of (status_found (found going.old.entries key.now) free))) shards.old shards.new }
    ensures last { ShardsLast K.failed shards.old shards.new }
    ensures crash { ShardsLeave K.is_honest K.may_leave (at_error result (next_call key.now.origin (rest_of (status_found (found going.old.entries key.now) free)))) shards.old shards.new }
{
    match going.get_mut(key) {
        Some(transaction) => transaction.advance(shards, &key.origin),
        None => Ok(StepReply::NotOpen),
    }
}

/// Ends the transaction with its reply, which is kept for good, if no event is left.
pub(crate) fn close_in<L: Keeper<Row = BookRow>>(
    alloc: Global,
    books: &mut [Book<L>],
    going: &mut BTreeMap<TransactionKey, Transaction>,
    key: &TransactionKey,
) -> Result<StepReply, CallError>
    requires placed { ArePlaced (book_places books.old) }
    requires agree { AllAgree going.old.entries (book_journals books.old) }
    ensures reply { IfOk result (λ r. r ≡ close_reply (statuses_of going.old.entries (book_journals books.old) key.now)) }
    ensures statuses { OnOk result (AtTransaction (statuses_of going.old.entries (book_journals books.old)) (statuses_of going.new.entries (book_journals books.new)) key.now after_close) }
    ensures err { OnErr result ((p : TransactionKey) → statuses_of going.new.entries (book_journals books.new) p ≡ statuses_of going.old.entries (book_journals books.old) p) }
    ensures err_books { OnErr result (book_journals books.new ≡ book_journals books.old) }
    ensures agree { AllAgree going.new.entries (book_journals books.new) }
    ensures places { book_places books.new ≡ book_places books.old }
    ensures storage { result ≡ Err CallError.Storage → BookFails L.failed books.old books.new key.now.origin }
    ensures only { OnlyAt (Some key.now.origin) books.old books.new }
    ensures last { BooksLast L.failed books.old books.new }
    ensures crash { BooksLeave L.is_honest L.may_leave (at_error result (close_entry key.now (statuses_of going.old.entries (book_journals books.old) key.now))) books.old books.new }
{
    let Some(transaction) = going.get(key) else {
        return Ok(StepReply::NotOpen);
    };
    let left = transaction.left();
    if left > 0 {
        return Ok(StepReply::MoreLeft(left));
    }
    let reply = reply_body(alloc, transaction.told())?;
    let kept = reply.clone()?;
    keep_in(books, key, kept)?;
    going.remove(key);
    Ok(StepReply::Closed(reply))
}

/// Gives up the transaction, if it is open.
pub(crate) fn abandon_in<L: Keeper<Row = BookRow>>(
    books: &mut [Book<L>],
    going: &mut BTreeMap<TransactionKey, Transaction>,
    key: &TransactionKey,
)
    requires placed { ArePlaced (book_places books.old) }
    requires agree { AllAgree going.old.entries (book_journals books.old) }
    ensures statuses { AtTransaction (statuses_of going.old.entries (book_journals books.old)) (statuses_of going.new.entries (book_journals books.new)) key.now after_abandon }
    ensures agree { AllAgree going.new.entries (book_journals books.new) }
    ensures places { book_places books.new ≡ book_places books.old }
    ensures keepers { map (λ book. book.keeper) books.new ≡ map (λ book. book.keeper) books.old }
    ensures refused { map (λ book. book.is_refused) books.new ≡ map (λ book. book.is_refused) books.old }
    ensures only { OnlyAt (Some key.now.origin) books.old books.new }
{
    if going.contains_key(key) {
        give_up_in(books, key);
        going.remove(key);
    }
}
