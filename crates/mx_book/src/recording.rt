// Entries of a journal, and what finds them.
ghost use Rattle.std.specs.Prelude.{◌≡◌, ◌≢◌, ◌↔◌, ◌+◌, ◌≤◌, ◌++◌, ◌∷◌, [], List, ℕ, Some, None, IfOk, OnOk, OnErr, IsSome, IsTrue, length, vec_capacity};
ghost use Rattle.std.specs.Option.{option_copied};
ghost use Rattle.std.specs.BTreeMap.{get};
ghost use Rattle.mx_keeper.specs.Places.{is_at};
ghost use Rattle.mx_book.specs.Transactions.{transaction_cmp};
ghost use Rattle.mx_book.specs.Journal.{hold_of, free, begun, opening_of};
ghost use Rattle.mx_book.specs.Inside.{reply_at, IsMoved, IsSameMap, IsIndexed, IsSound};
ghost use Rattle.mx_book.specs.declared.entries.BookEntry.{BookEntry};

use crate::journals::Journal;
use crate::openings::Opening;
use crate::transaction_keys::TransactionKey;
use mx_keeper::{BookRow, Caller, Place, Reply};
use std::alloc::AllocError;
use std::collections::BTreeMap;

// ---- what the journal says of a transaction

/// What opening the transaction answers.
pub(crate) fn opening_in(
    journal: &Journal,
    callers: &BTreeMap<TransactionKey, Caller>,
    places: &BTreeMap<TransactionKey, usize>,
    replies: &[Reply],
    key: &TransactionKey,
) -> Result<Opening, AllocError>
    requires { IsIndexed journal.now callers.now places.now replies.now }
    ensures ok { IfOk result (λ opening. opening ≡ opening_of (hold_of journal.now key.now)) }
    ensures err { OnErr result ((other : ℕ) → hold_of journal.now key.now ≢ begun other) }
{
    if callers.contains_key(key) {
        return Ok(Opening::Busy);
    }
    match reply_in(places, replies, key) {
        Some(reply) => Ok(Opening::Kept(reply.clone()?)),
        None => Ok(Opening::Fresh),
    }
}

fn reply_in<'a>(
    places: &BTreeMap<TransactionKey, usize>,
    replies: &'a [Reply],
    key: &TransactionKey,
) -> Option<&'a Reply>
    ensures { option_copied result ≡ reply_at replies.now (get transaction_cmp places.now key.now) }
{
    match places.get(key) {
        Some(place) => replies.get(*place),
        None => None,
    }
}

/// Whether this caller began the transaction, and it is not ended.
pub(crate) fn is_begun_in(
    callers: &BTreeMap<TransactionKey, Caller>,
    caller: Caller,
    key: &TransactionKey,
) -> bool
    ensures { IsTrue result ↔ (get transaction_cmp callers.now key.now ≡ Some caller) }
{
    match callers.get(key) {
        Some(other) => other.number() == caller.number(),
        None => false,
    }
}

// ---- the maps

/// Takes a transaction out of those that are not ended.
fn take_caller(callers: &mut BTreeMap<TransactionKey, Caller>, key: &TransactionKey)
    ensures { IsMoved callers.old callers.new key.now None }
{
    callers.remove(key);
}

/// Adds the place of a reply.
pub(crate) fn add_place(
    places: &mut BTreeMap<TransactionKey, usize>,
    key: &TransactionKey,
    place: usize,
) -> Result<(), AllocError>
    ensures ok { OnOk result (IsMoved places.old places.new key.now (Some place)) }
    ensures err { OnErr result (IsSameMap places.old places.new) }
{
    let owned = key.clone()?;
    places.insert(owned, place)?;
    Ok(())
}

/// Takes the place of a reply away again.
pub(crate) fn remove_place(places: &mut BTreeMap<TransactionKey, usize>, key: &TransactionKey)
    ensures { IsMoved places.old places.new key.now None }
{
    places.remove(key);
}

// ---- the entries

/// Begins a transaction that is free.
pub(crate) fn record_beginning(
    journal: &mut Journal,
    callers: &mut BTreeMap<TransactionKey, Caller>,
    places: &BTreeMap<TransactionKey, usize>,
    replies: &[Reply],
    place: &Place,
    caller: Caller,
    key: &TransactionKey,
) -> Result<(), AllocError>
    requires indexed { IsIndexed journal.old callers.old places.now replies.now }
    requires sound { IsSound journal.old place.now }
    requires here { IsTrue (is_at place.now key.now.origin) }
    requires free { hold_of journal.old key.now ≡ free }
    ensures journal { OnOk result (journal.new ≡ journal.old ++ BookEntry.Begun key.now caller ∷ []) }
    ensures err { OnErr result (journal.new ≡ journal.old) }
    ensures indexed { IsIndexed journal.new callers.new places.now replies.now }
    ensures sound { IsSound journal.new place.now }
{
    let owned = key.clone()?;
    callers.insert(owned, caller)?;
    *journal = journal.begun(key, caller);
    Ok(())
}

/// Ends a transaction that this caller began, with no reply.
pub(crate) fn record_giving_up(
    journal: &mut Journal,
    callers: &mut BTreeMap<TransactionKey, Caller>,
    places: &BTreeMap<TransactionKey, usize>,
    replies: &[Reply],
    place: &Place,
    caller: Caller,
    key: &TransactionKey,
)
    requires indexed { IsIndexed journal.old callers.old places.now replies.now }
    requires sound { IsSound journal.old place.now }
    requires begun { hold_of journal.old key.now ≡ begun caller }
    ensures journal { journal.new ≡ journal.old ++ BookEntry.GivenUp key.now caller ∷ [] }
    ensures indexed { IsIndexed journal.new callers.new places.now replies.now }
    ensures sound { IsSound journal.new place.now }
{
    take_caller(callers, key);
    *journal = journal.given_up(key, caller);
}

/// Ends a transaction that this caller began, with the reply whose place the map has already and for which there is
/// room.
pub(crate) fn record_reply(
    journal: &mut Journal,
    callers: &mut BTreeMap<TransactionKey, Caller>,
    replies: &mut Vec<Reply>,
    place: &Place,
    caller: Caller,
    key: &TransactionKey,
    reply: Reply,
)
    requires room { length replies.old.items + 1 ≤ vec_capacity replies.old }
    requires sound { IsSound journal.old place.now }
    requires begun { hold_of journal.old key.now ≡ begun caller }
    ensures journal { journal.new ≡ journal.old ++ BookEntry.Kept key.now caller reply ∷ [] }
    ensures replies { replies.new.items ≡ replies.old.items ++ reply ∷ [] }
    ensures callers { IsMoved callers.old callers.new key.now None }
    ensures sound { IsSound journal.new place.now }
{
    take_caller(callers, key);
    *journal = journal.kept(key, caller, &reply);
    replies.push_reserved(reply);
}

/// The row that is stored of a reply.
pub(crate) fn row_for(key: &TransactionKey, reply: Reply) -> Result<BookRow, AllocError>
    ensures { IfOk result (λ row. row ≡ record { origin = key.now.origin; txn = key.now.txn; reply = reply }) }
{
    let origin = key.origin.clone()?;
    let txn = key.txn.clone()?;
    Ok(BookRow { origin, txn, reply })
}
