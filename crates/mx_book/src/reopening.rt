// Books that are opened with rows.
ghost use Rattle.std.specs.Prelude.{◌≡◌, ◌++◌, ◌∷◌, [], List, IfOk, OnOk, Err, false};
ghost use Rattle.mx_keeper.specs.declared.rows.BookRow.{BookRow as Row};
ghost use Rattle.mx_book.specs.Journal.{entry_of, reopened, can_reopen};
ghost use Rattle.mx_book.specs.Inside.{IsReopened};

use crate::journals::Journal;
use crate::transaction_keys::TransactionKey;
use mx_keeper::{BookRow, CallError, Caller, Place, Reply};
use std::alloc::Global;
use std::collections::BTreeMap;

/// The number of no caller: who began the transaction of a row is not stored.
const NO_CALLER: u32 = 0;

/// What a book finds its transactions by.
#[derive(Drop)]
pub(crate) struct Transactions {
    pub journal: Journal,
    // Who began what is not ended.
    pub callers: BTreeMap<TransactionKey, Caller>,
    // Where among the replies that of a transaction stands.
    pub places: BTreeMap<TransactionKey, usize>,
    pub replies: Vec<Reply>,
}

/// The transactions that the rows make.
///
/// `Memory` where no memory is left. `Storage` where a row is of another place, or a transaction has two rows.
pub(crate) fn reopened_in(
    alloc: Global,
    place: &Place,
    rows: Vec<BookRow>,
) -> Result<Transactions, CallError>
    ensures journal { IfOk result (λ made. made.journal ≡ reopened rows.items) }
    ensures made { IfOk result (λ made. IsReopened place.now made.journal made.callers made.places made.replies.items) }
    ensures storage { result ≡ Err CallError.Storage → can_reopen place.now rows.items ≡ false }
{
    let callers = BTreeMap::new(alloc);
    let mut journal = Journal::new();
    let mut places = BTreeMap::new(alloc);
    let mut replies = Vec::new(alloc);
    for row in rows {
        reopen_row(
            &mut journal,
            &callers,
            &mut places,
            &mut replies,
            place,
            row,
        )?;
    }
    Ok(Transactions {
        journal,
        callers,
        places,
        replies,
    })
}

// Adds the entry of a row.
fn reopen_row(
    journal: &mut Journal,
    callers: &BTreeMap<TransactionKey, Caller>,
    places: &mut BTreeMap<TransactionKey, usize>,
    replies: &mut Vec<Reply>,
    place: &Place,
    row: BookRow,
) -> Result<(), CallError>
    requires { IsReopened place.now journal.old callers.now places.old replies.old.items }
    ensures journal { OnOk result (journal.new ≡ journal.old ++ entry_of row ∷ []) }
    ensures made { OnOk result (IsReopened place.now journal.new callers.now places.new replies.new.items) }
    ensures storage { result ≡ Err CallError.Storage → (rows later : List Row) → journal.old ≡ reopened rows → can_reopen place.now (rows ++ row ∷ later) ≡ false }
{
    let BookRow { origin, txn, reply } = row;
    let key = TransactionKey { origin, txn };
    if !place.has(key.origin.as_str()) {
        return Err(CallError::Storage);
    }
    if places.contains_key(&key) {
        return Err(CallError::Storage);
    }
    let number = replies.as_slice().len();
    replies.reserve(1)?;
    *journal = journal.kept(&key, Caller::new(NO_CALLER), &reply);
    places.insert(key, number)?;
    replies.push_reserved(reply);
    Ok(())
}
