// The transactions of a book.
ghost use Rattle.std.specs.Prelude.{◌≡◌, ◌≢◌, ◌≤◌, ◌↔◌, ◌++◌, ◌∷◌, [], ◌⊎◌, Option, Some, None, List, ℕ, true, false, IfOk, OnOk, OnErr, IsErrOf, IsTrue, All};
ghost use Rattle.mx_keeper.specs.Keeping.{Rose};
ghost use Rattle.mx_keeper.specs.Places.{is_at};
ghost use Rattle.mx_book.specs.Journal.{transaction_of, hold_of, begun, opening_of, begins, is_legal, stored, replies_in, reopened, can_reopen, after_stop, IsEnded};
ghost use Rattle.mx_book.specs.declared.entries.BookEntry.{BookEntry};
ghost use Rattle.mx_book.specs.declared.transaction_keys.TransactionKey.{TransactionKey};
ghost use Rattle.mx_keeper.specs.declared.rows.BookRow.{BookRow};

use crate::journals::Journal;
use crate::openings::Opening;
use crate::recording::{
    add_place, is_begun_in, opening_in, record_beginning, record_giving_up, record_reply,
    remove_place, row_for,
};
use crate::reopening::reopened_in;
use crate::transaction_keys::TransactionKey;
use mx_keeper::{BookRow, CallError, Caller, Keeper, KeeperFault, Place, Reply};
use std::alloc::Global;
use std::collections::BTreeMap;
use std::marker::Model;

/// The transactions of the servers of one place: a journal of what was begun, kept and given up, whose kept entries
/// are rows of a keeper.
///
/// Each call names the number of its caller. Who began a transaction ends it, by keeping its reply or by giving it up;
/// a reply that is kept is the answer for good. Unless the book was refused for storage, and while its keeper is honest,
/// the keeper is open and its rows are the kept entries. It holds what is begun and not ended and the replies: of a
/// transaction that was given up nothing is left but in the journal, which clauses alone read.
#[derive(Drop)]
pub struct Book<K: Keeper<Row = BookRow>> {
    keeper: K,
    place: Place,
    is_refused: bool,
    // No transaction was ever begun, and none is kept.
    is_blank: bool,
    journal: Journal,
    // Who began what is not ended.
    callers: BTreeMap<TransactionKey, Caller>,
    // Where among the replies that of a transaction stands.
    places: BTreeMap<TransactionKey, usize>,
    // The replies in the order in which they were kept.
    replies: Vec<Reply>,
}

impl<K: Keeper<Row = BookRow>> Model for Book<K> {
    ghost use Rattle.std.specs.Prelude.{◌≡◌, ◌↔◌, [], IsTrue, false, Some};
    ghost use Rattle.mx_book.specs.View.{BookView};
    ghost use Rattle.mx_book.specs.Journal.{stored};
    ghost use Rattle.mx_book.specs.Inside.{IsIndexed, IsSound};

    ghost Value = { BookView K };

    ghost view = { λ book. record { keeper = book.keeper; journal = book.journal; place = book.place; is_refused = book.is_refused } };

    ghost invariant = { λ book.
        IsIndexed book.journal book.callers book.places book.replies.items
        × IsSound book.journal book.place
        × (IsTrue book.is_blank ↔ (book.journal ≡ []))
        × (book.is_refused ≡ false → K.is_honest book.keeper → K.is_open book.keeper × (K.rows book.keeper ≡ Some (stored book.journal))) };
}

impl<K: Keeper<Row = BookRow>> Book<K> {
    /// A book over a keeper, at this place, with the replies that it has rows of.
    ///
    /// `Memory` where no memory is left. `Storage` where the keeper failed, where what it has does not read as rows, or
    /// where a row is of another place or a transaction has two rows. A refused call drops the keeper. The time is that
    /// of a look-up for each row.
    pub fn reopen(alloc: Global, keeper: K, place: Place) -> Result<Book<K>, CallError>
        // Its entries are those of its rows: who began their transactions is not known.
        ensures journal { IfOk result (λ book. book.journal ≡ reopened (stored book.journal)) }
        ensures place { IfOk result (λ book. book.place ≡ place) }
        ensures taken { IfOk result (λ book. book.is_refused ≡ false) }
        ensures honest { IfOk result (λ book. K.is_honest book.keeper → K.is_honest keeper × (K.rows keeper ≡ Some (stored book.journal))) }
        ensures crash { IfOk result (λ book. K.is_honest book.keeper → (left : Option (List BookRow)) → K.may_leave book.keeper left → K.may_leave keeper left) }

        // Of a legal journal whose rows the keeper had it knows the replies that were kept, and what was begun is free.
        ensures again { IfOk result (λ book. K.is_honest book.keeper → (journal : List BookEntry) → K.rows keeper ≡ Some (stored journal) → IsTrue (is_legal journal)
            → (key : TransactionKey) → hold_of book.journal key ≡ after_stop (hold_of journal key)) }

        // A keeper that is ready stays honest, and only such rows are refused as no book at this place has.
        ensures ready { IfOk result (λ book. K.is_ready keeper → K.is_honest keeper → K.is_honest book.keeper) }
        ensures unfit { result ≡ Err CallError.Storage → K.is_ready keeper → K.is_honest keeper → (rows : List BookRow) → K.rows keeper ≡ Some rows → can_reopen place rows ≡ false }
    {
        let mut keeper = keeper;
        match keeper.rows() {
            Ok(rows) => {
                let is_blank = rows.is_empty();
                let made = reopened_in(alloc, &place, rows)?;
                Ok(Book {
                    keeper,
                    place,
                    is_refused: false,
                    is_blank,
                    journal: made.journal,
                    callers: made.callers,
                    places: made.places,
                    replies: made.replies,
                })
            }
            Err(KeeperFault::Memory) => Err(CallError::Memory),
            Err(KeeperFault::Store) => Err(CallError::Storage),
            Err(KeeperFault::Table) => Err(CallError::Storage),
        }
    }

    /// Its place, and what always holds of its journal and its rows.
    pub fn place(&self) -> Place
        ensures place { result ≡ self.now.place }
        // Each transaction is of a server of this place.
        ensures here { All (λ entry. IsTrue (is_at self.now.place (transaction_of entry).origin)) self.now.journal }
        // Only what is free was begun, and who began a transaction ended it.
        ensures legal { IsTrue (is_legal self.now.journal) }
        ensures rows { self.now.is_refused ≡ false → K.is_honest self.now.keeper
            → K.is_open self.now.keeper × (K.rows self.now.keeper ≡ Some (stored self.now.journal)) }
    {
        self.place
    }

    /// Begins a transaction, unless it is begun and not ended (`Busy`) or its reply is kept (`Kept`).
    ///
    /// `Memory` where no memory is left, but never for `Busy`. `Storage` exactly where an earlier call was refused so.
    /// The time is that of a look-up among the transactions.
    pub fn open(&mut self, caller: Caller, key: &TransactionKey) -> Result<Opening, CallError>
        requires { IsTrue (is_at self.old.place key.now.origin) }
        ensures reply { IfOk result (λ opening. opening ≡ opening_of (hold_of self.old.journal key.now)) }
        ensures journal { OnOk result (self.new.journal ≡ self.old.journal ++ begins key.now caller (hold_of self.old.journal key.now)) }
        ensures err { OnErr result (self.new.journal ≡ self.old.journal) }
        // A transaction that is begun and not ended is told so, whatever memory there is.
        ensures memory { result ≡ Err CallError.Memory → (other : ℕ) → hold_of self.old.journal key.now ≢ begun other }
        ensures storage { IsErrOf result CallError.Storage ↔ (self.old.is_refused ≡ true) }
        ensures keeper { self.new.keeper ≡ self.old.keeper }
        ensures place { self.new.place ≡ self.old.place }
        ensures refused { self.new.is_refused ≡ self.old.is_refused }
    {
        if self.is_refused {
            return Err(CallError::Storage);
        }
        let opening = opening_in(
            &self.journal,
            &self.callers,
            &self.places,
            self.replies.as_slice(),
            key,
        )?;
        if let Opening::Fresh = opening {
            record_beginning(
                &mut self.journal,
                &mut self.callers,
                &self.places,
                self.replies.as_slice(),
                &self.place,
                caller,
                key,
            )?;
            self.is_blank = false;
        }
        Ok(opening)
    }

    /// Whether this caller began the transaction, and it is not ended.
    pub fn is_begun(&self, caller: Caller, key: &TransactionKey) -> bool
        ensures { IsTrue result ↔ (hold_of self.now.journal key.now ≡ begun caller) }
    {
        is_begun_in(&self.callers, caller, key)
    }

    /// Whether it has no entry.
    pub fn is_empty(&self) -> bool
        ensures { IsTrue result ↔ (self.now.journal ≡ []) }
    {
        self.is_blank
    }

    /// The replies that are kept, in the order in which they were. It takes no memory.
    pub fn replies(&self) -> &[Reply]
        ensures { result.now ≡ replies_in self.now.journal }
    {
        &self.replies
    }

    /// Whether no transaction is begun and not ended.
    pub fn none_open(&self) -> bool
        ensures { IsTrue result ↔ IsEnded self.now.journal }
    {
        self.callers.is_empty()
    }

    /// Ends a transaction with this reply, which is kept for good, and stores it as a row.
    ///
    /// `Memory` where no memory is left. `Storage` where the keeper's count of failures rose in this call, or an earlier
    /// call was refused so; from then on the book answers `Storage`. The time is that of a look-up among the
    /// transactions, and of the keeper.
    pub fn keep(
        &mut self,
        caller: Caller,
        key: &TransactionKey,
        reply: Reply,
    ) -> Result<(), CallError>
        requires { hold_of self.old.journal key.now ≡ begun caller }
        ensures journal { OnOk result (self.new.journal ≡ self.old.journal ++ BookEntry.Kept key.now caller reply ∷ []) }
        ensures err { OnErr result (self.new.journal ≡ self.old.journal) }
        ensures place { self.new.place ≡ self.old.place }

        ensures storage { result ≡ Err CallError.Storage → (self.old.is_refused ≡ true) ⊎ Rose (K.failed self.old.keeper) (K.failed self.new.keeper) }
        ensures refused { IsErrOf result CallError.Storage ↔ (self.new.is_refused ≡ true) }
        ensures stays_refused { self.old.is_refused ≡ true → result ≡ Err CallError.Storage }
        ensures counted { K.failed self.old.keeper ≤ K.failed self.new.keeper }

        // After `Ok` a crash leaves all replies that are kept. At each exit it leaves what it might have left before the
        // call, or the rows with this reply's.
        ensures honest { K.is_honest self.new.keeper → K.is_honest self.old.keeper }
        ensures durable { K.is_honest self.new.keeper → OnOk result ((left : Option (List BookRow)) → K.may_leave self.new.keeper left → left ≡ Some (stored self.new.journal)) }
        ensures crash { K.is_honest self.new.keeper → (left : Option (List BookRow)) → K.may_leave self.new.keeper left
            → K.may_leave self.old.keeper left ⊎ (left ≡ Some (stored (self.old.journal ++ BookEntry.Kept key.now caller reply ∷ []))) }
    {
        if self.is_refused {
            return Err(CallError::Storage);
        }
        let row = row_for(key, reply)?;
        self.replies.reserve(1)?;
        let place = self.replies.as_slice().len();
        add_place(&mut self.places, key, place)?;
        match self.keeper.append(&row) {
            Ok(()) => {
                record_reply(
                    &mut self.journal,
                    &mut self.callers,
                    &mut self.replies,
                    &self.place,
                    caller,
                    key,
                    row.reply,
                );
                Ok(())
            }
            Err(KeeperFault::Memory) => {
                remove_place(&mut self.places, key);
                Err(CallError::Memory)
            }
            Err(KeeperFault::Store) => {
                remove_place(&mut self.places, key);
                self.is_refused = true;
                Err(CallError::Storage)
            }
            Err(KeeperFault::Table) => unreachable!(),
        }
    }

    /// Ends a transaction with no reply. Nothing is stored. It takes no memory, and is never refused.
    pub fn give_up(&mut self, caller: Caller, key: &TransactionKey)
        requires { hold_of self.old.journal key.now ≡ begun caller }
        ensures journal { self.new.journal ≡ self.old.journal ++ BookEntry.GivenUp key.now caller ∷ [] }
        ensures keeper { self.new.keeper ≡ self.old.keeper }
        ensures place { self.new.place ≡ self.old.place }
        ensures refused { self.new.is_refused ≡ self.old.is_refused }
    {
        record_giving_up(
            &mut self.journal,
            &mut self.callers,
            &self.places,
            self.replies.as_slice(),
            &self.place,
            caller,
            key,
        );
    }

    /// What keeps its rows.
    pub fn into_keeper(self) -> K
        ensures keeper { result ≡ self.keeper }
        ensures rows { self.is_refused ≡ false → K.is_honest result → K.is_open result × (K.rows result ≡ Some (stored self.journal)) }
    {
        self.keeper
    }
}
