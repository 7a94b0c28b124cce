// The journal of a book.
ghost use Rattle.std.specs.Prelude.{◌≡◌, ◌++◌, ◌∷◌, []};
ghost use Rattle.mx_book.specs.declared.entries.BookEntry.{BookEntry};

use crate::transaction_keys::TransactionKey;
use mx_keeper::{Caller, Reply};
use std::marker::Model;
use std::snapshot::Snapshot;

/// The entries of a book's journal, in order, which clauses alone read: when the program runs it holds none of them, and
/// takes as many bytes whatever was written in it.
#[derive(Drop)]
#[cycle(journal)]
pub(crate) struct Journal {
    last: Last,
}

/// The last entry of a journal, behind the journal before it.
#[derive(Drop)]
#[cycle(journal)]
enum Last {
    Nothing,
    Begun(Snapshot<Journal>, Snapshot<TransactionKey>, Caller),
    Kept(Snapshot<Journal>, Snapshot<TransactionKey>, Caller, Snapshot<Reply>),
    GivenUp(Snapshot<Journal>, Snapshot<TransactionKey>, Caller),
}

impl Model for Journal {
    ghost use Rattle.std.specs.Prelude.{List, length};
    ghost use Rattle.std.proofs.Common.{arith, length-append};
    ghost use Rattle.mx_book.specs.declared.entries.BookEntry.{BookEntry};

    ghost Value = { List BookEntry };

    ghost use Rattle.mx_book.specs.Written.{entries_of};

    ghost view = { λ journal. entries_of journal.last };

    ghost size = { length };

    ghost size_decreases = { λ journal _. Prim.grind (arith, length-append) };
}

impl Journal {
    /// A journal with no entry.
    pub(crate) fn new() -> Journal
        ensures { result ≡ [] }
    {
        Journal {
            last: Last::Nothing,
        }
    }

    /// The journal in which a transaction was begun as well.
    pub(crate) fn begun(&self, key: &TransactionKey, caller: Caller) -> Journal
        ensures { result ≡ self.now ++ BookEntry.Begun key.now caller ∷ [] }
    {
        Journal {
            last: Last::Begun(Snapshot::of(self), Snapshot::of(key), caller),
        }
    }

    /// The journal in which this reply was kept as well.
    pub(crate) fn kept(&self, key: &TransactionKey, caller: Caller, reply: &Reply) -> Journal
        ensures { result ≡ self.now ++ BookEntry.Kept key.now caller reply.now ∷ [] }
    {
        Journal {
            last: Last::Kept(
                Snapshot::of(self),
                Snapshot::of(key),
                caller,
                Snapshot::of(reply),
            ),
        }
    }

    /// The journal in which a transaction was given up as well.
    pub(crate) fn given_up(&self, key: &TransactionKey, caller: Caller) -> Journal
        ensures { result ≡ self.now ++ BookEntry.GivenUp key.now caller ∷ [] }
    {
        Journal {
            last: Last::GivenUp(Snapshot::of(self), Snapshot::of(key), caller),
        }
    }
}
