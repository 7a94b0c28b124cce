// Calls of books, each at the book of its transaction's server.
ghost use Rattle.std.specs.Prelude.{◌≡◌, None, Some, IfOk, OnOk, OnErr, map};
ghost use Rattle.mx_book.specs.Journal.{begun, free, kept, opening_of};
ghost use Rattle.mx_book.specs.declared.entries.BookEntry.TheVariants.{Kept};
ghost use Rattle.mx_world.specs.Worlds.{book_journals, holds_of, AtTransaction};
ghost use Rattle.mx_world.specs.Storage.{BookFails, BooksLast, OnlyAt};
ghost use Rattle.mx_world.specs.Crashes.{BooksLeave, at_error};
ghost use Rattle.mx_world.specs.Parts.{book_places, ArePlaced};
ghost use Rattle.mx_world.specs.Inside.{opened};

use crate::callers::SOLE_CALLER;
use crate::numbering::number_for;
use mx_book::{Book, Opening, TransactionKey};
use mx_keeper::{BookRow, CallError, Caller, Keeper, Reply};

/// Begins a transaction.
pub(crate) fn begin_in<L: Keeper<Row = BookRow>>(
    books: &mut [Book<L>],
    key: &TransactionKey,
) -> Result<Opening, CallError>
    requires { ArePlaced (book_places books.old) }
    ensures reply { IfOk result (λ opening. opening ≡ opening_of (holds_of (book_journals books.old) key.now)) }
    ensures states { OnOk result (AtTransaction (holds_of (book_journals books.old)) (holds_of (book_journals books.new)) key.now opened) }
    ensures err { OnErr result (book_journals books.new ≡ book_journals books.old) }
    ensures places { book_places books.new ≡ book_places books.old }
    ensures storage { result ≡ Err CallError.Storage → BookFails L.failed books.old books.new key.now.origin }
    ensures only { OnlyAt (Some key.now.origin) books.old books.new }
    ensures last { BooksLast L.failed books.old books.new }
    ensures crash { BooksLeave L.is_honest L.may_leave None books.old books.new }
{
    let number = number_for(key.origin.as_str(), books.len());
    let book = &mut books[number];
    let opening = book.open(Caller::new(SOLE_CALLER), key)?;
    Ok(opening)
}

/// Ends a transaction with this reply, which is kept for good.
pub(crate) fn keep_in<L: Keeper<Row = BookRow>>(
    books: &mut [Book<L>],
    key: &TransactionKey,
    reply: Reply,
) -> Result<(), CallError>
    requires placed { ArePlaced (book_places books.old) }
    requires begun { holds_of (book_journals books.old) key.now ≡ begun SOLE_CALLER }
    ensures states { OnOk result (AtTransaction (holds_of (book_journals books.old)) (holds_of (book_journals books.new)) key.now (λ _. kept reply)) }
    ensures err { OnErr result (book_journals books.new ≡ book_journals books.old) }
    ensures places { book_places books.new ≡ book_places books.old }
    ensures storage { result ≡ Err CallError.Storage → BookFails L.failed books.old books.new key.now.origin }
    ensures only { OnlyAt (Some key.now.origin) books.old books.new }
    ensures last { BooksLast L.failed books.old books.new }
    ensures crash { BooksLeave L.is_honest L.may_leave (at_error result (Some (Kept key.now SOLE_CALLER reply))) books.old books.new }
{
    let number = number_for(key.origin.as_str(), books.len());
    let book = &mut books[number];
    book.keep(Caller::new(SOLE_CALLER), key, reply)?;
    Ok(())
}

/// Gives up a transaction that is begun: nothing is stored, and it may be begun again.
pub(crate) fn give_up_in<L: Keeper<Row = BookRow>>(books: &mut [Book<L>], key: &TransactionKey)
    requires placed { ArePlaced (book_places books.old) }
    requires begun { holds_of (book_journals books.old) key.now ≡ begun SOLE_CALLER }
    ensures states { AtTransaction (holds_of (book_journals books.old)) (holds_of (book_journals books.new)) key.now (λ _. free) }
    ensures places { book_places books.new ≡ book_places books.old }
    ensures keepers { map (λ book. book.keeper) books.new ≡ map (λ book. book.keeper) books.old }
    ensures refused { map (λ book. book.is_refused) books.new ≡ map (λ book. book.is_refused) books.old }
    ensures only { OnlyAt (Some key.now.origin) books.old books.new }
{
    let number = number_for(key.origin.as_str(), books.len());
    let book = &mut books[number];
    book.give_up(Caller::new(SOLE_CALLER), key);
}
