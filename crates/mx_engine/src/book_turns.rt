// Turns of books, each between a take and a put.
ghost use Rattle.std.specs.Prelude.{◌≡◌, ◌++◌, ◌∷◌, [], IfOk, OnOk, OnErr, IsTrue};
ghost use Rattle.mx_dock.specs.Dock.{own};
ghost use Rattle.mx_keeper.specs.Places.{is_at};
ghost use Rattle.mx_book.specs.Journal.{hold_of, begun as begun_by, stored};
ghost use Rattle.mx_book.specs.declared.entries.BookEntry.TheVariants.{Kept, GivenUp};
ghost use Rattle.mx_engine.specs.Berths.{IsBerthAt, views_of};
ghost use Rattle.mx_engine.specs.BookTurns.{HasBegun, IsOpened, IsOpenedIn, IsEndedBy};
ghost use Rattle.mx_engine.specs.Turns.{AreAtBooks, StayAtBooks, HasBegunWith, IsEndedWith, kept_by, given_up_by};
ghost use Rattle.mx_engine.specs.Crashes.{IsBookExit, LeavesOnly};

use crate::docked::{DockedBook, PaddedDock};
use crate::taking::take_at;
use mx_book::{Book, Opening, TransactionKey};
use mx_dock::{Berth, Dock};
use mx_keeper::{BookRow, CallError, Caller, Keeper, Place, Reply};
use std::sync::Wait;

/// What a caller begins and ends a transaction with, at its book.
#[derive(Drop)]
pub(crate) struct BookTurns<'a, R, L: Keeper<Row = BookRow>> {
    pub rt: &'a R,
    pub docks: &'a [PaddedDock<DockedBook<L>>],
    pub caller: Caller,
    pub key: &'a TransactionKey,
}

// ---- at all books

impl<R: Wait, L: Keeper<Row = BookRow>> BookTurns<'_, R, L> {
    /// Begins the transaction, unless it is begun and not ended or its reply is kept.
    pub(crate) fn begin_transaction(
        &self,
        berths: &mut Vec<Berth<DockedBook<L>>>,
    ) -> Result<Opening, CallError>
        requires { AreAtBooks self.now berths.old.items }
        ensures berths { StayAtBooks self.now berths.old.items berths.new.items }
        ensures opened { IsOpenedIn self.now.caller self.now.key.now (views_of berths.old.items)
            (views_of berths.new.items) result }
        ensures begun { IfOk result (λ opening. opening ≡ Opening.Fresh → HasBegunWith self.now berths.new.items) }
    {
        let place = Place::of(self.key.origin.as_str(), self.docks.len());
        let number = place.number();
        let berth = &mut berths[number];
        self.begin_at(place, &self.docks[number], berth)
    }

    /// Ends the transaction, which this caller has begun, with this reply, which is kept for good; where that is refused it
    /// is given up.
    pub(crate) fn keep_reply(
        &self,
        berths: &mut Vec<Berth<DockedBook<L>>>,
        reply: Reply,
    ) -> Result<(), CallError>
        requires seated { AreAtBooks self.now berths.old.items }
        requires begun { HasBegunWith self.now berths.old.items }
        ensures berths { StayAtBooks self.now berths.old.items berths.new.items }
        ensures kept { OnOk result (IsEndedWith self.now (kept_by self.now reply) berths.old.items berths.new.items) }
        ensures given_up { OnErr result (IsEndedWith self.now (given_up_by self.now) berths.old.items berths.new.items) }
    {
        let place = Place::of(self.key.origin.as_str(), self.docks.len());
        let number = place.number();
        let berth = &mut berths[number];
        self.keep_at(place, &self.docks[number], berth, reply)
    }

    /// Gives up the transaction, which this caller has begun.
    pub(crate) fn give_up_transaction(&self, berths: &mut Vec<Berth<DockedBook<L>>>)
        requires seated { AreAtBooks self.now berths.old.items }
        requires begun { HasBegunWith self.now berths.old.items }
        ensures berths { StayAtBooks self.now berths.old.items berths.new.items }
        ensures ended { IsEndedWith self.now (given_up_by self.now) berths.old.items berths.new.items }
    {
        let place = Place::of(self.key.origin.as_str(), self.docks.len());
        let number = place.number();
        let berth = &mut berths[number];
        self.give_up_at(place, &self.docks[number], berth);
    }
}

// ---- at one book

impl<R: Wait, L: Keeper<Row = BookRow>> BookTurns<'_, R, L> {
    // Begins the transaction, unless it is begun and not ended or its reply is kept.
    fn begin_at(
        &self,
        place: Place,
        dock: &Dock<DockedBook<L>>,
        berth: &mut Berth<DockedBook<L>>,
    ) -> Result<Opening, CallError>
        requires berth { IsBerthAt place dock.now self.now.caller berth.old }
        requires here { IsTrue (is_at place self.now.key.now.origin) }
        ensures berth { IsBerthAt place dock.now self.now.caller berth.new }
        ensures opened { IsOpened self.now.caller self.now.key.now (own berth.old) (own berth.new) result }
    {
        let mut docked = take_at(self.rt, place, dock, berth);
        let result = docked.book.open(self.caller, self.key);
        dock.put(self.rt, berth, docked);
        result
    }

    // Ends the transaction, which this caller has begun, with this reply, which is kept for good; where that is refused it
    // is given up.
    fn keep_at(
        &self,
        place: Place,
        dock: &Dock<DockedBook<L>>,
        berth: &mut Berth<DockedBook<L>>,
        reply: Reply,
    ) -> Result<(), CallError>
        requires berth { IsBerthAt place dock.now self.now.caller berth.old }
        requires begun { HasBegun self.now.caller self.now.key.now (own berth.old) }
        ensures berth { IsBerthAt place dock.now self.now.caller berth.new }
        ensures kept { OnOk result
            (IsEndedBy self.now.caller self.now.key.now (kept_by self.now reply) (own berth.old) (own berth.new)) }
        ensures given_up { OnErr result
            (IsEndedBy self.now.caller self.now.key.now (given_up_by self.now) (own berth.old) (own berth.new)) }
    {
        let mut docked = take_at(self.rt, place, dock, berth);
        let result = keep_or_give_up(&mut docked.book, self.caller, self.key, reply);
        dock.put(self.rt, berth, docked);
        result
    }

    // Gives up the transaction, which this caller has begun.
    fn give_up_at(&self, place: Place, dock: &Dock<DockedBook<L>>, berth: &mut Berth<DockedBook<L>>)
        requires berth { IsBerthAt place dock.now self.now.caller berth.old }
        requires begun { HasBegun self.now.caller self.now.key.now (own berth.old) }
        ensures berth { IsBerthAt place dock.now self.now.caller berth.new }
        ensures ended { IsEndedBy self.now.caller self.now.key.now (given_up_by self.now) (own berth.old) (own berth.new) }
    {
        let mut docked = take_at(self.rt, place, dock, berth);
        docked.book.give_up(self.caller, self.key);
        dock.put(self.rt, berth, docked);
    }
}

// Keeps the reply of the transaction; where that is refused the transaction is given up.
fn keep_or_give_up<L: Keeper<Row = BookRow>>(
    book: &mut Book<L>,
    caller: Caller,
    key: &TransactionKey,
    reply: Reply,
) -> Result<(), CallError>
    requires { hold_of book.old.journal key.now ≡ begun_by caller }
    ensures kept { OnOk result (book.new.journal ≡ book.old.journal ++ Kept key.now caller reply ∷ []) }
    ensures given_up { OnErr result (book.new.journal ≡ book.old.journal ++ GivenUp key.now caller ∷ []) }
    ensures place { book.new.place ≡ book.old.place }
    // At each exit a crash leaves what it might have left before the call, or the rows with this reply's; after `Ok` the rows
    // of the journal.
    ensures crash { IsBookExit L.is_honest L.may_leave book.old book.new }
    ensures durable { OnOk result (LeavesOnly L.is_honest L.may_leave book.new.keeper (stored book.new.journal)) }
{
    let result = book.keep(caller, key, reply);
    if result.is_err() {
        book.give_up(caller, key);
    }
    result
}
