// The server.
ghost use Rattle.std.specs.Prelude.{◌≡◌, ◌++◌, ◌∷◌, ◌≤◌, ℕ, List, [], None, Some, length, map, get_or, All, IfErr, IfOk, IfSome, OnOk, OnErr, IsTrue};
ghost use Rattle.mx_shard.specs.LoneRoom.{to_ask, call_room};
ghost use Rattle.mx_shard.specs.Shown.{IsAnswer};
ghost use Rattle.mx_book.specs.Journal.{IsEnded};
ghost use Rattle.mx_book.specs.declared.transaction_keys.TransactionKey.{TransactionKey};
ghost use Rattle.mx_world.specs.Losses.{ids_told, not_held};
ghost use Rattle.mx_world.specs.Calls.{Start, record_after};
ghost use Rattle.mx_world.specs.Replies.{unopened, status_after, IsReply};
ghost use Rattle.mx_world.specs.Moves.{RecordsMove, StatusesMove, after_abandon};
ghost use Rattle.mx_world.specs.Worlds.{shard_journals, book_journals, records_of, statuses_of, records_in, status_in, none_open, is_refused, AtTransaction, Stays, Moves, IsAfter};
ghost use Rattle.mx_world.specs.Storage.{IsStorageFailure, ChangesOwn, OnlyAt, UnfitAt};
ghost use Rattle.mx_world.specs.Crashes.{CrashLeaves, at_error};
ghost use Rattle.mx_world.specs.Parts.{shard_places, book_places, ArePlaced, IsSoundShard, IsSoundBook, FilledAt};
ghost use Rattle.mx_shard.specs.Journal.{CanReopen};
ghost use Rattle.mx_world.specs.Reopening.{AreOver, IsReopenedShard, IsReopenedBook, CannotReopenAt, CanReopenBook, IsRefusedFor};
ghost use Rattle.mx_world.specs.Inside.{IsSound};

use crate::losses::lost_of_book;
use crate::open_errors::OpenError;
use crate::parts::{first_filled, parts_are_sound};
use crate::reopening::reopened_parts;
use crate::rooms::{ask_in, host_in, send_in};
use crate::steps::{Step, StepReply};
use crate::transacting::{abandon_in, close_in, next_in, open_in};
use crate::transactions::Transaction;
use mx_book::{Book, TransactionKey};
use mx_ident::EventId;
use mx_keeper::{BookRow, CallError, Keeper, MOST_PLACES, ShardRow};
use mx_shard::{Sending, Shard};
use std::alloc::{AllocError, Global};
use std::collections::BTreeMap;
use std::marker::Model;

/// A server of rooms on one thread, over keepers of rows.
///
/// A room is kept by the shard at the place of its id, and a transaction by the book at the place of its server's name.
#[derive(Drop)]
pub struct World<K: Keeper<Row = ShardRow>, L: Keeper<Row = BookRow>> {
    shards: Vec<Shard<K>>,
    books: Vec<Book<L>>,
    // The transactions that are open.
    going: BTreeMap<TransactionKey, Transaction>,
}

impl<K: Keeper<Row = ShardRow>, L: Keeper<Row = BookRow>> Model for World<K, L> {
    ghost use Rattle.mx_world.specs.View.{WorldView};
    ghost use Rattle.mx_world.specs.Codes.{world_code};
    ghost use Rattle.mx_world.specs.Inside.{IsSound};

    ghost Value = { WorldView K L };

    ghost coded = { world_code K.code L.code };

    ghost view = { λ world. record { shards = world.shards.items; books = world.books.items; going = world.going.entries } };

    ghost invariant = { λ world. IsSound world.shards.items world.books.items world.going.entries };
}

impl<K: Keeper<Row = ShardRow>, L: Keeper<Row = BookRow>> World<K, L> {
    /// A server that hosts no room and knows of no transaction, with a shard over each of the first keepers and a book
    /// over each of the others.
    ///
    /// `Memory` where no memory is left. `Shard` or `Book`, with the number of the keeper, where it failed, or has rows or
    /// what does not read as rows. A refused call drops the keepers.
    pub fn new(
        alloc: Global,
        shard_keepers: Vec<K>,
        book_keepers: Vec<L>,
    ) -> Result<World<K, L>, OpenError>
        requires some_shard { 1 ≤ length shard_keepers.items }
        requires few_shards { length shard_keepers.items ≤ MOST_PLACES }
        requires some_book { 1 ≤ length book_keepers.items }
        requires few_books { length book_keepers.items ≤ MOST_PLACES }
        ensures records { IfOk result (λ world. (room : List ℕ) → records_in world room ≡ []) }
        ensures statuses { IfOk result (λ world. (p : TransactionKey) → status_in world p ≡ unopened) }
        ensures none_open { IfOk result (λ world. IsTrue (none_open world)) }
        ensures shards { IfOk result (λ world. length world.shards ≡ length shard_keepers.items) }
        ensures books { IfOk result (λ world. length world.books ≡ length book_keepers.items) }

        // The keeper that is named tells why: where it is ready and honest, it has rows or what does not read as rows.
        ensures refused { IfErr result (IsRefusedFor (UnfitAt K.is_ready K.is_honest K.rows shard_keepers.items)
            (UnfitAt L.is_ready L.is_honest L.rows book_keepers.items)) }
    {
        let world = World::reopen(alloc, shard_keepers, book_keepers)?;
        match world.filled_part() {
            Some(error) => Err(error),
            None => Ok(world),
        }
    }

    /// A server over keepers that may have rows: with a shard over each of the first ones, of the rooms that its rows make,
    /// and a book over each of the others, of the replies that it has rows of. No transaction is open.
    ///
    /// Each event is judged again by those before it of its room; neither signatures, content hashes nor access control
    /// lists are asked again. `Memory` where no memory is left. `Shard` or `Book`, with the number of the keeper, where it
    /// failed, where what it has does not read as rows, or where no shard or book at its place has such rows, as with
    /// another number of keepers. A refused call drops the keepers.
    pub fn reopen(
        alloc: Global,
        shard_keepers: Vec<K>,
        book_keepers: Vec<L>,
    ) -> Result<World<K, L>, OpenError>
        requires some_shard { 1 ≤ length shard_keepers.items }
        requires few_shards { length shard_keepers.items ≤ MOST_PLACES }
        requires some_book { 1 ≤ length book_keepers.items }
        requires few_books { length book_keepers.items ≤ MOST_PLACES }
        ensures none_open { IfOk result (λ world. IsTrue (none_open world)) }
        ensures shards { IfOk result (λ world. length world.shards ≡ length shard_keepers.items) }
        ensures books { IfOk result (λ world. length world.books ≡ length book_keepers.items) }
        // The entries of each are those of the rows of its keeper.
        ensures shard_rows { IfOk result (λ world. AreOver (IsReopenedShard K.is_ready K.is_honest K.rows K.may_leave) shard_keepers.items world.shards) }
        ensures book_rows { IfOk result (λ world. AreOver (IsReopenedBook L.is_ready L.is_honest L.rows L.may_leave) book_keepers.items world.books) }
        // The keeper that is named tells why: where it is ready and honest, no shard or book at its place has its rows.
        ensures refused { IfErr result
            (IsRefusedFor (CannotReopenAt CanReopen K.is_ready K.is_honest K.rows shard_keepers.items)
            (CannotReopenAt CanReopenBook L.is_ready L.is_honest L.rows book_keepers.items)) }
    {
        let shards = reopened_parts::<Shard<K>>(alloc, shard_keepers)?;
        let books = reopened_parts::<Book<L>>(alloc, book_keepers)?;
        Ok(World::from_parts(alloc, shards, books))
    }

    /// A server of these shards and books, with no transaction open. It takes no memory.
    ///
    /// It asks for each at the place with its number, between 1 and 64 of each, and that no transaction is begun and not
    /// ended.
    pub fn from_parts(alloc: Global, shards: Vec<Shard<K>>, books: Vec<Book<L>>) -> World<K, L>
        requires shards { ArePlaced (shard_places shards.items) }
        requires books { ArePlaced (book_places books.items) }
        requires ended { All (λ book. IsEnded book.journal) books.items }
        ensures shards { result.shards ≡ shards.items }
        ensures books { result.books ≡ books.items }
        ensures none_open { IsTrue (none_open result) }
    {
        World {
            shards,
            books,
            going: BTreeMap::new(alloc),
        }
    }

    /// Its shards and its books, in the order of their places. It takes no memory.
    pub fn into_parts(self) -> (Vec<Shard<K>>, Vec<Book<L>>)
        ensures shards { result.0.items ≡ self.shards }
        ensures books { result.1.items ≡ self.books }
        // Each is at the place with its number.
        ensures shards_placed { ArePlaced (shard_places self.shards) }
        ensures books_placed { ArePlaced (book_places self.books) }
        // What always holds of each.
        ensures shards_sound { All (IsSoundShard K.is_honest K.is_open K.rows) self.shards }
        ensures books_sound { All (IsSoundBook L.is_honest L.is_open L.rows) self.books }
        // Where no transaction is open, none is begun and not ended.
        ensures ended { IsTrue (none_open self) → All (λ book. IsEnded book.journal) self.books }
    {
        parts_are_sound(&self.shards);
        parts_are_sound(&self.books);
        (self.shards, self.books)
    }

    // What always holds of its shards and its books. This is a law: it changes nothing, and hands its facts to the caller.
    pub(crate) fn soundness(&self)
        ensures shards { All (IsSoundShard K.is_honest K.is_open K.rows) self.now.shards }
        ensures books { All (IsSoundBook L.is_honest L.is_open L.rows) self.now.books }
    {
        parts_are_sound(&self.shards);
        parts_are_sound(&self.books);
    }

    /// Whether no transaction is open: each that was opened has its reply kept for good.
    pub fn none_open(&self) -> bool
        ensures { result ≡ none_open self.now }
    {
        self.going.is_empty()
    }

    /// One step. After any steps from a start its reply is the one that these steps call for.
    ///
    /// `Memory` where no memory is left. `Storage` where what keeps the rows of the step's own shard or book failed, now
    /// or before: the shard of the event's room, or of the room that a query names, the book of the transaction's server,
    /// or, for a query by an event's id alone, some shard, where no other one shows the event. A step that is refused
    /// changes no journal, and so no room's record, and no transaction's status.
    pub fn step(&mut self, alloc: Global, step: &Step) -> Result<StepReply, CallError>
        ensures next { IfOk result (λ reply. (s : Start) (earlier : List Step) → IsAfter s earlier self.old →
            IsReply (record_after s earlier) (status_after s earlier) step.now reply × IsAfter s (earlier ++ step.now ∷ []) self.new) }
        ensures err { OnErr result (Stays self.old self.new) }
        // Its own shard or book is refused, and was before, or its keeper's count of failures rose in this step. For a query
        // by an event's id alone it is any shard, and no other one shows the event.
        ensures storage { result ≡ Err CallError.Storage → IsStorageFailure K.failed L.failed (status_in self.old) self.old self.new step.now }
        ensures refused { result ≡ Err CallError.Storage → IsTrue (is_refused self.new) }
        // It changes no other, and what is refused stays so.
        ensures own { ChangesOwn K.failed L.failed (status_in self.old) self.old self.new step.now }
        // A crash leaves the rows of each journal, or, of what no row came to, what it might have left before. Of the shard
        // or the book of a step that is refused it may also leave the rows with the one that the step tried to add.
        ensures crash { CrashLeaves K.is_honest K.may_leave L.is_honest L.may_leave (status_in self.old) (at_error result (Some step.now)) self.old self.new }
    {
        self.advance(alloc, step)
    }

    /// Gives up a transaction that is open, as where a step of it was refused, and changes nothing where it is not open.
    ///
    /// What its events made of their rooms stays. No reply of it is kept, so that it may be opened again. It is no step,
    /// takes no memory, and is never refused.
    pub fn abandon(&mut self, key: &TransactionKey)
        ensures statuses { AtTransaction (status_in self.old) (status_in self.new) key.now after_abandon }
        ensures shards { self.new.shards ≡ self.old.shards }
        // Nothing is stored, and no other book changes.
        ensures keepers { map (λ book. book.keeper) self.new.books ≡ map (λ book. book.keeper) self.old.books }
        ensures refused { map (λ book. book.is_refused) self.new.books ≡ map (λ book. book.is_refused) self.old.books }
        ensures only { OnlyAt (Some key.now.origin) self.old.books self.new.books }
    {
        abandon_in(&mut self.books, &mut self.going, key);
    }

    /// The events that the kept replies of the book with this number call kept and that no shard has: their ids, in the
    /// order of the replies, and of each reply in that of its text, so that an id stands once for each reply that names
    /// it. Of a book that there is not, there are none.
    ///
    /// A reply calls an event kept where it tells no error of it, or that it was rejected. There are none while all that
    /// was answered is there; where a file lost rows that were answered, those who sent the events do not send them
    /// again. `AllocError` where no memory is left. Each reply is read, and each event looked up in each shard.
    ///
    /// Source: the Matrix specification, Server-Server API, "Transactions", "PDU Processing Result".
    pub fn lost_events(&self, alloc: Global, book: usize) -> Result<Vec<EventId>, AllocError>
        ensures { IfOk result (λ lost. lost.items ≡ not_held (shard_journals self.now.shards) (ids_told (get_or (book_journals self.now.books) book []))) }
    {
        lost_of_book(alloc, &self.shards, &self.books, book)
    }

    // Which shard has an entry, or which book, if one has: the first one.
    fn filled_part(&self) -> Option<OpenError>
        ensures shards { result ≡ None → All (λ shard. shard.journal ≡ []) self.now.shards }
        ensures books { result ≡ None → All (λ book. book.journal ≡ []) self.now.books }
        ensures filled { IfSome result (IsRefusedFor (FilledAt (λ shard. shard.journal ≡ []) self.now.shards)
            (FilledAt (λ book. book.journal ≡ []) self.now.books)) }
    {
        match first_filled(&self.shards) {
            Some(number) => Some(OpenError::Shard(number)),
            None => match first_filled(&self.books) {
                Some(number) => Some(OpenError::Book(number)),
                None => None,
            },
        }
    }

    // One step, told by what is kept.
    fn advance(&mut self, alloc: Global, step: &Step) -> Result<StepReply, CallError>
        ensures reply { IfOk result (IsReply (records_in self.old) (status_in self.old) step.now) }
        ensures moves { OnOk result (Moves self.old self.new step.now) }
        ensures err { OnErr result (Stays self.old self.new) }
        ensures storage { result ≡ Err CallError.Storage → IsStorageFailure K.failed L.failed (status_in self.old) self.old self.new step.now }
        ensures refused { result ≡ Err CallError.Storage → IsTrue (is_refused self.new) }
        ensures own { ChangesOwn K.failed L.failed (status_in self.old) self.old self.new step.now }
        ensures crash { CrashLeaves K.is_honest K.may_leave L.is_honest L.may_leave (status_in self.old) (at_error result (Some step.now)) self.old self.new }
    {
        step_in(
            alloc,
            &mut self.shards,
            &mut self.books,
            &mut self.going,
            step,
        )
    }
}

fn step_in<K: Keeper<Row = ShardRow>, L: Keeper<Row = BookRow>>(
    alloc: Global,
    shards: &mut [Shard<K>],
    books: &mut [Book<L>],
    going: &mut BTreeMap<TransactionKey, Transaction>,
    step: &Step,
) -> Result<StepReply, CallError>
    requires { IsSound shards.old books.old going.old.entries }
    ensures reply { IfOk result (IsReply (records_of (shard_journals shards.old)) (statuses_of going.old.entries (book_journals books.old)) step.now) }
    ensures records { OnOk result (RecordsMove (records_of (shard_journals shards.old)) (records_of (shard_journals shards.new)) (statuses_of going.old.entries (book_journals books.old)) step.now) }
    ensures statuses { OnOk result (StatusesMove (records_of (shard_journals shards.old)) (statuses_of going.old.entries (book_journals books.old)) (statuses_of going.new.entries (book_journals books.new)) step.now) }
    ensures err_shards { OnErr result (shard_journals shards.new ≡ shard_journals shards.old) }
    ensures err_books { OnErr result (book_journals books.new ≡ book_journals books.old) }
    ensures err_statuses { OnErr result ((p : TransactionKey) → statuses_of going.new.entries (book_journals books.new) p ≡ statuses_of going.old.entries (book_journals books.old) p) }
    ensures sound { IsSound shards.new books.new going.new.entries }
    ensures storage { result ≡ Err CallError.Storage → IsStorageFailure K.failed L.failed (statuses_of going.old.entries (book_journals books.old))
        (record { shards = shards.old; books = books.old; going = going.old.entries }) (record { shards = shards.new; books = books.new; going = going.new.entries }) step.now }
    ensures own { ChangesOwn K.failed L.failed (statuses_of going.old.entries (book_journals books.old))
        (record { shards = shards.old; books = books.old; going = going.old.entries }) (record { shards = shards.new; books = books.new; going = going.new.entries }) step.now }
    ensures crash { CrashLeaves K.is_honest K.may_leave L.is_honest L.may_leave (statuses_of going.old.entries (book_journals books.old)) (at_error result (Some step.now))
        (record { shards = shards.old; books = books.old; going = going.old.entries }) (record { shards = shards.new; books = books.new; going = going.new.entries }) }
{
    match step {
        Step::Host(offered) => {
            let answer = host_in(shards, offered)?;
            Ok(StepReply::OfRoom(answer))
        }
        Step::Open(key, events) => open_in(alloc, books, going, key, events),
        Step::Next(key) => next_in(shards, going, key),
        Step::Close(key) => close_in(alloc, books, going, key),
        Step::Join { origin, event } => {
            let answer = send_in(shards, Sending::Join, origin, event)?;
            Ok(StepReply::OfRoom(answer))
        }
        Step::Ask { origin, now, query } => {
            let answer = ask_in(shards, origin, *now, query)?;
            Ok(StepReply::OfRoom(answer))
        }
    }
}
