// The server.
ghost use Rattle.std.specs.Prelude.{◌≡◌, ◌+◌, ◌<◌, ◌≤◌, ◌⊎◌, ℕ, List, [], ◌∷◌, All, IfErr, IfOk, IfSome, OnErr, IsTrue, is_some, length, get_or, map, nat_lt};
ghost use Rattle.std.specs.Fn.{FnOnceReturnsAt};
ghost use Rattle.mx_dock.specs.Journal.{IsPrefix};
ghost use Rattle.mx_pdu.specs.Event.{room_of};
ghost use Rattle.mx_room.specs.Queries.{room_named};
ghost use Rattle.mx_shard.specs.LoneRoom.{to_host, to_join, to_ask};
ghost use Rattle.mx_shard.specs.Journal.{IsLegal};
ghost use Rattle.mx_book.specs.Journal.{is_legal};
ghost use Rattle.mx_world.specs.Worlds.{shard_journals, book_journals, none_open};
ghost use Rattle.mx_engine.specs.Places.{book_caller};
ghost use Rattle.mx_engine.specs.Views.{view_at, AddsNothing, AreSameViews};
ghost use Rattle.mx_world.specs.Offers.{offer_by};
ghost use Rattle.mx_engine.specs.Calls.{IsAnswered, IsAsked, IsRead};
ghost use Rattle.mx_engine.specs.Transactions.{IsReplied, IsRefused};
ghost use Rattle.mx_engine.specs.Seats.{AreAllSeats, BeginsWithFirstSeat, HasFirstSeat, IsSeatOf, seat_number, seats_made, shard_views, book_views, verifier_of};
ghost use Rattle.mx_engine.specs.Closing.{IsNew, IsWhole, known_at};

use crate::calls::{Question, ShardCall, ShardTurns};
use crate::closing::{close_all, first_among};
use crate::docked::{DockedBook, DockedShard, PaddedDock};
use crate::gates::Gate;
use crate::meeting::meet_each;
use crate::offers::offers_of;
use crate::opening::{first_seat, open_docks, seats_with};
use crate::reading::read_in;
use crate::replies::TransactionReply;
use crate::seats::Seat;
use crate::transactions::Docks;
use mx_book::TransactionKey;
use mx_ident::ServerName;
use mx_keeper::{BookRow, CallError, Keeper, ShardRow};
use mx_pdu::{Offered, Pdu, Verifier};
use mx_room::{Moment, Query, Room};
use mx_shard::{Answer, Sending};
use mx_world::World;
use std::alloc::{AllocError, Global};
use std::sync::Wait;
use std::thread::Threads;

/// The most seats of an engine.
pub const MOST_SEATS: u32 = 64;

/// A server of rooms over keepers of rows that callers in threads of their own share, each with a seat of its own.
///
/// Each shard and each book lies in a dock: a call takes the one that it needs, and puts it back. So calls in different
/// shards do not wait for each other. A call waits until what it needs is in its dock. Its clauses say what holds when it
/// returns; nothing says that it does, nor in which order waiting callers come to their turn.
#[derive(Drop)]
pub struct Engine<K: Keeper<Row = ShardRow>, L: Keeper<Row = BookRow>, V, G> {
    shards: Vec<PaddedDock<DockedShard<K>>>,
    books: Vec<PaddedDock<DockedBook<L>>>,
    verifier: V,
    pub(crate) gate: G,
    seats: u32,
}

impl<
    K: Keeper<Row = ShardRow>,
    L: Keeper<Row = BookRow>,
    V: Verifier + Drop,
    G: Gate + Drop,
> Engine<K, L, V, G> {
    /// An engine over the shards and the books of a server, and its seats, which have the numbers from 1 and have seen
    /// the journals that it begins with.
    ///
    /// It asks for a server with no transaction open, and for 1 to 64 seats. No memory left is the one error; then the
    /// server is dropped.
    pub fn open<R: Wait>(
        rt: &R,
        alloc: Global,
        world: World<K, L>,
        verifier: V,
        gate: G,
        seats: u32,
    ) -> Result<(Engine<K, L, V, G>, Vec<Seat<K, L>>), AllocError>
        requires idle { IsTrue (none_open world) }
        requires some { 1 ≤ seats }
        requires few { seats ≤ MOST_SEATS }
        ensures mine { IfOk result (λ made. All (IsSeatOf made.0) made.1.items) }
        ensures count { IfOk result (λ made. seats_made made.0 ≡ seats) }
        ensures length { IfOk result (λ made. length made.1.items ≡ seats) }
        ensures first { IfOk result (λ made. BeginsWithFirstSeat made.1.items) }
        ensures all { IfOk result (λ made. AreAllSeats made.0 made.1.items) }
        ensures numbers { IfOk result
            (λ made. (n : ℕ) (d : Seat K L) → n < seats → seat_number (get_or made.1.items n d) ≡ n + 1) }
        ensures shards { IfOk result
            (λ made. All (λ seat. IsNew (shard_journals world.shards) (shard_views seat)) made.1.items) }
        ensures books { IfOk result
            (λ made. All (λ seat. IsNew (book_journals world.books) (book_views seat)) made.1.items) }
        ensures verifier { IfOk result (λ made. verifier_of made.0 ≡ verifier) }
    {
        let (shards, books) = world.into_parts();
        let (shards, shard_berths) = open_docks::<R, DockedShard<K>>(rt, alloc, shards)?;
        let (books, book_berths) = open_docks::<R, DockedBook<L>>(rt, alloc, books)?;
        let first = first_seat(alloc, shard_berths, book_berths)?;
        let all = seats_with(alloc, &shards, &books, first, seats)?;
        let engine = Engine {
            shards,
            books,
            verifier,
            gate,
            seats,
        };
        Ok((engine, all))
    }

    /// What judges the signatures of the events that the engine is given.
    pub fn verifier(&self) -> &V
        ensures { result.now ≡ verifier_of self.now }
    {
        &self.verifier
    }

    /// Hosts the room of the event, where it is not hosted and the event makes one.
    ///
    /// `Memory` where no memory is left, `Storage` where what keeps the rows of the room's shard failed, now or before.
    /// A refused call adds nothing. The verifier is asked before the shard is taken.
    pub fn host<R: Wait>(
        &self,
        rt: &R,
        alloc: Global,
        seat: &mut Seat<K, L>,
        event: Pdu,
    ) -> Result<Answer, CallError>
        requires seat { IsSeatOf self.now seat.old }
        ensures seat { IsSeatOf self.now seat.new }
        ensures number { seat_number seat.new ≡ seat_number seat.old }
        ensures same { AreSameViews (shard_views seat.old) (shard_views seat.new) }
        ensures ok { IfOk result
            (IsAnswered (seat_number seat.old) (to_host (offer_by (V.judges (verifier_of self.now)) event)) (room_of event)
            (shard_views seat.old) (shard_views seat.new)) }
        ensures err { OnErr result (AddsNothing (shard_views seat.old) (shard_views seat.new)) }
        ensures books { book_views seat.new ≡ book_views seat.old }
    {
        let offered = Offered::of(alloc, event, &self.verifier)?;
        let turns = ShardTurns {
            rt,
            gate: &self.gate,
            docks: &self.shards,
            caller: seat.number,
        };
        let room = offered.pdu.room_id();
        let call = ShardCall::Host(&offered);
        turns.call_in(&mut seat.shards, room, &call)
    }

    /// Sends the join of a user of a server to its room, which keeps it where it can, and answers what that server is to
    /// have of the room.
    ///
    /// Its errors are as of [`host`](Engine::host). Source: the Matrix specification, Server-Server API, "Joining Rooms".
    pub fn join<R: Wait>(
        &self,
        rt: &R,
        alloc: Global,
        seat: &mut Seat<K, L>,
        origin: &ServerName,
        event: Pdu,
    ) -> Result<Answer, CallError>
        requires seat { IsSeatOf self.now seat.old }
        ensures seat { IsSeatOf self.now seat.new }
        ensures number { seat_number seat.new ≡ seat_number seat.old }
        ensures same { AreSameViews (shard_views seat.old) (shard_views seat.new) }
        ensures ok { IfOk result
            (IsAnswered (seat_number seat.old) (to_join origin.now (offer_by (V.judges (verifier_of self.now)) event))
            (room_of event)
            (shard_views seat.old) (shard_views seat.new)) }
        ensures err { OnErr result (AddsNothing (shard_views seat.old) (shard_views seat.new)) }
        ensures books { book_views seat.new ≡ book_views seat.old }
    {
        let offered = Offered::of(alloc, event, &self.verifier)?;
        self.join_offered(rt, seat, origin, &offered)
    }

    /// Sends the join of a user of a server, as of [`join`](Engine::join), by the event as it is offered to its room.
    ///
    /// Source: the Matrix specification, Server-Server API, "Joining Rooms".
    pub fn join_offered<R: Wait>(
        &self,
        rt: &R,
        seat: &mut Seat<K, L>,
        origin: &ServerName,
        event: &Offered,
    ) -> Result<Answer, CallError>
        requires seat { IsSeatOf self.now seat.old }
        ensures seat { IsSeatOf self.now seat.new }
        ensures number { seat_number seat.new ≡ seat_number seat.old }
        ensures same { AreSameViews (shard_views seat.old) (shard_views seat.new) }
        ensures ok { IfOk result (IsAnswered (seat_number seat.old) (to_join origin.now event.now) (room_of event.now.pdu)
            (shard_views seat.old) (shard_views seat.new)) }
        ensures err { OnErr result (AddsNothing (shard_views seat.old) (shard_views seat.new)) }
        ensures books { book_views seat.new ≡ book_views seat.old }
    {
        let turns = ShardTurns {
            rt,
            gate: &self.gate,
            docks: &self.shards,
            caller: seat.number,
        };
        let room = event.pdu.room_id();
        let call = ShardCall::Send(Sending::Join, origin, event);
        turns.call_in(&mut seat.shards, room, &call)
    }

    /// The answer to a server's query, at a moment: that of the room which it names, or, of a query by an event's id
    /// alone, what some room shows. Such a query is put to the shards in turn, until one shows it.
    ///
    /// Its errors are as of [`host`](Engine::host), of the shard of the room that is named, else of the shards that are
    /// asked. A query by an event's id goes on behind a shard that is refused for storage, and is answered so only where
    /// no other one shows it.
    ///
    /// Source: the Matrix specification, Server-Server API, "Retrieving events" and "Backfilling and retrieving missing
    /// events".
    pub fn ask<R: Wait>(
        &self,
        rt: &R,
        seat: &mut Seat<K, L>,
        origin: &ServerName,
        now: Moment,
        query: &Query,
    ) -> Result<Answer, CallError>
        requires seat { IsSeatOf self.now seat.old }
        ensures seat { IsSeatOf self.now seat.new }
        ensures number { seat_number seat.new ≡ seat_number seat.old }
        ensures same { AreSameViews (shard_views seat.old) (shard_views seat.new) }
        ensures ok { IfOk result (IsAsked (seat_number seat.old) (to_ask origin.now now query.now) (room_named query.now)
            (shard_views seat.old) (shard_views seat.new)) }
        ensures nothing { AddsNothing (shard_views seat.old) (shard_views seat.new) }
        ensures books { book_views seat.new ≡ book_views seat.old }
    {
        let turns = ShardTurns {
            rt,
            gate: &self.gate,
            docks: &self.shards,
            caller: seat.number,
        };
        let question = Question {
            origin,
            moment: now,
            query,
        };
        match query.room() {
            Some(room) => turns.call_in(&mut seat.shards, room, &ShardCall::Ask(&question)),
            None => turns.ask_each(&mut seat.shards, &question),
        }
    }

    /// What is read of the rooms of the shard with this number, from 0; none where there is no such shard. Nothing is added.
    ///
    /// It waits until the shard is in its dock, and other callers of the shard wait until it is read.
    pub fn read_rooms<R: Wait, A, F: FnOnce(&[Room]) -> A + Drop>(
        &self,
        rt: &R,
        seat: &mut Seat<K, L>,
        shard: usize,
        read: F,
    ) -> Option<A>
        requires seat { IsSeatOf self.now seat.old }
        requires callable { F.IsAlwaysCallable read }
        ensures seat { IsSeatOf self.now seat.new }
        ensures number { seat_number seat.new ≡ seat_number seat.old }
        ensures nothing { AddsNothing (shard_views seat.old) (shard_views seat.new) }
        ensures read { IfSome result (IsRead (FnOnceReturnsAt F.FnOnce read) (shard_views seat.new) shard) }
        ensures there { is_some result ≡ nat_lt shard (length (shard_views seat.old)) }
        ensures books { book_views seat.new ≡ book_views seat.old }
    {
        read_in(rt, &self.shards, &mut seat.shards, shard, read)
    }

    /// The first caller has then seen all that both had seen, of each shard and of each book. Nothing is added, and what
    /// the second one has seen stays.
    pub fn meet<R: Wait>(&self, rt: &R, first: &mut Seat<K, L>, second: &mut Seat<K, L>)
        requires first { IsSeatOf self.now first.old }
        requires second { IsSeatOf self.now second.old }
        ensures first { IsSeatOf self.now first.new }
        ensures first_number { seat_number first.new ≡ seat_number first.old }
        ensures first_shards { AddsNothing (shard_views first.old) (shard_views first.new) }
        ensures first_books { AddsNothing (book_views first.old) (book_views first.new) }
        ensures shards_told { (n : ℕ)
            → IsPrefix (view_at (shard_views second.old) n).seen (view_at (shard_views first.new) n).seen }
        ensures books_told { (n : ℕ)
            → IsPrefix (view_at (book_views second.old) n).seen (view_at (book_views first.new) n).seen }
        ensures second { IsSeatOf self.now second.new }
        ensures second_number { seat_number second.new ≡ seat_number second.old }
        ensures second_shards { shard_views second.new ≡ shard_views second.old }
        ensures second_books { book_views second.new ≡ book_views second.old }
    {
        meet_each(rt, &self.shards, &mut first.shards, &mut second.shards);
        meet_each(rt, &self.books, &mut first.books, &mut second.books);
    }

    /// A server on one thread, of the shards and the books, once all seats are given back.
    ///
    /// Each journal is the one at the opening, and then entries that each have the number of a seat. The entries of a
    /// number are those that its seat added, each once and in their order, and what each seat has seen is a beginning of
    /// the journal. No transaction is open. It asks for all seats, in any order: that is how no entry can be missed. It
    /// takes no memory. It waits until all shards and books are in.
    pub fn close<R: Wait>(self, rt: &R, alloc: Global, seats: Vec<Seat<K, L>>) -> World<K, L>
        requires mine { All (IsSeatOf self) seats.items }
        requires first { HasFirstSeat seats.items }
        requires all { AreAllSeats self seats.items }
        ensures none_open { IsTrue (none_open result) }
        // There are as many shards and books as each seat knows of.
        ensures counts { All (λ seat. (length (shard_views seat) ≡ length result.shards)
            × (length (book_views seat) ≡ length result.books)) seats.items }
        ensures shards { (n : ℕ) → n < length result.shards
            → IsWhole (λ e. e.caller) (view_at (get_or (map shard_views seats.items) 0 []) n).opening
            (known_at (map shard_views seats.items) n) (get_or (shard_journals result.shards) n []) }
        ensures books { (n : ℕ) → n < length result.books
            → IsWhole book_caller (view_at (get_or (map book_views seats.items) 0 []) n).opening
            (known_at (map book_views seats.items) n) (get_or (book_journals result.books) n []) }
        ensures legal_shards { All (λ shard. IsLegal shard.journal) result.shards }
        ensures legal_books { All (λ book. IsTrue (is_legal book.journal)) result.books }
    {
        let mut others = seats;
        let place = first_among(&others);
        let first = others.remove(place);
        let Engine { shards, books, .. } = self;
        let (shards, books) = close_all(rt, shards, books, first, others);
        World::from_parts(alloc, shards, books)
    }
}

impl<
    K: Keeper<Row = ShardRow> + Send,
    L: Keeper<Row = BookRow>,
    V: Verifier + Drop,
    G: Gate + Sync + Drop,
> Engine<K, L, V, G> {
    /// The reply to a transaction of a server, with these events.
    ///
    /// Where its reply is kept that is the answer, and no shard is asked; where it is begun and not ended the answer is
    /// `Busy`. Else it is begun, each event is offered once to its room, in their order, and the reply that they call for
    /// is kept and answered. `Memory` where no memory is left, `Storage` where what keeps rows of a shard or of the book
    /// failed, now or before. Then what was begun is given up, and events that were kept stay. A shard stops at its first
    /// fault, and the others go on; of several faults the answer is that of the event at the lowest place in the list. The
    /// verifier is asked before anything is taken.
    ///
    /// Source: the Matrix specification, Server-Server API, "Transactions".
    pub fn transaction<R: Threads + Wait + Sync>(
        &self,
        rt: &R,
        alloc: Global,
        seat: &mut Seat<K, L>,
        key: &TransactionKey,
        events: Vec<Pdu>,
    ) -> Result<TransactionReply, CallError>
        requires seat { IsSeatOf self.now seat.old }
        ensures seat { IsSeatOf self.now seat.new }
        ensures number { seat_number seat.new ≡ seat_number seat.old }
        ensures same_shards { AreSameViews (shard_views seat.old) (shard_views seat.new) }
        ensures same_books { AreSameViews (book_views seat.old) (book_views seat.new) }
        ensures ok { IfOk result
            (IsReplied (seat_number seat.old) key.now (map (offer_by (V.judges (verifier_of self.now))) events.items)
            (shard_views seat.old) (book_views seat.old) (shard_views seat.new) (book_views seat.new)) }
        ensures err { IfErr result
            (IsRefused (seat_number seat.old) key.now (map (offer_by (V.judges (verifier_of self.now))) events.items)
            (shard_views seat.old) (book_views seat.old) (shard_views seat.new) (book_views seat.new)) }
    {
        let offers = offers_of(alloc, events, &self.verifier)?;
        self.transaction_offered(rt, alloc, seat, key, &offers)
    }

    /// The reply to a transaction of a server, as of [`transaction`](Engine::transaction), with these events as they are
    /// offered to their rooms.
    ///
    /// Source: the Matrix specification, Server-Server API, "Transactions".
    pub fn transaction_offered<R: Threads + Wait + Sync>(
        &self,
        rt: &R,
        alloc: Global,
        seat: &mut Seat<K, L>,
        key: &TransactionKey,
        events: &[Offered],
    ) -> Result<TransactionReply, CallError>
        requires seat { IsSeatOf self.now seat.old }
        ensures seat { IsSeatOf self.now seat.new }
        ensures number { seat_number seat.new ≡ seat_number seat.old }
        ensures same_shards { AreSameViews (shard_views seat.old) (shard_views seat.new) }
        ensures same_books { AreSameViews (book_views seat.old) (book_views seat.new) }
        ensures ok { IfOk result (IsReplied (seat_number seat.old) key.now events.now
            (shard_views seat.old) (book_views seat.old) (shard_views seat.new) (book_views seat.new)) }
        ensures err { IfErr result (IsRefused (seat_number seat.old) key.now events.now
            (shard_views seat.old) (book_views seat.old) (shard_views seat.new) (book_views seat.new)) }
    {
        let docks = Docks {
            rt,
            gate: &self.gate,
            shards: &self.shards,
            books: &self.books,
        };
        docks.transact(alloc, seat, key, events)
    }
}
