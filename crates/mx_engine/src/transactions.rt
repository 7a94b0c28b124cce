// Transactions, each at its book and, with its events, at their shards.
ghost use Rattle.std.specs.Prelude.{◌≡◌, List, IfErr, IfOk};
ghost use Rattle.mx_book.specs.declared.entries.BookEntry.TheVariants.{Kept as KeptEntry, GivenUp};
ghost use Rattle.mx_world.specs.Replies.{body_of};
ghost use Rattle.mx_world.specs.declared.answers.Told.{Told as ToldOf};
ghost use Rattle.mx_engine.specs.BookTurns.{HasBegunIn, IsEndedIn};
ghost use Rattle.mx_engine.specs.Transactions.{AreOffered, IsAborted, IsReplied, IsRefused};
ghost use Rattle.mx_engine.specs.Seats.{shard_views, book_views};
ghost use Rattle.mx_engine.specs.Turns.{IsSeatAt, IsSeatAfter, HasEndedEach};

use crate::book_turns::BookTurns;
use crate::calls::ShardTurns;
use crate::docked::{DockedBook, DockedShard, PaddedDock};
use crate::gates::Gate;
use crate::offering::Offering;
use crate::replies::TransactionReply;
use crate::seats::Seat;
use mx_book::{Opening, TransactionKey};
use mx_keeper::{BookRow, CallError, Keeper, ShardRow};
use mx_pdu::Offered;
use std::alloc::Global;
use std::sync::Wait;
use std::thread::Threads;

/// The docks of an engine, with its gate and what may wait at them.
#[derive(Drop)]
pub(crate) struct Docks<'a, R, K: Keeper<Row = ShardRow>, L: Keeper<Row = BookRow>, G> {
    pub rt: &'a R,
    pub gate: &'a G,
    pub shards: &'a [PaddedDock<DockedShard<K>>],
    pub books: &'a [PaddedDock<DockedBook<L>>],
}

impl<
    R: Threads + Wait + Sync,
    K: Keeper<Row = ShardRow> + Send,
    L: Keeper<Row = BookRow>,
    G: Gate + Sync,
> Docks<'_, R, K, L, G> {
    /// The reply to a transaction with these events.
    pub(crate) fn transact(
        &self,
        alloc: Global,
        seat: &mut Seat<K, L>,
        key: &TransactionKey,
        events: &[Offered],
    ) -> Result<TransactionReply, CallError>
        requires seat { IsSeatAt self.now seat.old }
        requires ended { HasEndedEach seat.old }
        ensures seat { IsSeatAfter self.now seat.old seat.new }
        ensures ended { HasEndedEach seat.new }
        ensures ok { IfOk result (IsReplied seat.old.number key.now events.now
            (shard_views seat.old) (book_views seat.old) (shard_views seat.new) (book_views seat.new)) }
        ensures err { IfErr result (IsRefused seat.old.number key.now events.now
            (shard_views seat.old) (book_views seat.old) (shard_views seat.new) (book_views seat.new)) }
    {
        let turns = BookTurns {
            rt: self.rt,
            docks: self.books,
            caller: seat.number,
            key,
        };
        let opening = turns.begin_transaction(&mut seat.books)?;
        match opening {
            Opening::Kept(reply) => Ok(TransactionReply::Replayed(reply)),
            Opening::Busy => Ok(TransactionReply::Busy),
            Opening::Fresh => self.close_begun(alloc, seat, key, events),
        }
    }

    // Ends the transaction, which this caller has begun: with the reply that its events call for, or, where that is
    // refused, with none.
    fn close_begun(
        &self,
        alloc: Global,
        seat: &mut Seat<K, L>,
        key: &TransactionKey,
        events: &[Offered],
    ) -> Result<TransactionReply, CallError>
        requires seat { IsSeatAt self.now seat.old }
        requires begun { HasBegunIn seat.old.number key.now (book_views seat.old) }
        ensures seat { IsSeatAfter self.now seat.old seat.new }
        ensures ok { IfOk result
            (λ reply. (told : List ToldOf)
            × AreOffered seat.old.number key.now.origin events.now (shard_views seat.old) (shard_views seat.new) told
            × (reply ≡ TransactionReply.Closed (body_of told))
            × IsEndedIn seat.old.number key.now (KeptEntry key.now seat.old.number (body_of told))
            (book_views seat.old) (book_views seat.new)) }
        ensures err { IfErr result
            (λ error. IsAborted seat.old.number key.now.origin events.now (shard_views seat.old) (shard_views seat.new) error
            × IsEndedIn seat.old.number key.now (GivenUp key.now seat.old.number) (book_views seat.old)
            (book_views seat.new)) }
    {
        let offering = Offering {
            turns: ShardTurns {
                rt: self.rt,
                gate: self.gate,
                docks: self.shards,
                caller: seat.number,
            },
            origin: &key.origin,
        };
        let turns = BookTurns {
            rt: self.rt,
            docks: self.books,
            caller: seat.number,
            key,
        };
        match offering.reply_to(alloc, &mut seat.shards, events) {
            Ok((reply, kept)) => {
                turns.keep_reply(&mut seat.books, kept)?;
                Ok(TransactionReply::Closed(reply))
            }
            Err(error) => {
                turns.give_up_transaction(&mut seat.books);
                Err(error)
            }
        }
    }
}
