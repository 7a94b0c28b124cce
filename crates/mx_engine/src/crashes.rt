// What a crash leaves of the shards and the books that callers share.
ghost use Rattle.std.specs.Prelude.{◌≡◌, ◌<◌, ℕ, List, Option, Some, IsTrue, false, length, get_or};
ghost use Rattle.mx_dock.specs.Journal.{IsPrefix};
ghost use Rattle.mx_dock.specs.declared.views.PassView.{PassView};
ghost use Rattle.mx_receipt.specs.declared.verdicts.Verdict.{Verdict};
ghost use Rattle.mx_pdu.specs.Event.{room_of};
ghost use Rattle.mx_room.specs.Offer.{Offered};
ghost use Rattle.mx_keeper.specs.declared.rows.ShardRow.{ShardRow};
ghost use Rattle.mx_keeper.specs.declared.rows.BookRow.{BookRow};
ghost use Rattle.mx_shard.specs.Journal.{Entry, record_of, stored as stored_events};
ghost use Rattle.mx_shard.specs.LoneRoom.{Call};
ghost use Rattle.mx_shard.specs.View.{ShardView};
ghost use Rattle.mx_shard.specs.declared.answers.Answer.{Answer};
ghost use Rattle.mx_book.specs.Journal.{hold_of, kept, stored as stored_replies};
ghost use Rattle.mx_book.specs.View.{BookView};
ghost use Rattle.mx_book.specs.declared.entries.BookEntry.{BookEntry};
ghost use Rattle.mx_book.specs.declared.transaction_keys.TransactionKey.{TransactionKey};
ghost use Rattle.mx_world.specs.Replies.{ended};
ghost use Rattle.mx_world.specs.Worlds.{none_open, records_in, status_in};
ghost use Rattle.mx_world.specs.declared.answers.Told.{Told};
ghost use Rattle.mx_engine.specs.Views.{BerthView};
ghost use Rattle.mx_engine.specs.Calls.{IsAnswered};
ghost use Rattle.mx_engine.specs.Transactions.{AreOffered, IsReplied};
ghost use Rattle.mx_engine.specs.declared.replies.TransactionReply.TheVariants.{Closed, Replayed};
ghost use Rattle.mx_engine.specs.Crashes.{AllSeen, LeavesOnly, LeavesShard, LeavesBook, IsShardExit, IsBookExit, IsShardInDock, IsShardOut, IsBookInDock, IsBookOut, IsSharedShard, IsSharedBook, ShardRemembers, BookRemembers, IsKeptAs, event_sent, seen_of_book, seen_of_room, verdict_answered, verdict_told, BooksRemember, ShardsRemember};

use mx_book::Book;
use mx_keeper::{BookRow, Keeper, ShardRow};
use mx_shard::Shard;
use mx_world::World;

/// A law: what a crash leaves of a shard that callers share has all that any of them has seen there.
///
/// At each moment the shard lies in its dock, or it is out with one caller, within a call. A crash leaves the rows of its
/// journal; at an exit of a call it may leave these with the call's one row; of a shard that is refused for storage maybe
/// these with one row that a refused call tried to add. The journal begins with all that any caller has seen. So a shard
/// that is opened again over what is left has each event that was told as kept, in its room's record, with its verdict.
/// This is said while the shard's keeper is honest, of a shard that was refused for nothing when callers began to share it.
pub fn shards_outlast_a_crash<K: Keeper<Row = ShardRow>>(shard: &Shard<K>)
    // Between two calls, unless it is refused, nothing is left but the rows of its journal.
    ensures whole { shard.now.is_refused ≡ false
        → LeavesOnly K.is_honest K.may_leave shard.now.keeper (stored_events shard.now.journal) }
    // So it is of one that is refused, but for one row that a refused call tried to add.
    ensures shared { IsSharedShard K.is_honest K.is_open K.rows K.may_leave shard.now
        → LeavesShard K.is_honest K.may_leave shard.now }
    // While it lies in its dock its journal begins with all that any caller has seen, and what is left has that.
    ensures begins { (passes : List (PassView Entry)) → IsShardInDock shard.now passes
        → AllSeen (λ seen. IsPrefix seen shard.now.journal) passes }
    ensures in_dock { IsSharedShard K.is_honest K.is_open K.rows K.may_leave shard.now → (passes : List (PassView Entry))
        → IsShardInDock shard.now passes
        → K.is_honest shard.now.keeper → (left : Option (List ShardRow)) → K.may_leave shard.now.keeper left
        → AllSeen (ShardRemembers K.is_ready K.is_honest K.rows K.may_leave left) passes }
    // So it is while a caller has it, at each exit of a call that it makes of the shard as it was taken.
    ensures in_call { IsSharedShard K.is_honest K.is_open K.rows K.may_leave shard.now → (passes : List (PassView Entry))
        → IsShardOut shard.now passes
        → (entries : List Entry) (new : ShardView K) → IsShardExit K.is_honest K.may_leave entries shard.now new
        → K.is_honest new.keeper → (left : Option (List ShardRow)) → K.may_leave new.keeper left
        → AllSeen (ShardRemembers K.is_ready K.is_honest K.rows K.may_leave left) passes }
{
    shard.place();
}

/// A law: what a crash leaves of a book that callers share has each reply that any of them has seen as kept.
///
/// As of [`shards_outlast_a_crash`]. So a book that is opened again over what is left answers a transaction whose reply was
/// told as kept with that reply.
pub fn books_outlast_a_crash<L: Keeper<Row = BookRow>>(book: &Book<L>)
    ensures whole { book.now.is_refused ≡ false
        → LeavesOnly L.is_honest L.may_leave book.now.keeper (stored_replies book.now.journal) }
    ensures shared { IsSharedBook L.is_honest L.is_open L.rows L.may_leave book.now
        → LeavesBook L.is_honest L.may_leave book.now }
    ensures begins { (passes : List (PassView BookEntry)) → IsBookInDock book.now passes
        → AllSeen (λ seen. IsPrefix seen book.now.journal) passes }
    ensures in_dock { IsSharedBook L.is_honest L.is_open L.rows L.may_leave book.now → (passes : List (PassView BookEntry))
        → IsBookInDock book.now passes
        → L.is_honest book.now.keeper → (left : Option (List BookRow)) → L.may_leave book.now.keeper left
        → AllSeen (BookRemembers L.is_ready L.is_honest L.rows L.may_leave left) passes }
    ensures in_call { IsSharedBook L.is_honest L.is_open L.rows L.may_leave book.now → (passes : List (PassView BookEntry))
        → IsBookOut book.now passes
        → (new : BookView L) → IsBookExit L.is_honest L.may_leave book.now new
        → L.is_honest new.keeper → (left : Option (List BookRow)) → L.may_leave new.keeper left
        → AllSeen (BookRemembers L.is_ready L.is_honest L.rows L.may_leave left) passes }
{
    book.place();
}

/// A law: what a caller was told as kept is in what it has then seen.
///
/// An event is in its room's record, under the verdict that was told, after a call of a room ([`Engine::host`],
/// [`Engine::join`]) and after a transaction ([`Engine::transaction`]); and the reply to a transaction is kept in its book.
/// What is seen of a shard or a book outlasts a crash ([`shards_outlast_a_crash`], [`books_outlast_a_crash`]).
///
/// [`Engine::host`]: crate::Engine::host
/// [`Engine::join`]: crate::Engine::join
/// [`Engine::transaction`]: crate::Engine::transaction
pub fn told_as_kept_is_seen()
    ensures answers { (caller : ℕ) (call : Call) (room : List ℕ) (old new : List (BerthView Entry)) (told : Answer)
        → 0 < length old → IsAnswered caller call room old new told
        → (sent : Offered) (verdict : Verdict) → event_sent call ≡ Some sent → verdict_answered told ≡ Some verdict
        → IsKeptAs (record_of (seen_of_room new room) room) sent.id verdict }
    // Of the events of a transaction, by their places.
    ensures events { (caller : ℕ) (origin : List ℕ) (events : List Offered) (old new : List (BerthView Entry))
        (told : List Told) → 0 < length old → AreOffered caller origin events old new told
        → (n : ℕ) (o : Offered) (t : Told) (verdict : Verdict) → n < length events
        → verdict_told (get_or told n t).outcome ≡ Some verdict
        → IsKeptAs (record_of (seen_of_room new (room_of (get_or events n o).pdu)) (room_of (get_or events n o).pdu))
        (get_or events n o).id verdict }
    ensures closed { (caller : ℕ) (key : TransactionKey) (events : List Offered)
        (shards shards_then : List (BerthView Entry)) (books books_then : List (BerthView BookEntry)) (body : List ℕ)
        → 0 < length books
        → IsReplied caller key events shards books shards_then books_then (Closed body)
        → hold_of (seen_of_book books_then key) key ≡ kept body }
    ensures replayed { (caller : ℕ) (key : TransactionKey) (events : List Offered)
        (shards shards_then : List (BerthView Entry)) (books books_then : List (BerthView BookEntry)) (body : List ℕ)
        → 0 < length books
        → IsReplied caller key events shards books shards_then books_then (Replayed body)
        → hold_of (seen_of_book books_then key) key ≡ kept body }
{}

/// A law: a server that is opened again, whose shards and books have all that a caller had seen, has each event that the
/// caller had seen as kept in its room's record, under its verdict, and each transaction whose reply it had seen as kept is
/// answered with that reply.
///
/// That its shards and books have this is what [`shards_outlast_a_crash`] and [`books_outlast_a_crash`] say of the server
/// that `World::reopen` makes of what a crash left.
pub fn reopened_servers_have_what_was_told<K: Keeper<Row = ShardRow>, L: Keeper<Row = BookRow>>(
    world: &World<K, L>,
)
    ensures events { (seen : List (BerthView Entry)) → ShardsRemember seen world.now.shards
        → (room id : List ℕ) (verdict : Verdict) → IsKeptAs (record_of (seen_of_room seen room) room) id verdict
        → IsKeptAs (records_in world.now room) id verdict }
    ensures replies { (seen : List (BerthView BookEntry)) → BooksRemember seen world.now.books → IsTrue (none_open world.now)
        → (key : TransactionKey) (reply : List ℕ) → hold_of (seen_of_book seen key) key ≡ kept reply
        → status_in world.now key ≡ ended reply }
{}
