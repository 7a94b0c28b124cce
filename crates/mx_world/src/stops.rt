// What is left of a server that is stopped, and what it tells once it is opened again.
ghost use Rattle.std.specs.Prelude.{ℕ, ◌<◌, Option, get_or, length};
ghost use Rattle.mx_book.specs.View.{BookView};
ghost use Rattle.mx_book.specs.declared.transaction_keys.TransactionKey.{TransactionKey};
ghost use Rattle.mx_shard.specs.View.{ShardView};
ghost use Rattle.mx_world.specs.Crashes.{CrashLeaves};
ghost use Rattle.mx_world.specs.Replies.{Status};
ghost use Rattle.mx_world.specs.Stops.{BookLeaves, KnownEventsKeepTheirVerdicts, ShardLeaves};
ghost use Rattle.mx_world.specs.View.{WorldView};
ghost use Rattle.mx_world.specs.declared.steps.Step as step;

use crate::worlds::World;
use mx_keeper::{BookRow, Keeper, ShardRow};

/// A law: after a run, whether or not a step of it was refused, a crash leaves of each shard and of each book that was
/// refused for nothing when the run began the rows of its journal, or these with the row that the refused step tried to
/// add.
///
/// So what was answered as kept is there: an answer tells what the journal has ([`run`](crate::run)). What is left makes
/// the server again ([`World::reopen`]).
pub fn stops_leave_the_journals<K: Keeper<Row = ShardRow>, L: Keeper<Row = BookRow>>(
    world: &World<K, L>,
)
    ensures shards { (status : TransactionKey → Status) (refused : Option step.Step) (new : WorldView K L)
        → CrashLeaves K.is_honest K.may_leave L.is_honest L.may_leave status refused world.now new
        → (n : ℕ) (d : ShardView K) → n < length world.now.shards
        → ShardLeaves K.is_honest K.may_leave status refused (get_or world.now.shards n d) (get_or new.shards n d) }
    ensures books { (status : TransactionKey → Status) (refused : Option step.Step) (new : WorldView K L)
        → CrashLeaves K.is_honest K.may_leave L.is_honest L.may_leave status refused world.now new
        → (n : ℕ) (d : BookView L) → n < length world.now.books
        → BookLeaves L.is_honest L.may_leave status refused (get_or world.now.books n d) (get_or new.books n d) }
{
    world.soundness();
}

/// A law: an event that a room has kept, and that is sent again, is told the verdict that it had, whatever the room kept
/// since then, unless the room's access control list denies the server now.
///
/// So a transaction that is sent again, of which no reply was kept, is answered as before for each event that was kept.
pub fn known_events_keep_their_verdicts()
    ensures { KnownEventsKeepTheirVerdicts }
{}
