// Lists of steps.
ghost use Rattle.std.specs.Prelude.{◌≡◌, ◌<◌, ℕ, List, [], take, length, get_or, None, Some, IsTrue, IfOk, OnOk, IfErr};
ghost use Rattle.mx_shard.specs.LoneRoom.{answers_alone};
ghost use Rattle.mx_world.specs.Calls.{Start, calls, record_after};
ghost use Rattle.mx_world.specs.Replies.{status_after, AreReplies};
ghost use Rattle.mx_world.specs.Agree.{heard, told_about, StayApart, IsRun, Agree, AlikeAbout};
ghost use Rattle.mx_world.specs.Worlds.{none_open, is_refused, records_in, status_in, start, IsAfter};
ghost use Rattle.mx_world.specs.Storage.{IsStorageFailure};
ghost use Rattle.mx_world.specs.Crashes.{CrashLeaves};

use crate::steps::{Step, StepReply};
use crate::worlds::World;
use mx_keeper::{BookRow, CallError, Keeper, ShardRow};
use std::alloc::Global;
use thiserror::Error;

/// A run stopped: `done` steps were done, and the one after them was refused for `cause` and changed nothing.
#[derive(Clone, Copy, Debug, PartialEq, Eq, Drop, Error)]
#[error("{cause} after {done} steps")]
pub struct RunError {
    pub done: usize,
    pub cause: CallError,
}

/// Runs steps in order, and gives the reply to each.
///
/// Each reply is the one that the steps before it call for. Where no other room holds an event id of a room when it is
/// queried alone, what the replies tell about this room is what a server tells that hosts it alone and gets its calls in
/// that order.
/// `RunError` where a step is refused: the steps before it are done, and it changed nothing.
pub fn run<K: Keeper<Row = ShardRow>, L: Keeper<Row = BookRow>>(
    world: &mut World<K, L>,
    alloc: Global,
    steps: &[Step],
) -> Result<Vec<StepReply>, RunError>
    requires { IsTrue (none_open world.old) }
    ensures replies { IfOk result (λ replies. AreReplies (start world.old) [] steps.now replies.items) }
    ensures after { OnOk result (IsAfter (start world.old) steps.now world.new) }
    // Each room's record is that of a server which hosts it alone and got its calls.
    ensures records { OnOk result ((room : List ℕ) → records_in world.new room ≡ record_after (start world.old) steps.now room) }
    // Each room is answered as by a server that hosts it alone and got its calls.
    ensures alone { IfOk result (λ replies. (room : List ℕ) → StayApart (start world.old) room [] steps.now →
        told_about (start world.old) room steps.now replies.items
        ≡ answers_alone (records_in world.old room) (heard (records_in world.old room) (calls (start world.old) room steps.now))) }
    // A run that stops has done the steps before the one that was refused, and says how many.
    ensures err { IfErr result (λ error. IsAfter (start world.old) (take error.done steps.now) world.new) }
    ensures stopped { IfErr result (λ error. error.done < length steps.now) }
    // The step's own shard or book is refused, and was at the start, or its keeper's count of failures has risen since.
    ensures storage { IfErr result (λ error. error.cause ≡ CallError.Storage → (step : Step)
        → IsStorageFailure K.failed L.failed (status_after (start world.old) (take error.done steps.now)) world.old world.new (get_or steps.now error.done step)) }
    ensures refused { IfErr result (λ error. error.cause ≡ CallError.Storage → IsTrue (is_refused world.new)) }
    // A crash leaves the rows of each journal, or, of what no row came to, what it might have left at the start.
    ensures durable { OnOk result (CrashLeaves K.is_honest K.may_leave L.is_honest L.may_leave (status_in world.old) None world.old world.new) }
    // Where a step was refused, it may also leave the rows with the one that this step tried to add.
    ensures crash { IfErr result (λ error. (step : Step) → CrashLeaves K.is_honest K.may_leave L.is_honest L.may_leave
        (status_after (start world.old) (take error.done steps.now)) (Some (get_or steps.now error.done step)) world.old world.new) }
{
    if steps.is_empty() {
        return Ok(Vec::new(alloc));
    }
    let mut replies = Vec::new(alloc);
    let Ok(()) = replies.reserve(steps.len()) else {
        return Err(RunError {
            done: 0,
            cause: CallError::Memory,
        });
    };
    for step in steps {
        match world.step(alloc, step) {
            Ok(reply) => replies.push_reserved(reply),
            Err(cause) => {
                return Err(RunError {
                    done: replies.len(),
                    cause,
                });
            }
        }
    }
    Ok(replies)
}

/// Two runs that agree on a room's calls answer alike about it, and leave it the same record, whatever else they do.
pub fn agreeing_runs_answer_alike()
    ensures alike { (s s' : Start) (room : List ℕ) (steps steps' : List Step) (replies replies' : List StepReply) →
        IsRun s room steps replies → IsRun s' room steps' replies' → Agree s s' room steps steps' →
        AlikeAbout s s' room steps steps' replies replies' }
    // For the records the replies do not count, nor which ids stand in which rooms.
    ensures records { (s s' : Start) (room : List ℕ) (steps steps' : List Step) →
        Agree s s' room steps steps' → record_after s steps room ≡ record_after s' steps' room }
{}
