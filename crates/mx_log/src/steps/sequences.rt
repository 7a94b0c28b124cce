// The steps of a request, one after another.
ghost use Rattle.std.specs.Prelude.{◌≡◌, List, IfOk, OnErr, OnOk, false};
ghost use Rattle.mx_book.specs.declared.transaction_keys.TransactionKey.{TransactionKey as AnyKey};
ghost use Rattle.mx_world.specs.Calls.{Start};
ghost use Rattle.mx_world.specs.Worlds.{IsAfter, status_in};
ghost use Rattle.mx_world.specs.declared.steps.Step.{Step as AnyStep};
ghost use Rattle.mx_world.specs.declared.steps.Step.TheVariants.{Close, Next};
ghost use Rattle.mx_log.specs.LineRuns.{AreTaken, AreTakenFrom, AreTurned, IsGivenUp, IsTaken, is_waiting};
ghost use Rattle.mx_requests.specs.CallsShown.{call_shown};
ghost use Rattle.mx_step_replies.specs.Steps.{first_step, step_shown};

use crate::desks::LineDesk;
use crate::watching::LogWatcher;
use mx_keeper::TransactionId;
use mx_requests::WireCall;
use mx_room::Moment;
use mx_world::{Step, StepReply, TransactionKey};
use std::alloc::AllocError;

/// The first step of a call at this moment. It takes no memory.
pub(crate) fn first_step_of(call: WireCall, now: Moment) -> Step
    ensures { step_shown result ≡ first_step now (call_shown call) }
{
    match call {
        WireCall::Sends {
            origin,
            transaction,
            events,
        } => {
            let txn = TransactionId::new(transaction);
            Step::Open(TransactionKey { origin, txn }, events)
        }
        WireCall::Asks { origin, query } => Step::Ask { origin, now, query },
        WireCall::Joins { origin, event } => Step::Join { origin, event },
    }
}

/// Takes the steps of a request, of which this is the first, and gives the reply to the last of them. `AllocError` where
/// no memory is left.
///
/// A transaction goes on only where its number was opened, and is given up where a later step of it is refused.
pub(crate) fn last_reply<W: LogWatcher + Drop>(
    desk: &mut LineDesk<W>,
    first: &Step,
) -> Result<StepReply, AllocError>
    ensures ok { IfOk result (λ last. (start : Start) (earlier : List AnyStep) → IsAfter start earlier desk.old.rooms.world
        → AreTakenFrom (step_shown first.now) last start earlier desk.new.rooms.world) }
    // A transaction whose opening is the first step is open after a refusal only where it was before.
    ensures given_up { OnErr result (IsGivenUp first.now desk.old.rooms.world desk.new.rooms.world) }
{
    let reply = desk.take(first)?;
    match first {
        Step::Open(key, events) => match reply {
            StepReply::Opened(_) => {
                let last = finished(desk, key, events.len())?;
                Ok(last)
            }
            other => Ok(other),
        },
        _ => Ok(reply),
    }
}

// The turns of a transaction's events, which are so many, and its close. Where one is refused, the transaction is given
// up.
fn finished<W: LogWatcher + Drop>(
    desk: &mut LineDesk<W>,
    key: &TransactionKey,
    count: usize,
) -> Result<StepReply, AllocError>
    ensures ok { IfOk result (λ last. (start : Start) (earlier : List AnyStep) → IsAfter start earlier desk.old.rooms.world
        → AreTurned key.now count last start earlier desk.new.rooms.world) }
    ensures given_up { OnErr result (is_waiting (status_in desk.new.rooms.world key.now) ≡ false) }
{
    match turned(desk, key, count) {
        Ok(last) => Ok(last),
        Err(refused) => {
            desk.rooms.abandon(key);
            Err(refused)
        }
    }
}

// Each event's turn, and the close.
fn turned<W: LogWatcher + Drop>(
    desk: &mut LineDesk<W>,
    key: &TransactionKey,
    count: usize,
) -> Result<StepReply, AllocError>
    ensures { IfOk result (λ last. (start : Start) (earlier : List AnyStep) → IsAfter start earlier desk.old.rooms.world
        → AreTurned key.now count last start earlier desk.new.rooms.world) }
{
    turns(desk, key, count)?;
    let last = closed(desk, key)?;
    Ok(last)
}

// So many turns of a transaction.
fn turns<W: LogWatcher + Drop>(
    desk: &mut LineDesk<W>,
    key: &TransactionKey,
    count: usize,
) -> Result<(), AllocError>
    ensures { OnOk result ((start : Start) (earlier : List AnyStep) → IsAfter start earlier desk.old.rooms.world
        → AreTaken key.now count start earlier desk.new.rooms.world) }
{
    let next = Step::Next(key.clone()?);
    repeat(desk, &next, count)
}

// A step, so many times.
fn repeat<W: LogWatcher + Drop>(
    desk: &mut LineDesk<W>,
    step: &Step,
    count: usize,
) -> Result<(), AllocError>
    ensures { OnOk result ((key : AnyKey) → step.now ≡ Next key → (start : Start) (earlier : List AnyStep)
        → IsAfter start earlier desk.old.rooms.world → AreTaken key count start earlier desk.new.rooms.world) }
{
    for _turn in 0..count {
        let _reply = desk.take(step)?;
    }
    Ok(())
}

// The close of a transaction.
fn closed<W: LogWatcher + Drop>(
    desk: &mut LineDesk<W>,
    key: &TransactionKey,
) -> Result<StepReply, AllocError>
    ensures { IfOk result (λ reply. (start : Start) (earlier : List AnyStep) → IsAfter start earlier desk.old.rooms.world
        → IsTaken start earlier (Close key.now) reply desk.new.rooms.world) }
{
    let close = Step::Close(key.clone()?);
    let reply = desk.take(&close)?;
    Ok(reply)
}
