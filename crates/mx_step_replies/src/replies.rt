// The reply to a request, by its first step and the reply to its last one, or by its fault.
ghost use Rattle.std.specs.Prelude.{◌≡◌, ◌≢◌, ℕ, List, IfOk};
ghost use Rattle.mx_book.specs.declared.transaction_keys.TransactionKey.{TransactionKey as AnyKey};
ghost use Rattle.mx_pdu.specs.declared.offering.Offered.{Offered as AnyOffered};
ghost use Rattle.mx_requests.specs.RepliesShown.{reply_shown};
ghost use Rattle.mx_requests.specs.ReplyBodies.{failure};
ghost use Rattle.mx_step_replies.specs.Steps.{ask_step, join_step, open_step, reply_to, step_shown};

use mx_ident::ServerName;
use mx_requests::{Fault, ReplyBody, WireReply, fault_reply, join_reply, query_reply};
use mx_room::{Denied, Moment, Query};
use mx_world::{Answer, Step, StepReply};
use std::alloc::{AllocError, Global};

/// The reply of the server of this name to a request that began with this step, by the reply to its last step.
///
/// What was done has status 200. A room that is not hosted is not found, and a transaction that is open just now is told
/// busy. `AllocError` where no memory was left. Source: the Matrix specification, Server-Server API, "Transactions",
/// "Retrieving events", "Backfilling and retrieving missing events" and "Joining Rooms".
pub fn write_reply(
    alloc: Global,
    name: &ServerName,
    first: &Step,
    last: StepReply,
) -> Result<WireReply, AllocError>
    ensures { IfOk result (λ made. reply_shown made ≡ reply_to name.now (step_shown first.now) last) }
{
    match first {
        Step::Open(..) => {
            let made = sent_reply(alloc, last)?;
            Ok(made)
        }
        Step::Ask { now, query, .. } => {
            let made = asked_reply(alloc, name, *now, query, last)?;
            Ok(made)
        }
        Step::Join { .. } => {
            let made = joined_reply(alloc, name, last)?;
            Ok(made)
        }
        Step::Host(_) | Step::Next(_) | Step::Close(_) => {
            let made = fault_reply(alloc, Fault::Denied(Denied::NotFound))?;
            Ok(made)
        }
    }
}

/// The reply to a query, by the reply to its step.
pub fn asked_reply(
    alloc: Global,
    name: &ServerName,
    now: Moment,
    query: &Query,
    last: StepReply,
) -> Result<WireReply, AllocError>
    ensures { IfOk result (λ made. (origin : List ℕ)
        → reply_shown made ≡ reply_to name.now (ask_step origin now query.now) last) }
{
    match last {
        StepReply::OfRoom(Answer::ToAsked(answered)) => {
            query_reply(alloc, name, now, query, answered)
        }
        _ => fault_reply(alloc, Fault::Denied(Denied::NotFound)),
    }
}

/// The reply to a join, by the reply to its step.
pub fn joined_reply(
    alloc: Global,
    name: &ServerName,
    last: StepReply,
) -> Result<WireReply, AllocError>
    ensures { IfOk result (λ made. (origin : List ℕ) (event : AnyOffered)
        → reply_shown made ≡ reply_to name.now (join_step origin event) last) }
{
    match last {
        StepReply::OfRoom(Answer::ToJoined(reply)) => join_reply(alloc, name, reply),
        _ => fault_reply(alloc, Fault::Denied(Denied::NotFound)),
    }
}

/// The reply to a transaction, by the reply to its last step.
pub fn sent_reply(alloc: Global, last: StepReply) -> Result<WireReply, AllocError>
    ensures { IfOk result (λ made. (server : List ℕ) (key : AnyKey) (events : List AnyOffered)
        → reply_shown made ≡ reply_to server (open_step key events) last) }
{
    match last {
        StepReply::Closed(body) | StepReply::Replayed(body) => Ok(WireReply {
            status: 200,
            body: ReplyBody::Made(body.into_string().into_bytes()),
        }),
        _ => fault_reply(alloc, Fault::Busy),
    }
}

/// The reply that tells the fault of a request.
///
/// `AllocError` where no memory was left, for the reply or, as the fault says, before: want of memory is never told as an
/// answer. Source: the Matrix specification, Server-Server API, "API standards", standard error response.
pub fn told_fault(alloc: Global, fault: Fault) -> Result<WireReply, AllocError>
    ensures other { IfOk result (λ _. fault ≢ Fault.Memory) }
    ensures reply { IfOk result (λ made. reply_shown made ≡ failure fault) }
{
    match fault {
        Fault::Memory => Err(AllocError),
        fault => fault_reply(alloc, fault),
    }
}
