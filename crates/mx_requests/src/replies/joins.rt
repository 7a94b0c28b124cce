// The replies to joins.
ghost use Rattle.std.specs.Prelude.{◌≡◌, ◌++◌, ℕ, List, IfOk};
ghost use Rattle.mx_canon.specs.Canonical.{canonical_text};
ghost use Rattle.mx_requests.specs.JoinReplies as definition;
ghost use Rattle.mx_requests.specs.RepliesShown.{reply_shown};

use crate::faults::Fault;
use crate::replies::pieces::{write_event, write_events};
use crate::replies::{ReplyBody, WireReply, fault_reply};
use mx_canon::{TextBuffer, TextSink, write_key, write_string};
use mx_ident::ServerName;
use mx_receipt::Verdict;
use mx_room::{Denied, JoinReply, Joined, Outcome};
use std::alloc::{AllocError, Global};

/// The reply of the server of this name to a join that was answered so.
///
/// A join that was let in has status 200, and any other the fault for what became of it. `AllocError` where no memory was
/// left. Source: the Matrix specification, Server-Server API, "Joining Rooms".
pub fn join_reply(
    alloc: Global,
    name: &ServerName,
    reply: JoinReply,
) -> Result<WireReply, AllocError>
    ensures { IfOk result (λ made. reply_shown made ≡ definition.join_reply name.now reply) }
{
    match reply {
        JoinReply::NotOffered => fault_reply(alloc, Fault::Denied(Denied::OtherServer)),
        JoinReply::Offered { outcome, joined } => match joined {
            Some(joined) => {
                let body = joined_body(alloc, name, &joined)?;
                Ok(WireReply {
                    status: 200,
                    body: ReplyBody::Made(body),
                })
            }
            None => fault_reply(alloc, outcome_fault(outcome)),
        },
    }
}

/// The fault of a join that was offered and is not let in. It takes no memory.
///
/// Source: the Matrix specification, Server-Server API, "Standard error response" and "Joining Rooms".
pub(crate) fn outcome_fault(outcome: Outcome) -> Fault
    ensures { result ≡ definition.outcome_fault outcome }
{
    match outcome {
        Outcome::Kept(verdict) | Outcome::Known(verdict) => verdict_fault(verdict),
        Outcome::Refused(refusal) => Fault::Refused(refusal),
    }
}

fn verdict_fault(verdict: Verdict) -> Fault
    ensures { result ≡ definition.verdict_fault verdict }
{
    match verdict {
        Verdict::Accepted => Fault::Denied(Denied::NotFound),
        Verdict::SoftFailed(rule) | Verdict::Rejected(rule) => Fault::Denied(Denied::Rule(rule)),
    }
}

fn joined_body(alloc: Global, name: &ServerName, joined: &Joined) -> Result<Vec<u8>, AllocError>
    ensures { IfOk result (λ body.
        body.items ≡ canonical_text (definition.joined_data name.now joined.now)) }
{
    let mut body = TextBuffer::new(alloc);
    write_joined(&mut body, name, joined);
    let bytes = body.into_bytes()?;
    Ok(bytes)
}

fn write_joined<S: TextSink>(sink: &mut S, name: &ServerName, joined: &Joined)
    ensures { (taken : List ℕ) → S.has_taken sink.old taken
        → S.has_taken sink.new (taken ++ canonical_text (definition.joined_data name.now joined.now)) }
{
    sink.put(b"{");
    write_key(sink, false, b"auth_chain");
    write_events(sink, joined.auth_chain.as_slice());
    write_key(sink, true, b"event");
    write_event(sink, &joined.event);
    write_key(sink, true, b"origin");
    write_string(sink, name.as_str().as_bytes());
    write_key(sink, true, b"state");
    write_events(sink, joined.state.as_slice());
    sink.put(b"}");
}
