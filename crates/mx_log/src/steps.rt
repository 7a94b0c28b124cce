// What is done for a line of a log: its steps, and its answer.
ghost use Rattle.std.specs.Prelude.{◌≡◌, List, IfOk};
ghost use Rattle.mx_world.specs.Calls.{Start};
ghost use Rattle.mx_world.specs.Worlds.{IsAfter};
ghost use Rattle.mx_world.specs.declared.steps.Step.{Step as AnyStep};
ghost use Rattle.mx_requests.specs.CallsShown.{call_shown, request_shown};
ghost use Rattle.mx_log.specs.LineOutputs.{response_output};
ghost use Rattle.mx_log.specs.LineRuns.{IsCalled, IsDone};
ghost use Rattle.mx_log.specs.Lines.{call_line};
ghost use Rattle.mx_log.specs.LinesShown.{answer_output, line_shown};
ghost use Rattle.mx_pdu.specs.Offers.{offer_by};
ghost use Rattle.mx_requests.specs.RepliesShown.{reply_shown};

mod sequences;

use crate::answers::{LineAnswer, LineRefusal};
use crate::desks::LineDesk;
use crate::lines::Line;
use crate::lines::call_forms::CallLine;
use crate::steps::sequences::{first_step_of, last_reply};
use crate::watching::LogWatcher;
use mx_ident::ServerName;
use mx_pdu::Verifier;
use mx_requests::{WireCall, WireReply, WireServer, read_request};
use mx_room::Moment;
use mx_step_replies::{told_fault, write_reply};
use std::alloc::AllocError;

/// Does the steps of a line, and gives what it is answered.
///
/// A line that is refused has done the steps before the one that was, and a transaction that it opened is given up.
pub(crate) fn answer_line<V: Verifier, W: LogWatcher + Drop>(
    server: &WireServer,
    verifier: &V,
    desk: &mut LineDesk<W>,
    line: Line,
) -> Result<LineAnswer, LineRefusal>
    ensures { IfOk result (λ answer. (start : Start) (earlier : List AnyStep) → IsAfter start earlier desk.old.rooms.world
        → IsDone (offer_by (V.judges verifier.now)) server.now.name (line_shown line) (answer_output answer)
        start earlier desk.new.rooms.world) }
{
    match line {
        Line::Bad => Ok(LineAnswer::Bad),
        Line::MalformedHost => Ok(LineAnswer::MalformedHost),
        Line::Step(step) => match desk.take(&step) {
            Ok(reply) => Ok(LineAnswer::Step(reply)),
            Err(_refused) => Err(LineRefusal::Step),
        },
        Line::Call(call) => match answer_request(server, verifier, desk, &call) {
            Ok(reply) => Ok(LineAnswer::Response(reply)),
            Err(_refused) => Err(LineRefusal::Request),
        },
    }
}

// The reply to a request at a moment.
fn answer_request<V: Verifier, W: LogWatcher + Drop>(
    server: &WireServer,
    verifier: &V,
    desk: &mut LineDesk<W>,
    line: &CallLine,
) -> Result<WireReply, AllocError>
    ensures { IfOk result (λ reply. (start : Start) (earlier : List AnyStep) → IsAfter start earlier desk.old.rooms.world
        → IsDone (offer_by (V.judges verifier.now)) server.now.name
        (call_line line.entry.now.now (request_shown line.entry.now.request)) (response_output (reply_shown reply))
        start earlier desk.new.rooms.world) }
{
    match read_request(
        desk.alloc,
        &mut desk.scratch,
        server,
        verifier,
        &line.request,
    ) {
        Ok(call) => {
            let reply = answer_call(&server.name, desk, line.now, call)?;
            Ok(reply)
        }
        Err(fault) => {
            let reply = told_fault(desk.alloc, fault)?;
            Ok(reply)
        }
    }
}

// The reply to a call at a moment.
fn answer_call<W: LogWatcher + Drop>(
    name: &ServerName,
    desk: &mut LineDesk<W>,
    now: Moment,
    call: WireCall,
) -> Result<WireReply, AllocError>
    ensures { IfOk result (λ reply. (start : Start) (earlier : List AnyStep) → IsAfter start earlier desk.old.rooms.world
        → IsCalled name.now now (call_shown call) (reply_shown reply) start earlier desk.new.rooms.world) }
{
    let first = first_step_of(call, now);
    let last = last_reply(desk, &first)?;
    let reply = write_reply(desk.alloc, name, &first, last)?;
    Ok(reply)
}
