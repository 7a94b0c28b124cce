// What is written for the lines of a log.
ghost use Rattle.std.specs.Prelude.{◌≡◌, ◌∷◌, [], ◌++◌, IfOk, OnOk, codes, false, if◌then◌else◌};
ghost use Rattle.std.specs.Io.KnownBytes.{Appends};
ghost use Rattle.mx_world.specs.declared.steps.StepReply.{StepReply};
ghost use Rattle.mx_log.specs.LineOutputs.{bad_output, refused_output, response_output, step_output};
ghost use Rattle.mx_log.specs.LinesShown.{answer_output, call_error_output, refusal_output};
ghost use Rattle.mx_requests.specs.RepliesShown.{reply_shown};

use crate::answers::step_texts::step_line;
use crate::answers::{LineAnswer, LineRefusal};
use mx_keeper::CallError;
use mx_requests::WireReply;
use mx_world::StepReply;
use std::alloc::Global;
use std::io;
use std::io::Write;

/// The answer to a line that has no form, without its newline. It takes no memory.
pub(crate) fn bad_line() -> &'static [u8]
    ensures { result.now ≡ bad_output }
{
    b"{\"error\":\"bad line\"}"
}

/// The answer to a line that hosts a room by a malformed event, without its newline. It takes no memory.
pub(crate) fn malformed_line() -> &'static [u8]
    ensures { result.now ≡ refused_output (codes "malformed") }
{
    b"{\"refused\":\"malformed\"}"
}

// The line that stands in place of an answer, without its newline.
fn refusal_line(refusal: LineRefusal) -> &'static [u8]
    ensures { result.now ≡ refusal_output refusal }
{
    match refusal {
        LineRefusal::Step => b"{\"error\":\"memory\"}",
        LineRefusal::Request => {
            b"{\"body\":{\"errcode\":\"M_UNKNOWN\",\"error\":\"memory\"},\"status\":503}"
        }
    }
}

// The line that tells why a step was refused, without its newline.
fn error_line(error: CallError) -> &'static [u8]
    ensures { result.now ≡ call_error_output error }
{
    match error {
        CallError::Memory => b"{\"error\":\"memory\"}",
        CallError::Storage => b"{\"error\":\"storage\"}",
    }
}

/// Writes the answer to a line, and a newline.
///
/// `Ok(true)` where it did. Where no memory was left for the reply to a step, `Ok(false)`: then it wrote the refusal for
/// memory and a newline.
pub(crate) fn write_answer<W: Write>(
    alloc: Global,
    out: &mut W,
    answer: &LineAnswer,
) -> io::Result<bool>
    ensures written { IfOk result (λ told. Appends (W.contents out.old) (W.contents out.new)
        ((if told then answer_output answer.now else refusal_output LineRefusal.Step) ++ 10 ∷ [])) }
    ensures refused { IfOk result (λ told. told ≡ false
        → (reply : StepReply) × (answer.now ≡ LineAnswer.Step reply)) }
{
    match answer {
        LineAnswer::Bad => {
            write_line(out, bad_line())?;
            Ok(true)
        }
        LineAnswer::MalformedHost => {
            write_line(out, malformed_line())?;
            Ok(true)
        }
        LineAnswer::Step(reply) => write_step(alloc, out, reply),
        LineAnswer::Response(reply) => {
            write_reply(out, reply)?;
            Ok(true)
        }
    }
}

/// Writes the line that stands in place of an answer, and a newline. It takes no memory.
pub(crate) fn write_refusal<W: Write>(out: &mut W, refusal: LineRefusal) -> io::Result<()>
    ensures { OnOk result (Appends (W.contents out.old) (W.contents out.new) (refusal_output refusal ++ 10 ∷ [])) }
{
    write_line(out, refusal_line(refusal))?;
    Ok(())
}

/// Writes why a step was refused, and a newline. It takes no memory.
pub(crate) fn write_error<W: Write>(out: &mut W, error: CallError) -> io::Result<()>
    ensures { OnOk result (Appends (W.contents out.old) (W.contents out.new) (call_error_output error ++ 10 ∷ [])) }
{
    write_line(out, error_line(error))?;
    Ok(())
}

// The reply to a step, or the refusal for memory.
fn write_step<W: Write>(alloc: Global, out: &mut W, reply: &StepReply) -> io::Result<bool>
    ensures { IfOk result (λ told. Appends (W.contents out.old) (W.contents out.new)
        ((if told then step_output reply.now else refusal_output LineRefusal.Step) ++ 10 ∷ [])) }
{
    match step_line(alloc, reply) {
        Ok(line) => {
            write_line(out, &line)?;
            Ok(true)
        }
        Err(_) => {
            write_refusal(out, LineRefusal::Step)?;
            Ok(false)
        }
    }
}

// Writes a reply to a request, and a newline.
fn write_reply<W: Write>(out: &mut W, reply: &WireReply) -> io::Result<()>
    ensures { OnOk result (Appends (W.contents out.old) (W.contents out.new)
        (response_output (reply_shown reply.now) ++ 10 ∷ [])) }
{
    write_response(out, reply)?;
    out.write_all(b"\n")?;
    Ok(())
}

// The body is written from where it lies, and not copied into a line first.
fn write_response<W: Write>(out: &mut W, reply: &WireReply) -> io::Result<()>
    ensures { OnOk result (Appends (W.contents out.old) (W.contents out.new) (response_output (reply_shown reply.now))) }
{
    let mut digits = itoa::Buffer::new();
    out.write_all(b"{\"body\":")?;
    out.write_all(reply.body.as_bytes())?;
    out.write_all(b",\"status\":")?;
    out.write_all(digits.format(reply.status).as_bytes())?;
    out.write_all(b"}")?;
    Ok(())
}

fn write_line<W: Write>(out: &mut W, line: &[u8]) -> io::Result<()>
    ensures { OnOk result (Appends (W.contents out.old) (W.contents out.new) (line.now ++ 10 ∷ [])) }
{
    out.write_all(line)?;
    out.write_all(b"\n")?;
    Ok(())
}
