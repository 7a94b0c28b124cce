// The lines of a log.
ghost use Rattle.std.specs.Prelude.{◌≡◌, IfOk};
ghost use Rattle.serde_json.specs.Data.{object};
ghost use Rattle.serde_json.specs.View.{view, members_view};
ghost use Rattle.mx_log.specs.Lines as definition;
ghost use Rattle.mx_log.specs.LinesShown.{line_shown};
ghost use Rattle.mx_log.specs.StrictLogs.{is_bad};
ghost use Rattle.mx_pdu.specs.Offers.{Judge, offer_by};
ghost use Rattle.mx_event_reading.specs.BodiesRead.{AreOffered, object_of};

pub(crate) mod call_forms;
mod keys;
mod members;
pub(crate) mod splitting;
mod step_forms;
mod texts;

use crate::lines::call_forms::{CallLine, call_line};
use crate::lines::step_forms::{close_line, host_line, next_line, open_line, open_read};
use crate::lines::texts::text_line;
use crate::watching::LineForm;
use json::Scratch;
use memchr::memmem::find;
use mx_body::{BodyError, body_value};
use mx_event_reading::{BodyRead, EventsRead, read_body};
use mx_pdu::Verifier;
use mx_redact::{is_text, text_field};
use mx_world::Step;
use serde_json::{Map, Value};
use std::alloc::{AllocError, Global};

/// What a line of a log asks for.
#[derive(Drop)]
pub(crate) enum Line {
    // It has no form.
    Bad,
    // To host a room by an event that is malformed.
    MalformedHost,
    // One step of the server.
    Step(Step),
    // A request of another server.
    Call(CallLine),
}

impl Line {
    /// Whether it has no form.
    pub(crate) fn is_bad(&self) -> bool
        ensures { result ≡ is_bad (line_shown self.now) }
    {
        matches!(self, Line::Bad)
    }

    /// What it is, for who is told of it.
    pub(crate) fn form(&self) -> LineForm {
        match self {
            Line::Bad => LineForm::Bad,
            Line::MalformedHost => LineForm::MalformedHost,
            Line::Step(_) => LineForm::Step,
            Line::Call(_) => LineForm::Request,
        }
    }
}

/// What a line asks for, by the `step` of its object. A key beyond its form makes it bad, and of a key that is repeated
/// the last value stands.
///
/// `AllocError` where no memory is left. A line that names a transaction and nothing else, as most do, is read without a
/// JSON value of it, and so are the events of a transaction in canonical JSON. The scratch is kept from
/// line to line.
pub(crate) fn read_line<V: Verifier>(
    alloc: Global,
    scratch: &mut Scratch,
    verifier: &V,
    line: &[u8],
) -> Result<Line, AllocError>
    ensures { IfOk result (λ read. line_shown read
        ≡ definition.read_line (offer_by (V.judges verifier.now)) line.now) }
{
    match text_line(alloc, scratch, line)? {
        Some(read) => Ok(read),
        None => object_line(alloc, scratch, verifier, line),
    }
}

// What a line asks for that is no line of three texts.
fn object_line<V: Verifier>(
    alloc: Global,
    scratch: &mut Scratch,
    verifier: &V,
    line: &[u8],
) -> Result<Line, AllocError>
    ensures { IfOk result (λ read. line_shown read
        ≡ definition.read_line (offer_by (V.judges verifier.now)) line.now) }
{
    if names_events(line) {
        event_line(alloc, scratch, verifier, line)
    } else {
        value_line(alloc, scratch, verifier, line)
    }
}

// Whether a line seems to have events of its own. In the body of a request, which is a text in its line, each quote stands
// behind a backslash.
fn names_events(line: &[u8]) -> bool {
    find(line, b"\"pdus\":").is_some()
}

// What a line asks for, by its JSON value.
fn value_line<V: Verifier>(
    alloc: Global,
    scratch: &mut Scratch,
    verifier: &V,
    line: &[u8],
) -> Result<Line, AllocError>
    ensures { IfOk result (λ read. line_shown read
        ≡ definition.read_line (offer_by (V.judges verifier.now)) line.now) }
{
    match body_value(alloc, scratch, line) {
        Ok(value) => line_of(alloc, verifier, value),
        Err(BodyError::Memory) => Err(AllocError),
        Err(BodyError::NotJson) => Ok(Line::Bad),
    }
}

// What a line asks for, by the events that were read of it, or by its JSON value where they were not.
fn event_line<V: Verifier>(
    alloc: Global,
    scratch: &mut Scratch,
    verifier: &V,
    line: &[u8],
) -> Result<Line, AllocError>
    ensures { IfOk result (λ read. line_shown read
        ≡ definition.read_line (offer_by (V.judges verifier.now)) line.now) }
{
    match read_body(alloc, scratch, verifier, line) {
        Ok(BodyRead::Value(value)) => line_of(alloc, verifier, value),
        Ok(BodyRead::Events(read)) => line_with_events(alloc, read),
        Err(BodyError::Memory) => Err(AllocError),
        Err(BodyError::NotJson) => Ok(Line::Bad),
    }
}

fn line_of<V: Verifier>(alloc: Global, verifier: &V, value: Value) -> Result<Line, AllocError>
    ensures { IfOk result (λ read. line_shown read
        ≡ definition.line_in (offer_by (V.judges verifier.now)) (view value)) }
{
    match value {
        Value::Object(members) => line_in(alloc, verifier, members),
        _ => Ok(Line::Bad),
    }
}

fn line_in<V: Verifier>(
    alloc: Global,
    verifier: &V,
    members: Map<String, Value>,
) -> Result<Line, AllocError>
    ensures { IfOk result (λ read. line_shown read
        ≡ definition.line_in (offer_by (V.judges verifier.now)) (object (members_view members.entries))) }
{
    match text_field(&members, "step") {
        Some("host") => host_line(alloc, verifier, members),
        Some("open") => open_line(alloc, verifier, members),
        Some("next") => next_line(alloc, &members),
        Some("close") => close_line(alloc, &members),
        Some("call") => call_line(alloc, members),
        _ => Ok(Line::Bad),
    }
}

// What a line asks for whose events were read.
fn line_with_events(alloc: Global, read: EventsRead) -> Result<Line, AllocError>
    ensures { IfOk result (λ line. (judges : Judge) → AreOffered judges read.events.items → line_shown line
        ≡ definition.line_in (offer_by judges) (object_of read)) }
{
    if is_text(text_field(&read.others, "step"), "open") {
        return open_read(alloc, read);
    }
    Ok(Line::Bad)
}
