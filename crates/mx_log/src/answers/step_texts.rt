// The texts that tell the replies to the steps of a log.
ghost use Rattle.std.specs.Prelude.{◌≡◌, ℕ, ◌++◌, List, IfOk, codes, string_bytes, true};
ghost use Rattle.serde_json.specs.Data.{boolean, member, no_members, number, object, string, unsigned};
ghost use Rattle.serde_json.specs.View.{view};
ghost use Rattle.mx_canon.specs.Canonical.{canonical_text};
ghost use Rattle.mx_log.specs.LineOutputs as definition;

use mx_canon::{TextBuffer, TextSink, write_key, write_string, write_text};
use mx_ident::EventId;
use mx_requests::write_number;
use mx_room::NotARoom;
use mx_shard::Answer;
use mx_world::{StepReply, Told, processing_result};
use serde_json::Value;
use std::alloc::{AllocError, Global};

/// The line that tells the reply to a step, in canonical JSON and without its newline.
///
/// `AllocError` where no memory was left.
pub(crate) fn step_line(alloc: Global, reply: &StepReply) -> Result<Vec<u8>, AllocError>
    ensures { IfOk result (λ line. line.items ≡ definition.step_output reply.now) }
{
    match reply {
        StepReply::OfRoom(answer) => host_answer_line(alloc, answer),
        StepReply::Opened(events) => count_line(alloc, b"open", *events as u64),
        StepReply::Replayed(body) => body_line(alloc, b"kept", body.as_bytes()),
        StepReply::Busy => flag_line(alloc, b"busy"),
        StepReply::OfEvent(told) => event_line(alloc, told),
        StepReply::NoMore => flag_line(alloc, b"no_more"),
        StepReply::NotOpen => flag_line(alloc, b"not_open"),
        StepReply::Closed(body) => body_line(alloc, b"closed", body.as_bytes()),
        StepReply::MoreLeft(events) => count_line(alloc, b"more", *events as u64),
    }
}

/// The line that tells what a line which hosts a room is answered, in canonical JSON and without its newline. By any other
/// answer the line has no form.
///
/// `AllocError` where no memory was left.
pub fn host_answer_line(alloc: Global, answer: &Answer) -> Result<Vec<u8>, AllocError>
    ensures { IfOk result (λ line. line.items ≡ definition.host_output answer.now) }
{
    match answer {
        Answer::Hosted(id) => text_line(alloc, b"hosted", id.as_str().as_bytes()),
        Answer::AlreadyHosted(id) => text_line(alloc, b"already", id.as_str().as_bytes()),
        Answer::NotHost(why) => refused_line(alloc, *why),
        Answer::NotHosted | Answer::ToOffered(_) | Answer::ToJoined(_) | Answer::ToAsked(_) => {
            text_line(alloc, b"error", b"bad line")
        }
    }
}

fn refused_line(alloc: Global, why: NotARoom) -> Result<Vec<u8>, AllocError>
    ensures { IfOk result (λ line. line.items ≡ definition.refused_output (definition.not_a_room_text why)) }
{
    let text = not_a_room_text(alloc, why)?;
    let line = text_line(alloc, b"refused", text.as_bytes())?;
    Ok(line)
}

fn not_a_room_text(alloc: Global, why: NotARoom) -> Result<String, AllocError>
    ensures { IfOk result (λ text. string_bytes text ≡ definition.not_a_room_text why) }
{
    let (lead, rest) = not_a_room_words(why);
    let mut text = String::from_str(alloc, lead)?;
    text.push_str(rest)?;
    Ok(text)
}

// The text in two pieces. A create event that cites auth events counts as malformed.
fn not_a_room_words(why: NotARoom) -> (&'static str, &'static str)
    ensures { result.0.now ++ result.1.now ≡ definition.not_a_room_text why }
{
    match why {
        NotARoom::NotACreateEvent => ("not a create event", ""),
        NotARoom::CitesAuthEvents => ("malformed", ""),
        NotARoom::Unsigned => ("signature", ""),
        NotARoom::BadContentHash => ("content hash", ""),
        NotARoom::BreaksRule(rule) => ("rule ", rule.label()),
    }
}

// What became of an event.
fn event_line(alloc: Global, told: &Told) -> Result<Vec<u8>, AllocError>
    ensures { IfOk result (λ line. line.items ≡ definition.step_output (StepReply.OfEvent told.now)) }
{
    let outcome = processing_result(alloc, told.outcome)?;
    let mut line = TextBuffer::new(alloc);
    write_event(&mut line, &told.id, &outcome);
    let bytes = line.into_bytes()?;
    Ok(bytes)
}

fn write_event<S: TextSink>(sink: &mut S, id: &EventId, outcome: &Value)
    ensures { (taken : List ℕ) → S.has_taken sink.old taken → S.has_taken sink.new
        (taken ++ canonical_text (object (member (codes "id") (string id.now)
        (member (codes "reply") (view outcome.now) no_members)))) }
{
    sink.put(b"{");
    write_key(sink, false, b"id");
    write_string(sink, id.as_str().as_bytes());
    write_key(sink, true, b"reply");
    write_text(sink, outcome);
    sink.put(b"}");
}

// An object with a body, which is canonical JSON itself, at its one key.
fn body_line(alloc: Global, key: &[u8], body: &[u8]) -> Result<Vec<u8>, AllocError>
    ensures { IfOk result (λ line. line.items ≡ definition.with_body key.now body.now) }
{
    let mut line = TextBuffer::new(alloc);
    write_body(&mut line, key, body);
    let bytes = line.into_bytes()?;
    Ok(bytes)
}

fn write_body<S: TextSink>(sink: &mut S, key: &[u8], body: &[u8])
    ensures { (taken : List ℕ) → S.has_taken sink.old taken
        → S.has_taken sink.new (taken ++ definition.with_body key.now body.now) }
{
    sink.put(b"{");
    write_key(sink, false, key);
    sink.put(body);
    sink.put(b"}");
}

// An object with one member, a text.
fn text_line(alloc: Global, key: &[u8], text: &[u8]) -> Result<Vec<u8>, AllocError>
    ensures { IfOk result (λ line. line.items ≡ definition.one_member key.now (string text.now)) }
{
    let mut line = TextBuffer::new(alloc);
    write_text_member(&mut line, key, text);
    let bytes = line.into_bytes()?;
    Ok(bytes)
}

fn write_text_member<S: TextSink>(sink: &mut S, key: &[u8], text: &[u8])
    ensures { (taken : List ℕ) → S.has_taken sink.old taken
        → S.has_taken sink.new (taken ++ definition.one_member key.now (string text.now)) }
{
    sink.put(b"{");
    write_key(sink, false, key);
    write_string(sink, text);
    sink.put(b"}");
}

// An object with one member, a number.
fn count_line(alloc: Global, key: &[u8], count: u64) -> Result<Vec<u8>, AllocError>
    ensures { IfOk result (λ line. line.items ≡ definition.one_member key.now (number (unsigned count))) }
{
    let mut line = TextBuffer::new(alloc);
    write_count_member(&mut line, key, count);
    let bytes = line.into_bytes()?;
    Ok(bytes)
}

fn write_count_member<S: TextSink>(sink: &mut S, key: &[u8], count: u64)
    ensures { (taken : List ℕ) → S.has_taken sink.old taken
        → S.has_taken sink.new (taken ++ definition.one_member key.now (number (unsigned count))) }
{
    sink.put(b"{");
    write_key(sink, false, key);
    write_number(sink, count);
    sink.put(b"}");
}

// An object with one member, which is true.
fn flag_line(alloc: Global, key: &[u8]) -> Result<Vec<u8>, AllocError>
    ensures { IfOk result (λ line. line.items ≡ definition.one_member key.now (boolean true)) }
{
    let mut line = TextBuffer::new(alloc);
    write_flag_member(&mut line, key);
    let bytes = line.into_bytes()?;
    Ok(bytes)
}

fn write_flag_member<S: TextSink>(sink: &mut S, key: &[u8])
    ensures { (taken : List ℕ) → S.has_taken sink.old taken
        → S.has_taken sink.new (taken ++ definition.one_member key.now (boolean true)) }
{
    sink.put(b"{");
    write_key(sink, false, key);
    sink.put(b"true");
    sink.put(b"}");
}
