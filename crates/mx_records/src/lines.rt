// The line of a record, as JSON or as text.
ghost use Rattle.std.specs.Prelude.{◌≡◌, ◌++◌, ℕ, IfOk, List, codes, flat_map, map};
ghost use Rattle.log.specs.Level.{level_name};
ghost use Rattle.serde_json.specs.Data.{number, unsigned};
ghost use Rattle.mx_canon.specs.Canonical.{canonical_text, string_text};
ghost use Rattle.mx_records.specs.Members.{json_member, member_shown, plain_member, text_at};
ghost use Rattle.mx_records.specs.RecordLines as definition;
ghost use Rattle.mx_records.specs.Records.{event_members, kind_text, level_of, request_members, subject_members};

use crate::members::{Member, MemberValue};
use crate::moments::moment_text;
use crate::records::{AnsweredRequest, EventNotTaken, Record, Subject};
use mx_canon::{TextBuffer, TextSink, write_key, write_string, write_text};
use serde_json::{Number, Value};
use std::alloc::{AllocError, Global};

/// As what a record is written: a line of text for people, or a line of JSON for machines.
#[derive(Clone, Copy, Debug, PartialEq, Eq)]
pub enum RecordForm {
    Text,
    Json,
}

/// The line of a record, with its newline. A line of text begins with the moment, as a date and time in UTC. `AllocError` where no
/// memory is left.
pub fn record_line(alloc: Global, form: RecordForm, told: &Record) -> Result<Vec<u8>, AllocError>
    ensures json { IfOk result (λ line. form ≡ RecordForm.Json → line.items ≡ definition.json_line told.now.at told.now.subject) }
    ensures text { IfOk result (λ line. form ≡ RecordForm.Text
        → (moment : List ℕ) × (line.items ≡ definition.plain_line moment told.now.subject)) }
{
    match form {
        RecordForm::Json => json_bytes(alloc, told),
        RecordForm::Text => plain_bytes(alloc, told),
    }
}

fn json_bytes(alloc: Global, told: &Record) -> Result<Vec<u8>, AllocError>
    ensures { IfOk result (λ line. line.items ≡ definition.json_line told.now.at told.now.subject) }
{
    let members = members_of(alloc, &told.subject)?;
    let mut line = TextBuffer::new(alloc);
    write_json(&mut line, told.at, &told.subject, &members);
    let bytes = line.into_bytes()?;
    Ok(bytes)
}

fn plain_bytes(alloc: Global, told: &Record) -> Result<Vec<u8>, AllocError>
    ensures { IfOk result (λ line. (moment : List ℕ) × (line.items ≡ definition.plain_line moment told.now.subject)) }
{
    let members = members_of(alloc, &told.subject)?;
    let moment = moment_text(alloc, told.at)?;
    let mut line = TextBuffer::new(alloc);
    write_plain(&mut line, &moment, &told.subject, &members);
    let bytes = line.into_bytes()?;
    Ok(bytes)
}

// What is told of a subject.
fn members_of(alloc: Global, subject: &Subject) -> Result<Vec<Member<'_>>, AllocError>
    ensures { IfOk result (λ members. map member_shown members.items ≡ subject_members subject.now) }
{
    match subject {
        Subject::Request(request) => request_members(alloc, request),
        Subject::Event(event) => event_members(alloc, event),
        Subject::Notice(notice) => {
            let members = vec![in alloc; Member::text("text", notice.text.as_str())]?;
            Ok(members)
        }
    }
}

fn request_members(alloc: Global, request: &AnsweredRequest) -> Result<Vec<Member<'_>>, AllocError>
    ensures { IfOk result (λ members. map member_shown members.items ≡ request_members request.now) }
{
    let origin = match &request.origin {
        Some(origin) => Some(origin.as_str()),
        None => None,
    };
    let room = match &request.room {
        Some(room) => Some(room.as_str()),
        None => None,
    };
    let members = vec![in alloc;
        Member::text_if("origin", origin),
        Member::text("method", request.method),
        Member::text("route", request.route.name()),
        Member::text_if("room", room),
        Member::number("status", u64::from(request.status)),
        Member::number("milliseconds", request.milliseconds),
        Member::number("bytes", request.bytes),
    ]?;
    Ok(members)
}

fn event_members(alloc: Global, event: &EventNotTaken) -> Result<Vec<Member<'_>>, AllocError>
    ensures { IfOk result (λ members. map member_shown members.items ≡ event_members event.now) }
{
    let members = vec![in alloc;
        Member::text("origin", event.origin.as_str()),
        Member::text("event_id", event.id.as_str()),
        Member::text("room", event.room.as_str()),
        Member::text("sender", event.sender.as_str()),
        Member::text("cause", event.cause.as_str()),
    ]?;
    Ok(members)
}

fn write_json<S: TextSink>(sink: &mut S, at: u64, subject: &Subject, members: &[Member<'_>])
    ensures { (taken : List ℕ) → map member_shown members.now ≡ subject_members subject.now → S.has_taken sink.old taken
        → S.has_taken sink.new (taken ++ definition.json_line at subject.now) }
{
    sink.put(b"{\"at\":");
    write_number(sink, at);
    write_json_member(sink, &Member::text("level", subject.level().as_str()));
    write_json_member(sink, &Member::text("kind", subject.kind()));
    write_json_members(sink, members);
    sink.put(b"}\n");
}

fn write_json_members<S: TextSink>(sink: &mut S, members: &[Member<'_>])
    ensures { (taken : List ℕ) → S.has_taken sink.old taken
        → S.has_taken sink.new (taken ++ flat_map json_member (map member_shown members.now)) }
{
    for member in members {
        write_json_member(sink, member);
    }
}

#[tactic(auto, unfolding(mx_canon::specs::Canonical::canonical_text))]
fn write_json_member<S: TextSink>(sink: &mut S, member: &Member<'_>)
    ensures { (taken : List ℕ) → S.has_taken sink.old taken
        → S.has_taken sink.new (taken ++ json_member (member_shown member.now)) }
{
    match member.value {
        MemberValue::None => {}
        MemberValue::Text(text) => {
            write_key(sink, true, member.key.as_bytes());
            write_string(sink, text.as_bytes());
        }
        MemberValue::Number(number) => {
            write_key(sink, true, member.key.as_bytes());
            write_number(sink, number);
        }
    }
}

fn write_plain<S: TextSink>(sink: &mut S, moment: &str, subject: &Subject, members: &[Member<'_>])
    ensures { (taken : List ℕ) → map member_shown members.now ≡ subject_members subject.now → S.has_taken sink.old taken
        → S.has_taken sink.new (taken ++ definition.plain_line moment.now subject.now) }
{
    sink.put(moment.as_bytes());
    sink.put(b" ");
    sink.put(subject.level().as_str().as_bytes());
    sink.put(b" ");
    sink.put(subject.kind().as_bytes());
    write_plain_members(sink, members);
    sink.put(b"\n");
}

fn write_plain_members<S: TextSink>(sink: &mut S, members: &[Member<'_>])
    ensures { (taken : List ℕ) → S.has_taken sink.old taken
        → S.has_taken sink.new (taken ++ flat_map plain_member (map member_shown members.now)) }
{
    for member in members {
        write_plain_member(sink, member);
    }
}

#[tactic(auto, unfolding(mx_canon::specs::Canonical::canonical_text))]
fn write_plain_member<S: TextSink>(sink: &mut S, member: &Member<'_>)
    ensures { (taken : List ℕ) → S.has_taken sink.old taken
        → S.has_taken sink.new (taken ++ plain_member (member_shown member.now)) }
{
    match member.value {
        MemberValue::None => {}
        MemberValue::Text(text) => {
            write_plain_key(sink, member.key);
            write_string(sink, text.as_bytes());
        }
        MemberValue::Number(number) => {
            write_plain_key(sink, member.key);
            write_number(sink, number);
        }
    }
}

fn write_plain_key<S: TextSink>(sink: &mut S, key: &str)
    ensures { (taken : List ℕ) → S.has_taken sink.old taken
        → S.has_taken sink.new (taken ++ (codes " " ++ (key.now ++ codes "="))) }
{
    sink.put(b" ");
    sink.put(key.as_bytes());
    sink.put(b"=");
}

fn write_number<S: TextSink>(sink: &mut S, value: u64)
    ensures { (taken : List ℕ) → S.has_taken sink.old taken
        → S.has_taken sink.new (taken ++ canonical_text (number (unsigned value))) }
{
    let number = Value::Number(Number::from(value));
    write_text(sink, &number);
}
