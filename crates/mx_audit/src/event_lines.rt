// The lines that tell of the events of a room.
ghost use Rattle.std.specs.Prelude.{◌≡◌, ◌<◌, ◌++◌, ℕ, All, IfOk, List, Some, None, codes, if◌then◌else◌, length, nat_lt, option_map, map, filter, suc};
ghost use Rattle.serde_json.specs.Data.{string};
ghost use Rattle.mx_canon.specs.Canonical.{value_text};
ghost use Rattle.mx_pdu.specs.Event.{is_state as is_state_event};
ghost use Rattle.mx_graph.specs.Record.{event as event_at, is_in, row as row_at};
ghost use Rattle.mx_receipt.specs.Receipt.{forward_extremities, is_accepted, kept_at, rows_of, version_in};
ghost use Rattle.mx_lines.specs.Lines.{line_of};
ghost use Rattle.mx_lines.specs.Written.{with_member, with_members};
ghost use Rattle.mx_audit.specs.EventLines as definition;
ghost use Rattle.mx_audit.specs.LineParts.{AreParts};
ghost use Rattle.mx_audit.specs.Reasons.{check_text};
ghost use Rattle.mx_audit.specs.Told.{told_shown};
ghost use Rattle.mx_audit.specs.Written.{head_written};

use crate::checks::Check;
use crate::entry_lines::write_asked;
use crate::explaining::Explanation;
use crate::judged_events::{because_of, judged_event};
use crate::reasons::{label_of, refusal_of, verdict_name};
use crate::room_audits::RoomAudit;
use mx_canon::{TextBuffer, TextSink, write_key};
use mx_graph::{EventNo, GraphRow};
use mx_ident::EventId;
use mx_lines::{
    content_text, end_line, hash_name, membership_told, open_line, write_content, write_flag,
    write_ids, write_ids_member, write_number_member, write_text_if, write_text_member, write_time,
};
use mx_pdu::Pdu;
use mx_receipt::Timeline;
use mx_states::StateRef;
use std::alloc::{AllocError, Global};

// How many bytes a line has room for before it takes more memory.
const USUAL_LINE: usize = 1024;

/// One line of JSON that tells of the event with this number, in canonical form and with its newline: the event, the
/// verdict on it, why, what stood in the state that decided, and what is of it now. None where there is no such event.
/// `AllocError` where no memory is left.
pub fn event_line(
    alloc: Global,
    audit: &RoomAudit,
    number: EventNo,
) -> Result<Option<Vec<u8>>, AllocError>
    ensures { IfOk result (λ line. option_map (λ text. text.items) line
        ≡ (if nat_lt number (length audit.now) then Some (definition.event_text audit.now number) else None)) }
{
    let timeline = audit.timeline();
    if number.index() >= timeline.len() {
        return Ok(None);
    }
    let explanation = audit.explanation(alloc, number)?;
    let line = line_of_event(alloc, timeline, number, explanation.as_ref())?;
    Ok(Some(line))
}

fn line_of_event(
    alloc: Global,
    timeline: &Timeline,
    number: EventNo,
    explanation: Option<&Explanation>,
) -> Result<Vec<u8>, AllocError>
    requires { number < length timeline.now.kept }
    ensures { IfOk result (λ line. line.items ≡ line_of (definition.event_members timeline.now.kept number
        (option_map (λ e. told_shown e.now) explanation.entry))) }
{
    let parts = parts_of(alloc, timeline, number, explanation)?;
    let mut line = TextBuffer::with_capacity(alloc, USUAL_LINE)?;
    write_event_line(&mut line, timeline, number, explanation, &parts);
    let bytes = line.into_bytes()?;
    Ok(bytes)
}

// What of a line takes memory before it is written: the accepted redactions, the text of the content, and why the rules do
// not allow the event.
#[derive(Drop)]
struct LineParts {
    redactions: Vec<EventId>,
    content: Vec<u8>,
    because: Option<Vec<u8>>,
}

fn parts_of(
    alloc: Global,
    timeline: &Timeline,
    number: EventNo,
    explanation: Option<&Explanation>,
) -> Result<LineParts, AllocError>
    requires { number < length timeline.now.kept }
    ensures { IfOk result (AreParts timeline.now.kept number (option_map (λ e. told_shown e.now) explanation.entry)) }
{
    let row = timeline.row(number);
    let redactions = accepted_redactions(alloc, timeline, &row.id)?;
    let content = content_text(alloc, &row.event)?;
    let refusal = refusal_of(timeline.verdict(number));
    let because = because_of(alloc, &judged_event(timeline, number, explanation), refusal)?;
    Ok(LineParts {
        redactions,
        content,
        because,
    })
}

// The ids of the accepted redactions that name an id.
fn accepted_redactions(
    alloc: Global,
    timeline: &Timeline,
    id: &EventId,
) -> Result<Vec<EventId>, AllocError>
    ensures { IfOk result (λ ids. ids.items ≡ definition.redacted_by timeline.now.kept id.now) }
{
    ids_of_accepted(alloc, timeline, timeline.redactions_naming(id))
}

fn ids_of_accepted(
    alloc: Global,
    timeline: &Timeline,
    numbers: &[EventNo],
) -> Result<Vec<EventId>, AllocError>
    requires { All (λ number. number < length timeline.now.kept) numbers.now }
    ensures { IfOk result (λ ids. ids.items ≡ map (λ p. (row_at (rows_of timeline.now.kept) p).id)
        (filter (λ p. is_accepted (kept_at timeline.now.kept p).verdict) numbers.now)) }
{
    let mut ids = Vec::new(alloc);
    for number in numbers {
        if timeline.verdict(*number).is_accepted() {
            ids.push(timeline.row(*number).id.clone()?)?;
        }
    }
    Ok(ids)
}

fn write_event_line<S: TextSink>(
    sink: &mut S,
    timeline: &Timeline,
    number: EventNo,
    explanation: Option<&Explanation>,
    parts: &LineParts,
)
    requires number { number < length timeline.now.kept }
    requires parts { AreParts timeline.now.kept number (option_map (λ e. told_shown e.now) explanation) parts.now }
    ensures { (taken : List ℕ) → S.has_taken sink.old taken
        → S.has_taken sink.new (taken ++ line_of (definition.event_members timeline.now.kept number
        (option_map (λ e. told_shown e.now) explanation.entry))) }
{
    let row = timeline.row(number);
    write_head(sink, &row.event, parts, failed_name(explanation));
    write_content(sink, is_state(&row.event), &parts.content);
    write_middle(sink, row);
    write_standing(sink, timeline, number);
    write_key(sink, true, b"judged_by");
    write_judged(sink, timeline, number, explanation);
    write_place(sink, &row.event, number, &parts.redactions);
    write_tail(sink, timeline, number);
}

// The first members: what comes before the content.
fn write_head<S: TextSink>(
    sink: &mut S,
    event: &Pdu,
    parts: &LineParts,
    failed: Option<&'static str>,
)
    ensures { (taken : List ℕ) → S.has_taken sink.old taken
        → S.has_taken sink.new (head_written taken event.now (option_map (λ t. t.items) parts.now.because)
        (option_map (λ text. text.now) failed.entry)) }
{
    open_line(sink, b"auth_events");
    write_ids(sink, event.auth_events());
    write_because(sink, &parts.because);
    write_text_if(sink, b"check", failed);
}

fn write_because<S: TextSink>(sink: &mut S, because: &Option<Vec<u8>>)
    ensures { (taken : List ℕ) → S.has_taken sink.old taken
        → S.has_taken sink.new (with_member taken (codes "because", option_map string (option_map (λ t. t.items) because.now))) }
{
    if let Some(text) = because {
        write_text_member(sink, b"because", text);
    }
}

// What comes between the content and the standing.
fn write_middle<S: TextSink>(sink: &mut S, row: &GraphRow)
    ensures { (taken : List ℕ) → S.has_taken sink.old taken
        → S.has_taken sink.new (with_members taken (definition.middle_members row.now.event row.now.id)) }
{
    write_text_member(
        sink,
        b"content_hash",
        hash_name(row.event.hash_holds()).as_bytes(),
    );
    write_number_member(sink, b"depth", row.event.depth());
    write_text_member(sink, b"event_id", row.id.as_str().as_bytes());
}

fn is_state(event: &Pdu) -> bool
    ensures { result ≡ is_state_event event.now }
{
    match event.state_key() {
        Some(_) => true,
        None => false,
    }
}

// What is of the event now: whether it is in the current state, and an extremity.
fn write_standing<S: TextSink>(sink: &mut S, timeline: &Timeline, number: EventNo)
    requires { number < length timeline.now.kept }
    ensures { (taken : List ℕ) → S.has_taken sink.old taken
        → S.has_taken sink.new (with_members taken (definition.standing_members timeline.now.kept number)) }
{
    let in_current_state = stands_in(&timeline.current(), &timeline.row(number).event, number);
    write_key(sink, true, b"in_current_state");
    write_flag(sink, in_current_state);
    write_key(sink, true, b"is_extremity");
    write_flag(sink, is_extremity(timeline, number));
}

// What stood in the state that decided. Nothing was asked of a create event.
fn write_judged<S: TextSink>(
    sink: &mut S,
    timeline: &Timeline,
    number: EventNo,
    explanation: Option<&Explanation>,
)
    requires { number < length timeline.now.kept }
    ensures { (taken : List ℕ) → S.has_taken sink.old taken
        → S.has_taken sink.new (taken ++ value_text (definition.judged_by timeline.now.kept
        (definition.judged_event timeline.now.kept number (option_map (λ e. told_shown e.now) explanation.entry))
        (option_map (λ e. told_shown e.now) explanation.entry))) }
{
    let judged = judged_event(timeline, number, explanation);
    match explanation {
        Some(explanation) => write_asked(sink, timeline, &judged, &explanation.asked),
        None => sink.put(b"[]"),
    }
}

// What comes behind the entries, up to the redactions.
fn write_place<S: TextSink>(sink: &mut S, event: &Pdu, number: EventNo, redactions: &[EventId])
    ensures { (taken : List ℕ) → S.has_taken sink.old taken
        → S.has_taken sink.new (with_members taken (definition.place_members event.now number redactions.now)) }
{
    write_text_if(sink, b"membership", membership_told(event));
    write_time(sink, event);
    write_number_member(sink, b"place", place_of(number));
    write_ids_member(sink, b"prev_events", event.prev_events());
    write_ids_member(sink, b"redacted_by", redactions);
}

// The place of an event in the order of arrival, from 1.
fn place_of(number: EventNo) -> u64
    ensures { result ≡ suc number }
{
    number.index() as u64 + 1
}

// The last members, and the end of the line.
fn write_tail<S: TextSink>(sink: &mut S, timeline: &Timeline, number: EventNo)
    requires { number < length timeline.now.kept }
    ensures { (taken : List ℕ) → S.has_taken sink.old taken
        → S.has_taken sink.new (with_members taken (definition.tail_members (event_at (rows_of timeline.now.kept) number)
        (kept_at timeline.now.kept number).verdict (version_in (rows_of timeline.now.kept))) ++ codes "}\n") }
{
    let event = &timeline.row(number).event;
    let verdict = timeline.verdict(number);
    write_text_if(sink, b"rule", label_of(refusal_of(verdict)));
    write_text_member(sink, b"sender", event.sender().as_str().as_bytes());
    write_text_if(sink, b"state_key", event.state_key());
    write_text_member(sink, b"type", event.kind().as_bytes());
    write_text_member(sink, b"verdict", verdict_name(verdict).as_bytes());
    write_text_member(sink, b"version", timeline.version().text().as_bytes());
    end_line(sink);
}

// The check that decided, where one failed.
fn failed_name(explanation: Option<&Explanation>) -> Option<&'static str>
    ensures { option_map (λ text. text.now) result ≡ definition.failed_text (option_map (λ e. told_shown e.now) explanation.entry) }
{
    match explanation?.failed {
        Some(failed) => Some(check_name(failed.check)),
        None => None,
    }
}

// The check, as lines name it.
fn check_name(check: Check) -> &'static str
    ensures { result.now ≡ check_text check }
{
    match check {
        Check::AuthEvents => "auth events",
        Check::StateBefore => "state before",
        Check::CurrentState => "current state",
    }
}

/// Whether an event is a forward extremity.
pub(crate) fn is_extremity(timeline: &Timeline, number: EventNo) -> bool
    ensures { result ≡ is_in (forward_extremities timeline.now.kept) number }
{
    timeline.extremities().contains(&number)
}

// Whether an event stands in a state.
fn stands_in(state: &StateRef<'_>, event: &Pdu, number: EventNo) -> bool
    ensures { result ≡ definition.stands_in state.now event.now number }
{
    match event.state_key() {
        Some(state_key) => state.get(event.kind(), state_key) == Some(number),
        None => false,
    }
}
