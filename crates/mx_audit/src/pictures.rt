// A room as a graph, in the language of Graphviz.
ghost use Rattle.std.specs.Prelude.{◌≡◌, ◌<◌, ◌++◌, [], ℕ, IfOk, List, None, Some, codes, flat_map, if◌then◌else◌, length, nat_lt, option_map};
ghost use Rattle.mx_audit.specs.Pictures as definition;
ghost use Rattle.mx_audit.specs.Reasons.{colour_text};

use crate::event_lines::is_extremity;
use crate::room_audits::RoomAudit;
use mx_canon::{TextBuffer, TextSink};
use mx_graph::EventNo;
use mx_lines::write_number;
use mx_receipt::{Timeline, Verdict};
use std::alloc::{AllocError, Global};

// How many characters of an id a box shows.
const SHORT_ID: usize = 9;

/// The first lines of a picture.
pub fn picture_head() -> &'static str
    ensures { result.now ≡ definition.head_text }
{
    "digraph room {\n  node [shape=box, style=filled];\n"
}

/// The last line of a picture.
pub fn picture_end() -> &'static str
    ensures { result.now ≡ definition.end_text }
{
    "}\n"
}

/// The lines of the event with this number in a picture of its room: a box with its type, its sender and the beginning of
/// its id, coloured by its verdict, with a double border where it is a forward extremity; and an arrow to each of its prev
/// events. None where there is no such event. `AllocError` where no memory is left.
pub fn picture_lines(
    alloc: Global,
    audit: &RoomAudit,
    number: EventNo,
) -> Result<Option<Vec<u8>>, AllocError>
    ensures { IfOk result (λ lines. option_map (λ text. text.items) lines
        ≡ (if nat_lt number (length audit.now) then Some (definition.picture_text audit.now number) else None)) }
{
    let timeline = audit.timeline();
    if number.index() >= timeline.len() {
        return Ok(None);
    }
    let lines = lines_of_event(alloc, timeline, number)?;
    Ok(Some(lines))
}

fn lines_of_event(
    alloc: Global,
    timeline: &Timeline,
    number: EventNo,
) -> Result<Vec<u8>, AllocError>
    requires { number < length timeline.now.kept }
    ensures { IfOk result (λ lines. lines.items ≡ definition.picture_text timeline.now.kept number) }
{
    let mut lines = TextBuffer::new(alloc);
    write_box(&mut lines, timeline, number);
    write_arrows(&mut lines, number, timeline.prev_events(number));
    let bytes = lines.into_bytes()?;
    Ok(bytes)
}

fn write_box<S: TextSink>(sink: &mut S, timeline: &Timeline, number: EventNo)
    requires { number < length timeline.now.kept }
    ensures { (taken : List ℕ) → S.has_taken sink.old taken
        → S.has_taken sink.new (taken ++ definition.box_text timeline.now.kept number) }
{
    let row = timeline.row(number);
    sink.put(b"  e");
    write_number(sink, number.index() as u64);
    sink.put(b" [label=\"");
    write_label(sink, row.event.kind().as_bytes());
    sink.put(b"\\n");
    write_label(sink, row.event.sender().as_str().as_bytes());
    sink.put(b"\\n");
    write_label(sink, beginning_of(row.id.as_str().as_bytes()));
    sink.put(b"\", fillcolor=\"");
    sink.put(colour_of(timeline.verdict(number)).as_bytes());
    sink.put(b"\"");
    write_border(sink, is_extremity(timeline, number));
    sink.put(b"];\n");
}

fn write_border<S: TextSink>(sink: &mut S, is_double: bool)
    ensures { (taken : List ℕ) → S.has_taken sink.old taken
        → S.has_taken sink.new (taken ++ (if is_double then codes ", peripheries=2" else [])) }
{
    if is_double {
        sink.put(b", peripheries=2");
    }
}

fn beginning_of(id: &[u8]) -> &[u8]
    ensures { result.now ≡ definition.beginning id.now }
{
    if id.len() > SHORT_ID {
        &id[..SHORT_ID]
    } else {
        id
    }
}

// Green for accepted, yellow for soft failed, red for rejected.
fn colour_of(verdict: Verdict) -> &'static str
    ensures { result.now ≡ colour_text verdict }
{
    match verdict {
        Verdict::Accepted => "#d5e8d4",
        Verdict::SoftFailed(_) => "#fff2cc",
        Verdict::Rejected(_) => "#f8cecc",
    }
}

// Gives the sink a text within a label.
fn write_label<S: TextSink>(sink: &mut S, text: &[u8])
    ensures { (taken : List ℕ) → S.has_taken sink.old taken
        → S.has_taken sink.new (taken ++ definition.label text.now) }
{
    for place in 0..text.len() {
        write_label_at(sink, text, place);
    }
}

// Gives the sink what stands in a label for one byte of a text.
fn write_label_at<S: TextSink>(sink: &mut S, text: &[u8], place: usize)
    requires { place < length text.now }
    ensures { (taken : List ℕ) → S.has_taken sink.old taken
        → S.has_taken sink.new (taken ++ definition.label_at text.now place) }
{
    if begins_noncharacter(&text[place..]) {
        sink.put(b" ");
    } else if !continues_noncharacter(text, place) {
        write_character(sink, text[place]);
    }
}

// Whether a text begins with U+FFFE or U+FFFF.
fn begins_noncharacter(text: &[u8]) -> bool
    ensures { result ≡ definition.begins_noncharacter text.now }
{
    text.starts_with(b"\xef\xbf\xbe") || text.starts_with(b"\xef\xbf\xbf")
}

// Whether a byte of a text is the second or the third of such a character.
fn continues_noncharacter(text: &[u8], place: usize) -> bool
    requires { place < length text.now }
    ensures { result ≡ definition.continues_noncharacter text.now place }
{
    (place > 0 && begins_noncharacter(&text[place - 1..]))
        || (place > 1 && begins_noncharacter(&text[place - 2..]))
}

fn write_character<S: TextSink>(sink: &mut S, character: u8)
    ensures { (taken : List ℕ) → S.has_taken sink.old taken
        → S.has_taken sink.new (taken ++ definition.label_character character) }
{
    if character == b'&' {
        sink.put(b"&amp;");
    } else if character == b'"' || character == b'\\' {
        sink.put(&[b'\\', character]);
    } else if character < 32 {
        sink.put(b" ");
    } else {
        sink.put(&[character]);
    }
}

fn write_arrows<S: TextSink>(sink: &mut S, number: EventNo, prev_events: &[EventNo])
    ensures { (taken : List ℕ) → S.has_taken sink.old taken
        → S.has_taken sink.new (taken ++ flat_map (definition.arrow_text number) prev_events.now) }
{
    for prev in prev_events {
        write_arrow(sink, number, *prev);
    }
}

fn write_arrow<S: TextSink>(sink: &mut S, from: EventNo, to: EventNo)
    ensures { (taken : List ℕ) → S.has_taken sink.old taken
        → S.has_taken sink.new (taken ++ definition.arrow_text from to) }
{
    sink.put(b"  e");
    write_number(sink, from.index() as u64);
    sink.put(b" -> e");
    write_number(sink, to.index() as u64);
    sink.put(b";\n");
}
