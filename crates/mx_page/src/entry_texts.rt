// An entry of a page's data as JSON.
ghost use Rattle.std.specs.Prelude.{◌≡◌, ◌++◌, ℕ, IfOk, List, flat_map, nat_lt, option_map};
ghost use Rattle.mx_page.specs.EntryTexts as definition;

use crate::change_texts::{place_of, write_changes};
use crate::state_changes::StateChange;
use mx_canon::{TextBuffer, TextSink};
use mx_graph::EventNo;
use mx_lines::{put_comma, write_number};
use std::alloc::{AllocError, Global};

// What of an entry takes memory before it is written.
#[derive(Drop)]
pub(crate) struct EntryParts {
    pub(crate) line: Vec<u8>,
    pub(crate) base: Option<EventNo>,
    pub(crate) before: Vec<StateChange>,
    pub(crate) after: Vec<StateChange>,
    pub(crate) resolution: Option<Vec<u8>>,
}

/// The text of an entry, of its parts. `AllocError` where no memory is left.
pub(crate) fn text_of_parts(
    alloc: Global,
    number: EventNo,
    parts: &EntryParts,
) -> Result<Vec<u8>, AllocError>
    ensures { IfOk result (λ text. text.items ≡ definition.entry_of (nat_lt 0 number) parts.now.after.items parts.now.base
        parts.now.before.items parts.now.line.items (option_map (λ t. t.items) parts.now.resolution)) }
{
    let mut entry = TextBuffer::new(alloc);
    write_entry(&mut entry, number.index() > 0, parts);
    let bytes = entry.into_bytes()?;
    Ok(bytes)
}

fn write_entry<S: TextSink>(sink: &mut S, later: bool, parts: &EntryParts)
    ensures { (taken : List ℕ) → S.has_taken sink.old taken
        → S.has_taken sink.new (taken ++ definition.entry_of later parts.now.after.items parts.now.base
        parts.now.before.items parts.now.line.items (option_map (λ t. t.items) parts.now.resolution)) }
{
    put_comma(sink, later);
    sink.put(b"{\"after\":");
    write_changes(sink, &parts.after);
    write_base(sink, parts.base);
    sink.put(b",\"before\":");
    write_changes(sink, &parts.before);
    sink.put(b",\"line\":");
    sink.put(without_end(&parts.line));
    write_resolution(sink, &parts.resolution);
    sink.put(b"}\n");
}

fn write_base<S: TextSink>(sink: &mut S, base: Option<EventNo>)
    ensures { (taken : List ℕ) → S.has_taken sink.old taken
        → S.has_taken sink.new (taken ++ definition.base_text base) }
{
    if let Some(number) = base {
        sink.put(b",\"base\":");
        write_number(sink, place_of(number));
    }
}

fn write_resolution<S: TextSink>(sink: &mut S, lines: &Option<Vec<u8>>)
    ensures { (taken : List ℕ) → S.has_taken sink.old taken
        → S.has_taken sink.new (taken ++ definition.resolution_member (option_map (λ t. t.items) lines.now)) }
{
    if let Some(lines) = lines {
        sink.put(b",\"resolution\":[");
        write_items(sink, without_end(lines));
        sink.put(b"]");
    }
}

// Gives the sink lines, with a comma for each newline.
fn write_items<S: TextSink>(sink: &mut S, lines: &[u8])
    ensures { (taken : List ℕ) → S.has_taken sink.old taken
        → S.has_taken sink.new (taken ++ flat_map definition.comma_for lines.now) }
{
    for byte in lines {
        write_item_byte(sink, *byte);
    }
}

fn write_item_byte<S: TextSink>(sink: &mut S, byte: u8)
    ensures { (taken : List ℕ) → S.has_taken sink.old taken
        → S.has_taken sink.new (taken ++ definition.comma_for byte) }
{
    if byte == b'\n' {
        sink.put(b",");
    } else {
        sink.put(&[byte]);
    }
}

/// A text without its last byte, which ends its last line.
pub(crate) fn without_end(text: &[u8]) -> &[u8]
    ensures { result.now ≡ definition.without_end text.now }
{
    if text.is_empty() {
        text
    } else {
        &text[..text.len() - 1]
    }
}
