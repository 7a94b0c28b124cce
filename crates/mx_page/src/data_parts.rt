// The data of a page around the entries of its events.
ghost use Rattle.std.specs.Prelude.{◌≡◌, ◌++◌, ℕ, IfOk, List};
ghost use Rattle.mx_page.specs.Escaping.{escaped as escaped_text};
ghost use Rattle.mx_page.specs.Page as definition;

use crate::entry_texts::without_end;
use crate::escaping::escaped;
use mx_canon::{TextBuffer, TextSink, write_string};
use mx_ident::RoomId;
use mx_lines::put_comma;
use std::alloc::{AllocError, Global};

/// The beginning of a page's data, as it stands within a script of HTML: the room's id, and all up to the first entry.
/// `AllocError` where no memory is left.
pub fn data_start(alloc: Global, room: &RoomId) -> Result<Vec<u8>, AllocError>
    ensures { IfOk result (λ text. text.items ≡ escaped_text (definition.data_start room.now)) }
{
    let mut start = TextBuffer::new(alloc);
    write_start(&mut start, room);
    let bytes = start.into_bytes()?;
    let text = escaped(alloc, &bytes)?;
    Ok(text)
}

fn write_start<S: TextSink>(sink: &mut S, room: &RoomId)
    ensures { (taken : List ℕ) → S.has_taken sink.old taken
        → S.has_taken sink.new (taken ++ definition.data_start room.now) }
{
    sink.put(b"{\"room\":");
    write_string(sink, room.as_str().as_bytes());
    sink.put(b",\"events\":[");
}

/// What stands in a page's data between the last entry and the lines of events that were offered and not kept.
pub fn refused_start() -> &'static str
    ensures { result.now ≡ definition.refused_start }
{
    "],\"refused\":["
}

/// The line of an event that was offered and not kept, in the data of a page as it stands within a script of HTML, with a
/// comma before each line but the first. `line` ends with a newline. `AllocError` where no memory is left.
pub fn refused_entry(alloc: Global, is_later: bool, line: &[u8]) -> Result<Vec<u8>, AllocError>
    ensures { IfOk result (λ text. text.items ≡ escaped_text (definition.refused_entry is_later line.now)) }
{
    let mut entry = TextBuffer::new(alloc);
    write_refused(&mut entry, is_later, line);
    let bytes = entry.into_bytes()?;
    let text = escaped(alloc, &bytes)?;
    Ok(text)
}

fn write_refused<S: TextSink>(sink: &mut S, is_later: bool, line: &[u8])
    ensures { (taken : List ℕ) → S.has_taken sink.old taken
        → S.has_taken sink.new (taken ++ definition.refused_entry is_later line.now) }
{
    put_comma(sink, is_later);
    sink.put(without_end(line));
    sink.put(b"\n");
}

/// The end of a page's data, behind the last of those lines.
pub fn data_end() -> &'static str
    ensures { result.now ≡ definition.data_end }
{
    "]}"
}
