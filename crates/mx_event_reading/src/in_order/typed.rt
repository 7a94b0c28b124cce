// Values of a known kind, read and appended.
ghost use Rattle.std.specs.Prelude.{◌≡◌, ◌<◌, ◌≤◌, ◌++◌, ℕ, length, IfOk, IsTrue, OnOk, false};
ghost use Rattle.std.specs.List.{list_all};
ghost use Rattle.json.specs.Json.{value, items, parse_map};
ghost use Rattle.mx_ident.specs.Identifier.{is_event_id};
ghost use Rattle.serde_json.specs.Data.{array, number, string};
ghost use Rattle.serde_json.specs.Find.{of_integer};
ghost use Rattle.serde_json.specs.Read.{of_json, of_items, converted};
ghost use Rattle.serde_json.specs.Written.{comma_if, items_text};
ghost use Rattle.mx_event_reading.specs.InOrder.{IsAppended, ReadsCanonical, strings};

use super::AppendError;
use super::sinks::append_string;
use crate::numbers::exact_integer;
use json::{Reader, Token};
use mx_ident::{EventId, IdError};
use std::alloc::{AllocError, Global};

/// The next value, which is a string; its canonical text is put behind `out`.
///
/// `NotInOrder` where another value is next, or none; `Memory`. After an error nothing is said of `out`.
pub fn append_text<'a>(
    alloc: Global,
    reader: &mut Reader<'a>,
    out: &mut Vec<u8>,
) -> Result<&'a str, AppendError>
    ensures ok { IfOk result (λ text. (depth : ℕ) → IsAppended (string text.now)
        (converted of_json (value depth reader.old)) reader.new out.old.items out.new.items) }
    ensures shorter { OnOk result (length reader.new < length reader.old) }
{
    let Some(Token::String(text)) = reader.next() else {
        return Err(AppendError::NotInOrder);
    };
    append_string(alloc, out, text)?;
    Ok(text)
}

/// The next value, which is an integer from -(2^53-1) to 2^53-1; its canonical text is put behind `out`.
///
/// `NotInOrder` where another value is next, or none; `Memory`. After an error nothing is said of `out`. Source: the
/// Matrix specification, the appendix "Canonical JSON".
pub fn append_integer(reader: &mut Reader<'_>, out: &mut Vec<u8>) -> Result<i64, AppendError>
    ensures ok { IfOk result (λ integer. (depth : ℕ) → IsAppended (number (of_integer integer))
        (converted of_json (value depth reader.old)) reader.new out.old.items out.new.items) }
    ensures shorter { OnOk result (length reader.new < length reader.old) }
{
    let Some(Token::Number(text)) = reader.next() else {
        return Err(AppendError::NotInOrder);
    };
    let Some(integer) = exact_integer(text) else {
        return Err(AppendError::NotInOrder);
    };
    let mut buffer = itoa::Buffer::new();
    out.extend_from_slice(buffer.format(integer).as_bytes())?;
    Ok(integer)
}

/// The next value, which is an array of at most `most` event ids; its canonical text is put behind `out`.
///
/// `NotInOrder` where another value is next, or none; `Memory`. After an error nothing is said of `out`. Source: the
/// Matrix specification, the appendix "Event IDs".
pub fn append_event_ids(
    alloc: Global,
    reader: &mut Reader<'_>,
    out: &mut Vec<u8>,
    most: usize,
) -> Result<Vec<EventId>, AppendError>
    ensures ok { IfOk result (λ ids. (depth : ℕ) → 0 < depth → IsAppended (array (strings ids.items))
        (converted of_json (value depth reader.old)) reader.new out.old.items out.new.items) }
    ensures ids { IfOk result (λ ids. IsTrue (list_all is_event_id ids.items)) }
    ensures count { IfOk result (λ ids. length ids.items ≤ most) }
    ensures shorter { OnOk result (length reader.new < length reader.old) }
{
    let Some(Token::BeginArray) = reader.next() else {
        return Err(AppendError::NotInOrder);
    };
    out.push(b'[')?;
    append_ids(alloc, reader, out, most)
}

// What comes behind the opening bracket. An event keeps the ids, so they have no room to spare.
fn append_ids(
    alloc: Global,
    reader: &mut Reader<'_>,
    out: &mut Vec<u8>,
    most: usize,
) -> Result<Vec<EventId>, AppendError>
    ensures ok { IfOk result (λ ids. ((depth : ℕ) → ReadsCanonical (array (strings ids.items))
        (parse_map array (converted of_items (items (value depth) (length reader.old) reader.old))) reader.new)
        × (out.new.items ≡ out.old.items ++ items_text false (strings ids.items))) }
    ensures ids { IfOk result (λ ids. IsTrue (list_all is_event_id ids.items)) }
    ensures count { IfOk result (λ ids. length ids.items ≤ most) }
    ensures shorter { OnOk result (length reader.new ≤ length reader.old) }
{
    let mut ids = Vec::new(alloc);
    let mut later = false;
    'items: while !reader.take_end_array() {
        if ids.len() >= most {
            return Err(AppendError::NotInOrder);
        }
        append_comma(out, later)?;
        let id = append_event_id(alloc, reader, out)?;
        ids.push(id)?;
        later = true;
    }
    out.push(b']')?;
    ids.shrink_to_fit();
    Ok(ids)
}

fn append_comma(out: &mut Vec<u8>, later: bool) -> Result<(), AllocError>
    ensures { OnOk result (out.new.items ≡ out.old.items ++ comma_if later) }
{
    if later {
        out.push(b',')?;
    }
    Ok(())
}

fn append_event_id(
    alloc: Global,
    reader: &mut Reader<'_>,
    out: &mut Vec<u8>,
) -> Result<EventId, AppendError>
    ensures ok { IfOk result (λ id. (depth : ℕ) → IsAppended (string id)
        (converted of_json (value depth reader.old)) reader.new out.old.items out.new.items) }
    ensures id { IfOk result (λ id. IsTrue (is_event_id id)) }
    ensures shorter { OnOk result (length reader.new < length reader.old) }
{
    let text = append_text(alloc, reader, out)?;
    match EventId::parse(alloc, text) {
        Ok(id) => Ok(id),
        Err(IdError::Memory) => Err(AppendError::Memory),
        Err(IdError::NotAnId(_)) => Err(AppendError::NotInOrder),
    }
}
