// Objects in an event, appended as they are read.
ghost use Rattle.std.specs.Prelude.{◌≡◌, ◌<◌, ◌≤◌, ◌++◌, ◌∷◌, [], ℕ, IfOk, OnOk, None, Some, length};
ghost use Rattle.json.specs.Json.{read_key, value};
ghost use Rattle.serde_json.specs.Data.{Members, member, no_members, object, string};
ghost use Rattle.serde_json.specs.Read.{of_json, converted};
ghost use Rattle.serde_json.specs.View.{view, members_view};
ghost use Rattle.mx_redact.specs.Redaction.{members_where};
ghost use Rattle.mx_pdu.specs.RuleContent.{is_rule_key as is_in_rules};
ghost use Rattle.mx_event_reading.specs.Contents.{AppendsMember, IsFirstKey, signed};
ghost use Rattle.mx_event_reading.specs.InOrder.{IsAppended};

use crate::in_order::{AppendError, append_key, append_text, append_value, is_above};
use json::{Reader, Scratch, Token};
use mx_body::{BodyError, body_value};
use mx_pdu::is_rule_key;
use serde_json::{Map, Value};
use std::alloc::Global;

// How deep the values of a content's members may nest.
const DEPTH: usize = 123;

// What was read of a content: the members that rules read, and what values are read over, where one was.
#[derive(Drop)]
struct Known {
    members: Map<String, Value>,
    scratch: Option<Box<Scratch>>,
}

/// The next value, an object: its members that rules read.
pub(crate) fn append_content(
    alloc: Global,
    reader: &mut Reader<'_>,
    out: &mut Vec<u8>,
) -> Result<Map<String, Value>, AppendError>
    ensures ok { IfOk result (λ known. (ms : Members) × (members_where is_in_rules ms ≡ members_view known.entries)
        × IsAppended (object ms) (converted of_json (value 124 reader.old)) reader.new out.old.items out.new.items) }
    ensures shorter { OnOk result (length reader.new < length reader.old) }
{
    let Some(Token::BeginObject) = reader.next() else {
        return Err(AppendError::NotInOrder);
    };
    out.push(b'{')?;
    let mut known = Known {
        members: Map::new(alloc),
        scratch: None,
    };
    let mut last = None;
    'members: while let Some(key) = reader.next_key()? {
        if !is_above(key, last) {
            return Err(AppendError::NotInOrder);
        }
        append_key(alloc, out, last.is_some(), key)?;
        append_member(alloc, reader, key, &mut known, out)?;
        last = Some(key);
    }
    out.push(b'}')?;
    Ok(known.members)
}

// The value of a content's member, which is kept where rules read it.
fn append_member(
    alloc: Global,
    reader: &mut Reader<'_>,
    key: &str,
    known: &mut Known,
    out: &mut Vec<u8>,
) -> Result<(), AppendError>
    ensures ok { OnOk result (AppendsMember key.now (converted of_json (value 123 reader.old)) reader.new
        out.old.items out.new.items (members_view known.old.members.entries) (members_view known.new.members.entries)) }
    ensures shorter { OnOk result (length reader.new < length reader.old) }
{
    if is_rule_key(key) {
        let value = append_known(alloc, reader, key, &mut known.scratch, out)?;
        drop(known.members.insert(String::from_str(alloc, key)?, value)?);
        return Ok(());
    }
    append_value(alloc, reader, DEPTH, out)
}

// The next value, which is that of a member with this key; its text is appended.
fn append_known(
    alloc: Global,
    reader: &mut Reader<'_>,
    key: &str,
    scratch: &mut Option<Box<Scratch>>,
    out: &mut Vec<u8>,
) -> Result<Value, AppendError>
    ensures ok { IfOk result (λ found. IsAppended (view found) (converted of_json (value 123 reader.old)) reader.new
        out.old.items out.new.items) }
    ensures shorter { OnOk result (length reader.new < length reader.old) }
{
    if is_text_key(key) {
        let text = append_text(alloc, reader, out)?;
        return Ok(Value::String(String::from_str(alloc, text)?));
    }
    append_read(alloc, reader, scratch, out)
}

// Whether rules read a text at this key.
fn is_text_key(key: &str) -> bool {
    matches!(
        key,
        "creator" | "history_visibility" | "join_rule" | "membership" | "room_version"
    )
}

// The next value, whose text is appended, and which is read from that text.
fn append_read(
    alloc: Global,
    reader: &mut Reader<'_>,
    scratch: &mut Option<Box<Scratch>>,
    out: &mut Vec<u8>,
) -> Result<Value, AppendError>
    ensures ok { IfOk result (λ found. IsAppended (view found) (converted of_json (value 123 reader.old)) reader.new
        out.old.items out.new.items) }
    ensures shorter { OnOk result (length reader.new < length reader.old) }
{
    let start = out.len();
    append_value(alloc, reader, DEPTH, out)?;
    let mut lent = match scratch.take() {
        Some(kept) => kept,
        None => Box::new(alloc, Scratch::new(alloc))?,
    };
    let read = body_value(alloc, &mut *lent, &out[start..]);
    *scratch = Some(lent);
    match read {
        Ok(value) => Ok(value),
        Err(BodyError::Memory) => Err(AppendError::Memory),
        Err(BodyError::NotJson) => Err(AppendError::NotInOrder),
    }
}

/// The next value, an object of one text: its key and the text.
pub(crate) fn append_one_text<'a>(
    alloc: Global,
    reader: &mut Reader<'a>,
    out: &mut Vec<u8>,
) -> Result<OneText<'a>, AppendError>
    ensures ok { IfOk result (λ one. (depth : ℕ) → 0 < depth → IsAppended (object (member one.key.now (string one.text.now) no_members))
        (converted of_json (value depth reader.old)) reader.new out.old.items out.new.items) }
    ensures shorter { OnOk result (length reader.new < length reader.old) }
{
    let key = open_object(alloc, reader, out)?;
    let text = append_text(alloc, reader, out)?;
    close_object(reader, out)?;
    Ok(OneText { key, text })
}

/// A text at a key.
#[derive(Clone, Copy, Drop)]
pub(crate) struct OneText<'a> {
    pub key: &'a str,
    pub text: &'a str,
}

/// One signature of an event: whose, by which key, and its text.
#[derive(Clone, Copy, Drop)]
pub(crate) struct OneSignature<'a> {
    pub server: &'a str,
    pub key: &'a str,
    pub text: &'a str,
}

/// The next value, an object of one object of one text.
pub(crate) fn append_signature<'a>(
    alloc: Global,
    reader: &mut Reader<'a>,
    out: &mut Vec<u8>,
) -> Result<OneSignature<'a>, AppendError>
    ensures ok { IfOk result (λ one. (depth : ℕ) → 1 < depth → IsAppended (signed one)
        (converted of_json (value depth reader.old)) reader.new out.old.items out.new.items) }
    ensures shorter { OnOk result (length reader.new < length reader.old) }
{
    let server = open_object(alloc, reader, out)?;
    let one = append_one_text(alloc, reader, out)?;
    close_object(reader, out)?;
    Ok(OneSignature {
        server,
        key: one.key,
        text: one.text,
    })
}

// What stands before the value of the next value's first member, an object's: its key.
fn open_object<'a>(
    alloc: Global,
    reader: &mut Reader<'a>,
    out: &mut Vec<u8>,
) -> Result<&'a str, AppendError>
    ensures ok { IfOk result (λ key. IsFirstKey key.now reader.old reader.new out.old.items out.new.items) }
    ensures shorter { OnOk result (length reader.new < length reader.old) }
{
    let Some(Token::BeginObject) = reader.next() else {
        return Err(AppendError::NotInOrder);
    };
    let Some(key) = reader.next_key()? else {
        return Err(AppendError::NotInOrder);
    };
    out.push(b'{')?;
    append_key(alloc, out, false, key)?;
    Ok(key)
}

// What stands behind the value of an object's last member.
fn close_object(reader: &mut Reader<'_>, out: &mut Vec<u8>) -> Result<(), AppendError>
    ensures read { OnOk result (read_key reader.old ≡ Some (None, reader.new)) }
    ensures bytes { OnOk result (out.new.items ≡ out.old.items ++ 125 ∷ []) }
    ensures shorter { OnOk result (length reader.new ≤ length reader.old) }
{
    if reader.next_key()?.is_some() {
        return Err(AppendError::NotInOrder);
    }
    out.push(b'}')?;
    Ok(())
}
