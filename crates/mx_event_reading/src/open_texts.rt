// The canonical text of an object, put together as its members are read.
ghost use Rattle.std.specs.Prelude.{◌≡◌, ◌<◌, ◌≤◌, ◌++◌, ◌∷◌, [], ℕ, IfOk, IsTrue, OnOk, Option, None, Some, codes, length, option_map, true};
ghost use Rattle.std.specs.List.{list_all};
ghost use Rattle.mx_ident.specs.Identifier.{is_event_id};
ghost use Rattle.serde_json.specs.Data.{Data, Members, array, member, no_members, number, object, string};
ghost use Rattle.serde_json.specs.Find.{of_integer};
ghost use Rattle.serde_json.specs.View.{members_view};
ghost use Rattle.mx_pdu.specs.RuleContent.{is_rule_key};
ghost use Rattle.mx_redact.specs.Redaction.{members_where};
ghost use Rattle.mx_event_reading.specs.InOrder.{strings};
ghost use Rattle.mx_event_reading.specs.OpenTexts.{IsBegun, IsEnded, IsMember, IsMemberIf, IsOpened, is_later as is_later_in, member_name, next_of, start_of as start_in};
ghost use Rattle.mx_event_reading.specs.Contents.{signed};

use crate::contents::{OneSignature, append_content, append_one_text, append_signature};
use crate::in_order::{
    AppendError, append_event_ids, append_integer, append_key, append_text, append_value,
};
use crate::member_names::name_of;
use json::{Reader, Token};
use mx_ident::EventId;
use mx_redact::{EventKey, MemberPlace};
use serde_json::{Map, Value};
use std::alloc::Global;

// The room for a text at its start, in bytes. Most events have less.
const CAPACITY: usize = 1024;

// As many members as most events have.
const MEMBERS: usize = 16;

// How deep the values of an event's members may nest: an event stands in an array, and that in an object.
pub(crate) const MEMBER_DEPTH: usize = 124;

/// The canonical text of an object so far, the places of its members, and the key whose value is next.
#[derive(Drop)]
pub(crate) struct OpenText<'a> {
    pub bytes: Vec<u8>,
    pub places: Vec<MemberPlace>,
    pub next: Option<&'a str>,
}

// Where a member begins in the text, and its value.
#[derive(Clone, Copy, Drop)]
struct MemberStart {
    start: usize,
    value: usize,
}

/// The text of the next value, an object, before its first member.
pub(crate) fn open_text<'a>(
    alloc: Global,
    reader: &mut Reader<'a>,
) -> Result<OpenText<'a>, AppendError>
    ensures { IfOk result (IsOpened reader.old reader.new) }
{
    let Some(Token::BeginObject) = reader.next() else {
        return Err(AppendError::NotInOrder);
    };
    let mut bytes = Vec::with_capacity(alloc, CAPACITY)?;
    bytes.push(b'{')?;
    let places = Vec::with_capacity(alloc, MEMBERS)?;
    let next = reader.next_key()?;
    Ok(OpenText {
        bytes,
        places,
        next,
    })
}

// What stands before a member's value, where the member is the next.
fn begin_member(
    alloc: Global,
    text: &mut OpenText<'_>,
    key: EventKey,
) -> Result<MemberStart, AppendError>
    ensures { IfOk result (IsBegun (member_name key) text.old text.new) }
{
    if !is_next(text, key) {
        return Err(AppendError::NotInOrder);
    }
    let start = start_of(text);
    let later = is_later(text);
    append_key(alloc, &mut text.bytes, later, name_of(key))?;
    Ok(MemberStart {
        start,
        value: text.bytes.len(),
    })
}

// Whether a comma stands before the next member.
fn is_later(text: &OpenText<'_>) -> bool
    ensures { result ≡ is_later_in text.now }
{
    !text.places.is_empty()
}

// Where the next member begins.
fn start_of(text: &OpenText<'_>) -> usize
    ensures { result ≡ start_in text.now }
{
    if is_later(text) {
        text.bytes.len() + 1
    } else {
        text.bytes.len()
    }
}

// What comes behind a member's value.
fn end_member<'a>(
    reader: &mut Reader<'a>,
    text: &mut OpenText<'a>,
    key: EventKey,
    begun: MemberStart,
) -> Result<(), AppendError>
    ensures { OnOk result (IsEnded key begun text.old text.new reader.old reader.new) }
{
    text.places.push(MemberPlace {
        key,
        start: begun.start,
        value: begun.value,
        end: text.bytes.len(),
    })?;
    text.next = reader.next_key()?;
    Ok(())
}

/// The next member, whose value is a text.
pub(crate) fn text_member<'a>(
    alloc: Global,
    reader: &mut Reader<'a>,
    text: &mut OpenText<'a>,
    key: EventKey,
) -> Result<&'a str, AppendError>
    ensures { IfOk result (λ found. (depth : ℕ) →
        IsMember key (member_name key) depth (string found.now) text.old text.new reader.old reader.new) }
{
    let begun = begin_member(alloc, text, key)?;
    let found = append_text(alloc, reader, &mut text.bytes)?;
    end_member(reader, text, key, begun)?;
    Ok(found)
}

/// The next member, whose value is a text, where it is this one; else nothing is read.
pub(crate) fn text_member_if<'a>(
    alloc: Global,
    reader: &mut Reader<'a>,
    text: &mut OpenText<'a>,
    key: EventKey,
) -> Result<Option<&'a str>, AppendError>
    ensures { IfOk result (λ found. (depth : ℕ) → IsMemberIf key (member_name key) depth
        (option_map string (option_map (λ text. text.now) found)) text.old text.new reader.old reader.new) }
{
    if !is_next(text, key) {
        return Ok(None);
    }
    let found = text_member(alloc, reader, text, key)?;
    Ok(Some(found))
}

/// The next member, whose value is an integer.
pub(crate) fn integer_member<'a>(
    alloc: Global,
    reader: &mut Reader<'a>,
    text: &mut OpenText<'a>,
    key: EventKey,
) -> Result<i64, AppendError>
    ensures { IfOk result (λ found. (depth : ℕ) →
        IsMember key (member_name key) depth (number (of_integer found)) text.old text.new reader.old reader.new) }
{
    let begun = begin_member(alloc, text, key)?;
    let found = append_integer(reader, &mut text.bytes)?;
    end_member(reader, text, key, begun)?;
    Ok(found)
}

/// The next member, whose value is an array of at most so many event ids.
pub(crate) fn ids_member<'a>(
    alloc: Global,
    reader: &mut Reader<'a>,
    text: &mut OpenText<'a>,
    key: EventKey,
    most: usize,
) -> Result<Vec<EventId>, AppendError>
    ensures member { IfOk result (λ found. (depth : ℕ) → 0 < depth →
        IsMember key (member_name key) depth (array (strings found.items)) text.old text.new reader.old reader.new) }
    ensures ids { IfOk result (λ found. IsTrue (list_all is_event_id found.items)) }
    ensures count { IfOk result (λ found. length found.items ≤ most) }
{
    let begun = begin_member(alloc, text, key)?;
    let found = append_event_ids(alloc, reader, &mut text.bytes, most)?;
    end_member(reader, text, key, begun)?;
    Ok(found)
}

/// The next member, where it is this one; else nothing is read.
pub(crate) fn any_member_if<'a>(
    alloc: Global,
    reader: &mut Reader<'a>,
    text: &mut OpenText<'a>,
    key: EventKey,
) -> Result<(), AppendError>
    ensures { OnOk result ((d : Option Data) × IsMemberIf key (member_name key) 124 d text.old text.new reader.old reader.new) }
{
    if is_next(text, key) {
        any_member(alloc, reader, text, key)?;
    }
    Ok(())
}

fn any_member<'a>(
    alloc: Global,
    reader: &mut Reader<'a>,
    text: &mut OpenText<'a>,
    key: EventKey,
) -> Result<(), AppendError>
    ensures { OnOk result ((d : Data) × IsMember key (member_name key) 124 d text.old text.new reader.old reader.new) }
{
    let begun = begin_member(alloc, text, key)?;
    append_value(alloc, reader, MEMBER_DEPTH, &mut text.bytes)?;
    end_member(reader, text, key, begun)?;
    Ok(())
}

// Whether this member is the next.
fn is_next(text: &OpenText<'_>, key: EventKey) -> bool
    ensures { result ≡ true → next_of text.now ≡ Some (member_name key) }
{
    match text.next {
        Some(name) => name == name_of(key),
        None => false,
    }
}

/// Behind the last member.
pub(crate) fn close_text(text: &mut OpenText<'_>) -> Result<(), AppendError>
    ensures last { OnOk result (next_of text.old ≡ None) }
    ensures bytes { OnOk result (text.new.bytes.items ≡ text.old.bytes.items ++ 125 ∷ []) }
    ensures places { OnOk result (text.new.places.items ≡ text.old.places.items) }
{
    if text.next.is_some() {
        return Err(AppendError::NotInOrder);
    }
    text.bytes.push(b'}')?;
    Ok(())
}

/// The next member, whose value is an object: the members of this that rules read.
pub(crate) fn content_member<'a>(
    alloc: Global,
    reader: &mut Reader<'a>,
    text: &mut OpenText<'a>,
) -> Result<Map<String, Value>, AppendError>
    ensures { IfOk result (λ known. (ms : Members) × (members_where is_rule_key ms ≡ members_view known.entries)
        × IsMember EventKey.Content (codes "content") 124 (object ms) text.old text.new reader.old reader.new) }
{
    let begun = begin_member(alloc, text, EventKey::Content)?;
    let known = append_content(alloc, reader, &mut text.bytes)?;
    end_member(reader, text, EventKey::Content, begun)?;
    Ok(known)
}

/// The next member, `hashes`, which has a text at `sha256` alone.
pub(crate) fn hash_member<'a>(
    alloc: Global,
    reader: &mut Reader<'a>,
    text: &mut OpenText<'a>,
) -> Result<&'a str, AppendError>
    ensures { IfOk result (λ hash. IsMember EventKey.Hashes (codes "hashes") 124
        (object (member (codes "sha256") (string hash.now) no_members)) text.old text.new reader.old reader.new) }
{
    let begun = begin_member(alloc, text, EventKey::Hashes)?;
    let one = append_one_text(alloc, reader, &mut text.bytes)?;
    if one.key == "sha256" {
        end_member(reader, text, EventKey::Hashes, begun)?;
        return Ok(one.text);
    }
    Err(AppendError::NotInOrder)
}

/// The next member, `signatures`, which has one text of one server.
pub(crate) fn signature_member<'a>(
    alloc: Global,
    reader: &mut Reader<'a>,
    text: &mut OpenText<'a>,
) -> Result<OneSignature<'a>, AppendError>
    ensures { IfOk result (λ one. IsMember EventKey.Signatures (codes "signatures") 124 (signed one) text.old text.new
        reader.old reader.new) }
{
    let begun = begin_member(alloc, text, EventKey::Signatures)?;
    let found = append_signature(alloc, reader, &mut text.bytes)?;
    end_member(reader, text, EventKey::Signatures, begun)?;
    Ok(found)
}
