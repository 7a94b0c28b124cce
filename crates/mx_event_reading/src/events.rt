// Events, read token by token.
ghost use Rattle.std.specs.Prelude.{◌≡◌, ◌<◌, ◌≤◌, IfOk, IfSome, IsTrue, List, OnOk, Option, int_le, length, option_map, pos, string_bytes, true};
ghost use Rattle.json.specs.Json.{value};
ghost use Rattle.json.specs.Token.{Token};
ghost use Rattle.serde_json.specs.Data.{Data, Members, object};
ghost use Rattle.serde_json.specs.Read.{of_json, converted};
ghost use Rattle.serde_json.specs.View.{members_view};
ghost use Rattle.mx_ident.specs.Identifier.{is_room_id, is_user_id};
ghost use Rattle.mx_pdu.specs.EventParts.{ArePartsOf};
ghost use Rattle.mx_pdu.specs.Format.{is_well_formed};
ghost use Rattle.mx_pdu.specs.Offers.{offer_by};
ghost use Rattle.mx_pdu.specs.RuleContent.{is_rule_key};
ghost use Rattle.mx_redact.specs.Redaction.{members_where};
ghost use Rattle.mx_event_reading.specs.Contents.{signed};
ghost use Rattle.mx_event_reading.specs.InOrder.{ReadsCanonical};
ghost use Rattle.mx_event_reading.specs.EventRead.{IsEventRead, KeepsLimits, members_of};
ghost use Rattle.mx_event_reading.specs.OpenTexts.{IsOpened};

use crate::contents::OneSignature;
use crate::in_order::AppendError;
use crate::open_texts::{
    OpenText, any_member_if, close_text, content_member, hash_member, ids_member, integer_member,
    open_text, signature_member, text_member, text_member_if,
};
use json::Reader;
use mx_ident::{EventId, IdError, RoomId, UserId};
use mx_pdu::{EventParts, Offered, Verifier};
use mx_redact::EventKey;
use serde_json::{Map, Value};
use std::alloc::{AllocError, Global};

// How many bytes the canonical text of an event has at most (Matrix specification, Client-Server API, "Size limits").
const LONGEST: usize = 65_536;

// How many bytes its type and its state key have at most (the same section).
const LONGEST_FIELD: usize = 255;

// How many events it cites at most (Matrix specification, Room Version 6, event format).
const MOST_AUTH_EVENTS: usize = 10;

const MOST_PREV_EVENTS: usize = 20;

/// What was read of an event beside its text: its fields, and the members of its content that rules read.
#[derive(Drop)]
pub(crate) struct FieldsRead<'a> {
    pub auth_events: Vec<EventId>,
    pub content: Map<String, Value>,
    pub depth: i64,
    pub hash: &'a str,
    pub origin_server_ts: i64,
    pub prev_events: Vec<EventId>,
    pub room_id: &'a str,
    pub sender: &'a str,
    pub signature: OneSignature<'a>,
    pub state_key: Option<&'a str>,
    pub kind: &'a str,
}

/// The next value, an event whose members are those that most servers send, in canonical order.
pub(crate) fn read_event<V: Verifier>(
    alloc: Global,
    reader: &mut Reader<'_>,
    verifier: &V,
) -> Result<Offered, AppendError>
    ensures read { IfOk result (λ offered. ReadsCanonical offered.pdu (converted of_json (value 125 reader.old)) reader.new) }
    ensures offered { IfOk result (λ offered. offered ≡ offer_by (V.judges verifier.now) offered.pdu) }
    ensures formed { IfOk result (λ offered. IsTrue (is_well_formed offered.pdu)) }
    ensures shorter { OnOk result (length reader.new < length reader.old) }
{
    let mut text = open_text(alloc, reader)?;
    let fields = read_fields(alloc, reader, &mut text)?;
    if !keeps_limits(&fields, &text) {
        return Err(AppendError::NotInOrder);
    }
    let Ok(whole) = String::from_utf8(text.bytes) else {
        return Err(AppendError::NotInOrder);
    };
    let parts = parts_of(alloc, fields)?;
    let offered = Offered::of_parts(alloc, whole, &text.places, parts, verifier)?;
    Ok(offered)
}

// The members of an event, behind the opening bracket.
fn read_fields<'a>(
    alloc: Global,
    reader: &mut Reader<'a>,
    text: &mut OpenText<'a>,
) -> Result<FieldsRead<'a>, AppendError>
    ensures { IfOk result (λ fields. (old : List Token) → IsOpened old reader.old text.old
        → IsEventRead fields text.new old reader.new) }
{
    let auth_events = ids_member(alloc, reader, text, EventKey::AuthEvents, MOST_AUTH_EVENTS)?;
    let content = content_member(alloc, reader, text)?;
    let depth = integer_member(alloc, reader, text, EventKey::Depth)?;
    let hash = hash_member(alloc, reader, text)?;
    any_member_if(alloc, reader, text, EventKey::Origin)?;
    let origin_server_ts = integer_member(alloc, reader, text, EventKey::OriginServerTs)?;
    let prev_events = ids_member(alloc, reader, text, EventKey::PrevEvents, MOST_PREV_EVENTS)?;
    let room_id = text_member(alloc, reader, text, EventKey::RoomId)?;
    let sender = text_member(alloc, reader, text, EventKey::Sender)?;
    let signature = signature_member(alloc, reader, text)?;
    let state_key = text_member_if(alloc, reader, text, EventKey::StateKey)?;
    let kind = text_member(alloc, reader, text, EventKey::Kind)?;
    any_member_if(alloc, reader, text, EventKey::Unsigned)?;
    close_text(text)?;
    Ok(FieldsRead {
        auth_events,
        content,
        depth,
        hash,
        origin_server_ts,
        prev_events,
        room_id,
        sender,
        signature,
        state_key,
        kind,
    })
}

fn keeps_limits(fields: &FieldsRead<'_>, text: &OpenText<'_>) -> bool
    ensures { result ≡ true → KeepsLimits fields.now text.now }
{
    text.bytes.len() <= LONGEST
        && is_short(fields.state_key)
        && fields.kind.len() <= LONGEST_FIELD
        && fields.depth >= 0
}

fn is_short(text: Option<&str>) -> bool
    ensures { result ≡ true → IfSome text.entry (λ text. length text.now ≤ 255) }
{
    match text {
        Some(text) => text.len() <= LONGEST_FIELD,
        None => true,
    }
}

// What an event is made of beside its text.
fn parts_of(alloc: Global, fields: FieldsRead<'_>) -> Result<EventParts<'_>, AppendError>
    requires { int_le (pos 0) fields.depth ≡ true }
    ensures parts { IfOk result (λ parts. (content : Members) (origin unsigned : Option Data)
        → members_where is_rule_key content ≡ members_view fields.entry.content.entries
        → ArePartsOf parts (object (members_of fields.entry content origin unsigned))) }
    ensures room { OnOk result (is_room_id fields.entry.room_id.now ≡ true) }
    ensures sender { OnOk result (is_user_id fields.entry.sender.now ≡ true) }
{
    let kind = String::from_str(alloc, fields.kind)?;
    let state_key = copied(alloc, fields.state_key)?;
    let room_id = room_of(alloc, fields.room_id)?;
    let sender = user_of(alloc, fields.sender)?;
    let signatures = signatures_of(alloc, fields.signature)?;
    Ok(EventParts {
        kind,
        state_key,
        room_id,
        sender,
        prev_events: fields.prev_events,
        auth_events: fields.auth_events,
        redacts: None,
        depth: fields.depth as u64,
        origin_server_ts: fields.origin_server_ts,
        content: fields.content,
        hash: Some(fields.hash),
        signatures,
    })
}

fn copied(alloc: Global, text: Option<&str>) -> Result<Option<String>, AllocError>
    ensures { IfOk result (λ copy. option_map string_bytes copy ≡ option_map (λ text. text.now) text.entry) }
{
    match text {
        Some(text) => Ok(Some(String::from_str(alloc, text)?)),
        None => Ok(None),
    }
}

fn room_of(alloc: Global, text: &str) -> Result<RoomId, AppendError>
    ensures id { IfOk result (λ id. id ≡ text.now) }
    ensures valid { OnOk result (is_room_id text.now ≡ true) }
{
    match RoomId::parse(alloc, text) {
        Ok(id) => Ok(id),
        Err(IdError::Memory) => Err(AppendError::Memory),
        Err(IdError::NotAnId(_)) => Err(AppendError::NotInOrder),
    }
}

fn user_of(alloc: Global, text: &str) -> Result<UserId, AppendError>
    ensures id { IfOk result (λ id. id ≡ text.now) }
    ensures valid { OnOk result (is_user_id text.now ≡ true) }
{
    match UserId::parse(alloc, text) {
        Ok(id) => Ok(id),
        Err(IdError::Memory) => Err(AppendError::Memory),
        Err(IdError::NotAnId(_)) => Err(AppendError::NotInOrder),
    }
}

fn signatures_of(
    alloc: Global,
    signature: OneSignature<'_>,
) -> Result<Map<String, Value>, AllocError>
    ensures { IfOk result (λ map. object (members_view map.entries) ≡ signed signature.entry) }
{
    let OneSignature { server, key, text } = signature;
    let mut of_server = Map::new(alloc);
    of_server.insert(
        String::from_str(alloc, key)?,
        Value::String(String::from_str(alloc, text)?),
    )?;
    let mut all = Map::new(alloc);
    all.insert(String::from_str(alloc, server)?, Value::Object(of_server))?;
    Ok(all)
}
