// What a log needs of an event that is well formed.
ghost use Rattle.std.specs.Prelude.{◌≡◌, ◌++◌, ◌∷◌, [], IfOk, IsTrue, true, filter_map, option_and_then, option_map};
ghost use Rattle.std.specs.List.{list_all};
ghost use Rattle.serde_json.specs.Data.{object};
ghost use Rattle.serde_json.specs.Find.{as_array, as_str};
ghost use Rattle.serde_json.specs.View.{view, items_view, members_view};
ghost use Rattle.mx_ident.specs.Identifier.{is_event_id};
ghost use Rattle.mx_redact.specs.Fields.{field as field_at, is_none_or, text_at, texts_at};
ghost use Rattle.mx_redact.specs.Hashes.{event_id, reference_hash};
ghost use Rattle.mx_pdu.specs.Event.{room_of, sender_of};
ghost use Rattle.mx_pdu.specs.Format.{is_well_formed};

use mx_ident::{EventId, IdError, RoomId, UserId};
use mx_redact::{field, id_with_hash, reference_digest, text_field};
use serde_json::{Map, Value};
use std::alloc::{AllocError, Global};

/// The members of a well-formed event.
pub(crate) fn object_of(value: &Value) -> &Map<String, Value>
    requires { IsTrue (is_well_formed (view value.now)) }
    ensures { object (members_view result.now.entries) ≡ view value.now }
{
    match value.as_object() {
        Some(members) => members,
        None => unreachable!(),
    }
}

/// The id of an event.
#[tactic(auto, unfolding(mx_redact::specs::Hashes::event_id))]
pub(crate) fn id_of(alloc: Global, event: &Map<String, Value>) -> Result<EventId, AllocError>
    ensures { IfOk result (λ id. id ≡ event_id (object (members_view event.now.entries))) }
{
    id_with_hash(alloc, &reference_digest(event))
}

/// The id of an event that has this reference hash.
#[tactic(auto, unfolding(mx_redact::specs::Hashes::event_id))]
pub(crate) fn id_by_hash(
    alloc: Global,
    event: &Map<String, Value>,
    hash: &[u8; 32],
) -> Result<EventId, AllocError>
    requires { hash.now ≡ reference_hash (object (members_view event.now.entries)) }
    ensures { IfOk result (λ id. id ≡ event_id (object (members_view event.now.entries))) }
{
    id_with_hash(alloc, hash)
}

/// The room that an event is of.
pub(crate) fn room_id_in(alloc: Global, event: &Map<String, Value>) -> Result<RoomId, AllocError>
    requires { IsTrue (is_well_formed (object (members_view event.now.entries))) }
    ensures { IfOk result (λ id. id ≡ room_of (object (members_view event.now.entries))) }
{
    match RoomId::parse(alloc, text_or_empty_at(event, "room_id")) {
        Ok(id) => Ok(id),
        Err(IdError::Memory) => Err(AllocError),
        Err(IdError::NotAnId(_)) => unreachable!(),
    }
}

/// Who sent an event.
pub(crate) fn sender_in(alloc: Global, event: &Map<String, Value>) -> Result<UserId, AllocError>
    requires { IsTrue (is_well_formed (object (members_view event.now.entries))) }
    ensures { IfOk result (λ id. id ≡ sender_of (object (members_view event.now.entries))) }
{
    match UserId::parse(alloc, text_or_empty_at(event, "sender")) {
        Ok(id) => Ok(id),
        Err(IdError::Memory) => Err(AllocError),
        Err(IdError::NotAnId(_)) => unreachable!(),
    }
}

/// The ids in the array at a key.
pub(crate) fn event_ids_at(
    alloc: Global,
    event: &Map<String, Value>,
    key: &str,
) -> Result<Vec<EventId>, AllocError>
    requires { list_all is_event_id (texts_at key.now (object (members_view event.now.entries))) ≡ true }
    ensures { IfOk result (λ ids. ids.items ≡ texts_at key.now (object (members_view event.now.entries))) }
{
    match array_at(event, key) {
        Some(items) => event_ids_of(alloc, items),
        None => Ok(Vec::new(alloc)),
    }
}

fn event_ids_of(alloc: Global, items: &[Value]) -> Result<Vec<EventId>, AllocError>
    requires { list_all is_event_id (filter_map (λ value. as_str (view value)) items.now) ≡ true }
    ensures { IfOk result (λ ids. ids.items ≡ filter_map (λ value. as_str (view value)) items.now) }
{
    let mut ids = Vec::with_capacity(alloc, items.len())?;
    for item in items {
        push_event_id(alloc, &mut ids, item)?;
    }
    Ok(ids)
}

fn push_event_id(alloc: Global, ids: &mut Vec<EventId>, item: &Value) -> Result<(), AllocError>
    requires { is_none_or is_event_id (as_str (view item.now)) ≡ true }
    ensures { IfOk result (λ _. ids.new.items ≡ ids.old.items ++ filter_map (λ value. as_str (view value)) (item.now ∷ [])) }
{
    if let Some(text) = item.as_str() {
        let id = event_id_of(alloc, text)?;
        ids.push(id)?;
    }
    Ok(())
}

fn event_id_of(alloc: Global, text: &str) -> Result<EventId, AllocError>
    requires { is_event_id text.now ≡ true }
    ensures { IfOk result (λ id. id ≡ text.now) }
{
    match EventId::parse(alloc, text) {
        Ok(id) => Ok(id),
        Err(IdError::Memory) => Err(AllocError),
        Err(IdError::NotAnId(_)) => unreachable!(),
    }
}

// The text at a key, else the empty text.
fn text_or_empty_at<'a>(event: &'a Map<String, Value>, key: &str) -> &'a str
    ensures { result.now ≡ text_at key.now (object (members_view event.now.entries)) }
{
    text_field(event, key).unwrap_or("")
}

// The array at a key.
fn array_at<'a>(event: &'a Map<String, Value>, key: &str) -> Option<&'a Vec<Value>>
    ensures { option_map (λ items. items_view items.now.items) result
        ≡ option_and_then as_array (field_at key.now (object (members_view event.now.entries))) }
{
    field(event, key).and_then(Value::as_array)
}
