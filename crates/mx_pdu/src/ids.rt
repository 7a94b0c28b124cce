// The ids in an event that is well formed.
ghost use Rattle.std.specs.Prelude.{◌≡◌, ◌++◌, ◌∷◌, [], IfOk, true, filter_map, option_map, string_bytes};
ghost use Rattle.std.specs.List.{list_all};
ghost use Rattle.serde_json.specs.Data.{object};
ghost use Rattle.serde_json.specs.Find.{as_str};
ghost use Rattle.serde_json.specs.View.{view, members_view};
ghost use Rattle.mx_ident.specs.Identifier.{is_event_id, is_room_id, is_user_id};
ghost use Rattle.mx_redact.specs.Fields.{is_none_or};
ghost use Rattle.mx_pdu.specs.Event.{redacts_of};
ghost use Rattle.mx_pdu.specs.EventFields.{texts_in};

use crate::event_fields::EventFields;
use crate::lookups::{array_at, text_at};
use mx_ident::{EventId, IdError, RoomId, UserId};
use mx_redact::EventKey;
use serde_json::Value;
use std::alloc::{AllocError, Global};

pub fn room_id_of(alloc: Global, text: &str) -> Result<RoomId, AllocError>
    requires { is_room_id text.now ≡ true }
    ensures { IfOk result (λ id. id ≡ text.now) }
{
    match RoomId::parse(alloc, text) {
        Ok(id) => Ok(id),
        Err(IdError::Memory) => Err(AllocError),
        Err(IdError::NotAnId(_)) => unreachable!(),
    }
}

pub fn user_id_of(alloc: Global, text: &str) -> Result<UserId, AllocError>
    requires { is_user_id text.now ≡ true }
    ensures { IfOk result (λ id. id ≡ text.now) }
{
    match UserId::parse(alloc, text) {
        Ok(id) => Ok(id),
        Err(IdError::Memory) => Err(AllocError),
        Err(IdError::NotAnId(_)) => unreachable!(),
    }
}

// The event id at `redacts`, where one stands there.
pub fn redacted_id_in(alloc: Global, fields: &EventFields<'_>) -> Result<Option<String>, AllocError>
    ensures { IfOk result (λ id. option_map string_bytes id
        ≡ redacts_of (object (members_view fields.now.members.now.entries))) }
{
    match text_at(fields, EventKey::Redacts) {
        Some(id) if EventId::is(id) => Ok(Some(String::from_str(alloc, id)?)),
        _ => Ok(None),
    }
}

// The ids in the array at a key.
pub fn event_ids_at(
    alloc: Global,
    fields: &EventFields<'_>,
    key: EventKey,
) -> Result<Vec<EventId>, AllocError>
    requires { list_all is_event_id (texts_in key (object (members_view fields.now.members.now.entries))) ≡ true }
    ensures { IfOk result (λ ids. ids.items ≡ texts_in key (object (members_view fields.now.members.now.entries))) }
{
    match array_at(fields, key) {
        Some(items) => event_ids_of(alloc, items),
        None => Ok(Vec::new(alloc)),
    }
}

fn event_ids_of(alloc: Global, items: &[Value]) -> Result<Vec<EventId>, AllocError>
    requires { list_all is_event_id (filter_map (λ value. as_str (view value)) items.now) ≡ true }
    ensures { IfOk result (λ ids. ids.items ≡ filter_map (λ value. as_str (view value)) items.now) }
{
    let mut ids = Vec::with_capacity(alloc, items.len())?;
    for item in items {
        push_event_id(alloc, &mut ids, item)?;
    }
    Ok(ids)
}

fn push_event_id(alloc: Global, ids: &mut Vec<EventId>, item: &Value) -> Result<(), AllocError>
    requires { is_none_or is_event_id (as_str (view item.now)) ≡ true }
    ensures { IfOk result (λ _. ids.new.items ≡ ids.old.items ++ filter_map (λ value. as_str (view value)) (item.now ∷ [])) }
{
    if let Some(text) = item.as_str() {
        let id = event_id_of(alloc, text)?;
        ids.push(id)?;
    }
    Ok(())
}

fn event_id_of(alloc: Global, text: &str) -> Result<EventId, AllocError>
    requires { is_event_id text.now ≡ true }
    ensures { IfOk result (λ id. id ≡ text.now) }
{
    match EventId::parse(alloc, text) {
        Ok(id) => Ok(id),
        Err(IdError::Memory) => Err(AllocError),
        Err(IdError::NotAnId(_)) => unreachable!(),
    }
}
