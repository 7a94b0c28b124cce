// Whether the fields of an event are there and of their kinds. Nothing here takes memory.
ghost use Rattle.std.specs.Prelude.{◌≡◌, option_map};
ghost use Rattle.std.specs.List.{list_all};
ghost use Rattle.std.specs.Result.{result_err};
ghost use Rattle.serde_json.specs.Data.{object};
ghost use Rattle.serde_json.specs.View.{view, members_view};
ghost use Rattle.mx_ident.specs.Identifier.{user_id_error, room_id_error, event_id_error};
ghost use Rattle.mx_redact.specs.Fields.{is_object, is_some_and, is_none_or};
ghost use Rattle.mx_pdu.specs.EventFields.{field_at};
ghost use Rattle.mx_pdu.specs.Format.{has_fields, is_id, is_id_or_long, is_event_id_list, is_integer, is_string};

use crate::event_fields::EventFields;
use crate::lookups::{array_at, text_at};
use mx_ident::{EventId, NotAnId, RoomId, UserId};
use mx_redact::EventKey;
use serde_json::Value;

pub fn has_every_field(fields: &EventFields<'_>) -> bool
    ensures { result ≡ has_fields (object (members_view fields.now.members.now.entries)) }
{
    has_event_ids(fields, EventKey::AuthEvents)
        && has_object(fields, EventKey::Content)
        && has_integer(fields, EventKey::Depth)
        && has_object(fields, EventKey::Hashes)
        && has_integer(fields, EventKey::OriginServerTs)
        && has_event_ids(fields, EventKey::PrevEvents)
        && has_room_id(fields, EventKey::RoomId)
        && has_user_id(fields, EventKey::Sender)
        && has_object(fields, EventKey::Signatures)
        && has_text(fields, EventKey::Kind)
        && has_text_or_nothing(fields, EventKey::StateKey)
}

fn has_object(fields: &EventFields<'_>, key: EventKey) -> bool
    ensures { result ≡ is_some_and is_object (field_at key (object (members_view fields.now.members.now.entries))) }
{
    match fields.at(key) {
        Some(value) => value.is_object(),
        None => false,
    }
}

fn has_integer(fields: &EventFields<'_>, key: EventKey) -> bool
    ensures { result ≡ is_some_and is_integer (field_at key (object (members_view fields.now.members.now.entries))) }
{
    match fields.at(key) {
        Some(value) => holds_integer(value),
        None => false,
    }
}

fn holds_integer(value: &Value) -> bool
    ensures { result ≡ is_integer (view value.now) }
{
    match value.as_number() {
        Some(number) => number.as_i128().is_some(),
        None => false,
    }
}

fn has_text(fields: &EventFields<'_>, key: EventKey) -> bool
    ensures { result ≡ is_some_and is_string (field_at key (object (members_view fields.now.members.now.entries))) }
{
    match fields.at(key) {
        Some(value) => value.is_string(),
        None => false,
    }
}

fn has_text_or_nothing(fields: &EventFields<'_>, key: EventKey) -> bool
    ensures { result ≡ is_none_or is_string (field_at key (object (members_view fields.now.members.now.entries))) }
{
    match fields.at(key) {
        Some(value) => value.is_string(),
        None => true,
    }
}

fn has_room_id(fields: &EventFields<'_>, key: EventKey) -> bool
    ensures { result
        ≡ is_some_and (is_id room_id_error) (field_at key (object (members_view fields.now.members.now.entries))) }
{
    match text_at(fields, key) {
        Some(text) => is_id_but_for_length(RoomId::check(text)),
        None => false,
    }
}

fn has_user_id(fields: &EventFields<'_>, key: EventKey) -> bool
    ensures { result
        ≡ is_some_and (is_id user_id_error) (field_at key (object (members_view fields.now.members.now.entries))) }
{
    match text_at(fields, key) {
        Some(text) => is_id_but_for_length(UserId::check(text)),
        None => false,
    }
}

fn has_event_ids(fields: &EventFields<'_>, key: EventKey) -> bool
    ensures { result ≡ is_some_and is_event_id_list (field_at key (object (members_view fields.now.members.now.entries))) }
{
    match array_at(fields, key) {
        Some(items) => are_event_ids(items),
        None => false,
    }
}

fn are_event_ids(items: &[Value]) -> bool
    ensures { result ≡ list_all (λ value. is_id event_id_error (view value)) items.now }
{
    items.iter().all(holds_event_id)
}

fn holds_event_id(value: &Value) -> bool
    ensures { result ≡ is_id event_id_error (view value.now) }
{
    match value.as_str() {
        Some(text) => is_id_but_for_length(EventId::check(text)),
        None => false,
    }
}

// A text that is no id whatever its length is of a wrong kind.
fn is_id_but_for_length(outcome: Result<(), NotAnId>) -> bool
    ensures { result ≡ is_id_or_long (result_err outcome) }
{
    match outcome {
        Ok(()) | Err(NotAnId::TooLong) => true,
        Err(_) => false,
    }
}
