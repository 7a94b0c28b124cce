// Values in an event.
ghost use Rattle.std.specs.Prelude.{◌≡◌, [], IfOk, IsTrue, option_and_then, option_map, string_bytes, unwrap_or};
ghost use Rattle.serde_json.specs.Data.{object};
ghost use Rattle.serde_json.specs.Find.{as_array, as_i64, as_number, as_object, as_str};
ghost use Rattle.serde_json.specs.View.{view, items_view, members_view};
ghost use Rattle.mx_redact.specs.Fields.{field as field_of};
ghost use Rattle.mx_pdu.specs.Event.{depth_of, timestamp_of};
ghost use Rattle.mx_pdu.specs.EventFields.{field_at};
ghost use Rattle.mx_pdu.specs.Format.{is_well_formed};

use crate::event_fields::EventFields;
use mx_redact::{EventKey, field};
use serde_json::{Map, Value};
use std::alloc::{AllocError, Global};

// The text at a key.
pub fn text_at<'a>(fields: &EventFields<'a>, key: EventKey) -> Option<&'a str>
    ensures { option_map (λ text. text.now) result
        ≡ option_and_then as_str (field_at key (object (members_view fields.now.members.now.entries))) }
{
    fields.at(key).and_then(Value::as_str)
}

// The text at a key, else the empty text.
pub fn text_or_empty_at<'a>(fields: &EventFields<'a>, key: EventKey) -> &'a str
    ensures { result.now
        ≡ unwrap_or (option_and_then as_str (field_at key (object (members_view fields.now.members.now.entries)))) [] }
{
    text_at(fields, key).unwrap_or("")
}

// A copy of the text at a key.
pub fn text_copied_from(
    alloc: Global,
    fields: &EventFields<'_>,
    key: EventKey,
) -> Result<Option<String>, AllocError>
    ensures { IfOk result (λ text. option_map string_bytes text
        ≡ option_and_then as_str (field_at key (object (members_view fields.now.members.now.entries)))) }
{
    match text_at(fields, key) {
        Some(text) => Ok(Some(String::from_str(alloc, text)?)),
        None => Ok(None),
    }
}

// The depth of an event.
pub fn depth_in(fields: &EventFields<'_>) -> u64
    ensures { result ≡ depth_of (object (members_view fields.now.members.now.entries)) }
{
    fields
        .at(EventKey::Depth)
        .and_then(Value::as_u64)
        .unwrap_or(0)
}

// When an event was made.
pub fn timestamp_in(fields: &EventFields<'_>) -> i64
    requires { IsTrue (is_well_formed (object (members_view fields.now.members.now.entries))) }
    ensures { result ≡ timestamp_of (object (members_view fields.now.members.now.entries)) }
{
    integer_at(fields, EventKey::OriginServerTs).unwrap_or(0)
}

// The 64-bit integer at a key.
fn integer_at(fields: &EventFields<'_>, key: EventKey) -> Option<i64>
    ensures { result
        ≡ option_and_then as_i64 (option_and_then as_number
        (field_at key (object (members_view fields.now.members.now.entries)))) }
{
    fields.at(key).and_then(Value::as_i64)
}

// The object at a key.
pub fn object_at<'a>(fields: &EventFields<'a>, key: EventKey) -> Option<&'a Map<String, Value>>
    ensures { option_map (λ object. members_view object.now.entries) result
        ≡ option_and_then as_object (field_at key (object (members_view fields.now.members.now.entries))) }
{
    fields.at(key).and_then(Value::as_object)
}

// The object at a key of members.
pub fn object_named<'a>(
    members: &'a Map<String, Value>,
    key: &str,
) -> Option<&'a Map<String, Value>>
    ensures { option_map (λ object. members_view object.now.entries) result
        ≡ option_and_then as_object (field_of key.now (object (members_view members.now.entries))) }
{
    field(members, key).and_then(Value::as_object)
}

// The array at a key.
pub fn array_at<'a>(fields: &EventFields<'a>, key: EventKey) -> Option<&'a Vec<Value>>
    ensures { option_map (λ items. items_view items.now.items) result
        ≡ option_and_then as_array (field_at key (object (members_view fields.now.members.now.entries))) }
{
    fields.at(key).and_then(Value::as_array)
}
