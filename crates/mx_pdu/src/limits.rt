// The limits on an event's fields. Nothing here takes memory.
ghost use Rattle.std.specs.Prelude.{◌≡◌, length, nat_le, ◌&&◌};
ghost use Rattle.std.specs.List.{list_all};
ghost use Rattle.serde_json.specs.Data.{object};
ghost use Rattle.serde_json.specs.View.{view, members_view};
ghost use Rattle.mx_redact.specs.Fields.{field, is_none_or};
ghost use Rattle.mx_pdu.specs.EventFields.{field_at};
ghost use Rattle.mx_pdu.specs.Format.{limits, is_within_limits, is_short, is_short_list, is_depth};

use crate::event_fields::EventFields;
use crate::lookups::array_at;
use crate::nesting::members_nest_within;
use mx_canon::LARGEST;
use mx_redact::EventKey;
use serde_json::Value;

// The most bytes of a text.
const LONGEST: usize = 255;

// The most events that an event follows.
const MOST_PREV_EVENTS: usize = 20;

// The most events that an event rests on.
const MOST_AUTH_EVENTS: usize = 10;

// The most levels of arrays and objects in an event, itself included: as many as are read from text.
const DEEPEST_NESTING: u8 = 127;

pub fn keeps_limits(fields: &EventFields<'_>) -> bool
    ensures { result ≡ is_within_limits (object (members_view fields.now.members.now.entries)) }
{
    keeps_field_limits(fields) && members_nest_within(fields.members, DEEPEST_NESTING - 1)
}

fn keeps_field_limits(fields: &EventFields<'_>) -> bool
    ensures { result
        ≡ list_all (λ f. is_none_or f.1 (field f.0 (object (members_view fields.now.members.now.entries)))) limits }
{
    keeps_list_limit(fields, EventKey::AuthEvents, MOST_AUTH_EVENTS)
        && keeps_depth_limit(fields, EventKey::Depth)
        && keeps_list_limit(fields, EventKey::PrevEvents, MOST_PREV_EVENTS)
        && keeps_text_limit(fields, EventKey::RoomId)
        && keeps_text_limit(fields, EventKey::Sender)
        && keeps_text_limit(fields, EventKey::StateKey)
        && keeps_text_limit(fields, EventKey::Kind)
}

fn keeps_text_limit(fields: &EventFields<'_>, key: EventKey) -> bool
    ensures { result ≡ is_none_or is_short (field_at key (object (members_view fields.now.members.now.entries))) }
{
    match fields.at(key) {
        Some(value) => has_short_text(value),
        None => true,
    }
}

fn has_short_text(value: &Value) -> bool
    ensures { result ≡ is_short (view value.now) }
{
    match value.as_str() {
        Some(text) => text.len() <= LONGEST,
        None => true,
    }
}

fn keeps_depth_limit(fields: &EventFields<'_>, key: EventKey) -> bool
    ensures { result ≡ is_none_or is_depth (field_at key (object (members_view fields.now.members.now.entries))) }
{
    match fields.at(key) {
        Some(value) => has_depth(value),
        None => true,
    }
}

// An integer is from 0 to 2^53 - 1.
fn has_depth(value: &Value) -> bool
    ensures { result ≡ is_depth (view value.now) }
{
    let Some(number) = value.as_number() else {
        return true;
    };
    match number.as_i128() {
        Some(depth) => 0 <= depth && depth <= LARGEST as i128,
        None => true,
    }
}

fn keeps_list_limit(fields: &EventFields<'_>, key: EventKey, most: usize) -> bool
    ensures { result
        ≡ is_none_or (is_short_list most) (field_at key (object (members_view fields.now.members.now.entries))) }
{
    match array_at(fields, key) {
        Some(items) => are_few_and_short(items, most),
        None => true,
    }
}

fn are_few_and_short(items: &[Value], most: usize) -> bool
    ensures { result ≡ (nat_le (length items.now) most && list_all (λ value. is_short (view value)) items.now) }
{
    items.len() <= most && are_short(items)
}

fn are_short(items: &[Value]) -> bool
    ensures { result ≡ list_all (λ value. is_short (view value)) items.now }
{
    items.iter().all(has_short_text)
}
