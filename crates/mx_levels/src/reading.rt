// Levels in JSON values.
ghost use Rattle.std.specs.Prelude.{◌≡◌};
ghost use Rattle.serde_json.specs.Data.{object};
ghost use Rattle.serde_json.specs.View.{view, members_view};
ghost use Rattle.mx_levels.specs.Level as definition;

use crate::numerals::level_in_text;
use mx_canon::LARGEST;
use mx_redact::field;
use serde_json::{Map, Value};

/// The level that a value holds: an integer from -(2^53 - 1) to 2^53 - 1, or a string of ASCII white space, at most one
/// `+` or `-`, one or more decimal digits, and ASCII white space, that writes such an integer. `None` where it holds
/// none.
///
/// Source: the Matrix specification, Room Version 6, "Event format", and `m.room.power_levels`.
#[tactic(auto, unfolding(crate::specs::Level::read_level))]
pub fn read_level(value: &Value) -> Option<i64>
    ensures { result ≡ definition.read_level (view value.now) }
{
    match value {
        Value::Number(number) => in_range(number.as_i64()?),
        Value::String(text) => level_in_text(text),
        Value::Null | Value::Bool(_) | Value::Array(_) | Value::Object(_) => None,
    }
}

// An integer that canonical JSON has.
fn in_range(level: i64) -> Option<i64>
    ensures { result ≡ definition.if_in_range level }
{
    if level.unsigned_abs() <= LARGEST {
        Some(level)
    } else {
        None
    }
}

/// The level at a key of an object, as at a user id in `users`, where one is there that [`read_level`] reads.
pub fn level_at(members: &Map<String, Value>, key: &str) -> Option<i64>
    ensures { result ≡ definition.level_at key.now (object (members_view members.now.entries)) }
{
    field(members, key).and_then(read_level)
}

/// The level at a key of an object in the content of a power levels event, as at a user id in `users` or at an event
/// type in `events`. An entry of the content that is no object counts as an empty one.
///
/// Source: the Matrix specification, `m.room.power_levels`.
pub fn entry_at(content: &Map<String, Value>, map: &str, key: &str) -> Option<i64>
    ensures { result ≡ definition.entry_at map.now key.now (object (members_view content.now.entries)) }
{
    match field(content, map) {
        Some(Value::Object(levels)) => level_at(levels, key),
        _ => None,
    }
}
