// How deep arrays and objects stand in one another. Nothing here takes memory.
ghost use Rattle.std.specs.Prelude.{◌≡◌, nat_le};
ghost use Rattle.serde_json.specs.Data.{depth, items_depth, members_depth};
ghost use Rattle.serde_json.specs.View.{view, items_view, members_view};

use serde_json::{Map, Value};

// Whether the members' values nest at most so deep.
#[cycle(nesting)]
pub fn members_nest_within(members: &Map<String, Value>, most: u8) -> bool
    ensures { result ≡ nat_le (members_depth (members_view members.now.entries)) most }
{
    for (_, member) in members.iter() {
        if !nests_within(member, most) {
            return false;
        }
    }
    true
}

// Whether the value nests at most so deep: a text or a number has no level, an empty array has one.
#[cycle(nesting)]
fn nests_within(value: &Value, most: u8) -> bool
    ensures { result ≡ nat_le (depth (view value.now)) most }
{
    match value {
        Value::Null | Value::Bool(_) | Value::String(_) | Value::Number(_) => true,
        Value::Array(items) => most > 0 && items_nest_within(items, most - 1),
        Value::Object(members) => most > 0 && members_nest_within(members, most - 1),
    }
}

#[cycle(nesting)]
fn items_nest_within(items: &Vec<Value>, most: u8) -> bool
    ensures { result ≡ nat_le (items_depth (items_view items.now.items)) most }
{
    for item in items {
        if !nests_within(item, most) {
            return false;
        }
    }
    true
}
