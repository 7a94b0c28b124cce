// Values in a JSON object.
ghost use Rattle.std.specs.Prelude.{◌≡◌, option_copied, option_map};
ghost use Rattle.serde_json.specs.Data.{object};
ghost use Rattle.serde_json.specs.View.{view, members_view};
ghost use Rattle.mx_redact.specs.Fields.{field, is_text as is_that_text, text_field};

use serde_json::{Map, Value};

/// The value at a key of an object. It takes no memory.
pub fn field<'a>(members: &'a Map<String, Value>, key: &str) -> Option<&'a Value>
    ensures { option_map (λ value. view value.now) result
        ≡ field key.now (object (members_view members.now.entries)) }
{
    members.get(key)
}

/// The text at a key of an object. It takes no memory.
pub fn text_field<'a>(members: &'a Map<String, Value>, key: &str) -> Option<&'a str>
    ensures { option_map (λ text. text.now) result
        ≡ text_field key.now (object (members_view members.now.entries)) }
{
    field(members, key).and_then(Value::as_str)
}

/// Whether there is a text, and it is this one.
pub fn is_text(found: Option<&str>, text: &str) -> bool
    ensures { result ≡ is_that_text text.now (option_copied found.entry) }
{
    match found {
        Some(found) => found == text,
        None => false,
    }
}
