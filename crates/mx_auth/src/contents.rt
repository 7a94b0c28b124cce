// What the rules read of the contents of events.
ghost use Rattle.std.specs.Prelude.{◌≡◌, true, option_map};
ghost use Rattle.serde_json.specs.View.{view};
ghost use Rattle.mx_redact.specs.Fields.{field as field_at, text_field as text_field_at};
ghost use Rattle.mx_pdu.specs.Event.{content_of};
ghost use Rattle.mx_pdu.specs.RuleContent.{is_rule_key};

use mx_pdu::Pdu;
use mx_redact::{field, text_field};
use serde_json::Value;

/// The value at a key of a content that rules read.
pub(crate) fn content_field<'a>(event: &'a Pdu, key: &str) -> Option<&'a Value>
    requires { is_rule_key key.now ≡ true }
    ensures { option_map (λ value. view value.now) result ≡ field_at key.now (content_of event.now) }
{
    field(event.content(), key)
}

/// The text at such a key.
pub(crate) fn content_text<'a>(event: &'a Pdu, key: &str) -> Option<&'a str>
    requires { is_rule_key key.now ≡ true }
    ensures { option_map (λ text. text.now) result ≡ text_field_at key.now (content_of event.now) }
{
    text_field(event.content(), key)
}
