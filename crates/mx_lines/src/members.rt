// Later members of an object, each with its key.
ghost use Rattle.std.specs.Prelude.{◌≡◌, ◌++◌, ℕ, List, Some, option_map};
ghost use Rattle.serde_json.specs.Data.{number, string, unsigned};
ghost use Rattle.serde_json.specs.Find.{of_integer};
ghost use Rattle.mx_canon.specs.Canonical.{canonical_text, value_text};
ghost use Rattle.mx_lines.specs.Lines.{text_array};
ghost use Rattle.mx_lines.specs.Written.{with_member};

use crate::line_writing::{write_ids, write_number};
use mx_canon::{TextSink, write_key, write_string, write_text};
use mx_ident::EventId;
use serde_json::{Number, Value};

/// Gives the sink a later member whose value is a text of UTF-8.
pub fn write_text_member<S: TextSink>(sink: &mut S, key: &[u8], text: &[u8])
    ensures { (taken : List ℕ) → S.has_taken sink.old taken
        → S.has_taken sink.new (with_member taken (key.now, Some (string text.now))) }
{
    write_key(sink, true, key);
    write_string(sink, text);
}

/// Gives the sink a later member whose value is a number.
#[tactic(auto, unfolding(mx_canon::specs::Canonical::canonical_text))]
pub fn write_number_member<S: TextSink>(sink: &mut S, key: &[u8], value: u64)
    ensures { (taken : List ℕ) → S.has_taken sink.old taken
        → S.has_taken sink.new (with_member taken (key.now, Some (number (unsigned value)))) }
{
    write_key(sink, true, key);
    write_number(sink, value);
}

/// Gives the sink a later member whose value is an integer.
#[tactic(auto, unfolding(mx_canon::specs::Canonical::canonical_text))]
pub fn write_integer_member<S: TextSink>(sink: &mut S, key: &[u8], value: i64)
    ensures { (taken : List ℕ) → S.has_taken sink.old taken
        → S.has_taken sink.new (with_member taken (key.now, Some (number (of_integer value)))) }
{
    write_key(sink, true, key);
    write_integer(sink, value);
}

/// Gives the sink a later member whose value is an integer, where there is one.
pub fn write_integer_if<S: TextSink>(sink: &mut S, key: &[u8], value: Option<i64>)
    ensures { (taken : List ℕ) → S.has_taken sink.old taken
        → S.has_taken sink.new (with_member taken (key.now, option_map (λ z. number (of_integer z)) value)) }
{
    if let Some(value) = value {
        write_integer_member(sink, key, value);
    }
}

fn write_integer<S: TextSink>(sink: &mut S, value: i64)
    ensures { (taken : List ℕ) → S.has_taken sink.old taken
        → S.has_taken sink.new (taken ++ canonical_text (number (of_integer value))) }
{
    let number = Value::Number(Number::from(value));
    write_text(sink, &number);
}

/// Gives the sink a later member whose value is an array of ids.
pub fn write_ids_member<S: TextSink>(sink: &mut S, key: &[u8], ids: &[EventId])
    ensures { (taken : List ℕ) → S.has_taken sink.old taken
        → S.has_taken sink.new (with_member taken (key.now, Some (text_array ids.now))) }
{
    write_key(sink, true, key);
    write_ids(sink, ids);
}
