// Pieces of lines of JSON, given to a sink: the members come in the order of their keys.
ghost use Rattle.std.specs.Prelude.{◌≡◌, ℕ, ◌++◌, List, codes, option_map};
ghost use Rattle.serde_json.specs.Data.{Data, boolean, number, string, unsigned};
ghost use Rattle.mx_canon.specs.Canonical.{canonical_text, value_text};
ghost use Rattle.mx_canon.specs.Pieces.{comma_if};
ghost use Rattle.mx_lines.specs.Lines.{text_array, text_or_null};
ghost use Rattle.mx_lines.specs.Written.{opened, with_member};

use mx_canon::{TextSink, write_key, write_string, write_text};
use mx_ident::EventId;
use serde_json::{Number, Value};

/// Gives the sink the beginning of a line, up to the value of its first member.
pub fn open_line<S: TextSink>(sink: &mut S, key: &[u8])
    ensures { (taken : List ℕ) → S.has_taken sink.old taken → S.has_taken sink.new (opened taken key.now) }
{
    sink.put(b"{");
    write_key(sink, false, key);
}

/// Gives the sink the end of a line.
pub fn end_line<S: TextSink>(sink: &mut S)
    ensures { (taken : List ℕ) → S.has_taken sink.old taken → S.has_taken sink.new (taken ++ codes "}\n") }
{
    sink.put(b"}\n");
}

/// Gives the sink a later member whose value is a text, where there is one.
pub fn write_text_if<S: TextSink>(sink: &mut S, key: &[u8], text: Option<&str>)
    ensures { (taken : List ℕ) → S.has_taken sink.old taken
        → S.has_taken sink.new (with_member taken (key.now, option_map string (option_map (λ t. t.now) text.entry))) }
{
    if let Some(text) = text {
        write_key(sink, true, key);
        write_string(sink, text.as_bytes());
    }
}

/// Gives the sink a truth value.
pub fn write_flag<S: TextSink>(sink: &mut S, flag: bool)
    ensures { (taken : List ℕ) → S.has_taken sink.old taken
        → S.has_taken sink.new (taken ++ value_text (boolean flag)) }
{
    match flag {
        true => sink.put(b"true"),
        false => sink.put(b"false"),
    }
}

/// Gives the sink a number.
pub fn write_number<S: TextSink>(sink: &mut S, value: u64)
    ensures { (taken : List ℕ) → S.has_taken sink.old taken
        → S.has_taken sink.new (taken ++ canonical_text (number (unsigned value))) }
{
    let number = Value::Number(Number::from(value));
    write_text(sink, &number);
}

/// Gives the sink an id, or null where there is none.
pub fn write_id<S: TextSink>(sink: &mut S, id: Option<&EventId>)
    ensures { (taken : List ℕ) → S.has_taken sink.old taken
        → S.has_taken sink.new (taken ++ value_text (text_or_null (option_map (λ i. i.now) id.entry))) }
{
    match id {
        Some(id) => write_string(sink, id.as_str().as_bytes()),
        None => sink.put(b"null"),
    }
}

/// Gives the sink an array of ids.
pub fn write_ids<S: TextSink>(sink: &mut S, ids: &[EventId])
    ensures { (taken : List ℕ) → S.has_taken sink.old taken
        → S.has_taken sink.new (taken ++ value_text (text_array ids.now)) }
{
    sink.put(b"[");
    let mut later = false;
    for id in ids {
        put_comma(sink, later);
        write_string(sink, id.as_str().as_bytes());
        later = true;
    }
    sink.put(b"]");
}

/// Gives the sink a comma, where one is wanted.
pub fn put_comma<S: TextSink>(sink: &mut S, wanted: bool)
    ensures { (taken : List ℕ) → S.has_taken sink.old taken → S.has_taken sink.new (taken ++ comma_if wanted) }
{
    if wanted {
        sink.put(b",");
    }
}
