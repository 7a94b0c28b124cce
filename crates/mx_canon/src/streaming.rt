// The canonical text of a value, given to a sink piece by piece.
ghost use Rattle.std.specs.Prelude.{◌≡◌, ℕ, ◌++◌, ◌∷◌, [], List, ◌<◌, length, false, flat_map};
ghost use Rattle.serde_json.specs.View.{view, number_view, items_view, members_view};
ghost use Rattle.serde_json.specs.Data.{object, array};
ghost use Rattle.std.specs.Char.{digit_char};
ghost use Rattle.mx_canon.specs.Pieces.{comma_if};
ghost use Rattle.mx_canon.specs.Sinks.{counted};
ghost use Rattle.mx_canon.specs.Canonical.{canonical_text, integer_text, string_text, escaped, value_text};

use crate::plain::{BLOCK, is_plain};
use crate::sinks::{TextLength, TextSink};
use serde_json::{Map, Number, Value};

/// The number of bytes of the value's canonical text, at most `u64::MAX`. It takes no memory.
pub fn text_length(value: &Value) -> u64
    ensures { result ≡ counted (length (canonical_text (view value.now))) }
{
    let mut count = TextLength { bytes: 0 };
    write_text(&mut count, value);
    count.bytes
}

/// Gives the sink the value's canonical text, in which a float has no digits. It takes no memory of its own.
pub fn write_text<S: TextSink>(sink: &mut S, value: &Value)
    ensures { (taken : List ℕ) → S.has_taken sink.old taken
        → S.has_taken sink.new (taken ++ canonical_text (view value.now)) }
{
    write_value(sink, value);
}

/// Gives the sink the canonical text of an object with these members, in which a float has no digits. It takes no memory
/// of its own.
pub fn write_object<S: TextSink>(sink: &mut S, members: &Map<String, Value>)
    ensures { (taken : List ℕ) → S.has_taken sink.old taken
        → S.has_taken sink.new (taken ++ canonical_text (object (members_view members.now.entries))) }
{
    write_members(sink, members);
}

#[cycle(write)]
fn write_value<S: TextSink>(sink: &mut S, value: &Value)
    ensures { (taken : List ℕ) → S.has_taken sink.old taken
        → S.has_taken sink.new (taken ++ value_text (view value.now)) }
{
    match value {
        Value::Null => sink.put(b"null"),
        Value::Bool(true) => sink.put(b"true"),
        Value::Bool(false) => sink.put(b"false"),
        Value::Number(number) => write_number(sink, number),
        Value::String(text) => write_string(sink, text.as_bytes()),
        Value::Array(items) => write_items(sink, items),
        Value::Object(members) => write_members(sink, members),
    }
}

#[cycle(write)]
fn write_items<S: TextSink>(sink: &mut S, items: &Vec<Value>)
    ensures { (taken : List ℕ) → S.has_taken sink.old taken
        → S.has_taken sink.new (taken ++ value_text (array (items_view items.now.items))) }
{
    sink.put(b"[");
    let mut later = false;
    for item in items {
        put_comma(sink, later);
        write_value(sink, item);
        later = true;
    }
    sink.put(b"]");
}

#[cycle(write)]
fn write_members<S: TextSink>(sink: &mut S, members: &Map<String, Value>)
    ensures { (taken : List ℕ) → S.has_taken sink.old taken
        → S.has_taken sink.new (taken ++ value_text (object (members_view members.now.entries))) }
{
    sink.put(b"{");
    let mut later = false;
    for (key, member) in members.iter() {
        write_key(sink, later, key.as_bytes());
        write_value(sink, member);
        later = true;
    }
    sink.put(b"}");
}

/// Gives the sink what stands before a member's value: a comma where the member is a later one, the key as
/// [`write_string`] writes it, and a colon.
pub fn write_key<S: TextSink>(sink: &mut S, later: bool, key: &[u8])
    ensures { (taken : List ℕ) → S.has_taken sink.old taken
        → S.has_taken sink.new ((taken ++ comma_if later) ++ (string_text key.now ++ 58 ∷ [])) }
{
    open_key(sink, later);
    write_escaped_text(sink, key);
    sink.put(b"\":");
}

fn open_key<S: TextSink>(sink: &mut S, later: bool)
    ensures { (taken : List ℕ) → S.has_taken sink.old taken
        → S.has_taken sink.new ((taken ++ comma_if later) ++ 34 ∷ []) }
{
    if later {
        sink.put(b",\"");
    } else {
        sink.put(b"\"");
    }
}

fn put_comma<S: TextSink>(sink: &mut S, wanted: bool)
    ensures { (taken : List ℕ) → S.has_taken sink.old taken → S.has_taken sink.new (taken ++ comma_if wanted) }
{
    if wanted {
        sink.put(b",");
    }
}

fn write_number<S: TextSink>(sink: &mut S, number: &Number)
    ensures { (taken : List ℕ) → S.has_taken sink.old taken
        → S.has_taken sink.new (taken ++ integer_text (number_view number.now)) }
{
    let mut buffer = itoa::Buffer::new();
    if let Some(integer) = number.as_u64() {
        sink.put(buffer.format(integer).as_bytes());
    } else if let Some(integer) = number.as_i64() {
        sink.put(buffer.format(integer).as_bytes());
    }
}

/// Gives the sink a text of UTF-8 as canonical JSON writes it: in quotation marks, and escaped.
pub fn write_string<S: TextSink>(sink: &mut S, text: &[u8])
    ensures { (taken : List ℕ) → S.has_taken sink.old taken
        → S.has_taken sink.new (taken ++ string_text text.now) }
{
    sink.put(b"\"");
    write_escaped_text(sink, text);
    sink.put(b"\"");
}

// What stands between the quotation marks.
fn write_escaped_text<S: TextSink>(sink: &mut S, text: &[u8])
    ensures { (taken : List ℕ) → S.has_taken sink.old taken
        → S.has_taken sink.new (taken ++ flat_map escaped text.now) }
{
    if text.len() >= BLOCK && is_plain(text) {
        sink.put(text);
    } else {
        write_runs(sink, text);
    }
}

// Between two escaped bytes a run is one piece.
fn write_runs<S: TextSink>(sink: &mut S, text: &[u8])
    ensures { (taken : List ℕ) → S.has_taken sink.old taken
        → S.has_taken sink.new (taken ++ flat_map escaped text.now) }
{
    let mut start = 0;
    for (index, byte) in text.iter().enumerate() {
        if is_escaped(*byte) {
            sink.put(&text[start..index]);
            write_escaped(sink, *byte);
            start = index + 1;
        }
    }
    sink.put(&text[start..]);
}

// Whether a byte of a string stands there in another form. It may say so of no other byte.
fn is_escaped(byte: u8) -> bool
    ensures { result ≡ false → escaped byte ≡ byte ∷ [] }
{
    byte < 32 || byte == b'"' || byte == b'\\'
}

fn write_escaped<S: TextSink>(sink: &mut S, byte: u8)
    ensures { (taken : List ℕ) → S.has_taken sink.old taken → S.has_taken sink.new (taken ++ escaped byte) }
{
    match byte {
        b'"' | b'\\' => sink.put(&[b'\\', byte]),
        8 => sink.put(b"\\b"),
        b'\t' => sink.put(b"\\t"),
        b'\n' => sink.put(b"\\n"),
        12 => sink.put(b"\\f"),
        b'\r' => sink.put(b"\\r"),
        0..=31 => sink.put(&[
            b'\\',
            b'u',
            b'0',
            b'0',
            hex_digit(byte / 16),
            hex_digit(byte % 16),
        ]),
        _ => sink.put(&[byte]),
    }
}

fn hex_digit(digit: u8) -> u8
    requires { digit < 16 }
    ensures { result ≡ digit_char digit }
{
    if digit < 10 {
        b'0' + digit
    } else {
        b'a' + (digit - 10)
    }
}
