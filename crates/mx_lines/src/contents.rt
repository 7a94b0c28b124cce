// The content of an event, as a line has it.
ghost use Rattle.std.specs.Prelude.{◌≡◌, ◌≤◌, ◌<◌, ◌++◌, ℕ, IfOk, List, Some, false, length};
ghost use Rattle.serde_json.specs.Data.{Data};
ghost use Rattle.serde_json.specs.Read.{read};
ghost use Rattle.serde_json.specs.View.{view};
ghost use Rattle.mx_canon.specs.Canonical.{canonical_text};
ghost use Rattle.mx_pdu.specs.Event.{content_of};
ghost use Rattle.mx_lines.specs.Contents as definition;
ghost use Rattle.mx_lines.specs.Written.{with_members};

use crate::scanning::content_in;
use mx_canon::{TextBuffer, TextSink, write_key, write_string, write_text};
use mx_pdu::Pdu;
use serde_json::Value;
use std::alloc::{AllocError, Global};

// How many bytes of the text of a content a line has, where the event is no state event.
const MOST_BYTES: usize = 1024;

/// The canonical text of the content of an event, as it stands in the event's text. `AllocError` where no memory is left.
pub fn content_text(alloc: Global, event: &Pdu) -> Result<Vec<u8>, AllocError>
    ensures { IfOk result (λ text. text.items ≡ canonical_text (content_of event.now)) }
{
    if let Some(content) = content_in(event.text().as_bytes()) {
        let text = Vec::from_slice(alloc, content)?;
        return Ok(text);
    }
    let whole = value_of(alloc, event.text())?;
    let mut text = TextBuffer::new(alloc);
    write_content_of(&mut text, &whole);
    let bytes = text.into_bytes()?;
    Ok(bytes)
}

// The value that a text is JSON for.
fn value_of(alloc: Global, text: &str) -> Result<Value, AllocError>
    requires { (event : Data) × (read text.now ≡ Some event) }
    ensures { IfOk result (λ value. (event : Data) → read text.now ≡ Some event → view value ≡ event) }
{
    match Value::from_str(alloc, text) {
        Ok(value) => Ok(value),
        Err(error) if error.is_memory() => Err(AllocError),
        Err(_) => unreachable!(),
    }
}

#[tactic(auto, unfolding(mx_canon::specs::Canonical::canonical_text))]
fn write_content_of<S: TextSink>(sink: &mut S, event: &Value)
    ensures { (taken : List ℕ) → S.has_taken sink.old taken
        → S.has_taken sink.new (taken ++ canonical_text (content_of (view event.now))) }
{
    match event.get("content") {
        Some(content) => write_text(sink, content),
        None => sink.put(b"null"),
    }
}

/// Gives the sink the content of an event that has this canonical text as the later members `content` and `content_cut`:
/// whole where the event is a state event, or where the text has at most 1,024 bytes, else the text's beginning.
pub fn write_content<S: TextSink>(sink: &mut S, is_state: bool, text: &[u8])
    ensures { (content : Data) (taken : List ℕ) → text.now ≡ canonical_text content → S.has_taken sink.old taken
        → S.has_taken sink.new (with_members taken (definition.content_members is_state content)) }
{
    if is_whole(is_state, text) {
        write_key(sink, true, b"content");
        sink.put(text);
    } else {
        write_key(sink, true, b"content_cut");
        write_string(sink, beginning_of(text));
    }
}

fn is_whole(is_state: bool, text: &[u8]) -> bool
    ensures whole { result ≡ definition.is_whole is_state text.now }
    ensures long { result ≡ false → MOST_BYTES < length text.now }
{
    is_state || text.len() <= MOST_BYTES
}

// Of a text that is longer than a line has of it.
#[tactic(auto, unfolding(crate::specs::Contents::cut_text))]
fn beginning_of(text: &[u8]) -> &[u8]
    requires { MOST_BYTES < length text.now }
    ensures { result.now ≡ definition.cut_text text.now }
{
    &text[..cut_place(text, MOST_BYTES)]
}

// The last place up to this one at which a character begins.
#[tactic(auto, using(crate::proofs::CutLemmas::cut_on, crate::proofs::CutLemmas::cut_here, crate::proofs::CutLemmas::cut_first))]
fn cut_place(text: &[u8], most: usize) -> usize
    requires { most < length text.now }
    ensures place { result ≡ definition.cut_place text.now most }
    ensures below { result ≤ most }
{
    let mut place = most;
    while place > 0 && is_inside(text[place]) {
        place -= 1;
    }
    place
}

fn is_inside(byte: u8) -> bool
    ensures { result ≡ definition.is_inside byte }
{
    128 <= byte && byte < 192
}

/// Whether a content hash holds, as lines name it.
pub fn hash_name(holds: bool) -> &'static str
    ensures { result.now ≡ definition.hash_text holds }
{
    match holds {
        true => "good",
        false => "bad",
    }
}
