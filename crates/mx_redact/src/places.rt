// Where the members of an event stand in its canonical text.
ghost use Rattle.std.specs.Prelude.{◌≡◌, ◌∷◌, ◌++◌, [], IfOk, length};
ghost use Rattle.serde_json.specs.Data.{object};
ghost use Rattle.serde_json.specs.View.{members_view};
ghost use Rattle.mx_canon.specs.Canonical.{canonical_text, string_text};
ghost use Rattle.mx_canon.specs.Sinks.{counted};
ghost use Rattle.mx_redact.specs.Places.{ArePlaces};

use crate::event_keys::EventKey;
use mx_canon::{TextLength, text_length, write_key};
use serde_json::{Map, Value};
use std::alloc::{AllocError, Global};

/// Where a member stands in an object's canonical text: its piece, `"key":value`, and where the value begins.
#[derive(Clone, Copy, Debug, PartialEq, Eq)]
pub struct MemberPlace {
    pub key: EventKey,
    pub start: usize,
    pub value: usize,
    pub end: usize,
}

/// The places of an event's members in its canonical text.
pub(crate) fn places_in(
    alloc: Global,
    event: &Map<String, Value>,
    text: &[u8],
) -> Result<Vec<MemberPlace>, AllocError>
    requires { text.now ≡ canonical_text (object (members_view event.now.entries)) }
    ensures { IfOk result (λ places. ArePlaces text.now places.items (members_view event.now.entries)) }
{
    let mut places = Vec::with_capacity(alloc, event.len())?;
    let mut end = 0;
    for (key, value) in event.iter() {
        // A bracket or a comma stands before each member.
        let start = end + 1;
        let begin = start + key_length(key);
        end = begin + text_length(value) as usize;
        places.push(MemberPlace {
            key: EventKey::of(key),
            start,
            value: begin,
            end,
        })?;
    }
    Ok(places)
}

// The bytes before a member's value, a colon among them.
fn key_length(key: &str) -> usize
    ensures { result ≡ counted (length (string_text key.now ++ 58 ∷ [])) }
{
    let mut count = TextLength { bytes: 0 };
    write_key(&mut count, false, key.as_bytes());
    count.bytes as usize
}
