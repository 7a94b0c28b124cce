// Whether an event's content hash holds. Nothing here takes memory.
ghost use Rattle.std.specs.Prelude.{◌≡◌, bytes_eq, codes, option_map};
ghost use Rattle.base64.specs.Engines.{standard_no_pad};
ghost use Rattle.base64.specs.GeneralPurpose.{encode_of};
ghost use Rattle.serde_json.specs.Data.{object};
ghost use Rattle.serde_json.specs.View.{members_view};
ghost use Rattle.mx_redact.specs.Fields.{is_text, text_field, value_at};
ghost use Rattle.mx_redact.specs.Hashes.{content_hash, hash_holds};

use crate::event_fields::EventFields;
use crate::lookups::object_at;
use base64::engine::general_purpose::STANDARD_NO_PAD;
use mx_redact::{EventKey, text_field};

// Whether the event names this hash, which is its content hash.
pub fn names_hash(fields: &EventFields<'_>, hash: &[u8; 32]) -> bool
    requires { hash.now ≡ content_hash (object (members_view fields.now.members.now.entries)) }
    ensures { result ≡ hash_holds (object (members_view fields.now.members.now.entries)) }
{
    is_named(named_hash(fields), hash)
}

// Whether the text is there, and is the unpadded standard base64 of the hash.
pub fn is_named(named: Option<&str>, hash: &[u8; 32]) -> bool
    ensures { result ≡ is_text (encode_of standard_no_pad hash.now) (option_map (λ text. text.now) named.entry) }
{
    match named {
        Some(text) => is_text_of(text, hash),
        None => false,
    }
}

// The text at `sha256` in `hashes`.
fn named_hash<'a>(fields: &EventFields<'a>) -> Option<&'a str>
    ensures { option_map (λ text. text.now) result
        ≡ text_field (codes "sha256") (value_at (codes "hashes") (object (members_view fields.now.members.now.entries))) }
{
    match object_at(fields, EventKey::Hashes) {
        Some(hashes) => text_field(hashes, "sha256"),
        None => None,
    }
}

// Whether the text is the unpadded standard base64 of the hash.
fn is_text_of(text: &str, hash: &[u8; 32]) -> bool
    ensures { result ≡ bytes_eq text.now (encode_of standard_no_pad hash.now) }
{
    text.as_bytes() == encoded(hash).as_slice()
}

fn encoded(hash: &[u8; 32]) -> [u8; 43]
    ensures { result ≡ encode_of standard_no_pad hash.now }
{
    let mut text = [0; 43];
    match STANDARD_NO_PAD.encode_slice(hash, &mut text) {
        Ok(_) => text,
        Err(_) => unreachable!(),
    }
}
