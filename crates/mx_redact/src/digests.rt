// Both hashes of an event at once.
ghost use Rattle.std.specs.Prelude.{◌≡◌, ◌≤◌, IfOk, codes, length, option_and_then, option_map, take};
ghost use Rattle.sha2.specs.Sha256.{sha256};
ghost use Rattle.serde_json.specs.Data.{Members, object};
ghost use Rattle.serde_json.specs.Find.{as_object};
ghost use Rattle.serde_json.specs.View.{members_view};
ghost use Rattle.mx_canon.specs.Canonical.{canonical_text};
ghost use Rattle.mx_redact.specs.Fields.{field as field_of};
ghost use Rattle.mx_redact.specs.Hashes.{content_hash, reference_hash, hashed_part, signing_text};
ghost use Rattle.mx_redact.specs.Places.{IsPlacedEvent};

use crate::fields::field;
use crate::kinds::kept_content;
use crate::part_texts::{Part, part_by_places};
use crate::parts::write_hashed;
use crate::places::{MemberPlace, places_in};
use crate::redacting::kind_in;
use crate::signing::signed_text;
use mx_canon::TextBuffer;
use serde_json::{Map, Value};
use sha2::{Digest, Sha256};
use std::alloc::{AllocError, Global};

// The room for a text at its start, in bytes. Most events have less.
pub(crate) const CAPACITY: usize = 1024;

// The bytes that the hash takes at a time.
const BLOCK: usize = 64;

/// The two hashes of an event, and the text that is signed of it.
#[derive(Debug, Drop)]
pub struct Digests {
    pub content: [u8; 32],
    pub reference: [u8; 32],
    pub signing_text: Vec<u8>,
}

/// The content hash, the reference hash and the signing text of an event, with no test that they have canonical texts:
/// as [`crate::content_digest`] and [`crate::reference_digest`] give the hashes, and [`crate::signing_bytes`] the text.
///
/// Where the texts that are hashed begin alike, the beginning is hashed once. Source: the Matrix specification,
/// Server-Server API, "Calculating the content hash for an event" and "Calculating the reference hash for an event".
pub fn event_digests(alloc: Global, event: &Map<String, Value>) -> Result<Digests, AllocError>
    ensures content { IfOk result (λ digests. digests.content
        ≡ content_hash (object (members_view event.now.entries))) }
    ensures reference { IfOk result (λ digests. digests.reference
        ≡ reference_hash (object (members_view event.now.entries))) }
    ensures text { IfOk result (λ digests. digests.signing_text.items
        ≡ signing_text (object (members_view event.now.entries))) }
{
    let hashed = hashed_text(alloc, event)?;
    let signing_text = signed_text(alloc, event)?;
    Ok(digests_of(&hashed, signing_text))
}

/// The hashes and the signing text of an event whose canonical text is at hand, as [`event_digests`] gives them: as
/// [`digests_by_places`], with the places of its members worked out in one walk.
///
/// Source: the Matrix specification, Server-Server API, "Calculating the content hash for an event" and "Calculating the
/// reference hash for an event".
pub fn digests_by_text(
    alloc: Global,
    event: &Map<String, Value>,
    text: &[u8],
) -> Result<Digests, AllocError>
    requires { text.now ≡ canonical_text (object (members_view event.now.entries)) }
    ensures content { IfOk result (λ digests. digests.content
        ≡ content_hash (object (members_view event.now.entries))) }
    ensures reference { IfOk result (λ digests. digests.reference
        ≡ reference_hash (object (members_view event.now.entries))) }
    ensures text { IfOk result (λ digests. digests.signing_text.items
        ≡ signing_text (object (members_view event.now.entries))) }
{
    let places = places_in(alloc, event, text)?;
    let known = content_members(event);
    let digests = digests_by_places(alloc, text, &places, kind_in(event), known)?;
    Ok(digests)
}

/// The hashes and the signing text of an event whose canonical text is at hand with the places of its members there, as
/// [`event_digests`] gives them: the texts that are hashed are put together from pieces of it.
///
/// `kind` is its type, and `known` has of its content's members at least those that redaction keeps in an event of this
/// type; `None` where the content is no object. The event is no value here: each that has this text and these places
/// has these hashes. Source: the Matrix specification, Server-Server API, "Calculating the content hash for an event" and
/// "Calculating the reference hash for an event".
pub fn digests_by_places(
    alloc: Global,
    text: &[u8],
    places: &[MemberPlace],
    kind: &str,
    known: Option<&Map<String, Value>>,
) -> Result<Digests, AllocError>
    requires { (event : Members)
        × IsPlacedEvent text.now places.now kind.now
        (option_map (λ members. members_view members.now.entries) known) event }
    ensures content { IfOk result (λ digests. (event : Members)
        → IsPlacedEvent text.now places.now kind.now
        (option_map (λ members. members_view members.now.entries) known.entry) event
        → digests.content ≡ content_hash (object event)) }
    ensures reference { IfOk result (λ digests. (event : Members)
        → IsPlacedEvent text.now places.now kind.now
        (option_map (λ members. members_view members.now.entries) known.entry) event
        → digests.reference ≡ reference_hash (object event)) }
    ensures text { IfOk result (λ digests. (event : Members)
        → IsPlacedEvent text.now places.now kind.now
        (option_map (λ members. members_view members.now.entries) known.entry) event
        → digests.signing_text.items ≡ signing_text (object event)) }
{
    let signed = Part::Signed(kept_content(kind));
    let hashed = part_by_places(alloc, Part::Hashed, text, places, known)?;
    let signing_text = part_by_places(alloc, signed, text, places, known)?;
    Ok(digests_of(&hashed, signing_text))
}

// The members of an event's content.
fn content_members(event: &Map<String, Value>) -> Option<&Map<String, Value>>
    ensures { option_map (λ members. members_view members.now.entries) result
        ≡ option_and_then as_object (field_of (codes "content") (object (members_view event.now.entries))) }
{
    field(event, "content").and_then(Value::as_object)
}

// The hashes of both texts, and the second.
fn digests_of(hashed: &[u8], signing_text: Vec<u8>) -> Digests
    ensures content { result.content ≡ sha256 hashed.now }
    ensures reference { result.reference ≡ sha256 signing_text.items }
    ensures text { result.signing_text.items ≡ signing_text.items }
{
    let (content, reference) = hashes_of(hashed, &signing_text);
    Digests {
        content,
        reference,
        signing_text,
    }
}

// The text of the part that is hashed, in which a float has no digits.
fn hashed_text(alloc: Global, event: &Map<String, Value>) -> Result<Vec<u8>, AllocError>
    ensures { IfOk result (λ bytes. bytes.items
        ≡ canonical_text (hashed_part (object (members_view event.now.entries)))) }
{
    let mut buffer = TextBuffer::with_capacity(alloc, CAPACITY)?;
    write_hashed(&mut buffer, event);
    let bytes = buffer.into_bytes()?;
    Ok(bytes)
}

// The hashes of two texts. What they begin with alike is hashed once.
fn hashes_of(a: &[u8], b: &[u8]) -> ([u8; 32], [u8; 32])
    ensures first { result.0 ≡ sha256 a.now }
    ensures second { result.1 ≡ sha256 b.now }
{
    let shared = shared_length(a, b);
    let mut first = Sha256::new();
    first.update(&a[..shared]);
    let Ok(mut second) = first.clone() else {
        unreachable!()
    };
    first.update(&a[shared..]);
    second.update(&b[shared..]);
    (first.finalize(), second.finalize())
}

// How many bytes, in whole blocks, the texts begin with alike.
fn shared_length(a: &[u8], b: &[u8]) -> usize
    ensures first { result ≤ length a.now }
    ensures second { result ≤ length b.now }
    ensures alike { take result a.now ≡ take result b.now }
{
    let mut shared = 0;
    for _ in 0..a.len().min(b.len()) / BLOCK {
        if a[shared..shared + BLOCK] != b[shared..shared + BLOCK] {
            return shared;
        }
        shared += BLOCK;
    }
    shared
}
