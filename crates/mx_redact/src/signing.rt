// What of an event is signed, and its id.
ghost use Rattle.std.specs.Prelude.{◌≡◌, ◌↔◌, ◌∷◌, IfOk, IsErrOf, Some};
ghost use Rattle.base64.specs.GeneralPurpose.{encode_of};
ghost use Rattle.base64.specs.Engines.{url_safe_no_pad};
ghost use Rattle.serde_json.specs.Data.{object};
ghost use Rattle.serde_json.specs.View.{members_view};
ghost use Rattle.mx_canon.specs.Canonical.{canonical_error};
ghost use Rattle.mx_canon.specs.declared.checking.NotCanonical.{NotCanonical as Cause};
ghost use Rattle.mx_redact.specs.Fields.{Event};
ghost use Rattle.mx_redact.specs.Hashes.{event_id as event_id_of, signing_text, signing_text as text_of, signed_part};

use crate::digests::CAPACITY;
use crate::hashing::reference_hash;
use crate::parts::{fault_in_signed, write_signed};
use base64::engine::general_purpose::URL_SAFE_NO_PAD;
use mx_canon::{CanonError, TextBuffer};
use mx_ident::{EventId, IdError};
use serde_json::{Map, Value};
use sha2::{Digest, Sha256};
use std::alloc::{AllocError, Global};

/// What is signed of an event: the canonical text of the redacted event without `signatures` and `unsigned`.
///
/// `NotCanonical` where that part of the event has no canonical text. Source: the Matrix specification, Server-Server
/// API, "Signing events".
pub fn signing_bytes(alloc: Global, event: &Map<String, Value>) -> Result<Vec<u8>, CanonError>
    ensures ok { IfOk result (λ bytes. bytes.items ≡ signing_text (object (members_view event.now.entries))) }
    // It is tested first, so that memory may run out only where the part is canonical.
    ensures not_canonical { (cause : Cause) → (IsErrOf result (CanonError.NotCanonical cause)
        ↔ (canonical_error (signed_part (object (members_view event.now.entries))) ≡ Some cause)) }
{
    match fault_in_signed(event) {
        Some(cause) => Err(CanonError::NotCanonical(cause)),
        None => {
            let bytes = signed_text(alloc, event)?;
            Ok(bytes)
        }
    }
}

// The text of the part that is signed, in which a float has no digits.
#[tactic(auto, unfolding(crate::specs::Hashes::signing_text))]
pub(crate) fn signed_text(alloc: Global, event: &Map<String, Value>) -> Result<Vec<u8>, AllocError>
    ensures { IfOk result (λ bytes. bytes.items ≡ signing_text (object (members_view event.now.entries))) }
{
    let mut buffer = TextBuffer::with_capacity(alloc, CAPACITY)?;
    write_signed(&mut buffer, event);
    let bytes = buffer.into_bytes()?;
    Ok(bytes)
}

/// The id of an event: `$` and the unpadded URL-safe base64 of its reference hash.
///
/// `NotCanonical` where the part of the event that is hashed has no canonical text. Source: the Matrix specification,
/// Room Version 4, "Event IDs".
#[tactic(auto, unfolding(crate::specs::Hashes::event_id))]
pub fn event_id(alloc: Global, event: &Map<String, Value>) -> Result<EventId, CanonError>
    ensures ok { IfOk result (λ id. id ≡ event_id_of (object (members_view event.now.entries))) }
    ensures not_canonical { (cause : Cause) → (IsErrOf result (CanonError.NotCanonical cause)
        ↔ (canonical_error (signed_part (object (members_view event.now.entries))) ≡ Some cause)) }
{
    let hash = reference_hash(event).map_err(CanonError::NotCanonical)?;
    let id = id_with_hash(alloc, &hash)?;
    Ok(id)
}

/// The id of each event that has this signing text, as [`event_id`] gives it, with no walk over the event.
///
/// Source: the Matrix specification, Room Version 4, "Event IDs".
#[tactic(auto, unfolding(crate::specs::Hashes::event_id))]
pub fn event_id_by_text(alloc: Global, signing_text: &[u8]) -> Result<EventId, AllocError>
    ensures { IfOk result (λ id. (event : Event) → text_of event ≡ signing_text.now → id ≡ event_id_of event) }
{
    let hash = Sha256::digest(signing_text);
    id_with_hash(alloc, &hash)
}

/// The id of the event with this reference hash: `$` and the unpadded URL-safe base64 of the hash.
///
/// Source: the Matrix specification, Room Version 4, "Event IDs".
pub fn id_with_hash(alloc: Global, hash: &[u8; 32]) -> Result<EventId, AllocError>
    ensures { IfOk result (λ id. id ≡ 36 ∷ encode_of url_safe_no_pad hash.now) }
{
    let text = id_text(hash);
    let Ok(text) = str::from_utf8(&text) else {
        unreachable!()
    };
    match EventId::parse(alloc, text) {
        Ok(id) => Ok(id),
        Err(IdError::Memory) => Err(AllocError),
        Err(IdError::NotAnId(_)) => unreachable!(),
    }
}

fn id_text(hash: &[u8; 32]) -> [u8; 44]
    ensures { result ≡ 36 ∷ encode_of url_safe_no_pad hash.now }
{
    let mut text = [b'$'; 44];
    match URL_SAFE_NO_PAD.encode_slice(hash, &mut text[1..]) {
        Ok(_) => text,
        Err(_) => unreachable!(),
    }
}
