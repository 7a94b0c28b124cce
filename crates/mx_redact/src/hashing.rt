// Hashes of events.
ghost use Rattle.std.specs.Prelude.{◌≡◌, ℕ, List, [], None, Some, MatchResult};
ghost use Rattle.sha2.specs.Sha256.{sha256};
ghost use Rattle.serde_json.specs.Data.{object};
ghost use Rattle.serde_json.specs.View.{members_view};
ghost use Rattle.mx_canon.specs.Canonical.{canonical_error};
ghost use Rattle.mx_redact.specs.Hashes.{content_hash as content_hash_of, reference_hash as reference_hash_of, hashed_part, signed_part};
ghost use Rattle.mx_redact.specs.Hashers.{HoldsMessage};

use crate::hashers::TextHasher;
use crate::parts::{fault_in_hashed, fault_in_signed, write_hashed, write_signed};
use mx_canon::NotCanonical;
use serde_json::{Map, Value};

/// The content hash of an event: SHA-256 of the canonical text of the event without `unsigned`, `signatures` and
/// `hashes`.
///
/// `NotCanonical` where that part of the event has no canonical text. It takes no memory. Source: the Matrix
/// specification, Server-Server API, "Calculating the content hash for an event".
pub fn content_hash(event: &Map<String, Value>) -> Result<[u8; 32], NotCanonical>
    ensures { MatchResult result
        (λ hash. (hash ≡ content_hash_of (object (members_view event.now.entries)))
        × (canonical_error (hashed_part (object (members_view event.now.entries))) ≡ None))
        (λ cause. canonical_error (hashed_part (object (members_view event.now.entries))) ≡ Some cause) }
{
    match fault_in_hashed(event) {
        Some(cause) => Err(cause),
        None => Ok(content_digest(event)),
    }
}

/// The content hash of an event, as [`content_hash`] gives it, with no test that the part which is hashed has a
/// canonical text. Of the event nothing else is read.
pub fn content_digest(event: &Map<String, Value>) -> [u8; 32]
    ensures { result ≡ content_hash_of (object (members_view event.now.entries)) }
{
    let mut hasher = TextHasher::new();
    write_hashed(&mut hasher, event);
    hasher.finish()
}

/// The reference hash of an event: SHA-256 of the canonical text of the redacted event without `signatures` and
/// `unsigned`.
///
/// `NotCanonical` where that part of the event has no canonical text. It takes no memory. Source: the Matrix
/// specification, Server-Server API, "Calculating the reference hash for an event".
pub fn reference_hash(event: &Map<String, Value>) -> Result<[u8; 32], NotCanonical>
    ensures { MatchResult result
        (λ hash. (hash ≡ reference_hash_of (object (members_view event.now.entries)))
        × (canonical_error (signed_part (object (members_view event.now.entries))) ≡ None))
        (λ cause. canonical_error (signed_part (object (members_view event.now.entries))) ≡ Some cause) }
{
    match fault_in_signed(event) {
        Some(cause) => Err(cause),
        None => Ok(reference_digest(event)),
    }
}

/// The reference hash of an event, as [`reference_hash`] gives it, with no test that the part which is hashed has a
/// canonical text. Of the event nothing else is read.
pub fn reference_digest(event: &Map<String, Value>) -> [u8; 32]
    ensures { result ≡ reference_hash_of (object (members_view event.now.entries)) }
{
    let mut hasher = TextHasher::new();
    write_signed(&mut hasher, event);
    hasher.finish()
}
