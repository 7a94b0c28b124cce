//! Redaction, hashes and ids of events (Matrix specification, Room Version 6, and Server-Server API, "Signing
//! events").
#![tactic(auto)]

mod digests;
mod event_keys;
mod fields;
mod hashers;
mod hashing;
mod kinds;
mod part_texts;
mod parts;
mod places;
mod redacting;
mod selections;
mod signing;

pub use digests::{Digests, digests_by_places, digests_by_text, event_digests};
pub use event_keys::EventKey;
pub use fields::{field, is_text, text_field};
pub use hashing::{content_digest, content_hash, reference_digest, reference_hash};
pub use places::MemberPlace;
pub use redacting::redact;
pub use signing::{event_id, event_id_by_text, id_with_hash, signing_bytes};
