//! Events of a room, as other servers send them (Matrix specification, Room Version 6, event format).
#![tactic(auto)]

mod assembling;
mod checking;
mod comparing;
mod event_fields;
mod fields;
mod hashes;
mod ids;
mod laws;
mod limits;
mod lookups;
mod nesting;
mod offering;
mod pdus;
mod reading;
mod refusals;
mod rule_contents;
mod texts;
mod verifiers;

pub use assembling::EventParts;
pub use laws::redaction_keeps_the_format;
pub use offering::Offered;
pub use pdus::Pdu;
pub use refusals::{NotAnEvent, PduError, TextError};
pub use rule_contents::is_rule_key;
pub use verifiers::{PresenceVerifier, Verifier};
