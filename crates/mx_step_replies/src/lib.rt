//! The reply to a request of another server, by its first step and the reply to its last one, or by its fault.
#![tactic(auto)]

mod replies;

pub use replies::{asked_reply, joined_reply, sent_reply, told_fault, write_reply};
