//! The requests of other servers and their replies, as HTTP carries them.
#![tactic(auto)]

mod replies;
mod requests;

pub use replies::http_reply;
pub use requests::wire_request;
