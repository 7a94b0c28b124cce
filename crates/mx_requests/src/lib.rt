//! The requests of other servers, from their bytes to the calls that they are, or to the first fault; and the replies to
//! them, to their bytes (Matrix specification, Server-Server API).
#![tactic(auto)]

mod authorization;
mod bodies;
mod calls;
mod faults;
mod replies;
mod requests;
mod targets;

pub use bodies::transactions::{events_in, well_formed};
pub use calls::WireCall;
pub use faults::{Fault, InvalidPart, MissingParameter, memory_body};
pub use replies::joins::join_reply;
pub use replies::pieces::write_number;
pub use replies::queries::query_reply;
pub use replies::{ReplyBody, WireReply, fault_reply, memory_reply, storage_reply};
pub use requests::{LARGEST_BODY, WireRequest, WireServer, read_request};
pub use targets::routes::{Route, Routes};
