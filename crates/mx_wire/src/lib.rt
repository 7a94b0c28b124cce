//! The requests of other servers, answered by an engine that callers share.
#![tactic(auto)]

mod calls;
mod responses;

pub use calls::{CallShards, shards_of};
pub use mx_requests::{
    Fault, LARGEST_BODY, ReplyBody, Routes, WireCall, WireReply, WireRequest, WireServer,
    fault_reply, memory_reply,
};
pub use responses::{RequestReply, answer_call, read_call, refuse_request, respond};
