// The replies to requests.
ghost use Rattle.std.specs.Prelude.{◌≡◌, IfOk};
ghost use Rattle.mx_requests.specs.ReplyBodies.{failure};
ghost use Rattle.mx_requests.specs.RepliesShown.{body_shown, reply_shown};

pub(crate) mod joins;
pub(crate) mod pieces;
pub(crate) mod queries;

use crate::faults::{Fault, memory_body, storage_body};
use std::alloc::{AllocError, Global};

/// A reply to a request: a status of HTTP, and a body in canonical JSON.
#[derive(Debug, Drop)]
pub struct WireReply {
    pub status: u16,
    pub body: ReplyBody,
}

/// The body of a reply: made for it, or one that every such reply has.
#[derive(Debug, Drop)]
pub enum ReplyBody {
    Made(Vec<u8>),
    Fixed(&'static [u8]),
}

impl ReplyBody {
    /// Its bytes.
    pub fn as_bytes(&self) -> &[u8]
        ensures { result.now ≡ body_shown self.now }
    {
        match self {
            ReplyBody::Made(bytes) => bytes,
            ReplyBody::Fixed(bytes) => bytes,
        }
    }
}

/// The reply that tells a fault.
///
/// `AllocError` where no memory was left for its body; [`memory_reply`] tells that, and needs none. Source: the Matrix
/// specification, Server-Server API, "Standard error response".
pub fn fault_reply(alloc: Global, fault: Fault) -> Result<WireReply, AllocError>
    ensures { IfOk result (λ reply. reply_shown reply ≡ failure fault) }
{
    let body = fault.body(alloc)?;
    Ok(WireReply {
        status: fault.status(),
        body: ReplyBody::Made(body),
    })
}

/// The reply that tells [`Fault::Memory`]. It takes no memory.
pub fn memory_reply() -> WireReply
    ensures { reply_shown result ≡ failure Fault.Memory }
{
    WireReply {
        status: Fault::Memory.status(),
        body: ReplyBody::Fixed(memory_body()),
    }
}

/// The reply that tells [`Fault::Storage`]. It takes no memory.
pub fn storage_reply() -> WireReply
    ensures { reply_shown result ≡ failure Fault.Storage }
{
    WireReply {
        status: Fault::Storage.status(),
        body: ReplyBody::Fixed(storage_body()),
    }
}
