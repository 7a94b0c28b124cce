// Replies, as HTTP carries them.
ghost use Rattle.std.specs.Prelude.{◌≡◌, IsTrue, None};
ghost use Rattle.mx_http_requests.specs.Carried.{IsCarried, http_reply_shown, is_fixed};
ghost use Rattle.mx_requests.specs.RepliesShown.{reply_shown};
ghost use Rattle.mx_requests.specs.ReplyBodies.{failure};

use bytes::Bytes;
use mx_http::HttpReply;
use mx_requests::{Fault, ReplyBody, WireReply, memory_body, memory_reply};

/// A reply, as HTTP carries it. Where no memory is left for a body that was made for it, it is the reply that tells so, with
/// status 503, which takes none.
///
/// Source: RFC 9110, and the Matrix specification, Server-Server API, "API standards".
pub fn http_reply(reply: WireReply) -> HttpReply
    ensures reply { IsCarried (reply_shown reply) (http_reply_shown result) }
    ensures fixed { IsTrue (is_fixed reply.body) → http_reply_shown result ≡ reply_shown reply }
    ensures plain { result.allowed ≡ None }
{
    let WireReply { status, body } = reply;
    match body {
        ReplyBody::Fixed(bytes) => plain_reply(status, Bytes::from_static(bytes)),
        ReplyBody::Made(bytes) => match Bytes::from_vec(bytes) {
            Ok(body) => plain_reply(status, body),
            Err(_refused) => without_memory(),
        },
    }
}

fn plain_reply(status: u16, body: Bytes) -> HttpReply
    ensures status { result.status ≡ status }
    ensures body { result.body ≡ body }
    ensures plain { result.allowed ≡ None }
{
    HttpReply {
        status,
        body,
        allowed: None,
    }
}

// The reply where no memory is left. It takes none.
fn without_memory() -> HttpReply
    ensures reply { http_reply_shown result ≡ failure Fault.Memory }
    ensures plain { result.allowed ≡ None }
{
    let WireReply { status, .. } = memory_reply();
    plain_reply(status, Bytes::from_static(memory_body()))
}
