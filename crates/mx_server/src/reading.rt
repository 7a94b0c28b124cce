// What requests ask for, and which shards they go to.
ghost use Rattle.std.specs.Prelude.{◌≡◌, ◌⊎◌, Err, IfErr, IfOk, Ok};
ghost use Rattle.mx_http_requests.specs.Carried.{http_reply_shown};
ghost use Rattle.mx_requests.specs.Calls.{call_of};
ghost use Rattle.mx_requests.specs.CallsShown.{call_shown, request_shown};
ghost use Rattle.mx_server.specs.Judging.{judges_presence};
ghost use Rattle.mx_server.specs.Requests.{IsRead, claim_on};

use json::Scratch;
use mx_http::{AskedCall, Claim, HttpReply, HttpRequest, ReadRequest};
use mx_http_requests::{http_reply, wire_request};
use mx_keeper::ShardCount;
use mx_pdu::PresenceVerifier;
use mx_room::Query;
use mx_wire::{
    CallShards, Fault, RequestReply, WireCall, WireRequest, WireServer, read_call, refuse_request,
    shards_of,
};
use std::alloc::Global;

// How many bytes a body has that is read in a moment.
const SHORT_BODY: usize = 1024;
// How many bytes a body has at most that is read over a scratch that is kept: it keeps as many.
const LONGEST_OVER_KEPT: usize = 65_536;
// The status where the request has another method than its target.
const METHOD_NOT_ALLOWED: u16 = 405;

/// Reads requests: the server that they are to, and how many shards it has.
#[derive(Drop)]
pub struct RequestReader {
    pub server: WireServer,
    pub shards: ShardCount,
}

impl RequestReader {
    /// Whether a request is read in a moment: one with a short body, or with another method than its path has.
    pub fn is_short(&self, request: &HttpRequest) -> bool {
        request.body.len() <= SHORT_BODY || !self.has_its_method(request)
    }

    fn has_its_method(&self, request: &HttpRequest) -> bool {
        match self.server.method_at(&request.target) {
            Some(method) => request.method.as_str() == method,
            None => false,
        }
    }

    /// What a request asks for, or the reply that tells its fault. The scratch is kept from request to request.
    pub fn read(
        &self,
        alloc: Global,
        scratch: &mut Scratch,
        request: HttpRequest,
    ) -> ReadRequest<WireCall>
        ensures { IsRead self.now.server.name self.now.shards request result }
    {
        let request = wire_request(request);
        match self.call_of(alloc, scratch, &request) {
            Ok(call) => ReadRequest::Asking(AskedCall {
                claim: claim_of(shards_of(&call, self.shards)),
                is_quick: is_quick(&call),
                call,
            }),
            Err(fault) => {
                let RequestReply { reply, .. } = refuse_request(alloc, fault);
                let mut refusal = http_reply(reply);
                self.tell_method(alloc, &request, &mut refusal);
                ReadRequest::Refused(refusal)
            }
        }
    }

    // What a request asks for, or its first fault. A long body is read over a scratch of its own, so that the one that is
    // kept stays small.
    fn call_of(
        &self,
        alloc: Global,
        kept: &mut Scratch,
        request: &WireRequest,
    ) -> Result<WireCall, Fault>
        ensures ok { IfOk result (λ call.
            call_of judges_presence self.now.server.name (request_shown request.now) ≡ Ok (call_shown call)) }
        ensures err { IfErr result (λ fault. (fault ≡ Fault.Memory)
            ⊎ (call_of judges_presence self.now.server.name (request_shown request.now) ≡ Err fault)) }
    {
        if request.body.len() <= LONGEST_OVER_KEPT {
            return read_call(alloc, kept, &self.server, &PresenceVerifier, request);
        }
        let mut scratch = Scratch::new(alloc);
        read_call(
            alloc,
            &mut scratch,
            &self.server,
            &PresenceVerifier,
            request,
        )
    }

    // Where the target of a request has another method, that is told. Where no memory is left for it, it is not.
    fn tell_method(&self, alloc: Global, request: &WireRequest, refusal: &mut HttpReply)
        ensures { http_reply_shown refusal.new ≡ http_reply_shown refusal.old }
    {
        if refusal.status == METHOD_NOT_ALLOWED {
            if let Some(method) = self.server.method_at(&request.target) {
                refusal.allowed = String::from_str(alloc, method).ok();
            }
        }
    }
}

// What a call claims that goes to these shards.
fn claim_of(shards: CallShards) -> Claim
    ensures { result ≡ claim_on shards }
{
    match shards {
        CallShards::Nowhere => Claim::Nothing,
        CallShards::Asks(shard) => Claim::Asks(shard),
        CallShards::Changes(shard) => Claim::Changes(shard),
        CallShards::Several => Claim::Several,
    }
}

// Whether a call is answered in a moment where nobody else is at its shards: an event by its id.
fn is_quick(call: &WireCall) -> bool {
    match call {
        WireCall::Asks { query, .. } => matches!(query, Query::Event(_)),
        WireCall::Sends { .. } | WireCall::Joins { .. } => false,
    }
}
