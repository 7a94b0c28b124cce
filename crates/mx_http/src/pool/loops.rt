// Requests at an event loop, which answers those itself that need not wait.
ghost use Rattle.std.specs.Prelude.{IfOk};
ghost use Rattle.mx_http.specs.Answering.{IfReplied, IsLeft, MatchBegun};

use crate::endings::Ending;
use crate::messages::{HttpReply, HttpRequest, ReadRequest, Responder};
use crate::pool::claims::Claim;
use crate::pool::jobs::Work;
use crate::pool::marks::LoopTurn;
use crate::pool::shared::Pool;
use crate::pool::tickets::Ticket;
use crate::runtimes::ConnectionRuntime;
use std::alloc::{AllocError, Global};
use std::sync::{Arc, Mutex, Wait};
use tokio::sync::oneshot;

/// An event loop's side of the pool of answering threads.
#[derive(Drop)]
pub struct LoopSide<C> {
    pub pool: Arc<Pool<C>>,
    pub turn: Arc<LoopTurn>,
}

impl<C: Drop> LoopSide<C> {
    // Has a request wait for an answering thread.
    fn leave<R: ConnectionRuntime>(
        &self,
        rt: &R,
        alloc: Global,
        left: LeftWork<C>,
    ) -> Result<Ticket<R, C>, AllocError> {
        let LeftWork { claim, work } = left;
        let (tell, told) = oneshot::channel(alloc)?;
        let pool = Arc::try_clone(&self.pool)?;
        let number = pool.add(rt, claim, work, tell)?;
        Ok(Ticket::new(*rt, pool, number, told))
    }
}

/// The responder of an event loop, and what its connections know beside it.
#[derive(Drop)]
pub struct LoopResponder<A: Responder> {
    responder: Arc<Mutex<A>>,
    side: LoopSide<A::Call>,
    // Whether the listener is to end.
    ending: Ending,
}

/// What becomes of a request: it has its reply, or waits.
#[derive(Drop)]
pub enum Begun<T, W> {
    Replied(T),
    Waits(W),
}

// What is done for a request that waits, and what it claims.
#[derive(Drop)]
struct LeftWork<C> {
    claim: Claim,
    work: Work<C>,
}

impl<A: Responder> LoopResponder<A> {
    /// It answers what need not wait, beside answering threads.
    pub fn beside(
        responder: Arc<Mutex<A>>,
        side: LoopSide<A::Call>,
        ending: Ending,
    ) -> LoopResponder<A> {
        LoopResponder {
            responder,
            side,
            ending,
        }
    }

    /// Whether the listener is to end.
    pub fn is_ending(&self) -> bool {
        self.ending.is_wanted()
    }

    pub fn refuse_body<R: Wait>(&self, rt: &R, alloc: Global) -> HttpReply {
        self.responder.lock(rt).refuse_body(alloc)
    }

    pub fn refuse_coding<R: Wait>(&self, rt: &R, alloc: Global) -> HttpReply {
        self.responder.lock(rt).refuse_coding(alloc)
    }

    pub fn refuse_framing<R: Wait>(&self, rt: &R, alloc: Global) -> HttpReply {
        self.responder.lock(rt).refuse_framing(alloc)
    }

    /// Begins to answer a request. Where it may have to wait for a shard, or takes long to read, it is left to an answering
    /// thread.
    pub fn begin<R: ConnectionRuntime>(
        &self,
        rt: &R,
        alloc: Global,
        request: HttpRequest,
    ) -> Result<Begun<HttpReply, Ticket<R, A::Call>>, AllocError>
        requires { A.can_respond }
        ensures { IfOk result (λ begun. IfReplied begun (A.answers request)) }
    {
        self.side.turn.begin();
        let sorted = self.sort(rt, alloc, request);
        self.side.turn.end();
        match sorted {
            Begun::Replied(reply) => Ok(Begun::Replied(reply)),
            Begun::Waits(left) => Ok(Begun::Waits(self.side.leave(rt, alloc, left)?)),
        }
    }

    // Answers a request that is read and answered in a moment.
    fn sort<R: ConnectionRuntime>(
        &self,
        rt: &R,
        alloc: Global,
        request: HttpRequest,
    ) -> Begun<HttpReply, LeftWork<A::Call>>
        requires { A.can_respond }
        ensures { MatchBegun result (A.answers request) (λ left. IsLeft A.asks request left.work) }
    {
        let mut responder = self.responder.lock(rt);
        if !responder.is_short(&request) {
            return Begun::Waits(LeftWork {
                claim: Claim::Nothing,
                work: Work::Read(request),
            });
        }
        match responder.read(alloc, request) {
            ReadRequest::Refused(reply) => Begun::Replied(reply),
            ReadRequest::Asking(asked) if asked.is_quick && self.side.pool.is_free(asked.claim) => {
                let reply = responder.respond(rt, alloc, asked.call);
                if responder.is_done() {
                    self.ending.want(rt);
                }
                Begun::Replied(reply)
            }
            ReadRequest::Asking(asked) => Begun::Waits(LeftWork {
                claim: asked.claim,
                work: Work::Answer(asked.call),
            }),
        }
    }
}
