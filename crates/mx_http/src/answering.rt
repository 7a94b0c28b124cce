// The replies to the requests of a connection of HTTP/1.1.
ghost use Rattle.std.specs.Prelude.{◌≡◌, [], IfNone, IfOk, IfSome, IsSomeAnd, MatchOption, codes, false};
ghost use Rattle.http.specs.Request.{body_of, head_of};
ghost use Rattle.futures.specs.Task.{Covers, Keeps};
ghost use Rattle.futures.specs.Poll.{OnPending};
ghost use Rattle.tokio.specs.Channels.{sent_source};
ghost use Rattle.mx_http.specs.Answering.{IfReplied, IsAnswer};
ghost use Rattle.mx_http.specs.Requests.{IsRequest, field_of, is_other_coding, with_body};
ghost use Rattle.mx_http.specs.Responses.{IsSent};

use crate::bodies::{BodyError, CountedBody, WholeBody};
use crate::heads::{has_other_coding, head_fault, request_of};
use crate::memory::{ClientMemory, CountedReply, ReplyBody, Room};
use crate::messages::{HttpReply, HttpRequest, Responder};
use crate::pool::loops::{Begun, LoopResponder};
use crate::pool::tickets::Ticket;
use crate::responses::response;
use crate::runtimes::ConnectionRuntime;
use crate::stages::{SharedProgress, Stage};
use bytes::Bytes;
use futures::task::{Context, Poll};
use futures::{Future, ready};
use hyper::body::{Body, Incoming};
use hyper::service::Service;
use hyper::{Request, Response};
use std::alloc::{AllocError, Global};
use std::rc::Rc;
use std::sync::{Arc, Wait};
use thiserror::Error;

/// Why a request gets no reply, and its connection is closed.
#[derive(Debug, Drop, Error)]
pub enum Unanswered {
    #[error("memory")]
    Memory,
    // The client went away before its body had come.
    #[error("failed read or write")]
    Cut,
    // Its connection was closed for another one.
    #[error("connection closed")]
    GivenUp,
}

impl From<AllocError> for Unanswered {
    ghost use Rattle.std.specs.Prelude.{◌≡◌};
    ghost use Rattle.mx_http.specs.declared.answering.Unanswered.TheVariants.{Memory};

    ghost from_gives = { λ _ error. error ≡ Memory };

    fn from(_refused: AllocError) -> Unanswered {
        Unanswered::Memory
    }
}

// The response with a reply. Where the listener is to end, the connection is closed behind it.
fn response_by<A: Responder>(
    alloc: Global,
    responder: &LoopResponder<A>,
    reply: CountedReply,
) -> Result<Response<ReplyBody<Bytes>>, AllocError>
    ensures { IfOk result (IsSent reply.reply) }
{
    let response = response(alloc, reply, responder.is_ending())?;
    Ok(response)
}

// A request whose body has not come yet, and who answers it.
#[derive(Drop)]
struct Call<A: Responder> {
    responder: Arc<LoopResponder<A>>,
    progress: SharedProgress,
    request: HttpRequest,
    // Whether its body comes in a transfer coding other than `chunked`.
    has_other_coding: bool,
}

fn call_of<I, A: Responder>(
    alloc: Global,
    responder: &Arc<LoopResponder<A>>,
    progress: &SharedProgress,
    request: &Request<Incoming<I>>,
) -> Result<Call<A>, AllocError>
    ensures request { IfOk result (λ call. IsRequest (head_of request.now) [] call.request) }
    ensures coding { IfOk result (λ call. call.has_other_coding
        ≡ is_other_coding (field_of (head_of request.now).headers (codes "transfer-encoding"))) }
{
    Ok(Call {
        responder: Arc::try_clone(responder)?,
        progress: Rc::clone(progress)?,
        request: request_of(alloc, request)?,
        has_other_coding: has_other_coding(request.headers()),
    })
}

impl<A: Responder> Call<A> {
    // Whether the request may have a long reply.
    fn has_long_reply(&self) -> bool {
        A::has_long_reply(self.request.method.as_str(), self.request.target.as_slice())
    }

    // What becomes of the request with this body.
    fn begin<R: ConnectionRuntime>(
        self,
        rt: &R,
        alloc: Global,
        body: CountedBody,
    ) -> Result<Handled<R, A>, Unanswered>
        requires { A.can_respond }
        ensures { IfOk result (λ handled. self.has_other_coding ≡ false
            → IfReplied handled (IsAnswer A.answers (with_body self.request body.bytes))) }
    {
        let Call {
            responder,
            progress,
            mut request,
            has_other_coding,
        } = self;
        if has_other_coding {
            let reply = CountedReply::small(responder.refuse_coding(rt, alloc));
            return Ok(Begun::Replied(response_by(alloc, &responder, reply)?));
        }
        let CountedBody { bytes, memory } = body;
        request.body = bytes;
        match responder.begin(rt, alloc, request)? {
            Begun::Replied(reply) => {
                let response = sent(rt, &responder, reply, memory)?;
                Ok(Begun::Replied(response))
            }
            Begun::Waits(ticket) => {
                progress.enter(Stage::Turn);
                Ok(Begun::Waits(WaitingCall {
                    responder,
                    progress,
                    ticket,
                    memory,
                }))
            }
        }
    }

    // The response to a request whose body is too long. The connection is closed behind it.
    fn refuse_body<R: Wait>(
        self,
        rt: &R,
        alloc: Global,
    ) -> Result<Response<ReplyBody<Bytes>>, AllocError> {
        self.progress.note_left_body();
        let reply = CountedReply::small(self.responder.refuse_body(rt, alloc));
        response(alloc, reply, true)
    }

    // The response to a request whose body does not come in its coding, or whose `Host` is no host and port. The
    // connection is closed behind it.
    fn refuse_framing<R: Wait>(
        self,
        rt: &R,
        alloc: Global,
    ) -> Result<Response<ReplyBody<Bytes>>, AllocError> {
        self.progress.note_left_body();
        let reply = CountedReply::small(self.responder.refuse_framing(rt, alloc));
        response(alloc, reply, true)
    }
}

// A request that waits for an answering thread.
#[derive(Drop)]
struct WaitingCall<R: ConnectionRuntime, A: Responder> {
    responder: Arc<LoopResponder<A>>,
    progress: SharedProgress,
    ticket: Ticket<R, A::Call>,
    // What is held for its client.
    memory: Option<ClientMemory>,
}

// What becomes of a request whose body has come.
type Handled<R, A> = Begun<Response<ReplyBody<Bytes>>, WaitingCall<R, A>>;

// What becomes of a request, once its body has come or not.
fn answered<R: ConnectionRuntime, A: Responder>(
    rt: &R,
    alloc: Global,
    call: Result<Call<A>, AllocError>,
    body: Result<CountedBody, BodyError>,
) -> Result<Handled<R, A>, Unanswered>
    requires { A.can_respond }
    ensures { IfOk result (λ handled. IfOk call (λ call. IfOk body (λ body. call.has_other_coding ≡ false
        → IfReplied handled (IsAnswer A.answers (with_body call.request body.bytes))))) }
{
    let call = call?;
    if !call.progress.end_wait() {
        return Err(Unanswered::GivenUp);
    }
    call.progress.enter(Stage::Reply);
    call.progress.note_answer();
    match body {
        Ok(body) => call.begin(rt, alloc, body),
        Err(BodyError::TooLong) => Ok(Begun::Replied(call.refuse_body(rt, alloc)?)),
        Err(BodyError::Malformed) => Ok(Begun::Replied(call.refuse_framing(rt, alloc)?)),
        Err(BodyError::Memory) => Err(Unanswered::Memory),
        Err(BodyError::Cut) => Err(Unanswered::Cut),
        Err(BodyError::Closed) => Err(Unanswered::GivenUp),
    }
}

/// The requests of a connection go to a responder.
#[derive(Drop)]
pub struct Answers<R, A: Responder> {
    pub rt: R,
    pub responder: Arc<LoopResponder<A>>,
    pub progress: SharedProgress,
    // How many bytes the body of a request may have.
    pub largest_body: usize,
    pub room: Rc<Room<R>>,
}

impl<R, I, A> Service<Request<Incoming<I>>> for Answers<R, A>
where
    R: ConnectionRuntime,
    I: Drop,
    A: Responder,
{
    type Response = Response<ReplyBody<Bytes>>;

    type Error = Unanswered;

    type Future = Answer<R, A, WholeBody<Incoming<I>, R>>;

    ghost can_call = { λ _. A.can_respond };

    ghost calls = { λ _ request answer. (answer.body.body ≡ body_of request) × IfSome answer.call
        (λ call. IfOk call (λ call. IsRequest (head_of request) [] call.request)) };

    fn call(&self, request: Request<Incoming<I>>) -> Self::Future {
        let alloc = self.rt.alloc();
        self.progress.enter(if request.body().is_end_stream() {
            Stage::Turn
        } else {
            Stage::Body
        });
        let call = call_of(alloc, &self.responder, &self.progress, &request);
        let fault = head_fault(&request, self.largest_body);
        let has_long_reply = match &call {
            Ok(call) => call.has_long_reply(),
            Err(_refused) => false,
        };
        let room = Room::wait(&self.room).ok();
        let largest = self.largest_body;
        let body = request.into_body();
        Answer {
            rt: self.rt,
            call: Some(call),
            body: WholeBody::new(alloc, body, largest, fault, room, has_long_reply),
            waiting: None,
        }
    }
}

/// The response to a request, once its body has come or not. Where its connection has answered another one in this turn, it
/// waits for the next turn, so that all other connections have theirs before. It waits too where an answering thread is
/// left to answer it.
#[derive(Drop)]
pub struct Answer<R: ConnectionRuntime, A: Responder, F> {
    rt: R,
    call: Option<Result<Call<A>, AllocError>>,
    body: F,
    waiting: Option<WaitingCall<R, A>>,
}

impl<R, A, F> Future for Answer<R, A, F>
where
    R: ConnectionRuntime,
    A: Responder,
    F: Future<Output = Result<CountedBody, BodyError>>,
{
    type Output = Result<Response<ReplyBody<Bytes>>, Unanswered>;

    ghost can_poll = { λ answer. A.can_respond × IfNone answer.waiting (F.can_poll answer.body) };

    ghost needs = { λ answer source. MatchOption answer.waiting (F.needs answer.body source)
        (λ waiting. IsSomeAnd waiting.ticket.reply (λ reply. source ≡ sent_source reply)) };

    fn poll(
        &mut self,
        cx: &mut Context<'_>,
    ) -> Poll<Result<Response<ReplyBody<Bytes>>, Unanswered>> {
        if self.waiting.is_none() {
            if let Some(Ok(call)) = &self.call {
                if call.progress.has_answered() {
                    call.progress.enter(Stage::Turn);
                    return cx.yield_now();
                }
                call.progress.enter(Stage::Body);
            }
            let body = ready!(self.body.poll(cx));
            let Some(call) = self.call.take() else {
                return Poll::Ready(Err(Unanswered::Memory));
            };
            match answered(&self.rt, self.rt.alloc(), call, body) {
                Ok(Begun::Replied(response)) => return Poll::Ready(Ok(response)),
                Ok(Begun::Waits(waiting)) => self.waiting = Some(waiting),
                Err(error) => return Poll::Ready(Err(error)),
            }
        }
        match &mut self.waiting {
            Some(waiting) => poll_reply(&self.rt, waiting, cx),
            None => Poll::Ready(Err(Unanswered::Memory)),
        }
    }
}

// The response of a request that waits, once its thread has answered it.
fn poll_reply<R: ConnectionRuntime, A: Responder>(
    rt: &R,
    waiting: &mut WaitingCall<R, A>,
    cx: &mut Context<'_>,
) -> Poll<Result<Response<ReplyBody<Bytes>>, Unanswered>>
    ensures registered { OnPending result
        (Covers cx.new (λ source. IsSomeAnd waiting.new.ticket.reply (λ reply. source ≡ sent_source reply))) }
    ensures kept { Keeps cx.old cx.new }
{
    let Some(reply) = ready!(waiting.ticket.poll(cx)) else {
        return Poll::Ready(Err(Unanswered::Memory));
    };
    waiting.progress.enter(Stage::Reply);
    waiting.progress.note_answer();
    match sent(rt, &waiting.responder, reply, waiting.memory.take()) {
        Ok(response) => Poll::Ready(Ok(response)),
        Err(_refused) => Poll::Ready(Err(Unanswered::Memory)),
    }
}

// The response with a reply that was made, in whose place this was held for its client.
fn sent<R: ConnectionRuntime, A: Responder>(
    rt: &R,
    responder: &LoopResponder<A>,
    reply: HttpReply,
    memory: Option<ClientMemory>,
) -> Result<Response<ReplyBody<Bytes>>, AllocError>
    ensures { IfOk result (IsSent reply) }
{
    let counted = CountedReply::count(rt, reply, memory)?;
    let response = response_by(rt.alloc(), responder, counted)?;
    Ok(response)
}
