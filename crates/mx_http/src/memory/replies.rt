// The bodies of replies, which are counted until they have gone.
ghost use Rattle.std.specs.Prelude.{◌≡◌, ◌++◌, IfOk, MatchOption, Some, length};
ghost use Rattle.http_body.specs.SizeHint.{exact};
ghost use Rattle.mx_http.specs.Responses.{GivesBytes, bytes_left};

use crate::memory::budget::{ClientMemory, SMALL};
use crate::messages::HttpReply;
use bytes::{Buf, Bytes};
use futures::task::{Context, Poll};
use hyper::body::{Body, Frame, SizeHint};
use std::alloc::AllocError;
use std::convert::Infallible;
use std::time::Clock;

/// A reply, and what is held for its client, if that is counted.
#[derive(Drop)]
pub struct CountedReply {
    pub reply: HttpReply,
    pub memory: Option<ClientMemory>,
}

impl CountedReply {
    /// A reply that was made. All that was held for its client is given back, and the reply is counted in its place, where
    /// it is long.
    pub fn count<C: Clock>(
        clock: &C,
        reply: HttpReply,
        memory: Option<ClientMemory>,
    ) -> Result<CountedReply, AllocError>
        ensures { IfOk result (λ counted. counted.reply ≡ reply) }
    {
        let Some(mut memory) = memory else {
            return Ok(CountedReply::small(reply));
        };
        if reply.body.len() <= SMALL {
            return Ok(CountedReply::small(reply));
        }
        let now = memory.account().moment(clock);
        memory.hold_reply(reply.body.len(), now)?;
        Ok(CountedReply {
            reply,
            memory: Some(memory),
        })
    }

    /// A reply that is not counted, as one that says why a request is refused.
    pub fn small(reply: HttpReply) -> CountedReply
        ensures { result.reply ≡ reply }
    {
        CountedReply {
            reply,
            memory: None,
        }
    }
}

/// What goes in pieces, where it is long.
pub trait Pieces: Buf + Drop {
    /// Its first piece, behind which this is the rest. None where it is short, or no memory is left.
    fn take_piece(&mut self) -> Option<Self>
        ensures { MatchOption result (Self.unread self.new ≡ Self.unread self.old)
            (λ piece. Self.unread self.old ≡ Self.unread piece ++ Self.unread self.new) };
}

impl Pieces for Bytes {
    fn take_piece(&mut self) -> Option<Bytes> {
        if self.len() <= SMALL {
            return None;
        }
        match self.split_to(SMALL) {
            Ok(piece) => Some(piece),
            Err(_refused) => None,
        }
    }
}

/// The body of a reply. A long one goes in pieces, and all of it is counted until the last one has been handed over.
#[derive(Drop)]
pub struct ReplyBody<D> {
    // None once all has been handed over.
    rest: Option<D>,
    memory: Option<ClientMemory>,
}

impl<D: Pieces> ReplyBody<D> {
    #[tactic(auto, using(std::proofs::lemmas::List::nil_from_length))]
    pub fn new(body: D, memory: Option<ClientMemory>) -> ReplyBody<D>
        ensures { bytes_left D.unread result.rest ≡ D.unread body }
    {
        let rest = if body.remaining() == 0 {
            None
        } else {
            Some(body)
        };
        ReplyBody { rest, memory }
    }
}

impl<D: Pieces> Body for ReplyBody<D> {
    type Data = D;

    type Error = Infallible;

    ghost yields = { λ body. GivesBytes D.unread (bytes_left D.unread body.rest) };

    fn poll_frame(&mut self, _cx: &mut Context<'_>) -> Poll<Option<Result<Frame<D>, Infallible>>> {
        let Some(mut rest) = self.rest.take() else {
            return Poll::Ready(None);
        };
        match rest.take_piece() {
            Some(piece) => {
                self.rest = Some(rest);
                Poll::Ready(Some(Ok(Frame::data(piece))))
            }
            None => Poll::Ready(Some(Ok(Frame::data(rest)))),
        }
    }

    fn is_end_stream(&self) -> bool {
        self.rest.is_none()
    }

    fn size_hint(&self) -> SizeHint
        ensures { exact result ≡ Some (length (bytes_left D.unread self.now.rest)) }
    {
        match &self.rest {
            Some(rest) => SizeHint::with_exact(rest.remaining() as u64),
            None => SizeHint::with_exact(0),
        }
    }
}
