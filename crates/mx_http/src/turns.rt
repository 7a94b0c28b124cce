// Connections that get their turns from an event loop, and what is done once their requests are over.
ghost use Rattle.std.specs.Prelude.{IfNone};
ghost use Rattle.futures.specs.Task.{Covers, Keeps};
ghost use Rattle.futures.specs.Poll.{OnPending};

use crate::stages::{Progress, SharedProgress, Stage};
use futures::task::{Context, Poll};
use futures::{Future, ready};
use hyper::server::conn::http1::Parts;
use tokio::io::{AsyncRead, AsyncWrite};

// How many reads one poll makes of what nobody wants.
const MOST_READS: usize = 64;

/// A connection that knows when its event loop gives it a turn. Once its requests are over it says that nothing more
/// comes; where the body of the last one was not read, what its client still sends is read and passed over, up to so many
/// bytes, so that the client comes to read its reply.
#[derive(Drop)]
pub struct InTurns<W, I> {
    serving: W,
    ended: Option<Ended<I>>,
    progress: SharedProgress,
    read_on: usize,
}

// A connection whose requests are over.
#[derive(Drop)]
struct Ended<I> {
    io: I,
    is_shut_down: bool,
    // How many bytes are still passed over.
    left: usize,
}

impl<W, I> InTurns<W, I> {
    ghost use Rattle.std.specs.Prelude.{◌≡◌, None};

    /// The connection that this serves, which passes over so many bytes of a body that nobody reads.
    pub fn new(serving: W, progress: SharedProgress, read_on: usize) -> InTurns<W, I>
        ensures serving { result.serving ≡ serving }
        ensures ended { result.ended ≡ None }
    {
        InTurns {
            serving,
            ended: None,
            progress,
            read_on,
        }
    }
}

impl<I: AsyncRead + AsyncWrite> Ended<I> {
    // Ready once it is to be closed.
    fn poll(&mut self, cx: &mut Context<'_>) -> Poll<()>
        ensures registered { OnPending result (Covers cx.new (λ _. ⊥)) }
        ensures kept { Keeps cx.old cx.new }
    {
        if !self.is_shut_down {
            if ready!(self.io.poll_shutdown(cx)).is_err() {
                return Poll::Ready(());
            }
            self.is_shut_down = true;
        }
        for _ in 0..MOST_READS {
            if self.left == 0 {
                return Poll::Ready(());
            }
            let mut unread = [0u8; 4096];
            let count = ready!(self.io.poll_read(cx, &mut unread)).unwrap_or(0);
            if count == 0 || count > self.left {
                return Poll::Ready(());
            }
            self.left -= count;
        }
        cx.yield_now()
    }
}

impl<W, I, S> Future for InTurns<W, I>
where
    W: Future<Output = hyper::Result<Parts<I, S>>>,
    I: AsyncRead + AsyncWrite,
    S: Drop,
{
    type Output = hyper::Result<()>;

    ghost can_poll = { λ turns. IfNone turns.ended (W.can_poll turns.serving) };

    fn poll(&mut self, cx: &mut Context<'_>) -> Poll<hyper::Result<()>> {
        if self.ended.is_none() {
            self.progress.begin_turn();
            let parts = match ready!(self.serving.poll(cx)) {
                Ok(parts) => parts,
                Err(error) => return Poll::Ready(Err(error)),
            };
            self.ended = Some(Ended {
                io: parts.io,
                is_shut_down: false,
                left: left_to_read(&self.progress, self.read_on),
            });
        }
        if let Some(ended) = &mut self.ended {
            ready!(ended.poll(cx));
        }
        Poll::Ready(Ok(()))
    }
}

// How many bytes are passed over where the requests of a connection are over.
fn left_to_read(progress: &Progress, read_on: usize) -> usize {
    if progress.has_left_body() {
        progress.enter(Stage::Body);
        read_on
    } else {
        0
    }
}
