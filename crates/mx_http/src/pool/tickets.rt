// Requests whose connections wait for their answers.
ghost use Rattle.std.specs.Prelude.{◌≡◌, IsSomeAnd};
ghost use Rattle.tokio.specs.Channels.{sent_source};

use crate::messages::HttpReply;
use crate::pool::shared::Pool;
use futures::task::{Context, Poll};
use futures::{Future, ready};
use std::sync::{Arc, Wait};
use tokio::sync::oneshot;

/// A request that waits for an answering thread, to its connection. Where this is dropped before the answer has come, the
/// request waits no longer.
pub struct Ticket<R: Wait + Drop, C: Drop> {
    rt: R,
    pool: Arc<Pool<C>>,
    number: u64,
    // None once the answer has come.
    pub reply: Option<oneshot::Receiver<HttpReply>>,
}

impl<R: Wait + Drop, C: Drop> Ticket<R, C> {
    /// Of the request with this number.
    pub fn new(
        rt: R,
        pool: Arc<Pool<C>>,
        number: u64,
        reply: oneshot::Receiver<HttpReply>,
    ) -> Ticket<R, C> {
        Ticket {
            rt,
            pool,
            number,
            reply: Some(reply),
        }
    }
}

impl<R: Wait + Drop, C: Drop> Drop for Ticket<R, C> {
    // The receiver goes first: a thread that has taken the request sees so that it need not wait again.
    fn drop(self) {
        let Self {
            rt,
            pool,
            number,
            reply,
        } = self;
        if let Some(reply) = reply {
            drop(reply);
            pool.withdraw(&rt, number);
        }
    }
}

impl<R: Wait + Drop, C: Drop> Future for Ticket<R, C> {
    type Output = Option<HttpReply>;

    ghost needs = { λ ticket source. IsSomeAnd ticket.reply (λ reply. source ≡ sent_source reply) };

    // None where its thread is gone, or no memory was left for it.
    fn poll(&mut self, cx: &mut Context<'_>) -> Poll<Option<HttpReply>> {
        let Some(reply) = &mut self.reply else {
            return Poll::Ready(None);
        };
        let told = ready!(reply.poll(cx));
        self.reply = None;
        Poll::Ready(told.ok())
    }
}
