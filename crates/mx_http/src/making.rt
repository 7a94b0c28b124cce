// Connections that are served as they come.
ghost use Rattle.std.specs.Prelude.{IfOk, IfSome, IsSomeAnd};
ghost use Rattle.futures.specs.Runs.{ItemsWhere};

use futures::task::{Context, Poll};
use futures::{Future, Stream, ready};
use std::alloc::AllocGlobal;
use std::io;
use std::net::Net;
use std::random::RandomSource;
use std::sync::Wait;
use std::sync::atomic::{AtomicBool, Ordering};
use std::time::Clock;
use tokio::runtime::{Handle, LocalRuntime};

/// What makes of each source a future that serves it.
pub trait Opener<S>: Drop {
    type Served: Future;

    /// Holds of what may open.
    ghost can_open: { Self → Type 0 };

    /// The future that serves it, on an event loop with this handle.
    fn open(&self, source: S, handle: &Handle) -> io::Result<Self::Served>
        requires { can_open self.now }
        ensures { IfOk result Self.Served.can_poll };
}

// Ends when its connection does, and at once where there is none.
#[derive(Drop)]
struct Opened<C> {
    connection: Option<C>,
}

impl<C: Future<Output = T>, T: Drop> Future for Opened<C> {
    type Output = ();

    ghost can_poll = { λ opened. IfSome opened.connection C.can_poll };

    ghost needs = { λ opened source. IsSomeAnd opened.connection (λ c. C.needs c source) };

    fn poll(&mut self, cx: &mut Context<'_>) -> Poll<()> {
        let Some(connection) = &mut self.connection else {
            return Poll::Ready(());
        };
        let _ = ready!(connection.poll(cx));
        Poll::Ready(())
    }
}

// The futures that serve what comes.
#[derive(Drop)]
struct Served<S, O> {
    arrivals: S,
    opener: O,
    handle: Handle,
}

impl<S, O> Stream for Served<S, O>
where
    S: Stream,
    O: Opener<S::Item>,
    <O::Served as Future>::Output: Drop,
{
    type Item = Opened<O::Served>;

    ghost can_poll = { λ served. O.can_open served.opener × S.can_poll served.arrivals };

    ghost needs = { λ served. S.needs served.arrivals };

    ghost yields = { λ _. ItemsWhere (λ opened. IfSome opened.connection O.Served.can_poll) };

    fn poll_next(&mut self, cx: &mut Context<'_>) -> Poll<Option<Opened<O::Served>>> {
        match ready!(self.arrivals.poll_next(cx)) {
            Some(source) => {
                let connection = self.opener.open(source, &self.handle).ok();
                Poll::Ready(Some(Opened { connection }))
            }
            None => Poll::Ready(None),
        }
    }
}

/// Serves all that come, side by side on one event loop, until no more will come and each has ended. Once there is an event
/// loop `has_begun` says so; an error before that where none can be made, as where no descriptor is left.
pub fn serve_each<R, S, O>(rt: &R, arrivals: S, opener: O, has_begun: &AtomicBool) -> io::Result<()>
where
    R: Wait + Clock + Net + RandomSource + AllocGlobal,
    S: Stream,
    O: Opener<S::Item>,
    <O::Served as Future>::Output: Drop,
    requires arrivals { S.can_poll arrivals }
    requires opener { O.can_open opener }
{
    let mut runtime = LocalRuntime::new(rt)?;
    let handle = runtime.handle().clone()?;
    has_begun.store(true, Ordering::SeqCst);
    let served = Served {
        arrivals,
        opener,
        handle,
    };
    runtime.run_all(rt, served)
}
