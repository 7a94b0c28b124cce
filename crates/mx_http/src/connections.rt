// Connections of HTTP/1.1, by hyper.
use crate::answering::Answers;
use crate::bodies::READ_ON;
use crate::guards::ConnectionGuard;
use crate::making::{Opener, serve_each};
use crate::memory::{Account, MemoryBudget, ReplyBody, Room};
use crate::messages::Responder;
use crate::pool::loops::LoopResponder;
use crate::quiet::{Patience, Timed};
use crate::runtimes::ConnectionRuntime;
use crate::stages::Progress;
use crate::turns::InTurns;
use bytes::Bytes;
use hyper::rt::TokioTimer;
use hyper::server;
use hyper::server::conn::http1::WithoutShutdown;
use std::alloc::AllocError;
use std::hash::RandomState;
use std::io;
use std::random::RandomSource;
use std::rc::Rc;
use std::sync::Arc;
use std::sync::atomic::AtomicBool;
use std::time::Clock;
use tokio::net::TcpStream;
use tokio::runtime::Handle;
use tokio::sync::mpsc::UnboundedReceiver;

// How many bytes of a connection are buffered that come, and how many that go.
const BUFFERED: usize = 131_072;

// Serves connections, each of whose requests go to one responder.
#[derive(Drop)]
struct Serving<R, A: Responder> {
    rt: R,
    keys: RandomState,
    responder: Arc<LoopResponder<A>>,
    largest_body: usize,
    budget: Arc<MemoryBudget>,
    patience: Patience,
}

impl<R: Clock, A: Responder> Serving<R, A> {
    // The account of a connection.
    fn account(&self, guard: &ConnectionGuard) -> io::Result<Account> {
        let budget = Arc::try_clone(&self.budget)?;
        Ok(Account::new(budget, guard.handle()?, guard.start()))
    }
}

/// The socket of a connection, and what tells it to end.
pub type Arrival = (std::net::TcpStream, ConnectionGuard);

impl<R, A> Opener<Arrival> for Serving<R, A>
where
    R: ConnectionRuntime,
    A: Responder,
{
    type Served = InTurns<
        WithoutShutdown<Timed<TcpStream, R>, Answers<R, A>, ReplyBody<Bytes>, TokioTimer<R>>,
        Timed<TcpStream, R>,
    >;

    ghost can_open = { λ _. A.can_respond };

    fn open(&self, arrival: Arrival, handle: &Handle) -> io::Result<Self::Served> {
        let (socket, guard) = arrival;
        let alloc = self.rt.alloc();
        // Each reply goes at once: without this the second one of two requests that came together would wait until the first
        // one is acknowledged, up to 40 milliseconds.
        let _ = socket.set_nodelay(true);
        let io = TcpStream::from_std(socket, handle.reactor())?;
        let progress = Progress::new(guard.activity()?);
        let progress = Rc::new(alloc, progress).map_err(AllocError::from)?;
        let account = Arc::new(alloc, self.account(&guard)?).map_err(AllocError::from)?;
        let room = Room {
            rt: self.rt,
            timers: handle.time().clone()?,
            account,
            progress: Rc::clone(&progress)?,
        };
        let mine = Rc::clone(&progress)?;
        let timed = Timed::new(io, self.rt, handle.time(), self.patience, mine, guard)?;
        let timer = TokioTimer::new(self.rt, handle.time().clone()?);
        let mut http = server::conn::http1::Builder::new(alloc, self.keys).timer(timer);
        http.header_read_timeout(None);
        http.max_buf_size(BUFFERED);
        let service = Answers {
            rt: self.rt,
            responder: Arc::try_clone(&self.responder)?,
            progress: Rc::clone(&progress)?,
            largest_body: self.largest_body,
            room: Rc::new(alloc, room).map_err(AllocError::from)?,
        };
        let serving = http.serve_connection(timed, service).without_shutdown();
        let read_on = self.largest_body.saturating_mul(READ_ON);
        Ok(InTurns::new(serving, progress, read_on))
    }
}

/// Answers the requests of all connections that come, side by side on one event loop, each until its client is done, goes
/// away or is waited for too long, until no more will come. A request that did not come whole is not answered, and
/// changes nothing. A body of more than `largest_body` bytes is refused by the responder. Once connections that come are
/// served `has_begun` says so.
///
/// Source: RFC 9112.
pub fn serve_all<R, A>(
    rt: R,
    arrivals: UnboundedReceiver<Arrival>,
    responder: Arc<LoopResponder<A>>,
    largest_body: usize,
    budget: Arc<MemoryBudget>,
    patience: Patience,
    has_begun: &AtomicBool,
) -> io::Result<()>
where
    R: ConnectionRuntime + RandomSource,
    A: Responder,
    requires { A.can_respond }
{
    let serving = Serving {
        rt,
        keys: RandomState::new(&rt)?,
        responder,
        largest_body,
        budget,
        patience,
    };
    serve_each(&rt, arrivals, serving, has_begun)
}
