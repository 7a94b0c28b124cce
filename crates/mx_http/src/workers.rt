// The workers of a listener: event loops, and the threads that answer beside them.
use crate::connections::Arrival;
use crate::endings::Ending;
use crate::listening::Responders;
use crate::memory::MemoryBudget;
use crate::messages::Responder;
use crate::pool::loops::{LoopResponder, LoopSide};
use crate::pool::marks::LoopTurn;
use crate::pool::shared::Pool;
use crate::pool::threads::AnsweringThread;
use std::alloc::{AllocError, Global};
use std::net::TcpStream;
use std::sync::atomic::AtomicBool;
use std::sync::{Arc, Mutex};
use tokio::sync::mpsc::{UnboundedReceiver, UnboundedSender, unbounded_channel};

/// The connections that an event loop is to serve.
#[derive(Drop)]
pub struct WorkerQueue {
    pub line: UnboundedSender<Arrival>,
    // Whether the loop serves what comes.
    pub has_begun: Arc<AtomicBool>,
    pub turn: Arc<LoopTurn>,
}

/// What the thread of an event loop has: it serves the connections that are handed to it, side by side.
#[derive(Drop)]
pub struct LoopWorker<A: Responder> {
    pub responder: Arc<LoopResponder<A>>,
    pub arrivals: UnboundedReceiver<Arrival>,
    pub has_begun: Arc<AtomicBool>,
    // What all connections may hold of bodies and replies.
    pub budget: Arc<MemoryBudget>,
}

/// The workers, and what hands connections over to each event loop.
#[derive(Drop)]
pub struct Workers<A: Responder> {
    pub queues: Vec<WorkerQueue>,
    pub loops: Vec<LoopWorker<A>>,
    pub threads: Vec<AnsweringThread<A>>,
    pub pool: Arc<Pool<A::Call>>,
    pub responders: Vec<Arc<Mutex<A>>>,
    budget: Arc<MemoryBudget>,
}

// Whether each event loop answers a request itself.
fn turns_of(alloc: Global, loops: usize) -> Result<Vec<Arc<LoopTurn>>, AllocError> {
    let mut turns = Vec::new(alloc);
    for _ in 0..loops {
        turns.push(Arc::new(alloc, LoopTurn::new())?)?;
    }
    Ok(turns)
}

impl<A: Responder> Workers<A> {
    /// One for each of these responders. So many bytes may be held of bodies that come and of replies that go.
    pub fn new(
        alloc: Global,
        responders: Responders<A>,
        budget: Arc<MemoryBudget>,
        ending: &Ending,
    ) -> Result<Workers<A>, AllocError> {
        let Responders { loops, threads } = responders;
        let turns = turns_of(alloc, loops.len())?;
        let pool = Pool::new(alloc, threads.len(), &turns)?;
        let mut workers = Workers {
            queues: Vec::new(alloc),
            loops: Vec::new(alloc),
            threads: Vec::new(alloc),
            pool: Arc::new(alloc, pool)?,
            responders: Vec::new(alloc),
            budget,
        };
        for (turn, responder) in turns.into_iter().zip(loops) {
            workers.add_loop(alloc, turn, responder, ending.another()?)?;
        }
        for (number, responder) in threads.into_iter().enumerate() {
            workers.add_thread(alloc, number, responder, ending.another()?)?;
        }
        Ok(workers)
    }

    fn add_loop(
        &mut self,
        alloc: Global,
        turn: Arc<LoopTurn>,
        responder: A,
        ending: Ending,
    ) -> Result<(), AllocError> {
        let (line, arrivals) = unbounded_channel(alloc)?;
        let has_begun = Arc::new(alloc, AtomicBool::new(false))?;
        let side = LoopSide {
            pool: Arc::try_clone(&self.pool)?,
            turn: Arc::try_clone(&turn)?,
        };
        let responder = Arc::new(alloc, Mutex::new(responder))?;
        let shared = LoopResponder::beside(Arc::try_clone(&responder)?, side, ending);
        self.responders.push(responder)?;
        self.loops.push(LoopWorker {
            responder: Arc::new(alloc, shared)?,
            arrivals,
            has_begun: Arc::try_clone(&has_begun)?,
            budget: Arc::try_clone(&self.budget)?,
        })?;
        self.queues.push(WorkerQueue {
            line,
            has_begun,
            turn,
        })?;
        Ok(())
    }

    fn add_thread(
        &mut self,
        alloc: Global,
        number: usize,
        responder: A,
        ending: Ending,
    ) -> Result<(), AllocError> {
        let responder = Arc::new(alloc, Mutex::new(responder))?;
        self.threads.push(AnsweringThread {
            responder: Arc::try_clone(&responder)?,
            pool: Arc::try_clone(&self.pool)?,
            number,
            ending,
        })?;
        self.responders.push(responder)?;
        Ok(())
    }
}
