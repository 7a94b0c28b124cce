// The requests that wait for answering threads, to these and to the event loops.
use crate::messages::HttpReply;
use crate::pool::claims::{Claim, may_begin};
use crate::pool::jobs::{Job, Line, Work};
use crate::pool::marks::{LoopTurn, Marks};
use std::alloc::{AllocError, Global};
use std::sync::{Arc, Condvar, Mutex, Wait};
use tokio::sync::oneshot;

/// The requests that wait for answering threads.
///
/// No thread sleeps while a request that may begin waits. Who adds one that may begin wakes a thread, and so does who takes
/// one where another may begin. A request that must wait may begin once a thread's work ends; that thread then looks itself
/// for the next one.
///
/// An event loop that answers a request itself says so (`LoopTurn`) before it looks which shards threads work at (`Marks`),
/// and a thread that begins shows its shards before it looks which loops answer. So one of the two sees the other: the loop
/// leaves its request to the threads, or the thread waits for the loop, which is soon done.
#[derive(Drop)]
pub struct Pool<C> {
    line: Mutex<Line<C>>,
    has_changed: Condvar,
    marks: Marks,
    turns: Vec<Arc<LoopTurn>>,
}

impl<C: Drop> Pool<C> {
    /// No request waits for one of these threads, beside these event loops.
    pub fn new(
        alloc: Global,
        threads: usize,
        turns: &[Arc<LoopTurn>],
    ) -> Result<Pool<C>, AllocError> {
        let mut of_loops = Vec::new(alloc);
        for turn in turns {
            of_loops.push(Arc::try_clone(turn)?)?;
        }
        Ok(Pool {
            line: Mutex::new(Line::new(alloc, threads)?),
            has_changed: Condvar::new(),
            marks: Marks::new(),
            turns: of_loops,
        })
    }

    /// Whether no thread works at what is claimed.
    pub fn is_free(&self, claim: Claim) -> bool {
        !self.marks.are_at(claim)
    }

    /// Adds a request, and tells its number.
    pub fn add<R: Wait>(
        &self,
        rt: &R,
        claim: Claim,
        work: Work<C>,
        reply: oneshot::Sender<HttpReply>,
    ) -> Result<u64, AllocError> {
        let mut line = self.line.lock(rt);
        let number = line.add(claim, work, reply)?;
        let may_begin = may_begin(line.at_work(), claim);
        drop(line);
        if may_begin {
            self.has_changed.notify_one();
        }
        Ok(number)
    }

    /// Nobody waits any more for the answer to the request with this number.
    pub fn withdraw<R: Wait>(&self, rt: &R, number: u64) {
        let mut line = self.line.lock(rt);
        let withdrawn = line.withdraw(number);
        drop(line);
        drop(withdrawn);
    }

    /// A thread's next request, once it has answered the one before. None where no more will come.
    pub fn take<R: Wait>(&self, rt: &R, thread: usize) -> Option<Job<C>> {
        let mut line = self.line.lock(rt);
        line.end(thread);
        for _ in rt.forever() {
            let taken = line.take(thread);
            self.marks.show(line.at_work());
            if let Some(job) = taken {
                let has_next = line.has_next();
                drop(line);
                self.begun(rt, job.claim, has_next);
                return Some(job);
            }
            if line.is_closed() {
                return None;
            }
            line = self.has_changed.wait(rt, line);
        }
        unreachable!()
    }

    // A thread has begun at what it claims.
    fn begun<R: Wait>(&self, rt: &R, claim: Claim, has_next: bool) {
        if has_next {
            self.has_changed.notify_one();
        }
        if !matches!(claim, Claim::Nothing) {
            for turn in &self.turns {
                turn.wait_for_end(rt);
            }
        }
    }

    /// The request, where it may begin now that its thread has read it. Else it waits at its place, unless nobody waits for
    /// its answer any more.
    pub fn begin<R: Wait>(&self, rt: &R, thread: usize, job: Job<C>) -> Option<Job<C>> {
        let mut line = self.line.lock(rt);
        if line.begin(thread, job.claim) {
            self.marks.show(line.at_work());
            drop(line);
            self.begun(rt, job.claim, false);
            return Some(job);
        }
        if !job.reply.is_closed() {
            let _ = line.put_back(job);
        }
        None
    }

    /// No more requests will come.
    pub fn close<R: Wait>(&self, rt: &R) {
        self.line.lock(rt).close();
        self.has_changed.notify_all();
    }
}
