// Requests that wait for an answering thread.
ghost use Rattle.std.specs.Prelude.{◌≡◌, ◌<◌, ◌≤◌, ◌++◌, ◌∷◌, []};
ghost use Rattle.std.specs.Prelude.{None, Some, IfSome, IfOk, OnOk, OnErr, IsSomeAnd, length, is_some, slice_index_or, slice_set, true, false, nat_lt, replicate};
ghost use Rattle.std.specs.List.{position, prefix_len, remove, insert};
ghost use Rattle.mx_http.specs.Claims.{may_begin};
ghost use Rattle.mx_http.specs.declared.pool.claims.Claim.TheVariants.{Nothing};

use crate::messages::{HttpReply, HttpRequest};
use crate::pool::claims::{Claim, may_begin};
use std::alloc::{AllocError, Global};
use tokio::sync::oneshot;

/// What is done for a request.
#[derive(Drop)]
pub enum Work<C> {
    // It is read first.
    Read(HttpRequest),
    // It was read, and is answered.
    Answer(C),
}

/// A request that waits for an answering thread.
#[derive(Drop)]
pub struct Job<C> {
    // How many came before it.
    pub number: u64,
    pub claim: Claim,
    pub work: Work<C>,
    // To its connection.
    pub reply: oneshot::Sender<HttpReply>,
}

/// The requests that wait, in the order in which they came, and what each answering thread works at.
#[derive(Drop)]
pub struct Line<C> {
    waiting: Vec<Job<C>>,
    at_work: Vec<Claim>,
    came: u64,
    is_closed: bool,
}

// The place of the request that is taken next: the first one that may begin beside those at work.
fn next<C>(at_work: &[Claim], waiting: &[Job<C>]) -> Option<usize>
    ensures value { result ≡ position (λ job. may_begin at_work.now job.claim) waiting.now }
    ensures within { IfSome result (λ place. place < length waiting.now) }
{
    waiting.iter().position(|job| may_begin(at_work, job.claim))
}

// How many of those that wait came before the one with this number.
fn place_of<C>(waiting: &[Job<C>], number: u64) -> usize
    ensures value { result ≡ prefix_len (λ job. nat_lt job.number number) waiting.now }
    ensures within { result ≤ length waiting.now }
{
    waiting.iter().take_while(|job| job.number < number).count()
}

impl<C: Drop> Line<C> {
    /// None waits, and so many threads work at nothing.
    pub fn new(alloc: Global, threads: usize) -> Result<Line<C>, AllocError>
        ensures waiting { IfOk result (λ line. line.waiting.items ≡ []) }
        ensures at_work { IfOk result (λ line. line.at_work.items ≡ replicate threads Nothing) }
    {
        Ok(Line {
            waiting: Vec::new(alloc),
            at_work: vec![in alloc; Claim::Nothing; threads]?,
            came: 0,
            is_closed: false,
        })
    }

    /// A request has come, and stands behind the others; its number is told.
    pub fn add(
        &mut self,
        claim: Claim,
        work: Work<C>,
        reply: oneshot::Sender<HttpReply>,
    ) -> Result<u64, AllocError>
        ensures at_work { self.new.at_work ≡ self.old.at_work }
        ensures stands { IfOk result (λ number. self.new.waiting.items
            ≡ self.old.waiting.items ++ record { number = number; claim = claim; work = work; reply = reply } ∷ []) }
        ensures err { OnErr result (self.new.waiting.items ≡ self.old.waiting.items) }
    {
        let number = self.came;
        self.waiting.push(Job {
            number,
            claim,
            work,
            reply,
        })?;
        self.came = self.came.saturating_add(1);
        Ok(number)
    }

    /// The request that is taken next, the first one that may begin beside those at work, for a thread that works at what it
    /// claims from then on. None where none may begin, or there is no such thread.
    pub fn take(&mut self, thread: usize) -> Option<Job<C>>
        ensures some { thread < length self.old.at_work.items
            → is_some (position (λ job. may_begin self.old.at_work.items job.claim) self.old.waiting.items) ≡ is_some result }
        ensures taken { IfSome result (λ job. IsSomeAnd (position (λ other. may_begin self.old.at_work.items other.claim) self.old.waiting.items)
            (λ place. (job ≡ slice_index_or self.old.waiting.items place job) × (self.new.waiting.items ≡ remove self.old.waiting.items place))) }
        ensures at_work { IfSome result (λ job. self.new.at_work.items ≡ slice_set self.old.at_work.items thread job.claim) }
        ensures none { result ≡ None → (self.new.waiting.items ≡ self.old.waiting.items) × (self.new.at_work.items ≡ self.old.at_work.items) }
    {
        let place = next(&self.at_work, &self.waiting)?;
        let slot = self.at_work.get_mut(thread)?;
        let job = self.waiting.remove(place);
        *slot = job.claim;
        Some(job)
    }

    /// A thread that has read a request works at what it claims from now on, if it may begin; whether it may.
    pub fn begin(&mut self, thread: usize, claim: Claim) -> bool
        ensures begins { thread < length self.old.at_work.items → result ≡ may_begin self.old.at_work.items claim }
        ensures at_work { result ≡ true → self.new.at_work.items ≡ slice_set self.old.at_work.items thread claim }
        ensures same { result ≡ false → self.new.at_work.items ≡ self.old.at_work.items }
        ensures waiting { self.new.waiting ≡ self.old.waiting }
    {
        if !may_begin(&self.at_work, claim) {
            return false;
        }
        match self.at_work.get_mut(thread) {
            Some(slot) => {
                *slot = claim;
                true
            }
            None => false,
        }
    }

    /// A thread works at nothing any more.
    pub fn end(&mut self, thread: usize)
        ensures at_work { thread < length self.old.at_work.items → self.new.at_work.items ≡ slice_set self.old.at_work.items thread Nothing }
        ensures waiting { self.new.waiting ≡ self.old.waiting }
    {
        if let Some(slot) = self.at_work.get_mut(thread) {
            *slot = Claim::Nothing;
        }
    }

    /// Gives a request that was taken its place back.
    pub fn put_back(&mut self, job: Job<C>) -> Result<(), AllocError>
        ensures at_work { self.new.at_work ≡ self.old.at_work }
        ensures stands { OnOk result (self.new.waiting.items
            ≡ insert self.old.waiting.items (prefix_len (λ other. nat_lt other.number job.number) self.old.waiting.items) job) }
        ensures err { OnErr result (self.new.waiting.items ≡ self.old.waiting.items) }
    {
        let place = place_of(&self.waiting, job.number);
        self.waiting.insert(place, job)?;
        Ok(())
    }

    /// The request with this number, where it still waits: it waits no longer.
    pub fn withdraw(&mut self, number: u64) -> Option<Job<C>>
        ensures at_work { self.new.at_work ≡ self.old.at_work }
        ensures none { result ≡ None → self.new.waiting.items ≡ self.old.waiting.items }
        ensures gone { IfSome result (λ job. (job.number ≡ number)
            × (self.new.waiting.items ≡ remove self.old.waiting.items (prefix_len (λ other. nat_lt other.number number) self.old.waiting.items))) }
    {
        let place = place_of(&self.waiting, number);
        if self.waiting.get(place)?.number != number {
            return None;
        }
        Some(self.waiting.remove(place))
    }

    /// Whether one of those that wait may begin.
    pub fn has_next(&self) -> bool
        ensures { result ≡ is_some (position (λ job. may_begin self.now.at_work.items job.claim) self.now.waiting.items) }
    {
        next(&self.at_work, &self.waiting).is_some()
    }

    /// What each thread works at.
    pub fn at_work(&self) -> &[Claim]
        ensures { result.now ≡ self.now.at_work.items }
    {
        &self.at_work
    }

    /// No more will come.
    pub fn close(&mut self)
        ensures { self.new.is_closed ≡ true }
    {
        self.is_closed = true;
    }

    pub fn is_closed(&self) -> bool
        ensures { result ≡ self.now.is_closed }
    {
        self.is_closed
    }
}
