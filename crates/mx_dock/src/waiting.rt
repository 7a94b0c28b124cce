// Threads that wait for a dock's value.
ghost use Rattle.std.specs.Prelude.{◌≡◌, ℕ, false, true};
ghost use Rattle.crossbeam_queue.specs.Passes.{view};
ghost use Rattle.mx_dock.specs.Waiting.{rest_at, after_rest, before_look, is_counted};
ghost use Rattle.mx_dock.specs.declared.waiting.Stage.TheVariants.{Awake, Counted, Ready};

use crate::journals::Journaled;
use crate::passes::DockPass;
use std::sync::Wait;
use std::sync::atomic::{AtomicU64, Ordering};
use std::{hint, thread};

#[cfg(test)]
mod tests;

// How often a thread looks without a pause for others.
const LOOKS_AT_ONCE: u32 = 100;

// How often a thread looks before it sleeps between two looks.
const LOOKS_AWAKE: u32 = 110;

/// What the threads that wait for a value, and those that put it in, tell each other.
///
/// It does not come about that the value is in and all who wait for it sleep. A thread that is about to sleep counts
/// itself in `sleepers`, reads `calls`, looks once more, and sleeps only while `calls` is what it has read (its low 32
/// bits). Who puts the value in reads `sleepers` after that, and where it is not 0 raises `calls` and wakes one thread.
/// All these steps, and those of the queue, stand in one order (`SeqCst`). If `sleepers` was read before the thread
/// counted itself, the value was in before the last look: this finds it, or another thread has taken it and will put it
/// in. Else `calls` is raised. If that was before the thread read it, the last look came later, and finds the same. If it
/// was after, the thread does not fall asleep, or it sleeps and one thread is woken, which looks and finds the same.
#[derive(Drop)]
pub(crate) struct Waiting {
    // How many threads sleep between two looks, or are about to.
    sleepers: AtomicU64,
    // How often a put found one that sleeps.
    calls: AtomicU64,
}

impl Waiting {
    /// Nobody waits.
    pub(crate) fn new() -> Waiting {
        Waiting {
            sleepers: AtomicU64::new(0),
            calls: AtomicU64::new(0),
        }
    }

    /// A thread that begins to wait.
    pub(crate) fn begin(&self) -> Waiter<'_>
        ensures { result.stage ≡ Awake 0 }
    {
        Waiter {
            waiting: self,
            stage: Stage::Awake(0),
        }
    }

    /// Wakes one thread, if one sleeps. It asks for the pass through which the value was put in.
    pub(crate) fn wake_one<T: Journaled>(&self, putter: &DockPass<T>)
        requires put { (view putter.now).holds ≡ false }
    {
        if self.has_sleepers(putter) {
            self.call_one();
        }
    }

    // Whether a thread sleeps, or is about to. It is read only once the value is in.
    fn has_sleepers<T: Journaled>(&self, _putter: &DockPass<T>) -> bool
        requires put { (view _putter.now).holds ≡ false }
    {
        self.sleepers.load(Ordering::SeqCst) != 0
    }

    // No thread that has read `calls` before falls asleep after, and one that sleeps is woken.
    fn call_one(&self) {
        self.calls.fetch_add(1, Ordering::SeqCst);
        self.calls.wake_one();
    }
}

/// Where a thread stands that waits.
#[derive(Clone, Copy)]
pub(crate) enum Stage {
    // It has looked so often, and is not counted in `sleepers`.
    Awake(u32),
    // It is counted, and has to read `calls` before it looks again.
    Counted,
    // It is counted, and has read this in `calls` before its last look.
    Ready(u64),
}

impl Stage {
    fn is_counted(self) -> bool
        ensures { result ≡ is_counted self }
    {
        match self {
            Stage::Awake(_) => false,
            Stage::Counted | Stage::Ready(_) => true,
        }
    }

    // After a rest. What was read in `calls` serves for one sleep.
    fn after_rest(self) -> Stage
        ensures { result ≡ after_rest self }
    {
        match self {
            Stage::Awake(looks) if looks < LOOKS_AWAKE => Stage::Awake(looks + 1),
            Stage::Awake(looks) => Stage::Awake(looks),
            Stage::Counted | Stage::Ready(_) => Stage::Counted,
        }
    }
}

/// How a thread rests between two looks.
#[derive(Clone, Copy)]
pub(crate) enum Rest {
    Spin,
    Yield,
    // Asleep, while the low 32 bits of `calls` are this.
    Sleep(u32),
}

/// A thread that looks for the value until it finds it: at first again and again, then with a turn of the other threads
/// between two looks, and at last asleep between two looks. It can't be dropped: it has to end, or it stays counted.
pub(crate) struct Waiter<'a> {
    waiting: &'a Waiting,
    stage: Stage,
}

impl Waiter<'_> {
    /// To be called before each look. A thread that has looked often enough is counted, and then reads `calls`.
    pub(crate) fn before_look(&mut self)
        ensures { (calls : ℕ) × (self.new.stage ≡ before_look calls self.old.stage) }
    {
        match self.stage {
            Stage::Awake(looks) if looks < LOOKS_AWAKE => return,
            Stage::Awake(_) => self.count_in(),
            Stage::Counted | Stage::Ready(_) => {}
        }
        self.read_calls();
    }

    /// Rests after a look that found nothing.
    pub(crate) fn pause<R: Wait>(&mut self, rt: &R)
        ensures { self.new.stage ≡ after_rest self.old.stage }
    {
        match self.rest() {
            Rest::Spin => hint::spin_loop(),
            Rest::Yield => thread::yield_now(),
            Rest::Sleep(expected) => self.waiting.calls.park(rt, expected),
        }
        self.stage = self.stage.after_rest();
    }

    /// The value was found.
    pub(crate) fn end(self) {
        let Waiter { waiting, stage } = self;
        if stage.is_counted() {
            waiting.sleepers.fetch_sub(1, Ordering::SeqCst);
        }
    }

    fn count_in(&mut self)
        requires { is_counted self.old.stage ≡ false }
        ensures { self.new.stage ≡ Counted }
    {
        self.waiting.sleepers.fetch_add(1, Ordering::SeqCst);
        self.stage = Stage::Counted;
    }

    // Only a thread that is counted already reads `calls`, or a put might find nobody to call.
    fn read_calls(&mut self)
        requires { is_counted self.old.stage ≡ true }
        ensures { (calls : ℕ) × (self.new.stage ≡ Ready calls) }
    {
        self.stage = Stage::Ready(self.waiting.calls.load(Ordering::SeqCst));
    }

    // How it rests after a look that found nothing. Only once it is counted and has read `calls` does it sleep.
    fn rest(&self) -> Rest
        ensures { result ≡ rest_at self.now.stage }
    {
        match self.stage {
            Stage::Awake(looks) if looks < LOOKS_AT_ONCE => Rest::Spin,
            Stage::Awake(_) | Stage::Counted => Rest::Yield,
            Stage::Ready(calls) => Rest::Sleep((calls & 0xffff_ffff) as u32),
        }
    }
}
