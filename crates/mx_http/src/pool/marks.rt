// What event loops and answering threads show each other, so that neither waits for the other at a shard.
use crate::pool::claims::Claim;
use std::sync::Wait;
use std::sync::atomic::{AtomicU64, Ordering};
use std::thread;

/// What answering threads work at, to event loops: a bit for each shard, which may be another one's too.
#[derive(Drop)]
pub struct Marks {
    bits: AtomicU64,
}

impl Marks {
    /// None works at a shard.
    pub fn new() -> Marks {
        Marks {
            bits: AtomicU64::new(0),
        }
    }

    /// The threads work at what these claim.
    pub fn show(&self, at_work: &[Claim]) {
        let mut bits = 0;
        for claim in at_work {
            bits |= bits_of(*claim);
        }
        self.bits.store(bits, Ordering::SeqCst);
    }

    /// Whether a thread works at a shard that is claimed here too, or seems to.
    pub fn are_at(&self, claim: Claim) -> bool {
        self.bits.load(Ordering::SeqCst) & bits_of(claim) != 0
    }
}

fn bits_of(claim: Claim) -> u64 {
    match claim {
        Claim::Nothing => 0,
        Claim::Asks(shard) | Claim::Changes(shard) => 1u64 << (shard % 64),
        Claim::Several => u64::MAX,
    }
}

/// Whether an event loop answers a request itself now. It goes up by one where it begins and where it ends, so that it is
/// odd meanwhile.
#[derive(Drop)]
pub struct LoopTurn {
    count: AtomicU64,
}

impl LoopTurn {
    pub fn new() -> LoopTurn {
        LoopTurn {
            count: AtomicU64::new(0),
        }
    }

    pub fn begin(&self) {
        self.count.fetch_add(1, Ordering::SeqCst);
    }

    pub fn end(&self) {
        self.count.fetch_add(1, Ordering::SeqCst);
    }

    pub fn is_busy(&self) -> bool {
        is_odd(self.count.load(Ordering::SeqCst))
    }

    /// Waits until the request is answered that the loop answers now, if it answers one.
    pub fn wait_for_end<R: Wait>(&self, rt: &R) {
        let seen = self.count.load(Ordering::SeqCst);
        if !is_odd(seen) {
            return;
        }
        for _ in rt.forever() {
            if self.count.load(Ordering::SeqCst) != seen {
                return;
            }
            thread::yield_now();
        }
    }
}

fn is_odd(count: u64) -> bool {
    count % 2 == 1
}
