// How long replies take.
ghost use Rattle.std.specs.Prelude.{◌≡◌, IfOk, replicate};
ghost use Rattle.mx_metrics.specs.Counts as counting;
ghost use Rattle.mx_metrics.specs.Latencies as definition;

use crate::counts::Counts;
use std::alloc::{AllocError, Global};

/// The greatest time of each range but the last, in microseconds.
pub(crate) const BOUNDS: [u64; 11] = [
    500, 1_000, 2_500, 5_000, 10_000, 25_000, 50_000, 100_000, 500_000, 1_000_000, 10_000_000,
];

/// How many ranges there are.
const RANGES: usize = 12;

/// How long replies took: how many took a time of each range, and how long all took together.
#[derive(Debug, Drop)]
pub struct Latencies {
    pub counts: Counts,
    pub microseconds: u64,
}

impl Latencies {
    /// Of no reply yet.
    pub fn new(alloc: Global) -> Result<Latencies, AllocError>
        ensures counts { IfOk result (λ new. new.counts ≡ replicate RANGES 0) }
        ensures time { IfOk result (λ new. new.microseconds ≡ 0) }
    {
        let counts = Counts::new(alloc, RANGES)?;
        Ok(Latencies {
            counts,
            microseconds: 0,
        })
    }

    /// Counts a reply that took so long.
    pub fn note(&mut self, microseconds: u64)
        ensures counts { self.new.counts ≡ counting.raised self.old.counts (definition.range_of microseconds) 1 }
        ensures time { self.new.microseconds ≡ counting.sum_up_to_most self.old.microseconds microseconds }
    {
        self.counts.raise(range_of(microseconds), 1);
        self.microseconds = self.microseconds.saturating_add(microseconds);
    }

    /// Counts all replies that others count.
    pub fn add(&mut self, others: &Latencies)
        ensures counts { self.new.counts ≡ counting.added self.old.counts others.now.counts }
        ensures time { self.new.microseconds ≡ counting.sum_up_to_most self.old.microseconds others.now.microseconds }
    {
        self.counts.add(&others.counts);
        self.microseconds = self.microseconds.saturating_add(others.microseconds);
    }
}

// The number of the range that a time is of: of the first whose greatest time it does not pass.
fn range_of(microseconds: u64) -> usize
    ensures { result ≡ definition.range_of microseconds }
{
    BOUNDS.iter().filter(|bound| **bound < microseconds).count()
}
