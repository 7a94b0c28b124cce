// Counters, each at a place.
ghost use Rattle.std.specs.Prelude.{◌≡◌, IfOk, replicate, slice_index};
ghost use Rattle.mx_metrics.specs.Counts as definition;

use std::alloc::{AllocError, Global};
use std::marker::Model;

/// So many counters, at the places from 0. One that would pass 2^64 - 1 stays there.
#[derive(Debug, Drop)]
pub struct Counts {
    counts: Vec<u64>,
}

impl Model for Counts {
    ghost use Rattle.std.specs.Prelude.{ℕ, List};

    ghost Value = { List ℕ };

    ghost view = { λ c. c.counts.items };
}

impl Counts {
    /// So many counters, all at 0.
    pub fn new(alloc: Global, size: usize) -> Result<Counts, AllocError>
        ensures { IfOk result (λ counts. counts ≡ replicate size 0) }
    {
        let counts = vec![in alloc; 0u64; size]?;
        Ok(Counts { counts })
    }

    /// The count at a place; 0 at a place that there is not.
    pub fn at(&self, place: usize) -> u64
        ensures { result ≡ slice_index self.now place }
    {
        match self.counts.get(place) {
            Some(count) => *count,
            None => 0,
        }
    }

    /// Raises the count at a place by so many; nothing at a place that there is not.
    pub fn raise(&mut self, place: usize, by: u64)
        ensures { self.new ≡ definition.raised self.old place by }
    {
        if place < self.counts.len() {
            self.counts[place] = self.counts[place].saturating_add(by);
        }
    }

    /// Raises each count by the one at the same place of others.
    pub fn add(&mut self, others: &Counts)
        ensures { self.new ≡ definition.added self.old others.now }
    {
        let mut place = 0;
        while place < self.counts.len() {
            self.counts[place] = self.counts[place].saturating_add(others.at(place));
            place += 1;
        }
    }
}
