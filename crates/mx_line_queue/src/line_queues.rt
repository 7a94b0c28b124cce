// Lines that wait to be written.
ghost use Rattle.std.specs.Prelude.{◌≡◌, ◌∷◌, IfOk, MatchOption, []};
ghost use Rattle.mx_line_queue.specs.LineQueue.{after_told, has_none, told_dropped, with_dropped, with_line, without_lines};

use std::alloc::{AllocError, Global};
use std::collections::VecDeque;
use std::marker::Model;

/// Lines that wait to be written, in the order in which they came, and how many came after them and were dropped.
///
/// A line is dropped where as many wait as may, and so is each one behind it until it is told how many were: so what is
/// told of them stands where they would.
#[derive(Drop)]
pub struct LineQueue<L> {
    waiting: VecDeque<L>,
    most: usize,
    dropped: u64,
    dropped_in_all: u64,
}

impl<L> Model for LineQueue<L> {
    ghost use Rattle.std.specs.Prelude.{◌≡◌, ◌≤◌};
    ghost use Rattle.std.specs.VecDeque.{deque_capacity, deque_len};
    ghost use Rattle.mx_line_queue.specs.LineQueue.{WaitingLines, lines_code};

    ghost Value = { WaitingLines L };

    ghost coded = { lines_code L.code };

    ghost view = { λ queue. record { most = queue.most; waiting = queue.waiting.items; dropped = queue.dropped; dropped_in_all = queue.dropped_in_all } };

    ghost invariant = { λ queue. (deque_capacity queue.waiting ≡ queue.most) × (deque_len queue.waiting ≤ queue.most) };
}

impl<L: Drop> LineQueue<L> {
    /// No line waits, and so many may.
    pub fn new(alloc: Global, most: usize) -> Result<LineQueue<L>, AllocError>
        ensures { IfOk result (λ queue. queue ≡ without_lines most) }
    {
        let waiting = VecDeque::with_capacity(alloc, most)?;
        Ok(LineQueue {
            waiting,
            most,
            dropped: 0,
            dropped_in_all: 0,
        })
    }

    /// A line comes. It takes no memory.
    pub fn add(&mut self, line: L)
        ensures { self.new ≡ with_line line self.old }
    {
        if self.dropped == 0 && self.waiting.len() < self.most {
            self.waiting.push_back_reserved(line);
        } else {
            self.add_dropped();
        }
    }

    /// A line that can't be had counts as one that is dropped.
    pub fn add_dropped(&mut self)
        ensures { self.new ≡ with_dropped self.old }
    {
        self.dropped = self.dropped.saturating_add(1);
        self.dropped_in_all = self.dropped_in_all.saturating_add(1);
    }

    /// The line that has waited longest, which waits no more; none where none waits.
    pub fn next_line(&mut self) -> Option<L>
        ensures { MatchOption result
            ((self.old.waiting ≡ []) × (self.new ≡ self.old))
            (λ line. self.old ≡ record { most = self.new.most; waiting = line ∷ self.new.waiting; dropped = self.new.dropped; dropped_in_all = self.new.dropped_in_all }) }
    {
        self.waiting.pop_front()
    }

    /// How many were dropped, which is told now that no line waits; 0 as long as one does.
    pub fn take_dropped(&mut self) -> u64
        ensures count { result ≡ told_dropped self.old }
        ensures told { self.new ≡ after_told self.old }
    {
        if !self.waiting.is_empty() {
            return 0;
        }
        let dropped = self.dropped;
        self.dropped = 0;
        dropped
    }

    /// Whether nothing is left to be written.
    pub fn is_empty(&self) -> bool
        ensures { result ≡ has_none self.now }
    {
        self.waiting.is_empty() && self.dropped == 0
    }

    /// How many were dropped in all since it was made, whether or not it was told.
    pub fn dropped_in_all(&self) -> u64
        ensures { result ≡ self.now.dropped_in_all }
    {
        self.dropped_in_all
    }
}
