// How many threads a server has.
ghost use Rattle.std.specs.Prelude.{◌≡◌, ◌+◌, ◌≤◌};

use mx_options::SeatCount;
use std::marker::Model;

// How many event loops a server has at most: their seats, those of the other threads and that of who counts the rooms are
// then at most 64.
const MOST_LOOPS: u32 = 30;
// How many more threads answer beside the event loops than there are of these: one may be at a shard, one wait to ask it,
// and one go to several, while the others go on.
const MORE_THREADS: u32 = 3;

/// How many event loops a server has. As many threads and three more answer beside them.
#[derive(Clone, Copy, Debug)]
pub(crate) struct Crew {
    loops: u32,
}

impl Model for Crew {
    ghost use Rattle.std.specs.Prelude.{ℕ, ◌≤◌};

    ghost Value = { ℕ };

    ghost view = { λ crew. crew.loops };

    ghost invariant = { λ crew. crew.loops ≤ 30 };

    ghost inverse = { λ loops. record { loops = loops } };
}

impl Crew {
    /// As many event loops as are asked for, and at most 30.
    pub(crate) fn of(threads: SeatCount) -> Crew {
        Crew {
            loops: threads.get().min(MOST_LOOPS),
        }
    }

    pub(crate) fn loops(self) -> usize {
        self.loops as usize
    }

    /// How many seats of an engine it takes: one for each thread, and one for who counts the rooms.
    pub(crate) fn seats(self) -> u32
        ensures some { 1 ≤ result }
        ensures few { result ≤ 64 }
    {
        self.loops + self.loops + MORE_THREADS + 1
    }
}
