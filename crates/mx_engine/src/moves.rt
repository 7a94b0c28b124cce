// Jobs that are brought to the front, and back to where they were.
ghost use Rattle.std.specs.Prelude.{◌≡◌, [], ◌+◌, ◌<◌, ◌≤◌, ℕ, List, length, get_or, vec_capacity};
ghost use Rattle.mx_engine.specs.Jobs.{moved, unmoved, AreMoves};

use crate::jobs::Job;
use mx_keeper::{Keeper, ShardRow};

// Brings the job with this number behind those that were brought to the front, where it is busy, and notes its number.
fn bring_job<K: Keeper<Row = ShardRow>>(
    jobs: &mut Vec<Job<K>>,
    moves: &mut Vec<usize>,
    number: usize,
)
    requires number { number < length jobs.old.items }
    requires few { length moves.old.items ≤ number }
    requires room { number < vec_capacity moves.old }
    ensures few { length moves.new.items ≤ number + 1 }
    ensures room { vec_capacity moves.new ≡ vec_capacity moves.old }
    ensures jobs { (first : List (Job K)) → jobs.old.items ≡ moved 0 moves.old.items first
        → jobs.new.items ≡ moved 0 moves.new.items first }
    ensures within { AreMoves (length jobs.old.items) 0 moves.old.items
        → AreMoves (length jobs.old.items) 0 moves.new.items }
{
    if !jobs[number].is_busy {
        return;
    }
    jobs.swap(moves.len(), number);
    moves.push_reserved(number);
}

/// Brings the busy jobs to the front, and notes where each of them was.
pub(crate) fn bring_forward<K: Keeper<Row = ShardRow>>(
    jobs: &mut Vec<Job<K>>,
    moves: &mut Vec<usize>,
)
    requires none { moves.old.items ≡ [] }
    requires room { length jobs.old.items ≤ vec_capacity moves.old }
    ensures jobs { jobs.new.items ≡ moved 0 moves.new.items jobs.old.items }
    ensures within { AreMoves (length jobs.old.items) 0 moves.new.items }
{
    for number in 0..jobs.len() {
        bring_job(jobs, moves, number);
    }
}

// Where the job was that was brought to this place.
fn place_before(moves: &[usize], place: usize) -> usize
    requires { place < length moves.now }
    ensures { (d : ℕ) → result ≡ get_or moves.now place d }
{
    moves[place]
}

/// Brings the jobs back to where they were.
pub(crate) fn bring_back<K: Keeper<Row = ShardRow>>(jobs: &mut Vec<Job<K>>, moves: &[usize])
    requires { AreMoves (length jobs.old.items) 0 moves.now }
    ensures { jobs.new.items ≡ unmoved 0 moves.now jobs.old.items }
{
    for done in 0..moves.len() {
        let last = moves.len() - 1 - done;
        let place = place_before(moves, last);
        jobs.swap(last, place);
    }
}
