// Ranks that wait for none.
ghost use Rattle.std.specs.Prelude.{◌≡◌, ◌-◌, ◌<◌, ◌==◌, ◌&&◌, ◌||◌, ℕ, All, IfOk, OnOk, length, nat_lt, slice_index};
ghost use Rattle.std.specs.BTreeSet.{contains};
ghost use Rattle.std.specs.Ordering.{nat_cmp};
ghost use Rattle.mx_graph.specs.Record.{is_in};
ghost use Rattle.mx_orders.specs.Ranks.{times};

use std::alloc::{AllocError, Global};
use std::collections::BTreeSet;

// The ranks that wait for none at first.
pub(crate) fn ready_at_first(
    alloc: Global,
    awaited: &[usize],
) -> Result<BTreeSet<usize>, AllocError>
    ensures { IfOk result (λ ready. (p : ℕ)
        → contains nat_cmp ready p ≡ (nat_lt p (length awaited.now) && (slice_index awaited.now p == 0))) }
{
    let mut ready = BTreeSet::new(alloc);
    for rank in 0..awaited.len() {
        if awaited[rank] == 0 {
            ready.insert(rank)?;
        }
    }
    Ok(ready)
}

// These ranks wait for one fewer, and are ready where it was the last.
pub(crate) fn release(
    awaited: &mut [usize],
    ready: &mut BTreeSet<usize>,
    followers: &[usize],
) -> Result<(), AllocError>
    requires { All (λ rank. rank < length awaited.old) followers.now }
    ensures fewer { OnOk result ((p : ℕ)
        → slice_index awaited.new p ≡ slice_index awaited.old p - times p followers.now) }
    ensures ready { OnOk result ((p : ℕ) → contains nat_cmp ready.new p
        ≡ (contains nat_cmp ready.old p || (is_in followers.now p && (slice_index awaited.new p == 0)))) }
{
    lower(awaited, followers);
    add_ready(ready, awaited, followers)
}

// Each of these ranks waits for one fewer.
fn lower(awaited: &mut [usize], followers: &[usize])
    requires { All (λ rank. rank < length awaited.old) followers.now }
    ensures { (p : ℕ) → slice_index awaited.new p ≡ slice_index awaited.old p - times p followers.now }
{
    for rank in followers {
        let before = awaited[*rank];
        awaited[*rank] = before.saturating_sub(1);
    }
}

// Those of these ranks that wait for none are ready.
fn add_ready(
    ready: &mut BTreeSet<usize>,
    awaited: &[usize],
    ranks: &[usize],
) -> Result<(), AllocError>
    requires { All (λ rank. rank < length awaited.now) ranks.now }
    ensures { OnOk result ((p : ℕ) → contains nat_cmp ready.new p
        ≡ (contains nat_cmp ready.old p || (is_in ranks.now p && (slice_index awaited.now p == 0)))) }
{
    for rank in ranks {
        if awaited[*rank] == 0 {
            ready.insert(*rank)?;
        }
    }
    Ok(())
}
