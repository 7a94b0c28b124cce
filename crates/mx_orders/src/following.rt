// Which events follow which, by their ranks in a list.
ghost use Rattle.std.specs.Prelude.{◌≡◌, ◌+◌, ◌<◌, ◌==◌, ◌&&◌, ◌||◌, [], ℕ, All, IfOk, IfSome, length, nat_lt, if◌then◌else◌, slice_index};
ghost use Rattle.std.specs.BTreeMap.{get};
ghost use Rattle.std.specs.Ordering.{nat_cmp};
ghost use Rattle.mx_graph.specs.Edges.{cited};
ghost use Rattle.mx_graph.specs.Record.{is_in};
ghost use Rattle.mx_orders.specs.Lists.{Distinct};
ghost use Rattle.mx_orders.specs.Ranks.{cites, leads, total_of};

use crate::ranking::ranks_of;
use mx_graph::{EventNo, Graph};
use std::alloc::{AllocError, Global};
use std::collections::BTreeMap;

// Which ranks follow which.
#[derive(Debug, Drop)]
pub(crate) struct Following {
    // For each rank, those whose events cite its event.
    pub(crate) followers: Vec<Vec<usize>>,
    // For each rank, how many its event cites.
    pub(crate) awaited: Vec<usize>,
}

// Which of these events cite which.
pub(crate) fn following_of(
    alloc: Global,
    graph: &Graph,
    numbers: &[EventNo],
) -> Result<Following, AllocError>
    requires known { All (λ number. number < length graph.now) numbers.now }
    requires distinct { Distinct numbers.now }
    ensures followed { IfOk result (λ following. length following.followers.items ≡ length numbers.now) }
    ensures members { IfOk result (λ following. (u p : ℕ) → u < length numbers.now
        → is_in (cited following.followers.items u) p
        ≡ (nat_lt p (length numbers.now) && cites graph.now numbers.now u p)) }
    ensures waiting { IfOk result (λ following. length following.awaited.items ≡ length numbers.now) }
    ensures counted { IfOk result (λ following. (p : ℕ)
        → slice_index following.awaited.items p ≡ total_of following.followers.items p) }
{
    let places = ranks_of(alloc, numbers)?;
    let mut followers = empty_lists(alloc, numbers.len())?;
    let mut awaited = Vec::with_capacity(alloc, numbers.len())?;
    for (rank, event) in numbers.iter().enumerate() {
        let found = follow(&mut followers, &places, graph.auth_events(*event), rank)?;
        awaited.push(found)?;
    }
    Ok(Following { followers, awaited })
}

fn empty_lists(alloc: Global, count: usize) -> Result<Vec<Vec<usize>>, AllocError>
    ensures len { IfOk result (λ lists. length lists.items ≡ count) }
    ensures empty { IfOk result (λ lists. (u : ℕ) → cited lists.items u ≡ []) }
    ensures none { IfOk result (λ lists. (p : ℕ) → total_of lists.items p ≡ 0) }
{
    let mut lists = Vec::with_capacity(alloc, count)?;
    for _ in 0..count {
        lists.push(Vec::new(alloc))?;
    }
    Ok(lists)
}

// This rank follows those that are found for the events that its event cites. It tells how many.
fn follow(
    followers: &mut Vec<Vec<usize>>,
    places: &BTreeMap<EventNo, usize>,
    cited_events: &[EventNo],
    rank: usize,
) -> Result<usize, AllocError>
    requires { (x : ℕ) → IfSome (get nat_cmp places.now x) (λ place. place < length followers.old.items) }
    ensures len { IfOk result (λ _. length followers.new.items ≡ length followers.old.items) }
    ensures members { IfOk result (λ _. (u p : ℕ) → is_in (cited followers.new.items u) p
        ≡ (is_in (cited followers.old.items u) p || ((rank == p) && leads (get nat_cmp places.now) u cited_events.now))) }
    ensures counted { IfOk result (λ found. (p : ℕ) → total_of followers.new.items p
        ≡ total_of followers.old.items p + (if rank == p then found else 0)) }
{
    let mut found = 0;
    for event in cited_events {
        if let Some(place) = places.get(event) {
            followers[*place].push(rank)?;
            found += 1;
        }
    }
    Ok(found)
}
