ghost use Rattle.std.specs.Prelude.{◌<◌, All, IfOk, length};

use crate::random_graphs::{random_events, random_graph};
use crate::rows::{event_at, next};
use mx_graph::Graph;
use mx_state_res::plain::plain_full_conflicted;
use mx_state_res::{
    dense_chain_difference, full_conflicted, sparse_chain_difference, unconflicted,
};
use mx_states::StateMap;
use std::alloc::Global;
use std::test::Fail;

// A state with events at three keys, of fewer events at the first ones.
fn random_state(alloc: Global, graph: &Graph, seed: u64) -> Result<StateMap, Fail>
    ensures { IfOk result (λ state. All (λ e. e.1 < length graph.now) state) }
{
    let mut state = StateMap::new(alloc);
    let mut digits = seed / 65_536;
    for (kind, count) in [("a", 2), ("b", 4), ("c", 14)] {
        let place = 13 - digits % count;
        digits /= 16;
        let event = event_at(alloc, graph, place as u32).ok_or("no event")?;
        state.insert(kind, "", event)?;
    }
    Ok(state)
}

#[test]
fn one_set_by_both_bodies(rt: HostRuntime) -> Result<(), Fail> {
    let alloc = rt.alloc();
    let mut are_some = false;
    let mut seed = 7;
    for _ in 0..300 {
        let graph = random_graph(alloc, seed)?;
        let first = random_state(alloc, &graph, seed)?;
        seed = next(seed);
        let second = random_state(alloc, &graph, seed)?;
        seed = next(seed);
        let third = random_state(alloc, &graph, seed)?;
        seed = next(seed);
        let states = [&first, &second, &third];
        let agreed = unconflicted(alloc, &states)?;
        let found = full_conflicted(alloc, &graph, &agreed, &states)?;
        let plain = plain_full_conflicted(alloc, &graph, &agreed, &states)?;
        assert_eq!(rt; found, plain);
        if found.len() > 9 && !agreed.entries().is_empty() {
            are_some = true;
        }
    }
    assert!(rt; are_some);
    Ok(())
}

#[test]
fn one_difference_by_both_bodies(rt: HostRuntime) -> Result<(), Fail> {
    let alloc = rt.alloc();
    let mut are_some = false;
    let mut seed = 11;
    for _ in 0..300 {
        let graph = random_graph(alloc, seed)?;
        let shared = random_events(alloc, &graph, 2, next(seed)).ok_or("no events")?;
        seed = next(seed);
        let first = random_events(alloc, &graph, 3, seed).ok_or("no events")?;
        seed = next(seed);
        let second = random_events(alloc, &graph, 3, seed).ok_or("no events")?;
        seed = next(seed);
        let apart = [first, second];
        let dense = dense_chain_difference(alloc, &graph, &shared, &apart)?;
        let sparse = sparse_chain_difference(alloc, &graph, &shared, &apart)?;
        assert_eq!(rt; dense, sparse);
        if !dense.is_empty() {
            are_some = true;
        }
    }
    assert!(rt; are_some);
    Ok(())
}
