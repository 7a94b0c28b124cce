use crate::plain_orders::plain_power_order;
use crate::random_graphs::{random_events, random_graph};
use crate::rows::next;
use mx_orders::plain::plain_mainline_order;
use mx_orders::{mainline_order, power_order};
use std::test::Fail;

#[test]
fn one_order_by_both_bodies(rt: HostRuntime) -> Result<(), Fail> {
    let alloc = rt.alloc();
    let mut seed = 5;
    for _ in 0..60 {
        seed = next(seed);
        let graph = random_graph(alloc, seed)?;
        let events = random_events(alloc, &graph, 10, seed).ok_or("no events")?;
        let order = power_order(alloc, &graph, &events)?;
        assert_eq!(rt; order, plain_power_order(alloc, &graph, &events)?);
    }
    Ok(())
}

#[test]
fn one_mainline_order_by_both_bodies(rt: HostRuntime) -> Result<(), Fail> {
    let alloc = rt.alloc();
    let mut seed = 9;
    for _ in 0..60 {
        seed = next(seed);
        let graph = random_graph(alloc, seed)?;
        let events = random_events(alloc, &graph, 10, seed).ok_or("no events")?;
        for power in events.iter().map(|power| Some(*power)).chain([None]) {
            let order = mainline_order(alloc, &graph, power, &events)?;
            assert_eq!(rt; order, plain_mainline_order(alloc, &graph, power, &events)?);
        }
    }
    Ok(())
}
