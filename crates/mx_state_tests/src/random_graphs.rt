// Graphs whose events cite any of those before them, and lists of their events.
ghost use Rattle.std.specs.Prelude.{◌≡◌, ◌<◌, All, IfSome, length};
ghost use Rattle.mx_graph.specs.Record.{is_in};
ghost use Rattle.mx_orders.specs.Lists.{Distinct};

use crate::rows::{Written, event_at, next, row};
use mx_graph::{EventNo, Graph};
use std::alloc::Global;
use std::test::Fail;

// So many events are in a graph.
pub(crate) const EVENTS: u32 = 14;

// Power levels and join rules, of one sender, each of which cites some of the events before it.
pub(crate) fn random_graph(alloc: Global, first: u64) -> Result<Graph, Fail> {
    let mut graph = Graph::new(alloc);
    let mut seed = first;
    for number in 0..EVENTS {
        seed = next(seed);
        let kind = if number == 0 {
            "m.room.create"
        } else if seed / 65_536 % 2 == 0 {
            "m.room.power_levels"
        } else {
            "m.room.join_rules"
        };
        let auth_events = auth_events(alloc, number, next(seed))?;
        let row = row(
            alloc,
            number,
            &Written {
                kind,
                state_key: "",
                sender: "@a:a.example",
                time: seed / 131_072 % 4,
                content: "{\"users\":{\"@a:a.example\":100}}",
                auth_events: auth_events.as_str(),
            },
        )?;
        graph.add(row)?;
    }
    Ok(graph)
}

// The ids of the events below a number whose digits, to base 4, are 0, as a JSON array.
fn auth_events(alloc: Global, number: u32, seed: u64) -> Result<String, Fail> {
    let mut digits = seed / 65_536;
    let mut text = String::from_str(alloc, "[")?;
    for other in 0..number {
        if digits % 4 == 0 {
            if text.len() > 1 {
                text.push_str(",")?;
            }
            let id = format!(in alloc; "\"${other}\"")?;
            text.push_str(id.as_str())?;
        }
        digits /= 4;
    }
    text.push_str("]")?;
    Ok(text)
}

// So many events of a graph, each once.
pub(crate) fn random_events(
    alloc: Global,
    graph: &Graph,
    count: u32,
    seed: u64,
) -> Option<Vec<EventNo>>
    ensures known { IfSome result (λ found. All (λ event. event < length graph.now) found.items) }
    ensures distinct { IfSome result (λ found. Distinct found.items) }
{
    let places = random_places(alloc, count, seed)?;
    events_at(alloc, graph, &places)
}

// So many places of a graph, which do not rise.
fn random_places(alloc: Global, count: u32, seed: u64) -> Option<Vec<u32>> {
    let mut places = Vec::new(alloc);
    let mut place = (seed / 65_536 % 1_000) as u32;
    for _ in 0..count {
        places.push(place % EVENTS).ok()?;
        place = place.wrapping_add(5);
    }
    Some(places)
}

// The events at these places, or nothing where one is not there or is there twice, or no memory is left.
fn events_at(alloc: Global, graph: &Graph, places: &[u32]) -> Option<Vec<EventNo>>
    ensures known { IfSome result (λ found. All (λ event. event < length graph.now) found.items) }
    ensures distinct { IfSome result (λ found. Distinct found.items) }
{
    let mut found = Vec::new(alloc);
    for place in places {
        let event = event_at(alloc, graph, *place)?;
        if stands_in(&found, event) {
            return None;
        }
        found.push(event).ok()?;
    }
    Some(found)
}

// Whether an event is in a list.
fn stands_in(events: &[EventNo], event: EventNo) -> bool
    ensures { result ≡ is_in events.now event }
{
    events.iter().any(|other| *other == event)
}
