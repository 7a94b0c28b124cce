// The events of a record that an event cites.
ghost use Rattle.std.specs.Prelude.{◌≡◌, ◌<◌, All, IfOk, filter_map, length};
ghost use Rattle.mx_graph.specs.Record as record_of;
ghost use Rattle.mx_graph.specs.Record.{place_of};

use mx_graph::{EventNo, Graph};
use mx_ident::EventId;
use mx_pdu::Pdu;
use std::alloc::{AllocError, Global};

// The numbers of the events that an event cites.
#[derive(Debug, Drop)]
pub(crate) struct Cited {
    pub prev_events: Vec<EventNo>,
    pub auth_events: Vec<EventNo>,
}

/// The numbers of the events that an event cites, in their order, without those that are not there.
pub(crate) fn cited_by(alloc: Global, graph: &Graph, event: &Pdu) -> Result<Cited, AllocError>
    ensures prev { IfOk result (λ cited. cited.prev_events.items ≡ record_of.prev_events graph.now event.now) }
    ensures auth { IfOk result (λ cited. cited.auth_events.items ≡ record_of.auth_events graph.now event.now) }
    ensures known_prev { IfOk result (λ cited. All (λ number. number < length graph.now) cited.prev_events.items) }
    ensures known_auth { IfOk result (λ cited. All (λ number. number < length graph.now) cited.auth_events.items) }
{
    let prev_events = numbers_of(alloc, graph, event.prev_events())?;
    let auth_events = numbers_of(alloc, graph, event.auth_events())?;
    Ok(Cited {
        prev_events,
        auth_events,
    })
}

fn numbers_of(alloc: Global, graph: &Graph, ids: &[EventId]) -> Result<Vec<EventNo>, AllocError>
    ensures numbers { IfOk result (λ numbers. numbers.items ≡ filter_map (place_of graph.now) ids.now) }
    ensures known { IfOk result (λ numbers. All (λ number. number < length graph.now) numbers.items) }
{
    let mut numbers = Vec::with_capacity(alloc, ids.len())?;
    for id in ids {
        if let Some(number) = graph.find(id) {
            numbers.push(number)?;
        }
    }
    Ok(numbers)
}
