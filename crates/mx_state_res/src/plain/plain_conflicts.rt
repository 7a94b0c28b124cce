// The full conflicted set by whole auth chains.
ghost use Rattle.std.specs.Prelude.{◌≡◌, ◌<◌, ℕ, All, IfOk, filter, length, map, not};
ghost use Rattle.std.specs.List.{list_all, list_any};
ghost use Rattle.mx_graph.specs.Edges.{Rises};
ghost use Rattle.mx_graph.specs.Graph.{auth_chain};
ghost use Rattle.mx_graph.specs.Record.{is_in};
ghost use Rattle.mx_graph.specs.StateMap.{events_of as events_in};
ghost use Rattle.mx_state_res.specs.Agreed.{IsAgreed};
ghost use Rattle.mx_state_res.specs.Resolution as definition;

use crate::conflicts::rising_lists::stands_in;
use crate::conflicts::{conflicted_events, events_of, joined};
use mx_graph::{EventNo, Graph, rising};
use mx_states::StateMap;
use std::alloc::{AllocError, Global};

/// The set of [`full_conflicted`](crate::full_conflicted), by a plain body under the same contract: it joins the whole
/// auth chains of whole states. `AllocError` where no memory is left.
pub fn plain_full_conflicted(
    alloc: Global,
    graph: &Graph,
    agreed: &StateMap,
    states: &[&StateMap],
) -> Result<Vec<EventNo>, AllocError>
    requires known { All (λ s. All (λ e. e.1 < length graph.now) s.now) states.now }
    requires agreed { IsAgreed agreed.now (map (λ s. s.now) states.now) }
    ensures set { IfOk result (λ events. events.items ≡ definition.full_conflicted graph.now (map (λ s. s.now) states.now)) }
    ensures rises { IfOk result (λ events. Rises events.items) }
{
    let apart = conflicted_events(alloc, agreed, states)?;
    let mut found = joined(alloc, &apart)?;
    let difference = auth_difference(alloc, graph, states)?;
    found.extend_from_slice(&difference)?;
    let events = rising(alloc, &found)?;
    Ok(events)
}

// The auth difference, rising: the events in the auth chains of some states that are not in those of all. The time is
// that of the chains, times a logarithm: an event is looked for in no more chains than have it, and one.
fn auth_difference(
    alloc: Global,
    graph: &Graph,
    states: &[&StateMap],
) -> Result<Vec<EventNo>, AllocError>
    ensures { IfOk result (λ events. events.items ≡ definition.auth_difference graph.now (map (λ s. s.now) states.now)) }
{
    let chains = auth_chains(alloc, graph, states)?;
    let all = events_of_all(alloc, &chains)?;
    let events = unshared(alloc, &all, &chains)?;
    Ok(events)
}

// The auth chains of the events of each state.
fn auth_chains(
    alloc: Global,
    graph: &Graph,
    states: &[&StateMap],
) -> Result<Vec<Vec<EventNo>>, AllocError>
    ensures chains { IfOk result (λ chains. map (λ c. c.items) chains.items
        ≡ map (λ s. auth_chain graph.now (events_in s.now)) states.now) }
    ensures rises { IfOk result (λ chains. All (λ c. Rises c.items) chains.items) }
{
    let mut chains = Vec::new(alloc);
    for state in states {
        let events = events_of(alloc, state)?;
        let chain = graph.auth_chain(alloc, &events)?;
        chains.push(chain)?;
    }
    Ok(chains)
}

// The events of all chains, rising.
fn events_of_all(alloc: Global, chains: &[Vec<EventNo>]) -> Result<Vec<EventNo>, AllocError>
    ensures rises { IfOk result (λ all. Rises all.items) }
    ensures same { IfOk result (λ all. (p : ℕ) → is_in all.items p ≡ list_any (λ c. is_in c.items p) chains.now) }
{
    let joined = joined(alloc, chains)?;
    let all = rising(alloc, &joined)?;
    Ok(all)
}

// Those of the events that are not in all of the chains.
fn unshared(
    alloc: Global,
    events: &[EventNo],
    chains: &[Vec<EventNo>],
) -> Result<Vec<EventNo>, AllocError>
    requires { All (λ c. Rises c.items) chains.now }
    ensures { IfOk result (λ found. found.items
        ≡ filter (λ p. not (list_all (λ c. is_in c.items p) chains.now)) events.now) }
{
    events
        .iter()
        .copied()
        .filter(|event| !is_shared(chains, *event))
        .collect(alloc)
}

fn is_shared(chains: &[Vec<EventNo>], event: EventNo) -> bool
    requires { All (λ c. Rises c.items) chains.now }
    ensures { result ≡ list_all (λ c. is_in c.items event) chains.now }
{
    chains.iter().all(|chain| stands_in(chain, event))
}
