// Events in the order of their power.
ghost use Rattle.std.specs.Prelude.{◌≡◌, ◌<◌, All, IfOk, length, map};
ghost use Rattle.mx_orders.specs.Candidates.{IsCandidate, candidate_cmp};
ghost use Rattle.mx_orders.specs.Mainline.{sorted};
ghost use Rattle.mx_orders.specs.PowerOrder.{power_cmp};

use crate::levels::sender_level;
use mx_graph::{EventNo, Graph, graph_is_sound};
use mx_ident::EventId;
use std::alloc::{AllocError, Global};
use std::cmp::Ordering;

// What the power order of an event goes by, read once.
#[derive(Clone, Copy, Debug)]
pub(crate) struct Candidate<'g> {
    level: i64,
    timestamp: i64,
    id: &'g EventId,
    number: EventNo,
}

/// Events by greater level of the sender, then earlier `origin_server_ts`, then lesser event id by bytes.
pub(crate) fn by_power(
    alloc: Global,
    graph: &Graph,
    events: &[EventNo],
) -> Result<Vec<EventNo>, AllocError>
    requires { All (λ event. event < length graph.now) events.now }
    ensures { IfOk result (λ numbers. numbers.items ≡ sorted (power_cmp graph.now) events.now) }
{
    // Each id is there once, so that no two events tie.
    graph_is_sound(graph);
    let mut candidates = candidates_of(alloc, graph, events)?;
    candidates.sort_by(|a, b| compare(a, b))?;
    let numbers = numbers_of(alloc, &candidates)?;
    Ok(numbers)
}

fn candidates_of<'g>(
    alloc: Global,
    graph: &'g Graph,
    events: &[EventNo],
) -> Result<Vec<Candidate<'g>>, AllocError>
    requires { All (λ event. event < length graph.now) events.now }
    ensures numbers { IfOk result (λ candidates. map (λ candidate. candidate.number) candidates.items ≡ events.now) }
    ensures read { IfOk result (λ candidates. All (IsCandidate graph.now) candidates.items) }
{
    events
        .iter()
        .map(|event| candidate_of(graph, *event))
        .collect(alloc)
}

fn candidate_of(graph: &Graph, number: EventNo) -> Candidate<'_>
    requires { number < length graph.now }
    ensures number { result.number ≡ number }
    ensures read { IsCandidate graph.now result }
{
    let row = graph.row(number);
    Candidate {
        level: sender_level(graph, number),
        timestamp: row.event.origin_server_ts(),
        id: &row.id,
        number,
    }
}

fn numbers_of(alloc: Global, candidates: &[Candidate<'_>]) -> Result<Vec<EventNo>, AllocError>
    ensures { IfOk result (λ numbers. numbers.items ≡ map (λ candidate. candidate.number) candidates.now) }
{
    candidates
        .iter()
        .map(|candidate| candidate.number)
        .collect(alloc)
}

fn compare(a: &Candidate<'_>, b: &Candidate<'_>) -> Ordering
    ensures { result ≡ candidate_cmp a.now b.now }
{
    b.level
        .cmp(&a.level)
        .then(a.timestamp.cmp(&b.timestamp))
        .then(a.id.cmp(b.id))
}
