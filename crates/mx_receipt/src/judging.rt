// The verdict on an event.
ghost use Rattle.std.specs.Prelude.{◌≡◌, ◌<◌, All, IfOk, length, map};
ghost use Rattle.std.specs.Result.{result_err};
ghost use Rattle.mx_auth.specs.Keys.{cited_shown};
ghost use Rattle.mx_auth.specs.Rules.{Cited, auth_rules, rules};
ghost use Rattle.mx_graph.specs.Record as record_of;
ghost use Rattle.mx_orders.specs.StateMap.{view};
ghost use Rattle.mx_state_res.specs.Numbered.{AreKnown};
ghost use Rattle.mx_states.specs.Numbered.{state_at};
ghost use Rattle.mx_receipt.specs.Receipt as definition;
ghost use Rattle.mx_receipt.specs.Citing.{cited_in};
ghost use Rattle.mx_receipt.specs.declared.verdicts.Verdict.TheVariants.{Accepted, SoftFailed as soft_failed, Rejected as rejected};

use crate::room_states::{failure_by, failure_in, version_in};
use crate::verdicts::Verdict;
use mx_auth::{CitedEvent, Rule, judge_auth_events};
use mx_graph::{EventNo, Graph};
use mx_pdu::Pdu;
use mx_states::{StateNo, States};
use std::alloc::{AllocError, Global};

/// The verdict on an event, by its auth events, by the state before it, and by the room's current state. The numbers are
/// those of its auth events. One judgement serves both states where the state before it is the current one.
///
/// Source: the Matrix specification, Server-Server API, "Checks performed on receipt of a PDU", checks 4, 5 and 6.
pub(crate) fn judged(
    alloc: Global,
    graph: &Graph,
    event: &Pdu,
    auth_events: &[EventNo],
    states: &States,
    before: StateNo,
    current: StateNo,
) -> Result<Verdict, AllocError>
    requires auth { auth_events.now ≡ record_of.auth_events graph.now event.now }
    requires known { All (λ number. number < length graph.now) auth_events.now }
    requires states { AreKnown graph.now states.now }
    requires before { before < length states.now }
    requires current { current < length states.now }
    ensures { IfOk result (λ verdict. verdict
        ≡ definition.accept_or rejected (definition.auth_failure graph.now event.now)
        (definition.accept_or rejected (rules (definition.version_in graph.now) event.now (view graph.now (state_at states.now before)))
        (definition.accept_or soft_failed (rules (definition.version_in graph.now) event.now (view graph.now (state_at states.now current))) Accepted))) }
{
    if let Some(rule) = auth_failure(alloc, graph, event, auth_events)? {
        return Ok(Verdict::Rejected(rule));
    }
    if let Some(rule) = failure_in(graph, states, before, event) {
        return Ok(Verdict::Rejected(rule));
    }
    if before == current {
        return Ok(Verdict::Accepted);
    }
    if let Some(rule) = failure_in(graph, states, current, event) {
        return Ok(Verdict::SoftFailed(rule));
    }
    Ok(Verdict::Accepted)
}

// The line that does not allow an event by its auth events, or in the state that these make.
#[tactic(auto, unfolding(crate::specs::Receipt::auth_failure))]
fn auth_failure(
    alloc: Global,
    graph: &Graph,
    event: &Pdu,
    auth_events: &[EventNo],
) -> Result<Option<Rule>, AllocError>
    requires auth { auth_events.now ≡ record_of.auth_events graph.now event.now }
    requires known { All (λ number. number < length graph.now) auth_events.now }
    ensures { IfOk result (λ rule. rule ≡ definition.auth_failure graph.now event.now) }
{
    let cited = cited_events(alloc, graph, auth_events)?;
    if let Err(rule) = judge_auth_events(version_in(graph), event, &cited) {
        return Ok(Some(rule));
    }
    Ok(failure_by(graph, auth_events, event))
}

fn cited_events<'g>(
    alloc: Global,
    graph: &'g Graph,
    numbers: &[EventNo],
) -> Result<Vec<CitedEvent<'g>>, AllocError>
    requires { All (λ number. number < length graph.now) numbers.now }
    ensures { IfOk result (λ cited. map cited_shown cited.items ≡ map (cited_in graph.now) numbers.now) }
{
    let mut cited = Vec::with_capacity(alloc, numbers.len())?;
    for number in numbers {
        let row = graph.row(*number);
        cited.push(CitedEvent {
            event: &row.event,
            rejected: row.rejected,
        })?;
    }
    Ok(cited)
}
