// Power events.
ghost use Rattle.std.specs.Prelude.{◌≡◌, ◌<◌, ◌||◌, All, IfOk, IfSome, filter, length};
ghost use Rattle.mx_graph.specs.Edges.{Rises};
ghost use Rattle.mx_graph.specs.Graph.{auth_chain};
ghost use Rattle.mx_graph.specs.Record as record_of;
ghost use Rattle.mx_graph.specs.Record.{is_in};
ghost use Rattle.mx_state_res.specs.Resolution as definition;

use crate::conflicts::rising_lists::{stands_in, within};
use mx_auth::membership_of;
use mx_graph::{EventNo, Graph, least_of};
use mx_pdu::Pdu;
use mx_redact::is_text;
use std::alloc::{AllocError, Global};

/// The power events of these events, and those of them that are in the auth chains of the power events, rising.
///
/// `AllocError` where no memory is left.
///
/// Source: the Matrix specification, Room Version 2, "State resolution", power events.
pub fn power_events(
    alloc: Global,
    graph: &Graph,
    full: &[EventNo],
) -> Result<Vec<EventNo>, AllocError>
    requires known { All (λ event. event < length graph.now) full.now }
    requires rises { Rises full.now }
    ensures set { IfOk result (λ events. events.items ≡ definition.power_events graph.now full.now) }
    ensures rises { IfOk result (λ events. Rises events.items) }
    ensures known { IfOk result (λ events. All (λ event. event < length graph.now) events.items) }
{
    let power = own_power_events(alloc, graph, full)?;
    let events = with_chain(alloc, graph, full, &power)?;
    Ok(events)
}

// Those of some events that are among others, which rise, or in the auth chain of these.
//
// Where the graph tells it from what it keeps of auth chains, the time is that of the events, times the others. Else
// see [`Graph::auth_chain_above`].
fn with_chain(
    alloc: Global,
    graph: &Graph,
    events: &[EventNo],
    power: &[EventNo],
) -> Result<Vec<EventNo>, AllocError>
    requires { Rises power.now }
    ensures { IfOk result (λ kept. kept.items
        ≡ filter (λ p. is_in power.now p || is_in (auth_chain graph.now power.now) p) events.now) }
{
    if events.len().saturating_mul(power.len()) > graph.len() {
        return walked_with_chain(alloc, graph, events, power);
    }
    if let Some(kept) = told_with_chain(alloc, graph, events, power)? {
        return Ok(kept);
    }
    walked_with_chain(alloc, graph, events, power)
}

// The same from what the graph keeps of auth chains; `None` where that does not tell it.
fn told_with_chain(
    alloc: Global,
    graph: &Graph,
    events: &[EventNo],
    power: &[EventNo],
) -> Result<Option<Vec<EventNo>>, AllocError>
    requires { Rises power.now }
    ensures { IfOk result (λ told. IfSome told (λ kept. kept.items
        ≡ filter (λ p. is_in power.now p || is_in (auth_chain graph.now power.now) p) events.now)) }
{
    let mut kept = Vec::new(alloc);
    for event in events {
        let Some(is_kept) = is_with_chain(graph, *event, power) else {
            return Ok(None);
        };
        if is_kept {
            kept.push(*event)?;
        }
    }
    Ok(Some(kept))
}

// Whether an event is among others, which rise, or in the auth chain of these; `None` where the graph does not tell it.
fn is_with_chain(graph: &Graph, event: EventNo, power: &[EventNo]) -> Option<bool>
    requires { Rises power.now }
    ensures { IfSome result (λ is_kept. is_kept
        ≡ (is_in power.now event || is_in (auth_chain graph.now power.now) event)) }
{
    if stands_in(power, event) {
        return Some(true);
    }
    graph.is_in_auth_chain(event, power)
}

// The same by a walk down the auth chain.
fn walked_with_chain(
    alloc: Global,
    graph: &Graph,
    events: &[EventNo],
    power: &[EventNo],
) -> Result<Vec<EventNo>, AllocError>
    requires { Rises power.now }
    ensures { IfOk result (λ kept. kept.items
        ≡ filter (λ p. is_in power.now p || is_in (auth_chain graph.now power.now) p) events.now) }
{
    let chain = graph.auth_chain_above(alloc, power, least_of(events))?;
    let kept = within(alloc, events, power, &chain)?;
    Ok(kept)
}

fn own_power_events(
    alloc: Global,
    graph: &Graph,
    events: &[EventNo],
) -> Result<Vec<EventNo>, AllocError>
    requires { All (λ event. event < length graph.now) events.now }
    ensures { IfOk result (λ power. power.items
        ≡ filter (λ p. definition.is_power_event (record_of.event graph.now p)) events.now) }
{
    let mut power = Vec::new(alloc);
    for event in events {
        if is_power_event(&graph.row(*event).event) {
            power.push(*event)?;
        }
    }
    Ok(power)
}

// Whether an event sets power levels or join rules, or removes another user from the room.
#[tactic(auto, unfolding(crate::specs::Resolution::is_power_event))]
pub(crate) fn is_power_event(event: &Pdu) -> bool
    ensures { result ≡ definition.is_power_event event.now }
{
    event.state_key().is_some()
        && (event.kind() == "m.room.power_levels"
            || event.kind() == "m.room.join_rules"
            || is_removal(event))
}

// Whether an event is a leave or a ban of another user than its sender.
#[tactic(auto, unfolding(crate::specs::Resolution::is_removal))]
fn is_removal(event: &Pdu) -> bool
    ensures { result ≡ definition.is_removal event.now }
{
    let membership = membership_of(event);
    event.kind() == "m.room.member"
        && (is_text(membership, "leave") || is_text(membership, "ban"))
        && !is_text(event.state_key(), event.sender().as_str())
}
