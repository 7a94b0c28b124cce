// How the state before an event was resolved.
ghost use Rattle.std.specs.Prelude.{◌≡◌, ◌<◌, All, IfOk, length, map};
ghost use Rattle.mx_receipt.specs.Receipt.{rows_of, state_after, version_in};
ghost use Rattle.mx_audit.specs.Steps as definition;
ghost use Rattle.mx_audit.specs.Resolutions.{states_before};

use crate::steps::{ResolutionSteps, resolution_steps};
use mx_graph::{EventNo, Graph, rising};
use mx_receipt::{Timeline, timeline_is_sound};
use mx_states::StateMap;
use std::alloc::{AllocError, Global};

/// How the state before the event with this number was resolved: the states after its prev events, each once, rising. The
/// graph is that of the room's events, as [`RoomAudit::graph`](crate::RoomAudit::graph) lends it.
///
/// The one error is that no memory is left. The time is that of [`resolution_steps`], and of a copy of the states.
///
/// Source: the Matrix specification, Room Version 2, "State resolution".
pub fn resolution_before(
    alloc: Global,
    timeline: &Timeline,
    graph: &Graph,
    number: EventNo,
) -> Result<ResolutionSteps, AllocError>
    requires below { number < length timeline.now.kept }
    requires graph { graph.now ≡ rows_of timeline.now.kept }
    ensures conflicted { IfOk result (λ steps. steps.conflicted.items
        ≡ definition.conflicted_entries (states_before timeline.now.kept number)) }
    ensures power { IfOk result (λ steps. steps.power.items ≡ definition.power_steps
        (version_in (rows_of timeline.now.kept)) (rows_of timeline.now.kept) (states_before timeline.now.kept number)) }
    ensures others { IfOk result (λ steps. steps.others.items ≡ definition.other_steps
        (version_in (rows_of timeline.now.kept)) (rows_of timeline.now.kept) (states_before timeline.now.kept number)) }
{
    timeline_is_sound(timeline);
    let prev_events = rising(alloc, timeline.prev_events(number))?;
    let states = states_after(alloc, timeline, &prev_events)?;
    let borrowed = borrowed_of(alloc, &states)?;
    let steps = resolution_steps(timeline.version(), alloc, graph, &borrowed)?;
    Ok(steps)
}

// The states after some events.
fn states_after(
    alloc: Global,
    timeline: &Timeline,
    numbers: &[EventNo],
) -> Result<Vec<StateMap>, AllocError>
    requires { All (λ number. number < length timeline.now.kept) numbers.now }
    ensures { IfOk result (λ states. states.items ≡ map (state_after timeline.now.kept) numbers.now) }
{
    let mut states = Vec::with_capacity(alloc, numbers.len())?;
    for number in numbers {
        states.push(timeline.state_after(*number).map(alloc)?)?;
    }
    Ok(states)
}

fn borrowed_of(alloc: Global, states: &[StateMap]) -> Result<Vec<&StateMap>, AllocError>
    ensures { IfOk result (λ borrowed. map (λ s. s.now) borrowed.items ≡ states.now) }
{
    let mut borrowed = Vec::with_capacity(alloc, states.len())?;
    for state in states {
        borrowed.push(state)?;
    }
    Ok(borrowed)
}
