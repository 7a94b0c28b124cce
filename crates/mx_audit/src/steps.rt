// The steps of a resolution of states.
ghost use Rattle.std.specs.Prelude.{◌≡◌, ◌<◌, All, IfOk, OnOk, length, map};
ghost use Rattle.mx_state_res.specs.Resolution as resolution;
ghost use Rattle.mx_audit.specs.Steps as definition;

use crate::conflicting::{conflicted_entries, without};
use crate::judged_states::refusal_in;
use mx_auth::{RoomVersion, Rule};
use mx_graph::{EventNo, Graph};
use mx_orders::{mainline_order, power_order};
use mx_state_res::{full_conflicted, power_events, unconflicted};
use mx_states::StateMap;
use std::alloc::{AllocError, Global};

/// An event of a conflict, and the line of the rules that does not allow it in the state so far; none where they allow it,
/// and it was put there if it is a state event.
///
/// Source: the Matrix specification, Room Version 2, "State resolution", iterative auth checks.
#[derive(Clone, Copy, Debug, PartialEq, Eq)]
pub struct ResolutionStep {
    pub event: EventNo,
    pub refusal: Option<Rule>,
}

/// How states were resolved: of each state the entries that are in conflict, the checks of the power events in power
/// order, and those of the other events in mainline order.
///
/// Source: the Matrix specification, Room Version 2, "State resolution".
#[derive(Debug, Drop)]
pub struct ResolutionSteps {
    pub conflicted: Vec<StateMap>,
    pub power: Vec<ResolutionStep>,
    pub others: Vec<ResolutionStep>,
}

/// How these states of a room of this version are resolved. `AllocError` where no memory is left.
///
/// The time is that of [`mx_state_res::resolve`], and of the product of the power events and the full conflicted set.
/// Source: the Matrix specification, Room Version 2, "State resolution".
pub fn resolution_steps(
    version: RoomVersion,
    alloc: Global,
    graph: &Graph,
    states: &[&StateMap],
) -> Result<ResolutionSteps, AllocError>
    requires known { All (λ s. All (λ e. e.1 < length graph.now) s.now) states.now }
    ensures conflicted { IfOk result (λ steps. steps.conflicted.items ≡ definition.conflicted_entries (map (λ s. s.now) states.now)) }
    ensures power { IfOk result (λ steps. steps.power.items ≡ definition.power_steps version graph.now (map (λ s. s.now) states.now)) }
    ensures others { IfOk result (λ steps. steps.others.items ≡ definition.other_steps version graph.now (map (λ s. s.now) states.now)) }
{
    let agreed = unconflicted(alloc, states)?;
    let full = full_conflicted(alloc, graph, &agreed, states)?;
    let conflicted = conflicted_entries(alloc, &agreed, states)?;
    let mut state = agreed.clone()?;
    let power_set = power_events(alloc, graph, &full)?;
    let order = power_order(alloc, graph, &power_set)?;
    let power = checked(version, alloc, graph, &mut state, &order)?;
    let rest = without(alloc, &full, &power_set)?;
    let power_levels = state.get("m.room.power_levels", "");
    let order = mainline_order(alloc, graph, power_levels, &rest)?;
    let others = checked(version, alloc, graph, &mut state, &order)?;
    Ok(ResolutionSteps {
        conflicted,
        power,
        others,
    })
}

// The checks of some events one after another, each in the state so far, which gets those that are allowed. At an error
// some of them were checked.
fn checked(
    version: RoomVersion,
    alloc: Global,
    graph: &Graph,
    state: &mut StateMap,
    events: &[EventNo],
) -> Result<Vec<ResolutionStep>, AllocError>
    requires events { All (λ event. event < length graph.now) events.now }
    requires known { All (λ e. e.1 < length graph.now) state.old }
    ensures steps { IfOk result (λ steps. steps.items ≡ definition.check_steps version graph.now state.old events.now) }
    ensures state { OnOk result (state.new ≡ resolution.iterative_auth_checks version graph.now state.old events.now) }
    ensures known { OnOk result (All (λ e. e.1 < length graph.now) state.new) }
{
    let mut steps = Vec::with_capacity(alloc, events.len())?;
    for event in events {
        let step = check(version, graph, state, *event)?;
        steps.push(step)?;
    }
    Ok(steps)
}

// The check of an event in the state so far, which gets it where it is a state event that is allowed. At an error the
// state stays.
fn check(
    version: RoomVersion,
    graph: &Graph,
    state: &mut StateMap,
    number: EventNo,
) -> Result<ResolutionStep, AllocError>
    requires number { number < length graph.now }
    requires known { All (λ e. e.1 < length graph.now) state.old }
    ensures step { IfOk result (λ step. step
        ≡ record { event = number; refusal = definition.refusal_at version graph.now state.old number }) }
    ensures state { OnOk result (state.new ≡ resolution.after_check version graph.now state.old number) }
    ensures known { OnOk result (All (λ e. e.1 < length graph.now) state.new) }
{
    let refusal = refusal_in(version, graph, state, number);
    put_unless(graph, state, number, refusal)?;
    Ok(ResolutionStep {
        event: number,
        refusal,
    })
}

// Puts an event at its key, if it is a state event and no line does not allow it. At an error the state stays.
fn put_unless(
    graph: &Graph,
    state: &mut StateMap,
    number: EventNo,
    refusal: Option<Rule>,
) -> Result<(), AllocError>
    requires number { number < length graph.now }
    requires known { All (λ e. e.1 < length graph.now) state.old }
    ensures state { OnOk result (state.new
        ≡ definition.with_step graph.now state.old (record { event = number; refusal = refusal })) }
    ensures known { OnOk result (All (λ e. e.1 < length graph.now) state.new) }
{
    let event = &graph.row(number).event;
    if let Some(state_key) = event.state_key() {
        if refusal.is_none() {
            state.insert(event.kind(), state_key, number)?;
        }
    }
    Ok(())
}
