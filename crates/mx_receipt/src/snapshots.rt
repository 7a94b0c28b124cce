// The states before and after the events of a room.
ghost use Rattle.std.specs.Prelude.{◌≡◌, ◌==◌, ◌<◌, ◌++◌, List, slice_index_or, All, IfOk, OnOk, if◌then◌else◌, length, map};
ghost use Rattle.std.specs.List.{list_all};
ghost use Rattle.mx_graph.specs.StateMap.{State};
ghost use Rattle.mx_orders.specs.StateMap.{with_event};
ghost use Rattle.mx_graph.specs.Record.{Row};
ghost use Rattle.mx_state_res.specs.Numbered.{AreAdded, AreKnown};
ghost use Rattle.mx_states.specs.Numbered.{state_at};
ghost use Rattle.mx_receipt.specs.Judgements.{AreBelow, AreSorted, afters, judged_in, numbers_after, numbers_at};
ghost use Rattle.mx_receipt.specs.Receipt as definition;
ghost use Rattle.mx_receipt.specs.Resolutions.{AreRight};

use crate::resolution_cache::{ResolutionCache, each_once, resolve_cached};
use crate::verdicts::Verdict;
use mx_graph::{EventNo, Graph};
use mx_pdu::Pdu;
use mx_states::{StateNo, States};
use std::alloc::{AllocError, Global};

// What a room found of an event, the states before and after it, and the current state when it came.
#[derive(Debug, Drop)]
pub(crate) struct Judgement {
    pub verdict: Verdict,
    pub before: StateNo,
    pub after: StateNo,
    pub current: StateNo,
    // An accepted event leads to it, through events that were not accepted.
    pub covered: bool,
}

/// The resolution of the states after some events: after one event, the state after it.
pub(crate) fn resolved_after(
    alloc: Global,
    graph: &Graph,
    states: &mut States,
    resolutions: &mut ResolutionCache,
    judgements: &[Judgement],
    events: &[EventNo],
) -> Result<StateNo, AllocError>
    requires events { All (λ event. event < length judgements.now) events.now }
    requires below { AreBelow (length states.old) judgements.now }
    requires sorted { AreSorted states.old judgements.now }
    requires known { AreKnown graph.now states.old }
    requires right { AreRight graph.now states.old resolutions.old }
    ensures resolved { IfOk result (λ state. state_at states.new state
        ≡ definition.resolve_in graph.now (definition.states_at (afters (judged_in states.old judgements.now)) events.now)) }
    ensures below { IfOk result (λ state. state < length states.new) }
    ensures added { AreAdded graph.now states.old states.new }
    ensures right { OnOk result (AreRight graph.now states.new resolutions.new) }
{
    if let [event] = events {
        return Ok(judgements[event.index()].after);
    }
    let numbers = states_after(alloc, judgements, events)?;
    let each = each_once(numbers);
    let state = resolve_cached(alloc, graph, states, resolutions, each)?;
    Ok(state)
}

// The numbers of the states after some events.
fn states_after(
    alloc: Global,
    judgements: &[Judgement],
    events: &[EventNo],
) -> Result<Vec<StateNo>, AllocError>
    requires { All (λ event. event < length judgements.now) events.now }
    ensures { IfOk result (λ numbers. numbers.items ≡ map (λ event. slice_index_or (numbers_after judgements.now) event 0) events.now) }
{
    let mut numbers = Vec::with_capacity(alloc, events.len())?;
    for event in events {
        let judgement = &judgements[event.index()];
        numbers.push(judgement.after)?;
    }
    Ok(numbers)
}

/// Whether the state after each of these events is this one.
pub(crate) fn same_after(judgements: &[Judgement], events: &[EventNo], state: StateNo) -> bool
    requires { All (λ event. event < length judgements.now) events.now }
    ensures { result ≡ list_all (λ number. number == state) (numbers_at judgements.now events.now) }
{
    for event in events {
        if judgements[event.index()].after != state {
            return false;
        }
    }
    true
}

/// The state after an event: that before it, with the event at its key where it is a state event and was not rejected.
pub(crate) fn state_after(
    states: &mut States,
    before: StateNo,
    event: &Pdu,
    number: EventNo,
    verdict: Verdict,
) -> Result<StateNo, AllocError>
    requires { before < length states.old }
    ensures after { IfOk result (λ state. state_at states.new state
        ≡ (if definition.is_rejected verdict then state_at states.old before else with_event (state_at states.old before) event.now number)) }
    ensures below { IfOk result (λ state. state < length states.new) }
    ensures grown { (more : List State) × (states.new ≡ states.old ++ more) }
    ensures added { (rows : List Row) → number < length rows → AreKnown rows states.old → AreAdded rows states.old states.new }
{
    if verdict.is_rejected() {
        return Ok(before);
    }
    match event.state_key() {
        Some(state_key) => {
            let after = states.with(before, event.kind(), state_key, number)?;
            Ok(after)
        }
        None => Ok(before),
    }
}
