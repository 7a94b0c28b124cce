// The resolution of states to which one is added, from the one before.
ghost use Rattle.std.specs.Prelude.{◌≡◌, ◌<◌, ℕ, All, IfOk, IfSome, None, length, map};
ghost use Rattle.mx_state_res.specs.KeptResolutions.{IsKept};
ghost use Rattle.mx_state_res.specs.Numbered.{AreAdded, AreKnown};
ghost use Rattle.mx_states.specs.Numbered.{state_at};
ghost use Rattle.mx_state_res.specs.Resolution as definition;

use crate::kept_resolutions::checked_events::CheckedEvent;
use crate::kept_resolutions::first_records::kept_resolution;
use crate::kept_resolutions::one_more::resolve_one_more;
use crate::kept_resolutions::touched_keys::TouchedKeys;
use crate::numbered_resolution::resolve_numbered;
use mx_auth::RoomVersion;
use mx_graph::Graph;
use mx_states::{StateMap, StateNo, States};
use std::alloc::{AllocError, Global};

pub(crate) mod added_events;
pub(crate) mod added_places;
pub(crate) mod checked_events;
pub(crate) mod checked_places;
mod first_records;
mod one_more;
pub(crate) mod outcomes;
pub(crate) mod reached_events;
pub(crate) mod standing_events;
pub(crate) mod touched_keys;

// Of fewer states than these nothing is kept.
const FEWEST_STATES: usize = 8;

/// What is kept of the resolution of some of a room's states, so that with one state more it is worked out from there.
///
/// None of the events in conflict is a power event.
#[derive(Debug, Drop)]
pub struct KeptResolution {
    /// The states.
    pub numbers: Vec<StateNo>,
    /// The keys at which they differ, with an event at each.
    pub differing: StateMap,
    /// The events in conflict, in the order in which they were checked.
    pub order: Vec<CheckedEvent>,
    /// The keys that these events have to do with.
    pub touched: TouchedKeys,
    /// Whether each of these events stands at one of these keys, or in the first of the states.
    pub are_settled: bool,
    /// What they resolve to.
    pub resolved: StateNo,
}

/// [`resolve_numbered`], from the resolution that is kept, where it is that of all states but the last, and tells the
/// answer. What is kept afterwards is of these states, or nothing. Fewer than eight states are resolved from nothing, and
/// what is kept stays.
///
/// `AllocError` where no memory is left.
///
/// Source: the Matrix specification, Room Version 2, "State resolution".
pub fn resolve_keeping(
    version: RoomVersion,
    alloc: Global,
    graph: &Graph,
    states: &mut States,
    numbers: &[StateNo],
    kept: &mut Option<KeptResolution>,
) -> Result<StateNo, AllocError>
    requires numbers { All (λ number. number < length states.old) numbers.now }
    requires known { AreKnown graph.now states.old }
    requires kept { IfSome kept.old (IsKept version graph.now states.old) }
    ensures resolved { IfOk result (λ number. state_at states.new number
        ≡ definition.resolve version graph.now (map (state_at states.old) numbers.now)) }
    ensures number { IfOk result (λ number. number < length states.new) }
    ensures added { AreAdded graph.now states.old states.new }
    ensures kept { IfSome kept.new (IsKept version graph.now states.new) }
{
    if numbers.len() < FEWEST_STATES {
        return resolve_numbered(version, alloc, graph, states, numbers);
    }
    let Some(last) = kept.take() else {
        return resolve_anew(version, alloc, graph, states, numbers, kept);
    };
    let Some(last) = resolve_one_more(version, alloc, graph, states, numbers, last)? else {
        return resolve_anew(version, alloc, graph, states, numbers, kept);
    };
    let state = last.resolved;
    *kept = Some(last);
    Ok(state)
}

// The same from nothing, with nothing kept.
fn resolve_anew(
    version: RoomVersion,
    alloc: Global,
    graph: &Graph,
    states: &mut States,
    numbers: &[StateNo],
    kept: &mut Option<KeptResolution>,
) -> Result<StateNo, AllocError>
    requires numbers { All (λ number. number < length states.old) numbers.now }
    requires known { AreKnown graph.now states.old }
    requires kept { kept.old ≡ None }
    ensures resolved { IfOk result (λ number. state_at states.new number
        ≡ definition.resolve version graph.now (map (state_at states.old) numbers.now)) }
    ensures number { IfOk result (λ number. number < length states.new) }
    ensures added { AreAdded graph.now states.old states.new }
    ensures kept { IfSome kept.new (IsKept version graph.now states.new) }
{
    let state = resolve_numbered(version, alloc, graph, states, numbers)?;
    *kept = kept_resolution(version, alloc, graph, states, numbers, state)?;
    Ok(state)
}
