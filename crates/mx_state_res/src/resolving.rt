// State resolution.
ghost use Rattle.std.specs.Prelude.{◌≡◌, ◌<◌, All, IfOk, length, map};
ghost use Rattle.mx_state_res.specs.Resolution as definition;

use crate::checks::conflict_checks::check_conflicted;
use crate::checks::working_states::WorkingState;
use crate::conflicts::{full_conflicted, unconflicted};
use mx_auth::RoomVersion;
use mx_graph::Graph;
use mx_states::{StateMap, overwrite};
use std::alloc::{AllocError, Global};

/// The one state that states of a room of this version resolve to. Of no state it is the empty state, of one state that state.
///
/// Where all states have the same event at a type and a state key, it has that event there. The other events of the
/// states, and the events in the auth chains of some states that are not in those of all, are the full conflicted set.
/// Its power events, with its events in their auth chains, are checked in power order, and then the others in the order
/// of the mainline of the power levels event so far: each state event that the authorization rules allow in the state
/// so far is put there.
///
/// Source: the Matrix specification, Room Version 2, "State resolution".
#[tactic(auto, unfolding(crate::specs::Resolution::resolve))]
pub fn resolve(
    version: RoomVersion,
    alloc: Global,
    graph: &Graph,
    states: &[&StateMap],
) -> Result<StateMap, AllocError>
    requires known { All (λ s. All (λ e. e.1 < length graph.now) s.now) states.now }
    ensures resolved { IfOk result (λ state. state ≡ definition.resolve version graph.now (map (λ s. s.now) states.now)) }
    ensures known { IfOk result (λ state. All (λ e. e.1 < length graph.now) state) }
{
    let agreed = unconflicted(alloc, states)?;
    let full = full_conflicted(alloc, graph, &agreed, states)?;
    let nothing = StateMap::new(alloc);
    let mut state = WorkingState::of(&nothing, agreed.clone()?);
    check_conflicted(version, alloc, graph, &mut state, &full)?;
    let mut resolved = state.into_puts();
    overwrite(&mut resolved, &agreed)?;
    Ok(resolved)
}
