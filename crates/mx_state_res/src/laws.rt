// Laws of state resolution.
ghost use Rattle.std.specs.Prelude.{◌≡◌, [], ◌∷◌, All, List};
ghost use Rattle.mx_graph.specs.StateMap.{State};
ghost use Rattle.mx_state_res.specs.Resolution as definition;
ghost use Rattle.mx_state_res.specs.LaterResolution.{ResolvesFromTheOneBefore};

use mx_auth::RoomVersion;
use mx_graph::{Graph, graph_is_sound};
use mx_states::StateMap;

/// A law: of equal states the resolution is that state, whatever events they have. It changes nothing: this is what it
/// ensures.
///
/// Source: the Matrix specification, Room Version 2, "State resolution".
pub fn equal_states_resolve_to_themselves(version: RoomVersion, graph: &Graph, state: &StateMap)
    ensures { (others : List State) → All (λ s. s ≡ state.now) others
        → definition.resolve version graph.now (state.now ∷ others) ≡ state.now }
{
    let _ = state.entries();
}

/// A law: of one state the resolution is that state. It changes nothing: this is what it ensures.
///
/// Source: the Matrix specification, Room Version 2, "State resolution".
pub fn one_state_resolves_to_itself(version: RoomVersion, graph: &Graph, state: &StateMap)
    ensures { definition.resolve version graph.now (state.now ∷ []) ≡ state.now }
{
    equal_states_resolve_to_themselves(version, graph, state);
}

/// A law: where a state is added that has, at a key at which states differ already, a new event with the auth events of
/// one that stands there, the resolution follows from the one before, unless another event is judged otherwise because of
/// it. It changes nothing: this is what it ensures.
///
/// Source: the Matrix specification, Room Version 2, "State resolution".
pub fn resolutions_follow_from_the_one_before(graph: &Graph)
    ensures { ResolvesFromTheOneBefore graph.now }
{
    graph_is_sound(graph);
}
