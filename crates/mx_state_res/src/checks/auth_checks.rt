// Iterative auth checks.
ghost use Rattle.std.specs.Prelude.{◌≡◌, ◌<◌, All, OnErr, OnOk, length, take, ℕ};
ghost use Rattle.mx_state_res.specs.Numbered.{shown_by};
ghost use Rattle.mx_state_res.specs.Resolution as definition;

use crate::checks::judged_states::is_allowed;
use crate::checks::working_states::WorkingState;
use mx_auth::RoomVersion;
use mx_graph::{EventNo, Graph};
use std::alloc::AllocError;

/// Puts each of these events, in order, into a state that allows it, if it is a state event. At an error some of them
/// were checked.
pub(crate) fn check_each(
    version: RoomVersion,
    graph: &Graph,
    state: &mut WorkingState<'_>,
    events: &[EventNo],
) -> Result<(), AllocError>
    requires events { All (λ event. event < length graph.now) events.now }
    requires known { All (λ e. e.1 < length graph.now) (shown_by state.old) }
    ensures ok { OnOk result (shown_by state.new
        ≡ definition.iterative_auth_checks version graph.now (shown_by state.old) events.now) }
    ensures base { state.new.0 ≡ state.old.0 }
    ensures taken { state.new.1.0 ≡ state.old.1.0 }
    ensures known { OnOk result (All (λ e. e.1 < length graph.now) (shown_by state.new)) }
    ensures err { OnErr result ((count : ℕ) × (shown_by state.new
        ≡ definition.iterative_auth_checks version graph.now (shown_by state.old) (take count events.now))) }
{
    for event in events {
        check(version, graph, state, *event)?;
    }
    Ok(())
}

// At an error the state stays.
#[tactic(auto, unfolding(crate::specs::Resolution::after_check))]
fn check(
    version: RoomVersion,
    graph: &Graph,
    state: &mut WorkingState<'_>,
    number: EventNo,
) -> Result<(), AllocError>
    requires number { number < length graph.now }
    requires known { All (λ e. e.1 < length graph.now) (shown_by state.old) }
    ensures ok { OnOk result (shown_by state.new ≡ definition.after_check version graph.now (shown_by state.old) number) }
    ensures base { state.new.0 ≡ state.old.0 }
    ensures taken { state.new.1.0 ≡ state.old.1.0 }
    ensures known { OnOk result (All (λ e. e.1 < length graph.now) (shown_by state.new)) }
    ensures err { OnErr result (state.new ≡ state.old) }
{
    let event = &graph.row(number).event;
    if let Some(state_key) = event.state_key() {
        if is_allowed(version, graph, state, number) {
            state.insert(event.kind(), state_key, number)?;
        }
    }
    Ok(())
}
