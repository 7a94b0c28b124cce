// The checks of a full conflicted set.
ghost use Rattle.std.specs.Prelude.{◌≡◌, ◌<◌, All, OnOk, length};
ghost use Rattle.mx_graph.specs.Edges.{Rises};
ghost use Rattle.mx_state_res.specs.Numbered.{checked, shown_by};

use crate::checks::auth_checks::check_each;
use crate::checks::powers::power_events;
use crate::checks::working_states::WorkingState;
use crate::conflicts::rising_lists::without;
use mx_auth::RoomVersion;
use mx_graph::{EventNo, Graph};
use mx_orders::{mainline_order, power_order};
use std::alloc::{AllocError, Global};

/// Checks the power events of a full conflicted set, with its events in their auth chains, in power order, and then its
/// other events in the order of the mainline of the power levels event so far: each state event that the authorization
/// rules allow in the state so far is put there. At an error some of them were checked.
///
/// Source: the Matrix specification, Room Version 2, "State resolution".
pub(crate) fn check_conflicted(
    version: RoomVersion,
    alloc: Global,
    graph: &Graph,
    state: &mut WorkingState<'_>,
    full: &[EventNo],
) -> Result<(), AllocError>
    requires full { All (λ event. event < length graph.now) full.now }
    requires rises { Rises full.now }
    requires known { All (λ e. e.1 < length graph.now) (shown_by state.old) }
    ensures checked { OnOk result (shown_by state.new ≡ checked version graph.now (shown_by state.old) full.now) }
    ensures base { state.new.0 ≡ state.old.0 }
    ensures taken { state.new.1.0 ≡ state.old.1.0 }
    ensures known { OnOk result (All (λ e. e.1 < length graph.now) (shown_by state.new)) }
{
    let power = power_events(alloc, graph, full)?;
    let others = without(alloc, full, &power)?;
    let order = power_order(alloc, graph, &power)?;
    check_each(version, graph, state, &order)?;
    let power_levels = state.get("m.room.power_levels", "");
    let rest = mainline_order(alloc, graph, power_levels, &others)?;
    check_each(version, graph, state, &rest)?;
    Ok(())
}
