// What stands at keys between events that were checked.
ghost use Rattle.std.specs.Prelude.{◌≡◌, ◌<◌, All, IfOk, IfSome, OnOk, length};
ghost use Rattle.std.specs.FinMap.Entries.{put};
ghost use Rattle.mx_graph.specs.StateMap.{entry as entry_at, key_cmp};
ghost use Rattle.mx_state_res.specs.KeptResolutions.{AreChecked, events_checked};
ghost use Rattle.mx_state_res.specs.LaterResolution as later;
ghost use Rattle.mx_state_res.specs.Numbered.{shown_by};
ghost use Rattle.mx_state_res.specs.Resolution.{iterative_auth_checks};
ghost use Rattle.mx_state_res.specs.TouchedKeys as touched;
ghost use Rattle.mx_state_res.specs.TouchedKeys.{HasPutKey, keys_judged_by, with_put};

use crate::checks::working_states::WorkingState;
use crate::kept_resolutions::checked_events::{CheckedEvent, is_put, is_put_at};
use mx_auth::{RoomVersion, needed_keys};
use mx_graph::{EventNo, Graph};
use mx_states::StateMap;
use std::alloc::AllocError;

/// Events that were checked, with the keys at which they were put, among others.
#[derive(Drop)]
pub(crate) struct EventsBefore<'a> {
    pub(crate) graph: &'a Graph,
    pub(crate) order: &'a [CheckedEvent],
    pub(crate) put_keys: &'a StateMap,
    ghost known: { All (λ checked. checked.event < length graph.now) order.now },
    ghost at_keys: { All (HasPutKey graph.now put_keys.now) order.now },
}

/// Puts what stands, once these events were checked in a state, at each key at which the rules look where they judge another.
/// At an error some of it is put.
pub(crate) fn put_judged_by(
    version: RoomVersion,
    before: &EventsBefore<'_>,
    state: &mut WorkingState<'_>,
    event: EventNo,
) -> Result<(), AllocError>
    requires event { event < length before.now.graph.now }
    requires known { All (λ e. e.1 < length before.now.graph.now) (shown_by state.old) }
    ensures stands { AreChecked version before.now.graph.now (shown_by state.old) before.now.order.now → OnOk result (All
        (λ key. entry_at (shown_by state.new) key
        ≡ entry_at (iterative_auth_checks version before.now.graph.now (shown_by state.old) (events_checked before.now.order.now)) key)
        (keys_judged_by version before.now.graph.now event)) }
    ensures known { OnOk result (All (λ e. e.1 < length before.now.graph.now) (shown_by state.new)) }
{
    put_last(before, state, "m.room.create", "")?;
    let needed = needed_keys(version, &before.graph.row(event).event);
    let keys = needed.as_slice();
    for at in 0..keys.len() {
        let key = &keys[at];
        put_last(before, state, key.kind, key.state_key)?;
    }
    Ok(())
}

// Puts the last of these events that was put at a key. At an error the state stays.
fn put_last(
    before: &EventsBefore<'_>,
    state: &mut WorkingState<'_>,
    kind: &str,
    state_key: &str,
) -> Result<(), AllocError>
    requires known { All (λ e. e.1 < length before.now.graph.now) (shown_by state.old) }
    ensures ok { OnOk result (shown_by state.new
        ≡ with_put (touched.last_put before.now.graph.now (kind.now, state_key.now) before.now.order.now) (kind.now, state_key.now) (shown_by state.old)) }
    ensures known { OnOk result (All (λ e. e.1 < length before.now.graph.now) (shown_by state.new)) }
{
    let Some(event) = last_put(before, kind, state_key) else {
        return Ok(());
    };
    state.insert(kind, state_key, event)?;
    Ok(())
}

// The last of these events that was put at a key. It takes no memory.
fn last_put(before: &EventsBefore<'_>, kind: &str, state_key: &str) -> Option<EventNo>
    ensures last { result ≡ touched.last_put before.now.graph.now (kind.now, state_key.now) before.now.order.now }
    ensures known { IfSome result (λ event. event < length before.now.graph.now) }
{
    if before.put_keys.get(kind, state_key).is_none() {
        return None;
    }
    last_among(before.graph, before.order, kind, state_key)
}

// The same, looked for from the last event on.
fn last_among(graph: &Graph, order: &[CheckedEvent], kind: &str, state_key: &str) -> Option<EventNo>
    requires { All (λ checked. checked.event < length graph.now) order.now }
    ensures last { result ≡ touched.last_put graph.now (kind.now, state_key.now) order.now }
    ensures known { IfSome result (λ event. event < length graph.now) }
{
    let mut left = order.len();
    while left > 0 {
        left -= 1;
        let checked = &order[left];
        if is_put_at(graph, *checked, kind, state_key) {
            return Some(checked.event);
        }
    }
    None
}

/// Whether the first event behind these is put where it is checked in the state after them, with an event put at a key
/// beside. The state is that in which the first of these events was checked.
pub(crate) fn is_put_beside(
    version: RoomVersion,
    before: &EventsBefore<'_>,
    mut state: WorkingState<'_>,
    event: EventNo,
    beside: &PutEvent<'_>,
) -> Result<bool, AllocError>
    requires event { event < length before.now.graph.now }
    requires beside { beside.now.event < length before.now.graph.now }
    requires known { All (λ e. e.1 < length before.now.graph.now) (shown_by state) }
    ensures { AreChecked version before.now.graph.now (shown_by state.entry) before.now.order.now → IfOk result (λ is_put. is_put
        ≡ later.is_put version before.now.graph.now (put key_cmp (beside.now.kind.now, beside.now.state_key.now) beside.now.event
        (iterative_auth_checks version before.now.graph.now (shown_by state.entry) (events_checked before.now.order.now))) event) }
{
    put_judged_by(version, before, &mut state, event)?;
    state.insert(beside.kind, beside.state_key, beside.event)?;
    Ok(is_put(version, before.graph, &state, event))
}

/// An event that is put at a key.
#[derive(Clone, Copy, Debug)]
pub(crate) struct PutEvent<'a> {
    pub(crate) event: EventNo,
    pub(crate) kind: &'a str,
    pub(crate) state_key: &'a str,
}
