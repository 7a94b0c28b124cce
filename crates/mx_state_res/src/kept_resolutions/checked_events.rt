// Events that were checked, and one more among them.
ghost use Rattle.std.specs.Prelude.{◌≡◌, ◌<◌, ℕ, All, IfOk, OnOk, false, length};
ghost use Rattle.std.specs.FinMap.Entries.{put};
ghost use Rattle.mx_graph.specs.Record as record_of;
ghost use Rattle.mx_graph.specs.Record.{is_in};
ghost use Rattle.mx_graph.specs.StateMap.{State, key_cmp};
ghost use Rattle.mx_orders.specs.StateMap.{with_event};
ghost use Rattle.mx_state_res.specs.KeptResolutions as kept;
ghost use Rattle.mx_state_res.specs.LaterResolution as later;
ghost use Rattle.mx_state_res.specs.Numbered.{shown_by};
ghost use Rattle.mx_state_res.specs.Resolution as definition;
ghost use Rattle.mx_state_res.specs.TouchedKeys as touched;

use crate::checks::judged_states::is_allowed;
use crate::checks::working_states::WorkingState;
use mx_auth::{RoomVersion, is_at, needed_keys};
use mx_graph::{EventNo, Graph};
use mx_pdu::Pdu;
use std::alloc::{AllocError, Global};

/// An event that was checked, and whether it was put into the state.
#[derive(Clone, Copy, Debug)]
pub struct CheckedEvent {
    pub event: EventNo,
    pub is_put: bool,
}

// Checks each of these events, in order, and puts it into the state that allows it.
pub(crate) fn checked_each(
    version: RoomVersion,
    alloc: Global,
    graph: &Graph,
    state: &mut WorkingState<'_>,
    events: &[EventNo],
) -> Result<Vec<CheckedEvent>, AllocError>
    requires events { All (λ event. event < length graph.now) events.now }
    requires known { All (λ e. e.1 < length graph.now) (shown_by state.old) }
    ensures events { IfOk result (λ found. kept.events_checked found.items ≡ events.now) }
    ensures checked { IfOk result (λ found. kept.AreChecked version graph.now (shown_by state.old) found.items) }
{
    let mut found = Vec::new(alloc);
    for event in events {
        let checked = check_event(version, graph, state, *event)?;
        found.push(checked)?;
    }
    Ok(found)
}

// At an error the state stays.
#[tactic(auto, unfolding(crate::specs::Resolution::after_check))]
fn check_event(
    version: RoomVersion,
    graph: &Graph,
    state: &mut WorkingState<'_>,
    number: EventNo,
) -> Result<CheckedEvent, AllocError>
    requires number { number < length graph.now }
    requires known { All (λ e. e.1 < length graph.now) (shown_by state.old) }
    ensures event { IfOk result (λ checked. checked.event ≡ number) }
    ensures is_put { IfOk result (λ checked. checked.is_put ≡ later.is_put version graph.now (shown_by state.old) number) }
    ensures ok { OnOk result (shown_by state.new ≡ definition.after_check version graph.now (shown_by state.old) number) }
    ensures known { OnOk result (All (λ e. e.1 < length graph.now) (shown_by state.new)) }
{
    let event = &graph.row(number).event;
    let is_put = is_put(version, graph, state, number);
    if is_put {
        put(graph, state, event, number)?;
    }
    Ok(CheckedEvent {
        event: number,
        is_put,
    })
}

// At an error the state stays.
fn put(
    graph: &Graph,
    state: &mut WorkingState<'_>,
    event: &Pdu,
    number: EventNo,
) -> Result<(), AllocError>
    requires number { number < length graph.now }
    requires known { All (λ e. e.1 < length graph.now) (shown_by state.old) }
    ensures ok { OnOk result (shown_by state.new ≡ with_event (shown_by state.old) event.now number) }
    ensures known { OnOk result (All (λ e. e.1 < length graph.now) (shown_by state.new)) }
{
    let Some(state_key) = event.state_key() else {
        return Ok(());
    };
    state.insert(event.kind(), state_key, number)?;
    Ok(())
}

/// Whether an event is a state event that is allowed in a state. It takes no memory.
pub(crate) fn is_put(
    version: RoomVersion,
    graph: &Graph,
    state: &WorkingState<'_>,
    number: EventNo,
) -> bool
    requires number { number < length graph.now }
    requires known { All (λ e. e.1 < length graph.now) (shown_by state.now) }
    ensures { result ≡ later.is_put version graph.now (shown_by state.now) number }
{
    graph.row(number).event.state_key().is_some() && is_allowed(version, graph, state, number)
}

/// Whether the rules may look at a type and a state key where they judge an event.
pub(crate) fn needs(
    version: RoomVersion,
    graph: &Graph,
    event: EventNo,
    kind: &str,
    state_key: &str,
) -> bool
    requires { event < length graph.now }
    ensures { result ≡ false → (x : ℕ) (s : State) → later.is_put version graph.now (put key_cmp (kind.now, state_key.now) x s) event
        ≡ later.is_put version graph.now s event }
{
    if kind == "m.room.create" {
        return true;
    }
    needed_keys(version, &graph.row(event).event).contains(kind, state_key)
}

/// Whether an event that was checked was put at a type and a state key.
pub(crate) fn is_put_at(graph: &Graph, checked: CheckedEvent, kind: &str, state_key: &str) -> bool
    requires { checked.event < length graph.now }
    ensures { result ≡ touched.is_put_at graph.now (kind.now, state_key.now) checked }
{
    checked.is_put && is_at(&graph.row(checked.event).event, kind, state_key)
}

/// Whether an event is among those that were checked. It takes no memory.
pub(crate) fn is_checked(order: &[CheckedEvent], event: EventNo) -> bool
    ensures { result ≡ is_in (kept.events_checked order.now) event }
{
    for checked in order {
        if checked.event == event {
            return true;
        }
    }
    false
}
