// The keys that events which were checked have to do with.
ghost use Rattle.std.specs.Prelude.{◌≡◌, ◌<◌, All, IfOk, OnOk, is_some, length, true};
ghost use Rattle.mx_pdu.specs.StateKeys.{Key};
ghost use Rattle.mx_graph.specs.StateMap.{entry as entry_at};
ghost use Rattle.mx_state_res.specs.TouchedKeys.{HasKeysOf, HasNeededKeys, HasPutKey, checked_event};
ghost use Rattle.mx_state_res.specs.declared.kept_resolutions.checked_events.CheckedEvent.{CheckedEvent as Checked};

use crate::kept_resolutions::checked_events::CheckedEvent;
use mx_auth::{RoomVersion, needed_keys};
use mx_graph::{EventNo, Graph};
use mx_states::StateMap;
use std::alloc::{AllocError, Global};

/// The keys at which events that were checked were put, and those that they need, with an event for each.
#[derive(Debug, Drop)]
pub struct TouchedKeys {
    pub put_keys: StateMap,
    pub needed_keys: StateMap,
}

/// The keys of events that were checked.
pub(crate) fn touched_keys(
    version: RoomVersion,
    alloc: Global,
    graph: &Graph,
    order: &[CheckedEvent],
) -> Result<TouchedKeys, AllocError>
    requires { All (λ checked. checked.event < length graph.now) order.now }
    ensures { IfOk result (λ keys. All (HasKeysOf version graph.now keys) order.now) }
{
    let mut keys = TouchedKeys {
        put_keys: StateMap::new(alloc),
        needed_keys: StateMap::new(alloc),
    };
    for checked in order {
        add_keys(version, graph, &mut keys, checked.event, checked.is_put)?;
    }
    Ok(keys)
}

/// Adds the keys of an event that was checked, and of which this is whether it was put. At an error some of them are added.
pub(crate) fn add_keys(
    version: RoomVersion,
    graph: &Graph,
    keys: &mut TouchedKeys,
    event: EventNo,
    is_put: bool,
) -> Result<(), AllocError>
    requires { event < length graph.now }
    ensures added { OnOk result (HasKeysOf version graph.now keys.new (checked_event event is_put)) }
    ensures stay { OnOk result ((other : Checked) → HasKeysOf version graph.now keys.old other
        → HasKeysOf version graph.now keys.new other) }
{
    add_put_key(graph, &mut keys.put_keys, event, is_put)?;
    add_needed_keys(version, graph, &mut keys.needed_keys, event)?;
    Ok(())
}

// Adds the key at which an event was put, if it was.
fn add_put_key(
    graph: &Graph,
    keys: &mut StateMap,
    event: EventNo,
    is_put: bool,
) -> Result<(), AllocError>
    requires { event < length graph.now }
    ensures added { OnOk result (HasPutKey graph.now keys.new (checked_event event is_put)) }
    ensures stay { OnOk result ((key : Key) → is_some (entry_at keys.old key) ≡ true → is_some (entry_at keys.new key) ≡ true) }
{
    if !is_put {
        return Ok(());
    }
    let row = &graph.row(event).event;
    let kind = row.kind();
    let Some(state_key) = row.state_key() else {
        return Ok(());
    };
    keys.insert(kind, state_key, event)?;
    Ok(())
}

// Adds the keys that an event needs.
fn add_needed_keys(
    version: RoomVersion,
    graph: &Graph,
    keys: &mut StateMap,
    event: EventNo,
) -> Result<(), AllocError>
    requires { event < length graph.now }
    ensures added { OnOk result (HasNeededKeys version graph.now keys.new event) }
    ensures stay { OnOk result ((key : Key) → is_some (entry_at keys.old key) ≡ true → is_some (entry_at keys.new key) ≡ true) }
{
    let needed = needed_keys(version, &graph.row(event).event);
    let added = needed.as_slice();
    for at in 0..added.len() {
        let key = &added[at];
        keys.insert(key.kind, key.state_key, event)?;
    }
    Ok(())
}
