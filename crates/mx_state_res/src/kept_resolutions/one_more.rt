// One state more among those that were resolved.
ghost use Rattle.std.specs.Prelude.{◌≡◌, ◌<◌, All, IfOk, IfSome, IsTrue, List, None, Some, false, length};
ghost use Rattle.std.specs.Ordering.{is_eq};
ghost use Rattle.mx_pdu.specs.StateKeys.{Key};
ghost use Rattle.mx_auth.specs.Rules.{key_of};
ghost use Rattle.mx_graph.specs.Record as record_of;
ghost use Rattle.mx_graph.specs.Record.{Row};
ghost use Rattle.mx_graph.specs.StateMap.{entry as entry_at, key_cmp};
ghost use Rattle.mx_state_res.specs.KeptResolutions.{IsKept, made_by};
ghost use Rattle.mx_state_res.specs.Numbered.{AreAdded, AreKnown};
ghost use Rattle.mx_states.specs.Numbered.{state_at};

use crate::kept_resolutions::KeptResolution;
use crate::kept_resolutions::added_events::added_event;
use crate::kept_resolutions::checked_events::CheckedEvent;
use crate::kept_resolutions::outcomes::{Outcome, outcome_of};
use crate::kept_resolutions::touched_keys::add_keys;
use mx_auth::RoomVersion;
use mx_graph::{EventNo, Graph, graph_is_sound};
use mx_states::{StateNo, States};
use std::alloc::{AllocError, Global};

// Where more keys are in conflict, the newest state is not what is resolved.
const MOST_KEYS: usize = 8;

/// What is kept of the resolution of all states but the last, with the last one; `None` where that one is more than one of
/// them with an event more, or another event would be judged otherwise because of it.
pub(crate) fn resolve_one_more(
    version: RoomVersion,
    alloc: Global,
    graph: &Graph,
    states: &mut States,
    numbers: &[StateNo],
    mut kept: KeptResolution,
) -> Result<Option<KeptResolution>, AllocError>
    requires numbers { All (λ number. number < length states.old) numbers.now }
    requires known { AreKnown graph.now states.old }
    requires kept { IsKept version graph.now states.old kept }
    ensures numbers { IfOk result (λ told. IfSome told (λ kept. kept.numbers.items ≡ numbers.now)) }
    ensures kept { IfOk result (λ told. IfSome told (IsKept version graph.now states.new)) }
    ensures added { AreAdded graph.now states.old states.new }
    ensures stay { IfOk result (λ told. told ≡ None → states.new ≡ states.old) }
{
    graph_is_sound(graph);
    let Some((newest, before)) = numbers.split_last() else {
        return Ok(None);
    };
    if before != kept.numbers.as_slice() {
        return Ok(None);
    }
    let Some(event) = added_event(alloc, graph, states, &kept, *newest)? else {
        return Ok(None);
    };
    let Some((place, outcome)) = outcome_of(version, alloc, graph, states, &kept, event)? else {
        return Ok(None);
    };
    let row = &graph.row(event).event;
    let Some(state_key) = row.state_key() else {
        return Ok(None);
    };
    let resolved = resolved_by(alloc, graph, states, &kept, *newest, event, outcome)?;
    kept.differing.insert(row.kind(), state_key, event)?;
    let is_put = outcome.is_put();
    add_keys(version, graph, &mut kept.touched, event, is_put)?;
    kept.order.insert(place, CheckedEvent { event, is_put })?;
    kept.numbers.push(*newest)?;
    kept.resolved = resolved;
    Ok(Some(kept))
}

// What was resolved, with an event of which this becomes. Where the newest state is that one, it is that.
fn resolved_by(
    alloc: Global,
    graph: &Graph,
    states: &mut States,
    kept: &KeptResolution,
    newest: StateNo,
    event: EventNo,
    outcome: Outcome,
) -> Result<StateNo, AllocError>
    requires event { event < length graph.now }
    requires newest { newest < length states.old }
    requires below { kept.now.resolved < length states.old }
    requires there { (key : Key) → key_of (record_of.event graph.now event) ≡ Some key
        → entry_at (state_at states.old newest) key ≡ Some event }
    ensures number { IfOk result (λ number. number < length states.new) }
    ensures resolved { (key : Key) → key_of (record_of.event graph.now event) ≡ Some key → IfOk result (λ number.
        state_at states.new number ≡ made_by outcome key event (state_at states.old kept.now.resolved)) }
    ensures added { (rows : List Row) → event < length rows → AreKnown rows states.old
        → AreAdded rows states.old states.new }
{
    match outcome {
        Outcome::Stays => {}
        Outcome::Refused | Outcome::Replaced => return Ok(kept.resolved),
    }
    let row = &graph.row(event).event;
    let kind = row.kind();
    let Some(state_key) = row.state_key() else {
        return Ok(kept.resolved);
    };
    states.state_is_sorted(kept.resolved);
    states.state_is_sorted(newest);
    if is_made_there(alloc, states, kept, newest, kind, state_key)? {
        return Ok(newest);
    }
    let number = states.with(kept.resolved, kind, state_key, event)?;
    Ok(number)
}

// Whether the newest state differs from what was resolved at a key, and nowhere else. Where many keys are in conflict it is
// not looked for.
fn is_made_there(
    alloc: Global,
    states: &States,
    kept: &KeptResolution,
    newest: StateNo,
    kind: &str,
    state_key: &str,
) -> Result<bool, AllocError>
    requires resolved { kept.now.resolved < length states.now }
    requires newest { newest < length states.now }
    ensures { IfOk result (λ there. IsTrue there → (key : Key) → is_eq (key_cmp key (kind.now, state_key.now)) ≡ false
        → entry_at (state_at states.now kept.now.resolved) key ≡ entry_at (state_at states.now newest) key) }
{
    if kept.differing.entries().len() > MOST_KEYS {
        return Ok(false);
    }
    let is_there = differ_there(alloc, states, kept.resolved, newest, kind, state_key)?;
    Ok(is_there)
}

// Whether two states differ at a key, and nowhere else.
fn differ_there(
    alloc: Global,
    states: &States,
    one: StateNo,
    other: StateNo,
    kind: &str,
    state_key: &str,
) -> Result<bool, AllocError>
    requires one { one < length states.now }
    requires other { other < length states.now }
    ensures { IfOk result (λ there. IsTrue there → (key : Key) → is_eq (key_cmp key (kind.now, state_key.now)) ≡ false
        → entry_at (state_at states.now one) key ≡ entry_at (state_at states.now other) key) }
{
    let differing = states.differing(alloc, &[one, other])?;
    if differing.entries().len() != 1 {
        return Ok(false);
    }
    Ok(differing.get(kind, state_key).is_some())
}
