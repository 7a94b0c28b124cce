// What a join is to be made of.
ghost use Rattle.std.specs.Prelude.{◌≡◌, ◌+◌, ◌++◌, ◌∷◌, ◌<◌, [], All, IfOk, OnOk, filter_map, length, min};
ghost use Rattle.serde_json.specs.Data.{array, object, put as with_member, string};
ghost use Rattle.serde_json.specs.View.{members_view, view};
ghost use Rattle.mx_canon.specs.Canonical.{largest};
ghost use Rattle.mx_graph.specs.Depths as depths;
ghost use Rattle.mx_graph.specs.StateMap.{entry};
ghost use Rattle.mx_receipt.specs.Receipt.{current_state, rows_of};
ghost use Rattle.mx_room.specs.Answers.{join_keys};
ghost use Rattle.mx_room.specs.Queries as definition;
ghost use Rattle.mx_room.specs.Queries.{string_items};

use crate::moments::Moment;
use crate::queries::event_orders::{deepest, depth_of_event};
use crate::queries::served_events::ids_of;
use mx_access::StateInRoom;
use mx_graph::EventNo;
use mx_ident::{EventId, RoomId, UserId};
use mx_receipt::Timeline;
use serde_json::{Map, Value, json, put};
use std::alloc::{AllocError, Global};
use std::marker::Model;

// Source: the Matrix specification, Server-Server API, "PDUs", which lets an event have at most 20 prev events.
const MOST_PREV_EVENTS: usize = 20;

// The greatest number of canonical JSON. Source: the Matrix specification, appendices, "Canonical JSON".
const GREATEST_DEPTH: u64 = 9_007_199_254_740_991;

/// What a join is to be made of: a member event, without the name of the server that gives it, hashes and signatures.
///
/// Source: the Matrix specification, Server-Server API, "Joining Rooms".
#[derive(Debug, Drop)]
pub struct JoinTemplate {
    event: Map<String, Value>,
}

impl Model for JoinTemplate {
    ghost use Rattle.mx_pdu.specs.DataCode.{data_code};
    ghost use Rattle.mx_redact.specs.Fields.{Event};
    ghost use Rattle.serde_json.specs.Data.{object};
    ghost use Rattle.serde_json.specs.View.{members_view};

    ghost Value = { Event };

    ghost coded = { data_code };

    ghost view = { λ template. object (members_view template.event.entries) };
}

impl JoinTemplate {
    /// Its members.
    pub fn as_map(&self) -> &Map<String, Value>
        ensures { object (members_view result.now.entries) ≡ self.now }
    {
        &self.event
    }

    /// Its members, to add others to them.
    pub fn into_map(self) -> Map<String, Value>
        ensures { object (members_view result.entries) ≡ self }
    {
        self.event
    }
}

/// What a join of the user is to be made of, at a moment: it follows the deepest of the forward extremities, and rests on
/// events of the current state.
///
/// Source: the Matrix specification, Server-Server API, "Joining Rooms".
pub(crate) fn join_template(
    alloc: Global,
    timeline: &Timeline,
    now: Moment,
    room: &RoomId,
    user: &UserId,
) -> Result<JoinTemplate, AllocError>
    ensures { IfOk result (λ template. template ≡ definition.join_template timeline.now.kept now room.now user.now) }
{
    let auth = join_auth_events(alloc, timeline, user.as_str())?;
    let prev = deepest(alloc, timeline, timeline.extremities(), MOST_PREV_EVENTS)?;
    let depth = depth_after(timeline, &prev);
    let auth_ids = ids_of(alloc, timeline, &auth)?;
    let prev_ids = ids_of(alloc, timeline, &prev)?;
    let event = join_event(
        alloc,
        auth_ids.as_slice(),
        prev_ids.as_slice(),
        depth,
        now.milliseconds(),
        room.as_str(),
        user.as_str(),
    )?;
    Ok(JoinTemplate { event })
}

// A join of the user.
fn join_event(
    alloc: Global,
    auth: &[EventId],
    prev: &[EventId],
    depth: u64,
    now: u64,
    room: &str,
    user: &str,
) -> Result<Map<String, Value>, AllocError>
    ensures { IfOk result (λ event. object (members_view event.entries)
        ≡ definition.join_event auth.now prev.now depth now room.now user.now) }
{
    let content = json!(in alloc; {"membership": "join"})?;
    let mut event = Map::new(alloc);
    put(&mut event, alloc, "auth_events", ids_value(alloc, auth)?)?;
    put(&mut event, alloc, "content", content)?;
    put(&mut event, alloc, "depth", Value::from(depth))?;
    put(&mut event, alloc, "origin_server_ts", Value::from(now))?;
    put(&mut event, alloc, "prev_events", ids_value(alloc, prev)?)?;
    put_text(&mut event, alloc, "room_id", room)?;
    put_text(&mut event, alloc, "sender", user)?;
    put_text(&mut event, alloc, "state_key", user)?;
    put_text(&mut event, alloc, "type", "m.room.member")?;
    Ok(event)
}

fn put_text(
    event: &mut Map<String, Value>,
    alloc: Global,
    key: &str,
    text: &str,
) -> Result<(), AllocError>
    ensures { OnOk result (members_view event.new.entries ≡ with_member key.now (string text.now) (members_view event.old.entries)) }
{
    let value = Value::try_from_str(alloc, text)?;
    put(event, alloc, key, value)
}

fn ids_value(alloc: Global, ids: &[EventId]) -> Result<Value, AllocError>
    ensures { IfOk result (λ value. view value ≡ array (string_items ids.now)) }
{
    let mut items = Vec::with_capacity(alloc, ids.len())?;
    for id in ids {
        items.push(Value::try_from_str(alloc, id.as_str())?)?;
    }
    Ok(Value::Array(items))
}

// The events of the current state on which a join of the user is to rest.
fn join_auth_events(
    alloc: Global,
    timeline: &Timeline,
    user: &str,
) -> Result<Vec<EventNo>, AllocError>
    ensures events { IfOk result (λ events. events.items
        ≡ filter_map (entry (current_state timeline.now.kept)) (join_keys user.now)) }
    ensures below { IfOk result (λ events. All (λ event. event < length timeline.now.kept) events.items) }
{
    let state = StateInRoom::current(timeline);
    let mut events = Vec::new(alloc);
    push_entry(&mut events, &state, "m.room.create", "")?;
    push_entry(&mut events, &state, "m.room.power_levels", "")?;
    push_entry(&mut events, &state, "m.room.member", user)?;
    push_entry(&mut events, &state, "m.room.join_rules", "")?;
    Ok(events)
}

// Adds the event that the state has at a type and a state key, where it has one.
fn push_entry(
    events: &mut Vec<EventNo>,
    state: &StateInRoom<'_>,
    kind: &str,
    key: &str,
) -> Result<(), AllocError>
    requires { All (λ event. event < length state.now.0) events.old.items }
    ensures events { OnOk result (events.new.items
        ≡ events.old.items ++ filter_map (entry state.now.1) ((kind.now, key.now) ∷ [])) }
    ensures below { OnOk result (All (λ event. event < length state.now.0) events.new.items) }
{
    if let Some(number) = state.number_at(kind, key) {
        events.push(number)?;
    }
    Ok(())
}

// The depth of an event that follows these.
fn depth_after(timeline: &Timeline, events: &[EventNo]) -> u64
    requires { All (λ event. event < length timeline.now.kept) events.now }
    ensures { result ≡ min (depths.greatest_depth (rows_of timeline.now.kept) events.now + 1) largest }
{
    greatest_depth(timeline, events).min(GREATEST_DEPTH - 1) + 1
}

fn greatest_depth(timeline: &Timeline, events: &[EventNo]) -> u64
    requires { All (λ event. event < length timeline.now.kept) events.now }
    ensures { result ≡ depths.greatest_depth (rows_of timeline.now.kept) events.now }
{
    let mut greatest = 0;
    for event in events {
        greatest = greatest.max(depth_of_event(timeline, *event));
    }
    greatest
}
