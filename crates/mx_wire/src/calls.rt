// Which shards a call goes to.
ghost use Rattle.std.specs.Prelude.{◌≡◌, ◌<◌, ◌≤◌};
ghost use Rattle.mx_requests.specs.CallsShown.{call_shown};
ghost use Rattle.mx_wire.specs.CallShards.{are_all_in, asked_by, changed_by, changed_in, shards_of};

use mx_ident::RoomId;
use mx_keeper::{MOST_PLACES, Place, ShardCount};
use mx_pdu::Offered;
use mx_requests::WireCall;
use mx_room::Query;

/// Which shards of a server a call goes to, by their numbers from 0.
#[derive(Clone, Copy, Debug)]
pub enum CallShards {
    // None: a transaction without events.
    Nowhere,
    // One is asked.
    Asks(usize),
    // One is changed.
    Changes(usize),
    // Several, or all in turn.
    Several,
}

/// Which shards of a server with so many a call goes to. The time is linear in the ids of its rooms; it takes no memory.
pub fn shards_of(call: &WireCall, shards: ShardCount) -> CallShards
    ensures { result ≡ shards_of shards (call_shown call.now) }
{
    let count = shards.get();
    match call {
        WireCall::Sends { events, .. } => changed_by(events, count),
        WireCall::Asks { query, .. } => asked_by(query, count),
        WireCall::Joins { event, .. } => changed_in(event.pdu.room_id(), count),
    }
}

fn asked_by(query: &Query, count: usize) -> CallShards
    requires some { 0 < count }
    requires few { count ≤ MOST_PLACES }
    ensures { result ≡ asked_by count query.now }
{
    match query.room() {
        Some(room) => CallShards::Asks(Place::of(room.as_str(), count).number()),
        None => CallShards::Several,
    }
}

fn changed_in(room: &RoomId, count: usize) -> CallShards
    requires some { 0 < count }
    requires few { count ≤ MOST_PLACES }
    ensures { result ≡ changed_in count room.now }
{
    CallShards::Changes(Place::of(room.as_str(), count).number())
}

fn changed_by(events: &[Offered], count: usize) -> CallShards
    requires some { 0 < count }
    requires few { count ≤ MOST_PLACES }
    ensures { result ≡ changed_by count events.now }
{
    let Some(first) = events.first() else {
        return CallShards::Nowhere;
    };
    let room = first.pdu.room_id();
    if are_all_in(events, Place::of(room.as_str(), count)) {
        changed_in(room, count)
    } else {
        CallShards::Several
    }
}

fn are_all_in(events: &[Offered], place: Place) -> bool
    ensures { result ≡ are_all_in place.count place.number events.now }
{
    events
        .iter()
        .all(|offered| place.has(offered.pdu.room_id().as_str()))
}
