// What rooms show.
ghost use Rattle.std.specs.Prelude.{◌≡◌, None, Some, All, IfOk, OnErr, IsTrue};
ghost use Rattle.mx_room.specs.Queries.{room_named};
ghost use Rattle.mx_shard.specs.LoneRoom.{to_ask, call_room, answer};
ghost use Rattle.mx_shard.specs.Shown.{HasShown, IsAnswer, IsShown};
ghost use Rattle.mx_shard.specs.Told.{tells_shown};
ghost use Rattle.mx_shard.specs.Holders.{IsHolding};
ghost use Rattle.mx_shard.specs.Inside.{rows_in, IsDistinct, IsNumbered, IsReady};

use crate::answers::Answer;
use crate::holders::{Holder, holder_for};
use crate::hosting::room_with;
use mx_ident::{EventId, RoomId, ServerName};
use mx_room::{Denied, Moment, Query, Room};
use std::alloc::{AllocError, Global};
use std::collections::BTreeMap;

/// The answer to a server's query, at a moment, of these rooms.
pub(crate) fn answer_among(
    alloc: Global,
    rooms: &[Room],
    numbers: &BTreeMap<RoomId, usize>,
    holders: &BTreeMap<EventId, Holder>,
    origin: &ServerName,
    now: Moment,
    query: &Query,
) -> Result<Answer, AllocError>
    requires numbered { IsNumbered numbers.now rooms.now }
    requires holding { IsHolding holders.now rooms.now }
    requires ready { All IsReady rooms.now }
    ensures reply { IfOk result (λ reply. IsAnswer (rows_in rooms.now) (to_ask origin.now now query.now) (call_room (to_ask origin.now now query.now)) reply) }
    ensures memory { OnErr result (HasShown (rows_in rooms.now) (to_ask origin.now now query.now) (call_room (to_ask origin.now now query.now))) }
{
    match query.room() {
        Some(id) => answer_of(alloc, rooms, numbers, id, origin, now, query),
        None => shown_in(alloc, rooms, holders, origin, now, query),
    }
}

// The answer of the room that the query names.
fn answer_of(
    alloc: Global,
    rooms: &[Room],
    numbers: &BTreeMap<RoomId, usize>,
    id: &RoomId,
    origin: &ServerName,
    now: Moment,
    query: &Query,
) -> Result<Answer, AllocError>
    requires numbered { IsNumbered numbers.now rooms.now }
    requires ready { All IsReady rooms.now }
    requires named { room_named query.now ≡ Some id.now }
    ensures reply { IfOk result (λ reply. reply ≡ answer (rows_in rooms.now id.now) (to_ask origin.now now query.now)) }
    ensures memory { OnErr result (IsTrue (tells_shown (answer (rows_in rooms.now id.now) (to_ask origin.now now query.now)))) }
{
    let Some(room) = room_with(rooms, numbers, id) else {
        return Ok(Answer::NotHosted);
    };
    let reply = room.ask(alloc, origin, now, query)?;
    Ok(Answer::ToAsked(reply))
}

// What some room shows. Only the room that holds the event is asked.
fn shown_in(
    alloc: Global,
    rooms: &[Room],
    holders: &BTreeMap<EventId, Holder>,
    origin: &ServerName,
    now: Moment,
    query: &Query,
) -> Result<Answer, AllocError>
    requires distinct { IsDistinct rooms.now }
    requires holding { IsHolding holders.now rooms.now }
    requires ready { All IsReady rooms.now }
    requires alone { room_named query.now ≡ None }
    ensures reply { IfOk result (λ reply. IsShown (rows_in rooms.now) (to_ask origin.now now query.now) reply) }
    ensures memory { OnErr result (HasShown (rows_in rooms.now) (to_ask origin.now now query.now) None) }
{
    match holder_for(holders, query) {
        Some(Holder::Room(number)) => match rooms.get(number) {
            Some(room) => {
                let reply = room.ask(alloc, origin, now, query)?;
                Ok(Answer::ToAsked(reply))
            }
            None => Ok(Answer::ToAsked(Err(Denied::NotFound))),
        },
        Some(Holder::Several) => first_shown(alloc, rooms, origin, now, query),
        None => Ok(Answer::ToAsked(Err(Denied::NotFound))),
    }
}

// What some room shows, each being asked in turn.
fn first_shown(
    alloc: Global,
    rooms: &[Room],
    origin: &ServerName,
    now: Moment,
    query: &Query,
) -> Result<Answer, AllocError>
    requires distinct { IsDistinct rooms.now }
    requires ready { All IsReady rooms.now }
    requires alone { room_named query.now ≡ None }
    ensures reply { IfOk result (λ reply. IsShown (rows_in rooms.now) (to_ask origin.now now query.now) reply) }
    ensures memory { OnErr result (HasShown (rows_in rooms.now) (to_ask origin.now now query.now) None) }
{
    for room in rooms {
        let reply = room.ask(alloc, origin, now, query)?;
        if reply.is_ok() {
            return Ok(Answer::ToAsked(reply));
        }
    }
    Ok(Answer::ToAsked(Err(Denied::NotFound)))
}
