// Calls of rooms, each at the shard of its room.
ghost use Rattle.std.specs.Prelude.{◌≡◌, ◌||◌, ℕ, List, All, None, Some, Ok, false, IfOk, IfSome, IsTrue, OnOk, OnErr};
ghost use Rattle.mx_pdu.specs.Event.{room_of};
ghost use Rattle.mx_shard.specs.LoneRoom.{to_host, to_offer, to_ask, sent_call, answer, record_alone};
ghost use Rattle.mx_room.specs.Queries.{room_named};
ghost use Rattle.mx_keeper.specs.Places.{is_at};
ghost use Rattle.mx_shard.specs.Journal.{record_of};
ghost use Rattle.mx_shard.specs.Shown.{IsAnswer, IsShown};
ghost use Rattle.mx_shard.specs.Told.{tells_shown};
ghost use Rattle.mx_world.specs.Replies.{outcome_in};
ghost use Rattle.mx_world.specs.Calls.{if_put_to};
ghost use Rattle.mx_world.specs.Worlds.{shard_journals, records_of};
ghost use Rattle.mx_world.specs.Storage.{AskFails, ShardFails, SomeShardFails, ShardsLast, OnlyAt, ShowsNothing, OthersShowNothing};
ghost use Rattle.mx_world.specs.Crashes.{ShardsLeave, at_error};
ghost use Rattle.mx_world.specs.Parts.{shard_places, ArePlaced};

use crate::answers::outcome_of;
use crate::callers::SOLE_CALLER;
use crate::numbering::number_for;
use mx_ident::{RoomId, ServerName};
use mx_keeper::{CallError, Caller, Keeper, ShardRow};
use mx_pdu::Offered;
use mx_room::{Denied, Moment, Outcome, Query};
use mx_shard::{Answer, Sending, Shard};
use std::alloc::AllocError;

/// Hosts the room of the event.
pub(crate) fn host_in<K: Keeper<Row = ShardRow>>(
    shards: &mut [Shard<K>],
    offered: &Offered,
) -> Result<Answer, CallError>
    requires { ArePlaced (shard_places shards.old) }
    ensures reply { IfOk result (λ a. a ≡ answer (records_of (shard_journals shards.old) (room_of offered.now.pdu)) (to_host offered.now)) }
    ensures records { OnOk result ((room : List ℕ) → records_of (shard_journals shards.new) room
        ≡ record_alone (records_of (shard_journals shards.old) room) (if_put_to room (to_host offered.now))) }
    ensures err { OnErr result (shard_journals shards.new ≡ shard_journals shards.old) }
    ensures places { shard_places shards.new ≡ shard_places shards.old }
    ensures storage { result ≡ Err CallError.Storage → ShardFails K.failed shards.old shards.new (room_of offered.now.pdu) }
    ensures only { OnlyAt (Some (room_of offered.now.pdu)) shards.old shards.new }
    ensures last { ShardsLast K.failed shards.old shards.new }
    ensures crash { ShardsLeave K.is_honest K.may_leave (at_error result (Some (to_host offered.now))) shards.old shards.new }
{
    let number = number_for(offered.pdu.room_id().as_str(), shards.len());
    let shard = &mut shards[number];
    let answer = shard.host(Caller::new(SOLE_CALLER), offered)?;
    Ok(answer)
}

/// What becomes of the event, which a server offers to its room; nothing where the room is not hosted.
pub(crate) fn offer_in<K: Keeper<Row = ShardRow>>(
    shards: &mut [Shard<K>],
    origin: &ServerName,
    offered: &Offered,
) -> Result<Option<Outcome>, CallError>
    requires { ArePlaced (shard_places shards.old) }
    ensures reply { IfOk result (λ o. o ≡ outcome_in (records_of (shard_journals shards.old) (room_of offered.now.pdu)) origin.now offered.now) }
    ensures records { OnOk result ((room : List ℕ) → records_of (shard_journals shards.new) room
        ≡ record_alone (records_of (shard_journals shards.old) room) (if_put_to room (to_offer origin.now offered.now))) }
    ensures err { OnErr result (shard_journals shards.new ≡ shard_journals shards.old) }
    ensures places { shard_places shards.new ≡ shard_places shards.old }
    ensures storage { result ≡ Err CallError.Storage → ShardFails K.failed shards.old shards.new (room_of offered.now.pdu) }
    ensures only { OnlyAt (Some (room_of offered.now.pdu)) shards.old shards.new }
    ensures last { ShardsLast K.failed shards.old shards.new }
    ensures crash { ShardsLeave K.is_honest K.may_leave (at_error result (Some (to_offer origin.now offered.now))) shards.old shards.new }
{
    let answer = send_in(shards, Sending::Offer, origin, offered)?;
    Ok(outcome_of(answer))
}

/// The answer to an event, which a server sends to its room.
pub(crate) fn send_in<K: Keeper<Row = ShardRow>>(
    shards: &mut [Shard<K>],
    sending: Sending,
    origin: &ServerName,
    offered: &Offered,
) -> Result<Answer, CallError>
    requires { ArePlaced (shard_places shards.old) }
    ensures reply { IfOk result (λ a. a ≡ answer (records_of (shard_journals shards.old) (room_of offered.now.pdu)) (sent_call sending origin.now offered.now)) }
    ensures records { OnOk result ((room : List ℕ) → records_of (shard_journals shards.new) room
        ≡ record_alone (records_of (shard_journals shards.old) room) (if_put_to room (sent_call sending origin.now offered.now))) }
    ensures err { OnErr result (shard_journals shards.new ≡ shard_journals shards.old) }
    ensures places { shard_places shards.new ≡ shard_places shards.old }
    ensures storage { result ≡ Err CallError.Storage → ShardFails K.failed shards.old shards.new (room_of offered.now.pdu) }
    ensures only { OnlyAt (Some (room_of offered.now.pdu)) shards.old shards.new }
    ensures last { ShardsLast K.failed shards.old shards.new }
    ensures crash { ShardsLeave K.is_honest K.may_leave (at_error result (Some (sent_call sending origin.now offered.now))) shards.old shards.new }
{
    let number = number_for(offered.pdu.room_id().as_str(), shards.len());
    let shard = &mut shards[number];
    let answer = shard.send(Caller::new(SOLE_CALLER), sending, origin, offered)?;
    Ok(answer)
}

/// The answer to a server's query, at a moment: that of the room which it names, or what some room shows.
pub(crate) fn ask_in<K: Keeper<Row = ShardRow>>(
    shards: &[Shard<K>],
    origin: &ServerName,
    now: Moment,
    query: &Query,
) -> Result<Answer, CallError>
    requires { ArePlaced (shard_places shards.now) }
    ensures reply { IfOk result (λ a. IsAnswer (records_of (shard_journals shards.now)) (to_ask origin.now now query.now) (room_named query.now) a) }
    ensures storage { result ≡ Err CallError.Storage
        → AskFails K.failed shards.now shards.now (to_ask origin.now now query.now) (room_named query.now) }
{
    match query.room() {
        Some(room) => ask_named(shards, room, origin, now, query),
        None => ask_each(shards, origin, now, query),
    }
}

// The answer of the room that the query names, from its shard.
fn ask_named<K: Keeper<Row = ShardRow>>(
    shards: &[Shard<K>],
    room: &RoomId,
    origin: &ServerName,
    now: Moment,
    query: &Query,
) -> Result<Answer, CallError>
    requires placed { ArePlaced (shard_places shards.now) }
    requires named { room_named query.now ≡ Some room.now }
    ensures reply { IfOk result (λ a. a ≡ answer (records_of (shard_journals shards.now) room.now) (to_ask origin.now now query.now)) }
    ensures storage { result ≡ Err CallError.Storage → ShardFails K.failed shards.now shards.now room.now }
{
    let number = number_for(room.as_str(), shards.len());
    let shard = &shards[number];
    let answer = shard.ask(origin, now, query)?;
    Ok(answer)
}

// What some room shows; not found only where none shows it. A shard that is refused for storage does not end this: it is
// answered so only where no other one shows it.
fn ask_each<K: Keeper<Row = ShardRow>>(
    shards: &[Shard<K>],
    origin: &ServerName,
    now: Moment,
    query: &Query,
) -> Result<Answer, CallError>
    requires placed { ArePlaced (shard_places shards.now) }
    requires alone { room_named query.now ≡ None }
    ensures reply { IfOk result (λ a. IsShown (records_of (shard_journals shards.now)) (to_ask origin.now now query.now) a) }
    ensures storage { result ≡ Err CallError.Storage → SomeShardFails K.failed shards.now shards.now
        × OthersShowNothing (to_ask origin.now now query.now) shards.now }
{
    let mut is_refused = false;
    for shard in shards {
        let found = ask_one(shard, origin, now, query, &mut is_refused)?;
        if let Some(answer) = found {
            return Ok(answer);
        }
    }
    if is_refused {
        return Err(CallError::Storage);
    }
    Ok(Answer::ToAsked(Err(Denied::NotFound)))
}

// What a room of the shard shows, if one shows it. Where the shard is refused for storage, this is noted, and it shows
// nothing.
fn ask_one<K: Keeper<Row = ShardRow>>(
    shard: &Shard<K>,
    origin: &ServerName,
    now: Moment,
    query: &Query,
    is_refused: &mut bool,
) -> Result<Option<Answer>, AllocError>
    requires { room_named query.now ≡ None }
    ensures here { All (λ entry. IsTrue (is_at shard.now.place entry.room)) shard.now.journal }
    ensures shown { IfOk result (λ found. IfSome found (λ a. IsTrue (tells_shown a)
        × IsShown (record_of shard.now.journal) (to_ask origin.now now query.now) a)) }
    ensures unshown { result ≡ Ok None → shard.now.is_refused ≡ false
        → ShowsNothing (to_ask origin.now now query.now) shard.now }
    ensures noted { OnOk result (is_refused.new ≡ (shard.now.is_refused || is_refused.old)) }
{
    match shard.ask(origin, now, query) {
        Ok(answer) => {
            if answer.is_shown() {
                return Ok(Some(answer));
            }
            Ok(None)
        }
        Err(CallError::Memory) => Err(AllocError),
        Err(CallError::Storage) => {
            *is_refused = true;
            Ok(None)
        }
    }
}
