// Calls of rooms, each between a take and a put of its shard.
ghost use Rattle.std.specs.Prelude.{◌≡◌, ◌++◌, ℕ, List, Some, IfOk, OnOk, OnErr};
ghost use Rattle.mx_dock.specs.Dock.{own};
ghost use Rattle.mx_room.specs.declared.queries.Query.{Query as QueryOf};
ghost use Rattle.mx_shard.specs.LoneRoom.{call_room, to_ask};
ghost use Rattle.mx_shard.specs.Shown.{IsAnswer};
ghost use Rattle.mx_shard.specs.Journal.{record_of, stored};
ghost use Rattle.mx_engine.specs.Berths.{AddNothing, IsBerthAt, views_of};
ghost use Rattle.mx_engine.specs.Calls.{IsAnswered};
ghost use Rattle.mx_engine.specs.Calling.{call_of, entries_by, IsHere, IsTurn};
ghost use Rattle.mx_engine.specs.Turns.{AreAtShards, StayAtShards};
ghost use Rattle.mx_engine.specs.Crashes.{IsShardExit, LeavesOnly};

use crate::crashes::shards_outlast_a_crash;
use crate::docked::{DockedShard, PaddedDock};
use crate::gates::Gate;
use crate::taking::take_at;
use mx_dock::{Berth, Dock};
use mx_ident::{RoomId, ServerName};
use mx_keeper::{CallError, Caller, Keeper, Place, ShardRow};
use mx_pdu::Offered;
use mx_room::{Moment, Query};
use mx_shard::{Answer, Sending, Shard};
use std::sync::Wait;

/// What a server asks, at a moment.
#[derive(Drop)]
pub(crate) struct Question<'a> {
    pub origin: &'a ServerName,
    pub moment: Moment,
    pub query: &'a Query,
}

/// What a shard is called for: to host the room of an event, to send an event of a server to its room, or to answer a
/// question.
#[derive(Clone, Copy)]
pub(crate) enum ShardCall<'a> {
    Host(&'a Offered),
    Send(Sending, &'a ServerName, &'a Offered),
    Ask(&'a Question<'a>),
}

/// What a caller calls shards with, each between a take and a put.
#[derive(Drop)]
pub(crate) struct ShardTurns<'a, R, K: Keeper<Row = ShardRow>, G> {
    pub rt: &'a R,
    pub gate: &'a G,
    pub docks: &'a [PaddedDock<DockedShard<K>>],
    pub caller: Caller,
}

impl<R: Wait, K: Keeper<Row = ShardRow>, G: Gate> ShardTurns<'_, R, K, G> {
    /// The answer to a call of the room with this id.
    pub(crate) fn call_in(
        &self,
        berths: &mut Vec<Berth<DockedShard<K>>>,
        room: &RoomId,
        call: &ShardCall<'_>,
    ) -> Result<Answer, CallError>
        requires seated { AreAtShards self.now berths.old.items }
        requires room { call_room (call_of call.now) ≡ Some room.now }
        ensures berths { StayAtShards self.now berths.old.items berths.new.items }
        ensures ok { IfOk result
            (IsAnswered self.now.caller (call_of call.now) room.now (views_of berths.old.items) (views_of berths.new.items)) }
        ensures err { OnErr result (AddNothing berths.old.items berths.new.items) }
        // A query adds nothing.
        ensures asked { (origin : List ℕ) (now : ℕ) (q : QueryOf) → call_of call.now ≡ to_ask origin now q
            → AddNothing berths.old.items berths.new.items }
    {
        let place = Place::of(room.as_str(), self.docks.len());
        let number = place.number();
        let berth = &mut berths[number];
        self.call_at(place, &self.docks[number], berth, call)
    }

    /// Takes the shard at this place, calls it, and puts it back.
    pub(crate) fn call_at(
        &self,
        place: Place,
        dock: &Dock<DockedShard<K>>,
        berth: &mut Berth<DockedShard<K>>,
        call: &ShardCall<'_>,
    ) -> Result<Answer, CallError>
        requires berth { IsBerthAt place dock.now self.now.caller berth.old }
        requires here { IsHere place (call_room (call_of call.now)) }
        ensures berth { IsBerthAt place dock.now self.now.caller berth.new }
        ensures turn { IsTurn self.now.caller (call_of call.now) (call_room (call_of call.now)) (own berth.old)
            (own berth.new) result }
    {
        let mut docked = take_at(self.rt, place, dock, berth);
        self.gate.inside(self.rt, place.number());
        let result = call_shard(&mut docked.shard, self.caller, call);
        dock.put(self.rt, berth, docked);
        result
    }
}

// Calls a shard.
fn call_shard<K: Keeper<Row = ShardRow>>(
    shard: &mut Shard<K>,
    caller: Caller,
    call: &ShardCall<'_>,
) -> Result<Answer, CallError>
    requires { IsHere shard.old.place (call_room (call_of call.now)) }
    ensures reply { IfOk result (IsAnswer (record_of shard.old.journal) (call_of call.now) (call_room (call_of call.now))) }
    ensures journal { OnOk result
        (shard.new.journal ≡ shard.old.journal ++ entries_by shard.old.journal caller (call_of call.now)
        (call_room (call_of call.now))) }
    ensures err { OnErr result (shard.new.journal ≡ shard.old.journal) }
    ensures place { shard.new.place ≡ shard.old.place }
    // At each exit a crash leaves what it might have left before the call, or the rows with those of the entries that the
    // call adds; after `Ok` the rows of the journal.
    ensures crash { IsShardExit K.is_honest K.may_leave
        (entries_by shard.old.journal caller (call_of call.now) (call_room (call_of call.now))) shard.old shard.new }
    ensures durable { OnOk result (LeavesOnly K.is_honest K.may_leave shard.new.keeper (stored shard.new.journal)) }
{
    match *call {
        ShardCall::Host(offered) => shard.host(caller, offered),
        ShardCall::Send(sending, origin, offered) => shard.send(caller, sending, origin, offered),
        ShardCall::Ask(question) => {
            // It is called for what it ensures.
            shards_outlast_a_crash(shard);
            shard.ask(question.origin, question.moment, question.query)
        }
    }
}
