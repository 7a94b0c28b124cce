// The events of a transaction, which are offered to their rooms.
ghost use Rattle.std.specs.Prelude.{◌≡◌, ◌++◌, ◌∷◌, [], List, IfErr, IfOk, OnOk, OnErr, length};
ghost use Rattle.mx_world.specs.Replies.{body_of};
ghost use Rattle.mx_world.specs.declared.answers.Told.{Told as ToldOf};
ghost use Rattle.mx_engine.specs.Berths.{AddNothing, views_of};
ghost use Rattle.mx_engine.specs.Offering.{AreOfOne, FirstOffered};
ghost use Rattle.mx_engine.specs.Turns.{AreAtShards, StayAtShards, IsOfferedBy, AreOfferedBy, IsAbortedBy};

use crate::calls::{ShardCall, ShardTurns};
use crate::docked::DockedShard;
use crate::event_places::are_several;
use crate::gates::Gate;
use mx_dock::Berth;
use mx_ident::ServerName;
use mx_keeper::{CallError, Keeper, Reply, ShardRow};
use mx_pdu::Offered;
use mx_shard::Sending;
use mx_world::{Told, outcome_of, reply_body};
use std::alloc::Global;
use std::sync::Wait;
use std::thread::Threads;

/// What a caller offers the events of a server with.
#[derive(Drop)]
pub(crate) struct Offering<'a, R, K: Keeper<Row = ShardRow>, G> {
    pub turns: ShardTurns<'a, R, K, G>,
    pub origin: &'a ServerName,
}

// ---- all events

impl<R: Threads + Wait + Sync, K: Keeper<Row = ShardRow> + Send, G: Gate + Sync> Offering<
    '_,
    R,
    K,
    G,
> {
    /// Offers each event to its room, those of each shard in their order, and gives the reply that they call for, twice.
    pub(crate) fn reply_to(
        &self,
        alloc: Global,
        berths: &mut Vec<Berth<DockedShard<K>>>,
        events: &[Offered],
    ) -> Result<(Reply, Reply), CallError>
        requires { AreAtShards self.now.turns berths.old.items }
        ensures berths { StayAtShards self.now.turns berths.old.items berths.new.items }
        ensures ok { IfOk result
            (λ replies. (told : List ToldOf) × AreOfferedBy self.now events.now berths.old.items berths.new.items told
            × (replies.0 ≡ body_of told) × (replies.1 ≡ body_of told)) }
        ensures err { IfErr result (IsAbortedBy self.now events.now berths.old.items berths.new.items) }
    {
        let told = self.offer_all(alloc, berths, events)?;
        let reply = reply_body(alloc, &told)?;
        let kept = reply.clone()?;
        Ok((reply, kept))
    }

    // Offers each event to its room, those of each shard in their order, and tells of each in the order of the events.
    // Several shards go one beside the other.
    fn offer_all(
        &self,
        alloc: Global,
        berths: &mut Vec<Berth<DockedShard<K>>>,
        events: &[Offered],
    ) -> Result<Vec<Told>, CallError>
        requires { AreAtShards self.now.turns berths.old.items }
        ensures berths { StayAtShards self.now.turns berths.old.items berths.new.items }
        ensures ok { IfOk result (λ told. AreOfferedBy self.now events.now berths.old.items berths.new.items told.items) }
        ensures err { IfErr result (IsAbortedBy self.now events.now berths.old.items berths.new.items) }
    {
        if are_several(events, self.turns.docks.len()) {
            return self.offer_side_by_side(alloc, berths, events);
        }
        self.offer_in_turn(alloc, berths, events)
    }
}

// ---- one event after the other

impl<R: Wait, K: Keeper<Row = ShardRow>, G: Gate> Offering<'_, R, K, G> {
    // Offers each event to its room, one after the other, and tells of each. All are of rooms of one shard.
    fn offer_in_turn(
        &self,
        alloc: Global,
        berths: &mut Vec<Berth<DockedShard<K>>>,
        events: &[Offered],
    ) -> Result<Vec<Told>, CallError>
        requires seated { AreAtShards self.now.turns berths.old.items }
        requires one { AreOfOne (length self.now.turns.docks.now) events.now }
        ensures berths { StayAtShards self.now.turns berths.old.items berths.new.items }
        ensures ok { IfOk result (λ told. AreOfferedBy self.now events.now berths.old.items berths.new.items told.items) }
        ensures err { IfErr result (IsAbortedBy self.now events.now berths.old.items berths.new.items) }
    {
        let mut told = Vec::new(alloc);
        self.offer_each(berths, events, &mut told)?;
        Ok(told)
    }

    // Offers each event to its room, in their order, and tells of each.
    fn offer_each(
        &self,
        berths: &mut Vec<Berth<DockedShard<K>>>,
        events: &[Offered],
        told: &mut Vec<Told>,
    ) -> Result<(), CallError>
        requires { AreAtShards self.now.turns berths.old.items }
        ensures berths { StayAtShards self.now.turns berths.old.items berths.new.items }
        ensures ok { OnOk result
            ((later : List ToldOf) × AreOfferedBy self.now events.now berths.old.items berths.new.items later
            × (told.new.items ≡ told.old.items ++ later)) }
        ensures err { OnErr result
            (FirstOffered self.now.turns.caller self.now.origin.now events.now (views_of berths.old.items)
            (views_of berths.new.items)) }
    {
        for offered in events {
            self.offer_next(berths, offered, told)?;
        }
        Ok(())
    }

    // Offers one event to its room, and tells of it.
    fn offer_next(
        &self,
        berths: &mut Vec<Berth<DockedShard<K>>>,
        offered: &Offered,
        told: &mut Vec<Told>,
    ) -> Result<(), CallError>
        requires { AreAtShards self.now.turns berths.old.items }
        ensures berths { StayAtShards self.now.turns berths.old.items berths.new.items }
        ensures ok { OnOk result
            ((one : ToldOf) × IsOfferedBy self.now offered.now berths.old.items berths.new.items one
            × (told.new.items ≡ told.old.items ++ one ∷ [])) }
        ensures err { OnErr result (AddNothing berths.old.items berths.new.items) }
    {
        // What it is told has its room before the event is offered: behind a fault no event was kept.
        told.reserve(1)?;
        let one = self.offer_one(berths, offered)?;
        told.push_reserved(one);
        Ok(())
    }

    // Offers one event to its room.
    fn offer_one(
        &self,
        berths: &mut Vec<Berth<DockedShard<K>>>,
        offered: &Offered,
    ) -> Result<Told, CallError>
        requires { AreAtShards self.now.turns berths.old.items }
        ensures berths { StayAtShards self.now.turns berths.old.items berths.new.items }
        ensures ok { IfOk result (IsOfferedBy self.now offered.now berths.old.items berths.new.items) }
        ensures err { OnErr result (AddNothing berths.old.items berths.new.items) }
    {
        let id = offered.id.clone()?;
        let room = offered.pdu.room_id();
        let call = ShardCall::Send(Sending::Offer, self.origin, offered);
        let answer = self.turns.call_in(berths, room, &call)?;
        Ok(Told {
            id,
            outcome: outcome_of(answer),
        })
    }
}
