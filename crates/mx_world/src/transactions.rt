// One transaction that is open.
ghost use Rattle.std.specs.Prelude.{◌≡◌, ◌++◌, ◌∷◌, ℕ, List, [], length, drop, IfOk, OnOk, OnErr};
ghost use Rattle.mx_shard.specs.LoneRoom.{record_alone};
ghost use Rattle.mx_world.specs.Calls.{offers};
ghost use Rattle.mx_world.specs.Replies.{waiting, next_reply};
ghost use Rattle.mx_world.specs.Worlds.{shard_journals, records_of};
ghost use Rattle.mx_world.specs.Storage.{NextFails, ShardsLast, OnlyAt, next_room};
ghost use Rattle.mx_world.specs.Crashes.{ShardsLeave, at_error, next_call};
ghost use Rattle.mx_world.specs.Parts.{shard_places, ArePlaced};
ghost use Rattle.mx_world.specs.Inside.{progress_after};

use crate::answers::Told;
use crate::rooms::offer_in;
use crate::steps::StepReply;
use mx_ident::ServerName;
use mx_keeper::{CallError, Keeper, ShardRow};
use mx_pdu::Offered;
use mx_shard::Shard;
use std::alloc::{AllocError, Global};
use std::marker::Model;

/// A transaction that is open: the events that it was opened with, and what was told of them so far.
#[derive(Debug, Drop)]
pub(crate) struct Transaction {
    events: Vec<Offered>,
    told: Vec<Told>,
}

impl Model for Transaction {
    ghost use Rattle.std.specs.Prelude.{length, drop};
    ghost use Rattle.mx_world.specs.View.{Progress};
    ghost use Rattle.mx_world.specs.Codes.{progress_code};

    ghost Value = { Progress };

    ghost coded = { progress_code };

    ghost view = { λ t. record { rest = drop (length t.told.items) t.events.items; told = t.told.items } };
}

impl Transaction {
    /// A transaction with copies of these events.
    pub fn begin(alloc: Global, events: &[Offered]) -> Result<Transaction, AllocError>
        ensures { IfOk result (λ transaction. transaction ≡ record { rest = events.now; told = [] }) }
    {
        let copies = copies_of(alloc, events)?;
        Ok(Transaction {
            events: copies,
            told: Vec::new(alloc),
        })
    }

    /// How many events are left.
    pub fn left(&self) -> usize
        ensures { result ≡ length self.now.rest }
    {
        left_of(&self.events, &self.told)
    }

    /// What was told so far.
    pub fn told(&self) -> &[Told]
        ensures { result.now ≡ self.now.told }
    {
        &self.told
    }

    /// Offers the next event, which a server sent, to its room.
    pub fn advance<K: Keeper<Row = ShardRow>>(
        &mut self,
        shards: &mut [Shard<K>],
        origin: &ServerName,
    ) -> Result<StepReply, CallError>
        requires { ArePlaced (shard_places shards.old) }
        ensures reply { IfOk result (λ r. r ≡ next_reply (records_of (shard_journals shards.old)) origin.now (waiting self.old.rest self.old.told)) }
        ensures progress { OnOk result (self.new ≡ progress_after (records_of (shard_journals shards.old)) origin.now self.old.rest self.old.told) }
        ensures records { OnOk result ((room : List ℕ) → records_of (shard_journals shards.new) room
            ≡ record_alone (records_of (shard_journals shards.old) room) (offers room origin.now self.old.rest)) }
        ensures err { OnErr result (self.new ≡ self.old) }
        ensures err_shards { OnErr result (shard_journals shards.new ≡ shard_journals shards.old) }
        ensures places { shard_places shards.new ≡ shard_places shards.old }
        ensures storage { result ≡ Err CallError.Storage → NextFails K.failed shards.old shards.new self.old.rest }
        ensures only { OnlyAt (next_room self.old.rest) shards.old shards.new }
        ensures last { ShardsLast K.failed shards.old shards.new }
        ensures crash { ShardsLeave K.is_honest K.may_leave (at_error result (next_call origin.now self.old.rest)) shards.old shards.new }
    {
        take_next(&self.events, &mut self.told, shards, origin)
    }
}

fn copies_of(alloc: Global, events: &[Offered]) -> Result<Vec<Offered>, AllocError>
    ensures { IfOk result (λ copies. copies.items ≡ events.now) }
{
    let mut copies = Vec::new(alloc);
    for offered in events {
        let copy = offered.clone()?;
        copies.push(copy)?;
    }
    Ok(copies)
}

fn left_of(events: &[Offered], told: &[Told]) -> usize
    ensures { result ≡ length (drop (length told.now) events.now) }
{
    if told.len() < events.len() {
        events.len() - told.len()
    } else {
        0
    }
}

// The first event that is left is offered to its room, and what became of it told. What can fail comes first.
fn take_next<K: Keeper<Row = ShardRow>>(
    events: &[Offered],
    told: &mut Vec<Told>,
    shards: &mut [Shard<K>],
    origin: &ServerName,
) -> Result<StepReply, CallError>
    requires { ArePlaced (shard_places shards.old) }
    ensures reply { IfOk result (λ r. r ≡ next_reply (records_of (shard_journals shards.old)) origin.now (waiting (drop (length told.old.items) events.now) told.old.items)) }
    ensures progress { OnOk result (record { rest = drop (length told.new.items) events.now; told = told.new.items }
        ≡ progress_after (records_of (shard_journals shards.old)) origin.now (drop (length told.old.items) events.now) told.old.items) }
    ensures records { OnOk result ((room : List ℕ) → records_of (shard_journals shards.new) room
        ≡ record_alone (records_of (shard_journals shards.old) room) (offers room origin.now (drop (length told.old.items) events.now))) }
    ensures err { OnErr result (told.new.items ≡ told.old.items) }
    ensures err_shards { OnErr result (shard_journals shards.new ≡ shard_journals shards.old) }
    ensures places { shard_places shards.new ≡ shard_places shards.old }
    ensures storage { result ≡ Err CallError.Storage → NextFails K.failed shards.old shards.new (drop (length told.old.items) events.now) }
    ensures only { OnlyAt (next_room (drop (length told.old.items) events.now)) shards.old shards.new }
    ensures last { ShardsLast K.failed shards.old shards.new }
    ensures crash { ShardsLeave K.is_honest K.may_leave (at_error result (next_call origin.now (drop (length told.old.items) events.now))) shards.old shards.new }
{
    let Some(offered) = events.get(told.len()) else {
        return Ok(StepReply::NoMore);
    };
    let told_id = offered.id.clone()?;
    let id = offered.id.clone()?;
    told.reserve(1)?;
    let outcome = offer_in(shards, origin, offered)?;
    told.push_reserved(Told {
        id: told_id,
        outcome,
    });
    Ok(StepReply::OfEvent(Told { id, outcome }))
}
