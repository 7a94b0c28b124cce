// Joins of users of other servers.
ghost use Rattle.std.specs.Prelude.{◌≡◌, ◌<◌, ◌||◌, IfOk, IsTrue, OnErr, OnOk, None, length, option_map};
ghost use Rattle.mx_graph.specs.Record.{place_of};
ghost use Rattle.mx_receipt.specs.Receipt.{installed, rows_of};
ghost use Rattle.mx_room.specs.Joins as definition;
ghost use Rattle.mx_room.specs.Joins.{join_reply, join_reply_by, row_by_join, takes_memory, with_offer};
ghost use Rattle.mx_room.specs.Offer.{is_kept, offer_outcome, row_by};

use crate::event_lists::EventList;
use crate::outcomes::Outcome;
use crate::queries::served_events::{all_served, served_event};
use crate::queries::state_queries::{chain_by_id, events_before};
use crate::rooms::prepare_in;
use mx_graph::EventNo;
use mx_ident::{EventId, ServerName};
use mx_pdu::{Offered, Pdu};
use mx_receipt::Timeline;
use std::alloc::{AllocError, Global};

/// What the server of a user who joined is given: the state before the join in the order of its keys, the auth chain of
/// that state's events and of the join in the order of its ids, and the join, each event as it is served.
///
/// Source: the Matrix specification, Server-Server API, "Joining Rooms".
#[derive(Debug, Drop)]
pub struct Joined {
    pub state: EventList,
    pub auth_chain: EventList,
    pub event: Pdu,
}

/// The reply to a join.
///
/// `NotOffered`: its sender is a user of another server than the one that sends it. `Offered`: what becomes of it, and,
/// where it is held and was accepted, what its server is given.
#[derive(Debug, Drop)]
pub enum JoinReply {
    NotOffered,
    Offered {
        outcome: Outcome,
        joined: Option<Joined>,
    },
}

/// The reply to a join that a server sends: whatever needs memory to keep the event is made, and nothing else changes.
#[tactic(auto, unfolding(crate::specs::Joins::join_reply))]
pub(crate) fn prepare_join_in(
    alloc: Global,
    timeline: &mut Timeline,
    origin: &ServerName,
    offered: &Offered,
) -> Result<JoinReply, AllocError>
    ensures reply { IfOk result (λ reply. reply ≡ join_reply timeline.old.kept origin.now offered.now) }
    ensures prepared { OnOk result (timeline.new ≡ record {
      kept = timeline.old.kept;
      prepared = row_by_join offered.now (join_reply timeline.old.kept origin.now offered.now);
    }) }
    ensures memory { OnErr result (IsTrue (takes_memory (join_reply timeline.old.kept origin.now offered.now))) }
    ensures err { OnErr result (timeline.new ≡ record { kept = timeline.old.kept; prepared = None }) }
{
    if offered.pdu.sender().server() != origin.as_str() {
        timeline.discard();
        return Ok(JoinReply::NotOffered);
    }
    offer_in(alloc, timeline, origin, offered)
}

// The reply to a join of a user of the server that sends it.
fn offer_in(
    alloc: Global,
    timeline: &mut Timeline,
    origin: &ServerName,
    offered: &Offered,
) -> Result<JoinReply, AllocError>
    ensures reply { IfOk result (λ reply. reply ≡ join_reply_by (with_offer timeline.old.kept origin.now offered.now)
        offered.now.id (offer_outcome timeline.old.kept origin.now offered.now)) }
    ensures prepared { OnOk result (timeline.new ≡ record {
      kept = timeline.old.kept;
      prepared = row_by offered.now (offer_outcome timeline.old.kept origin.now offered.now);
    }) }
    ensures memory { OnErr result (IsTrue (is_kept (offer_outcome timeline.old.kept origin.now offered.now)
        || definition.is_let_in (offer_outcome timeline.old.kept origin.now offered.now))) }
    ensures err { OnErr result (timeline.new ≡ record { kept = timeline.old.kept; prepared = None }) }
{
    let outcome = prepare_in(alloc, timeline, origin, offered)?;
    match joined_by(alloc, timeline, outcome, &offered.id) {
        Ok(joined) => Ok(JoinReply::Offered { outcome, joined }),
        Err(refused) => {
            timeline.discard();
            Err(refused)
        }
    }
}

// What the server is given where the outcome is this, by the timeline with the event that is prepared.
fn joined_by(
    alloc: Global,
    timeline: &mut Timeline,
    outcome: Outcome,
    id: &EventId,
) -> Result<Option<Joined>, AllocError>
    ensures joined { IfOk result (λ joined. joined
        ≡ definition.joined_by (installed timeline.old.kept timeline.old.prepared) id.now outcome) }
    ensures memory { OnErr result (IsTrue (definition.is_let_in outcome)) }
    ensures stays { timeline.new ≡ timeline.old }
{
    if !is_let_in(outcome) {
        return Ok(None);
    }
    timeline.as_installed(|after| joined_in(alloc, after, id))
}

fn is_let_in(outcome: Outcome) -> bool
    ensures { result ≡ definition.is_let_in outcome }
{
    match outcome {
        Outcome::Kept(verdict) | Outcome::Known(verdict) => verdict.is_accepted(),
        Outcome::Refused(_) => false,
    }
}

// What the server is given of the join with this id; nothing where the timeline does not have it.
fn joined_in(alloc: Global, timeline: &Timeline, id: &EventId) -> Result<Option<Joined>, AllocError>
    ensures { IfOk result (λ joined. joined ≡ option_map (definition.joined_at timeline.now.kept)
        (place_of (rows_of timeline.now.kept) id.now)) }
{
    match timeline.find(id) {
        Some(number) => {
            let joined = joined_at(alloc, timeline, number)?;
            Ok(Some(joined))
        }
        None => Ok(None),
    }
}

fn joined_at(alloc: Global, timeline: &Timeline, number: EventNo) -> Result<Joined, AllocError>
    requires { number < length timeline.now.kept }
    ensures { IfOk result (λ joined. joined ≡ definition.joined_at timeline.now.kept number) }
{
    let mut events = events_before(alloc, timeline, number)?;
    let state = all_served(alloc, timeline, &events)?;
    events.push(number)?;
    let chain = chain_by_id(alloc, timeline, &events)?;
    let auth_chain = all_served(alloc, timeline, &chain)?;
    let event = served_event(alloc, timeline, number)?;
    Ok(Joined {
        state,
        auth_chain,
        event,
    })
}
