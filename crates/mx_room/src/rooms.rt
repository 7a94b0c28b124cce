// One room.
ghost use Rattle.std.specs.Prelude.{◌≡◌, ◌↔◌, IfOk, IsErrOf, IsTrue, None, OnErr, OnOk, Option, Some, codes, is_ok, length, option_copied, option_map};
ghost use Rattle.mx_pdu.specs.Event.{has_kind, room_of};
ghost use Rattle.mx_graph.specs.Record.{place_of};
ghost use Rattle.mx_receipt.specs.Receipt as receipt;
ghost use Rattle.mx_receipt.specs.Receipt.{Kept, rows_of};
ghost use Rattle.mx_room.specs.Hosting.{host_error, reopen_error};
ghost use Rattle.mx_access.specs.Acl as access;
ghost use Rattle.mx_room.specs.Joins.{join_reply, row_by_join, takes_memory};
ghost use Rattle.mx_room.specs.Offer.{allowed_outcome, is_kept, offer_outcome, refusal_by, refusal_error, row_by};
ghost use Rattle.mx_room.specs.Queries.{query_answer, room_version};
ghost use Rattle.mx_room.specs.RoomView.{IsHosted, create_id, has_event};
ghost use Rattle.mx_room.specs.declared.hosting.NotARoom.{NotARoom as Cause};
ghost use Rattle.mx_receipt.specs.declared.refusals.NotReceived.{NotReceived as WhyNot};

use crate::hosting::{HostError, hosting_fault, reopening_fault};
use crate::joining::{JoinReply, prepare_join_in};
use crate::kept_forms::kept_form;
use crate::moments::Moment;
use crate::outcomes::{Outcome, Refusal};
use crate::queries::answering::answer_in;
use crate::queries::{Denied, Query, QueryReply};
use mx_access::acl_allows;
use mx_auth::RoomVersion;
use mx_graph::EventNo;
use mx_ident::{EventId, RoomId, ServerName};
use mx_pdu::{Offered, Pdu};
use mx_receipt::{NotReceived, OfferError, Timeline, Verdict};
use std::alloc::{AllocError, Global};
use std::marker::Model;

/// A room that is hosted.
///
/// An event can be received in one step ([`receive`](Room::receive)), or in two: [`prepare`](Room::prepare) makes
/// whatever needs memory, and [`install`](Room::install), which needs none, adds the event.
#[derive(Debug, Drop)]
pub struct Room {
    id: RoomId,
    timeline: Timeline,
}

impl Model for Room {
    ghost use Rattle.mx_room.specs.RoomView.{RoomView, room_code, IsHosted};

    ghost Value = { RoomView };

    ghost coded = { room_code };

    ghost view = { λ room. record { id = room.id; kept = room.timeline.kept; prepared = room.timeline.prepared } };

    ghost invariant = { λ room. IsHosted room.timeline.kept };
}

impl Room {
    /// The room that a create event makes.
    ///
    /// `NotARoom` with the first cause that holds, and `Memory`.
    pub fn host(alloc: Global, offered: &Offered) -> Result<Room, HostError>
        ensures hosted { IfOk result (λ room. room ≡ record {
          id = room_of offered.now.pdu;
          kept = receipt.begun offered.now.id offered.now.pdu;
          prepared = None;
        }) }
        ensures free { OnOk result (host_error offered.now ≡ None) }
        ensures refused { (cause : Cause) → (IsErrOf result (HostError.NotARoom cause) ↔ (host_error offered.now ≡ Some cause)) }
    {
        if let Some(error) = hosting_fault(offered) {
            return Err(HostError::NotARoom(error));
        }
        let room = begun(alloc, offered)?;
        Ok(room)
    }

    /// The room whose create event was kept. Neither its signature nor its content hash is asked again.
    ///
    /// The errors are those of [`host`](Room::host).
    pub fn reopen(alloc: Global, event: Pdu, id: EventId) -> Result<Room, HostError>
        ensures reopened { IfOk result (λ room. room ≡ record {
          id = room_of event;
          kept = receipt.begun id event;
          prepared = None;
        }) }
        ensures free { OnOk result (reopen_error event ≡ None) }
        ensures refused { (cause : Cause) → (IsErrOf result (HostError.NotARoom cause) ↔ (reopen_error event ≡ Some cause)) }
    {
        if let Some(error) = reopening_fault(&event) {
            return Err(HostError::NotARoom(error));
        }
        let room = reopened(alloc, event, id)?;
        Ok(room)
    }

    /// Adds an event that the room kept, behind those that it has, and gives the verdict on it by them. Neither its
    /// signature, its content hash nor the access control list is asked again.
    ///
    /// `NotReceived` with the first cause that holds, and `Memory`; at an error the room stays. Source: the Matrix
    /// specification, Server-Server API, "Checks performed on receipt of a PDU".
    pub fn reopen_event(&mut self, event: Pdu, id: EventId) -> Result<Verdict, OfferError>
        ensures verdict { IfOk result (λ verdict. verdict ≡ receipt.verdict self.old.kept event) }
        ensures added { OnOk result (self.new ≡ record {
          id = self.old.id;
          kept = receipt.received self.old.kept (id, event);
          prepared = None;
        }) }
        ensures free { OnOk result (receipt.offer_error (rows_of self.old.kept) id event ≡ None) }
        ensures refused { (cause : WhyNot) → (IsErrOf result (OfferError.NotReceived cause)
            ↔ (receipt.offer_error (rows_of self.old.kept) id event ≡ Some cause)) }
        ensures err { OnErr result (self.new ≡ record { id = self.old.id; kept = self.old.kept; prepared = None }) }
    {
        self.timeline.offer(event, id)
    }

    /// What becomes of an event that a server offers, which is kept where it can be.
    ///
    /// `AllocError` where the event is kept and no memory is left for it; the room stays. Any other outcome takes no
    /// memory.
    ///
    /// Source: the Matrix specification, Server-Server API, "Checks performed on receipt of a PDU".
    pub fn receive(
        &mut self,
        alloc: Global,
        origin: &ServerName,
        offered: &Offered,
    ) -> Result<Outcome, AllocError>
        ensures outcome { IfOk result (λ outcome. outcome ≡ offer_outcome self.old.kept origin.now offered.now) }
        ensures received { OnOk result (self.new ≡ record {
          id = self.old.id;
          kept = receipt.installed self.old.kept (row_by offered.now (offer_outcome self.old.kept origin.now offered.now));
          prepared = None;
        }) }
        ensures memory { OnErr result (IsTrue (is_kept (offer_outcome self.old.kept origin.now offered.now))) }
        ensures err { OnErr result (self.new ≡ record { id = self.old.id; kept = self.old.kept; prepared = None }) }
    {
        let outcome = self.prepare(alloc, origin, offered);
        self.install();
        outcome
    }

    /// What becomes of an event that a server offers: whatever needs memory to keep it is made, and nothing else changes.
    /// An event that was prepared before is given up.
    ///
    /// The error is that of [`receive`](Room::receive).
    pub fn prepare(
        &mut self,
        alloc: Global,
        origin: &ServerName,
        offered: &Offered,
    ) -> Result<Outcome, AllocError>
        ensures outcome { IfOk result (λ outcome. outcome ≡ offer_outcome self.old.kept origin.now offered.now) }
        ensures prepared { OnOk result (self.new ≡ record {
          id = self.old.id;
          kept = self.old.kept;
          prepared = row_by offered.now (offer_outcome self.old.kept origin.now offered.now);
        }) }
        ensures memory { OnErr result (IsTrue (is_kept (offer_outcome self.old.kept origin.now offered.now))) }
        ensures err { OnErr result (self.new ≡ record { id = self.old.id; kept = self.old.kept; prepared = None }) }
    {
        prepare_in(alloc, &mut self.timeline, origin, offered)
    }

    /// The reply to a join that a server sends, which is kept where it can be.
    ///
    /// A join whose sender is a user of another server is not offered. Any other one is offered as by
    /// [`receive`](Room::receive). `AllocError` where the event is kept, or the server is given an answer, and no memory
    /// is left for it; the room stays. Any other reply takes no memory.
    ///
    /// Source: the Matrix specification, Server-Server API, "Joining Rooms".
    pub fn join(
        &mut self,
        alloc: Global,
        origin: &ServerName,
        offered: &Offered,
    ) -> Result<JoinReply, AllocError>
        ensures reply { IfOk result (λ reply. reply ≡ join_reply self.old.kept origin.now offered.now) }
        ensures joined { OnOk result (self.new ≡ record {
          id = self.old.id;
          kept = receipt.installed self.old.kept (row_by_join offered.now (join_reply self.old.kept origin.now offered.now));
          prepared = None;
        }) }
        ensures memory { OnErr result (IsTrue (takes_memory (join_reply self.old.kept origin.now offered.now))) }
        ensures err { OnErr result (self.new ≡ record { id = self.old.id; kept = self.old.kept; prepared = None }) }
    {
        let reply = self.prepare_join(alloc, origin, offered);
        self.install();
        reply
    }

    /// The reply to a join that a server sends: whatever needs memory to keep the event is made, and nothing else
    /// changes. An event that was prepared before is given up.
    ///
    /// The error is that of [`join`](Room::join).
    pub fn prepare_join(
        &mut self,
        alloc: Global,
        origin: &ServerName,
        offered: &Offered,
    ) -> Result<JoinReply, AllocError>
        ensures reply { IfOk result (λ reply. reply ≡ join_reply self.old.kept origin.now offered.now) }
        ensures prepared { OnOk result (self.new ≡ record {
          id = self.old.id;
          kept = self.old.kept;
          prepared = row_by_join offered.now (join_reply self.old.kept origin.now offered.now);
        }) }
        ensures memory { OnErr result (IsTrue (takes_memory (join_reply self.old.kept origin.now offered.now))) }
        ensures err { OnErr result (self.new ≡ record { id = self.old.id; kept = self.old.kept; prepared = None }) }
    {
        prepare_join_in(alloc, &mut self.timeline, origin, offered)
    }

    /// Adds the event that is prepared. It takes no memory.
    pub fn install(&mut self)
        ensures { self.new ≡ record { id = self.old.id; kept = receipt.installed self.old.kept self.old.prepared; prepared = None } }
    {
        self.timeline.install();
    }

    /// Gives up an event that is prepared. It takes no memory.
    pub fn discard(&mut self)
        ensures { self.new ≡ record { id = self.old.id; kept = self.old.kept; prepared = None } }
    {
        self.timeline.discard();
    }

    /// The event that is prepared, in the form in which it would be kept; none where none is prepared. It takes no
    /// memory.
    pub fn prepared_event(&self) -> Option<&Pdu>
        ensures { option_copied result ≡ option_map (λ (kept : Kept). kept.event) self.now.prepared }
    {
        self.timeline.prepared_event()
    }

    /// Its id.
    pub fn id(&self) -> &RoomId
        ensures { result.now ≡ self.now.id }
    {
        &self.id
    }

    /// How many events it has.
    pub fn len(&self) -> usize
        ensures { result ≡ length self.now.kept }
    {
        self.timeline.len()
    }

    /// The id of its create event.
    pub fn create_id(&self) -> &EventId
        ensures id { result.now ≡ create_id self.now.kept }
        // It has an event.
        ensures hosted { IsHosted self.now.kept }
    {
        &self.timeline.row(EventNo::at(0)).id
    }

    /// Its version, which its create event names. It takes no memory.
    ///
    /// Source: the Matrix specification, `m.room.create`.
    pub fn version(&self) -> RoomVersion
        ensures { result ≡ room_version self.now.kept }
    {
        self.timeline.version()
    }

    /// Whether it has an event with this id. One that is prepared does not count. It takes no memory, and the time is
    /// that of a look-up among the events.
    pub fn holds(&self, id: &EventId) -> bool
        ensures { result ≡ has_event self.now.kept id.now }
    {
        self.timeline.find(id).is_some()
    }

    /// Its events under their verdicts, and the one that is prepared. There is at least one event.
    pub fn timeline(&self) -> &Timeline
        ensures timeline { result.now ≡ record { kept = self.now.kept; prepared = self.now.prepared } }
        ensures hosted { IsHosted self.now.kept }
    {
        &self.timeline
    }

    /// Its events under their verdicts. They make a room: there is at least one.
    pub fn into_timeline(self) -> Timeline
        ensures timeline { result ≡ record { kept = self.kept; prepared = self.prepared } }
        ensures hosted { IsHosted self.kept }
    {
        let Room { timeline, .. } = self;
        timeline
    }

    /// The answer to a server's query, at a moment. `AllocError` where it gives something and no memory is left for it:
    /// whatever denies it is asked first, and takes no memory.
    ///
    /// The room's access control list is asked for every query but one for an event by its id alone, then whether the
    /// server is in the room, then whether the event is held. For a join it is asked, after that list, whether the user is
    /// of the server, whether the server knows version 6 of rooms, and whether the authorization rules allow the join in
    /// the room's current state; the server need not be in the room. Source: the Matrix specification, Server-Server API,
    /// "Retrieving events", "Backfilling and retrieving missing events", "Joining Rooms", and "Server Access Control
    /// Lists".
    pub fn ask(
        &self,
        alloc: Global,
        origin: &ServerName,
        now: Moment,
        query: &Query,
    ) -> Result<Result<QueryReply, Denied>, AllocError>
        ensures reply { IfOk result (λ reply. reply ≡ query_answer self.now.kept origin.now now query.now) }
        ensures memory { OnErr result (IsTrue (is_ok (query_answer self.now.kept origin.now now query.now))) }
    {
        answer_in(alloc, &self.timeline, origin, now, query)
    }
}

fn begun(alloc: Global, offered: &Offered) -> Result<Room, AllocError>
    requires { host_error offered.now ≡ None }
    ensures { IfOk result (λ room. room ≡ record {
      id = room_of offered.now.pdu;
      kept = receipt.begun offered.now.id offered.now.pdu;
      prepared = None;
    }) }
{
    let id = offered.pdu.room_id().clone()?;
    let event = offered.pdu.clone()?;
    let event_id = offered.id.clone()?;
    let timeline = Timeline::begin(alloc, event, event_id)?;
    Ok(Room { id, timeline })
}

// The room of a create event that was kept.
fn reopened(alloc: Global, event: Pdu, id: EventId) -> Result<Room, AllocError>
    requires { reopen_error event ≡ None }
    ensures { IfOk result (λ room. room ≡ record {
      id = room_of event;
      kept = receipt.begun id event;
      prepared = None;
    }) }
{
    let room_id = event.room_id().clone()?;
    let timeline = Timeline::begin(alloc, event, id)?;
    Ok(Room {
        id: room_id,
        timeline,
    })
}

/// [`Room::prepare`] of a room's timeline.
#[tactic(auto, unfolding(crate::specs::Offer::offer_outcome))]
pub(crate) fn prepare_in(
    alloc: Global,
    timeline: &mut Timeline,
    origin: &ServerName,
    offered: &Offered,
) -> Result<Outcome, AllocError>
    ensures outcome { IfOk result (λ outcome. outcome ≡ offer_outcome timeline.old.kept origin.now offered.now) }
    ensures prepared { OnOk result (timeline.new ≡ record {
      kept = timeline.old.kept;
      prepared = row_by offered.now (offer_outcome timeline.old.kept origin.now offered.now);
    }) }
    ensures memory { OnErr result (IsTrue (is_kept (offer_outcome timeline.old.kept origin.now offered.now))) }
    ensures err { OnErr result (timeline.new ≡ record { kept = timeline.old.kept; prepared = None }) }
{
    timeline.discard();
    if !acl_allows(timeline, origin) {
        return Ok(Outcome::Refused(Refusal::AccessList));
    }
    prepare_allowed(alloc, timeline, offered)
}

// What becomes of an event of a server that the access control list allows.
#[tactic(auto, unfolding(crate::specs::Offer::allowed_outcome))]
fn prepare_allowed(
    alloc: Global,
    timeline: &mut Timeline,
    offered: &Offered,
) -> Result<Outcome, AllocError>
    requires { timeline.old.prepared ≡ None }
    ensures outcome { IfOk result (λ outcome. outcome ≡ allowed_outcome timeline.old.kept offered.now) }
    ensures prepared { OnOk result (timeline.new ≡ record {
      kept = timeline.old.kept;
      prepared = row_by offered.now (allowed_outcome timeline.old.kept offered.now);
    }) }
    ensures memory { OnErr result (IsTrue (is_kept (allowed_outcome timeline.old.kept offered.now))) }
    ensures err { OnErr result (timeline.new ≡ record { kept = timeline.old.kept; prepared = None }) }
{
    if let Some(number) = timeline.find(&offered.id) {
        return Ok(Outcome::Known(timeline.verdict(number)));
    }
    if let Some(refusal) = refusal_in(timeline, offered) {
        return Ok(Outcome::Refused(refusal));
    }
    keep_in(alloc, timeline, offered)
}

// Why an event of a new id is not kept. Its redacted form would be refused alike: it has the same type, and cites the
// same events.
#[tactic(auto, unfolding(crate::specs::Offer::refusal_error))]
fn refusal_in(timeline: &Timeline, offered: &Offered) -> Option<Refusal>
    ensures { result ≡ refusal_error timeline.now.kept offered.now }
{
    if is_of_create_kind(&offered.pdu) {
        return Some(Refusal::SecondCreate);
    }
    if !offered.signed {
        return Some(Refusal::Signature);
    }
    match timeline.check(&offered.pdu, &offered.id) {
        Ok(()) => None,
        Err(cause) => Some(refusal_of(cause)),
    }
}

// Prepares an event that is not refused, in the form in which it is kept.
fn keep_in(alloc: Global, timeline: &mut Timeline, offered: &Offered) -> Result<Outcome, AllocError>
    requires new { place_of (rows_of timeline.old.kept) offered.now.id ≡ None }
    requires free { refusal_error timeline.old.kept offered.now ≡ None }
    requires ready { timeline.old.prepared ≡ None }
    ensures outcome { IfOk result (λ outcome. outcome ≡ allowed_outcome timeline.old.kept offered.now) }
    ensures prepared { OnOk result (timeline.new ≡ record {
      kept = timeline.old.kept;
      prepared = row_by offered.now (allowed_outcome timeline.old.kept offered.now);
    }) }
    ensures err { OnErr result (timeline.new ≡ record { kept = timeline.old.kept; prepared = None }) }
{
    let event = kept_form(alloc, offered)?;
    let id = offered.id.clone()?;
    let verdict = timeline.prepare_checked(event, id)?;
    Ok(Outcome::Kept(verdict))
}

fn is_of_create_kind(event: &Pdu) -> bool
    ensures { result ≡ has_kind (codes "m.room.create") event.now }
{
    event.kind() == "m.room.create"
}

// The refusal by a cause; the first two are asked before.
fn refusal_of(cause: NotReceived) -> Refusal
    ensures { result ≡ refusal_by cause }
{
    match cause {
        NotReceived::Known | NotReceived::SecondCreate => Refusal::SecondCreate,
        NotReceived::MissingEvents => Refusal::MissingEvents,
        NotReceived::RoomFull => Refusal::RoomFull,
    }
}
