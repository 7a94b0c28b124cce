// A room's events, each with why it was received as it was.
ghost use Rattle.std.specs.Prelude.{◌≡◌, ◌↔◌, ◌&&◌, [], codes, is_none, true, false, IfOk, IfSome, IsErrOf, None, OnErr, OnOk, Some, option_map};
ghost use Rattle.mx_redact.specs.Fields.{is_text};
ghost use Rattle.mx_pdu.specs.Event.{auth_ids, has_kind, state_key_of};
ghost use Rattle.mx_auth.specs.Rules.{rules};
ghost use Rattle.mx_orders.specs.StateMap.{view};
ghost use Rattle.mx_receipt.specs.Receipt.{begun, created_version as created_version_of, kept_at, offer_error, received, rows_of};
ghost use Rattle.mx_receipt.specs.declared.refusals.NotReceived.{NotReceived as Cause};
ghost use Rattle.mx_audit.specs.Explaining.{verdict_by};
ghost use Rattle.mx_audit.specs.Told.{told, told_shown};
ghost use Rattle.mx_audit.specs.SoundTest.{has_none, sound_test};
ghost use Rattle.mx_receipt.specs.TimelineView.{IsSoundCreate};

use crate::audit_errors::AuditError;
use crate::explaining::{Explanation, explained};
use mx_auth::{RoomState, judge};
use mx_graph::{EventNo, Graph};
use mx_ident::EventId;
use mx_pdu::Pdu;
use mx_receipt::{Timeline, created_version};
use std::alloc::{AllocError, Global};
use std::marker::Model;

/// The events of a room in the order of their arrival, and why each was received as it was. Contracts see it as the record of
/// its events: what is told of each follows from that.
#[derive(Debug, Drop)]
pub struct RoomAudit {
    // No event is prepared.
    timeline: Timeline,
}

impl Model for RoomAudit {
    ghost use Rattle.std.specs.Prelude.{◌≡◌, List, None};
    ghost use Rattle.mx_receipt.specs.KeptCode.{record_code};
    ghost use Rattle.mx_receipt.specs.Receipt.{Kept};

    ghost Value = { List Kept };

    ghost coded = { record_code };

    ghost view = { λ audit. audit.timeline.kept };

    ghost invariant = { λ audit. audit.timeline.prepared ≡ None };
}

// The state of a room that has no event.
#[derive(Clone, Copy, Debug)]
struct NoState;

impl RoomState for NoState {
    ghost use Rattle.std.specs.Prelude.{[]};
    ghost use Rattle.mx_orders.specs.StateMap.{view};

    ghost state = { λ _. view [] [] };

    fn create_id(&self) -> Option<&EventId> {
        None
    }

    fn entry(&self, _kind: &str, _key: &str) -> Option<&Pdu> {
        None
    }
}

impl RoomAudit {
    /// The audit of a room that has its create event alone.
    ///
    /// `NotACreateEvent` where the event makes no room, and `Memory`.
    pub fn begin(alloc: Global, event: Pdu, id: EventId) -> Result<RoomAudit, AuditError>
        ensures begun { IfOk result (λ audit. audit ≡ begun id event) }
        ensures refused { IsErrOf result AuditError.NotACreateEvent ↔ (sound_test event ≡ false) }
        ensures received { (cause : Cause) → ¬ IsErrOf result (AuditError.NotReceived cause) }
    {
        if !is_sound_create(&event) {
            return Err(AuditError::NotACreateEvent);
        }
        let timeline = Timeline::begin(alloc, event, id)?;
        Ok(RoomAudit { timeline })
    }

    /// The audit of the events of a timeline, which were judged as they came, and are not judged again. An event that is
    /// prepared is given up. It takes no memory.
    pub fn of_timeline(timeline: Timeline) -> RoomAudit
        ensures { result ≡ timeline.kept }
    {
        let mut timeline = timeline;
        timeline.discard();
        RoomAudit { timeline }
    }

    /// Receives the room's next event, and judges it.
    ///
    /// `NotReceived` with the first cause that holds, and `Memory`; at an error the room stays. The time is that of
    /// [`Timeline::offer`].
    ///
    /// Source: the Matrix specification, Server-Server API, "Checks performed on receipt of a PDU".
    pub fn receive(&mut self, event: Pdu, id: EventId) -> Result<(), AuditError>
        ensures received { OnOk result (self.new ≡ received self.old (id, event)) }
        ensures free { OnOk result (offer_error (rows_of self.old) id event ≡ None) }
        ensures refused { (cause : Cause) → (IsErrOf result (AuditError.NotReceived cause)
            ↔ (offer_error (rows_of self.old) id event ≡ Some cause)) }
        ensures begun { ¬ IsErrOf result AuditError.NotACreateEvent }
        ensures err { OnErr result (self.new ≡ self.old) }
    {
        self.timeline.offer(event, id)?;
        Ok(())
    }

    /// The events under their verdicts.
    pub fn timeline(&self) -> &Timeline
        ensures { result.now.kept ≡ self.now }
    {
        &self.timeline
    }

    /// The events as a graph.
    pub fn graph(&self) -> &Graph
        ensures { result.now ≡ rows_of self.now }
    {
        self.timeline.graph()
    }

    /// Why the event with this number was received as it was: by the check that decides on it after the events that came
    /// before it, and what stood in that check's state. None for the create event, which begins the room, and where there
    /// is no such event. The verdict that the record has is that of the check. `AllocError` where no memory is left.
    ///
    /// The time is that of a look-up for each key that the rules ask for; of an event that was rejected also of one
    /// judgement by its auth events.
    pub fn explanation(
        &self,
        alloc: Global,
        number: EventNo,
    ) -> Result<Option<Explanation>, AllocError>
        ensures told { IfOk result (λ explanation. option_map told_shown explanation ≡ told self.now number) }
        ensures verdict { IfOk result (λ explanation. IfSome explanation (λ e. (kept_at self.now number).verdict ≡ verdict_by e.failed)) }
    {
        let place = number.index();
        if place == 0 {
            return Ok(None);
        }
        if place >= self.timeline.len() {
            return Ok(None);
        }
        let explanation = explained(alloc, &self.timeline, number)?;
        Ok(Some(explanation))
    }
}

// Whether an event is a create event that the rules allow and that cites no auth event.
fn is_sound_create(event: &Pdu) -> bool
    ensures sound { result ≡ true → IsSoundCreate event.now }
    ensures test { result ≡ sound_test event.now }
{
    passes_sound_test(event)
}

#[tactic(auto, unfolding(crate::specs::SoundTest::sound_test))]
fn passes_sound_test(event: &Pdu) -> bool
    ensures { result ≡ sound_test event.now }
{
    is_create(event) && (cites_nothing(event) && is_allowed(event))
}

// A create event, with the empty state key.
fn is_create(event: &Pdu) -> bool
    ensures { result ≡ (has_kind (codes "m.room.create") event.now && is_text [] (state_key_of event.now)) }
{
    event.kind() == "m.room.create" && event.state_key() == Some("")
}

fn cites_nothing(event: &Pdu) -> bool
    ensures { result ≡ has_none (auth_ids event.now) }
{
    event.auth_events().is_empty()
}

// Whether the rules allow it as the first event of a room.
fn is_allowed(event: &Pdu) -> bool
    ensures { result ≡ is_none (rules (created_version_of event.now) event.now (view [] [])) }
{
    judge(created_version(event), event, &NoState).is_ok()
}
