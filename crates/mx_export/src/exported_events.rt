// Events as a log needs them.
ghost use Rattle.std.specs.Prelude.{◌≡◌, ◌↔◌, IfOk, IsErrOf, IsTrue, Some};
ghost use Rattle.serde_json.specs.Data.{object};
ghost use Rattle.serde_json.specs.Read.{read};
ghost use Rattle.serde_json.specs.View.{view, members_view};
ghost use Rattle.mx_canon.specs.Canonical.{canonical_text};
ghost use Rattle.mx_redact.specs.Hashes.{content_hash, event_id as event_id_of};
ghost use Rattle.mx_pdu.specs.Event.{auth_ids, prev_ids, room_of, sender_of};
ghost use Rattle.mx_pdu.specs.Format.{format_error, is_well_formed};
ghost use Rattle.mx_pdu.specs.declared.refusals.NotAnEvent.{NotAnEvent as Cause};
ghost use Rattle.mx_export.specs.ExportedEvents.{event_of, IsSound};
ghost use Rattle.mx_export.specs.RoomEvents.{is_create as is_create_event};

use crate::create_events::{is_create, version_in};
use crate::event_fields::{event_ids_at, id_by_hash, id_of, object_of, room_id_in, sender_in};
use mx_ident::{EventId, RoomId, UserId};
use mx_pdu::{Pdu, PduError};
use mx_redact::{Digests, digests_by_text};
use serde_json::{Map, Value};
use std::alloc::{AllocError, Global};
use std::marker::Model;
use std::sync::Arc;

/// An event that is well formed, as a log needs it: its canonical text, its id, and what it cites. Its content hash is not
/// worked out. Copies share it.
///
/// Source: the Matrix specification, Room Version 6, "Event format".
#[derive(Debug, Drop)]
pub struct ExportedEvent {
    parts: Arc<EventParts>,
}

// The event's canonical text, and what is worked out once of it.
#[derive(Debug, Drop)]
struct EventParts {
    text: Vec<u8>,
    id: EventId,
    room_id: RoomId,
    sender: UserId,
    prev_events: Vec<EventId>,
    auth_events: Vec<EventId>,
    is_create: bool,
    version: Option<String>,
}

impl Model for ExportedEvent {
    ghost use Rattle.serde_json.specs.Data.{Data};
    ghost use Rattle.mx_pdu.specs.DataCode.{data_code};

    ghost Value = { Data };

    ghost coded = { data_code };

    ghost use Rattle.std.specs.Arc.{arc_value};
    ghost use Rattle.mx_export.specs.ExportedEvents.{event_of, IsSound};

    ghost view = { λ event. event_of (arc_value event.parts) };

    ghost invariant = { λ event. IsSound (arc_value event.parts) };
}

impl ExportedEvent {
    /// The event that the value is.
    ///
    /// `NotAnEvent` with the cause that [`Pdu::check`] gives. The time is linear in the value's size. Source: the Matrix
    /// specification, Room Version 6, "Event format".
    pub fn from_value(alloc: Global, value: &Value) -> Result<ExportedEvent, PduError>
        ensures ok { IfOk result (λ event. event ≡ view value.now) }
        ensures refused { (cause : Cause)
            → (IsErrOf result (PduError.NotAnEvent cause) ↔ (format_error (view value.now) ≡ Some cause)) }
    {
        let text = Pdu::text_of_value(alloc, value)?;
        let id = id_of(alloc, object_of(value))?;
        let event = ExportedEvent::of_checked(alloc, value, text, id)?;
        Ok(event)
    }

    // The event that the value is, as `from_value` gives it, and its hashes, which are made of one text.
    pub(crate) fn with_digests(
        alloc: Global,
        value: &Value,
    ) -> Result<(ExportedEvent, Digests), PduError>
        ensures event { IfOk result (λ made. made.0 ≡ view value.now) }
        ensures hash { IfOk result (λ made. made.1.content ≡ content_hash (view value.now)) }
    {
        let text = Pdu::text_of_value(alloc, value)?;
        let digests = digests_by_text(alloc, object_of(value), &text)?;
        let id = id_by_hash(alloc, object_of(value), &digests.reference)?;
        let event = ExportedEvent::of_checked(alloc, value, text, id)?;
        Ok((event, digests))
    }

    // Of a value that is well formed, its canonical text and its id.
    fn of_checked(
        alloc: Global,
        value: &Value,
        text: Vec<u8>,
        id: EventId,
    ) -> Result<ExportedEvent, AllocError>
        requires well_formed { IsTrue (is_well_formed (view value.now)) }
        requires text { text.items ≡ canonical_text (view value.now) }
        requires reads { read text.items ≡ Some (view value.now) }
        requires id { id ≡ event_id_of (view value.now) }
        ensures { IfOk result (λ event. event ≡ view value.now) }
    {
        let whole = EventParts::of(alloc, object_of(value), text, id)?;
        let parts = Arc::new(alloc, whole)?;
        Ok(ExportedEvent { parts })
    }

    // Its canonical text.
    pub(crate) fn text(&self) -> &[u8]
        ensures { result.now ≡ canonical_text self.now }
    {
        &self.parts.text
    }

    // Its id.
    pub(crate) fn event_id(&self) -> &EventId
        ensures { result.now ≡ event_id_of self.now }
    {
        &self.parts.id
    }

    // The room that it is of.
    pub(crate) fn room_id(&self) -> &RoomId
        ensures { result.now ≡ room_of self.now }
    {
        &self.parts.room_id
    }

    // Who sent it.
    pub(crate) fn sender(&self) -> &UserId
        ensures { result.now ≡ sender_of self.now }
    {
        &self.parts.sender
    }

    // The events that it follows.
    pub(crate) fn prev_events(&self) -> &[EventId]
        ensures { result.now ≡ prev_ids self.now }
    {
        &self.parts.prev_events
    }

    // The events that it rests on.
    pub(crate) fn auth_events(&self) -> &[EventId]
        ensures { result.now ≡ auth_ids self.now }
    {
        &self.parts.auth_events
    }

    // Whether it may host a room: a create event, which cites no event.
    pub(crate) fn is_create(&self) -> bool
        ensures { result ≡ is_create_event self.now }
    {
        self.parts.is_create
    }

    // The room version that it names, where it may host a room and names one.
    pub(crate) fn version(&self) -> Option<&str> {
        self.parts.version.as_deref()
    }
}

impl EventParts {
    // Of an object that is well formed, its canonical text and its id.
    fn of(
        alloc: Global,
        event: &Map<String, Value>,
        text: Vec<u8>,
        id: EventId,
    ) -> Result<EventParts, AllocError>
        requires well_formed { IsTrue (is_well_formed (object (members_view event.now.entries))) }
        requires text { text.items ≡ canonical_text (object (members_view event.now.entries)) }
        requires reads { read text.items ≡ Some (object (members_view event.now.entries)) }
        requires id { id ≡ event_id_of (object (members_view event.now.entries)) }
        ensures sound { IfOk result IsSound }
        ensures event { IfOk result (λ parts. event_of parts ≡ object (members_view event.now.entries)) }
    {
        let room_id = room_id_in(alloc, event)?;
        let sender = sender_in(alloc, event)?;
        let prev_events = event_ids_at(alloc, event, "prev_events")?;
        let auth_events = event_ids_at(alloc, event, "auth_events")?;
        let is_create = is_create(event, &prev_events, &auth_events);
        let version = version_in(alloc, is_create, event)?;
        Ok(EventParts {
            text,
            id,
            room_id,
            sender,
            prev_events,
            auth_events,
            is_create,
            version,
        })
    }
}

impl Clone for ExportedEvent {
    ghost is_clone = { λ event copy. copy ≡ event };

    fn clone(&self) -> Result<ExportedEvent, AllocError> {
        let parts = Arc::try_clone(&self.parts)?;
        Ok(ExportedEvent { parts })
    }
}
