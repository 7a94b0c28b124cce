// Events.
ghost use Rattle.std.specs.Prelude.{◌≡◌, ◌≤◌, ◌↔◌, IfOk, IsErrOf, IsTrue, None, OnOk, Some, length, option_map, string_bytes};
ghost use Rattle.std.specs.Result.{result_err};
ghost use Rattle.serde_json.specs.Data.{Data, depth as nesting, object};
ghost use Rattle.serde_json.specs.Read.{max_depth, read, read as read_text};
ghost use Rattle.serde_json.specs.View.{view, members_view};
ghost use Rattle.mx_canon.specs.Canonical.{canonical_error, canonical_text, in_range, largest};
ghost use Rattle.mx_canon.specs.KeyOrder.{KeysRise};
ghost use Rattle.mx_redact.specs.Fields.{kind};
ghost use Rattle.mx_redact.specs.Hashes.{content_hash, event_id, hash_holds, reference_hash, signing_text};
ghost use Rattle.mx_redact.specs.Redaction.{redact as redacted_form};
ghost use Rattle.mx_pdu.specs.Event.{room_of, sender_of, state_key_of, content_of, prev_ids, auth_ids, depth_of, timestamp_of, redacts_of};
ghost use Rattle.mx_pdu.specs.Format.{format_error, has_readable_nesting, is_well_formed};
ghost use Rattle.mx_pdu.specs.EventParts.{IsHashedAs};
ghost use Rattle.mx_pdu.specs.Inside.{AreOf, event_of, IsSound};
ghost use Rattle.mx_pdu.specs.RuleContent.{rule_content};
ghost use Rattle.mx_pdu.specs.declared.refusals.NotAnEvent.{NotAnEvent as Cause};

use crate::assembling::EventParts;
use crate::checking::{check_canonical_format, check_format};
use crate::event_fields::EventFields;
use crate::hashes::{is_named, names_hash};
use crate::ids::{event_ids_at, redacted_id_in, room_id_of, user_id_of};
use crate::lookups::{depth_in, text_copied_from, text_or_empty_at, timestamp_in};
use crate::refusals::{NotAnEvent, PduError};
use crate::rule_contents::rule_content_at;
use crate::texts::{object_of, redacted_value, text_of, value_of};
use mx_ident::{EventId, RoomId, UserId};
use mx_redact::{Digests, EventKey, digests_by_text, id_with_hash};
use serde_json::{Map, Value};
use std::alloc::{AllocError, Global};
use std::marker::Model;
use std::sync::Arc;

/// An event that is well formed: its canonical text, and with it the fields that rules and queries ask for.
///
/// Source: the Matrix specification, Room Version 6, "Event format".
/// Copies share it: [`Clone`] copies no part of the event, and takes no memory.
#[derive(Debug, Drop)]
pub struct Pdu {
    parts: Arc<Parts>,
}

// The event's canonical text, and what is worked out once of it.
#[derive(Debug, Drop)]
struct Parts {
    text: String,
    kind: String,
    state_key: Option<String>,
    room_id: RoomId,
    sender: UserId,
    prev_events: Vec<EventId>,
    auth_events: Vec<EventId>,
    redacts: Option<String>,
    depth: u64,
    origin_server_ts: i64,
    content: Map<String, Value>,
    reference: [u8; 32],
    hash_holds: bool,
}

impl Model for Pdu {
    ghost use Rattle.serde_json.specs.Data.{Data, object};
    ghost use Rattle.mx_pdu.specs.DataCode.{data_code};

    ghost Value = { Data };

    ghost coded = { data_code };

    ghost use Rattle.std.specs.Arc.{arc_value};
    ghost use Rattle.mx_pdu.specs.Inside.{event_of, IsSound};

    ghost view = { λ pdu. event_of (arc_value pdu.parts) };

    ghost invariant = { λ pdu. IsSound (arc_value pdu.parts) };
}

impl Pdu {
    /// The event that the value is.
    ///
    /// `NotAnEvent` with the cause that [`Pdu::check`] gives. The time is linear in the value's size.
    pub fn from_value(alloc: Global, value: Value) -> Result<Pdu, PduError>
        ensures ok { IfOk result (λ pdu. pdu ≡ view value) }
        ensures format { OnOk result (format_error (view value) ≡ None) }
        // It is tested first, so that memory may run out only where the value is an event.
        ensures refused { (cause : Cause)
            → (IsErrOf result (PduError.NotAnEvent cause) ↔ (format_error (view value) ≡ Some cause)) }
    {
        let fields = check_format(&value)?;
        let text = text_of(alloc, &value)?;
        let made = Pdu::of_checked(alloc, &fields, text)?;
        Ok(made.0)
    }

    /// The event that a value is whose canonical text is at hand, as [`Pdu::from_value`] gives it, with no walk over
    /// its numbers and no count of its text. The event keeps the text.
    pub fn from_canonical(alloc: Global, value: Value, text: String) -> Result<Pdu, PduError>
        requires canonical { canonical_error (view value) ≡ None }
        requires keys { KeysRise (view value) }
        requires text { string_bytes text ≡ canonical_text (view value) }
        requires reads { nesting (view value) ≤ max_depth → read (string_bytes text) ≡ Some (view value) }
        ensures ok { IfOk result (λ pdu. pdu ≡ view value) }
        ensures format { OnOk result (format_error (view value) ≡ None) }
        ensures refused { (cause : Cause)
            → (IsErrOf result (PduError.NotAnEvent cause) ↔ (format_error (view value) ≡ Some cause)) }
    {
        let fields = check_canonical_format(&value, text.as_bytes())?;
        let made = Pdu::of_checked(alloc, &fields, text)?;
        Ok(made.0)
    }

    // Of the fields of an event that is well formed, and its canonical text.
    pub(crate) fn of_checked(
        alloc: Global,
        fields: &EventFields<'_>,
        text: String,
    ) -> Result<(Pdu, Digests), AllocError>
        requires well_formed { IsTrue (is_well_formed (object (members_view fields.now.members.now.entries))) }
        requires keys { KeysRise (object (members_view fields.now.members.now.entries)) }
        requires text { string_bytes text ≡ canonical_text (object (members_view fields.now.members.now.entries)) }
        requires reads { read (string_bytes text) ≡ Some (object (members_view fields.now.members.now.entries)) }
        ensures ok { IfOk result (λ made. made.0 ≡ object (members_view fields.now.members.now.entries)) }
        ensures reference { IfOk result (λ made. made.1.reference
            ≡ reference_hash (object (members_view fields.now.members.now.entries))) }
        ensures text { IfOk result (λ made. made.1.signing_text.items
            ≡ signing_text (object (members_view fields.now.members.now.entries))) }
    {
        let digests = digests_by_text(alloc, fields.members, text.as_bytes())?;
        let whole = Parts::of(alloc, fields, text, &digests)?;
        let parts = Arc::new(alloc, whole)?;
        Ok((Pdu { parts }, digests))
    }

    // Of what was read of an event that is well formed, its canonical text and its hashes.
    pub(crate) fn of_parts(
        alloc: Global,
        read: EventParts<'_>,
        text: String,
        digests: &Digests,
    ) -> Result<Pdu, AllocError>
        requires { (event : Data) × IsHashedAs (string_bytes text) read digests.now event }
        ensures { IfOk result (λ pdu. read_text (string_bytes text) ≡ Some pdu) }
    {
        let parts = Arc::new(alloc, Parts::of_read(read, text, digests))?;
        Ok(Pdu { parts })
    }

    /// Why the value is no event of room version 6, if it is none. It takes no memory.
    ///
    /// In this order: `NotAnObject`; `NotCanonical`; `TextTooLong`, over 65,536 bytes; `WrongField`, a field missing
    /// or of a wrong kind; `OverLimit`. An id text that is no id whatever its length is of a wrong kind. Source: the
    /// Matrix specification, Room Version 6, "Event format", and Client-Server API, "Size limits".
    pub fn check(value: &Value) -> Result<(), NotAnEvent>
        ensures { result_err result ≡ format_error (view value.now) }
    {
        check_format(value)?;
        Ok(())
    }

    /// Its type.
    pub fn kind(&self) -> &str
        ensures { result.now ≡ kind self.now }
    {
        &self.parts.kind
    }

    /// The room that it is of.
    pub fn room_id(&self) -> &RoomId
        ensures { result.now ≡ room_of self.now }
    {
        &self.parts.room_id
    }

    /// Who sent it.
    pub fn sender(&self) -> &UserId
        ensures { result.now ≡ sender_of self.now }
    {
        &self.parts.sender
    }

    /// Its state key, which a state event has and no other event.
    pub fn state_key(&self) -> Option<&str>
        ensures { option_map (λ key. key.now) result ≡ state_key_of self.now }
    {
        match &self.parts.state_key {
            Some(key) => Some(key.as_str()),
            None => None,
        }
    }

    /// What the authorization rules, the power levels, the history visibility and the access lists read of its
    /// content: its members at the keys of `rule_keys`, in events of all types.
    ///
    /// Source: the Matrix specification, Room Version 6, "Authorization rules", `m.room.power_levels`,
    /// `m.room.history_visibility` and `m.room.server_acl`.
    pub fn content(&self) -> &Map<String, Value>
        ensures { object (members_view result.now.entries) ≡ rule_content (content_of self.now) }
    {
        &self.parts.content
    }

    /// The events that it follows, in its order, at most 20.
    pub fn prev_events(&self) -> &[EventId]
        ensures ids { result.now ≡ prev_ids self.now }
        ensures most { length result.now ≤ 20 }
    {
        &self.parts.prev_events
    }

    /// The events that it rests on, in its order, at most 10.
    pub fn auth_events(&self) -> &[EventId]
        ensures ids { result.now ≡ auth_ids self.now }
        ensures most { length result.now ≤ 10 }
    {
        &self.parts.auth_events
    }

    /// Its depth, at most 2^53 - 1.
    pub fn depth(&self) -> u64
        ensures depth { result ≡ depth_of self.now }
        ensures most { result ≤ largest }
    {
        self.parts.depth
    }

    /// When its server made it, in milliseconds since 1970, from -(2^53 - 1) to 2^53 - 1.
    pub fn origin_server_ts(&self) -> i64
        ensures timestamp { result ≡ timestamp_of self.now }
        ensures range { IsTrue (in_range result) }
    {
        self.parts.origin_server_ts
    }

    /// The event that a redaction names, where `redacts` is an event id.
    pub fn redacts(&self) -> Option<&str>
        ensures { option_map (λ id. id.now) result ≡ redacts_of self.now }
    {
        match &self.parts.redacts {
            Some(id) => Some(id.as_str()),
            None => None,
        }
    }

    /// Whether the text at `sha256` in `hashes` is the unpadded standard base64 of its content hash. It takes no
    /// memory.
    ///
    /// Source: the Matrix specification, Server-Server API, "Calculating the content hash for an event".
    pub fn hash_holds(&self) -> bool
        ensures { result ≡ hash_holds self.now }
    {
        self.parts.hash_holds
    }

    /// Its id: `$` and the unpadded URL-safe base64 of its reference hash.
    ///
    /// Source: the Matrix specification, Room Version 4, "Event IDs".
    pub fn event_id(&self, alloc: Global) -> Result<EventId, AllocError>
        ensures { IfOk result (λ id. id ≡ event_id self.now) }
    {
        id_with_hash(alloc, &self.parts.reference)
    }

    /// Its redacted form, with the same ids. It is made of the event's text, which is read.
    ///
    /// Source: the Matrix specification, Room Version 6, "Redactions".
    pub fn redacted(&self, alloc: Global) -> Result<Pdu, AllocError>
        ensures { IfOk result (λ pdu. pdu ≡ redacted_form self.now) }
    {
        let event = self.value(alloc)?;
        let redacted = redacted_value(alloc, &event)?;
        let text = text_of(alloc, &redacted)?;
        let fields = EventFields::of(object_of(&redacted));
        let made = Pdu::of_checked(alloc, &fields, text)?;
        Ok(made.0)
    }

    /// Its canonical text, which reads as the event.
    ///
    /// Source: the Matrix specification, appendix "Canonical JSON".
    pub fn text(&self) -> &str
        ensures text { result.now ≡ canonical_text self.now }
        ensures reads { read result.now ≡ Some self.now }
        ensures well_formed { IsTrue (is_well_formed self.now) }
        ensures nesting { IsTrue (has_readable_nesting self.now) }
        ensures keys { KeysRise self.now }
    {
        &self.parts.text
    }

    // The event as a value, read from its text.
    pub(crate) fn value(&self, alloc: Global) -> Result<Value, AllocError>
        ensures event { IfOk result (λ value. view value ≡ self.now) }
        ensures well_formed { IsTrue (is_well_formed self.now) }
        ensures keys { KeysRise self.now }
    {
        value_of(alloc, &self.parts.text)
    }
}

impl Parts {
    // Of the fields of an event that is well formed, its canonical text and its hashes. The text is kept with no room to
    // spare.
    fn of(
        alloc: Global,
        fields: &EventFields<'_>,
        text: String,
        digests: &Digests,
    ) -> Result<Parts, AllocError>
        requires well_formed { IsTrue (is_well_formed (object (members_view fields.now.members.now.entries))) }
        requires keys { KeysRise (object (members_view fields.now.members.now.entries)) }
        requires text { string_bytes text ≡ canonical_text (object (members_view fields.now.members.now.entries)) }
        requires reads { read (string_bytes text) ≡ Some (object (members_view fields.now.members.now.entries)) }
        requires content { digests.now.content ≡ content_hash (object (members_view fields.now.members.now.entries)) }
        requires reference { digests.now.reference ≡ reference_hash (object (members_view fields.now.members.now.entries)) }
        ensures sound { IfOk result IsSound }
        ensures event { IfOk result (λ parts. event_of parts ≡ object (members_view fields.now.members.now.entries)) }
    {
        let mut text = text;
        text.shrink_to_fit();
        let kind = String::from_str(alloc, text_or_empty_at(fields, EventKey::Kind))?;
        let state_key = text_copied_from(alloc, fields, EventKey::StateKey)?;
        let room_id = room_id_of(alloc, text_or_empty_at(fields, EventKey::RoomId))?;
        let sender = user_id_of(alloc, text_or_empty_at(fields, EventKey::Sender))?;
        let prev_events = event_ids_at(alloc, fields, EventKey::PrevEvents)?;
        let auth_events = event_ids_at(alloc, fields, EventKey::AuthEvents)?;
        let redacts = redacted_id_in(alloc, fields)?;
        let content = rule_content_at(alloc, fields)?;
        let hash_holds = names_hash(fields, &digests.content);
        Ok(Parts {
            text,
            kind,
            state_key,
            room_id,
            sender,
            prev_events,
            auth_events,
            redacts,
            depth: depth_in(fields),
            origin_server_ts: timestamp_in(fields),
            content,
            reference: digests.reference,
            hash_holds,
        })
    }

    // Of what was read of an event, its canonical text and its hashes. The text is kept with no room to spare.
    fn of_read(read: EventParts<'_>, text: String, digests: &Digests) -> Parts
        requires { (event : Data) × IsHashedAs (string_bytes text) read digests.now event }
        ensures { (event : Data) → IsHashedAs (string_bytes text) read.entry digests.now event → AreOf result event }
    {
        let mut text = text;
        text.shrink_to_fit();
        let hash_holds = is_named(read.hash, &digests.content);
        Parts {
            text,
            kind: read.kind,
            state_key: read.state_key,
            room_id: read.room_id,
            sender: read.sender,
            prev_events: read.prev_events,
            auth_events: read.auth_events,
            redacts: read.redacts,
            depth: read.depth,
            origin_server_ts: read.origin_server_ts,
            content: read.content,
            reference: digests.reference,
            hash_holds,
        }
    }
}

impl Clone for Pdu {
    ghost is_clone = { λ pdu copy. copy ≡ pdu };

    fn clone(&self) -> Result<Pdu, AllocError> {
        let parts = Arc::try_clone(&self.parts)?;
        Ok(Pdu { parts })
    }
}
