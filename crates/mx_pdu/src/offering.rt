// Events as they are offered to a room.
ghost use Rattle.std.specs.Prelude.{◌≡◌, ◌≤◌, ◌↔◌, IfOk, IsErrOf, IsTrue, None, OnOk, Some, codes, string_bytes};
ghost use Rattle.serde_json.specs.Data.{depth as nesting, object};
ghost use Rattle.serde_json.specs.Read.{max_depth, read};
ghost use Rattle.serde_json.specs.View.{view, members_view};
ghost use Rattle.mx_canon.specs.Canonical.{canonical_error, canonical_text};
ghost use Rattle.mx_canon.specs.KeyOrder.{KeysRise};
ghost use Rattle.mx_ident.specs.Identifier.{server_of};
ghost use Rattle.mx_redact.specs.Fields.{value_at};
ghost use Rattle.mx_redact.specs.Hashes.{event_id as event_id_of, signing_text};
ghost use Rattle.mx_pdu.specs.Event.{sender_of};
ghost use Rattle.mx_pdu.specs.Format.{format_error, is_well_formed};
ghost use Rattle.mx_pdu.specs.declared.refusals.NotAnEvent.{NotAnEvent as Cause};

use crate::checking::{check_canonical_format, check_format};
use crate::event_fields::EventFields;
use crate::lookups::object_at;
use crate::pdus::Pdu;
use crate::refusals::PduError;
use crate::texts::{object_of, text_of};
use crate::verifiers::Verifier;
use mx_canon::CanonError;
use mx_ident::{EventId, UserId};
use mx_redact::{EventKey, signing_bytes};
use serde_json::{Map, Value};
use std::alloc::{AllocError, Global};

/// An event with its id, and whether a verifier accepts its signatures.
#[derive(Debug, Drop)]
pub struct Offered {
    pub pdu: Pdu,
    pub id: EventId,
    pub signed: bool,
}

impl Offered {
    /// The event, its id, and the verifier's answer on its sender's server, the bytes that are signed of it and its
    /// `signatures`. The event's text is read for them.
    ///
    /// Source: the Matrix specification, Server-Server API, "Validating hashes and signatures on received events".
    pub fn of<V: Verifier>(alloc: Global, pdu: Pdu, verifier: &V) -> Result<Offered, AllocError>
        ensures pdu { IfOk result (λ offered. offered.pdu ≡ pdu) }
        ensures id { IfOk result (λ offered. offered.id ≡ event_id_of pdu) }
        ensures signed { IfOk result (λ offered. offered.signed
            ≡ V.judges verifier.now (server_of (sender_of pdu)) (signing_text pdu) (value_at (codes "signatures") pdu)) }
    {
        let value = pdu.value(alloc)?;
        let event = object_of(&value);
        let text = signing_bytes_of(alloc, event)?;
        let id = pdu.event_id(alloc)?;
        let fields = EventFields::of(event);
        let signed = is_signed(alloc, pdu.sender(), &text, &fields, verifier)?;
        Ok(Offered { pdu, id, signed })
    }

    /// The event that the value is, as [`Offered::of`] offers it, with one walk over the event for its id and for what
    /// is signed of it.
    ///
    /// `NotAnEvent` with the cause that [`Pdu::check`] gives. Source: the Matrix specification, Server-Server API,
    /// "Validating hashes and signatures on received events".
    pub fn from_value<V: Verifier>(
        alloc: Global,
        value: Value,
        verifier: &V,
    ) -> Result<Offered, PduError>
        ensures pdu { IfOk result (λ offered. offered.pdu ≡ view value) }
        ensures id { IfOk result (λ offered. offered.id ≡ event_id_of (view value)) }
        ensures signed { IfOk result (λ offered. offered.signed
            ≡ V.judges verifier.now (server_of (sender_of (view value))) (signing_text (view value)) (value_at (codes "signatures") (view value))) }
        ensures format { OnOk result (format_error (view value) ≡ None) }
        // It is tested first, so that memory may run out only where the value is an event.
        ensures refused { (cause : Cause)
            → (IsErrOf result (PduError.NotAnEvent cause) ↔ (format_error (view value) ≡ Some cause)) }
    {
        let fields = check_format(&value)?;
        let text = text_of(alloc, &value)?;
        let offered = Offered::of_checked(alloc, &fields, text, verifier)?;
        Ok(offered)
    }

    /// The event that a value is whose canonical text is at hand, as [`Offered::from_value`] gives it. The event keeps
    /// the text.
    pub fn from_canonical<V: Verifier>(
        alloc: Global,
        value: Value,
        text: String,
        verifier: &V,
    ) -> Result<Offered, PduError>
        requires canonical { canonical_error (view value) ≡ None }
        requires keys { KeysRise (view value) }
        requires text { string_bytes text ≡ canonical_text (view value) }
        requires reads { nesting (view value) ≤ max_depth → read (string_bytes text) ≡ Some (view value) }
        ensures pdu { IfOk result (λ offered. offered.pdu ≡ view value) }
        ensures id { IfOk result (λ offered. offered.id ≡ event_id_of (view value)) }
        ensures signed { IfOk result (λ offered. offered.signed
            ≡ V.judges verifier.now (server_of (sender_of (view value))) (signing_text (view value)) (value_at (codes "signatures") (view value))) }
        ensures format { OnOk result (format_error (view value) ≡ None) }
        ensures refused { (cause : Cause)
            → (IsErrOf result (PduError.NotAnEvent cause) ↔ (format_error (view value) ≡ Some cause)) }
    {
        let fields = check_canonical_format(&value, text.as_bytes())?;
        let offered = Offered::of_checked(alloc, &fields, text, verifier)?;
        Ok(offered)
    }

    // Of the fields of an event that is well formed, and its canonical text.
    fn of_checked<V: Verifier>(
        alloc: Global,
        fields: &EventFields<'_>,
        text: String,
        verifier: &V,
    ) -> Result<Offered, AllocError>
        requires well_formed { IsTrue (is_well_formed (object (members_view fields.now.members.now.entries))) }
        requires keys { KeysRise (object (members_view fields.now.members.now.entries)) }
        requires text { string_bytes text ≡ canonical_text (object (members_view fields.now.members.now.entries)) }
        requires reads { read (string_bytes text) ≡ Some (object (members_view fields.now.members.now.entries)) }
        ensures pdu { IfOk result (λ offered. offered.pdu ≡ object (members_view fields.now.members.now.entries)) }
        ensures id { IfOk result (λ offered. offered.id
            ≡ event_id_of (object (members_view fields.now.members.now.entries))) }
        ensures signed { IfOk result (λ offered. offered.signed
            ≡ V.judges verifier.now (server_of (sender_of (object (members_view fields.now.members.now.entries))))
            (signing_text (object (members_view fields.now.members.now.entries)))
            (value_at (codes "signatures") (object (members_view fields.now.members.now.entries)))) }
    {
        let (pdu, digests) = Pdu::of_checked(alloc, fields, text)?;
        let id = pdu.event_id(alloc)?;
        let signed = is_signed(alloc, pdu.sender(), &digests.signing_text, fields, verifier)?;
        Ok(Offered { pdu, id, signed })
    }
}

impl Clone for Offered {
    ghost is_clone = { λ offered copy. copy ≡ offered };

    fn clone(&self) -> Result<Offered, AllocError> {
        let pdu = self.pdu.clone()?;
        let id = self.id.clone()?;
        Ok(Offered {
            pdu,
            id,
            signed: self.signed,
        })
    }
}

// Whether a verifier accepts the signatures of an event for its sender's server.
fn is_signed<V: Verifier>(
    alloc: Global,
    sender: &UserId,
    text: &[u8],
    fields: &EventFields<'_>,
    verifier: &V,
) -> Result<bool, AllocError>
    requires { IsTrue (is_well_formed (object (members_view fields.now.members.now.entries))) }
    ensures { IfOk result (λ signed. signed
        ≡ V.judges verifier.now (server_of sender.now) text.now (value_at (codes "signatures")
        (object (members_view fields.now.members.now.entries)))) }
{
    let server = sender.server_name(alloc)?;
    Ok(verifier.accepts(&server, text, signatures_of(fields)))
}

fn signing_bytes_of(alloc: Global, event: &Map<String, Value>) -> Result<Vec<u8>, AllocError>
    requires { IsTrue (is_well_formed (object (members_view event.now.entries))) }
    ensures { IfOk result (λ bytes. bytes.items ≡ signing_text (object (members_view event.now.entries))) }
{
    match signing_bytes(alloc, event) {
        Ok(bytes) => Ok(bytes),
        Err(CanonError::Memory) => Err(AllocError),
        Err(CanonError::NotCanonical(_)) => unreachable!(),
    }
}

fn signatures_of<'a>(fields: &EventFields<'a>) -> &'a Map<String, Value>
    requires { IsTrue (is_well_formed (object (members_view fields.now.members.now.entries))) }
    ensures { object (members_view result.now.entries)
        ≡ value_at (codes "signatures") (object (members_view fields.now.members.now.entries)) }
{
    match object_at(fields, EventKey::Signatures) {
        Some(signatures) => signatures,
        None => unreachable!(),
    }
}
