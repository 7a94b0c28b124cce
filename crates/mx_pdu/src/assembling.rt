// Events that were read member by member.
ghost use Rattle.std.specs.Prelude.{◌≡◌, IfOk, Some, codes, string_bytes};
ghost use Rattle.serde_json.specs.Data.{Members};
ghost use Rattle.serde_json.specs.Read.{read};
ghost use Rattle.mx_ident.specs.Identifier.{server_of};
ghost use Rattle.mx_redact.specs.Fields.{value_at};
ghost use Rattle.mx_redact.specs.Hashes.{event_id, signing_text};
ghost use Rattle.mx_pdu.specs.Event.{sender_of};
ghost use Rattle.mx_pdu.specs.EventParts.{IsReadAs};

use crate::offering::Offered;
use crate::pdus::Pdu;
use crate::verifiers::Verifier;
use mx_ident::{EventId, RoomId, UserId};
use mx_redact::{MemberPlace, digests_by_places};
use serde_json::{Map, Value};
use std::alloc::{AllocError, Global};

/// What was read of an event beside its canonical text: the fields that a [`Pdu`] keeps, the text at `sha256` in its
/// `hashes`, and its `signatures`. Of its content they are the members that rules read, as [`Pdu::content`] gives them.
#[derive(Debug, Drop)]
pub struct EventParts<'a> {
    pub kind: String,
    pub state_key: Option<String>,
    pub room_id: RoomId,
    pub sender: UserId,
    pub prev_events: Vec<EventId>,
    pub auth_events: Vec<EventId>,
    pub redacts: Option<String>,
    pub depth: u64,
    pub origin_server_ts: i64,
    pub content: Map<String, Value>,
    pub hash: Option<&'a str>,
    pub signatures: Map<String, Value>,
}

impl Offered {
    /// The event that has this canonical text, which the event keeps, as [`Offered::from_value`] offers it: of the places
    /// of its members in the text, and of what was read of it. No value is made of it, and nothing is tested.
    ///
    /// Source: the Matrix specification, Server-Server API, "Validating hashes and signatures on received events".
    pub fn of_parts<V: Verifier>(
        alloc: Global,
        text: String,
        places: &[MemberPlace],
        parts: EventParts<'_>,
        verifier: &V,
    ) -> Result<Offered, AllocError>
        requires { (event : Members) × IsReadAs (string_bytes text) places.now parts event }
        ensures pdu { IfOk result (λ offered. read (string_bytes text) ≡ Some offered.pdu) }
        ensures id { IfOk result (λ offered. offered.id ≡ event_id offered.pdu) }
        ensures signed { IfOk result (λ offered. offered.signed
            ≡ V.judges verifier.now (server_of (sender_of offered.pdu)) (signing_text offered.pdu)
            (value_at (codes "signatures") offered.pdu)) }
    {
        let known = Some(&parts.content);
        let digests = digests_by_places(alloc, text.as_bytes(), places, &parts.kind, known)?;
        let server = parts.sender.server_name(alloc)?;
        let signed = verifier.accepts(&server, &digests.signing_text, &parts.signatures);
        let pdu = Pdu::of_parts(alloc, parts, text, &digests)?;
        let id = pdu.event_id(alloc)?;
        Ok(Offered { pdu, id, signed })
    }
}
