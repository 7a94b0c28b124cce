// Events from their texts.
ghost use Rattle.std.specs.Prelude.{◌≡◌, Err, IfOk, None, Some, codes, string_bytes};
ghost use Rattle.serde_json.specs.View.{view};
ghost use Rattle.mx_canon.specs.Canonical.{canonical_error, canonical_text};
ghost use Rattle.mx_canon.specs.KeyOrder.{KeysRise};
ghost use Rattle.mx_canon.specs.Reading.{IsJsonFor};
ghost use Rattle.mx_ident.specs.Identifier.{server_of};
ghost use Rattle.mx_redact.specs.Fields.{value_at};
ghost use Rattle.mx_redact.specs.Hashes.{event_id, signing_text};
ghost use Rattle.mx_pdu.specs.Event.{sender_of};
ghost use Rattle.mx_pdu.specs.EventTexts.{event_of_text};

use crate::comparing::is_text_of;
use crate::offering::Offered;
use crate::pdus::Pdu;
use crate::refusals::{PduError, TextError};
use crate::verifiers::Verifier;
use mx_canon::ReadError;
use serde_json::Value;
use std::alloc::Global;

impl Pdu {
    /// The event that has this canonical text, which the event keeps.
    ///
    /// `NotAnEventText` where no event has it, `Memory` where no memory is left. Source: the Matrix specification, Room
    /// Version 6, "Event format", and appendix "Canonical JSON".
    pub fn from_text(alloc: Global, text: String) -> Result<Pdu, TextError>
        ensures ok { IfOk result (λ pdu. event_of_text (string_bytes text) ≡ Some pdu) }
        ensures none { result ≡ Err TextError.NotAnEventText → event_of_text (string_bytes text) ≡ None }
    {
        let value = value_with_text(alloc, text.as_bytes())?;
        match Pdu::from_canonical(alloc, value, text) {
            Ok(pdu) => Ok(pdu),
            Err(PduError::Memory) => Err(TextError::Memory),
            Err(PduError::NotAnEvent(_)) => Err(TextError::NotAnEventText),
        }
    }
}

impl Offered {
    /// The event that has this canonical text, of which the event keeps a copy, as [`Offered::from_value`] offers it.
    ///
    /// `NotAnEventText` where no event has it, `Memory` where no memory is left. Source: the Matrix specification,
    /// Server-Server API, "Validating hashes and signatures on received events".
    pub fn from_text<V: Verifier>(
        alloc: Global,
        text: &str,
        verifier: &V,
    ) -> Result<Offered, TextError>
        ensures pdu { IfOk result (λ offered. event_of_text text.now ≡ Some offered.pdu) }
        ensures id { IfOk result (λ offered. offered.id ≡ event_id offered.pdu) }
        ensures signed { IfOk result (λ offered. offered.signed
            ≡ V.judges verifier.now (server_of (sender_of offered.pdu)) (signing_text offered.pdu) (value_at (codes "signatures") offered.pdu)) }
        ensures none { result ≡ Err TextError.NotAnEventText → event_of_text text.now ≡ None }
    {
        let value = value_with_text(alloc, text.as_bytes())?;
        let Ok(kept) = String::from_str(alloc, text) else {
            return Err(TextError::Memory);
        };
        match Offered::from_canonical(alloc, value, kept, verifier) {
            Ok(offered) => Ok(offered),
            Err(PduError::Memory) => Err(TextError::Memory),
            Err(PduError::NotAnEvent(_)) => Err(TextError::NotAnEventText),
        }
    }
}

// The value that has this canonical text.
fn value_with_text(alloc: Global, text: &[u8]) -> Result<Value, TextError>
    ensures json { IfOk result (λ value. IsJsonFor (view value) text.now) }
    ensures canonical { IfOk result (λ value. canonical_error (view value) ≡ None) }
    ensures keys { IfOk result (λ value. KeysRise (view value)) }
    ensures text { IfOk result (λ value. text.now ≡ canonical_text (view value)) }
    ensures none { result ≡ Err TextError.NotAnEventText → event_of_text text.now ≡ None }
{
    let value = match mx_canon::read(alloc, text) {
        Ok(value) => value,
        Err(ReadError::Memory) => return Err(TextError::Memory),
        Err(ReadError::NotJson) => return Err(TextError::NotAnEventText),
        Err(ReadError::NotCanonical(_)) => return Err(TextError::NotAnEventText),
    };
    if is_text_of(&value, text) {
        Ok(value)
    } else {
        Err(TextError::NotAnEventText)
    }
}
