// Events as texts and as values.
ghost use Rattle.std.specs.Prelude.{◌≡◌, ◌≤◌, ◌↔◌, IfOk, IfSome, IsErrOf, IsSome, IsTrue, None, OnOk, Some, string_bytes, true};
ghost use Rattle.serde_json.specs.Data.{Data, depth as nesting, object};
ghost use Rattle.serde_json.specs.Read.{max_depth, read};
ghost use Rattle.serde_json.specs.View.{view, members_view};
ghost use Rattle.mx_canon.specs.Canonical.{canonical_text, is_canonical};
ghost use Rattle.mx_canon.specs.KeyOrder.{KeysRise};
ghost use Rattle.mx_redact.specs.Redaction.{redact as redacted_form};
ghost use Rattle.mx_pdu.specs.Format.{format_error, is_well_formed};
ghost use Rattle.mx_pdu.specs.declared.refusals.NotAnEvent.{NotAnEvent as Cause};

use crate::checking::{check_canonical_format, check_format, has_canonical_text};
use crate::pdus::Pdu;
use crate::refusals::PduError;
use mx_canon::text_of_canonical;
use mx_redact::redact;
use serde_json::{Map, Value};
use std::alloc::{AllocError, Global};

impl Pdu {
    /// The canonical text of the event that the value is, which reads as the event. The value is walked once for its
    /// numbers and once for its text.
    ///
    /// `NotAnEvent` with the cause that [`Pdu::check`] gives, also where memory is left for no text. Source: the Matrix
    /// specification, Room Version 6, "Event format", and appendix "Canonical JSON".
    pub fn text_of_value(alloc: Global, value: &Value) -> Result<Vec<u8>, PduError>
        ensures text { IfOk result (λ text. text.items ≡ canonical_text (view value.now)) }
        ensures reads { IfOk result (λ text. read text.items ≡ Some (view value.now)) }
        ensures format { OnOk result (format_error (view value.now) ≡ None) }
        ensures refused { (cause : Cause)
            → (IsErrOf result (PduError.NotAnEvent cause) ↔ (format_error (view value.now) ≡ Some cause)) }
    {
        match canonical_text_of(alloc, value) {
            Some(text) => {
                check_canonical_format(value, &text)?;
                Ok(text)
            }
            None => {
                check_format(value)?;
                Err(PduError::Memory)
            }
        }
    }
}

// The canonical text of a value that has one, where memory is left for it.
fn canonical_text_of(alloc: Global, value: &Value) -> Option<Vec<u8>>
    ensures canonical { IsSome result → is_canonical (view value.now) ≡ true }
    ensures text { IfSome result (λ text. text.items ≡ canonical_text (view value.now)) }
    ensures reads { IfSome result (λ text. nesting (view value.now) ≤ max_depth → read text.items ≡ Some (view value.now)) }
{
    if !has_canonical_text(value) {
        return None;
    }
    match text_of_canonical(alloc, value) {
        Ok(text) => Some(text),
        Err(_) => None,
    }
}

// The canonical text of a well-formed event, with no room to spare.
pub fn text_of(alloc: Global, value: &Value) -> Result<String, AllocError>
    requires well_formed { IsTrue (is_well_formed (view value.now)) }
    requires keys { KeysRise (view value.now) }
    ensures text { IfOk result (λ text. string_bytes text ≡ canonical_text (view value.now)) }
    ensures reads { IfOk result (λ text. read (string_bytes text) ≡ Some (view value.now)) }
{
    let mut bytes = text_of_canonical(alloc, value)?;
    bytes.shrink_to_fit();
    match String::from_utf8(bytes) {
        Ok(text) => Ok(text),
        Err(_) => unreachable!(),
    }
}

// The value that a text is JSON for.
pub fn value_of(alloc: Global, text: &str) -> Result<Value, AllocError>
    requires { (event : Data) × (read text.now ≡ Some event) }
    ensures { IfOk result (λ value. Some (view value) ≡ read text.now) }
{
    match Value::from_str(alloc, text) {
        Ok(value) => Ok(value),
        Err(error) if error.is_memory() => Err(AllocError),
        Err(_) => unreachable!(),
    }
}

// The members of a well-formed event.
pub fn object_of(value: &Value) -> &Map<String, Value>
    requires { IsTrue (is_well_formed (view value.now)) }
    ensures { object (members_view result.now.entries) ≡ view value.now }
{
    match value.as_object() {
        Some(members) => members,
        None => unreachable!(),
    }
}

// The redacted form of a well-formed event.
pub fn redacted_value(alloc: Global, event: &Value) -> Result<Value, AllocError>
    requires well_formed { IsTrue (is_well_formed (view event.now)) }
    requires keys { KeysRise (view event.now) }
    ensures value { IfOk result (λ value. view value ≡ redacted_form (view event.now)) }
    ensures well_formed { IfOk result (λ value. IsTrue (is_well_formed (view value))) }
    ensures keys { IfOk result (λ value. KeysRise (view value)) }
{
    let members = redact(alloc, object_of(event))?;
    Ok(Value::Object(members))
}
