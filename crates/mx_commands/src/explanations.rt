// Which field of a refused event has which fault.
use crate::event_faults::fault_of;
use json::Scratch;
use mx_body::{BodyError, body_value};
use mx_canon::{NotCanonical, check};
use serde_json::Value;
use std::alloc::{AllocError, Global};

/// Which member of the value that a text is JSON for keeps it from being an event, and how, as `depth: missing`; the fault alone
/// where it is of no one member. None of an event, and of what is no JSON.
///
/// `AllocError` where no memory is left.
pub(crate) fn explanation(alloc: Global, text: &[u8]) -> Result<Option<String>, AllocError> {
    let mut scratch = Scratch::new(alloc);
    match body_value(alloc, &mut scratch, text) {
        Ok(value) => fault_told(alloc, &value),
        Err(BodyError::NotJson) => Ok(None),
        Err(BodyError::Memory) => Err(AllocError),
    }
}

// A number without canonical JSON is told before any other fault, as an event is checked.
fn fault_told(alloc: Global, value: &Value) -> Result<Option<String>, AllocError> {
    if let Err(cause) = check(value) {
        return Ok(Some(number_told(alloc, value, cause)?));
    }
    let Some((field, fault)) = fault_of(value) else {
        return Ok(None);
    };
    let fault = fault.text();
    let text = match field {
        Some(field) => {
            let key = field.name();
            format!(in alloc; "{key}: {fault}")?
        }
        None => String::from_str(alloc, fault)?,
    };
    Ok(Some(text))
}

// The cause for which a value has no canonical JSON, with the first key of which the value has none for it.
fn number_told(alloc: Global, value: &Value, cause: NotCanonical) -> Result<String, AllocError> {
    let Some(members) = value.as_object() else {
        return format!(in alloc; "{cause}");
    };
    for (key, member) in members.iter() {
        if check(member) == Err(cause) {
            return format!(in alloc; "{key:?}: {cause}");
        }
    }
    format!(in alloc; "{cause}")
}
