// A value from text, canonical or refused.
ghost use Rattle.std.specs.Prelude.{◌≡◌, ◌↔◌, IfOk, IsErrOf, None, Some};
ghost use Rattle.serde_json.specs.Errors.{IsMemory};
ghost use Rattle.serde_json.specs.Data.{Data};
ghost use Rattle.serde_json.specs.View.{view};
ghost use Rattle.mx_canon.specs.Canonical.{canonical_error};
ghost use Rattle.mx_canon.specs.KeyOrder.{KeysRise};
ghost use Rattle.mx_canon.specs.Reading.{IsJsonFor};
ghost use Rattle.mx_canon.specs.declared.checking.NotCanonical.{NotCanonical as Cause};

use crate::checking::{NotCanonical, check};
use serde_json::Value;
use std::alloc::Global;
use thiserror::Error;

/// Why bytes were not read as a value that has canonical JSON.
#[derive(Clone, Copy, Debug, PartialEq, Eq, Drop, Error)]
pub enum ReadError {
    // No memory was left.
    #[error("out of memory")]
    Memory,
    // The bytes are not UTF-8, or no JSON, or nest deeper than 127.
    #[error("the bytes are not JSON")]
    NotJson,
    // The bytes are JSON for a value that has no canonical JSON.
    #[error(transparent)]
    NotCanonical(NotCanonical),
}

fn of_json(error: serde_json::Error) -> ReadError
    ensures memory { (result ≡ ReadError.Memory) ↔ IsMemory error }
    ensures not_json { (result ≡ ReadError.NotJson) ↔ ¬ IsMemory error }
{
    if error.is_memory() {
        ReadError::Memory
    } else {
        ReadError::NotJson
    }
}

/// The value that the bytes are JSON for, where it has canonical JSON. White space and the order of keys are free.
///
/// `NotJson` also of bytes that are not UTF-8 and of values nested deeper than 127, and `NotCanonical` with the
/// cause that [`check`] gives. Source: the appendix "Canonical JSON" of the Matrix specification.
pub fn read(alloc: Global, bytes: &[u8]) -> Result<Value, ReadError>
    ensures json { IfOk result (λ value. IsJsonFor (view value) bytes.now) }
    ensures canonical { IfOk result (λ value. canonical_error (view value) ≡ None) }
    // Every value has its keys in order.
    ensures keys { IfOk result (λ value. KeysRise (view value)) }
    ensures not_json { IsErrOf result ReadError.NotJson → (d : Data) → ¬ IsJsonFor d bytes.now }
    ensures not_canonical { (cause : Cause) → IsErrOf result (ReadError.NotCanonical cause)
        → (d : Data) × IsJsonFor d bytes.now × (canonical_error d ≡ Some cause) }
{
    let value = Value::from_slice(alloc, bytes).map_err(of_json)?;
    check(&value).map_err(ReadError::NotCanonical)?;
    Ok(value)
}
