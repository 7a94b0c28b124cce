// The canonical text of a value.
ghost use Rattle.std.specs.Prelude.{◌≡◌, ◌≤◌, ◌↔◌, IfOk, IsErrOf, IsUtf8, None, Some};
ghost use Rattle.serde_json.specs.View.{view};
ghost use Rattle.serde_json.specs.Data.{depth};
ghost use Rattle.serde_json.specs.Read.{max_depth};
ghost use Rattle.mx_canon.specs.Canonical.{canonical_error, canonical_text};
ghost use Rattle.mx_canon.specs.KeyOrder.{KeysRise};
ghost use Rattle.mx_canon.specs.Reading.{IsJsonFor};
ghost use Rattle.mx_canon.specs.declared.checking.NotCanonical.{NotCanonical as Cause};

use crate::checking::{NotCanonical, check};
use serde_json::Value;
use std::alloc::{AllocError, Global};
use thiserror::Error;

/// Why a value's canonical text was not written.
#[derive(Clone, Copy, Debug, PartialEq, Eq, Drop, Error)]
pub enum CanonError {
    // No memory was left.
    #[error("out of memory")]
    Memory,
    // The value has no canonical JSON.
    #[error(transparent)]
    NotCanonical(NotCanonical),
}

impl From<AllocError> for CanonError {
    ghost use Rattle.mx_canon.specs.declared.writing.CanonError.TheVariants.{Memory};

    ghost from_gives = { λ _ e. e ≡ Memory };

    fn from(_refused: AllocError) -> CanonError {
        CanonError::Memory
    }
}

/// The canonical JSON of the value: its one shortest text.
///
/// `NotCanonical` with the cause that [`check`] gives. Source: the appendix "Canonical JSON" of the Matrix
/// specification.
pub fn text(alloc: Global, value: &Value) -> Result<Vec<u8>, CanonError>
    ensures ok { IfOk result (λ bytes. bytes.items ≡ canonical_text (view value.now)) }
    ensures utf8 { IfOk result (λ bytes. IsUtf8 bytes.items) }
    ensures reads_back { IfOk result (λ bytes. depth (view value.now) ≤ max_depth
        → IsJsonFor (view value.now) bytes.items) }
    // It is tested first, so that memory may run out only where the value is canonical.
    ensures not_canonical { (cause : Cause)
        → (IsErrOf result (CanonError.NotCanonical cause) ↔ (canonical_error (view value.now) ≡ Some cause)) }
{
    check(value).map_err(CanonError::NotCanonical)?;
    let bytes = text_of_canonical(alloc, value)?;
    Ok(bytes)
}

/// The canonical JSON of a value that has it, as [`text`] gives it, with no test that it has.
pub fn text_of_canonical(alloc: Global, value: &Value) -> Result<Vec<u8>, AllocError>
    requires canonical { canonical_error (view value.now) ≡ None }
    requires keys { KeysRise (view value.now) }
    ensures ok { IfOk result (λ bytes. bytes.items ≡ canonical_text (view value.now)) }
    ensures utf8 { IfOk result (λ bytes. IsUtf8 bytes.items) }
    ensures reads_back { IfOk result (λ bytes. depth (view value.now) ≤ max_depth
        → IsJsonFor (view value.now) bytes.items) }
{
    let bytes = value.to_vec(alloc)?;
    Ok(bytes)
}
