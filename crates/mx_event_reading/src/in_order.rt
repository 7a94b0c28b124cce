// The canonical text of a value whose keys come in order, put together as its tokens are read.
ghost use Rattle.std.specs.Prelude.{◌≡◌, ◌<◌, length, OnOk};
ghost use Rattle.json.specs.Json.{value};
ghost use Rattle.serde_json.specs.Read.{of_json, converted};
ghost use Rattle.mx_event_reading.specs.InOrder.{Appends};

mod copying;
mod sinks;
mod typed;

use copying::copy_value;
pub use copying::is_above;
use json::{Invalid, Reader, Writer};
pub use sinks::append_key;
use std::alloc::{AllocError, AllocFailed, Global};
use thiserror::Error;
pub use typed::{append_event_ids, append_integer, append_text};

/// Why a value was not appended.
#[derive(Clone, Copy, Debug, PartialEq, Eq, Drop, Error)]
pub enum AppendError {
    // No memory was left.
    #[error("out of memory")]
    Memory,
    // Keys that are not in order, a number that has no canonical text, a value of another kind, or no JSON: which of
    // them is not told, and the body is to be read as any other.
    #[error("the value is not in canonical order")]
    NotInOrder,
}

impl From<AllocError> for AppendError {
    ghost use Rattle.std.specs.Prelude.{◌≡◌};
    ghost use Rattle.mx_event_reading.specs.declared.in_order.AppendError.TheVariants.{Memory};

    ghost from_gives = { λ _ e. e ≡ Memory };

    fn from(_refused: AllocError) -> AppendError {
        AppendError::Memory
    }
}

impl<T: Drop> From<AllocFailed<T>> for AppendError {
    ghost use Rattle.std.specs.Prelude.{◌≡◌};
    ghost use Rattle.mx_event_reading.specs.declared.in_order.AppendError.TheVariants.{Memory};

    ghost from_gives = { λ _ e. e ≡ Memory };

    fn from(_refused: AllocFailed<T>) -> AppendError {
        AppendError::Memory
    }
}

impl From<Invalid> for AppendError {
    ghost use Rattle.std.specs.Prelude.{◌≡◌};
    ghost use Rattle.mx_event_reading.specs.declared.in_order.AppendError.TheVariants.{NotInOrder};

    ghost from_gives = { λ _ e. e ≡ NotInOrder };

    fn from(_invalid: Invalid) -> AppendError {
        AppendError::NotInOrder
    }
}

/// Puts the canonical text of the reader's next value behind `out`, where each object has its keys in canonical order,
/// each once, and each number is an integer that canonical JSON has. No value is made.
///
/// `NotInOrder` where the next value is another, or none that nests at most `depth` deep; `Memory`. After an error nothing
/// is said of `out`. Source: the Matrix specification, the appendix "Canonical JSON".
pub fn append_value(
    alloc: Global,
    reader: &mut Reader<'_>,
    depth: usize,
    out: &mut Vec<u8>,
) -> Result<(), AppendError>
    ensures ok { OnOk result
        (Appends (converted of_json (value depth reader.old)) reader.new out.old.items out.new.items) }
    ensures shorter { OnOk result (length reader.new < length reader.old) }
{
    let mut writer = Writer::new(std::mem::replace(out, Vec::new(alloc)));
    let copied = copy_value(reader, depth, &mut writer);
    *out = writer.into_inner();
    copied
}
