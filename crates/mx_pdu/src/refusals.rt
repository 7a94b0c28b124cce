// Why a value is no event.
ghost use Rattle.std.specs.Prelude.{◌≡◌};

use std::alloc::AllocError;
use thiserror::Error;

/// Why a value is not an event of room version 6. Of several causes the first in this order is given.
///
/// Source: the Matrix specification, Room Version 6, "Event format", and Client-Server API, "Size limits".
#[derive(Clone, Copy, Debug, PartialEq, Eq, Drop, Error)]
pub enum NotAnEvent {
    #[error("not an object")]
    NotAnObject,
    // It has no canonical JSON.
    #[error("not canonical")]
    NotCanonical,
    // Its canonical text has more than 65,536 bytes.
    #[error("too long")]
    TextTooLong,
    #[error("field missing or of a wrong kind")]
    WrongField,
    // A text is longer than 255 bytes, a list of events too long, the depth out of range, or arrays and objects nest
    // deeper than text is read, 127 levels.
    #[error("limit")]
    OverLimit,
}

/// Why an event was not made of a value.
#[derive(Clone, Copy, Debug, PartialEq, Eq, Drop, Error)]
pub enum PduError {
    // No memory was left.
    #[error("out of memory")]
    Memory,
    #[error(transparent)]
    NotAnEvent(NotAnEvent),
}

impl From<AllocError> for PduError {
    ghost use Rattle.mx_pdu.specs.declared.refusals.PduError.TheVariants.{Memory};

    ghost from_gives = { λ _ e. e ≡ Memory };

    fn from(_refused: AllocError) -> PduError {
        PduError::Memory
    }
}

impl From<NotAnEvent> for PduError {
    ghost use Rattle.mx_pdu.specs.declared.refusals.PduError.TheVariants as variants;

    ghost from_gives = { λ cause e. e ≡ variants.NotAnEvent cause };

    fn from(cause: NotAnEvent) -> PduError {
        PduError::NotAnEvent(cause)
    }
}

/// Why no event was made of a text.
#[derive(Clone, Copy, Debug, PartialEq, Eq, Drop, Error)]
pub enum TextError {
    // No memory was left.
    #[error("out of memory")]
    Memory,
    // No event has the text as its canonical text.
    #[error("not an event's text")]
    NotAnEventText,
}
