// Why an event was not taken.
ghost use Rattle.std.specs.Prelude.{◌≡◌};

use std::alloc::{AllocError, AllocFailed};
use thiserror::Error;

/// Why a room does not take an event. Of several causes the first in this order is given.
///
/// `Known`: it has an event with this id. `SecondCreate`: it is a create event. `MissingEvents`: a prev event or an auth
/// event of it is not held. `RoomFull`: the room has 50,000 events.
///
/// Source: the Matrix specification, Server-Server API, "Checks performed on receipt of a PDU".
#[derive(Clone, Copy, Debug, PartialEq, Eq, Drop, Error)]
pub enum NotReceived {
    #[error("the event is known")]
    Known,
    #[error("the room has a create event")]
    SecondCreate,
    #[error("a prev event or an auth event is missing")]
    MissingEvents,
    #[error("the room is full")]
    RoomFull,
}

/// Why an event was not received.
#[derive(Clone, Copy, Debug, PartialEq, Eq, Drop, Error)]
pub enum OfferError {
    // No memory was left.
    #[error("out of memory")]
    Memory,
    #[error(transparent)]
    NotReceived(NotReceived),
}

impl From<AllocError> for OfferError {
    ghost use Rattle.mx_receipt.specs.declared.refusals.OfferError.TheVariants.{Memory};

    ghost from_gives = { λ _ e. e ≡ Memory };

    fn from(_refused: AllocError) -> OfferError {
        OfferError::Memory
    }
}

impl<T: Drop> From<AllocFailed<T>> for OfferError {
    ghost use Rattle.mx_receipt.specs.declared.refusals.OfferError.TheVariants.{Memory};

    ghost from_gives = { λ _ e. e ≡ Memory };

    fn from(_refused: AllocFailed<T>) -> OfferError {
        OfferError::Memory
    }
}

impl From<NotReceived> for OfferError {
    ghost use Rattle.mx_receipt.specs.declared.refusals.OfferError.TheVariants as variants;

    ghost from_gives = { λ cause e. e ≡ variants.NotReceived cause };

    fn from(cause: NotReceived) -> OfferError {
        OfferError::NotReceived(cause)
    }
}
