// Why events of a room are not audited.
ghost use Rattle.std.specs.Prelude.{◌≡◌};

use mx_receipt::{NotReceived, OfferError};
use std::alloc::{AllocError, AllocFailed};
use thiserror::Error;

/// Why an event of a room is not audited.
///
/// `Memory`: no memory was left. `NotACreateEvent`: it is to be the first event, and is no create event that makes a room.
/// `NotReceived`: the room does not take it.
#[derive(Clone, Copy, Debug, PartialEq, Eq, Drop, Error)]
pub enum AuditError {
    #[error("memory")]
    Memory,
    #[error("the first event is no create event")]
    NotACreateEvent,
    #[error(transparent)]
    NotReceived(NotReceived),
}

impl From<AllocError> for AuditError {
    ghost use Rattle.mx_audit.specs.declared.audit_errors.AuditError.TheVariants.{Memory};

    ghost from_gives = { λ _ e. e ≡ Memory };

    fn from(_refused: AllocError) -> AuditError {
        AuditError::Memory
    }
}

impl<T: Drop> From<AllocFailed<T>> for AuditError {
    ghost use Rattle.mx_audit.specs.declared.audit_errors.AuditError.TheVariants.{Memory};

    ghost from_gives = { λ _ e. e ≡ Memory };

    fn from(_refused: AllocFailed<T>) -> AuditError {
        AuditError::Memory
    }
}

impl From<OfferError> for AuditError {
    ghost use Rattle.mx_audit.specs.AuditErrors.{of_offer};

    ghost from_gives = { λ error e. e ≡ of_offer error };

    fn from(error: OfferError) -> AuditError {
        match error {
            OfferError::Memory => AuditError::Memory,
            OfferError::NotReceived(cause) => AuditError::NotReceived(cause),
        }
    }
}
