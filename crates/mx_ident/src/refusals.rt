// Why a text is no identifier.
ghost use Rattle.std.specs.Prelude.{◌≡◌};

use std::alloc::AllocError;
use thiserror::Error;

/// Why a text is not an identifier of its kind. Of several causes the first in this order is given.
///
/// Source: the appendix "Identifier Grammar" of the Matrix specification.
#[derive(Clone, Copy, Debug, PartialEq, Eq, Drop, Error)]
pub enum NotAnId {
    // It does not begin with the sigil of its kind.
    #[error("the sigil is missing")]
    NoSigil,
    // It has no colon, where its kind ends with a server name.
    #[error("the colon before the server name is missing")]
    NoColon,
    // No server name stands after the first colon, or a server name is empty.
    #[error("the server name is empty")]
    EmptyServer,
    // An event id is the sigil alone.
    #[error("nothing stands after the sigil")]
    NothingAfterSigil,
    // It has more than 255 bytes.
    #[error("it is longer than 255 bytes")]
    TooLong,
}

/// Why an identifier was not made of a text.
#[derive(Clone, Copy, Debug, PartialEq, Eq, Drop, Error)]
pub enum IdError {
    // No memory was left.
    #[error("out of memory")]
    Memory,
    // The text is not an identifier of its kind.
    #[error(transparent)]
    NotAnId(NotAnId),
}

impl From<AllocError> for IdError {
    ghost use Rattle.mx_ident.specs.declared.refusals.IdError.TheVariants.{Memory};

    ghost from_gives = { λ _ e. e ≡ Memory };

    fn from(_refused: AllocError) -> IdError {
        IdError::Memory
    }
}

impl From<NotAnId> for IdError {
    ghost use Rattle.mx_ident.specs.declared.refusals.IdError.TheVariants as variants;

    ghost from_gives = { λ cause e. e ≡ variants.NotAnId cause };

    fn from(cause: NotAnId) -> IdError {
        IdError::NotAnId(cause)
    }
}
