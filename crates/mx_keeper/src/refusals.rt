// Why a call of what stands over keepers is refused.
ghost use Rattle.std.specs.Prelude.{◌≡◌};

use std::alloc::{AllocError, AllocFailed};
use thiserror::Error;

/// Why a shard, a book or a server of rooms refused a call. After each refusal its journals are as before.
#[derive(Clone, Copy, Debug, PartialEq, Eq, Drop, Error)]
pub enum CallError {
    // No memory was left. It may be called again.
    #[error("out of memory")]
    Memory,
    // What keeps the rows failed in this call, or an earlier call was refused so.
    #[error("storage")]
    Storage,
}

impl From<AllocError> for CallError {
    ghost use Rattle.mx_keeper.specs.declared.refusals.CallError.TheVariants.{Memory};

    ghost from_gives = { λ _ error. error ≡ Memory };

    fn from(_refused: AllocError) -> CallError {
        CallError::Memory
    }
}

impl<T: Drop> From<AllocFailed<T>> for CallError {
    ghost use Rattle.mx_keeper.specs.declared.refusals.CallError.TheVariants.{Memory};

    ghost from_gives = { λ _ error. error ≡ Memory };

    fn from(_refused: AllocFailed<T>) -> CallError {
        CallError::from(AllocError)
    }
}
