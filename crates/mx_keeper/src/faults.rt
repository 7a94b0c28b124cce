// Why a keeper refuses.
ghost use Rattle.std.specs.Prelude.{◌≡◌};

use std::alloc::{AllocError, AllocFailed};
use thiserror::Error;

/// Why a keeper refused a call.
#[derive(Clone, Copy, Debug, PartialEq, Eq, Drop, Error)]
pub enum KeeperFault {
    // No memory was left. The keeper is as before, and may be called again.
    #[error("out of memory")]
    Memory,
    // What holds the rows failed. It is told only where the keeper's count of failures rose in that call.
    #[error("storage")]
    Store,
    // What is held does not read as rows.
    #[error("the table does not read")]
    Table,
}

impl From<AllocError> for KeeperFault {
    ghost use Rattle.mx_keeper.specs.declared.faults.KeeperFault.TheVariants.{Memory};

    ghost from_gives = { λ _ fault. fault ≡ Memory };

    fn from(_refused: AllocError) -> KeeperFault {
        KeeperFault::Memory
    }
}

impl<T: Drop> From<AllocFailed<T>> for KeeperFault {
    ghost use Rattle.mx_keeper.specs.declared.faults.KeeperFault.TheVariants.{Memory};

    ghost from_gives = { λ _ fault. fault ≡ Memory };

    fn from(_refused: AllocFailed<T>) -> KeeperFault {
        KeeperFault::from(AllocError)
    }
}
