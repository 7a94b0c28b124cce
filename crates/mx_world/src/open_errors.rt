// Why no server is opened over keepers.
use mx_keeper::CallError;
use std::alloc::AllocFailed;
use thiserror::Error;

/// Why no server was opened over keepers.
#[derive(Clone, Copy, Debug, PartialEq, Eq, Drop, Error)]
pub enum OpenError {
    // No memory was left.
    #[error("out of memory")]
    Memory,
    // The keeper with this number of those for shards failed, or its rows are not such.
    #[error("storage: shard {0}")]
    Shard(usize),
    // The keeper with this number of those for books.
    #[error("storage: book {0}")]
    Book(usize),
}

impl<T: Drop> From<AllocFailed<T>> for OpenError {
    ghost use Rattle.std.specs.Prelude.{◌≡◌};
    ghost use Rattle.mx_world.specs.declared.open_errors.OpenError.TheVariants.{Memory};

    ghost from_gives = { λ _ error. error ≡ Memory };

    fn from(_refused: AllocFailed<T>) -> OpenError {
        OpenError::Memory
    }
}

impl From<OpenError> for CallError {
    ghost use Rattle.std.specs.Prelude.{◌≡◌};
    ghost use Rattle.mx_world.specs.Reopening.{cause_of};

    ghost from_gives = { λ error cause. cause ≡ cause_of error };

    fn from(error: OpenError) -> CallError {
        match error {
            OpenError::Memory => CallError::Memory,
            OpenError::Shard(_) | OpenError::Book(_) => CallError::Storage,
        }
    }
}
