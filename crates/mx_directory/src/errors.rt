// Why a server does not serve.
ghost use Rattle.std.specs.Prelude.{◌≡◌, ◌↔◌};
ghost use Rattle.std.specs.IoError.{error_kind};
ghost use Rattle.mx_directory.specs.ServerErrors.{of_fault};

use mx_keeper::{CallError, KeeperFault};
use std::alloc::{AllocError, AllocFailed, Global};
use std::fmt::Display;
use std::io::{self, ErrorKind};
use thiserror::Error;

/// Why a server does not serve.
#[derive(Clone, Copy, Debug, PartialEq, Eq, Drop, Error)]
pub enum ServerError {
    #[error("memory")]
    Memory,
    // A file of rows can't be opened, read or written, or one is missing, or there are more than are asked for, or events
    // that were answered as kept are in none.
    #[error("storage")]
    Storage,
    #[error("failed read or write")]
    ReadOrWrite,
    // A thread can't be started, or has no event loop.
    #[error("thread")]
    Thread,
    // A line of the file of rooms hosts no room. Its answer was written.
    #[error("a line hosts no room")]
    NotHosted,
}

impl ServerError {
    /// Why a read, a write, or a call of the system failed.
    pub fn of_io(error: &io::Error) -> ServerError
        ensures memory { (result ≡ ServerError.Memory) ↔ (error_kind error.now ≡ ErrorKind.OutOfMemory) }
        ensures other { (result ≡ ServerError.ReadOrWrite) ↔ ¬ (error_kind error.now ≡ ErrorKind.OutOfMemory) }
    {
        match error.kind() {
            ErrorKind::OutOfMemory => ServerError::Memory,
            _ => ServerError::ReadOrWrite,
        }
    }

    /// Why rows can't be had.
    pub(crate) fn of_keeper(fault: KeeperFault) -> ServerError
        ensures { result ≡ of_fault fault }
    {
        match fault {
            KeeperFault::Memory => ServerError::Memory,
            KeeperFault::Store | KeeperFault::Table => ServerError::Storage,
        }
    }
}

/// Why a server does not serve, and what that is about.
#[derive(Debug, Drop)]
pub struct StartError {
    pub error: ServerError,
    // A path, a port or a line, and what is wrong with it; none where no memory is left to say so.
    pub cause: Option<String>,
}

impl StartError {
    /// The error, about this.
    pub fn about<C: Display>(alloc: Global, error: ServerError, what: &str, cause: &C) -> StartError
        ensures { result.error ≡ error }
    {
        StartError {
            error,
            cause: format!(in alloc; "{what}: {cause}").ok(),
        }
    }

    /// A read, a write or a call of the system that failed on this file of a server.
    pub(crate) fn of_storage(alloc: Global, what: &str, error: &io::Error) -> StartError
        ensures memory { (result.error ≡ ServerError.Memory) ↔ (error_kind error.now ≡ ErrorKind.OutOfMemory) }
        ensures other { (result.error ≡ ServerError.Storage) ↔ ¬ (error_kind error.now ≡ ErrorKind.OutOfMemory) }
    {
        let kind = match error.kind() {
            ErrorKind::OutOfMemory => ServerError::Memory,
            _ => ServerError::Storage,
        };
        StartError::about(alloc, kind, what, error)
    }

    /// A read, a write or a call of the system that failed on this.
    pub fn of_io(alloc: Global, what: &str, error: &io::Error) -> StartError
        ensures memory { (result.error ≡ ServerError.Memory) ↔ (error_kind error.now ≡ ErrorKind.OutOfMemory) }
        ensures other { (result.error ≡ ServerError.ReadOrWrite) ↔ ¬ (error_kind error.now ≡ ErrorKind.OutOfMemory) }
    {
        StartError::about(alloc, ServerError::of_io(error), what, error)
    }
}

impl From<ServerError> for StartError {
    ghost use Rattle.std.specs.Prelude.{◌≡◌};

    ghost from_gives = { λ error start. start.error ≡ error };

    fn from(error: ServerError) -> StartError {
        StartError { error, cause: None }
    }
}

impl From<AllocError> for StartError {
    ghost use Rattle.std.specs.Prelude.{◌≡◌};
    ghost use Rattle.mx_directory.specs.declared.errors.ServerError.TheVariants.{Memory};

    ghost from_gives = { λ _ start. start.error ≡ Memory };

    fn from(_refused: AllocError) -> StartError {
        StartError::from(ServerError::Memory)
    }
}

impl<T: Drop> From<AllocFailed<T>> for StartError {
    ghost use Rattle.std.specs.Prelude.{◌≡◌};
    ghost use Rattle.mx_directory.specs.declared.errors.ServerError.TheVariants.{Memory};

    ghost from_gives = { λ _ start. start.error ≡ Memory };

    fn from(_refused: AllocFailed<T>) -> StartError {
        StartError::from(AllocError)
    }
}

impl From<CallError> for ServerError {
    ghost use Rattle.std.specs.Prelude.{◌≡◌};
    ghost use Rattle.mx_directory.specs.ServerErrors.{of_call};

    ghost from_gives = { λ error server. server ≡ of_call error };

    fn from(error: CallError) -> ServerError {
        match error {
            CallError::Memory => ServerError::Memory,
            CallError::Storage => ServerError::Storage,
        }
    }
}
