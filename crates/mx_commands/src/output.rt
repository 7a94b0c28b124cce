// What the program says, and its exit statuses.
ghost use Rattle.std.specs.Prelude.{◌≡◌, ◌↔◌, IfOk};
ghost use Rattle.std.specs.IoError.{error_kind};
ghost use Rattle.mx_canon.specs.Canonical.{canonical_text};
ghost use Rattle.mx_redact.specs.Hashes.{hash_holds};
ghost use Rattle.mx_commands.specs.Lines.{check_lines};

use crate::checking::{CheckError, Checked};
use mx_directory::{ServerError, StartError};
use mx_keeper::KeeperFault;
use mx_log::{InputError, LinesError};
use std::alloc::{AllocError, Global};
use std::io::{self, ErrorKind, Write};
use thiserror::Error;

/// The exit status of a run that did what it was asked.
pub const SUCCESS: u8 = 0;
/// The exit status where the input was refused, memory ran out, or a read or a write failed.
pub const REFUSED: u8 = 1;
/// The exit status where the command line was wrong.
pub const MISUSED: u8 = 2;

/// Why the program did not do what it was asked.
#[derive(Clone, Copy, Debug, PartialEq, Eq, Drop, Error)]
pub enum Failure {
    #[error(transparent)]
    Check(CheckError),
    #[error("memory")]
    Memory,
    #[error("storage")]
    Storage,
    #[error("failed read or write")]
    ReadOrWrite,
    #[error("thread")]
    Thread,
    #[error("refused: no such room")]
    NoRoom,
    #[error("refused: no such event")]
    NoEvent,
    #[error("refused: no events")]
    NoEvents,
    #[error("refused: several rooms, of which --room names one")]
    SeveralRooms,
    #[error("refused: no create event")]
    NoCreateEvent,
    #[error("refused: a line is a request, for which --name says whose server answers")]
    NameNeeded,
    #[error("refused: content hash")]
    BadHash,
    #[error("refused: bad line")]
    BadLine,
}

impl Failure {
    /// Why the words of the command line could not be had, or a writer.
    pub fn of_io(error: io::Error) -> Failure
        ensures memory { (result ≡ Failure.Memory) ↔ (error_kind error ≡ ErrorKind.OutOfMemory) }
        ensures other { (result ≡ Failure.ReadOrWrite) ↔ ¬ (error_kind error ≡ ErrorKind.OutOfMemory) }
    {
        match error.kind() {
            ErrorKind::OutOfMemory => Failure::Memory,
            _ => Failure::ReadOrWrite,
        }
    }

    /// Why what keeps rows did not give them.
    pub(crate) fn of_keeper(fault: KeeperFault) -> Failure {
        match fault {
            KeeperFault::Memory => Failure::Memory,
            KeeperFault::Store | KeeperFault::Table => Failure::Storage,
        }
    }
}

impl From<AllocError> for Failure {
    ghost use Rattle.std.specs.Prelude.{◌≡◌};
    ghost use Rattle.mx_commands.specs.declared.output.Failure.TheVariants.{Memory};

    ghost from_gives = { λ _ e. e ≡ Memory };

    fn from(_refused: AllocError) -> Failure {
        Failure::Memory
    }
}

impl From<InputError> for Failure {
    ghost use Rattle.std.specs.Prelude.{◌≡◌};
    ghost use Rattle.mx_commands.specs.Failures.{of_input};

    ghost from_gives = { λ error failure. failure ≡ of_input error };

    fn from(error: InputError) -> Failure {
        match error {
            InputError::Memory => Failure::Memory,
            InputError::Read => Failure::ReadOrWrite,
        }
    }
}

impl From<LinesError> for Failure {
    ghost use Rattle.std.specs.Prelude.{◌≡◌};
    ghost use Rattle.mx_commands.specs.Failures.{of_lines};

    ghost from_gives = { λ error failure. failure ≡ of_lines error };

    fn from(error: LinesError) -> Failure {
        match error {
            LinesError::Memory => Failure::Memory,
            LinesError::Read | LinesError::Write => Failure::ReadOrWrite,
        }
    }
}

impl From<CheckError> for Failure {
    ghost use Rattle.std.specs.Prelude.{◌≡◌};
    ghost use Rattle.mx_commands.specs.declared.output.Failure.TheVariants as variants;

    ghost from_gives = { λ error failure. failure ≡ variants.Check error };

    fn from(error: CheckError) -> Failure {
        Failure::Check(error)
    }
}

/// Why the program did not do what it was asked, and what that is about, where that is known.
#[derive(Debug, Drop)]
pub struct FailureAbout {
    pub failure: Failure,
    pub cause: Option<String>,
}

impl FailureAbout {
    /// A failure at a path. Where no memory is left for the path it is left out.
    pub(crate) fn at(alloc: Global, failure: Failure, path: &str, words: &str) -> FailureAbout {
        let cause = format!(in alloc; "{path}: {words}").ok();
        FailureAbout { failure, cause }
    }
}

impl From<Failure> for FailureAbout {
    ghost use Rattle.std.specs.Prelude.{◌≡◌};

    ghost from_gives = { λ failure about. about.failure ≡ failure };

    fn from(failure: Failure) -> FailureAbout {
        FailureAbout {
            failure,
            cause: None,
        }
    }
}

impl From<AllocError> for FailureAbout {
    ghost use Rattle.std.specs.Prelude.{◌≡◌};
    ghost use Rattle.mx_commands.specs.declared.output.Failure.TheVariants.{Memory};

    ghost from_gives = { λ _ about. about.failure ≡ Memory };

    fn from(_refused: AllocError) -> FailureAbout {
        FailureAbout {
            failure: Failure::Memory,
            cause: None,
        }
    }
}

/// Says on `err` what failed, and in a second line what that is about, where that can be written, and gives the exit status.
pub fn report_about<E: Write>(about: FailureAbout, err: &mut E) -> u8
    ensures { result ≡ REFUSED }
{
    let status = report(about.failure, err);
    if let Some(cause) = about.cause {
        let _ = writeln!(err, "{cause}");
    }
    status
}

/// Says in one line on `err` what failed, where that can be written, and gives the exit status.
pub fn report<E: Write>(failure: Failure, err: &mut E) -> u8
    ensures { result ≡ REFUSED }
{
    let _ = writeln!(err, "{failure}");
    REFUSED
}

/// Says on `err` why a server does not serve, and in a second line what that is about, where that can be written, and gives
/// the exit status. What a line that hosts no room is answered was said before.
pub fn report_server<E: Write>(refused: StartError, err: &mut E) -> u8
    ensures { result ≡ REFUSED }
{
    let StartError { error, cause } = refused;
    let status = match error {
        ServerError::Memory => report(Failure::Memory, err),
        ServerError::Storage => report(Failure::Storage, err),
        ServerError::ReadOrWrite => report(Failure::ReadOrWrite, err),
        ServerError::Thread => report(Failure::Thread, err),
        ServerError::NotHosted => REFUSED,
    };
    if let Some(cause) = cause {
        let _ = writeln!(err, "{cause}");
    }
    status
}

/// The three lines of `check`.
pub fn lines_of(alloc: Global, checked: &Checked) -> Result<Vec<u8>, AllocError>
    ensures { IfOk result (λ lines. lines.items ≡ check_lines checked.now.id (hash_holds checked.now.event) (canonical_text checked.now.event)) }
{
    let hash = if checked.event.hash_holds() {
        "good"
    } else {
        "bad"
    };
    let id = checked.id.as_str();
    let head = format!(in alloc; "id {id}\nhash {hash}\ncanonical ")?;
    let text = checked.event.text();
    let mut lines = Vec::with_capacity(
        alloc,
        head.len().saturating_add(text.len()).saturating_add(1),
    )?;
    lines.extend_from_slice(head.as_bytes())?;
    lines.extend_from_slice(text.as_bytes())?;
    lines.push(b'\n')?;
    Ok(lines)
}

/// Writes all of the bytes.
pub(crate) fn write_to<W: Write>(out: &mut W, bytes: &[u8]) -> Result<(), Failure> {
    out.write_all(bytes).map_err(Failure::of_io)?;
    flushed(out)
}

/// Writes out what a writer holds back.
pub(crate) fn flushed<W: Write>(out: &mut W) -> Result<(), Failure> {
    out.flush().map_err(Failure::of_io)
}
