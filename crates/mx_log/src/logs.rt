// Logs, answered line by line.
ghost use Rattle.std.specs.Prelude.{◌≡◌, ℕ, List, [], IfOk, IfSome, OnOk, false};
ghost use Rattle.std.specs.Io.KnownBytes.{Appends};
ghost use Rattle.mx_world.specs.Calls.{Start};
ghost use Rattle.mx_world.specs.Worlds.{IsAfter};
ghost use Rattle.mx_log.specs.LineOutputs.{has_refusal};
ghost use Rattle.mx_log.specs.LineRuns.{AreAnswered, IsTold};
ghost use Rattle.mx_log.specs.LineSteps.{IsAnswered};
ghost use Rattle.mx_log.specs.Lines.{lines_of};
ghost use Rattle.mx_pdu.specs.Offers.{offer_by};

use crate::answers::LineRefusal;
use crate::answers::writing::{write_answer, write_refusal};
use crate::desks::LineDesk;
use crate::input::InputError;
use crate::line_reader::LineReader;
use crate::lines::read_line;
use crate::steps::answer_line;
use crate::watching::Nobody;
use mx_ident::ServerName;
use mx_keeper::ShardCount;
use mx_pdu::Verifier;
use mx_requests::WireServer;
use std::alloc::{AllocError, Global};
use std::io::{self, Read, Write};
use thiserror::Error;

/// Why a log was not answered to its end.
///
/// `Memory`: no memory was left before its first line, or for the bytes of a line. `Read`: the log could not be read on.
/// `Write`: an answer could not be written.
#[derive(Clone, Copy, Debug, PartialEq, Eq, Drop, Error)]
pub enum LinesError {
    #[error("memory")]
    Memory,
    #[error("failed read")]
    Read,
    #[error("failed write")]
    Write,
}

impl From<AllocError> for LinesError {
    ghost use Rattle.std.specs.Prelude.{◌≡◌};
    ghost use Rattle.mx_log.specs.declared.logs.LinesError.TheVariants.{Memory};

    ghost from_gives = { λ _ e. e ≡ Memory };

    fn from(_refused: AllocError) -> LinesError {
        LinesError::Memory
    }
}

impl From<InputError> for LinesError {
    ghost use Rattle.std.specs.Prelude.{◌≡◌};
    ghost use Rattle.mx_log.specs.LineErrors.{of_input};

    ghost from_gives = { λ error e. e ≡ of_input error };

    fn from(error: InputError) -> LinesError {
        match error {
            InputError::Memory => LinesError::Memory,
            InputError::Read => LinesError::Read,
        }
    }
}

impl From<io::Error> for LinesError {
    ghost use Rattle.std.specs.Prelude.{◌≡◌};
    ghost use Rattle.mx_log.specs.declared.logs.LinesError.TheVariants.{Write};

    ghost from_gives = { λ _ e. e ≡ Write };

    fn from(_failed: io::Error) -> LinesError {
        LinesError::Write
    }
}

impl From<LineRefusal> for LinesError {
    ghost use Rattle.std.specs.Prelude.{◌≡◌};
    ghost use Rattle.mx_log.specs.declared.logs.LinesError.TheVariants.{Memory};

    ghost from_gives = { λ _ e. e ≡ Memory };

    fn from(_refused: LineRefusal) -> LinesError {
        LinesError::Memory
    }
}

/// Answers a log as a new server of this name, over so many shards and books, with its rows in memory: one line for each
/// line of the log, in their order. A line is answered once it is whole, so that of the log no more is held than one line
/// and what one read gave.
///
/// Where no line is a refusal for memory, what is written is what the lines' steps call for: a server that takes these
/// steps one after another, each transaction's next only where it was opened, gives these replies. A line that is refused
/// is answered so, and those after it are read. Nothing is promised of what was written after an error.
///
/// Source: the lines are our own; the requests that they hold are those of the Matrix specification, Server-Server API.
pub fn run_lines<R: Read, W: Write, V: Verifier>(
    alloc: Global,
    input: &mut R,
    out: &mut W,
    name: &ServerName,
    shards: ShardCount,
    verifier: &V,
) -> Result<(), LinesError>
    ensures { OnOk result (IfSome (R.remaining input.old) (λ read.
        (written : List ℕ) × Appends (W.contents out.old) (W.contents out.new) written
        × (has_refusal written ≡ false → IsAnswered (V.judges verifier.now) name.now read written))) }
{
    let name = name.clone()?;
    let server = WireServer::new(alloc, name)?;
    let mut desk = LineDesk::new(alloc, shards, Nobody)?;
    answer_log(&server, verifier, &mut desk, input, out)?;
    Ok(())
}

// Each line of a log, answered.
fn answer_log<V: Verifier, R: Read, W: Write>(
    server: &WireServer,
    verifier: &V,
    desk: &mut LineDesk<Nobody>,
    input: &mut R,
    out: &mut W,
) -> Result<(), LinesError>
    ensures { OnOk result ((start : Start) → IsAfter start [] desk.old.rooms.world → IfSome (R.remaining input.old) (λ read.
        AreAnswered (offer_by (V.judges verifier.now)) server.now.name start (lines_of read)
        (W.contents out.old) (W.contents out.new) desk.new.rooms.world)) }
{
    let alloc = desk.alloc;
    let mut lines = LineReader::new(alloc)?;
    let mut line = Vec::new(alloc);
    while lines.next_line(alloc, input, &mut line)? {
        let _is_bad = answer_told(server, verifier, desk, &line, out)?;
    }
    Ok(())
}

/// The line that a text is, answered; and whether it is bad. An error is one of `out`.
pub(crate) fn answer_told<V: Verifier, W: Write>(
    server: &WireServer,
    verifier: &V,
    desk: &mut LineDesk<Nobody>,
    text: &[u8],
    out: &mut W,
) -> io::Result<bool>
    ensures { IfOk result (λ is_bad. IsTold (offer_by (V.judges verifier.now)) server.now.name text.now
        desk.old.rooms.world desk.new.rooms.world (W.contents out.old) (W.contents out.new) is_bad) }
{
    let line = match read_line(desk.alloc, &mut desk.scratch, verifier, text) {
        Ok(line) => line,
        Err(_refused) => {
            write_refusal(out, LineRefusal::Step)?;
            return Ok(false);
        }
    };
    let is_bad = line.is_bad();
    match answer_line(server, verifier, desk, line) {
        Ok(answer) => {
            let _told = write_answer(desk.alloc, out, &answer)?;
            Ok(is_bad)
        }
        Err(refusal) => {
            write_refusal(out, refusal)?;
            Ok(is_bad)
        }
    }
}
