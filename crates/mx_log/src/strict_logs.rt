// Logs, answered up to their first bad line.
ghost use Rattle.std.specs.Prelude.{◌≡◌, ℕ, List, [], IfOk, IfSome, false, option_map};
ghost use Rattle.std.specs.Io.KnownBytes.{Appends};
ghost use Rattle.mx_pdu.specs.Offers.{offer_by};
ghost use Rattle.mx_world.specs.Calls.{Start};
ghost use Rattle.mx_world.specs.Worlds.{IsAfter};
ghost use Rattle.mx_log.specs.LineOutputs.{has_refusal};
ghost use Rattle.mx_log.specs.Lines.{lines_of};
ghost use Rattle.mx_log.specs.StrictLogs.{IsAnsweredToBad, bad_shown};
ghost use Rattle.mx_log.specs.StrictRuns.{AreAnsweredToBad};

use crate::desks::LineDesk;
use crate::line_reader::LineReader;
use crate::logs::{LinesError, answer_told};
use crate::watching::Nobody;
use mx_ident::ServerName;
use mx_keeper::ShardCount;
use mx_pdu::Verifier;
use mx_requests::WireServer;
use std::alloc::Global;
use std::io::{Read, Write};

/// A line of a log that has no form: its number, from 1, and its text.
#[derive(Debug, Drop)]
pub struct BadLine {
    pub number: u64,
    pub text: Vec<u8>,
}

/// Answers a log as [`run_lines`](crate::run_lines) does, with the same errors, up to its first bad line, that one too, and gives
/// that line; none where no line is bad. The lines behind it are not answered.
///
/// Where no line of what is written is a refusal for memory, the line that is given is the first bad one, and what is
/// written is what the steps of the lines up to it call for. Nothing is promised of what was written before an error.
///
/// Source: the lines are our own; the requests that they hold are those of the Matrix specification, Server-Server API.
pub fn run_lines_to_bad<R: Read, W: Write, V: Verifier>(
    alloc: Global,
    input: &mut R,
    out: &mut W,
    name: &ServerName,
    shards: ShardCount,
    verifier: &V,
) -> Result<Option<BadLine>, LinesError>
    ensures { IfOk result (λ bad. IfSome (R.remaining input.old) (λ read.
        (written : List ℕ) × Appends (W.contents out.old) (W.contents out.new) written
        × (has_refusal written ≡ false → IsAnsweredToBad (V.judges verifier.now) name.now read written (option_map bad_shown bad)))) }
{
    let name = name.clone()?;
    let server = WireServer::new(alloc, name)?;
    let mut desk = LineDesk::new(alloc, shards, Nobody)?;
    let bad = answer_to_bad(&server, verifier, &mut desk, input, out)?;
    Ok(bad)
}

// Each line of a log up to the first bad one, answered.
fn answer_to_bad<V: Verifier, R: Read, W: Write>(
    server: &WireServer,
    verifier: &V,
    desk: &mut LineDesk<Nobody>,
    input: &mut R,
    out: &mut W,
) -> Result<Option<BadLine>, LinesError>
    ensures { IfOk result (λ bad. (start : Start) → IsAfter start [] desk.old.rooms.world
        → IfSome (R.remaining input.old) (λ read.
        AreAnsweredToBad (offer_by (V.judges verifier.now)) server.now.name start (lines_of read)
        (W.contents out.old) (W.contents out.new) (option_map bad_shown bad))) }
{
    let alloc = desk.alloc;
    let mut lines = LineReader::new(alloc)?;
    let mut line = Vec::new(alloc);
    let mut number = 0u64;
    while lines.next_line(alloc, input, &mut line)? {
        number = number.checked_add(1).ok_or(LinesError::Read)?;
        if answer_told(server, verifier, desk, &line, out)? {
            return Ok(Some(BadLine { number, text: line }));
        }
    }
    Ok(None)
}
