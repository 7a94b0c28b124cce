// The server that a log makes.
ghost use Rattle.std.specs.Prelude.{◌≡◌, ℕ, List, [], IfOk, IfSome, OnOk};
ghost use Rattle.mx_pdu.specs.Offers.{offer_by};
ghost use Rattle.mx_world.specs.Calls.{Start};
ghost use Rattle.mx_world.specs.Worlds.{IsAfter};
ghost use Rattle.mx_world.specs.declared.steps.Step.{Step as AnyStep};
ghost use Rattle.mx_log.specs.LineRuns.{AreRunSoFar, IsDone};
ghost use Rattle.mx_log.specs.LineSteps.{IsServerAfter};
ghost use Rattle.mx_log.specs.Lines.{lines_of};
ghost use Rattle.mx_log.specs.Lines as definition;

use crate::desks::LineDesk;
use crate::line_reader::LineReader;
use crate::lines::read_line;
use crate::logs::LinesError;
use crate::steps::answer_line;
use crate::watching::LogWatcher;
use mx_ident::ServerName;
use mx_keeper::{BookRow, MemoryKeeper, ShardCount, ShardRow};
use mx_pdu::Verifier;
use mx_requests::WireServer;
use mx_world::World;
use std::alloc::Global;
use std::io::Read;

/// The server that a log makes, and who was told of its lines and steps.
#[derive(Drop)]
pub struct WatchedServer<W: LogWatcher + Drop> {
    pub world: World<MemoryKeeper<ShardRow>, MemoryKeeper<BookRow>>,
    pub watcher: W,
}

/// The server of this name, over so many shards and books with their rows in memory, that has done what the lines of a log
/// ask for, in their order. The watcher is told of each line and each step, with its reply.
///
/// `Memory` where a line is refused for want of it, and where there is none for the server; `Read` where the log could not
/// be read on.
///
/// Source: the lines are our own; the requests that they hold are those of the Matrix specification, Server-Server API.
pub fn server_after_log<R: Read, V: Verifier, W: LogWatcher + Drop>(
    alloc: Global,
    input: &mut R,
    name: &ServerName,
    shards: ShardCount,
    verifier: &V,
    watcher: W,
) -> Result<WatchedServer<W>, LinesError>
    ensures { IfOk result (λ after. IfSome (R.remaining input.old) (λ read.
        IsServerAfter (V.judges verifier.now) name.now read after.world)) }
{
    let name = name.clone()?;
    let server = WireServer::new(alloc, name)?;
    let mut desk = LineDesk::new(alloc, shards, watcher)?;
    take_log(&server, verifier, &mut desk, input)?;
    let LineDesk { rooms, watcher, .. } = desk;
    Ok(WatchedServer {
        world: rooms.world,
        watcher,
    })
}

// Each line of a log, done.
fn take_log<V: Verifier, R: Read, W: LogWatcher + Drop>(
    server: &WireServer,
    verifier: &V,
    desk: &mut LineDesk<W>,
    input: &mut R,
) -> Result<(), LinesError>
    ensures { OnOk result ((start : Start) → IsAfter start [] desk.old.rooms.world → IfSome (R.remaining input.old) (λ read.
        (output : List ℕ) × AreRunSoFar (offer_by (V.judges verifier.now)) server.now.name start (lines_of read)
        output desk.new.rooms.world)) }
{
    let alloc = desk.alloc;
    let mut lines = LineReader::new(alloc)?;
    let mut line = Vec::new(alloc);
    while lines.next_line(alloc, input, &mut line)? {
        take_text(server, verifier, desk, &line)?;
    }
    Ok(())
}

// The line that a text is, done.
fn take_text<V: Verifier, W: LogWatcher + Drop>(
    server: &WireServer,
    verifier: &V,
    desk: &mut LineDesk<W>,
    text: &[u8],
) -> Result<(), LinesError>
    ensures { OnOk result ((output : List ℕ) × ((start : Start) (earlier : List AnyStep)
        → IsAfter start earlier desk.old.rooms.world
        → IsDone (offer_by (V.judges verifier.now)) server.now.name
        (definition.read_line (offer_by (V.judges verifier.now)) text.now) output start earlier desk.new.rooms.world)) }
{
    let line = read_line(desk.alloc, &mut desk.scratch, verifier, text)?;
    desk.watcher.see_line(text, line.form());
    let _answer = answer_line(server, verifier, desk, line)?;
    Ok(())
}
