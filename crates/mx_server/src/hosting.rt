// The rooms that a server hosts from its start.
ghost use Rattle.std.specs.Prelude.{◌≡◌, ◌↔◌, false, true, OnErr, OnOk};
ghost use Rattle.mx_pdu.specs.Offers.{offer_by};
ghost use Rattle.mx_log.specs.HostLines.{HostsRoom};
ghost use Rattle.mx_server.specs.Hosting.{AreHosted, HostsNot, IsDone, StopsAt, is_blank, lines_to_host};
ghost use Rattle.mx_server.specs.Judging.{judges_presence};

use mx_directory::{ServerError, StartError};
use mx_keeper::{BookRow, Keeper, ShardRow};
use mx_log::{HostLineOutcome, InputError, first_line, host_by_line, read_all};
use mx_options::ServeOptions;
use mx_pdu::PresenceVerifier;
use mx_world::World;
use std::alloc::Global;
use std::fs;
use std::io::Write;

/// The bytes of the file of rooms; none where there is no such file.
pub(crate) fn rooms_to_host(
    host: &HostRuntime,
    options: &ServeOptions,
) -> Result<Vec<u8>, StartError> {
    match &options.rooms {
        Some(path) => lines_of(host, path),
        None => Ok(Vec::new(host.alloc())),
    }
}

// The bytes of a file.
fn lines_of(host: &HostRuntime, path: &str) -> Result<Vec<u8>, StartError> {
    let alloc = host.alloc();
    match fs::open(host, path) {
        Ok(file) => {
            let mut file = file;
            match read_all(alloc, &mut file) {
                Ok(lines) => Ok(lines),
                Err(error) => {
                    let kind = of_input(error);
                    Err(StartError::about(alloc, kind, path, &"it can't be read"))
                }
            }
        }
        Err(error) => Err(StartError::of_io(alloc, path, &error)),
    }
}

// Why an input was not read.
fn of_input(error: InputError) -> ServerError
    ensures { (result ≡ ServerError.Memory) ↔ (error ≡ InputError.Memory) }
{
    match error {
        InputError::Memory => ServerError::Memory,
        InputError::Read => ServerError::ReadOrWrite,
    }
}

/// What the file of rooms is called.
pub(crate) fn file_of_rooms(options: &ServeOptions) -> &str {
    match &options.rooms {
        Some(path) => path,
        None => "",
    }
}

/// Hosts the room of each line that is not blank, one after the other. `NotHosted` where one is not hosted: then `err` is
/// told what the line is answered, and of those behind it nothing is done. `Memory` where no memory is left to say so.
pub(crate) fn host_rooms<K: Keeper<Row = ShardRow>, L: Keeper<Row = BookRow>, E: Write>(
    alloc: Global,
    server: &mut World<K, L>,
    lines: &[u8],
    path: &str,
    err: &mut E,
) -> Result<(), StartError>
    ensures ok { OnOk result (AreHosted judges_presence (lines_to_host lines.now) server.old server.new) }
    ensures err { OnErr result (StopsAt judges_presence (lines_to_host lines.now) server.old server.new) }
{
    let mut rest = lines;
    let mut number = 1u64;
    while !rest.is_empty() {
        let (line, after) = first_line(rest);
        let is_done = is_line_done(alloc, server, line, err);
        if !is_done {
            let place = format!(in alloc; "line {number}")?;
            return Err(StartError::about(alloc, ServerError::NotHosted, path, &place));
        }
        rest = after;
        number = number.saturating_add(1);
    }
    Ok(())
}

// Whether a line is blank, or hosts a room, or its room is hosted; else `err` is told what the line is answered.
fn is_line_done<K: Keeper<Row = ShardRow>, L: Keeper<Row = BookRow>, E: Write>(
    alloc: Global,
    server: &mut World<K, L>,
    line: &[u8],
    err: &mut E,
) -> bool
    ensures hosted { result ≡ true → IsDone judges_presence line.now server.old server.new }
    ensures not_hosted { result ≡ false
        → (is_blank line.now ≡ false) × HostsNot judges_presence line.now server.old server.new }
{
    if is_blank(line) {
        return true;
    }
    is_hosted_by(alloc, server, line, err)
}

// Whether a line has nothing but white space.
fn is_blank(line: &[u8]) -> bool
    ensures { result ≡ is_blank line.now }
{
    line.iter().all(|byte| byte.is_ascii_whitespace())
}

// Whether a line hosts a room, or its room is hosted; else `err` is told what the line is answered.
fn is_hosted_by<K: Keeper<Row = ShardRow>, L: Keeper<Row = BookRow>, E: Write>(
    alloc: Global,
    server: &mut World<K, L>,
    line: &[u8],
    err: &mut E,
) -> bool
    ensures hosted { result ≡ true → HostsRoom (offer_by judges_presence) line.now server.old server.new }
    ensures not_hosted { result ≡ false → HostsNot judges_presence line.now server.old server.new }
{
    match host_by_line(alloc, &PresenceVerifier, server, line, err) {
        Ok(HostLineOutcome::Hosted) => true,
        Ok(HostLineOutcome::NotHosted | HostLineOutcome::Refused(_)) => false,
        Err(_error) => false,
    }
}
