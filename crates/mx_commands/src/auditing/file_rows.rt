// The rows in the files of a server. They are only read, and it may be running: what SQLite changes is a copy in memory.
ghost use Rattle.std.specs.Prelude.{IfOk, IsTrue};
ghost use Rattle.sqlite_disk.specs.Memory.{memory_is_usable};

use crate::output::{Failure, FailureAbout};
use mx_directory::ProgressLine;
use mx_keeper::{Keeper, MOST_PLACES, ShardRow, SqliteKeeper};
use sqlite::{Connection, Error, ErrorCode, FileStore, Files, Options};
use sqlite_disk::{Disk, Memory};
use std::alloc::{AllocError, Global};
use std::fs::{self, File};
use std::io::Read;

// The head of SQLite's log, which is another one each time that the log is begun anew.
const HEAD_OF_LOG: usize = 32;

// How often a file is read anew where its log was begun anew meanwhile.
const MOST_READINGS: usize = 100;

/// The rows of the files `shard-0.db`, `shard-1.db` and so on of a directory, with what SQLite's log beside each has:
/// those of one file after those of another, each in order of arrival.
///
/// `ReadOrWrite` where there is no first file, or one can't be read, and `Storage` where one does not read as rows, or is
/// written so quickly that no whole copy of it was had.
pub(crate) fn rows_of_directory(
    host: &HostRuntime,
    directory: &str,
    progress: &mut ProgressLine<'_>,
) -> Result<Vec<ShardRow>, FailureAbout> {
    let alloc = host.alloc();
    let mut all = Vec::new(alloc);
    for number in 0..MOST_PLACES {
        let path = format!(in alloc; "{directory}/shard-{number}.db")?;
        if number > 0 && !is_there(host, &path)? {
            break;
        }
        match rows_of_file(host, &path) {
            Ok(rows) => add_rows(&mut all, rows)?,
            Err(failure) => return Err(unread(alloc, failure, &path)),
        }
        progress.tell(all.len() as u64, "rows read");
    }
    Ok(all)
}

// Adds rows behind others.
fn add_rows(all: &mut Vec<ShardRow>, rows: Vec<ShardRow>) -> Result<(), AllocError> {
    for row in rows {
        all.push(row)?;
    }
    Ok(())
}

// A file that gives no rows.
fn unread(alloc: Global, failure: Failure, path: &str) -> FailureAbout {
    let words = match failure {
        Failure::ReadOrWrite => "it can't be read",
        Failure::Storage => "it does not read as rows",
        _ => return FailureAbout::from(failure),
    };
    FailureAbout::at(alloc, failure, path, words)
}

fn is_there(host: &HostRuntime, path: &str) -> Result<bool, Failure> {
    fs::exists(host, path).map_err(Failure::of_io)
}

fn rows_of_file(host: &HostRuntime, path: &str) -> Result<Vec<ShardRow>, Failure> {
    let alloc = host.alloc();
    let files = files_at(host, path)?;
    match Connection::open_files(alloc, files, Options::new(0)) {
        Ok(connection) => rows_in(alloc, connection),
        Err((error, _left)) => Err(of_sqlite(error)),
    }
}

// A file and its log, as they were once the file was read. SQLite copies pages of the log into the file, and only then
// begins the log anew. So where the log was not begun anew, it has each page that was copied while the file was read.
fn files_at(host: &HostRuntime, path: &str) -> Result<Files<Memory>, Failure>
    ensures { IfOk result (λ files. IsTrue (memory_is_usable files.log) × IsTrue (memory_is_usable files.db)) }
{
    let log = format!(in host.alloc(); "{path}-wal")?;
    for _reading in 0..MOST_READINGS {
        let before = head_of(host, &log)?;
        let copied = Files {
            db: copy_of(host, path)?,
            log: copy_if_there(host, &log)?,
        };
        if head_of(host, &log)? == before {
            return Ok(copied);
        }
    }
    Err(Failure::Storage)
}

// The first bytes of a log; of one that is not there none.
fn head_of(host: &HostRuntime, log: &str) -> Result<Vec<u8>, Failure> {
    let mut head = [0u8; HEAD_OF_LOG];
    let mut length = 0;
    if is_there(host, log)? {
        let mut file = File::open(host, log).map_err(Failure::of_io)?;
        length = file.read(&mut head).map_err(Failure::of_io)?;
    }
    let read = Vec::from_slice(host.alloc(), head.get(..length).unwrap_or_default())?;
    Ok(read)
}

// The bytes of a file in memory; of one that is not there none.
fn copy_if_there(host: &HostRuntime, path: &str) -> Result<Memory, Failure>
    ensures { IfOk result (λ copy. IsTrue (memory_is_usable copy)) }
{
    if is_there(host, path)? {
        copy_of(host, path)
    } else {
        Ok(Memory::new(host.alloc()))
    }
}

// The bytes of a file in memory.
fn copy_of(host: &HostRuntime, path: &str) -> Result<Memory, Failure>
    ensures { IfOk result (λ copy. IsTrue (memory_is_usable copy)) }
{
    let mut copy = Memory::new(host.alloc());
    let bytes = fs::read(host, path).map_err(Failure::of_io)?;
    copy.write_at(0, &bytes).map_err(Failure::of_io)?;
    Ok(copy)
}

// The rows of a database.
fn rows_in(
    alloc: Global,
    connection: Connection<FileStore<Memory>>,
) -> Result<Vec<ShardRow>, Failure> {
    match SqliteKeeper::adopt(alloc, connection) {
        Ok(keeper) => {
            let mut keeper: SqliteKeeper<FileStore<Memory>, ShardRow> = keeper;
            keeper.rows().map_err(Failure::of_keeper)
        }
        Err(refused) => Err(Failure::of_keeper(refused.fault)),
    }
}

fn of_sqlite(error: Error) -> Failure {
    match error {
        Error::SqliteFailure(ErrorCode::OutOfMemory) => Failure::Memory,
        _ => Failure::Storage,
    }
}
