// The files of a server: its rows, in a directory.
ghost use Rattle.std.specs.Prelude.{◌≡◌, ◌≤◌, ◌<◌, ◌+◌, ◌^◌, IfOk, OnOk, length};

use crate::batches::FirstFiles;
use crate::errors::{ServerError, StartError};
use crate::losses::{Losses, check_log};
use crate::presence::{
    check_files, check_none_behind, check_none_lost, check_none_missing, path_of,
};
use crate::progress_lines::ProgressLine;
use crate::row_files::RowFile;
use crate::row_openings::{FileRows, NotingFile, count_of_rows, noting_file_at, opened_at};
use crate::server_file::{check_name, check_shards, make_server_file, server_file};
use mx_keeper::{BookRow, MOST_PLACES, ShardCount, ShardRow, TableRow};
use std::alloc::{AllocError, Global};
use std::fs::DirBuilder;
use std::io::Write;
use std::os::unix::fs::DirBuilderExt;
use std::thread::{self, Threads};

// Who may look at a directory of rows: its owner, who may change it too.
const OWNER_ALONE: u32 = 0o700;

/// The files of a server, each taken by a keeper: one for each shard, and one for each book; whether one was of an earlier
/// layout; what each is called, with what its keeper notes where it fails; and what of them is lost, a line each, where that
/// is accepted.
#[derive(Drop)]
pub struct ServerFiles {
    pub shards: Vec<FileRows<ShardRow>>,
    pub books: Vec<FileRows<BookRow>>,
    pub is_moved: bool,
    pub files: Vec<RowFile>,
    pub losses: Vec<String>,
}

// Of the files that were opened so far: whether one was of an earlier layout, what each is called, and how many are told.
#[derive(Drop)]
struct OpenedSoFar<'a> {
    is_moved: bool,
    files: Vec<RowFile>,
    progress: ProgressLine<'a>,
}

/// The files `shard-0.db`, `book-0.db` and so on of a directory, for a server of this name. Those that it lacks are made,
/// where no file that it has has a row: so the directory of a first start that was cut off is opened as a new one. Its file
/// `server.json`, which says what it was made for, is made before any row can be.
///
/// `Storage` where the directory was made for another name or number of shards, where a file can't be opened or does not
/// read, where one is missing or empty beside one with rows, where there are more, since then rows would be left out, and
/// where SQLite's log beside a file is damaged, unless losses are accepted. `ReadOrWrite` where the directory can't be made,
/// or not be looked at, and `Memory` where no memory is left. After an error the rows are as before; files without a row may
/// have been made. Where standard error is a terminal, it is told each second how many files are opened, and at the end that
/// all are.
pub fn open_directory<T: Threads + Sync>(
    rt: &T,
    host: &HostRuntime,
    directory: &str,
    name: &str,
    shards: ShardCount,
    accepts_loss: bool,
) -> Result<ServerFiles, StartError>
    ensures some_shard { IfOk result (λ files. 1 ≤ length files.shards.items) }
    ensures few_shards { IfOk result (λ files. length files.shards.items ≤ MOST_PLACES) }
    ensures some_book { IfOk result (λ files. 1 ≤ length files.books.items) }
    ensures few_books { IfOk result (λ files. length files.books.items ≤ MOST_PLACES) }
{
    let count = shards.get();
    make_directory(host, directory)?;
    let mut losses = Losses::new(host.alloc(), accepts_loss);
    check_directory(host, directory, name, count, &mut losses)?;
    opened_files(rt, host, directory, count, losses)
}

// Looks at what a directory was made for, at the logs of its files, and at which files it has. Its file `server.json` is
// made where it lacks it.
fn check_directory(
    host: &HostRuntime,
    directory: &str,
    name: &str,
    count: usize,
    losses: &mut Losses,
) -> Result<(), StartError> {
    let is_known = is_made_for(host, directory, name, count)?;
    // Before a file is opened, which copies its log.
    check_logs(host, directory, "shard", count, losses)?;
    check_logs(host, directory, "book", count, losses)?;
    check_files(host, directory, count)?;
    if is_known {
        Ok(())
    } else {
        make_server_file(host, directory, name, count)
    }
}

// Whether the directory was made for this; else it says nothing of that. `Storage` where it was made for another server.
fn is_made_for(
    host: &HostRuntime,
    directory: &str,
    name: &str,
    count: usize,
) -> Result<bool, StartError> {
    let Some(made) = server_file(host, directory)? else {
        return Ok(false);
    };
    check_shards(host.alloc(), directory, &made, count)?;
    check_name(host.alloc(), directory, &made, name)?;
    Ok(true)
}

// Looks for damage in SQLite's logs beside the first files of a kind.
fn check_logs(
    host: &HostRuntime,
    directory: &str,
    kind: &str,
    count: usize,
    losses: &mut Losses,
) -> Result<(), StartError> {
    for number in 0..count {
        let path = path_of(host.alloc(), directory, kind, number)?;
        check_log(host, &path, losses)?;
    }
    Ok(())
}

// Opens the files of a directory.
fn opened_files<T: Threads + Sync>(
    rt: &T,
    host: &HostRuntime,
    directory: &str,
    count: usize,
    losses: Losses,
) -> Result<ServerFiles, StartError>
    ensures shards { IfOk result (λ files. length files.shards.items ≡ count) }
    ensures books { IfOk result (λ files. length files.books.items ≡ count) }
{
    let mut opened = OpenedSoFar {
        is_moved: false,
        files: Vec::new(host.alloc()),
        progress: ProgressLine::new(host),
    };
    let shards = FirstFiles {
        directory,
        kind: "shard",
        count,
    };
    let books = FirstFiles {
        kind: "book",
        ..shards
    };
    let shards = keepers(rt, host, shards, &mut opened)?;
    let books = keepers(rt, host, books, &mut opened)?;
    let OpenedSoFar {
        is_moved,
        files,
        progress,
    } = opened;
    progress.tell_now(files.len() as u64, "files opened; their rows are judged");
    Ok(ServerFiles {
        shards,
        books,
        is_moved,
        files,
        losses: losses.into_lines(),
    })
}

/// Opens the file of each shard of a directory, which brings it to the current layout where it is of an earlier one, and
/// tells on `out` how many rows it has.
///
/// `Storage` where the directory was made for another number of shards, where a file is missing, can't be opened or does not
/// read, where one is empty beside one with rows, where there are more, and where SQLite's log beside one is damaged; it is then as it was.
/// `ReadOrWrite` where the directory can't be looked at, or the telling not be written, and `Memory` where no memory is
/// left.
pub fn migrate<T: Threads + Sync, W: Write>(
    rt: &T,
    host: &HostRuntime,
    directory: &str,
    shards: ShardCount,
    out: &mut W,
) -> Result<(), StartError> {
    let count = shards.get();
    check_shard_files(host, directory, count)?;
    let paths = FirstFiles {
        directory,
        kind: "shard",
        count,
    };
    let mut progress = ProgressLine::new(host);
    let mut told = 0;
    while told < count {
        let batch = paths.batch(host.alloc(), told)?;
        let counts = thread::map_vec(rt, batch, &|path: String| moved_rows(host, &path))?;
        let first = told;
        told += counts.len();
        tell_counts(host.alloc(), first, counts, out)?;
        progress.tell(told as u64, "files opened");
    }
    Ok(())
}

// How many rows the file of a shard has, once it is brought to the current layout.
fn moved_rows(host: &HostRuntime, path: &str) -> Result<usize, StartError> {
    let opened = opened_at::<ShardRow>(host, path)?;
    count_of_rows(host, path, opened.keeper)
}

// `Storage` where a directory was made for another number of shards, lacks the file of one, or has a damaged log beside one.
fn check_shard_files(host: &HostRuntime, directory: &str, count: usize) -> Result<(), StartError> {
    if let Some(made) = server_file(host, directory)? {
        check_shards(host.alloc(), directory, &made, count)?;
    }
    check_none_behind(host, directory, "shard", count)?;
    check_none_missing(host, directory, "shard", count)?;
    check_shard_logs(host, directory, count)?;
    check_none_lost(host, directory, "shard", count)
}

// `Storage` where SQLite's log beside a shard's file is damaged.
fn check_shard_logs(host: &HostRuntime, directory: &str, count: usize) -> Result<(), StartError> {
    let mut losses = Losses::new(host.alloc(), false);
    check_logs(host, directory, "shard", count, &mut losses)
}

// Tells how many rows each of some shards has, from the first one that can't be opened on nothing.
fn tell_counts<W: Write>(
    alloc: Global,
    first: usize,
    counts: Vec<Result<usize, StartError>>,
    out: &mut W,
) -> Result<(), StartError>
    requires { first + length counts.items < 2 ^ 64 }
{
    let mut number = first;
    for rows in counts {
        tell_rows(alloc, number, rows?, out)?;
        number += 1;
    }
    Ok(())
}

// Tells how many rows a shard has.
fn tell_rows<W: Write>(
    alloc: Global,
    number: usize,
    rows: usize,
    out: &mut W,
) -> Result<(), StartError> {
    match writeln!(out, "shard {number}: {rows} rows") {
        Ok(()) => Ok(()),
        Err(error) => Err(StartError::of_io(alloc, "standard output", &error)),
    }
}

// Makes the directory, where it is not there, for its owner alone.
fn make_directory(host: &HostRuntime, directory: &str) -> Result<(), StartError> {
    let mut maker = DirBuilder::new();
    maker.recursive(true).mode(OWNER_ALONE);
    match maker.create(host, directory) {
        Ok(()) => Ok(()),
        Err(error) => Err(StartError::of_io(host.alloc(), directory, &error)),
    }
}

// The rows of the first files of a kind, each of which is added to those that were opened so far. A few are opened at
// once; where one can't be, the first of them tells why.
fn keepers<T: Threads + Sync, R: TableRow + Send>(
    rt: &T,
    host: &HostRuntime,
    paths: FirstFiles<'_>,
    so_far: &mut OpenedSoFar<'_>,
) -> Result<Vec<FileRows<R>>, StartError>
    ensures { IfOk result (λ keepers. length keepers.items ≡ paths.entry.count) }
{
    let mut keepers = Vec::new(host.alloc());
    while keepers.len() < paths.count {
        let batch = paths.batch(host.alloc(), keepers.len())?;
        let opened = thread::map_vec(rt, batch, &|path: String| noting_file_at::<R>(host, path))?;
        take(opened, &mut keepers, so_far)?;
        so_far
            .progress
            .tell(so_far.files.len() as u64, "files opened");
    }
    Ok(keepers)
}

// Adds files that were opened to those before them, in their order.
fn take<R: TableRow>(
    opened: Vec<Result<NotingFile<R>, StartError>>,
    keepers: &mut Vec<FileRows<R>>,
    so_far: &mut OpenedSoFar<'_>,
) -> Result<(), StartError>
    ensures { OnOk result (length keepers.new.items ≡ length keepers.old.items + length opened.items) }
{
    for found in opened {
        let NotingFile { opened, file } = found?;
        so_far.is_moved |= opened.is_moved;
        let keeper = file.watched(opened.keeper)?;
        so_far.files.push(file)?;
        push(keepers, keeper)?;
    }
    Ok(())
}

fn push<K: Drop>(keepers: &mut Vec<K>, keeper: K) -> Result<(), StartError>
    ensures { OnOk result (length keepers.new.items ≡ length keepers.old.items + 1) }
{
    match keepers.push(keeper) {
        Ok(()) => Ok(()),
        Err(_refused) => Err(StartError::from(AllocError)),
    }
}
