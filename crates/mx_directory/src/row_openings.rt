// The rows of a file, opened.
ghost use Rattle.std.specs.Prelude.{◌≡◌, IfOk};

use crate::errors::{ServerError, StartError};
use crate::file_states::FileState;
use crate::new_files::make_file;
use crate::opened_names::OpenedName;
use crate::row_files::RowFile;
use crate::watched_keepers::WatchedKeeper;
use mx_keeper::{FailureNote, Keeper, KeeperFault, SqliteKeeper, TableRow};
use sqlite::{Alter, Connection, Error, ErrorCode, File, FileStore, Options, Unknown};
use sqlite_std_file::OpenError;
use std::alloc::Global;
use std::fs;
use std::hash::{BuildHasher, RandomState};
use std::io::ErrorKind;
use std::sync::Arc;

// How many pages of 4,096 bytes SQLite keeps of a file in memory, which it takes as it opens the file. A row that is added
// reads the pages from the table's root to its end, and those of an index.
const CACHED_PAGES: usize = 32;

// A log of so many bytes at most has nothing: it is cut to so many once it is copied.
const LENGTH_OF_EMPTY_LOG: u64 = 41;

/// Rows of one kind in a file that is watched.
pub type FileRows<R> = WatchedKeeper<FileStore<File>, R>;

/// Rows of one kind in a file, and whether it was of an earlier layout.
#[derive(Drop)]
pub(crate) struct OpenedFile<R: TableRow> {
    pub(crate) keeper: SqliteKeeper<FileStore<File>, R>,
    pub(crate) is_moved: bool,
}

/// Rows of one kind in a file, and what is told where it fails or is lost.
#[derive(Drop)]
pub(crate) struct NotingFile<R: TableRow> {
    pub(crate) opened: OpenedFile<R>,
    pub(crate) file: RowFile,
}

/// The rows of a file, which is made where it is not there, and what its keeper notes where it fails.
pub(crate) fn noting_file_at<R: TableRow>(
    host: &HostRuntime,
    path: String,
) -> Result<NotingFile<R>, StartError> {
    let note = Arc::new(host.alloc(), FailureNote::new(host.alloc()))?;
    let state = Arc::new(host.alloc(), FileState::new())?;
    let mut opened = file_at(host, &path)?;
    opened.keeper.note_failures_in(Arc::try_clone(&note)?);
    let file = row_file(host, path, note, state)?;
    Ok(NotingFile { opened, file })
}

// A file that is open, under its name, and SQLite's log beside it.
fn row_file(
    host: &HostRuntime,
    path: String,
    note: Arc<FailureNote>,
    state: Arc<FileState>,
) -> Result<RowFile, StartError> {
    let log = format!(in host.alloc(); "{path}-wal")?;
    let log = OpenedName::new(host, log).ok();
    match OpenedName::new(host, path) {
        Ok(rows) => Ok(RowFile::new(rows, log, note, state)),
        Err((error, path)) => Err(StartError::of_storage(host.alloc(), &path, &error)),
    }
}

/// Whether a file has rows.
pub(crate) fn has_rows<S: Alter + Drop, R: TableRow>(
    host: &HostRuntime,
    path: &str,
    keeper: SqliteKeeper<S, R>,
) -> Result<bool, StartError> {
    let rows = count_of_rows(host, path, keeper)?;
    Ok(rows > 0)
}

/// How many rows a file has.
pub(crate) fn count_of_rows<S: Alter + Drop, R: TableRow>(
    host: &HostRuntime,
    path: &str,
    keeper: SqliteKeeper<S, R>,
) -> Result<usize, StartError> {
    let mut keeper = keeper;
    match keeper.rows() {
        Ok(rows) => Ok(rows.len()),
        Err(fault) => Err(unread(host, path, fault)),
    }
}

// The rows of a file can't be read, or are none.
fn unread(host: &HostRuntime, path: &str, fault: KeeperFault) -> StartError {
    StartError::about(
        host.alloc(),
        ServerError::of_keeper(fault),
        path,
        &"it does not read as rows",
    )
}

// The rows of a file, which is made where it is not there.
fn file_at<R: TableRow>(host: &HostRuntime, path: &str) -> Result<OpenedFile<R>, StartError> {
    make_file::<R>(host, path);
    opened_at(host, path)
}

/// The rows of a file. What SQLite's log beside it has is copied into it first, so that it is whole alone.
pub(crate) fn opened_at<R: TableRow>(
    host: &HostRuntime,
    path: &str,
) -> Result<OpenedFile<R>, StartError> {
    copy_log(host, path)?;
    let connection = connection_at(host, path)?;
    let is_moved = R::is_earlier(connection.schema());
    let keeper = adopted(host, path, connection)?;
    Ok(OpenedFile { keeper, is_moved })
}

// Copies what SQLite's log beside a file has into the file. Where the disk has no room for that, it stays in the log, from which it
// is read.
fn copy_log(host: &HostRuntime, path: &str) -> Result<(), StartError> {
    if !has_log(host, path)? {
        return Ok(());
    }
    match connection_at(host, path)?.close() {
        Ok(()) | Err(Error::SqliteFailure(ErrorCode::DiskFull)) => Ok(()),
        Err(error) => Err(unopened(host, path, &error)),
    }
}

/// Whether SQLite's log beside a file may have something.
pub(crate) fn has_log(host: &HostRuntime, path: &str) -> Result<bool, StartError> {
    let log = format!(in host.alloc(); "{path}-wal")?;
    match fs::metadata(host, log.as_str()) {
        Ok(about) => Ok(about.len() > LENGTH_OF_EMPTY_LOG),
        Err(_error) => Ok(false),
    }
}

// The database in a file. One that is new ends each page in a sum, by which it is told when a bit has changed.
fn connection_at(
    host: &HostRuntime,
    path: &str,
) -> Result<Connection<FileStore<File>>, StartError> {
    let files = match sqlite_std_file::open(host, path, Unknown) {
        Ok(files) => files,
        Err(error) => return Err(no_file(host, path, error)),
    };
    let options = options(host, path)?;
    match Connection::open_files_with(host.alloc(), files, options, true) {
        Ok(connection) => Ok(connection),
        Err((error, _files)) => Err(unopened(host, path, &error)),
    }
}

// How a file is opened: the usual options, with few pages in memory.
fn options(host: &HostRuntime, path: &str) -> Result<Options, StartError>
    ensures { IfOk result (λ options. options.cache_pages ≡ CACHED_PAGES) }
{
    match RandomState::new(host) {
        Ok(random) => Ok(Options {
            cache_pages: CACHED_PAGES,
            ..Options::new(random.hash_one(&0u8))
        }),
        Err(error) => Err(StartError::of_storage(host.alloc(), path, &error)),
    }
}

fn adopted<S: Alter + Drop, R: TableRow>(
    host: &HostRuntime,
    path: &str,
    connection: Connection<S>,
) -> Result<SqliteKeeper<S, R>, StartError> {
    match SqliteKeeper::adopt(host.alloc(), connection) {
        Ok(keeper) => Ok(keeper),
        Err(refused) => Err(unread(host, path, refused.fault)),
    }
}

// A file that the system does not open, or that is in use. Behind SQLite's words stand the system's.
fn no_file(host: &HostRuntime, path: &str, error: OpenError) -> StartError {
    let code = match error {
        OpenError::OutOfMemory => ErrorCode::OutOfMemory,
        OpenError::Io(error) if error.kind() == ErrorKind::OutOfMemory => ErrorCode::OutOfMemory,
        OpenError::Busy => ErrorCode::DatabaseBusy,
        _ => return not_opened(host.alloc(), path, &error),
    };
    unopened(host, path, &Error::SqliteFailure(code))
}

// A file that the system does not open, and why.
fn not_opened(alloc: Global, path: &str, why: &OpenError) -> StartError {
    let words = Error::SqliteFailure(ErrorCode::CannotOpen);
    StartError {
        error: ServerError::Storage,
        cause: format!(in alloc; "{path}: {words}: {why}").ok(),
    }
}

// A database that can't be opened.
fn unopened(host: &HostRuntime, path: &str, error: &Error) -> StartError {
    let kind = match error {
        Error::SqliteFailure(ErrorCode::OutOfMemory) => ServerError::Memory,
        _ => ServerError::Storage,
    };
    StartError::about(host.alloc(), kind, path, error)
}
