// New files of rows.

use crate::row_openings::has_log;
use crate::whole_files::{OWNER_READS_AND_WRITES, write_whole};
use mx_keeper::{SqliteKeeper, TableRow};
use sqlite::{Connection, FileStore, Files, Options};
use sqlite_disk::Memory;
use std::alloc::Global;
use std::fs::{self, OpenOptions};
use std::io::ErrorKind;
use std::os::unix::fs::OpenOptionsExt;

// How many pages are kept of a file that is made in memory.
const PAGES_IN_MAKING: usize = 8;

/// Makes a file, where it is not there or is empty, for its owner alone: with the tables of these rows, which are on the
/// disk before the file has its name. Where they can't be made, opening the file makes them, or tells why not.
pub(crate) fn make_file<R: TableRow>(host: &HostRuntime, path: &str) {
    if !is_without_content(host, path) || !is_made_whole::<R>(host, path) {
        make_empty(host, path);
    }
}

// Whether a file is not there or is empty, and has no log. A link is neither.
fn is_without_content(host: &HostRuntime, path: &str) -> bool {
    let is_blank = match fs::symlink_metadata(host, path) {
        Ok(about) => about.len() == 0,
        Err(error) => error.kind() == ErrorKind::NotFound,
    };
    is_blank && has_log(host, path).is_ok_and(|has_log| !has_log)
}

// Makes the file with its tables. Whether it could be made.
fn is_made_whole<R: TableRow>(host: &HostRuntime, path: &str) -> bool {
    let Ok(new) = format!(in host.alloc(); "{path}.new") else {
        return false;
    };
    match tables_in_memory::<R>(host.alloc()) {
        Some(file) => write_whole(host, &new, path, file.bytes()).is_ok(),
        None => false,
    }
}

// A file in memory that has the tables of these rows, and no row.
fn tables_in_memory<R: TableRow>(alloc: Global) -> Option<Memory> {
    let files = Files {
        log: Memory::new(alloc),
        db: Memory::new(alloc),
    };
    let options = Options {
        cache_pages: PAGES_IN_MAKING,
        ..Options::new(0)
    };
    let connection = Connection::open_files_with(alloc, files, options, true).ok()?;
    let keeper = SqliteKeeper::<FileStore<Memory>, R>::adopt(alloc, connection).ok()?;
    let files = keeper.into_connection().close_files().ok()?;
    Some(files.db)
}

// Makes an empty file where it is not there, for its owner alone.
fn make_empty(host: &HostRuntime, path: &str) {
    let mut maker = OpenOptions::new();
    maker
        .write(true)
        .create_new(true)
        .mode(OWNER_READS_AND_WRITES);
    let _made = maker.open(host, path);
}
