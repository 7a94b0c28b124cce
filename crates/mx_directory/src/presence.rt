// Which files of rows a directory has.

use crate::errors::{ServerError, StartError};
use crate::row_openings::{has_log, has_rows, opened_at};
use mx_keeper::{BookRow, MOST_PLACES, ShardRow, TableRow};
use std::alloc::Global;
use std::fs;
use std::io::ErrorKind;

/// `Storage` where a file stands behind the first ones of its kind, or one of the first is missing or empty and another one
/// has rows.
pub(crate) fn check_files(
    host: &HostRuntime,
    directory: &str,
    count: usize,
) -> Result<(), StartError> {
    check_none_behind(host, directory, "shard", count)?;
    check_none_behind(host, directory, "book", count)?;
    check_none_lost(host, directory, "shard", count)?;
    check_none_lost(host, directory, "book", count)
}

/// `Storage` where a file stands behind the first ones of a kind.
pub(crate) fn check_none_behind(
    host: &HostRuntime,
    directory: &str,
    kind: &str,
    count: usize,
) -> Result<(), StartError> {
    for number in count..MOST_PLACES {
        let path = path_of(host.alloc(), directory, kind, number)?;
        if is_there(host, &path)? {
            return Err(refused(host, &path, "a file of another number of shards"));
        }
    }
    Ok(())
}

/// `Storage` where one of the first files of a kind is missing.
pub(crate) fn check_none_missing(
    host: &HostRuntime,
    directory: &str,
    kind: &str,
    count: usize,
) -> Result<(), StartError> {
    for number in 0..count {
        let path = path_of(host.alloc(), directory, kind, number)?;
        if !is_there(host, &path)? {
            return Err(refused(host, &path, "it is missing"));
        }
    }
    Ok(())
}

// The first of the first files of a kind that is missing or empty.
fn first_lost(
    host: &HostRuntime,
    directory: &str,
    kind: &str,
    count: usize,
) -> Result<Option<String>, StartError> {
    for number in 0..count {
        let path = path_of(host.alloc(), directory, kind, number)?;
        if !has_something(host, &path)? {
            return Ok(Some(path));
        }
    }
    Ok(None)
}

/// `Storage` where one of the first files of a kind is missing or empty, and another one of any kind has rows.
pub(crate) fn check_none_lost(
    host: &HostRuntime,
    directory: &str,
    kind: &str,
    count: usize,
) -> Result<(), StartError> {
    match first_lost(host, directory, kind, count)? {
        Some(lost) => refuse_all_rows(host, directory, count, &lost),
        None => Ok(()),
    }
}

fn refuse_all_rows(
    host: &HostRuntime,
    directory: &str,
    count: usize,
    lost: &str,
) -> Result<(), StartError> {
    refuse_rows::<ShardRow>(host, directory, "shard", count, lost)?;
    refuse_rows::<BookRow>(host, directory, "book", count, lost)
}

// Whether a file is there, and is not empty, or has a log beside it.
fn has_something(host: &HostRuntime, path: &str) -> Result<bool, StartError> {
    match fs::metadata(host, path) {
        Ok(about) if about.len() > 0 => Ok(true),
        Ok(_about) => has_log(host, path),
        Err(error) if error.kind() == ErrorKind::NotFound => Ok(false),
        Err(error) => Err(StartError::of_io(host.alloc(), path, &error)),
    }
}

// `Storage` about the file that is lost, where one of the first files of a kind has rows.
fn refuse_rows<R: TableRow>(
    host: &HostRuntime,
    directory: &str,
    kind: &str,
    count: usize,
    lost: &str,
) -> Result<(), StartError> {
    for number in 0..count {
        let path = path_of(host.alloc(), directory, kind, number)?;
        if holds_rows::<R>(host, &path)? {
            let cause = format!(in host.alloc(); "it is missing or empty, and {path} has rows")?;
            return Err(refused(host, lost, &cause));
        }
    }
    Ok(())
}

// Whether a file is there and has rows. An empty one stays so.
fn holds_rows<R: TableRow>(host: &HostRuntime, path: &str) -> Result<bool, StartError> {
    if has_something(host, path)? {
        let opened = opened_at::<R>(host, path)?;
        has_rows(host, path, opened.keeper)
    } else {
        Ok(false)
    }
}

fn is_there(host: &HostRuntime, path: &str) -> Result<bool, StartError> {
    match fs::exists(host, path) {
        Ok(is_there) => Ok(is_there),
        Err(error) => Err(StartError::of_io(host.alloc(), path, &error)),
    }
}

// The rows of a file are not had.
fn refused(host: &HostRuntime, path: &str, cause: &str) -> StartError {
    StartError::about(host.alloc(), ServerError::Storage, path, &cause)
}

/// The path of a file.
pub(crate) fn path_of(
    alloc: Global,
    directory: &str,
    kind: &str,
    number: usize,
) -> Result<String, StartError> {
    Ok(format!(in alloc; "{directory}/{kind}-{number}.db")?)
}
