// The file of a directory that says what it was made for.

use crate::errors::{ServerError, StartError};
use crate::made_for::{MadeFor, NotMadeFor, made_line};
use crate::whole_files::write_whole;
use std::alloc::Global;
use std::fs;
use std::io::ErrorKind;

/// What the file of a directory says that it was made for; none where it is not there.
///
/// `Storage` where it can't be read, or says no such thing; `Memory`.
pub(crate) fn server_file(
    host: &HostRuntime,
    directory: &str,
) -> Result<Option<MadeFor>, StartError> {
    let path = path_in(host.alloc(), directory)?;
    match fs::read(host, path.as_str()) {
        Ok(bytes) => made_for(host.alloc(), &path, &bytes),
        Err(error) if error.kind() == ErrorKind::NotFound => Ok(None),
        Err(error) => Err(StartError::of_storage(host.alloc(), &path, &error)),
    }
}

fn made_for(alloc: Global, path: &str, bytes: &[u8]) -> Result<Option<MadeFor>, StartError> {
    match MadeFor::read(alloc, bytes) {
        Ok(made) => Ok(Some(made)),
        Err(NotMadeFor::Memory) => Err(StartError::from(ServerError::Memory)),
        Err(NotMadeFor::Malformed) => {
            let cause = "it does not say what the directory was made for";
            Err(StartError::about(alloc, ServerError::Storage, path, &cause))
        }
    }
}

/// `Storage` where the directory was made for another number of shards, or another layout.
pub(crate) fn check_shards(
    alloc: Global,
    directory: &str,
    made: &MadeFor,
    shards: usize,
) -> Result<(), StartError> {
    if made.has_shards(shards as u64) {
        Ok(())
    } else {
        Err(made_for_another(alloc, directory, made))
    }
}

/// `Storage` where the directory was made for a server of another name.
pub(crate) fn check_name(
    alloc: Global,
    directory: &str,
    made: &MadeFor,
    name: &str,
) -> Result<(), StartError> {
    if made.is_named(name) {
        Ok(())
    } else {
        Err(made_for_another(alloc, directory, made))
    }
}

fn made_for_another(alloc: Global, directory: &str, made: &MadeFor) -> StartError {
    StartError::about(alloc, ServerError::Storage, directory, made)
}

/// Makes the file. It is on the disk as a whole before it gets its name.
///
/// `Storage` where it can't be written; `Memory`.
pub(crate) fn make_server_file(
    host: &HostRuntime,
    directory: &str,
    name: &str,
    shards: usize,
) -> Result<(), StartError> {
    let alloc = host.alloc();
    let line = made_line(alloc, name, shards as u64)?;
    let path = path_in(alloc, directory)?;
    let new = format!(in alloc; "{path}.new")?;
    match write_whole(host, &new, &path, line.as_bytes()) {
        Ok(()) => Ok(()),
        Err(error) => Err(StartError::of_storage(alloc, &path, &error)),
    }
}

fn path_in(alloc: Global, directory: &str) -> Result<String, StartError> {
    Ok(format!(in alloc; "{directory}/server.json")?)
}
