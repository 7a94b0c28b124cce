// What a start finds lost in the files of a directory.

use crate::errors::{ServerError, StartError};
use crate::log_damage::is_damaged;
use std::alloc::Global;
use std::fs;
use std::io::ErrorKind;

/// What was found lost, where losses are accepted.
#[derive(Drop)]
pub(crate) struct Losses {
    is_accepted: bool,
    lines: Vec<String>,
}

impl Losses {
    pub(crate) fn new(alloc: Global, is_accepted: bool) -> Losses {
        Losses {
            is_accepted,
            lines: Vec::new(alloc),
        }
    }

    /// What was found, a line each.
    pub(crate) fn into_lines(self) -> Vec<String> {
        self.lines
    }

    // Adds what is lost, which is `Storage` where losses are not accepted.
    fn add(&mut self, alloc: Global, path: &str, cause: &str) -> Result<(), StartError> {
        if !self.is_accepted {
            return Err(StartError::about(alloc, ServerError::Storage, path, &cause));
        }
        let line = format!(in alloc; "{path}: {cause}")?;
        self.lines.push(line)?;
        Ok(())
    }
}

/// Looks for damage in SQLite's log beside a file.
///
/// `Storage` where it is damaged, unless losses are accepted, and where it can't be read; `Memory`.
pub(crate) fn check_log(
    host: &HostRuntime,
    path: &str,
    losses: &mut Losses,
) -> Result<(), StartError> {
    let alloc = host.alloc();
    let log = format!(in alloc; "{path}-wal")?;
    match fs::read(host, log.as_str()) {
        Ok(bytes) => check_bytes(alloc, &log, &bytes, losses),
        Err(error) if error.kind() == ErrorKind::NotFound => Ok(()),
        Err(error) => Err(StartError::of_storage(alloc, &log, &error)),
    }
}

fn check_bytes(
    alloc: Global,
    path: &str,
    bytes: &[u8],
    losses: &mut Losses,
) -> Result<(), StartError> {
    if is_damaged(bytes) {
        let cause = "it is damaged, and rows behind the damage were answered";
        losses.add(alloc, path, cause)
    } else {
        Ok(())
    }
}
