// How many rows each file of a directory had.
ghost use Rattle.std.specs.Prelude.{◌≡◌, ◌↔◌, ◌≤◌, IfOk, None};
ghost use Rattle.serde_json.specs.View.{view};
ghost use Rattle.mx_directory.specs.ServerFile.{rows_before};

use crate::errors::{ServerError, StartError};
use crate::row_files::RowFiles;
use crate::whole_files::write_whole;
use serde_json::{Map, Value};
use std::alloc::{AllocError, Global};
use std::fs;
use std::io::{self, ErrorKind};

// What is said where a file has fewer rows than it had.
const OLDER: &str = "it is from an older copy, or has lost its log";

impl RowFiles {
    /// Compares how many rows each file has with what the directory's file `rows.json` says that it had: what is lost of each,
    /// a line each, where that is accepted.
    ///
    /// Else `Storage` about the first file that has fewer. `Storage` too where `rows.json` can't be read, or does not say so;
    /// `Memory`.
    pub fn check_counts(
        &self,
        host: &HostRuntime,
        directory: &str,
        is_accepted: bool,
    ) -> Result<Vec<String>, StartError> {
        let alloc = host.alloc();
        let mut losses = Vec::new(alloc);
        let Some(before) = counts_before(host, directory)? else {
            return Ok(losses);
        };
        for file in &self.files {
            let had = rows_of(&before, file.name());
            if let Some(loss) = loss_of(alloc, file.path(), file.count(), had)? {
                losses.push(accepted(loss, is_accepted)?)?;
            }
        }
        Ok(losses)
    }

    /// Writes how many rows each file has into the directory's file `rows.json`, where that is not what was written there last.
    /// It is on the disk as a whole before it gets its name. Each row that it counts is on the disk already, so that a crash
    /// leaves no file with fewer.
    ///
    /// The error is the system's.
    pub fn record_counts(&self, host: &HostRuntime, directory: &str) -> io::Result<()> {
        let written = self.write_counts(host, directory);
        if written.is_err() {
            self.forget_counts();
        }
        written
    }

    /// How many replies to transactions are kept: the rows of the files that have them.
    pub fn kept_transactions(&self) -> u64 {
        let mut count = 0u64;
        for file in &self.files {
            if file.name().starts_with("book-") {
                count = count.saturating_add(file.count());
            }
        }
        count
    }

    fn write_counts(&self, host: &HostRuntime, directory: &str) -> io::Result<()> {
        let alloc = host.alloc();
        let Some(line) = self.new_counts(alloc)? else {
            return Ok(());
        };
        let path = path_in(alloc, directory)?;
        let new = format!(in alloc; "{path}.new")?;
        write_whole(host, &new, &path, line.as_bytes())
    }

    // The line that says how many rows each file has; none where that was written last.
    fn new_counts(&self, alloc: Global) -> Result<Option<String>, AllocError> {
        let mut members = Map::new(alloc);
        let mut has_changed = false;
        for file in &self.files {
            let count = file.count();
            has_changed |= file.recorded().note(count);
            let name = String::from_str(alloc, file.name())?;
            members.insert(name, Value::from(count))?;
        }
        if !has_changed {
            return Ok(None);
        }
        let mut line = Value::Object(members).to_string(alloc)?;
        line.push('\n')?;
        Ok(Some(line))
    }

    fn forget_counts(&self) {
        for file in &self.files {
            file.recorded().forget();
        }
    }
}

// A loss, where losses are accepted; else it is why a start is refused.
fn accepted(loss: String, is_accepted: bool) -> Result<String, StartError> {
    if is_accepted {
        return Ok(loss);
    }
    Err(StartError {
        error: ServerError::Storage,
        cause: Some(loss),
    })
}

// What is lost of a file that has so many rows and had so many, if something is.
fn loss_of(alloc: Global, path: &str, count: u64, before: u64) -> Result<Option<String>, AllocError>
    ensures { IfOk result (λ loss. (loss ≡ None) ↔ (before ≤ count)) }
{
    if before <= count {
        return Ok(None);
    }
    let rows = if count == 1 { "row" } else { "rows" };
    let loss = format!(in alloc;
        "{path}: it has {count} {rows}, and had {before} before: {OLDER}"
    )?;
    Ok(Some(loss))
}

/// How many rows a file had; none where nothing is said of it.
fn rows_of(before: &Value, file: &str) -> u64
    ensures { result ≡ rows_before file.now (view before.now) }
{
    match before.get(file).and_then(Value::as_u64) {
        Some(count) => count,
        None => 0,
    }
}

// What the file says; none where it is not there.
fn counts_before(host: &HostRuntime, directory: &str) -> Result<Option<Value>, StartError> {
    let alloc = host.alloc();
    let path = path_in(alloc, directory)?;
    match fs::read(host, path.as_str()) {
        Ok(bytes) => counts_in(alloc, &path, &bytes),
        Err(error) if error.kind() == ErrorKind::NotFound => Ok(None),
        Err(error) => Err(StartError::of_storage(alloc, &path, &error)),
    }
}

fn counts_in(alloc: Global, path: &str, bytes: &[u8]) -> Result<Option<Value>, StartError> {
    match Value::from_slice(alloc, bytes) {
        Ok(value) if value.is_object() => Ok(Some(value)),
        Err(error) if error.is_memory() => Err(StartError::from(ServerError::Memory)),
        _ => {
            let cause = "it does not say how many rows each file had";
            Err(StartError::about(alloc, ServerError::Storage, path, &cause))
        }
    }
}

fn path_in(alloc: Global, directory: &str) -> Result<String, AllocError> {
    format!(in alloc; "{directory}/rows.json")
}
