// The file of a server log.
use std::fs::{self, File, OpenFile, OpenOptions};
use std::io::{self, ErrorKind, Write};
use std::os::unix::fs::{MetadataExt, OpenOptionsExt};

// Who may read and write a file that is made: its owner alone.
const OWNER_ALONE: u32 = 0o600;

/// The file of a server log, to whose end lines are written. Where it was moved away or removed, one of the same name is made.
#[derive(Drop)]
pub struct LogFile {
    host: HostRuntime,
    path: String,
    file: Option<File>,
}

impl LogFile {
    /// The file at a path, which is made where there is none; or why it can't be opened.
    pub fn open(host: &HostRuntime, path: String) -> io::Result<LogFile> {
        let file = opened(host, &path)?;
        Ok(LogFile {
            host: *host,
            path,
            file: Some(file),
        })
    }

    // The file that has the path now. It is opened where the one that was opened has lost it.
    fn current(&mut self) -> io::Result<&mut File> {
        let is_there = match &self.file {
            Some(file) => is_at(&self.host, file, &self.path),
            None => false,
        };
        if !is_there {
            self.file = Some(opened(&self.host, &self.path)?);
        }
        match &mut self.file {
            Some(file) => Ok(file),
            None => Err(io::Error::from(ErrorKind::NotFound)),
        }
    }
}

impl Write for LogFile {
    fn write(&mut self, buf: &[u8]) -> io::Result<usize> {
        self.current()?.write(buf)
    }

    fn flush(&mut self) -> io::Result<()> {
        Ok(())
    }
}

fn opened(host: &HostRuntime, path: &str) -> io::Result<File> {
    let mut how = OpenOptions::new();
    how.append(true).create(true).mode(OWNER_ALONE);
    how.open(host, path)
}

// Whether a path leads to this file; it is taken to where the system does not tell of the file.
fn is_at(host: &HostRuntime, file: &File, path: &str) -> bool {
    let Ok(ours) = file.metadata() else {
        return true;
    };
    match fs::metadata(host, path) {
        Ok(found) => found.dev() == ours.dev() && found.ino() == ours.ino(),
        Err(_error) => false,
    }
}
