// Whether a name still has the file that was opened.
ghost use Rattle.std.specs.Prelude.{◌≡◌, ◌==◌, ◌&&◌};

use std::io::{self, ErrorKind};
use std::os::unix::fs::MetadataExt;
use std::rt::Files;
use std::{fmt, fs};

/// A file of the system: its device, and its number there. While it is open no other file has the two.
#[derive(Clone, Copy)]
pub(crate) struct FileIdentity {
    device: u64,
    inode: u64,
}

impl FileIdentity {
    // The file that a path leads to, as the system tells.
    fn at<F: Files>(system: &F, path: &str) -> io::Result<FileIdentity> {
        let about = fs::metadata(system, path)?;
        Ok(FileIdentity {
            device: about.dev(),
            inode: about.ino(),
        })
    }

    /// Whether the two are one file.
    pub(crate) fn is(self, other: FileIdentity) -> bool
        ensures { result ≡ ((self.device == other.device) && (self.inode == other.inode)) }
    {
        self.device == other.device && self.inode == other.inode
    }
}

/// What became of the name of a file that is open.
#[derive(Clone, Copy, Debug, PartialEq, Eq)]
pub(crate) enum NameLoss {
    // No file has it: the file was removed or renamed, or its directory was.
    Gone,
    // Another file has it.
    Taken,
}

impl fmt::Display for NameLoss {
    fn fmt<W: fmt::Write>(&self, f: &mut fmt::Formatter<W>) -> fmt::Result {
        match self {
            NameLoss::Gone => f.write_str("it was removed or renamed, or its directory was"),
            NameLoss::Taken => f.write_str("another file was put in its place"),
        }
    }
}

/// The name of a file that is open, and which file that is.
#[derive(Drop)]
pub(crate) struct OpenedName {
    path: String,
    opened: FileIdentity,
}

impl OpenedName {
    /// The name of a file that is open, or why the system does not tell which file has it.
    pub(crate) fn new<F: Files>(
        system: &F,
        path: String,
    ) -> Result<OpenedName, (io::Error, String)> {
        match FileIdentity::at(system, &path) {
            Ok(opened) => Ok(OpenedName { path, opened }),
            Err(error) => Err((error, path)),
        }
    }

    /// The name.
    pub(crate) fn path(&self) -> &str {
        &self.path
    }

    /// What became of the name; none where the file that was opened has it. It is taken to have it where the system does not
    /// tell.
    pub(crate) fn loss<F: Files>(&self, system: &F) -> Option<NameLoss> {
        match FileIdentity::at(system, &self.path) {
            Ok(found) if found.is(self.opened) => None,
            Ok(_other) => Some(NameLoss::Taken),
            Err(error) if error.kind() == ErrorKind::NotFound => Some(NameLoss::Gone),
            Err(_error) => None,
        }
    }
}
