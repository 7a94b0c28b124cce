// Files that are on the disk as a whole before they get their names.

use std::fs::{self, OpenOptions};
use std::io::{self, Write};
use std::os::unix::fs::OpenOptionsExt;

/// Who may read and write a file of a server: its owner.
pub(crate) const OWNER_READS_AND_WRITES: u32 = 0o600;

/// Writes a file under the name `new`, brings it to the disk, and gives it its own name.
pub(crate) fn write_whole(
    host: &HostRuntime,
    new: &str,
    path: &str,
    bytes: &[u8],
) -> io::Result<()> {
    let mut maker = OpenOptions::new();
    maker.write(true).create(true).truncate(true);
    maker.mode(OWNER_READS_AND_WRITES);
    let mut file = maker.open(host, new)?;
    file.write_all(bytes)?;
    file.sync_all()?;
    fs::rename(host, new, path)
}
