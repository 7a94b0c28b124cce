// `audit`: why the events of a room were received as they were, and what its states are.
mod file_rows;
mod line_kinds;
mod logged;
mod offerings;
mod page;
mod questions;
mod records;
mod sums;
mod telling;

use crate::auditing::file_rows::rows_of_directory;
use crate::auditing::logged::logged_room;
use crate::auditing::records::RoomRecord;
use crate::auditing::sums::sum_line;
use crate::auditing::telling::tell;
use crate::output::{Failure, FailureAbout, flushed};
use mx_directory::ProgressLine;
use mx_ident::RoomId;
use mx_options::{AuditOptions, AuditQuestion, AuditSource};
use std::io::{BufWriter, Read, Write};

/// Answers what is asked of a room. The log is read only where the events are in one. Where all events are told, a sum of
/// them is said on `err`. Where standard error is a terminal it tells how far it is.
///
/// `NoRoom` where the room is not hosted: then what was offered to it and not kept is told before. `NoEvent` where an event
/// that is asked for is not there, `NameNeeded` where a line of the log is a request and no name was given, and `ReadOrWrite` or
/// `Storage` with the path of a file that can't be read, or does not read as rows.
pub fn audit<R: Read, W: Write, E: Write>(
    host: &HostRuntime,
    options: AuditOptions,
    log: &mut R,
    out: &mut W,
    err: &mut E,
) -> Result<(), FailureAbout> {
    let AuditOptions {
        source,
        room,
        question,
    } = options;
    let alloc = host.alloc();
    let mut progress = ProgressLine::new(host);
    let record = record_of(host, source, &room, log, &mut progress)?;
    let mut lines = BufWriter::new(alloc, out).map_err(Failure::of_io)?;
    let told = tell(alloc, &room, &record, &question, &mut lines);
    flushed(&mut lines)?;
    if !matches!(question, AuditQuestion::OfEvents(_)) {
        let sum = sum_line(alloc, &record)?;
        let _ = err.write_all(sum.as_bytes());
    }
    told?;
    Ok(())
}

// What is known of the room.
fn record_of<R: Read>(
    host: &HostRuntime,
    source: AuditSource,
    room: &RoomId,
    log: &mut R,
    progress: &mut ProgressLine<'_>,
) -> Result<RoomRecord, FailureAbout> {
    let alloc = host.alloc();
    match source {
        AuditSource::Log { name, shards } => {
            let logged = logged_room(alloc, name.as_ref(), shards, room, log)?;
            let record = RoomRecord::of_log(alloc, logged)?;
            Ok(record)
        }
        AuditSource::Directory(directory) => {
            let rows = rows_of_directory(host, &directory, progress)?;
            let record = RoomRecord::of_rows(alloc, room, rows, progress)?;
            Ok(record)
        }
    }
}
