// The answers of `audit`.
use crate::auditing::offerings::NotKept;
use crate::auditing::page::tell_page;
use crate::auditing::questions::tell_answers;
use crate::auditing::records::RoomRecord;
use crate::output::Failure;
use mx_audit::{RoomAudit, event_line, picture_end, picture_head, picture_lines};
use mx_graph::EventNo;
use mx_ident::RoomId;
use mx_options::AuditQuestion;
use mx_receipt::timeline_is_sound;
use std::alloc::Global;
use std::io::Write;

/// Writes the answer to a question about a room. `NoRoom` where the room is not hosted, once what was offered to it is told.
pub(crate) fn tell<W: Write>(
    alloc: Global,
    room: &RoomId,
    record: &RoomRecord,
    question: &AuditQuestion,
    out: &mut W,
) -> Result<(), Failure> {
    if let AuditQuestion::OfEvents(questions) = question {
        return tell_answers(alloc, record, questions, out);
    }
    let Some(audit) = &record.audit else {
        return tell_of_no_room(alloc, record, question, out);
    };
    match question {
        AuditQuestion::Picture => tell_picture(alloc, audit, out),
        AuditQuestion::Page => tell_page(alloc, room, audit, &record.not_kept, out),
        _ => tell_events(alloc, audit, &record.not_kept, out),
    }
}

// Of a room that is not hosted there is neither a picture nor a page.
fn tell_of_no_room<W: Write>(
    alloc: Global,
    record: &RoomRecord,
    question: &AuditQuestion,
    out: &mut W,
) -> Result<(), Failure> {
    if matches!(question, AuditQuestion::Events) {
        tell_refused(alloc, &record.not_kept, out)?;
    }
    Err(Failure::NoRoom)
}

// All events in order of arrival, with what was offered between them and not kept.
fn tell_events<W: Write>(
    alloc: Global,
    audit: &RoomAudit,
    not_kept: &[NotKept],
    out: &mut W,
) -> Result<(), Failure> {
    timeline_is_sound(audit.timeline());
    let mut left = not_kept;
    for number in 0..audit.timeline().len() {
        let (now, later) = parted(left, number);
        tell_refused(alloc, now, out)?;
        left = later;
        tell_event(alloc, audit, EventNo::at(number as u32), out)?;
    }
    tell_refused(alloc, left, out)
}

// Those that were offered when the room had at most so many events, and the others. They are in order of arrival.
fn parted(not_kept: &[NotKept], after: usize) -> (&[NotKept], &[NotKept]) {
    let place = not_kept.partition_point(|it| it.after() <= after);
    match not_kept.split_at_checked(place) {
        Some(parts) => parts,
        None => (not_kept, &[]),
    }
}

/// Writes a line for each of what was not kept.
pub(crate) fn tell_refused<W: Write>(
    alloc: Global,
    not_kept: &[NotKept],
    out: &mut W,
) -> Result<(), Failure> {
    for it in not_kept {
        write_bytes(out, &it.line(alloc)?)?;
    }
    Ok(())
}

/// Writes the line of an event.
pub(crate) fn tell_event<W: Write>(
    alloc: Global,
    audit: &RoomAudit,
    number: EventNo,
    out: &mut W,
) -> Result<(), Failure> {
    match event_line(alloc, audit, number)? {
        Some(line) => write_bytes(out, &line),
        None => Ok(()),
    }
}

fn tell_picture<W: Write>(alloc: Global, audit: &RoomAudit, out: &mut W) -> Result<(), Failure> {
    timeline_is_sound(audit.timeline());
    write_bytes(out, picture_head().as_bytes())?;
    for number in 0..audit.timeline().len() {
        if let Some(lines) = picture_lines(alloc, audit, EventNo::at(number as u32))? {
            write_bytes(out, &lines)?;
        }
    }
    write_bytes(out, picture_end().as_bytes())
}

pub(crate) fn write_bytes<W: Write>(out: &mut W, bytes: &[u8]) -> Result<(), Failure> {
    out.write_all(bytes).map_err(Failure::of_io)
}
