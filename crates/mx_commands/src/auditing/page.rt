// The page of a room.
use crate::auditing::offerings::NotKept;
use crate::auditing::telling::write_bytes;
use crate::output::Failure;
use mx_audit::RoomAudit;
use mx_graph::EventNo;
use mx_ident::RoomId;
use mx_page::{
    data_end, data_start, page_end, page_entry, page_head, refused_entry, refused_start,
};
use mx_receipt::timeline_is_sound;
use std::alloc::Global;
use std::io::Write;

/// Writes the page of a room, event by event, with what was offered to it and not kept.
pub(crate) fn tell_page<W: Write>(
    alloc: Global,
    room: &RoomId,
    audit: &RoomAudit,
    not_kept: &[NotKept],
    out: &mut W,
) -> Result<(), Failure> {
    write_pieces(out, &page_head())?;
    let start = data_start(alloc, room)?;
    write_bytes(out, &start)?;
    tell_entries(alloc, audit, out)?;
    write_bytes(out, refused_start().as_bytes())?;
    tell_not_kept(alloc, not_kept, out)?;
    write_bytes(out, data_end().as_bytes())?;
    write_pieces(out, &page_end())
}

fn tell_entries<W: Write>(alloc: Global, audit: &RoomAudit, out: &mut W) -> Result<(), Failure> {
    timeline_is_sound(audit.timeline());
    for number in 0..audit.timeline().len() {
        if let Some(text) = page_entry(alloc, audit, EventNo::at(number as u32))? {
            write_bytes(out, &text)?;
        }
    }
    Ok(())
}

fn tell_not_kept<W: Write>(
    alloc: Global,
    not_kept: &[NotKept],
    out: &mut W,
) -> Result<(), Failure> {
    let mut is_later = false;
    for it in not_kept {
        let line = it.line(alloc)?;
        let entry = refused_entry(alloc, is_later, &line)?;
        write_bytes(out, &entry)?;
        is_later = true;
    }
    Ok(())
}

fn write_pieces<W: Write>(out: &mut W, pieces: &[&'static str]) -> Result<(), Failure> {
    for piece in pieces {
        write_bytes(out, piece.as_bytes())?;
    }
    Ok(())
}
