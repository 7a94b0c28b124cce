// The sum of what became of the events of a room.
use crate::auditing::line_kinds::{LineKind, Sum, sum_of};
use crate::auditing::offerings::{LineCounts, NotKept};
use crate::auditing::records::RoomRecord;
use mx_audit::RoomAudit;
use mx_graph::EventNo;
use mx_lines::RefusedCause;
use mx_receipt::timeline_is_sound;
use std::alloc::{AllocError, Global};

// The causes in the order in which they are told.
const CAUSES: [RefusedCause; 14] = [
    RefusedCause::UnknownRoom,
    RefusedCause::AccessList,
    RefusedCause::SecondCreate,
    RefusedCause::Signature,
    RefusedCause::MissingEvents,
    RefusedCause::RoomFull,
    RefusedCause::UserOfAnotherServer,
    RefusedCause::NotACreateEvent,
    RefusedCause::CitesAuthEvents,
    RefusedCause::ContentHash,
    RefusedCause::CreateHasPrevEvents,
    RefusedCause::CreateOfAnotherServer,
    RefusedCause::CreateVersionUnknown,
    RefusedCause::CreateWithoutCreator,
];

/// One line that says how many events of a room were accepted, soft failed, rejected, and refused, by cause, how many
/// values were malformed, and how many lines were bad. Of files it says that refused events are in none.
pub(crate) fn sum_line(alloc: Global, record: &RoomRecord) -> Result<String, AllocError> {
    let mut kinds = Vec::new(alloc);
    if let Some(audit) = &record.audit {
        add_kept(&mut kinds, audit)?;
    }
    for it in &record.not_kept {
        kinds.push(it.kind())?;
    }
    let sum = sum_of(&kinds);
    let Sum {
        accepted,
        soft_failed,
        rejected,
        ..
    } = sum;
    let mut text = format!(in alloc;
        "accepted {accepted}, soft failed {soft_failed}, rejected {rejected}"
    )?;
    match &record.counts {
        Some(lines) => tell_lines(&mut text, &kinds, sum, lines)?,
        None => writeln!(text, "; of refused events no file tells")?,
    }
    Ok(text)
}

// Adds the kinds of the lines of the events that a room has.
fn add_kept(kinds: &mut Vec<LineKind>, audit: &RoomAudit) -> Result<(), AllocError> {
    timeline_is_sound(audit.timeline());
    for number in 0..audit.timeline().len() {
        let verdict = audit.timeline().verdict(EventNo::at(number as u32));
        kinds.push(LineKind::of_verdict(verdict))?;
    }
    Ok(())
}

// What was offered and not kept, and what lines were not done.
fn tell_lines(
    text: &mut String,
    kinds: &[LineKind],
    sum: Sum,
    lines: &LineCounts,
) -> Result<(), AllocError> {
    let Sum {
        refused,
        malformed,
        ..
    } = sum;
    let bad = lines.bad_lines;
    write!(text, "; refused {refused}")?;
    tell_causes(text, kinds)?;
    write!(text, "; malformed {malformed}; bad lines {bad}")?;
    tell_if_some(text, "came again", lines.known)?;
    tell_if_some(text, "repeated transactions", lines.repeated_transactions)?;
    tell_if_some(text, "refused requests", lines.refused_requests)?;
    writeln!(text)
}

fn tell_if_some(text: &mut String, what: &str, count: usize) -> Result<(), AllocError> {
    if count > 0 {
        write!(text, "; {what} {count}")?;
    }
    Ok(())
}

// How many were refused for each cause that there is.
fn tell_causes(text: &mut String, kinds: &[LineKind]) -> Result<(), AllocError> {
    let mut mark = ':';
    for cause in &CAUSES {
        let count = kinds
            .iter()
            .filter(|kind| kind.is_refused_for(*cause))
            .count();
        if count > 0 {
            let words = cause.text().split(':').next().unwrap_or_default();
            write!(text, "{mark} {words} {count}")?;
            mark = ',';
        }
    }
    Ok(())
}
