// Questions about one event each.
ghost use Rattle.std.specs.Prelude.{◌<◌, length};

use crate::auditing::records::RoomRecord;
use crate::auditing::telling::{tell_event, write_bytes};
use crate::output::Failure;
use mx_audit::{RoomAudit, lines_of_resolution, resolution_before, state_lines};
use mx_graph::EventNo;
use mx_ident::EventId;
use mx_options::{AskedOf, EventQuestion};
use mx_states::StateRef;
use std::alloc::Global;
use std::io::Write;

/// Writes the answers to these questions, one after another. Where there are several, a line that names the event and what
/// is told of it stands before each.
///
/// `NoRoom`, or `NoEvent` where an event that is asked for is not there; then nothing is written.
pub(crate) fn tell_answers<W: Write>(
    alloc: Global,
    record: &RoomRecord,
    questions: &[EventQuestion],
    out: &mut W,
) -> Result<(), Failure> {
    for question in questions {
        find_event(record, question)?;
    }
    match &record.audit {
        Some(audit) => tell_each(alloc, record, audit, questions, out),
        None => tell_each_refused(alloc, record, questions, out),
    }
}

fn tell_each<W: Write>(
    alloc: Global,
    record: &RoomRecord,
    audit: &RoomAudit,
    questions: &[EventQuestion],
    out: &mut W,
) -> Result<(), Failure> {
    for question in questions {
        tell_head(alloc, record, question, questions.len(), out)?;
        if let Some(number) = audit.timeline().find(&question.event) {
            tell_of(alloc, audit, question.asked, number, out)?;
        }
    }
    Ok(())
}

// Of a room that is not hosted there are refused events alone.
fn tell_each_refused<W: Write>(
    alloc: Global,
    record: &RoomRecord,
    questions: &[EventQuestion],
    out: &mut W,
) -> Result<(), Failure> {
    for question in questions {
        tell_head(alloc, record, question, questions.len(), out)?;
    }
    Ok(())
}

// What stands before what is told of an event that was kept: the question, where it is one of several, and where the event's
// line is asked for, its lines for each time that it was refused.
fn tell_head<W: Write>(
    alloc: Global,
    record: &RoomRecord,
    question: &EventQuestion,
    several: usize,
    out: &mut W,
) -> Result<(), Failure> {
    if several > 1 {
        tell_question(alloc, question, out)?;
    }
    if question.asked == AskedOf::Event {
        tell_refused(alloc, record, &question.event, out)?;
    }
    Ok(())
}

// That the event that is asked for is there: of one that was refused its lines are there.
fn find_event(record: &RoomRecord, question: &EventQuestion) -> Result<(), Failure> {
    let was_refused = record
        .not_kept
        .iter()
        .any(|it| it.is_event(&question.event));
    if question.asked == AskedOf::Event && was_refused {
        return Ok(());
    }
    let Some(audit) = &record.audit else {
        return Err(Failure::NoRoom);
    };
    match audit.timeline().find(&question.event) {
        Some(_) => Ok(()),
        None => Err(Failure::NoEvent),
    }
}

fn tell_question<W: Write>(
    alloc: Global,
    question: &EventQuestion,
    out: &mut W,
) -> Result<(), Failure> {
    let asked = match question.asked {
        AskedOf::Event => "event",
        AskedOf::StateBefore => "state_before",
        AskedOf::StateAfter => "state_after",
        AskedOf::Resolution => "resolution",
    };
    let id = question.event.as_str();
    let line = format!(in alloc; "{{\"asked\":\"{asked}\",\"event_id\":\"{id}\"}}\n")?;
    write_bytes(out, line.as_bytes())
}

// The lines of the event with this ID for each time that it was refused.
fn tell_refused<W: Write>(
    alloc: Global,
    record: &RoomRecord,
    id: &EventId,
    out: &mut W,
) -> Result<(), Failure> {
    for it in &record.not_kept {
        if it.is_event(id) {
            write_bytes(out, &it.line(alloc)?)?;
        }
    }
    Ok(())
}

fn tell_of<W: Write>(
    alloc: Global,
    audit: &RoomAudit,
    asked: AskedOf,
    number: EventNo,
    out: &mut W,
) -> Result<(), Failure>
    requires { number < length audit.now }
{
    match asked {
        AskedOf::Event => tell_event(alloc, audit, number, out),
        AskedOf::StateBefore => {
            tell_state(alloc, audit, &audit.timeline().state_before(number), out)
        }
        AskedOf::StateAfter => {
            tell_state(alloc, audit, &audit.timeline().state_after(number), out)
        }
        AskedOf::Resolution => tell_resolution(alloc, audit, number, out),
    }
}

fn tell_state<W: Write>(
    alloc: Global,
    audit: &RoomAudit,
    state: &StateRef<'_>,
    out: &mut W,
) -> Result<(), Failure> {
    let lines = state_lines(alloc, audit.timeline(), state)?;
    write_bytes(out, &lines)
}

fn tell_resolution<W: Write>(
    alloc: Global,
    audit: &RoomAudit,
    number: EventNo,
    out: &mut W,
) -> Result<(), Failure>
    requires { number < length audit.now }
{
    let steps = resolution_before(alloc, audit.timeline(), audit.graph(), number)?;
    let lines = lines_of_resolution(alloc, audit.timeline(), &steps)?;
    write_bytes(out, &lines)
}
