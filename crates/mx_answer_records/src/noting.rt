// An answered request, noted where an operator sees it.
use crate::abouts::{CallAbout, EventAbout, RequestAbout};
use crate::event_results::{Told, reply_value, told_of};
use mx_admin::DeskThread;
use mx_ident::ServerName;
use mx_metrics::{EventResult, RouteLabel, StatusLabel};
use mx_records::{AnsweredRequest, EventNotTaken, NotTaken, Subject};
use std::alloc::{AllocError, Global};
use std::sync::Wait;
use std::time::Clock;

// The status where the server lacks something.
const UNAVAILABLE: u16 = 503;

/// An answered request: what it is; what it asked, where it has no fault; the status and body of its reply.
#[derive(Drop)]
pub struct Answered<'a> {
    pub request: RequestAbout,
    pub call: Option<CallAbout>,
    pub status: u16,
    pub body: &'a [u8],
}

/// Notes a reply at a desk, now that it is made: its route, status and time, what became of each event that was offered, and a
/// record of it and of each event that was refused or rejected.
///
/// Where no memory is left for the records of events they are left out, and the log counts a line that is missing.
pub fn note_answer<R: Wait + Clock>(
    rt: &R,
    alloc: Global,
    desk: &DeskThread,
    answered: Answered<'_>,
) {
    let microseconds = answered.request.microseconds(rt);
    let status = StatusLabel::of(answered.status);
    desk.note_reply(rt, answered.request.route, status, microseconds);
    if note_events(rt, alloc, desk, &answered).is_err() {
        desk.tell_dropped(rt);
    }
    let Answered {
        request,
        call,
        status,
        body,
    } = answered;
    let (origin, room) = match call {
        Some(call) => (Some(call.origin), call.room),
        None => (None, None),
    };
    let subject = Subject::Request(AnsweredRequest {
        origin,
        method: request.method,
        route: request.route,
        room,
        status,
        milliseconds: microseconds / 1_000,
        bytes: body.len() as u64,
    });
    desk.tell(rt, subject);
}

// Counts what became of each event that was offered, and tells of those that were refused or rejected.
fn note_events<R: Wait + Clock>(
    rt: &R,
    alloc: Global,
    desk: &DeskThread,
    answered: &Answered<'_>,
) -> Result<(), AllocError> {
    let Some(call) = &answered.call else {
        return Ok(());
    };
    if call.events.is_empty() || answered.status == UNAVAILABLE {
        return Ok(());
    }
    let Some(reply) = reply_value(alloc, answered.body)? else {
        return Ok(());
    };
    let is_join = answered.request.route == RouteLabel::SendJoin;
    for event in &call.events {
        let told = told_of(&reply, answered.status, is_join, event.id.as_str());
        note_event(rt, alloc, desk, call, (event, told))?;
    }
    Ok(())
}

// Counts what became of an event, and tells of it where it was refused or rejected.
fn note_event<R: Wait + Clock>(
    rt: &R,
    alloc: Global,
    desk: &DeskThread,
    call: &CallAbout,
    noted: (&EventAbout, Told<'_>),
) -> Result<(), AllocError> {
    let origin = call.origin.as_str();
    let (event, told) = noted;
    match told {
        Told::Nothing => {}
        Told::Taken => desk.note_event(rt, alloc, origin, EventResult::Accepted),
        Told::NotTaken(cause) => {
            let became = EventResult::of_error(cause);
            if let Some(became) = became {
                desk.note_event(rt, alloc, origin, became);
            }
            if desk.has_log() {
                let how = match became {
                    Some(EventResult::Rejected) => NotTaken::Rejected,
                    _ => NotTaken::Refused,
                };
                let subject = not_taken(alloc, how, &call.origin, event, cause)?;
                desk.tell(rt, subject);
            }
        }
    }
    Ok(())
}

// What is told of an event that was refused or rejected for this.
fn not_taken(
    alloc: Global,
    how: NotTaken,
    origin: &ServerName,
    event: &EventAbout,
    cause: &str,
) -> Result<Subject, AllocError> {
    Ok(Subject::Event(EventNotTaken {
        how,
        origin: origin.clone()?,
        id: event.id.clone()?,
        room: event.room.clone()?,
        sender: event.sender.clone()?,
        cause: String::from_str(alloc, cause)?,
    }))
}
