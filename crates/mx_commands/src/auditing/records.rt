// What is known of a room.
use crate::auditing::logged::Logged;
use crate::auditing::offerings::{LineCounts, NotKept};
use crate::output::Failure;
use mx_audit::{AuditError, RoomAudit};
use mx_directory::ProgressLine;
use mx_ident::{EventId, RoomId};
use mx_keeper::ShardRow;
use mx_lines::{RefusedCause, RefusedEvent};
use mx_receipt::Timeline;
use std::alloc::{AllocError, Global};

/// What is known of a room: its events, if it is hosted, what was offered to it and not kept, in order of arrival, and what
/// the lines of its log were, if it is of a log.
#[derive(Drop)]
pub(crate) struct RoomRecord {
    pub(crate) audit: Option<RoomAudit>,
    pub(crate) not_kept: Vec<NotKept>,
    pub(crate) counts: Option<LineCounts>,
}

impl RoomRecord {
    /// Of a room by the rows of files, which have what was kept.
    pub(crate) fn of_rows(
        alloc: Global,
        room: &RoomId,
        rows: Vec<ShardRow>,
        progress: &mut ProgressLine<'_>,
    ) -> Result<RoomRecord, Failure> {
        let audit = audit_of(alloc, room, rows, progress)?;
        Ok(RoomRecord {
            audit,
            not_kept: Vec::new(alloc),
            counts: None,
        })
    }

    /// Of a room by a log, each of whose events was judged when it came.
    pub(crate) fn of_log(alloc: Global, logged: Logged) -> Result<RoomRecord, AllocError> {
        let Logged {
            timeline,
            mut not_kept,
            counts,
        } = logged;
        let audit = timeline.map(RoomAudit::of_timeline);
        if let Some(audit) = &audit {
            name_missing(alloc, audit.timeline(), &mut not_kept)?;
        }
        Ok(RoomRecord {
            audit,
            not_kept,
            counts: Some(counts),
        })
    }
}

// The audit of the events of a room among these rows.
fn audit_of(
    alloc: Global,
    room: &RoomId,
    rows: Vec<ShardRow>,
    progress: &mut ProgressLine<'_>,
) -> Result<Option<RoomAudit>, Failure> {
    let mut audit = None;
    let mut count: u64 = 0;
    for row in rows {
        count = count.saturating_add(1);
        progress.tell(count, "rows judged");
        if &row.room == room {
            receive_row(alloc, &mut audit, row)?;
        }
    }
    Ok(audit)
}

// Receives the event of a row, the first of which begins the room.
fn receive_row(alloc: Global, audit: &mut Option<RoomAudit>, row: ShardRow) -> Result<(), Failure> {
    let id = row.event.event_id(alloc)?;
    match audit {
        Some(audit) => audit.receive(row.event, id).map_err(of_audit),
        None => {
            let begun = RoomAudit::begin(alloc, row.event, id).map_err(of_audit)?;
            *audit = Some(begun);
            Ok(())
        }
    }
}

// Rows that are no room's are no rows.
fn of_audit(error: AuditError) -> Failure {
    match error {
        AuditError::Memory => Failure::Memory,
        AuditError::NotACreateEvent => Failure::Storage,
        AuditError::NotReceived(_) => Failure::Storage,
    }
}

// Names the events that were missing when an event was refused for that: those that it cites and that the room did not have
// then.
fn name_missing(
    alloc: Global,
    timeline: &Timeline,
    not_kept: &mut [NotKept],
) -> Result<(), AllocError> {
    for it in not_kept {
        if let NotKept::Refused(refused) = it {
            name_missing_of(alloc, timeline, refused)?;
        }
    }
    Ok(())
}

fn name_missing_of(
    alloc: Global,
    timeline: &Timeline,
    refused: &mut RefusedEvent,
) -> Result<(), AllocError> {
    if refused.cause != RefusedCause::MissingEvents {
        return Ok(());
    }
    let after = refused.offering.after;
    let mut missing = Vec::new(alloc);
    add_missing(timeline, after, refused.event.prev_events(), &mut missing)?;
    add_missing(timeline, after, refused.event.auth_events(), &mut missing)?;
    refused.missing = missing;
    Ok(())
}

// Adds those of these ids that are of none of the room's first events, so many, and not there yet.
fn add_missing(
    timeline: &Timeline,
    after: usize,
    ids: &[EventId],
    missing: &mut Vec<EventId>,
) -> Result<(), AllocError> {
    for id in ids {
        if !is_held(timeline, after, id) && !missing.contains(id) {
            missing.push(id.clone()?)?;
        }
    }
    Ok(())
}

fn is_held(timeline: &Timeline, after: usize, id: &EventId) -> bool {
    match timeline.find(id) {
        Some(number) => number.index() < after,
        None => false,
    }
}
