// Queries for events and those before them.
ghost use Rattle.std.specs.Prelude.{◌≡◌, ◌<◌, All, IfOk, IsTrue, OnErr, flat_map, is_ok, is_some, length};
ghost use Rattle.std.specs.List.{list_any};
ghost use Rattle.mx_graph.specs.Record.{event, place_of, prev_events};
ghost use Rattle.mx_receipt.specs.Receipt.{rows_of};
ghost use Rattle.mx_room.specs.Answers as answers;
ghost use Rattle.mx_room.specs.Queries as definition;

use crate::queries::event_orders::{deepest, deepest_last};
use crate::queries::history_walks::{Sought, deepest_behind};
use crate::queries::served_events::all_shown;
use crate::queries::{Denied, QueryReply, plain_history};
use mx_access::Viewer;
use mx_graph::{EventNo, set_of};
use mx_ident::EventId;
use mx_receipt::{Timeline, timeline_depths_hold};
use std::alloc::{AllocError, Global};
use std::collections::BTreeSet;

// The greatest limits. Source: the Matrix specification, Server-Server API, "Backfilling and retrieving missing events"
// (the numbers are our own).
pub(crate) const MOST_BACKFILLED: u64 = 100;

pub(crate) const MOST_MISSING: u64 = 20;

/// Events and those before them, as the server is shown them.
///
/// Source: the Matrix specification, Server-Server API, "Backfilling and retrieving missing events", backfill.
pub(crate) fn backfill_answer(
    alloc: Global,
    timeline: &Timeline,
    viewer: &Viewer<'_, '_>,
    from: &[EventId],
    limit: u64,
) -> Result<Result<QueryReply, Denied>, AllocError>
    requires { viewer.now.kept ≡ timeline.now.kept }
    ensures reply { IfOk result (λ reply. reply
        ≡ answers.backfill_answer timeline.now.kept viewer.now.server from.now limit) }
    ensures memory { OnErr result (IsTrue (is_ok
        (answers.backfill_answer timeline.now.kept viewer.now.server from.now limit))) }
{
    if !holds_any(timeline, from) {
        return Ok(Err(Denied::NotFound));
    }
    let events = backfill(alloc, timeline, from, limit)?;
    let shown = all_shown(alloc, viewer, &events)?;
    Ok(Ok(QueryReply::Events(shown)))
}

/// What lies behind the latest events and not behind the earliest ones, as the server is shown it.
///
/// Source: the Matrix specification, Server-Server API, "Backfilling and retrieving missing events", get_missing_events.
pub(crate) fn missing_answer(
    alloc: Global,
    timeline: &Timeline,
    viewer: &Viewer<'_, '_>,
    earliest: &[EventId],
    latest: &[EventId],
    limit: u64,
    min_depth: u64,
) -> Result<Result<QueryReply, Denied>, AllocError>
    requires { viewer.now.kept ≡ timeline.now.kept }
    ensures reply { IfOk result (λ reply. reply
        ≡ answers.missing_answer timeline.now.kept viewer.now.server earliest.now latest.now limit min_depth) }
{
    let events = missing_events(alloc, timeline, earliest, latest, limit, min_depth)?;
    let shown = all_shown(alloc, viewer, &events)?;
    Ok(Ok(QueryReply::Events(shown)))
}

// The walk is bounded by the events of the room; where it has not ended by then, the plain body answers.
#[tactic(auto, unfolding(crate::specs::Queries::backfill))]
fn backfill(
    alloc: Global,
    timeline: &Timeline,
    from: &[EventId],
    limit: u64,
) -> Result<Vec<EventNo>, AllocError>
    ensures events { IfOk result (λ events. events.items ≡ definition.backfill (rows_of timeline.now.kept) from.now limit) }
    ensures below { IfOk result (λ events. All (λ event. event < length timeline.now.kept) events.items) }
{
    let starts = held(alloc, timeline, from)?;
    let most = limit.min(MOST_BACKFILLED) as usize;
    let sought = Sought {
        skipped: BTreeSet::new(alloc),
        min_depth: 0,
    };
    timeline_depths_hold(timeline);
    let found = deepest_behind(alloc, timeline, &starts, &[], &sought, most)?;
    let Some(found) = found else {
        let events = plain_history::backfill(alloc, timeline, from, limit)?;
        return Ok(events);
    };
    let events = deepest(alloc, timeline, &found, most)?;
    Ok(events)
}

#[tactic(auto, unfolding(crate::specs::Queries::missing_events))]
fn missing_events(
    alloc: Global,
    timeline: &Timeline,
    earliest: &[EventId],
    latest: &[EventId],
    limit: u64,
    min_depth: u64,
) -> Result<Vec<EventNo>, AllocError>
    ensures events { IfOk result (λ events. events.items
        ≡ definition.missing_events (rows_of timeline.now.kept) earliest.now latest.now limit min_depth) }
    ensures below { IfOk result (λ events. All (λ event. event < length timeline.now.kept) events.items) }
{
    let ends = held(alloc, timeline, latest)?;
    let known = held(alloc, timeline, earliest)?;
    let starts = followed(alloc, timeline, &ends)?;
    let most = limit.min(MOST_MISSING) as usize;
    let skipped = set_of(alloc, &ends)?;
    let sought = Sought { skipped, min_depth };
    timeline_depths_hold(timeline);
    let found = deepest_behind(alloc, timeline, &starts, &known, &sought, most)?;
    let Some(found) = found else {
        let events = plain_history::missing_events(
            alloc, timeline, earliest, latest, limit, min_depth,
        )?;
        return Ok(events);
    };
    let deep = deepest(alloc, timeline, &found, most)?;
    let events = deepest_last(alloc, timeline, &deep)?;
    Ok(events)
}

// What these events follow, in one list.
fn followed(
    alloc: Global,
    timeline: &Timeline,
    events: &[EventNo],
) -> Result<Vec<EventNo>, AllocError>
    requires { All (λ event. event < length timeline.now.kept) events.now }
    ensures events { IfOk result (λ prev. prev.items
        ≡ flat_map (λ p. prev_events (rows_of timeline.now.kept) (event (rows_of timeline.now.kept) p)) events.now) }
    ensures below { IfOk result (λ prev. All (λ event. event < length timeline.now.kept) prev.items) }
{
    let mut prev = Vec::new(alloc);
    for event in events {
        prev.extend_from_slice(timeline.prev_events(*event))?;
    }
    Ok(prev)
}

// Whether an event with one of these ids is held.
fn holds_any(timeline: &Timeline, ids: &[EventId]) -> bool
    ensures { result ≡ list_any (λ id. is_some (place_of (rows_of timeline.now.kept) id)) ids.now }
{
    ids.iter().any(|id| timeline.find(id).is_some())
}

// The numbers of the events with these ids that are held.
pub(crate) fn held(
    alloc: Global,
    timeline: &Timeline,
    ids: &[EventId],
) -> Result<Vec<EventNo>, AllocError>
    ensures numbers { IfOk result (λ numbers. numbers.items ≡ definition.held (rows_of timeline.now.kept) ids.now) }
    ensures below { IfOk result (λ numbers. All (λ number. number < length timeline.now.kept) numbers.items) }
{
    let mut numbers = Vec::with_capacity(alloc, ids.len())?;
    for id in ids {
        if let Some(number) = timeline.find(id) {
            numbers.push(number)?;
        }
    }
    Ok(numbers)
}
