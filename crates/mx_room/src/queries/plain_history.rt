// Plain bodies under the contracts of fast ones: they walk over all events behind the given ones.
ghost use Rattle.std.specs.Prelude.{◌≡◌, ◌<◌, All, IfOk, length};
ghost use Rattle.mx_receipt.specs.Receipt.{rows_of};
ghost use Rattle.mx_room.specs.Answers as answers;
ghost use Rattle.mx_room.specs.Queries as definition;

use crate::queries::event_orders::{deepest, deepest_last};
use crate::queries::history_queries::{MOST_BACKFILLED, MOST_MISSING, held};
use crate::queries::marked_events::{EventMarks, taken};
use mx_graph::EventNo;
use mx_ident::EventId;
use mx_receipt::Timeline;
use std::alloc::{AllocError, Global};

/// Events and those before them, by a walk over all of them.
#[tactic(auto, unfolding(crate::specs::Queries::backfill))]
pub(crate) fn backfill(
    alloc: Global,
    timeline: &Timeline,
    from: &[EventId],
    limit: u64,
) -> Result<Vec<EventNo>, AllocError>
    ensures events { IfOk result (λ events. events.items ≡ definition.backfill (rows_of timeline.now.kept) from.now limit) }
    ensures below { IfOk result (λ events. All (λ event. event < length timeline.now.kept) events.items) }
{
    let starts = held(alloc, timeline, from)?;
    let before = timeline.ancestors(alloc, &starts)?;
    let mut marks = EventMarks::none(alloc, timeline.len())?;
    marks.mark(&starts);
    marks.mark(&before);
    let found = taken(alloc, timeline, &marks, 0)?;
    let most = limit.min(MOST_BACKFILLED) as usize;
    let events = deepest(alloc, timeline, &found, most)?;
    Ok(events)
}

/// What lies behind the latest events and not behind the earliest ones, by a walk over all events behind them.
#[tactic(auto, unfolding(crate::specs::Queries::missing_events))]
pub(crate) fn missing_events(
    alloc: Global,
    timeline: &Timeline,
    earliest: &[EventId],
    latest: &[EventId],
    limit: u64,
    min_depth: u64,
) -> Result<Vec<EventNo>, AllocError>
    ensures events { IfOk result (λ events. events.items
        ≡ definition.missing_events (rows_of timeline.now.kept) earliest.now latest.now limit min_depth) }
    ensures below { IfOk result (λ events. All (λ event. event < length timeline.now.kept) events.items) }
{
    let found = behind(alloc, timeline, earliest, latest, min_depth)?;
    let most = limit.min(MOST_MISSING) as usize;
    let deep = deepest(alloc, timeline, &found, most)?;
    let events = deepest_last(alloc, timeline, &deep)?;
    Ok(events)
}

// The events behind the latest ones that are not behind the earliest ones, at least so deep and not rejected, rising.
fn behind(
    alloc: Global,
    timeline: &Timeline,
    earliest: &[EventId],
    latest: &[EventId],
    min_depth: u64,
) -> Result<Vec<EventNo>, AllocError>
    ensures events { IfOk result (λ events. events.items
        ≡ answers.behind (rows_of timeline.now.kept) earliest.now latest.now min_depth) }
    ensures below { IfOk result (λ events. All (λ event. event < length timeline.now.kept) events.items) }
{
    let ends = held(alloc, timeline, latest)?;
    let known = held(alloc, timeline, earliest)?;
    let before = timeline.ancestors(alloc, &ends)?;
    let before_known = timeline.ancestors(alloc, &known)?;
    let mut marks = EventMarks::none(alloc, timeline.len())?;
    marks.mark(&before);
    marks.unmark(&ends);
    marks.unmark(&known);
    marks.unmark(&before_known);
    let events = taken(alloc, timeline, &marks, min_depth)?;
    Ok(events)
}
