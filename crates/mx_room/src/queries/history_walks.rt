// Walks back over the events of a room, from the deepest ones on.
ghost use Rattle.std.specs.Prelude.{◌≡◌, ◌==◌, ◌<◌, ◌&&◌, ◌||◌, false, All, IfNone, IfOk, IfSome, IsTrue, OnOk, List, ℕ, filter, length, not, take};
ghost use Rattle.std.specs.BTreeSet.{contains};
ghost use Rattle.std.specs.Ordering.{is_lt};
ghost use Rattle.mx_graph.specs.Record.{is_in};
ghost use Rattle.mx_orders.specs.Mainline.{sorted};
ghost use Rattle.mx_receipt.specs.Receipt.{rows_of};
ghost use Rattle.mx_room.specs.EventOrders.{is_as_deep};
ghost use Rattle.mx_room.specs.HistoryWalks as definition;
ghost use Rattle.mx_room.specs.HistoryWalks.{AreBounded, AreRows, IsLast, Walks, row_cmp, sought_between, waits};
ghost use Rattle.mx_room.specs.Queries.{depth_falling};
ghost use Rattle.mx_room.specs.declared.queries.history_walks.RowByDepth.{RowByDepth as Row};

use crate::queries::event_orders::depth_of_event;
use mx_graph::{EventNo, rising};
use mx_receipt::{Timeline, timeline_depths_hold};
use std::alloc::{AllocError, Global};
use std::collections::BTreeSet;

// A row at a depth. Rows are in the order of their depths, then of their numbers.
#[derive(Clone, Copy, Debug, PartialEq, Eq, PartialOrd, Ord)]
pub(crate) struct RowByDepth {
    depth: u64,
    number: EventNo,
}

/// Which events are answers: those that are not skipped, at least so deep, and were not rejected.
#[derive(Debug, Drop)]
pub(crate) struct Sought {
    pub skipped: BTreeSet<EventNo>,
    pub min_depth: u64,
}

// A walk from some events back over those before them, which leaves out known events and those before these. Each row
// waits under the greatest depth of its event and of those before it, so that it comes after all that lead to it.
#[derive(Debug, Drop)]
pub(crate) struct HistoryWalk {
    // Rows to look at.
    ahead: BTreeSet<RowByDepth>,
    // Rows that are left out. None of them is ahead.
    known: BTreeSet<RowByDepth>,
    // Rows that were looked at, and rows that were left out.
    done: Vec<EventNo>,
    done_known: Vec<EventNo>,
    answers: AnswerCount,
}

// How many answers are deeper than each row that is ahead, as far as it was counted.
#[derive(Debug, Drop)]
struct AnswerCount {
    // Answers that were not counted yet, by their own depths.
    uncounted: BTreeSet<RowByDepth>,
    counted: usize,
}

impl AnswerCount {
    // An event is an answer, where it is sought.
    fn add(
        &mut self,
        timeline: &Timeline,
        sought: &Sought,
        number: EventNo,
    ) -> Result<(), AllocError>
        requires { number < length timeline.now.kept }
    {
        if is_sought(timeline, sought, number) {
            let depth = depth_of_event(timeline, number);
            self.uncounted.insert(RowByDepth { depth, number })?;
        }
        Ok(())
    }

    // Whether so many answers are deeper than each row that is ahead, or no row that is ahead is deep enough.
    fn are_enough(&mut self, ahead: &BTreeSet<RowByDepth>, sought: &Sought, most: usize) -> bool {
        match last_of(ahead) {
            Some(last) if sought.min_depth <= last.depth => {
                self.count(last.depth);
                most <= self.counted
            }
            _ => true,
        }
    }

    // Counts the answers that are deeper.
    fn count(&mut self, depth: u64) {
        for _ in 0..self.uncounted.len() {
            match last_of(&self.uncounted) {
                Some(answer) if depth < answer.depth => {
                    let _ = self.uncounted.pop_last();
                    self.counted = self.counted.saturating_add(1);
                }
                _ => return,
            }
        }
    }
}

// Whether an event may be an answer.
fn is_sought(timeline: &Timeline, sought: &Sought, number: EventNo) -> bool
    requires { number < length timeline.now.kept }
    ensures { result ≡ definition.is_sought (rows_of timeline.now.kept) sought.now number }
{
    let row = timeline.row(number);
    !sought.skipped.contains(&number) && sought.min_depth <= row.event.depth() && !row.rejected
}

// A row under the greatest depth of its event and of those before it.
fn bounded(timeline: &Timeline, number: EventNo) -> RowByDepth
    requires { number < length timeline.now.kept }
    ensures { result ≡ definition.bounded (rows_of timeline.now.kept) number }
{
    RowByDepth {
        depth: timeline.depth_bound(number),
        number,
    }
}

// A row waits.
fn wait(
    waiting: &mut BTreeSet<RowByDepth>,
    timeline: &Timeline,
    number: EventNo,
) -> Result<(), AllocError>
    requires { number < length timeline.now.kept }
    ensures waits { OnOk result ((p : ℕ) → waits (rows_of timeline.now.kept) waiting.new p
        ≡ (waits (rows_of timeline.now.kept) waiting.old p || (number == p))) }
    ensures rows { OnOk result (AreBounded (rows_of timeline.now.kept) waiting.old → AreBounded (rows_of timeline.now.kept) waiting.new) }
{
    waiting.insert(bounded(timeline, number))?;
    Ok(())
}

// A row waits no longer.
fn leave(waiting: &mut BTreeSet<RowByDepth>, timeline: &Timeline, number: EventNo)
    requires { number < length timeline.now.kept }
    ensures waits { (p : ℕ) → waits (rows_of timeline.now.kept) waiting.new p
        ≡ (waits (rows_of timeline.now.kept) waiting.old p && not (number == p)) }
    ensures rows { AreBounded (rows_of timeline.now.kept) waiting.old → AreBounded (rows_of timeline.now.kept) waiting.new }
{
    waiting.remove(&bounded(timeline, number));
}

// These rows are ahead, except for those that are known.
fn put_ahead(
    ahead: &mut BTreeSet<RowByDepth>,
    known: &BTreeSet<RowByDepth>,
    timeline: &Timeline,
    numbers: &[EventNo],
) -> Result<(), AllocError>
    requires { All (λ number. number < length timeline.now.kept) numbers.now }
    ensures waits { OnOk result ((p : ℕ) → waits (rows_of timeline.now.kept) ahead.new p
        ≡ (waits (rows_of timeline.now.kept) ahead.old p || (is_in numbers.now p && not (waits (rows_of timeline.now.kept) known.now p)))) }
    ensures rows { OnOk result (AreBounded (rows_of timeline.now.kept) ahead.old → AreBounded (rows_of timeline.now.kept) ahead.new) }
{
    for number in numbers {
        if !known.contains(&bounded(timeline, *number)) {
            wait(ahead, timeline, *number)?;
        }
    }
    Ok(())
}

// These rows are known, and ahead no longer.
fn put_known(
    ahead: &mut BTreeSet<RowByDepth>,
    known: &mut BTreeSet<RowByDepth>,
    timeline: &Timeline,
    numbers: &[EventNo],
) -> Result<(), AllocError>
    requires { All (λ number. number < length timeline.now.kept) numbers.now }
    ensures ahead { OnOk result ((p : ℕ) → waits (rows_of timeline.now.kept) ahead.new p
        ≡ (waits (rows_of timeline.now.kept) ahead.old p && not (is_in numbers.now p))) }
    ensures known { OnOk result ((p : ℕ) → waits (rows_of timeline.now.kept) known.new p
        ≡ (waits (rows_of timeline.now.kept) known.old p || is_in numbers.now p)) }
    ensures ahead_rows { OnOk result (AreBounded (rows_of timeline.now.kept) ahead.old → AreBounded (rows_of timeline.now.kept) ahead.new) }
    ensures known_rows { OnOk result (AreBounded (rows_of timeline.now.kept) known.old → AreBounded (rows_of timeline.now.kept) known.new) }
{
    for number in numbers {
        wait(known, timeline, *number)?;
        leave(ahead, timeline, *number);
    }
    Ok(())
}

// The last row that waits.
fn last_of(waiting: &BTreeSet<RowByDepth>) -> Option<RowByDepth>
    ensures some { IfSome result (λ row. IsTrue (contains row_cmp waiting.now row) × IsLast waiting.now row) }
    ensures none { IfNone result ((row : Row) → contains row_cmp waiting.now row ≡ false) }
{
    match waiting.last() {
        Some(row) => Some(*row),
        None => None,
    }
}

// The last known row, where it comes after this one.
fn known_after(known: &BTreeSet<RowByDepth>, row: &RowByDepth) -> Option<RowByDepth>
    ensures some { IfSome result (λ last. IsTrue (contains row_cmp known.now last) × (IsLast known.now last × IsTrue (is_lt (row_cmp row.now last)))) }
    ensures none { IfNone result (IsLast known.now row.now) }
{
    match last_of(known) {
        Some(last) => { if *row < last { Some(last) } else { None } }
        None => None,
    }
}

// A depth that is greater than that of each row that waits; none where no number is greater.
fn depth_above(waiting: &BTreeSet<RowByDepth>) -> Option<u64>
    ensures { IfSome result (λ depth. (row : Row) → IsTrue (contains row_cmp waiting.now row) → row.depth < depth) }
{
    match last_of(waiting) {
        Some(last) => last.depth.checked_add(1),
        None => Some(0),
    }
}

// The last row that is ahead is looked at, and what it follows is ahead.
fn look_at(
    walk: &mut HistoryWalk,
    timeline: &Timeline,
    sought: &Sought,
    row: &RowByDepth,
) -> Result<(), AllocError>
    requires rows { AreRows (rows_of timeline.now.kept) walk.old }
    requires ahead { IsTrue (contains row_cmp walk.old.ahead row.now) }
    requires last { IsLast walk.old.ahead row.now }
    requires last_known { IsLast walk.old.known row.now }
    ensures rows { OnOk result (AreRows (rows_of timeline.now.kept) walk.new) }
    ensures walks { OnOk result ((starts known : List ℕ)
        → Walks (rows_of timeline.now.kept) starts known walk.old → Walks (rows_of timeline.now.kept) starts known walk.new) }
{
    timeline_depths_hold(timeline);
    leave(&mut walk.ahead, timeline, row.number);
    walk.done.push(row.number)?;
    walk.answers.add(timeline, sought, row.number)?;
    put_ahead(
        &mut walk.ahead,
        &walk.known,
        timeline,
        timeline.prev_events(row.number),
    )?;
    Ok(())
}

// The last known row is left out, and what it follows is known.
fn leave_out(
    walk: &mut HistoryWalk,
    timeline: &Timeline,
    row: &RowByDepth,
) -> Result<(), AllocError>
    requires rows { AreRows (rows_of timeline.now.kept) walk.old }
    requires known { IsTrue (contains row_cmp walk.old.known row.now) }
    requires last { IsLast walk.old.ahead row.now }
    requires last_known { IsLast walk.old.known row.now }
    ensures rows { OnOk result (AreRows (rows_of timeline.now.kept) walk.new) }
    ensures walks { OnOk result ((starts known : List ℕ)
        → Walks (rows_of timeline.now.kept) starts known walk.old → Walks (rows_of timeline.now.kept) starts known walk.new) }
{
    timeline_depths_hold(timeline);
    leave(&mut walk.known, timeline, row.number);
    walk.done_known.push(row.number)?;
    put_known(
        &mut walk.ahead,
        &mut walk.known,
        timeline,
        timeline.prev_events(row.number),
    )?;
    Ok(())
}

// One row more.
fn step(walk: &mut HistoryWalk, timeline: &Timeline, sought: &Sought) -> Result<(), AllocError>
    requires { AreRows (rows_of timeline.now.kept) walk.old }
    ensures rows { OnOk result (AreRows (rows_of timeline.now.kept) walk.new) }
    ensures walks { OnOk result ((starts known : List ℕ)
        → Walks (rows_of timeline.now.kept) starts known walk.old → Walks (rows_of timeline.now.kept) starts known walk.new) }
{
    let Some(row) = last_of(&walk.ahead) else {
        return Ok(());
    };
    match known_after(&walk.known, &row) {
        Some(known) => leave_out(walk, timeline, &known)?,
        None => look_at(walk, timeline, sought, &row)?,
    }
    Ok(())
}

// The walk before its first step.
fn begin(
    alloc: Global,
    timeline: &Timeline,
    starts: &[EventNo],
    known: &[EventNo],
) -> Result<HistoryWalk, AllocError>
    requires starts { All (λ number. number < length timeline.now.kept) starts.now }
    requires known { All (λ number. number < length timeline.now.kept) known.now }
    ensures rows { IfOk result (AreRows (rows_of timeline.now.kept)) }
    ensures walks { IfOk result (Walks (rows_of timeline.now.kept) starts.now known.now) }
{
    timeline_depths_hold(timeline);
    let mut ahead = BTreeSet::new(alloc);
    let mut left_out = BTreeSet::new(alloc);
    put_known(&mut ahead, &mut left_out, timeline, known)?;
    put_ahead(&mut ahead, &left_out, timeline, starts)?;
    Ok(HistoryWalk {
        ahead,
        known: left_out,
        done: Vec::new(alloc),
        done_known: Vec::new(alloc),
        answers: AnswerCount {
            uncounted: BTreeSet::new(alloc),
            counted: 0,
        },
    })
}

// Those of these events that are sought and at least so deep, in their order.
fn sought_of(
    alloc: Global,
    timeline: &Timeline,
    events: &[EventNo],
    sought: &Sought,
    depth: u64,
) -> Result<Vec<EventNo>, AllocError>
    requires { All (λ event. event < length timeline.now.kept) events.now }
    ensures events { IfOk result (λ found. found.items ≡ filter
        (λ p. definition.is_sought (rows_of timeline.now.kept) sought.now p && is_as_deep (rows_of timeline.now.kept) depth p) events.now) }
    ensures below { IfOk result (λ found. All (λ event. event < length timeline.now.kept) found.items) }
{
    let mut found = Vec::new(alloc);
    for event in events {
        if is_sought(timeline, sought, *event) && depth <= depth_of_event(timeline, *event) {
            found.push(*event)?;
        }
    }
    Ok(found)
}

// The answers that are deeper than each row ahead, rising, where these are all answers or at least so many.
fn deep_answers(
    alloc: Global,
    timeline: &Timeline,
    walk: &HistoryWalk,
    sought: &Sought,
    most: usize,
) -> Result<Option<Vec<EventNo>>, AllocError>
    requires { AreRows (rows_of timeline.now.kept) walk.now }
    ensures deepest { IfOk result (λ answers. IfSome answers (λ events. (starts known : List ℕ)
        → Walks (rows_of timeline.now.kept) starts known walk.now
        → take most (sorted (depth_falling (rows_of timeline.now.kept)) events.items)
        ≡ take most (sorted (depth_falling (rows_of timeline.now.kept)) (sought_between (rows_of timeline.now.kept) starts known sought.now)))) }
    ensures below { IfOk result (λ answers. IfSome answers (λ events. All (λ event. event < length timeline.now.kept) events.items)) }
{
    timeline_depths_hold(timeline);
    let Some(depth) = depth_above(&walk.ahead) else {
        return Ok(None);
    };
    let found = sought_of(alloc, timeline, &walk.done, sought, depth)?;
    let events = rising(alloc, &found)?;
    if depth > sought.min_depth && events.len() < most {
        return Ok(None);
    }
    Ok(Some(events))
}

/// Events whose deepest ones, at most so many, are those of all that are sought behind the starts and not behind the
/// known ones; a start and a known one are behind themselves. None where too few were found, which the plain body is for.
///
/// Where depths rise along the edges of the record, the time is that of the events between the starts and the last of
/// these deepest ones, times a logarithm.
pub(crate) fn deepest_behind(
    alloc: Global,
    timeline: &Timeline,
    starts: &[EventNo],
    known: &[EventNo],
    sought: &Sought,
    most: usize,
) -> Result<Option<Vec<EventNo>>, AllocError>
    requires starts { All (λ number. number < length timeline.now.kept) starts.now }
    requires known { All (λ number. number < length timeline.now.kept) known.now }
    ensures deepest { IfOk result (λ answers. IfSome answers (λ events.
        take most (sorted (depth_falling (rows_of timeline.now.kept)) events.items)
        ≡ take most (sorted (depth_falling (rows_of timeline.now.kept)) (sought_between (rows_of timeline.now.kept) starts.now known.now sought.now)))) }
    ensures below { IfOk result (λ answers. IfSome answers (λ events. All (λ event. event < length timeline.now.kept) events.items)) }
{
    let mut walk = begin(alloc, timeline, starts, known)?;
    for _ in 0..timeline.len() {
        if walk.answers.are_enough(&walk.ahead, sought, most) {
            break;
        }
        step(&mut walk, timeline, sought)?;
    }
    let events = deep_answers(alloc, timeline, &walk, sought, most)?;
    Ok(events)
}
