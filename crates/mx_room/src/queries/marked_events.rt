// Marks, one for each event of a room.
ghost use Rattle.std.specs.Prelude.{◌≡◌, ◌==◌, ◌<◌, ◌&&◌, ◌||◌, All, IfOk, ℕ, length, nat_lt, not, false};
ghost use Rattle.mx_graph.specs.Record.{events_where, is_in};
ghost use Rattle.mx_receipt.specs.Receipt.{rows_of};
ghost use Rattle.mx_room.specs.Answers as definition;
ghost use Rattle.mx_room.specs.Answers.{is_marked};

use mx_graph::EventNo;
use mx_receipt::{Timeline, timeline_is_sound};
use std::alloc::{AllocError, Global};
use std::marker::Model;

/// Marks of a room's events, each marked or not.
#[derive(Debug, Drop)]
pub(crate) struct EventMarks {
    marks: Vec<bool>,
}

impl Model for EventMarks {
    ghost use Rattle.std.specs.Prelude.{Bool, List};

    ghost Value = { List Bool };

    ghost view = { λ m. m.marks.items };
}

impl EventMarks {
    /// So many events, none of them marked.
    pub(crate) fn none(alloc: Global, count: usize) -> Result<EventMarks, AllocError>
        ensures len { IfOk result (λ marks. length marks ≡ count) }
        ensures none { IfOk result (λ marks. (p : ℕ) → is_marked marks p ≡ false) }
    {
        let marks = vec![in alloc; false; count]?;
        Ok(EventMarks { marks })
    }

    /// These events are marked. One past the end is passed over.
    pub(crate) fn mark(&mut self, events: &[EventNo])
        ensures len { length self.new ≡ length self.old }
        ensures marked { (p : ℕ) → is_marked self.new p
            ≡ (is_marked self.old p || (nat_lt p (length self.old) && is_in events.now p)) }
    {
        for event in events {
            self.mark_one(*event);
        }
    }

    fn mark_one(&mut self, event: EventNo)
        ensures len { length self.new ≡ length self.old }
        ensures marked { (p : ℕ) → is_marked self.new p
            ≡ (is_marked self.old p || (nat_lt p (length self.old) && (event == p))) }
    {
        if event.index() < self.marks.len() {
            self.marks[event.index()] = true;
        }
    }

    /// These events are marked no longer.
    pub(crate) fn unmark(&mut self, events: &[EventNo])
        ensures len { length self.new ≡ length self.old }
        ensures marked { (p : ℕ) → is_marked self.new p ≡ (is_marked self.old p && not (is_in events.now p)) }
    {
        for event in events {
            self.unmark_one(*event);
        }
    }

    fn unmark_one(&mut self, event: EventNo)
        ensures len { length self.new ≡ length self.old }
        ensures marked { (p : ℕ) → is_marked self.new p ≡ (is_marked self.old p && not (event == p)) }
    {
        if event.index() < self.marks.len() {
            self.marks[event.index()] = false;
        }
    }

    fn has(&self, event: EventNo) -> bool
        ensures { result ≡ is_marked self.now event }
    {
        event.index() < self.marks.len() && self.marks[event.index()]
    }
}

/// The marked events that are at least so deep and were not rejected, rising.
pub(crate) fn taken(
    alloc: Global,
    timeline: &Timeline,
    marks: &EventMarks,
    min_depth: u64,
) -> Result<Vec<EventNo>, AllocError>
    ensures events { IfOk result (λ found. found.items
        ≡ events_where (rows_of timeline.now.kept) (definition.is_taken (rows_of timeline.now.kept) marks.now min_depth)) }
    ensures below { IfOk result (λ found. All (λ event. event < length timeline.now.kept) found.items) }
{
    timeline_is_sound(timeline);
    let mut found = Vec::new(alloc);
    for place in 0..timeline.len() {
        let number = EventNo::at(place as u32);
        if is_taken(timeline, marks, number, min_depth) {
            found.push(number)?;
        }
    }
    Ok(found)
}

fn is_taken(timeline: &Timeline, marks: &EventMarks, number: EventNo, min_depth: u64) -> bool
    requires { number < length timeline.now.kept }
    ensures { result ≡ definition.is_taken (rows_of timeline.now.kept) marks.now min_depth number }
{
    let row = timeline.row(number);
    marks.has(number) && min_depth <= row.event.depth() && !row.rejected
}
