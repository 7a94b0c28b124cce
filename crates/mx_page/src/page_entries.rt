// The entries of a page's data, event by event.
ghost use Rattle.std.specs.Prelude.{◌≡◌, ◌<◌, IfOk, IfSome, None, Some, if◌then◌else◌, length, nat_lt, option_map};
ghost use Rattle.mx_receipt.specs.Receipt.{rows_of};
ghost use Rattle.mx_audit.specs.EventLines.{event_text};
ghost use Rattle.mx_page.specs.EntryParts.{AreParts};
ghost use Rattle.mx_page.specs.Escaping.{escaped as escaped_text};
ghost use Rattle.mx_page.specs.Page as definition;

use crate::entry_texts::{EntryParts, text_of_parts};
use crate::escaping::escaped;
use crate::state_changes::{StateChange, changes, changes_by_put};
use mx_audit::{RoomAudit, event_line, lines_of_resolution, resolution_before};
use mx_graph::{EventNo, Graph};
use mx_receipt::Timeline;
use mx_states::StateMap;
use std::alloc::{AllocError, Global};

/// The entry of the event with this number in the data of a page, as it stands within a script of HTML, with a comma before
/// each entry but the first: the event's line, the place of its first prev event, what differs between the state after that
/// event and the state before this one, and between the states before and after this one, and where it has several prev
/// events the lines of their resolution. None where there is no such event.
///
/// The one error is that no memory is left. The time is that of [`event_line`], and of a look-up in the state before the
/// event; of an event with several prev events also that of [`changes`] and of [`resolution_before`].
pub fn page_entry(
    alloc: Global,
    audit: &RoomAudit,
    number: EventNo,
) -> Result<Option<Vec<u8>>, AllocError>
    ensures { IfOk result (λ entry. option_map (λ text. text.items) entry
        ≡ (if nat_lt number (length audit.now) then Some (escaped_text (definition.entry_text audit.now number)) else None)) }
{
    if number.index() >= audit.timeline().len() {
        return Ok(None);
    }
    let parts = parts_of(alloc, audit, number)?;
    let entry = text_of_parts(alloc, number, &parts)?;
    let bytes = escaped(alloc, &entry)?;
    Ok(Some(bytes))
}

fn parts_of(alloc: Global, audit: &RoomAudit, number: EventNo) -> Result<EntryParts, AllocError>
    requires { number < length audit.now }
    ensures { IfOk result (AreParts audit.now number) }
{
    let timeline = audit.timeline();
    let resolution = resolution_lines(alloc, timeline, audit.graph(), number)?;
    let line = line_of_event(alloc, audit, number)?;
    let base = first_prev_event(timeline, number);
    let before = changes_before(alloc, timeline, number)?;
    let after = changes_after(alloc, timeline, number)?;
    Ok(EntryParts {
        line,
        base,
        before,
        after,
        resolution,
    })
}

// The line of an event that is there.
fn line_of_event(alloc: Global, audit: &RoomAudit, number: EventNo) -> Result<Vec<u8>, AllocError>
    requires { number < length audit.now }
    ensures { IfOk result (λ line. line.items ≡ event_text audit.now number) }
{
    let line = event_line(alloc, audit, number)?;
    match line {
        Some(line) => Ok(line),
        None => Ok(Vec::new(alloc)),
    }
}

fn first_prev_event(timeline: &Timeline, number: EventNo) -> Option<EventNo>
    requires { number < length timeline.now.kept }
    ensures first { result ≡ definition.first_of (definition.prevs timeline.now.kept number) }
    ensures below { IfSome result (λ base. base < length timeline.now.kept) }
{
    match timeline.prev_events(number).first() {
        Some(base) => Some(*base),
        None => None,
    }
}

// What differs between the state after the first prev event, which is empty where there is none, and the state before the
// event. Where that is its one prev event, both are the same.
fn changes_before(
    alloc: Global,
    timeline: &Timeline,
    number: EventNo,
) -> Result<Vec<StateChange>, AllocError>
    requires { number < length timeline.now.kept }
    ensures { IfOk result (λ found. found.items ≡ definition.changes_before timeline.now.kept number) }
{
    if timeline.prev_events(number).len() == 1 {
        return Ok(Vec::new(alloc));
    }
    let old = base_state(alloc, timeline, number)?;
    let new = timeline.state_before(number).map(alloc)?;
    let found = changes(alloc, &old, &new)?;
    Ok(found)
}

// The state after the first prev event, which is empty where there is none.
fn base_state(alloc: Global, timeline: &Timeline, number: EventNo) -> Result<StateMap, AllocError>
    requires { number < length timeline.now.kept }
    ensures { IfOk result (λ state. state
        ≡ definition.base_state timeline.now.kept (definition.first_of (definition.prevs timeline.now.kept number))) }
{
    match first_prev_event(timeline, number) {
        Some(base) => {
            let state = timeline.state_after(base).map(alloc)?;
            Ok(state)
        }
        None => Ok(StateMap::new(alloc)),
    }
}

// What differs between the states before and after an event: where it is a state event and was not rejected, it stands at
// its key.
fn changes_after(
    alloc: Global,
    timeline: &Timeline,
    number: EventNo,
) -> Result<Vec<StateChange>, AllocError>
    requires { number < length timeline.now.kept }
    ensures { IfOk result (λ found. found.items ≡ definition.changes_after timeline.now.kept number) }
{
    if timeline.verdict(number).is_rejected() {
        return Ok(Vec::new(alloc));
    }
    let event = &timeline.row(number).event;
    match event.state_key() {
        Some(state_key) => {
            let old = timeline.state_before(number).get(event.kind(), state_key);
            let found = changes_by_put(alloc, old, event.kind(), state_key, number)?;
            Ok(found)
        }
        None => Ok(Vec::new(alloc)),
    }
}

// The lines of the resolution of the states before an event, where it has several prev events.
fn resolution_lines(
    alloc: Global,
    timeline: &Timeline,
    graph: &Graph,
    number: EventNo,
) -> Result<Option<Vec<u8>>, AllocError>
    requires below { number < length timeline.now.kept }
    requires graph { graph.now ≡ rows_of timeline.now.kept }
    ensures { IfOk result (λ lines. option_map (λ text. text.items) lines ≡ definition.resolution_of timeline.now.kept number) }
{
    if has_several_prev_events(timeline, number) {
        let lines = lines_before(alloc, timeline, graph, number)?;
        Ok(Some(lines))
    } else {
        Ok(None)
    }
}

fn has_several_prev_events(timeline: &Timeline, number: EventNo) -> bool
    requires { number < length timeline.now.kept }
    ensures { result ≡ nat_lt 1 (length (definition.prevs timeline.now.kept number)) }
{
    timeline.prev_events(number).len() > 1
}

fn lines_before(
    alloc: Global,
    timeline: &Timeline,
    graph: &Graph,
    number: EventNo,
) -> Result<Vec<u8>, AllocError>
    requires below { number < length timeline.now.kept }
    requires graph { graph.now ≡ rows_of timeline.now.kept }
    ensures { IfOk result (λ lines. lines.items ≡ definition.resolution_lines timeline.now.kept number) }
{
    let steps = resolution_before(alloc, timeline, graph, number)?;
    let lines = lines_of_resolution(alloc, timeline, &steps)?;
    Ok(lines)
}
