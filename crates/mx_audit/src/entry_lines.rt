// What lines tell of entries of states.
ghost use Rattle.std.specs.Prelude.{◌≡◌, ◌++◌, ℕ, IfOk, List, Some, option_map};
ghost use Rattle.serde_json.specs.Data.{array};
ghost use Rattle.mx_canon.specs.Canonical.{value_text};
ghost use Rattle.mx_audit.specs.EventLines as definition;
ghost use Rattle.mx_audit.specs.Written.{rest_written};

use crate::asking::AskedEntry;
use crate::judged_events::standing_event;
use mx_canon::{TextBuffer, TextSink, write_key, write_string};
use mx_graph::EventNo;
use mx_ident::EventId;
use mx_lines::{open_line, put_comma, write_id};
use mx_reasons::{JudgedEvent, write_facts};
use mx_receipt::Timeline;
use mx_states::{StateEntry, StateRef};
use std::alloc::{AllocError, Global};

/// A state of a room, a line for each of its entries in the order of their keys, with the id of the event that stands
/// there. `AllocError` where no memory is left.
pub fn state_lines(
    alloc: Global,
    timeline: &Timeline,
    state: &StateRef<'_>,
) -> Result<Vec<u8>, AllocError>
    ensures { IfOk result (λ lines. lines.items ≡ definition.state_text timeline.now.kept state.now) }
{
    let map = state.map(alloc)?;
    let mut lines = TextBuffer::new(alloc);
    write_state(&mut lines, timeline, map.entries());
    let bytes = lines.into_bytes()?;
    Ok(bytes)
}

fn write_state<S: TextSink>(sink: &mut S, timeline: &Timeline, entries: &[StateEntry])
    ensures { (taken : List ℕ) → S.has_taken sink.old taken
        → S.has_taken sink.new (taken ++ definition.state_text timeline.now.kept entries.now) }
{
    for entry in entries {
        write_state_line(sink, timeline, entry);
    }
}

fn write_state_line<S: TextSink>(sink: &mut S, timeline: &Timeline, entry: &StateEntry)
    ensures { (taken : List ℕ) → S.has_taken sink.old taken
        → S.has_taken sink.new (taken ++ definition.state_line timeline.now.kept entry.now) }
{
    write_entry(
        sink,
        timeline,
        entry.kind(),
        entry.state_key(),
        Some(entry.event()),
    );
    sink.put(b"\n");
}

/// Gives the sink what stood at the keys that were asked for, with what the rules read there, as an array.
pub(crate) fn write_asked<S: TextSink>(
    sink: &mut S,
    timeline: &Timeline,
    judged: &JudgedEvent<'_>,
    asked: &[AskedEntry],
)
    ensures { (taken : List ℕ) → S.has_taken sink.old taken
        → S.has_taken sink.new (taken ++ value_text (array (definition.asked_items timeline.now.kept judged.now asked.now))) }
{
    sink.put(b"[");
    let mut later = false;
    for entry in asked {
        put_comma(sink, later);
        write_asked_entry(sink, timeline, judged, entry);
        later = true;
    }
    sink.put(b"]");
}

fn write_asked_entry<S: TextSink>(
    sink: &mut S,
    timeline: &Timeline,
    judged: &JudgedEvent<'_>,
    entry: &AskedEntry,
)
    ensures { (taken : List ℕ) → S.has_taken sink.old taken
        → S.has_taken sink.new (taken ++ value_text (definition.asked_data timeline.now.kept judged.now entry.now.0 entry.now.1)) }
{
    open_line(sink, b"event_id");
    write_id(sink, id_at(timeline, entry.event()));
    write_facts(
        sink,
        judged,
        entry.kind(),
        standing_event(timeline, entry.event()),
    );
    write_rest(sink, entry.kind(), entry.state_key());
}

// Gives the sink an object that tells what stands at a key.
fn write_entry<S: TextSink>(
    sink: &mut S,
    timeline: &Timeline,
    kind: &str,
    state_key: &str,
    event: Option<EventNo>,
)
    ensures { (taken : List ℕ) → S.has_taken sink.old taken
        → S.has_taken sink.new (taken ++ value_text (definition.entry_data timeline.now.kept (kind.now, state_key.now) event)) }
{
    open_line(sink, b"event_id");
    write_id(sink, id_at(timeline, event));
    write_rest(sink, kind, state_key);
}

/// Gives the sink the type and the state key of an entry, and the end of an object.
pub(crate) fn write_rest<S: TextSink>(sink: &mut S, kind: &str, state_key: &str)
    ensures { (taken : List ℕ) → S.has_taken sink.old taken
        → S.has_taken sink.new (rest_written taken (kind.now, state_key.now)) }
{
    write_key(sink, true, b"state_key");
    write_string(sink, state_key.as_bytes());
    write_key(sink, true, b"type");
    write_string(sink, kind.as_bytes());
    sink.put(b"}");
}

/// The id of the event with this number, where there is one.
pub(crate) fn id_at(timeline: &Timeline, number: Option<EventNo>) -> Option<&EventId>
    ensures { option_map (λ id. id.now) result ≡ definition.id_of timeline.now.kept number }
{
    let number = number?;
    if number.index() < timeline.len() {
        Some(&timeline.row(number).id)
    } else {
        None
    }
}
