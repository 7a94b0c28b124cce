// Changes of a state as JSON.
ghost use Rattle.std.specs.Prelude.{◌≡◌, ◌++◌, ℕ, List, suc};
ghost use Rattle.mx_canon.specs.Canonical.{value_text};
ghost use Rattle.mx_page.specs.EntryTexts as definition;

use crate::state_changes::StateChange;
use mx_canon::{TextSink, write_string};
use mx_graph::EventNo;
use mx_lines::{put_comma, write_number};

/// Gives the sink an array of changes.
pub(crate) fn write_changes<S: TextSink>(sink: &mut S, changes: &[StateChange])
    ensures { (taken : List ℕ) → S.has_taken sink.old taken
        → S.has_taken sink.new (taken ++ definition.changes_text changes.now) }
{
    sink.put(b"[");
    let mut later = false;
    for change in changes {
        put_comma(sink, later);
        write_change(sink, change);
        later = true;
    }
    sink.put(b"]");
}

fn write_change<S: TextSink>(sink: &mut S, change: &StateChange)
    ensures { (taken : List ℕ) → S.has_taken sink.old taken
        → S.has_taken sink.new (taken ++ value_text (definition.change_data change.now)) }
{
    sink.put(b"[");
    write_string(sink, change.kind().as_bytes());
    sink.put(b",");
    write_string(sink, change.state_key().as_bytes());
    sink.put(b",");
    write_place(sink, change.event());
    sink.put(b"]");
}

// Gives the sink the place of an event, from 1, and null where there is none.
fn write_place<S: TextSink>(sink: &mut S, event: Option<EventNo>)
    ensures { (taken : List ℕ) → S.has_taken sink.old taken
        → S.has_taken sink.new (taken ++ value_text (definition.place_data event)) }
{
    match event {
        Some(number) => write_number(sink, place_of(number)),
        None => sink.put(b"null"),
    }
}

/// The place of an event in the order of arrival, from 1.
pub(crate) fn place_of(number: EventNo) -> u64
    ensures { result ≡ suc number }
{
    number.index() as u64 + 1
}
