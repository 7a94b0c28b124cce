// Pieces of the bodies of replies, given to a sink in canonical JSON.
ghost use Rattle.std.specs.Prelude.{◌≡◌, ℕ, ◌++◌, List};
ghost use Rattle.serde_json.specs.Data.{number, unsigned};
ghost use Rattle.mx_canon.specs.Canonical.{canonical_text};
ghost use Rattle.mx_canon.specs.Pieces.{comma_if};
ghost use Rattle.mx_requests.specs.ReplyBodies.{event_array, id_array};

use mx_canon::{TextSink, write_string, write_text};
use mx_ident::EventId;
use mx_pdu::Pdu;
use serde_json::{Number, Value};

// How many bytes an event id has, with its quotation marks and a comma behind it.
const ID_LENGTH: usize = 47;

/// How many bytes an array of events has. It is for the size of a buffer: nothing rests on it.
pub(crate) fn events_length(events: &[Pdu]) -> usize {
    let mut length: usize = 2;
    for event in events {
        length = length.saturating_add(event.text().len()).saturating_add(1);
    }
    length
}

/// How many bytes an array of so many ids has. It is for the size of a buffer: nothing rests on it.
pub(crate) fn ids_length(count: usize) -> usize {
    count.saturating_mul(ID_LENGTH).saturating_add(2)
}

// Gives the sink an array of events.
pub(crate) fn write_events<S: TextSink>(sink: &mut S, events: &[Pdu])
    ensures { (taken : List ℕ) → S.has_taken sink.old taken
        → S.has_taken sink.new (taken ++ canonical_text (event_array events.now)) }
{
    sink.put(b"[");
    let mut later = false;
    for event in events {
        put_comma(sink, later);
        write_event(sink, event);
        later = true;
    }
    sink.put(b"]");
}

/// Gives the sink an event, by its text.
pub(crate) fn write_event<S: TextSink>(sink: &mut S, event: &Pdu)
    ensures { (taken : List ℕ) → S.has_taken sink.old taken
        → S.has_taken sink.new (taken ++ canonical_text event.now) }
{
    sink.put(event.text().as_bytes());
}

// Gives the sink an array of ids.
pub(crate) fn write_ids<S: TextSink>(sink: &mut S, ids: &[EventId])
    ensures { (taken : List ℕ) → S.has_taken sink.old taken
        → S.has_taken sink.new (taken ++ canonical_text (id_array ids.now)) }
{
    sink.put(b"[");
    let mut later = false;
    for id in ids {
        put_comma(sink, later);
        write_string(sink, id.as_str().as_bytes());
        later = true;
    }
    sink.put(b"]");
}

/// Gives the sink a number, in canonical JSON.
pub fn write_number<S: TextSink>(sink: &mut S, value: u64)
    ensures { (taken : List ℕ) → S.has_taken sink.old taken
        → S.has_taken sink.new (taken ++ canonical_text (number (unsigned value))) }
{
    let number = Value::Number(Number::from(value));
    write_text(sink, &number);
}

fn put_comma<S: TextSink>(sink: &mut S, wanted: bool)
    ensures { (taken : List ℕ) → S.has_taken sink.old taken → S.has_taken sink.new (taken ++ comma_if wanted) }
{
    if wanted {
        sink.put(b",");
    }
}
