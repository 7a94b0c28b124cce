// The parts of an event that are hashed and signed.
ghost use Rattle.std.specs.Prelude.{◌≡◌, ℕ, List, ◌++◌};
ghost use Rattle.serde_json.specs.Data.{object};
ghost use Rattle.serde_json.specs.View.{members_view};
ghost use Rattle.mx_canon.specs.Canonical.{canonical_error, canonical_text};
ghost use Rattle.mx_redact.specs.Hashes.{hashed_part, signed_part};

use crate::redacting::kept_content_in;
use crate::selections::{Selection, fault_in, write_selected};
use mx_canon::{NotCanonical, TextSink};
use serde_json::{Map, Value};

/// Why the part that is hashed has no canonical text.
pub(crate) fn fault_in_hashed(event: &Map<String, Value>) -> Option<NotCanonical>
    ensures { result ≡ canonical_error (hashed_part (object (members_view event.now.entries))) }
{
    fault_in(Selection::Hashed, event)
}

/// Gives the sink the canonical text of the part that is hashed.
pub(crate) fn write_hashed<S: TextSink>(sink: &mut S, event: &Map<String, Value>)
    ensures { (taken : List ℕ) → S.has_taken sink.old taken → S.has_taken sink.new
        (taken ++ canonical_text (hashed_part (object (members_view event.now.entries)))) }
{
    write_selected(sink, Selection::Hashed, event);
}

/// Why the part that is signed has no canonical text.
pub(crate) fn fault_in_signed(event: &Map<String, Value>) -> Option<NotCanonical>
    ensures { result ≡ canonical_error (signed_part (object (members_view event.now.entries))) }
{
    fault_in(Selection::Signed(kept_content_in(event)), event)
}

/// Gives the sink the canonical text of the part that is signed.
pub(crate) fn write_signed<S: TextSink>(sink: &mut S, event: &Map<String, Value>)
    ensures { (taken : List ℕ) → S.has_taken sink.old taken → S.has_taken sink.new
        (taken ++ canonical_text (signed_part (object (members_view event.now.entries)))) }
{
    write_selected(sink, Selection::Signed(kept_content_in(event)), event);
}
