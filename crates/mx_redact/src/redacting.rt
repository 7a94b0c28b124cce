// Redaction.
ghost use Rattle.std.specs.Prelude.{◌≡◌, IfOk};
ghost use Rattle.serde_json.specs.Data.{object};
ghost use Rattle.serde_json.specs.View.{members_view};
ghost use Rattle.mx_redact.specs.Fields.{kind};
ghost use Rattle.mx_redact.specs.Redaction.{redact as redacted_form};
ghost use Rattle.mx_redact.specs.Selected.{kept_content_of};

use crate::fields::text_field;
use crate::kinds::{KeptContent, kept_content};
use crate::selections::{Selection, copy_of};
use serde_json::{Map, Value};
use std::alloc::{AllocError, Global};

/// The event without what redaction takes away. No key is added.
///
/// Source: the Matrix specification, Room Version 6, "Redactions".
pub fn redact(alloc: Global, event: &Map<String, Value>) -> Result<Map<String, Value>, AllocError>
    ensures { IfOk result (λ redacted. object (members_view redacted.entries)
        ≡ redacted_form (object (members_view event.now.entries))) }
{
    let redacted = copy_of(alloc, Selection::Redacted(kept_content_in(event)), event)?;
    Ok(redacted)
}

// What redaction keeps of the event's content.
pub(crate) fn kept_content_in(event: &Map<String, Value>) -> KeptContent
    ensures { result ≡ kept_content_of (kind (object (members_view event.now.entries))) }
{
    kept_content(kind_in(event))
}

// The event's type, else the empty text.
pub(crate) fn kind_in(event: &Map<String, Value>) -> &str
    ensures { result.now ≡ kind (object (members_view event.now.entries)) }
{
    text_field(event, "type").unwrap_or("")
}
