// Whether a value has the format of an event.
ghost use Rattle.std.specs.Prelude.{◌≡◌, IfOk, true};
ghost use Rattle.std.specs.Result.{result_err};
ghost use Rattle.serde_json.specs.Data.{object};
ghost use Rattle.serde_json.specs.View.{view, members_view};
ghost use Rattle.mx_canon.specs.Canonical.{is_canonical, canonical_text};
ghost use Rattle.mx_canon.specs.KeyOrder.{KeysRise};
ghost use Rattle.mx_pdu.specs.Format.{format_error};
ghost use Rattle.mx_pdu.specs.Refusals.{object_error};

use crate::event_fields::EventFields;
use crate::fields::has_every_field;
use crate::limits::keeps_limits;
use crate::refusals::NotAnEvent;
use mx_canon::text_length;
use serde_json::{Map, Value};

// The most bytes of an event's canonical text.
const LONGEST_TEXT: u64 = 65_536;

// The fields of an event, or the first refusal. It takes no memory.
#[tactic(auto, unfolding(crate::specs::Format::format_error))]
pub fn check_format(value: &Value) -> Result<EventFields<'_>, NotAnEvent>
    ensures answer { result_err result ≡ format_error (view value.now) }
    ensures fields { IfOk result (λ fields. object (members_view fields.members.now.entries) ≡ view value.now) }
    // Every value has its keys in order.
    ensures keys { KeysRise (view value.now) }
{
    let canonical = has_canonical_text(value);
    let Some(event) = value.as_object() else {
        return Err(NotAnEvent::NotAnObject);
    };
    if !canonical {
        return Err(NotAnEvent::NotCanonical);
    }
    check_object(event, text_length(value) > LONGEST_TEXT)
}

// The fields of an event that has canonical JSON, which is this text, or the first refusal.
#[tactic(auto, unfolding(crate::specs::Format::format_error))]
pub fn check_canonical_format<'a>(
    value: &'a Value,
    text: &[u8],
) -> Result<EventFields<'a>, NotAnEvent>
    requires canonical { is_canonical (view value.now) ≡ true }
    requires text { text.now ≡ canonical_text (view value.now) }
    ensures answer { result_err result ≡ format_error (view value.now) }
    ensures fields { IfOk result (λ fields. object (members_view fields.members.now.entries) ≡ view value.now) }
{
    match value.as_object() {
        Some(event) => check_object(event, text.len() as u64 > LONGEST_TEXT),
        None => Err(NotAnEvent::NotAnObject),
    }
}

// The fields of an object that has canonical JSON, or the first refusal.
fn check_object(
    event: &Map<String, Value>,
    is_too_long: bool,
) -> Result<EventFields<'_>, NotAnEvent>
    ensures answer { result_err result ≡ object_error is_too_long (object (members_view event.now.entries)) }
    ensures fields { IfOk result (λ fields. fields.members.now.entries ≡ event.now.entries) }
{
    if is_too_long {
        return Err(NotAnEvent::TextTooLong);
    }
    let fields = EventFields::of(event);
    if !has_every_field(&fields) {
        return Err(NotAnEvent::WrongField);
    }
    if !keeps_limits(&fields) {
        return Err(NotAnEvent::OverLimit);
    }
    Ok(fields)
}

// Whether a value has canonical JSON. It takes no memory.
pub fn has_canonical_text(value: &Value) -> bool
    ensures answer { result ≡ is_canonical (view value.now) }
    ensures keys { KeysRise (view value.now) }
{
    mx_canon::check(value).is_ok()
}
