// Create events, by which rooms are hosted.
ghost use Rattle.std.specs.Prelude.{◌≡◌, ◌&&◌, [], codes};
ghost use Rattle.serde_json.specs.Data.{object};
ghost use Rattle.serde_json.specs.View.{members_view};
ghost use Rattle.mx_redact.specs.Fields.{is_text};
ghost use Rattle.mx_pdu.specs.Event.{auth_ids, has_kind, prev_ids, state_key_of};
ghost use Rattle.mx_export.specs.RoomEvents.{is_create as is_create_event};

use mx_ident::EventId;
use mx_redact::{field, is_text, text_field};
use serde_json::{Map, Value};
use std::alloc::{AllocError, Global};

/// Whether an event that cites these may host a room: a create event, which cites none.
pub(crate) fn is_create(
    event: &Map<String, Value>,
    prev_events: &[EventId],
    auth_events: &[EventId],
) -> bool
    requires prev { prev_events.now ≡ prev_ids (object (members_view event.now.entries)) }
    requires auth { auth_events.now ≡ auth_ids (object (members_view event.now.entries)) }
    ensures { result ≡ is_create_event (object (members_view event.now.entries)) }
{
    prev_events.is_empty() && auth_events.is_empty() && is_create_entry(event)
}

// Whether an event is at the place of create events in a state.
fn is_create_entry(event: &Map<String, Value>) -> bool
    ensures { result ≡ (has_kind (codes "m.room.create") (object (members_view event.now.entries))
        && is_text [] (state_key_of (object (members_view event.now.entries)))) }
{
    text_field(event, "type").unwrap_or("") == "m.room.create"
        && text_field(event, "state_key") == Some("")
}

/// The `room_version` of a create event, where it is a text.
pub(crate) fn version_in(
    alloc: Global,
    is_create: bool,
    event: &Map<String, Value>,
) -> Result<Option<String>, AllocError> {
    if !is_create {
        return Ok(None);
    }
    let content = field(event, "content");
    let version = content.and_then(|content| content.get("room_version"));
    match version.and_then(|version| version.as_str()) {
        Some(text) => Ok(Some(String::from_str(alloc, text)?)),
        None => Ok(None),
    }
}
