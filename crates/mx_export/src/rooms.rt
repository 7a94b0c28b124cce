// Which rooms events are of.
use crate::exported_events::ExportedEvent;
use mx_ident::RoomId;
use std::alloc::{AllocError, Global};
use std::collections::BTreeMap;

/// What is known of a room from its events as they were found.
#[derive(Debug, Drop)]
pub struct FoundRoom {
    /// How many events of it were found, each as often as it was.
    pub events: u64,
    /// Whether a create event is among them that cites no event.
    pub has_create: bool,
    /// The `room_version` of the first of these.
    pub version: Option<String>,
}

/// The rooms that these events are of.
///
/// The one error is that no memory is left.
pub fn rooms_of(
    alloc: Global,
    events: &[ExportedEvent],
) -> Result<BTreeMap<RoomId, FoundRoom>, AllocError> {
    let mut rooms = BTreeMap::new(alloc);
    for event in events {
        add_event(alloc, &mut rooms, event)?;
    }
    Ok(rooms)
}

fn add_event(
    alloc: Global,
    rooms: &mut BTreeMap<RoomId, FoundRoom>,
    event: &ExportedEvent,
) -> Result<(), AllocError> {
    if let Some(room) = rooms.get_mut(event.room_id()) {
        return note_event(alloc, room, event);
    }
    let mut room = FoundRoom {
        events: 0,
        has_create: false,
        version: None,
    };
    note_event(alloc, &mut room, event)?;
    let id = event.room_id().clone()?;
    rooms.insert(id, room)?;
    Ok(())
}

fn note_event(
    alloc: Global,
    room: &mut FoundRoom,
    event: &ExportedEvent,
) -> Result<(), AllocError> {
    room.events = room.events.saturating_add(1);
    if room.has_create || !event.is_create() {
        return Ok(());
    }
    room.has_create = true;
    if let Some(text) = event.version() {
        room.version = Some(String::from_str(alloc, text)?);
    }
    Ok(())
}
