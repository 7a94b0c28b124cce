// The servers that are in a room.
ghost use Rattle.std.specs.Prelude.{◌<◌, All, IfOk, length};

use mx_auth::membership_of;
use mx_graph::EventNo;
use mx_pdu::Pdu;
use mx_receipt::timeline_is_sound;
use mx_room::Room;
use std::alloc::{AllocError, Global};
use std::collections::BTreeSet;

/// How many servers have a user who has joined the room, by its current state. `AllocError` where no memory is left.
///
/// The time is that of the room's current state. Source: the Matrix specification, Server-Server API, "Terminology".
pub fn joined_servers(alloc: Global, room: &Room) -> Result<usize, AllocError> {
    let timeline = room.timeline();
    let mut servers = BTreeSet::new(alloc);
    for number in state_events(alloc, room)? {
        if let Some(server) = joined_server(&timeline.row(number).event) {
            let _ = servers.insert(server)?;
        }
    }
    Ok(servers.len())
}

// The events of its current state.
fn state_events(alloc: Global, room: &Room) -> Result<Vec<EventNo>, AllocError>
    ensures { IfOk result (λ events. All (λ event. event < length room.now.kept) events.items) }
{
    let timeline = room.timeline();
    timeline_is_sound(timeline);
    let events = timeline.current().events(alloc)?;
    Ok(events)
}

// The server of the user who joins a room by this event, if it is a join.
fn joined_server(event: &Pdu) -> Option<&str> {
    if event.kind() == "m.room.member" && membership_of(event) == Some("join") {
        Some(event.sender().server())
    } else {
        None
    }
}
