// Whether rooms hold an event.
ghost use Rattle.std.specs.Prelude.{◌≡◌};
ghost use Rattle.mx_shard.specs.Holders.{IsHolding, some_has};

use crate::holders::Holder;
use mx_ident::EventId;
use mx_room::Room;
use std::collections::BTreeMap;

/// Whether one of these rooms has the event with this id. Only the room that may hold it is asked. It takes no memory.
pub(crate) fn is_held_among(
    rooms: &[Room],
    holders: &BTreeMap<EventId, Holder>,
    id: &EventId,
) -> bool
    requires { IsHolding holders.now rooms.now }
    ensures { result ≡ some_has rooms.now id.now }
{
    match holders.get(id).copied() {
        Some(Holder::Room(number)) => match rooms.get(number) {
            Some(room) => room.holds(id),
            None => false,
        },
        Some(Holder::Several) => is_held_by_some(rooms, id),
        None => false,
    }
}

// Whether one of these rooms has the event with this id, each being asked in turn.
fn is_held_by_some(rooms: &[Room], id: &EventId) -> bool
    ensures { result ≡ some_has rooms.now id.now }
{
    rooms.iter().any(|room| room.holds(id))
}
