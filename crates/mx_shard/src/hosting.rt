// Rooms that are hosted.
ghost use Rattle.std.specs.Prelude.{◌≡◌, ◌<◌, ◌++◌, ◌∷◌, [], Some, None, IfOk, OnOk, OnErr, IsTrue, length, find, bytes_eq, vec_len, vec_capacity, option_copied};
ghost use Rattle.mx_pdu.specs.Event.{room_of};
ghost use Rattle.mx_shard.specs.LoneRoom.{to_host, answer};
ghost use Rattle.mx_shard.specs.Told.{tells_hosted};
ghost use Rattle.mx_shard.specs.Holders.{IsHolderKept, IsHolderMoved, holder_of, holder_with, holder_without};
ghost use Rattle.mx_shard.specs.Inside.{IsNumbered, IsMoved, IsSameMap, rows_in};
ghost use Rattle.mx_shard.specs.Changes.{IsHosting};

use crate::answers::Answer;
use crate::holders::{Holder, add_holder, remove_holder};
use crate::journal_places::JournalPlace;
use crate::storing::row_for;
use mx_ident::{EventId, RoomId};
use mx_keeper::{Caller, ShardRow};
use mx_pdu::Offered;
use mx_room::{HostError, Room};
use std::alloc::{AllocError, Global};
use std::collections::BTreeMap;

/// A room that is to be hosted, with the id of its create event, and the row that is stored of that event.
#[derive(Drop)]
pub(crate) struct NewRoom {
    pub room: Room,
    pub id: EventId,
    pub row: ShardRow,
}

/// What comes of a call that hosts: an answer, and nothing is added; or a room that is to be added.
#[derive(Drop)]
pub(crate) enum Hosting {
    Answered(Answer),
    Made(NewRoom),
}

pub(crate) fn hosting_in(
    alloc: Global,
    rooms: &[Room],
    numbers: &BTreeMap<RoomId, usize>,
    caller: Caller,
    offered: &Offered,
) -> Result<Hosting, AllocError>
    requires { IsNumbered numbers.now rooms.now }
    ensures hosting { IfOk result (λ hosting. IsHosting rooms.now caller offered.now hosting) }
    ensures memory { OnErr result (IsTrue (tells_hosted (answer (rows_in rooms.now (room_of offered.now.pdu)) (to_host offered.now)))) }
{
    if let Some(room) = room_with(rooms, numbers, offered.pdu.room_id()) {
        let id = room.create_id().clone()?;
        return Ok(Hosting::Answered(Answer::AlreadyHosted(id)));
    }
    match Room::host(alloc, offered) {
        Ok(room) => {
            let id = offered.id.clone()?;
            let event = offered.pdu.clone()?;
            let row = row_for(offered, room.version(), event, caller)?;
            Ok(Hosting::Made(NewRoom { room, id, row }))
        }
        Err(HostError::NotARoom(error)) => Ok(Hosting::Answered(Answer::NotHost(error))),
        Err(HostError::Memory) => Err(AllocError),
    }
}

/// The room with this id.
pub(crate) fn room_with<'a>(
    rooms: &'a [Room],
    numbers: &BTreeMap<RoomId, usize>,
    id: &RoomId,
) -> Option<&'a Room>
    requires { IsNumbered numbers.now rooms.now }
    ensures { option_copied result ≡ find (λ room. bytes_eq room.id id.now) rooms.now }
{
    match numbers.get(id) {
        Some(number) => rooms.get(*number),
        None => None,
    }
}

/// The room with this id, taken out of the rooms.
pub(crate) fn taken_room(
    rooms: Vec<Room>,
    numbers: &BTreeMap<RoomId, usize>,
    id: &RoomId,
) -> Option<Room>
    requires { IsNumbered numbers.now rooms.items }
    ensures { result ≡ find (λ room. bytes_eq room.id id.now) rooms.items }
{
    let mut rooms = rooms;
    match numbers.get(id) {
        Some(number) => Some(rooms.swap_remove(*number)),
        None => None,
    }
}

/// Makes space for a room that is made, and for its entry, and gives the room back. What can fail is done here.
pub(crate) fn reserve_room(
    rooms: &mut Vec<Room>,
    numbers: &mut BTreeMap<RoomId, usize>,
    holders: &mut BTreeMap<EventId, Holder>,
    journal: &mut Vec<JournalPlace>,
    new: NewRoom,
) -> Result<NewRoom, AllocError>
    ensures new { IfOk result (λ reserved. reserved ≡ new) }
    ensures rooms { rooms.new.items ≡ rooms.old.items }
    ensures journal { journal.new.items ≡ journal.old.items }
    ensures spare { OnOk result ((vec_len rooms.new < vec_capacity rooms.new) × (vec_len journal.new < vec_capacity journal.new)) }
    ensures moved { OnOk result (IsMoved numbers.old numbers.new new.room.id (Some (length rooms.old.items))) }
    ensures err { OnErr result (IsSameMap numbers.old numbers.new) }
    ensures held { OnOk result (IsHolderMoved holders.old holders.new new.id (Some (holder_with (holder_of holders.old new.id) (length rooms.old.items)))) }
    ensures kept { OnErr result (IsHolderKept holders.old holders.new) }
{
    let key = new.room.id().clone()?;
    rooms.reserve(1)?;
    journal.reserve(1)?;
    let number = rooms.as_slice().len();
    add_holder(holders, &new.id, number)?;
    match numbers.insert(key, number) {
        Ok(_) => Ok(new),
        Err(_) => {
            remove_holder(holders, &new.id);
            Err(AllocError)
        }
    }
}

/// Gives up a room for which there is space. It takes no memory.
pub(crate) fn remove_room(
    numbers: &mut BTreeMap<RoomId, usize>,
    holders: &mut BTreeMap<EventId, Holder>,
    new: NewRoom,
)
    ensures moved { IsMoved numbers.old numbers.new new.room.id None }
    ensures holders { IsHolderMoved holders.old holders.new new.id (holder_without (holder_of holders.old new.id)) }
{
    numbers.remove(new.room.id());
    remove_holder(holders, &new.id);
}

/// Adds a room for which there is space, and its entry, and gives the answer. It takes no memory.
pub(crate) fn add_room(
    rooms: &mut Vec<Room>,
    journal: &mut Vec<JournalPlace>,
    caller: Caller,
    new: NewRoom,
) -> Answer
    requires rooms { vec_len rooms.old < vec_capacity rooms.old }
    requires journal { vec_len journal.old < vec_capacity journal.old }
    ensures reply { result ≡ Answer.Hosted new.id }
    ensures rooms { rooms.new.items ≡ rooms.old.items ++ new.room ∷ [] }
    ensures journal { journal.new.items ≡ journal.old.items ++ record { room = length rooms.old.items; row = 0; caller = caller } ∷ [] }
{
    let number = rooms.as_slice().len();
    rooms.push_reserved(new.room);
    journal.push_reserved(JournalPlace {
        room: number,
        row: 0,
        caller,
    });
    Answer::Hosted(new.id)
}
