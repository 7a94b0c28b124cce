// Shards that are opened with rows.
ghost use Rattle.std.specs.Prelude.{◌≡◌, ◌++◌, ◌∷◌, [], None, Some, All, IfOk, OnOk, Err, IsTrue};
ghost use Rattle.mx_keeper.specs.Places.{is_at};
ghost use Rattle.mx_pdu.specs.Event.{room_of};
ghost use Rattle.mx_redact.specs.Hashes.{event_id};
ghost use Rattle.mx_shard.specs.Journal.{entry_of_row, reopened, stored, CanReopen};
ghost use Rattle.mx_shard.specs.Inside.{journal_of, number_of, CanFollow, HasVersion, IsReopened};

use crate::holders::{Holder, add_holder};
use crate::journal_places::JournalPlace;
use mx_ident::{EventId, RoomId};
use mx_keeper::{CallError, Place, ShardRow};
use mx_receipt::OfferError;
use mx_room::{HostError, Room};
use std::alloc::Global;
use std::collections::BTreeMap;

/// The rooms that rows make, and what a shard finds them by.
#[derive(Drop)]
pub(crate) struct Hosted {
    pub rooms: Vec<Room>,
    pub numbers: BTreeMap<RoomId, usize>,
    pub holders: BTreeMap<EventId, Holder>,
    pub journal: Vec<JournalPlace>,
}

/// The rooms that the rows make.
///
/// `Memory` where no memory is left. `Storage` where no shard at this place has such rows.
pub(crate) fn reopened_in(
    alloc: Global,
    place: &Place,
    rows: Vec<ShardRow>,
) -> Result<Hosted, CallError>
    ensures journal { IfOk result (λ made. journal_of made.rooms.items made.journal.items ≡ reopened rows.items) }
    ensures made { IfOk result (λ made. IsReopened made.rooms.items made.numbers made.holders made.journal.items) }
    ensures here { OnOk result (All (λ row. IsTrue (is_at place.now row.room)) rows.items) }
    ensures versions { OnOk result (stored (reopened rows.items) ≡ rows.items) }
    ensures storage { result ≡ Err CallError.Storage → ¬ (CanReopen place.now rows.items) }
{
    let mut rooms = Vec::new(alloc);
    let mut numbers = BTreeMap::new(alloc);
    let mut holders = BTreeMap::new(alloc);
    let mut journal = Vec::new(alloc);
    for row in rows {
        if !place.has(row.room.as_str()) {
            return Err(CallError::Storage);
        }
        reopen_row(
            alloc,
            &mut rooms,
            &mut numbers,
            &mut holders,
            &mut journal,
            row,
        )?;
    }
    Ok(Hosted {
        rooms,
        numbers,
        holders,
        journal,
    })
}

// Adds the event of a row. After an error the rooms are not used.
fn reopen_row(
    alloc: Global,
    rooms: &mut Vec<Room>,
    numbers: &mut BTreeMap<RoomId, usize>,
    holders: &mut BTreeMap<EventId, Holder>,
    journal: &mut Vec<JournalPlace>,
    row: ShardRow,
) -> Result<(), CallError>
    requires { IsReopened rooms.old.items numbers.old holders.old journal.old.items }
    ensures journal { OnOk result (journal_of rooms.new.items journal.new.items ≡ journal_of rooms.old.items journal.old.items ++ entry_of_row row ∷ []) }
    ensures made { OnOk result (IsReopened rooms.new.items numbers.new holders.new journal.new.items) }
    ensures version { OnOk result (HasVersion (journal_of rooms.old.items journal.old.items) row) }
    ensures storage { result ≡ Err CallError.Storage → ¬ (CanFollow (journal_of rooms.old.items journal.old.items) row) }
{
    if row.event.room_id() != &row.room {
        return Err(CallError::Storage);
    }
    let id = row.event.event_id(alloc)?;
    match numbers.get(&row.room).copied() {
        Some(number) => reopen_event(rooms, numbers, holders, journal, number, id, row),
        None => reopen_room(alloc, rooms, numbers, holders, journal, id, row),
    }
}

// Adds the room that the event of a row makes.
fn reopen_room(
    alloc: Global,
    rooms: &mut Vec<Room>,
    numbers: &mut BTreeMap<RoomId, usize>,
    holders: &mut BTreeMap<EventId, Holder>,
    journal: &mut Vec<JournalPlace>,
    id: EventId,
    row: ShardRow,
) -> Result<(), CallError>
    requires was { IsReopened rooms.old.items numbers.old holders.old journal.old.items }
    requires own { room_of row.event ≡ row.room }
    requires id { id ≡ event_id row.event }
    requires missing { number_of numbers.old row.room ≡ None }
    ensures journal { OnOk result (journal_of rooms.new.items journal.new.items ≡ journal_of rooms.old.items journal.old.items ++ entry_of_row row ∷ []) }
    ensures made { OnOk result (IsReopened rooms.new.items numbers.new holders.new journal.new.items) }
    ensures version { OnOk result (HasVersion (journal_of rooms.old.items journal.old.items) row) }
    ensures storage { result ≡ Err CallError.Storage → ¬ (CanFollow (journal_of rooms.old.items journal.old.items) row) }
{
    let number = rooms.as_slice().len();
    add_holder(holders, &id, number)?;
    match Room::reopen(alloc, row.event, id) {
        Ok(room) => {
            if room.version() != row.version {
                return Err(CallError::Storage);
            }
            numbers.insert(row.room, number)?;
            rooms.push(room)?;
            journal.push(JournalPlace {
                room: number,
                row: 0,
                caller: row.caller,
            })?;
            Ok(())
        }
        Err(HostError::Memory) => Err(CallError::Memory),
        Err(HostError::NotARoom(_)) => Err(CallError::Storage),
    }
}

// Adds the event of a row to its room, which has this number.
fn reopen_event(
    rooms: &mut Vec<Room>,
    numbers: &BTreeMap<RoomId, usize>,
    holders: &mut BTreeMap<EventId, Holder>,
    journal: &mut Vec<JournalPlace>,
    number: usize,
    id: EventId,
    row: ShardRow,
) -> Result<(), CallError>
    requires was { IsReopened rooms.old.items numbers.now holders.old journal.old.items }
    requires own { room_of row.event ≡ row.room }
    requires id { id ≡ event_id row.event }
    requires found { number_of numbers.now row.room ≡ Some number }
    ensures journal { OnOk result (journal_of rooms.new.items journal.new.items ≡ journal_of rooms.old.items journal.old.items ++ entry_of_row row ∷ []) }
    ensures made { OnOk result (IsReopened rooms.new.items numbers.now holders.new journal.new.items) }
    ensures version { OnOk result (HasVersion (journal_of rooms.old.items journal.old.items) row) }
    ensures storage { result ≡ Err CallError.Storage → ¬ (CanFollow (journal_of rooms.old.items journal.old.items) row) }
{
    add_holder(holders, &id, number)?;
    let room = &mut rooms[number];
    if room.version() != row.version {
        return Err(CallError::Storage);
    }
    journal.push(JournalPlace {
        room: number,
        row: room.len(),
        caller: row.caller,
    })?;
    match room.reopen_event(row.event, id) {
        Ok(_) => Ok(()),
        Err(OfferError::Memory) => Err(CallError::Memory),
        Err(OfferError::NotReceived(_)) => Err(CallError::Storage),
    }
}
