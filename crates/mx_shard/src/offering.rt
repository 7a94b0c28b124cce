// Events that servers send.
ghost use Rattle.std.specs.Prelude.{◌≡◌, ◌<◌, ◌++◌, ◌∷◌, [], None, All, IfOk, OnOk, OnErr, IsTrue, is_some, length, option_map, slice_set, vec_len, vec_capacity};
ghost use Rattle.mx_pdu.specs.Event.{room_of};
ghost use Rattle.mx_room.specs.Queries.{room_version};
ghost use Rattle.mx_shard.specs.Inside.{IsNumbered, IsReady, room_at, rows_in, with_prepared, with_kept};
ghost use Rattle.mx_shard.specs.LoneRoom.{answer, sent_call};
ghost use Rattle.mx_shard.specs.Told.{tells_kept};
ghost use Rattle.mx_shard.specs.Changes.{IsOffering, row_for as row_of, sent_answer, sent_row};

use crate::answers::Answer;
use crate::journal_places::JournalPlace;
use crate::sendings::Sending;
use crate::storing::row_for;
use mx_ident::{RoomId, ServerName};
use mx_keeper::{Caller, ShardRow};
use mx_pdu::Offered;
use mx_room::Room;
use std::alloc::{AllocError, Global};
use std::collections::BTreeMap;

/// An event that the room with this number is prepared to keep, with the answer, and the row that is stored of it.
#[derive(Drop)]
pub(crate) struct NewRow {
    pub number: usize,
    pub answer: Answer,
    pub row: ShardRow,
}

/// What comes of an event that is sent: an answer, and nothing is added; or a room that is prepared to keep it.
#[derive(Drop)]
pub(crate) enum Offering {
    Answered(Answer),
    Prepared(NewRow),
}

pub(crate) fn offering_in(
    alloc: Global,
    rooms: &mut [Room],
    numbers: &BTreeMap<RoomId, usize>,
    caller: Caller,
    sending: Sending,
    origin: &ServerName,
    offered: &Offered,
) -> Result<Offering, AllocError>
    requires numbered { IsNumbered numbers.now rooms.old }
    requires ready { All IsReady rooms.old }
    ensures offering { IfOk result (λ offering. IsOffering rooms.old rooms.new numbers.now caller sending origin.now offered.now offering) }
    ensures memory { OnErr result (IsTrue (tells_kept (answer (rows_in rooms.old (room_of offered.now.pdu)) (sent_call sending origin.now offered.now)))) }
    ensures err { OnErr result (rooms.new ≡ rooms.old) }
{
    let Some(number) = numbers.get(offered.pdu.room_id()) else {
        return Ok(Offering::Answered(Answer::NotHosted));
    };
    let room = &mut rooms[*number];
    let (answer, row) = prepare_with_row(alloc, room, caller, sending, origin, offered)?;
    match row {
        Some(row) => Ok(Offering::Prepared(NewRow {
            number: *number,
            answer,
            row,
        })),
        None => Ok(Offering::Answered(answer)),
    }
}

// The answer, and the row that is stored of the event where the room is prepared to keep it.
fn prepare_with_row(
    alloc: Global,
    room: &mut Room,
    caller: Caller,
    sending: Sending,
    origin: &ServerName,
    offered: &Offered,
) -> Result<(Answer, Option<ShardRow>), AllocError>
    ensures answer { IfOk result (λ told. told.0 ≡ sent_answer sending room.old.kept origin.now offered.now) }
    ensures row { IfOk result (λ told. told.1 ≡ option_map (row_of (room_of offered.now.pdu) (room_version room.old.kept) caller) (sent_row sending room.old.kept origin.now offered.now)) }
    ensures prepared { OnOk result (room.new ≡ with_prepared room.old (sent_row sending room.old.kept origin.now offered.now)) }
    ensures memory { OnErr result (IsTrue (tells_kept (sent_answer sending room.old.kept origin.now offered.now))) }
    ensures err { OnErr result (room.new ≡ with_prepared room.old None) }
{
    let answer = send_to(alloc, room, sending, origin, offered)?;
    match row_in(room, caller, offered) {
        Ok(row) => Ok((answer, row)),
        Err(error) => {
            room.discard();
            Err(error)
        }
    }
}

// The answer of the room, which is then prepared to keep the event where it keeps it.
fn send_to(
    alloc: Global,
    room: &mut Room,
    sending: Sending,
    origin: &ServerName,
    offered: &Offered,
) -> Result<Answer, AllocError>
    ensures answer { IfOk result (λ answer. answer ≡ sent_answer sending room.old.kept origin.now offered.now) }
    ensures prepared { OnOk result (room.new ≡ with_prepared room.old (sent_row sending room.old.kept origin.now offered.now)) }
    ensures memory { OnErr result (IsTrue (tells_kept (sent_answer sending room.old.kept origin.now offered.now))) }
    ensures err { OnErr result (room.new ≡ with_prepared room.old None) }
{
    match sending {
        Sending::Offer => {
            let outcome = room.prepare(alloc, origin, offered)?;
            Ok(Answer::ToOffered(outcome))
        }
        Sending::Join => {
            let reply = room.prepare_join(alloc, origin, offered)?;
            Ok(Answer::ToJoined(reply))
        }
    }
}

// The row that is stored of the event that the room is prepared to keep. The row and the room share the event.
fn row_in(room: &Room, caller: Caller, offered: &Offered) -> Result<Option<ShardRow>, AllocError>
    ensures row { IfOk result (λ row. row ≡ option_map (row_of (room_of offered.now.pdu) (room_version room.now.kept) caller) room.now.prepared) }
    ensures memory { OnErr result (IsTrue (is_some room.now.prepared)) }
{
    match room.prepared_event() {
        Some(event) => {
            let row = row_for(offered, room.version(), event.clone()?, caller)?;
            Ok(Some(row))
        }
        None => Ok(None),
    }
}

/// Adds the event that its room is prepared to keep, and its entry, and gives the answer. It takes no memory.
pub(crate) fn install_in(
    rooms: &mut [Room],
    journal: &mut Vec<JournalPlace>,
    caller: Caller,
    new: NewRow,
) -> Answer
    requires within { new.number < length rooms.old }
    requires journal { vec_len journal.old < vec_capacity journal.old }
    ensures reply { result ≡ new.answer }
    ensures rooms { rooms.new ≡ slice_set rooms.old new.number (with_kept (room_at rooms.old new.number) (room_at rooms.old new.number).prepared) }
    ensures journal { journal.new.items ≡ journal.old.items ++ record { room = new.number; row = length (room_at rooms.old new.number).kept; caller = caller } ∷ [] }
{
    let number = new.number;
    let room = &mut rooms[number];
    let row = room.len();
    room.install();
    journal.push_reserved(JournalPlace {
        room: number,
        row,
        caller,
    });
    new.answer
}

/// Gives up the event that its room is prepared to keep. It takes no memory.
pub(crate) fn discard_in(rooms: &mut [Room], new: NewRow)
    requires { new.number < length rooms.old }
    ensures { rooms.new ≡ slice_set rooms.old new.number (with_prepared (room_at rooms.old new.number) None) }
{
    let number = new.number;
    let room = &mut rooms[number];
    room.discard();
}
