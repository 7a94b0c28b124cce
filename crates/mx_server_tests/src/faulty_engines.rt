// An engine over two shards, each of which meets a fault at its second message, and what it leaves.
ghost use Rattle.std.specs.Prelude.{◌≡◌, IfOk, IsTrue, length};
ghost use Rattle.mx_engine.specs.Seats.{IsSeatOf, seat_number, seats_made};
ghost use Rattle.mx_world.specs.Worlds.{none_open};

use crate::faulty_servers::{ENDLESS, host_and_send};
use crate::room_events::{TestRoom, key_of, message};
use crate::scarce_keepers::ScarceKeeper;
use crate::values::{event_id, refused, server};
use crate::words::{word_of_answer, word_of_refusal};
use mx_engine::{Engine, OpenGate, Seat, TransactionReply};
use mx_keeper::{BookRow, CallError, FaultKeeper, Keeper, MemoryKeeper, ShardRow};
use mx_pdu::{Pdu, PresenceVerifier};
use mx_room::{Moment, Query};
use mx_world::World;
use std::alloc::{AllocError, Global};
use std::sync::Wait;
use std::thread::Threads;

pub type Rooms = FaultKeeper<ScarceKeeper>;

pub type Replies = MemoryKeeper<BookRow>;

pub type FaultySeat = Seat<Rooms, Replies>;

pub type FaultyEngine = Engine<Rooms, Replies, PresenceVerifier, OpenGate>;

// Calls of a keeper up to its shard's first message: one reads its rows, six keep its room, and one the message.
const CALLS: u64 = 8;

// Of these are rows.
const ROWS: u64 = 7;

// The keepers of two shards: of the first one the store fails at the second message, and for that of the other one no memory
// is left.
fn keepers(alloc: Global) -> Result<Vec<Rooms>, AllocError>
    ensures { IfOk result (λ keepers. length keepers.items ≡ 2) }
{
    let mut keepers = Vec::with_capacity(alloc, 2)?;
    keepers.push(FaultKeeper::new(ScarceKeeper::new(alloc, ENDLESS), CALLS))?;
    keepers.push(FaultKeeper::new(ScarceKeeper::new(alloc, ROWS), ENDLESS))?;
    Ok(keepers)
}

fn books(alloc: Global) -> Result<Vec<Replies>, AllocError>
    ensures { IfOk result (λ keepers. length keepers.items ≡ 1) }
{
    let mut books = Vec::with_capacity(alloc, 1)?;
    books.push(MemoryKeeper::new(alloc))?;
    Ok(books)
}

// A server that hosts both rooms, each with its events and in a shard of its own.
fn with_both_rooms(alloc: Global) -> Result<World<Rooms, Replies>, AllocError>
    ensures { IfOk result (λ world. IsTrue (none_open world)) }
{
    let mut world = World::reopen(alloc, keepers(alloc)?, books(alloc)?).map_err(refused)?;
    host_and_send(alloc, &mut world, TestRoom::First).map_err(refused)?;
    host_and_send(alloc, &mut world, TestRoom::Second).map_err(refused)?;
    if world.none_open() {
        return Ok(world);
    }
    Err(AllocError)
}

// An engine over that server, and its one seat.
fn opened<R: Wait>(rt: &R, alloc: Global) -> Result<(FaultyEngine, FaultySeat), AllocError>
    ensures mine { IfOk result (λ made. IsSeatOf made.0 made.1) }
    ensures number { IfOk result (λ made. seat_number made.1 ≡ 1) }
    ensures count { IfOk result (λ made. seats_made made.0 ≡ 1) }
{
    let world = with_both_rooms(alloc)?;
    let (engine, mut seats) = Engine::open(rt, alloc, world, PresenceVerifier, OpenGate, 1)?;
    let seat = seats.remove(0);
    Ok((engine, seat))
}

// Three messages of each of the two rooms, in turn.
fn messages(alloc: Global, first: TestRoom, second: TestRoom) -> Result<Vec<Pdu>, AllocError> {
    let mut all = Vec::new(alloc);
    for body in ["first", "second", "third"] {
        all.push(message(alloc, first, body)?)?;
        all.push(message(alloc, second, body)?)?;
    }
    Ok(all)
}

// The reply to a transaction of these events through the seat.
fn send_through<R: Threads + Wait + Sync>(
    rt: &R,
    alloc: Global,
    engine: &FaultyEngine,
    seat: &mut FaultySeat,
    events: Vec<Pdu>,
) -> Result<TransactionReply, CallError>
    requires { IsSeatOf engine.now seat.old }
    ensures mine { IsSeatOf engine.now seat.new }
    ensures number { seat_number seat.new ≡ seat_number seat.old }
{
    let key = key_of(alloc, "1")?;
    engine.transaction(rt, alloc, seat, &key, events)
}

// What a.example is answered through the seat that asks for an event, or why it is refused.
fn asked_through<R: Threads + Wait + Sync>(
    rt: &R,
    alloc: Global,
    engine: &FaultyEngine,
    seat: &mut FaultySeat,
    id: &str,
) -> Result<&'static str, AllocError>
    requires { IsSeatOf engine.now seat.old }
    ensures { IsSeatOf engine.now seat.new }
{
    let origin = server(alloc, "a.example")?;
    let now = Moment::at(1).ok_or(AllocError)?;
    let query = Query::Event(event_id(alloc, id)?);
    match engine.ask(rt, seat, &origin, now, &query) {
        Ok(answer) => Ok(word_of_answer(&answer)),
        Err(refusal) => Ok(word_of_refusal(refusal)),
    }
}

// The server on one thread that is left once the one seat is given back.
fn closed<R: Wait>(
    rt: &R,
    alloc: Global,
    engine: FaultyEngine,
    seat: FaultySeat,
) -> Result<World<Rooms, Replies>, AllocError>
    requires mine { IsSeatOf engine seat }
    requires number { seat_number seat ≡ 1 }
    requires count { seats_made engine ≡ 1 }
{
    let mut seats = Vec::new(alloc);
    seats.push(seat)?;
    Ok(engine.close(rt, alloc, seats))
}

// Whether the rows are a room's beginning and its first message.
fn end_with_the_first_message(rows: &[ShardRow]) -> bool {
    if rows.len() != 7 {
        return false;
    }
    rows[6].event.text().contains("\"body\":\"first\"")
}

// Whether each of two shards has its room's beginning and first message, and no more.
fn have_first_messages(world: World<Rooms, Replies>) -> Result<bool, AllocError> {
    let (shards, _books) = world.into_parts();
    let are_two = shards.len() == 2;
    for shard in shards {
        let mut keeper = shard.into_keeper();
        let rows = keeper.rows().map_err(refused)?;
        if !end_with_the_first_message(&rows) {
            return Ok(false);
        }
    }
    Ok(are_two)
}

// Sends three messages of each of the two rooms, in turn, in one transaction: the second ones meet faults. Why it is
// refused, where each shard has its room's first message then, and no more.
pub fn told_of_faults<R: Threads + Wait + Sync>(
    rt: &R,
    alloc: Global,
    first: TestRoom,
    second: TestRoom,
) -> Result<&'static str, AllocError> {
    let (engine, mut seat) = opened(rt, alloc)?;
    let messages = messages(alloc, first, second)?;
    let sent = send_through(rt, alloc, &engine, &mut seat, messages);
    let word = match sent {
        Ok(_) => "no fault",
        Err(refusal) => word_of_refusal(refusal),
    };
    let world = closed(rt, alloc, engine, seat)?;
    if have_first_messages(world)? {
        return Ok(word);
    }
    Ok("other rows")
}

// What is answered where the first shard is refused for storage: of an event of the room of the other shard, and of one of
// its own room.
pub fn told_behind_a_fault<R: Threads + Wait + Sync>(
    rt: &R,
    alloc: Global,
) -> Result<(&'static str, &'static str), AllocError> {
    let (engine, mut seat) = opened(rt, alloc)?;
    let messages = messages(alloc, TestRoom::First, TestRoom::Second)?;
    let _refused = send_through(rt, alloc, &engine, &mut seat, messages);
    let other = asked_through(rt, alloc, &engine, &mut seat, TestRoom::Second.last_id())?;
    let own = asked_through(rt, alloc, &engine, &mut seat, TestRoom::First.last_id())?;
    Ok((other, own))
}
