// An engine over rows in memory, from its opening to what it leaves.
ghost use Rattle.std.specs.Prelude.{◌≡◌, ◌≤◌, IfOk, length};
ghost use Rattle.mx_engine.specs.Seats.{IsSeatOf, seat_number};
ghost use Rattle.mx_server_tests.specs.Callers.{AreTheSeats};

use crate::gates::MeetingGate;
use crate::room_events::key_of;
use crate::values::refused;
use mx_book::{Book, TransactionKey};
use mx_engine::{Engine, Seat, TransactionReply};
use mx_keeper::{BookRow, CallError, Keeper, MemoryKeeper, ShardRow, Storable};
use mx_pdu::{Pdu, PresenceVerifier};
use mx_shard::Shard;
use mx_world::World;
use std::alloc::{AllocError, Global};
use std::sync::Wait;
use std::thread::Threads;

pub type Rooms = MemoryKeeper<ShardRow>;

pub type Replies = MemoryKeeper<BookRow>;

pub type TestSeat = Seat<Rooms, Replies>;

pub type TestEngine = Engine<Rooms, Replies, PresenceVerifier, MeetingGate>;

fn keepers<R: Storable>(alloc: Global) -> Result<Vec<MemoryKeeper<R>>, AllocError>
    ensures { IfOk result (λ keepers. length keepers.items ≡ 2) }
{
    let mut keepers = Vec::with_capacity(alloc, 2)?;
    keepers.push(MemoryKeeper::new(alloc))?;
    keepers.push(MemoryKeeper::new(alloc))?;
    Ok(keepers)
}

// An engine of two shards that host no room, and its seats.
pub fn opened<R: Wait>(
    rt: &R,
    alloc: Global,
    gate: MeetingGate,
    seats: u32,
) -> Result<(TestEngine, Vec<TestSeat>), AllocError>
    requires some { 1 ≤ seats }
    requires few { seats ≤ 64 }
    ensures seated { IfOk result (λ made. AreTheSeats made.0 made.1.items) }
    ensures length { IfOk result (λ made. length made.1.items ≡ seats) }
{
    let world = World::new(alloc, keepers(alloc)?, keepers(alloc)?).map_err(refused)?;
    let made = Engine::open(rt, alloc, world, PresenceVerifier, gate, seats)?;
    Ok(made)
}

// An engine of two shards that host no room, and its seat.
pub fn with_one_seat<R: Wait>(
    rt: &R,
    alloc: Global,
    gate: MeetingGate,
) -> Result<(TestEngine, TestSeat), AllocError>
    ensures { IfOk result (λ made. IsSeatOf made.0 made.1) }
{
    let (engine, mut seats) = opened(rt, alloc, gate, 1)?;
    let seat = seats.remove(0);
    Ok((engine, seat))
}

// Such an engine, and its two seats.
pub fn with_two_seats<R: Wait>(
    rt: &R,
    alloc: Global,
    gate: MeetingGate,
) -> Result<(TestEngine, TestSeat, TestSeat), AllocError>
    ensures first { IfOk result (λ made. IsSeatOf made.0 made.1) }
    ensures second { IfOk result (λ made. IsSeatOf made.0 made.2) }
{
    let (engine, mut seats) = opened(rt, alloc, gate, 2)?;
    let first = seats.remove(0);
    let second = seats.remove(0);
    Ok((engine, first, second))
}

// The reply to a transaction of these events through a seat.
pub fn send<R: Threads + Wait + Sync>(
    rt: &R,
    alloc: Global,
    engine: &TestEngine,
    seat: &mut TestSeat,
    key: &TransactionKey,
    events: Vec<Pdu>,
) -> Result<TransactionReply, CallError>
    requires { IsSeatOf engine.now seat.old }
    ensures mine { IsSeatOf engine.now seat.new }
    ensures number { seat_number seat.new ≡ seat_number seat.old }
{
    engine.transaction(rt, alloc, seat, key, events)
}

// The reply to a transaction of a.example with this number through a seat.
pub fn reply_to<R: Threads + Wait + Sync>(
    rt: &R,
    alloc: Global,
    engine: &TestEngine,
    seat: &mut TestSeat,
    txn: &str,
    events: Vec<Pdu>,
) -> Result<TransactionReply, AllocError>
    requires { IsSeatOf engine.now seat.old }
    ensures { IsSeatOf engine.now seat.new }
{
    let key = key_of(alloc, txn)?;
    send(rt, alloc, engine, seat, &key, events).map_err(refused)
}

// The server on one thread that is left once all seats are given back.
pub fn closed<R: Wait>(
    rt: &R,
    alloc: Global,
    engine: TestEngine,
    seats: Vec<TestSeat>,
) -> World<Rooms, Replies>
    requires { AreTheSeats engine seats.items }
{
    engine.close(rt, alloc, seats)
}

// The rows of each shard and of each book of a server.
#[derive(Drop)]
pub struct KeptRows {
    pub rooms: Vec<Vec<ShardRow>>,
    pub replies: Vec<Vec<BookRow>>,
}

pub fn kept(alloc: Global, world: World<Rooms, Replies>) -> Result<KeptRows, AllocError> {
    let (shards, books) = world.into_parts();
    Ok(KeptRows {
        rooms: kept_by_shards(alloc, shards)?,
        replies: kept_by_books(alloc, books)?,
    })
}

fn kept_by_shards(
    alloc: Global,
    shards: Vec<Shard<Rooms>>,
) -> Result<Vec<Vec<ShardRow>>, AllocError> {
    let mut kept = Vec::new(alloc);
    for shard in shards {
        let mut keeper = shard.into_keeper();
        kept.push(keeper.rows().map_err(refused)?)?;
    }
    Ok(kept)
}

fn kept_by_books(
    alloc: Global,
    books: Vec<Book<Replies>>,
) -> Result<Vec<Vec<BookRow>>, AllocError> {
    let mut kept = Vec::new(alloc);
    for book in books {
        let mut keeper = book.into_keeper();
        kept.push(keeper.rows().map_err(refused)?)?;
    }
    Ok(kept)
}
