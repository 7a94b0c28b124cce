// Servers on one thread whose keepers fail, what is sent to them, and what they have once they are opened again.
ghost use Rattle.std.specs.Prelude.{◌≡◌, IfOk, length};

use crate::room_events::{TestRoom, create_of, others_of};
use crate::values::{event_id, key, server as server_named};
use mx_keeper::{BookRow, CallError, FaultKeeper, Keeper, MemoryKeeper, ShardRow};
use mx_pdu::{Offered, Pdu, PresenceVerifier};
use mx_room::{Moment, Query};
use mx_world::{Step, StepReply, World};
use std::alloc::{AllocError, Global};

pub type FaultyServer = World<
    FaultKeeper<MemoryKeeper<ShardRow>>,
    FaultKeeper<MemoryKeeper<BookRow>>,
>;

// So many calls of a keeper as no test makes.
pub const ENDLESS: u64 = 1_000_000;

// The one keeper of a server's shards or books, which passes so many calls on before it fails.
fn one_of<K: Keeper>(
    alloc: Global,
    keeper: K,
    calls: u64,
) -> Result<Vec<FaultKeeper<K>>, AllocError>
    ensures { IfOk result (λ keepers. length keepers.items ≡ 1) }
{
    let mut keepers = Vec::with_capacity(alloc, 1)?;
    keepers.push(FaultKeeper::new(keeper, calls))?;
    Ok(keepers)
}

// The calls under test, with no clauses of their own: a test then carries no more than what they answer.
fn reopened<K: Keeper<Row = ShardRow>, L: Keeper<Row = BookRow>>(
    alloc: Global,
    shards: Vec<K>,
    books: Vec<L>,
) -> Result<World<K, L>, CallError>
    requires shards { length shards.items ≡ 1 }
    requires books { length books.items ≡ 1 }
{
    let world = World::reopen(alloc, shards, books)?;
    Ok(world)
}

fn step<K: Keeper<Row = ShardRow>, L: Keeper<Row = BookRow>>(
    alloc: Global,
    world: &mut World<K, L>,
    wanted: &Step,
) -> Result<StepReply, CallError> {
    world.step(alloc, wanted)
}

// A server of one shard and one book over these keepers, which pass so many calls on before they fail.
fn server_over(
    alloc: Global,
    rows: MemoryKeeper<ShardRow>,
    replies: MemoryKeeper<BookRow>,
    calls: [u64; 2],
) -> Result<FaultyServer, CallError> {
    let [of_rows, of_replies] = calls;
    let shards = one_of(alloc, rows, of_rows)?;
    let books = one_of(alloc, replies, of_replies)?;
    reopened(alloc, shards, books)
}

// The keepers of a server's last shard and last book.
fn last_keepers<K: Keeper<Row = ShardRow>, L: Keeper<Row = BookRow>>(
    world: World<K, L>,
) -> Option<(K, L)> {
    let (mut shards, mut books) = world.into_parts();
    let shard = shards.pop()?;
    let book = books.pop()?;
    Some((shard.into_keeper(), book.into_keeper()))
}

// The server that is opened again over the rows and the replies that another one kept. Its keepers do not fail.
pub fn opened_again(alloc: Global, server: FaultyServer) -> Result<FaultyServer, CallError> {
    let (rows, replies) = last_keepers(server).ok_or(CallError::Storage)?;
    let rows = rows.into_keeper();
    let replies = replies.into_keeper();
    server_over(alloc, rows, replies, [ENDLESS, ENDLESS])
}

fn host<K: Keeper<Row = ShardRow>, L: Keeper<Row = BookRow>>(
    alloc: Global,
    world: &mut World<K, L>,
    room: TestRoom,
) -> Result<(), CallError> {
    let create = create_of(alloc, room)?;
    let offered = Offered::of(alloc, create, &PresenceVerifier)?;
    step(alloc, world, &Step::Host(offered))?;
    Ok(())
}

// Hosts the room and sends its other events, through the server a.example.
pub fn host_and_send<K: Keeper<Row = ShardRow>, L: Keeper<Row = BookRow>>(
    alloc: Global,
    world: &mut World<K, L>,
    room: TestRoom,
) -> Result<(), CallError> {
    host(alloc, world, room)?;
    let others = others_of(alloc, room)?;
    send(alloc, world, "a.example", room.id(), others)?;
    Ok(())
}

// A server that hosts the first room with all of its events. Its keepers pass so many calls on before they fail.
pub fn with_first_room(alloc: Global, calls: [u64; 2]) -> Result<FaultyServer, CallError> {
    let rows = MemoryKeeper::new(alloc);
    let replies = MemoryKeeper::new(alloc);
    let mut server = server_over(alloc, rows, replies, calls)?;
    host_and_send(alloc, &mut server, TestRoom::First)?;
    Ok(server)
}

fn offers(alloc: Global, events: Vec<Pdu>) -> Result<Vec<Offered>, AllocError> {
    let mut offers = Vec::new(alloc);
    for event in events {
        offers.push(Offered::of(alloc, event, &PresenceVerifier)?)?;
    }
    Ok(offers)
}

// The reply to a transaction of a server, by its steps. Where one of them is refused it is given up.
pub fn send<K: Keeper<Row = ShardRow>, L: Keeper<Row = BookRow>>(
    alloc: Global,
    world: &mut World<K, L>,
    origin: &str,
    txn: &str,
    events: Vec<Pdu>,
) -> Result<StepReply, CallError> {
    let key = key(alloc, origin, txn)?;
    let reply = send_by_steps(alloc, world, origin, txn, events);
    if reply.is_err() {
        world.abandon(&key);
    }
    reply
}

fn send_by_steps<K: Keeper<Row = ShardRow>, L: Keeper<Row = BookRow>>(
    alloc: Global,
    world: &mut World<K, L>,
    origin: &str,
    txn: &str,
    events: Vec<Pdu>,
) -> Result<StepReply, CallError> {
    let turns = events.len();
    let offers = offers(alloc, events)?;
    let open = Step::Open(key(alloc, origin, txn)?, offers);
    let opened = step(alloc, world, &open)?;
    if !matches!(opened, StepReply::Opened(_)) {
        return Ok(opened);
    }
    let next = Step::Next(key(alloc, origin, txn)?);
    for _ in 0..turns {
        step(alloc, world, &next)?;
    }
    let close = Step::Close(key(alloc, origin, txn)?);
    step(alloc, world, &close)
}

// What a.example is answered that asks for an event.
pub fn ask(alloc: Global, server: &mut FaultyServer, id: &str) -> Result<StepReply, CallError> {
    let origin = server_named(alloc, "a.example")?;
    let now = Moment::at(1).ok_or(AllocError)?;
    let query = Query::Event(event_id(alloc, id)?);
    step(alloc, server, &Step::Ask { origin, now, query })
}
