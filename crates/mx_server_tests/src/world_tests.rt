ghost use Rattle.std.specs.Prelude.{◌≡◌, ◌≤◌, length, IfOk, IsTrue};
ghost use Rattle.mx_world.specs.Worlds.{none_open};

use crate::values::{event, event_id, key, refused, server};
use crate::words::word;
use mx_book::TransactionKey;
use mx_ident::RoomId;
use mx_keeper::{MemoryKeeper, Storable};
use mx_pdu::Offered;
use mx_world::{
    BookRow, CallError, EventIdList, Moment, Query, ShardRow, Step, StepReply, World, run,
};
use std::alloc::{AllocError, Global};

// Content hashes are by Python's json, hashlib and base64.
const CREATE: &str =
    "{\"auth_events\":[],\"content\":{\"creator\":\"@a:a.example\",\"room_version\":\"6\"},\"depth\":1,\"hashes\":{\"sha256\":\"7EqXFjg0TbdsCVVLsQz/QJbYgosrTahPKlTsIutVbDQ\"},\"origin_server_ts\":5,\"prev_events\":[],\"room_id\":\"!r:a.example\",\"sender\":\"@a:a.example\",\"signatures\":{\"a.example\":{\"ed25519:1\":\"s\"}},\"state_key\":\"\",\"type\":\"m.room.create\"}";

const JOIN: &str =
    "{\"auth_events\":[\"$c\"],\"content\":{\"membership\":\"join\"},\"depth\":2,\"hashes\":{\"sha256\":\"9CvJGI5afUSAk8phx3t+b1kdq1qYRSChDsNLuQbxzHY\"},\"origin_server_ts\":5,\"prev_events\":[\"$c\"],\"room_id\":\"!r:a.example\",\"sender\":\"@a:a.example\",\"signatures\":{\"a.example\":{\"ed25519:1\":\"s\"}},\"state_key\":\"@a:a.example\",\"type\":\"m.room.member\"}";

const PARENT: &str =
    "{\"auth_events\":[\"$c\",\"$jr\"],\"content\":{\"body\":\"p\"},\"depth\":3,\"hashes\":{\"sha256\":\"XoDgwHYZKMUFOsM3O5it11AMcuJRD8Ni0CDh/RbReCM\"},\"origin_server_ts\":5,\"prev_events\":[\"$jr\"],\"room_id\":\"!r:a.example\",\"sender\":\"@a:a.example\",\"signatures\":{\"a.example\":{\"ed25519:1\":\"s\"}},\"type\":\"m.room.message\"}";

// An event by its name in the tests.
fn event_named(name: &str) -> &'static str {
    match name {
        "create" => CREATE,
        "join" => JOIN,
        _ => PARENT,
    }
}

// An event by `ID=NAME`.
fn offered(alloc: Global, word: &str) -> Result<Offered, AllocError> {
    let (id, name) = word.split_once('=').unwrap_or(("", ""));
    Ok(Offered {
        pdu: event(alloc, event_named(name))?,
        id: event_id(alloc, id)?,
        signed: true,
    })
}

fn ask(alloc: Global, origin: &str, query: Query) -> Result<Step, AllocError> {
    let origin = server(alloc, origin)?;
    let now = Moment::at(1).ok_or(AllocError)?;
    Ok(Step::Ask { origin, now, query })
}

fn list_of(alloc: Global, id: &str) -> Result<EventIdList, AllocError> {
    let mut ids = Vec::new(alloc);
    ids.push(event_id(alloc, id)?)?;
    Ok(EventIdList::new(ids))
}

// A query for a state by an event, or for the event's auth chain.
fn state_query(alloc: Global, kind: &str, room: RoomId, id: &str) -> Result<Query, AllocError> {
    let event = event_id(alloc, id)?;
    match kind {
        "state" => Ok(Query::State { room, event }),
        "state_ids" => Ok(Query::StateIds { room, event }),
        _ => Ok(Query::EventAuth { room, event }),
    }
}

// A query for the events behind one.
fn backfill(alloc: Global, room: RoomId, id: &str) -> Result<Query, AllocError> {
    let from = list_of(alloc, id)?;
    Ok(Query::Backfill {
        room,
        from,
        limit: 10,
    })
}

// A query for the events between two.
fn missing(alloc: Global, room: RoomId, first: &str, last: &str) -> Result<Query, AllocError> {
    let earliest = list_of(alloc, first)?;
    let latest = list_of(alloc, last)?;
    Ok(Query::Missing {
        room,
        earliest,
        latest,
        limit: 10,
        min_depth: 0,
    })
}

// A query that names a room, by `ID`, or by `ID ID` for `missing`.
fn query_in(alloc: Global, kind: &str, room: &str, ids: &str) -> Result<Query, AllocError> {
    let room = RoomId::parse(alloc, room).map_err(refused)?;
    let (first, last) = ids.split_once(' ').unwrap_or((ids, ""));
    match kind {
        "backfill" => backfill(alloc, room, first),
        "missing" => missing(alloc, room, first, last),
        _ => state_query(alloc, kind, room, first),
    }
}

// A query of the server a.example for the event with this id.
fn ask_for_event(alloc: Global, id: &str) -> Result<Step, AllocError> {
    let query = Query::Event(event_id(alloc, id)?);
    ask(alloc, "a.example", query)
}

// A query by `ORIGIN ROOM ID`, or with one id more.
fn ask_in_room(alloc: Global, kind: &str, words: &str) -> Result<Step, AllocError> {
    let (origin, rest) = words.split_once(' ').unwrap_or(("", ""));
    let (room, ids) = rest.split_once(' ').unwrap_or(("", ""));
    let query = query_in(alloc, kind, room, ids)?;
    ask(alloc, origin, query)
}

// A transaction by `ORIGIN TXN`.
fn key_of(alloc: Global, words: &str) -> Result<TransactionKey, AllocError> {
    let (origin, txn) = words.split_once(' ').unwrap_or(("", ""));
    key(alloc, origin, txn)
}

// Events by `ID=NAME ..`.
fn all_offered(alloc: Global, words: &str) -> Result<Vec<Offered>, AllocError> {
    let mut events = Vec::new(alloc);
    for word in words.split(' ') {
        if !word.is_empty() {
            events.push(offered(alloc, word)?)?;
        }
    }
    Ok(events)
}

// A transaction and its events by `ORIGIN TXN ID=NAME ..`.
fn open(alloc: Global, words: &str) -> Result<Step, AllocError> {
    let (origin, rest) = words.split_once(' ').unwrap_or(("", ""));
    let (txn, names) = rest.split_once(' ').unwrap_or((rest, ""));
    let key = key(alloc, origin, txn)?;
    let events = all_offered(alloc, names)?;
    Ok(Step::Open(key, events))
}

// A step by its words: `host ID=NAME`, `open ORIGIN TXN ID=NAME ..`, `next ORIGIN TXN`, `close ORIGIN TXN`, `ask ID` of
// the server a.example, `KIND ORIGIN ROOM ID` for a query that names a room, and `missing ORIGIN ROOM ID ID`.
fn step_of(alloc: Global, written: &str) -> Result<Step, AllocError> {
    let (kind, words) = written.split_once(' ').unwrap_or(("", ""));
    match kind {
        "host" => Ok(Step::Host(offered(alloc, words)?)),
        "ask" => ask_for_event(alloc, words),
        "next" => Ok(Step::Next(key_of(alloc, words)?)),
        "close" => Ok(Step::Close(key_of(alloc, words)?)),
        "open" => open(alloc, words),
        _ => ask_in_room(alloc, kind, words),
    }
}

type Server = World<MemoryKeeper<ShardRow>, MemoryKeeper<BookRow>>;

fn keepers<R: Storable>(alloc: Global, count: usize) -> Result<Vec<MemoryKeeper<R>>, AllocError>
    ensures { IfOk result (λ keepers. length keepers.items ≡ count) }
{
    let mut keepers = Vec::new(alloc);
    for number in 0..count {
        keepers.push(MemoryKeeper::new(alloc))?;
    }
    Ok(keepers)
}

// A server with so many shards and as many books.
fn server_of(alloc: Global, count: usize) -> Result<Server, CallError>
    requires some { 1 ≤ count }
    requires few { count ≤ 64 }
    ensures { IfOk result (λ server. IsTrue (none_open server)) }
{
    let server = World::new(alloc, keepers(alloc, count)?, keepers(alloc, count)?)?;
    Ok(server)
}

// Queries by an event's id alone are put to all rooms, and each other one to the room that it names.
const STEPS: [&str; 17] = [
    "host $c=create",
    "ask $jr",
    "open a.example t1 $jr=join $p=parent",
    "next a.example t1",
    "ask $jr",
    "next a.example t1",
    "close a.example t1",
    "open a.example t1",
    "ask $p",
    "state a.example !r:a.example $p",
    "state_ids a.example !r:a.example $p",
    "event_auth a.example !r:a.example $p",
    "backfill a.example !r:a.example $p",
    "missing a.example !r:a.example $c $p",
    "state b.example !r:a.example $p",
    "event_auth a.example !r:a.example $x",
    "backfill a.example !s:a.example $p",
];

const REPLIES: &str =
    "hosted absent opened told shown told closed kept shown state ids chain events events outside absent unhosted";

fn all_steps(alloc: Global) -> Result<Vec<Step>, AllocError> {
    let mut steps = Vec::new(alloc);
    for written in STEPS {
        steps.push(step_of(alloc, written)?)?;
    }
    Ok(steps)
}

fn replies_to(
    alloc: Global,
    server: &mut Server,
    steps: &[Step],
) -> Result<Vec<StepReply>, CallError>
    requires { IsTrue (none_open server.old) }
{
    match run(server, alloc, steps) {
        Ok(replies) => Ok(replies),
        Err(error) => Err(error.cause),
    }
}

// Replies, each in a word.
fn all_words(alloc: Global, replies: &[StepReply]) -> Result<String, AllocError> {
    let mut words = String::new(alloc);
    for reply in replies {
        if !words.is_empty() {
            words.push_str(" ")?;
        }
        words.push_str(word(reply))?;
    }
    Ok(words)
}

// The replies to all steps, each in a word.
fn told(alloc: Global) -> Result<String, CallError> {
    let mut server = server_of(alloc, 3)?;
    let steps = all_steps(alloc)?;
    let replies = replies_to(alloc, &mut server, &steps)?;
    Ok(all_words(alloc, &replies)?)
}

#[test]
fn run_or_no_memory(rt: HostRuntime) {
    match told(rt.alloc()) {
        Ok(words) => assert_eq!(rt; words.as_str(), REPLIES),
        Err(cause) => assert_eq!(rt; cause, CallError::Memory),
    }
}
