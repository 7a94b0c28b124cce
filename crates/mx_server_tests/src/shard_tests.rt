use crate::values::{event, event_id, refused, server};
use crate::words::{word_of_answer, word_of_refusal};
use mx_keeper::{Caller, Keeper, KeeperFault, Place, ShardRow};
use mx_pdu::Offered;
use mx_room::{Moment, Outcome, Query, Refusal, Room};
use mx_shard::{CallError, Shard};
use std::alloc::{AllocError, Global};
use std::test::Fail;

// Content hashes and ids are by Python's json, hashlib and base64.
const CREATE: &str =
    "{\"auth_events\":[],\"content\":{\"creator\":\"@a:a.example\",\"room_version\":\"6\"},\"depth\":1,\"hashes\":{\"sha256\":\"7EqXFjg0TbdsCVVLsQz/QJbYgosrTahPKlTsIutVbDQ\"},\"origin_server_ts\":5,\"prev_events\":[],\"room_id\":\"!r:a.example\",\"sender\":\"@a:a.example\",\"signatures\":{\"a.example\":{\"ed25519:1\":\"s\"}},\"state_key\":\"\",\"type\":\"m.room.create\"}";

const JOIN: &str =
    "{\"auth_events\":[\"$r6uLfKfdvI6Q9vcoK1wbTRLqz6Y-CrjhoNwng1O3qaE\"],\"content\":{\"membership\":\"join\"},\"depth\":2,\"hashes\":{\"sha256\":\"5P+WXwTK6dmCTI6c6u5xMtvvduOfgdYCvVConbZV+Hg\"},\"origin_server_ts\":5,\"prev_events\":[\"$r6uLfKfdvI6Q9vcoK1wbTRLqz6Y-CrjhoNwng1O3qaE\"],\"room_id\":\"!r:a.example\",\"sender\":\"@a:a.example\",\"signatures\":{\"a.example\":{\"ed25519:1\":\"s\"}},\"state_key\":\"@a:a.example\",\"type\":\"m.room.member\"}";

// An event by its name in the tests, and its id.
fn event_named(name: &str) -> (&'static str, &'static str) {
    match name {
        "create" => (CREATE, "$r6uLfKfdvI6Q9vcoK1wbTRLqz6Y-CrjhoNwng1O3qaE"),
        _ => (JOIN, "$Sr9HczLFs9oCjpKK3Xnn2oTc8bow3Yx3BbtUDjNgM7U"),
    }
}

fn offered(alloc: Global, name: &str) -> Result<Offered, AllocError> {
    let (text, id) = event_named(name);
    Ok(Offered {
        pdu: event(alloc, text)?,
        id: event_id(alloc, id)?,
        signed: true,
    })
}

fn ask<K: Keeper<Row = ShardRow>>(
    alloc: Global,
    shard: &mut Shard<K>,
    offered: Offered,
) -> Result<&'static str, CallError> {
    let origin = server(alloc, "a.example")?;
    let now = Moment::at(1).ok_or(AllocError)?;
    let query = Query::Event(offered.id);
    Ok(word_of_answer(&shard.ask(&origin, now, &query)?))
}

fn host<K: Keeper<Row = ShardRow>>(
    shard: &mut Shard<K>,
    offered: &Offered,
) -> Result<&'static str, CallError> {
    if !shard.place().has(offered.pdu.room_id().as_str()) {
        return Ok("another place");
    }
    Ok(word_of_answer(&shard.host(Caller::new(0), offered)?))
}

fn offer<K: Keeper<Row = ShardRow>>(
    alloc: Global,
    shard: &mut Shard<K>,
    offered: &Offered,
) -> Result<&'static str, CallError> {
    if !shard.place().has(offered.pdu.room_id().as_str()) {
        return Ok("another place");
    }
    let origin = server(alloc, "a.example")?;
    Ok(word_of_answer(&shard.offer(Caller::new(0), &origin, offered)?))
}

// A call of the server a.example by its words, `host NAME`, `offer NAME` or `ask NAME`. The answer is told in a word.
fn tell<K: Keeper<Row = ShardRow>>(
    alloc: Global,
    shard: &mut Shard<K>,
    call: &str,
) -> Result<&'static str, CallError> {
    let (kind, name) = call.split_once(' ').unwrap_or(("", ""));
    let offered = offered(alloc, name)?;
    match kind {
        "ask" => ask(alloc, shard, offered),
        "host" => host(shard, &offered),
        _ => offer(alloc, shard, &offered),
    }
}

// The same, where a refusal is a word too.
fn told<K: Keeper<Row = ShardRow>>(
    alloc: Global,
    shard: &mut Shard<K>,
    call: &str,
) -> &'static str {
    match tell(alloc, shard, call) {
        Ok(word) => word,
        Err(refusal) => word_of_refusal(refusal),
    }
}

// A keeper that takes so many rows, and then fails each time. It holds none.
#[derive(Drop)]
struct FailingKeeper {
    alloc: Global,
    left: u64,
    failures: u64,
}

impl Keeper for FailingKeeper {
    ghost use Rattle.std.specs.Prelude.{Some, [], ⊤};

    type Row = ShardRow;

    ghost rows = { λ _. Some [] };

    ghost is_open = { λ _. ⊤ };

    ghost is_honest = { λ _. ⊥ };

    ghost may_leave = { λ _ _. ⊤ };

    ghost failed = { λ keeper. keeper.failures };

    ghost unsure = { λ _. 0 };

    ghost is_ready = { λ _. ⊥ };

    ghost may_refuse = { λ _ _ _. ⊤ };

    fn append(&mut self, _row: &ShardRow) -> Result<(), KeeperFault> {
        if self.left == 0 {
            self.failures = self.failures.saturating_add(1);
            return Err(KeeperFault::Store);
        }
        self.left -= 1;
        Ok(())
    }

    fn rows(&mut self) -> Result<Vec<ShardRow>, KeeperFault> {
        Ok(Vec::new(self.alloc))
    }

    fn failures(&self) -> u64 {
        self.failures
    }

    ghost settled = { λ _ _ honest _ _. absurd honest };
}

fn over_failing_keeper(alloc: Global) -> Result<Shard<FailingKeeper>, CallError> {
    let keeper = FailingKeeper {
        alloc,
        left: 1,
        failures: 0,
    };
    Shard::reopen(alloc, keeper, Place::new(0, 1))
}

// What is answered to these calls, each in a word, and how often the keeper failed.
fn all_told(alloc: Global, calls: &[&str]) -> Result<(String, u64), CallError> {
    let mut shard = over_failing_keeper(alloc)?;
    let mut words = String::new(alloc);
    for call in calls {
        let word = told(alloc, &mut shard, call);
        words.push_str(" ")?;
        words.push_str(word)?;
    }
    let failures = shard.into_keeper().failures();
    Ok((words, failures))
}

// From the first failure on each call is refused, and the keeper isn't asked again. A server that is not in the room is told
// of none of its events.
#[test]
fn refused_from_the_first_failure(rt: HostRuntime) -> Result<(), Fail> {
    let calls = [
        "host create",
        "ask create",
        "offer join",
        "host create",
        "ask create",
    ];
    let (words, failures) = all_told(rt.alloc(), &calls)?;
    assert_eq!(rt; words.as_str(), " hosted absent storage storage storage");
    assert_eq!(rt; failures, 1);
    Ok(())
}

fn hosted_room(alloc: Global) -> Result<Room, AllocError> {
    let create = offered(alloc, "create")?;
    Room::host(alloc, &create).map_err(refused)
}

fn word_of_outcome(outcome: &Outcome) -> &'static str {
    match outcome {
        Outcome::Kept(_) => "kept",
        Outcome::Known(_) => "known",
        Outcome::Refused(refusal) => word_of_cause(refusal),
    }
}

fn word_of_cause(cause: &Refusal) -> &'static str {
    match cause {
        Refusal::Signature => "signature",
        _ => "other",
    }
}

// What becomes of the join that the server a.example sends, signed or not.
fn received(alloc: Global, room: &mut Room, signed: bool) -> Result<&'static str, AllocError> {
    let mut join = offered(alloc, "join")?;
    join.signed = signed;
    let origin = server(alloc, "a.example")?;
    let outcome = room.receive(alloc, &origin, &join)?;
    Ok(word_of_outcome(&outcome))
}

// What becomes of it where it comes unsigned, then signed, and then unsigned again, and how many events the room has then.
fn all_received(alloc: Global) -> Result<(String, usize), AllocError> {
    let mut room = hosted_room(alloc)?;
    let mut words = String::new(alloc);
    for signed in [false, true, false] {
        let word = received(alloc, &mut room, signed)?;
        words.push_str(" ")?;
        words.push_str(word)?;
    }
    Ok((words, room.len()))
}

// A room with no shard around it. A shard prepares each event, and keeps it before the room has it.
#[test]
fn events_received_by_a_room(rt: HostRuntime) -> Result<(), Fail> {
    let (words, length) = all_received(rt.alloc())?;
    assert_eq!(rt; words.as_str(), " signature kept known");
    assert_eq!(rt; length, 2);
    Ok(())
}
