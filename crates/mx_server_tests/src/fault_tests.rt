use crate::faulty_engines::{told_behind_a_fault, told_of_faults};
use crate::faulty_servers::{ENDLESS, FaultyServer, ask, opened_again, send, with_first_room};
use crate::room_events::{TestRoom, events, message};
use crate::words::{word, word_of_refusal};
use mx_keeper::CallError;
use mx_pdu::Pdu;
use mx_world::StepReply;
use std::alloc::{AllocError, Global};
use std::test::Fail;

// Keepers that fail at one call. Hashes, ids and replies are by tests/matrix_events.py.

const ID_OF_FIRST: &str = "$3hxPIINPCc175BeXQkSSRvqykJ-G7tYzsiIetSr5SB4";

const ID_OF_SECOND: &str = "$wilubesu49_G1AsenAUAFhmBCidQdnU3Q6cO6zVjDYM";

const BOTH_KEPT: &str =
    "{\"pdus\":{\"$3hxPIINPCc175BeXQkSSRvqykJ-G7tYzsiIetSr5SB4\":{},\"$wilubesu49_G1AsenAUAFhmBCidQdnU3Q6cO6zVjDYM\":{}}}";

const BOTH_DENIED: &str =
    "{\"pdus\":{\"$3hxPIINPCc175BeXQkSSRvqykJ-G7tYzsiIetSr5SB4\":{\"error\":\"server acl\"},\"$wilubesu49_G1AsenAUAFhmBCidQdnU3Q6cO6zVjDYM\":{\"error\":\"server acl\"}}}";

// A denies b.example, behind the first room's last event.
const ACCESS_LIST: &str =
    "{\"auth_events\":[\"$qLRaZ6LK0EzM7N0QAK7zbj4nIEs8YGhE5HTIHgR9EG8\",\"$w5oFWCoXM5r12liOySpumqFyyCcft_HlBTfvR4_TmJ0\",\"$1LEN92gsYmlzXoE_cqCPy5a5VjO2c1gh7MBh-DVPZI4\"],\"content\":{\"allow\":[\"*\"],\"deny\":[\"b.example\"]},\"depth\":7,\"hashes\":{\"sha256\":\"z7ev4xaQN3C6L+5EXqj9ZqyRzSj2Fe+tac3aM1OCK7g\"},\"origin_server_ts\":70,\"prev_events\":[\"$1brV-WBZindaj3lrhUS0tumu0XX2Q2ivUCaLElTbItE\"],\"room_id\":\"!r:a.example\",\"sender\":\"@a:a.example\",\"signatures\":{\"a.example\":{\"ed25519:1\":\"s\"}},\"state_key\":\"\",\"type\":\"m.room.server_acl\"}";

const LIST_KEPT: &str = "{\"pdus\":{\"$0Ttt8wPF2S2HgCNi49OfBpBSlvXSkVrlQQvdKdkU9iw\":{}}}";

// Calls of the keeper of rows: one reads them, six keep the first room, and one the first message. It fails at the next.
const UP_TO_THE_FIRST_MESSAGE: u64 = 8;

// Calls of the keeper of replies: one reads them, and one keeps that of the first room's events. It fails at the next.
const UP_TO_THE_FIRST_ROOM: u64 = 2;

fn two_messages(alloc: Global) -> Result<Vec<Pdu>, AllocError> {
    let first = message(alloc, TestRoom::First, "first")?;
    let second = message(alloc, TestRoom::First, "second")?;
    Ok(vec![in alloc; first, second]?)
}

// A word for the text of a transaction's reply.
fn word_of_text(text: &str) -> &'static str {
    if text == BOTH_KEPT {
        return "both-kept";
    }
    if text == BOTH_DENIED {
        return "both-denied";
    }
    if text == LIST_KEPT {
        return "list-kept";
    }
    "other"
}

fn word_of_repeat(text: &str) -> &'static str {
    if text == BOTH_KEPT {
        return "again-both-kept";
    }
    "other"
}

fn word_of_reply(reply: &StepReply) -> &'static str {
    match reply {
        StepReply::Closed(reply) => word_of_text(reply.as_str()),
        StepReply::Replayed(reply) => word_of_repeat(reply.as_str()),
        _ => word(reply),
    }
}

// A call by its words: `first` and `second` ask for one of two messages, `both` sends them and `repeat` none, as one
// transaction, and `list` sends what denies their sender.
fn call(alloc: Global, server: &mut FaultyServer, name: &str) -> Result<StepReply, CallError> {
    match name {
        "first" => ask(alloc, server, ID_OF_FIRST),
        "second" => ask(alloc, server, ID_OF_SECOND),
        "both" => {
            let messages = two_messages(alloc)?;
            send(alloc, server, "b.example", "t1", messages)
        }
        "repeat" => send(alloc, server, "b.example", "t1", Vec::new(alloc)),
        _ => {
            let list = events(alloc, &[ACCESS_LIST])?;
            send(alloc, server, "a.example", "t2", list)
        }
    }
}

// What is answered to a call, or why it is refused, in a word.
fn told(alloc: Global, server: &mut FaultyServer, name: &str) -> &'static str {
    match call(alloc, server, name) {
        Ok(reply) => word_of_reply(&reply),
        Err(refusal) => word_of_refusal(refusal),
    }
}

// Adds what is answered to these calls, each in a word.
fn tell(
    alloc: Global,
    server: &mut FaultyServer,
    names: &[&str],
    words: &mut String,
) -> Result<(), AllocError> {
    for name in names {
        let word = told(alloc, server, name);
        words.push_str(" ")?;
        words.push_str(word)?;
    }
    Ok(())
}

// What is answered by a server whose keepers pass so many calls on before they fail, and then, once it is opened again.
fn told_before_and_after(
    alloc: Global,
    passed_on: [u64; 2],
    before: &[&str],
    after: &[&str],
) -> Result<String, CallError> {
    let mut words = String::new(alloc);
    let mut server = with_first_room(alloc, passed_on)?;
    tell(alloc, &mut server, before, &mut words)?;
    words.push_str(";")?;
    let mut server = opened_again(alloc, server)?;
    tell(alloc, &mut server, after, &mut words)?;
    Ok(words)
}

// The store fails at the second message of a transaction, which is refused for storage. The first message stays kept, and
// the shard refuses each call until it is opened again. Then the transaction, sent again, has both messages kept.
#[test]
fn store_fails_at_a_message(rt: HostRuntime) -> Result<(), Fail> {
    let passed_on = [UP_TO_THE_FIRST_MESSAGE, ENDLESS];
    let before = ["both", "first", "both", "first"];
    let after = ["first", "second", "both"];
    let words = told_before_and_after(rt.alloc(), passed_on, &before, &after)?;
    assert_eq!(rt;
        words.as_str(),
        " storage storage storage storage; shown absent both-kept"
    );
    Ok(())
}

// The store fails as the transaction's reply is kept, which is refused for storage. Opened again, the server has both
// messages; the transaction, sent again, is told so, and a repeat gives these bytes.
#[test]
fn store_fails_at_the_reply(rt: HostRuntime) -> Result<(), Fail> {
    let passed_on = [ENDLESS, UP_TO_THE_FIRST_ROOM];
    let after = ["second", "both", "repeat"];
    let words = told_before_and_after(rt.alloc(), passed_on, &["both"], &after)?;
    assert_eq!(rt; words.as_str(), " storage; shown both-kept again-both-kept");
    Ok(())
}

// As before, but before the transaction is sent again another server has its sender denied: the messages, which are kept,
// are refused to it.
#[test]
fn acl_before_the_repeat(rt: HostRuntime) -> Result<(), Fail> {
    let passed_on = [ENDLESS, UP_TO_THE_FIRST_ROOM];
    let words = told_before_and_after(rt.alloc(), passed_on, &["both"], &["list", "both"])?;
    assert_eq!(rt; words.as_str(), " storage; list-kept both-denied");
    Ok(())
}

// One transaction has three messages of each of two rooms in two shards, in turn. At its second message the first shard's
// store fails, and for the other one's no memory is left. The fault of the lower place is told, whichever shard has it, and
// each shard has the first message of its room and no other.
#[test]
fn faults_in_two_shards(rt: HostRuntime) -> Result<(), Fail> {
    let alloc = rt.alloc();
    let first_fault = told_of_faults(&rt, alloc, TestRoom::First, TestRoom::Second)?;
    assert_eq!(rt; first_fault, "storage");
    let first_fault = told_of_faults(&rt, alloc, TestRoom::Second, TestRoom::First)?;
    assert_eq!(rt; first_fault, "memory");
    Ok(())
}

// The first shard is refused for storage. A query by an event's id is put to the other one too, which shows its own events;
// what that one does not show is refused for storage, as the first one might show it.
#[test]
fn asked_behind_a_refused_shard(rt: HostRuntime) -> Result<(), Fail> {
    let told = told_behind_a_fault(&rt, rt.alloc())?;
    assert_eq!(rt; told, ("shown", "storage"));
    Ok(())
}
