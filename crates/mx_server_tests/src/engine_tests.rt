ghost use Rattle.std.specs.Prelude.{map};
ghost use Rattle.mx_engine.specs.Seats.{IsSeatOf};
ghost use Rattle.mx_server_tests.specs.Callers.{AreTheSeats};

use crate::callers::{Caller, Plan, after_a_turn, callers_of, seats_of};
use crate::engines::{
    KeptRows, TestEngine, TestSeat, closed, kept, opened, reply_to, with_one_seat, with_two_seats,
};
use crate::gates::{Meeting, MeetingGate};
use crate::room_events::{
    ID_OF_JOIN_OF_D, JOIN_OF_D, REPLY_TO_FIRST_ROOM, TestRoom, create_of, message, others_of,
};
use crate::values::{event, event_id, refused, server};
use mx_engine::TransactionReply;
use mx_keeper::{BookRow, ShardRow};
use mx_pdu::Pdu;
use mx_room::{JoinReply, Moment, Query, QueryReply};
use mx_shard::Answer;
use std::alloc::{AllocError, Global};
use std::sync::{Arc, Wait};
use std::test::Fail;
use std::thread::Threads;

// That calls in two shards run at the same time, and that each call comes to its end: no clause says so. A test asserts that
// nothing is wrong, and what is right is worked out beside it: a function that may abort costs many times more to prove.

fn gate_of(meeting: &Arc<Meeting>) -> Result<MeetingGate, AllocError> {
    let meeting = Arc::clone(meeting)?;
    Ok(MeetingGate { meeting })
}

fn new_meeting(alloc: Global) -> Result<Arc<Meeting>, AllocError> {
    let meeting = Arc::new(alloc, Meeting::new())?;
    Ok(meeting)
}

// Two callers, each of whom hosts and fills a room before it sends a message.
fn two_plans() -> [Plan; 2] {
    let first = Plan {
        room: TestRoom::First,
        txn: "1",
        messages: 1,
    };
    let second = Plan {
        room: TestRoom::Second,
        txn: "2",
        messages: 1,
    };
    [first, second]
}

fn is_closed(caller: &Caller) -> bool {
    matches!(caller.reply, Some(TransactionReply::Closed(_)))
}

fn are_closed(callers: &[Caller]) -> bool {
    for caller in callers {
        if !is_closed(caller) {
            return false;
        }
    }
    true
}

// The callers once both have hosted, filled and sent. As they send they meet.
fn after_all_turns<R: Threads + Wait + Sync>(
    rt: &R,
    alloc: Global,
    engine: &TestEngine,
    callers: Vec<Caller>,
    meeting: &Meeting,
) -> Vec<Caller>
    requires { AreTheSeats engine.now (map (λ c. c.seat) callers.items) }
    ensures { AreTheSeats engine.now (map (λ c. c.seat) result.items) }
{
    let callers = after_a_turn(rt, alloc, engine, callers, meeting);
    let callers = after_a_turn(rt, alloc, engine, callers, meeting);
    meeting.ask();
    after_a_turn(rt, alloc, engine, callers, meeting)
}

// What the engine's server keeps once all callers have given back their seats.
fn kept_by<R: Wait>(
    rt: &R,
    alloc: Global,
    engine: TestEngine,
    callers: Vec<Caller>,
) -> Result<KeptRows, AllocError>
    requires { AreTheSeats engine (map (λ c. c.seat) callers.items) }
{
    let seats = seats_of(alloc, callers)?;
    kept(alloc, closed(rt, alloc, engine, seats))
}

// Whether the rows are a room's beginning and one message, of which the text is its caller's number.
fn are_of_one_caller(alloc: Global, rows: &[ShardRow]) -> Result<bool, AllocError> {
    if rows.len() != 7 {
        return Ok(false);
    }
    let row = &rows[6];
    let number = row.caller.number();
    let body = format!(in alloc; "\"body\":\"{number} 0\"")?;
    Ok(row.event.text().contains(body.as_str()))
}

fn are_each_of_one_caller(alloc: Global, rooms: &[Vec<ShardRow>]) -> Result<bool, AllocError> {
    for rows in rooms {
        if !are_of_one_caller(alloc, rows)? {
            return Ok(false);
        }
    }
    Ok(rooms.len() == 2)
}

// How many books have the replies to four transactions.
fn books_of_four(books: &[Vec<BookRow>]) -> usize {
    let mut count: usize = 0;
    for rows in books {
        if rows.len() == 4 {
            count = count.saturating_add(1);
        }
    }
    count
}

// What is wrong with the rows that two callers leave.
fn fault_of_rows(alloc: Global, kept: &KeptRows) -> Result<&'static str, AllocError> {
    if !are_each_of_one_caller(alloc, &kept.rooms)? {
        return Ok("rooms");
    }
    if books_of_four(&kept.replies) != 1 {
        return Ok("replies");
    }
    Ok("")
}

// What is wrong with what two callers are answered who meet, or with what they leave.
fn fault_of_two_callers<R: Threads + Wait + Sync>(
    rt: &R,
    alloc: Global,
) -> Result<&'static str, AllocError> {
    let meeting = new_meeting(alloc)?;
    let (engine, seats) = opened(rt, alloc, gate_of(&meeting)?, 2)?;
    let plans = two_plans();
    let callers = callers_of(alloc, &engine, seats, &plans)?;
    let callers = after_all_turns(rt, alloc, &engine, callers, &meeting);
    if !are_closed(&callers) {
        return Ok("answers");
    }
    let kept = kept_by(rt, alloc, engine, callers)?;
    if meeting.is_given_up() {
        return Ok("too long a wait");
    }
    fault_of_rows(alloc, &kept)
}

// A transaction is sent to each of two shards, and who is inside the first one stays there until the other is answered. Once
// the engine is closed each room has its beginning and its caller's message, and one book what both sent.
#[test]
fn two_shards_at_once(rt: HostRuntime) -> Result<(), Fail> {
    assert_eq!(rt; fault_of_two_callers(&rt, rt.alloc())?, "");
    Ok(())
}

// Hosts the room through the seat.
fn host<R: Wait>(
    rt: &R,
    alloc: Global,
    engine: &TestEngine,
    seat: &mut TestSeat,
    room: TestRoom,
) -> Result<(), AllocError>
    requires { IsSeatOf engine.now seat.old }
    ensures { IsSeatOf engine.now seat.new }
{
    let create = create_of(alloc, room)?;
    let hosted = engine.host(rt, alloc, seat, create).map_err(refused)?;
    if matches!(hosted, Answer::Hosted(_)) {
        return Ok(());
    }
    Err(AllocError)
}

// Hosts the room through the seat, and sends its other events: the reply to them.
fn fill<R: Threads + Wait + Sync>(
    rt: &R,
    alloc: Global,
    engine: &TestEngine,
    seat: &mut TestSeat,
    room: TestRoom,
) -> Result<TransactionReply, AllocError>
    requires { IsSeatOf engine.now seat.old }
    ensures { IsSeatOf engine.now seat.new }
{
    host(rt, alloc, engine, seat, room)?;
    let others = others_of(alloc, room)?;
    reply_to(rt, alloc, engine, seat, room.id(), others)
}

// An event of each of the two rooms.
fn one_of_each(alloc: Global) -> Result<Vec<Pdu>, AllocError> {
    let mut both = Vec::new(alloc);
    both.push(message(alloc, TestRoom::First, "first")?)?;
    both.push(message(alloc, TestRoom::Second, "second")?)?;
    Ok(both)
}

// Whether the reply has two events, and no fault.
fn has_both(reply: &TransactionReply) -> bool {
    match reply {
        TransactionReply::Closed(reply) => {
            let text = reply.as_str();
            text.contains("\":{},\"$") && text.ends_with("\":{}}}") && !text.contains("error")
        }
        _ => false,
    }
}

// What is wrong with the reply to one transaction with an event of each of two rooms in two shards, where its calls meet.
fn fault_of_two_calls<R: Threads + Wait + Sync>(
    rt: &R,
    alloc: Global,
) -> Result<&'static str, AllocError> {
    let meeting = new_meeting(alloc)?;
    let (engine, mut seat) = with_one_seat(rt, alloc, gate_of(&meeting)?)?;
    fill(rt, alloc, &engine, &mut seat, TestRoom::First)?;
    fill(rt, alloc, &engine, &mut seat, TestRoom::Second)?;
    meeting.ask_calls();
    let both = one_of_each(alloc)?;
    let reply = reply_to(rt, alloc, &engine, &mut seat, "1", both)?;
    if meeting.is_given_up() {
        return Ok("too long a wait");
    }
    if !has_both(&reply) {
        return Ok("reply");
    }
    Ok("")
}

// One transaction has an event of each of two rooms in two shards. Each of its two calls stays in its shard until the other
// one is inside its own: neither waits for too long, and the reply has both events, with no fault.
#[test]
fn one_transaction_in_two_shards_at_once(rt: HostRuntime) -> Result<(), Fail> {
    assert_eq!(rt; fault_of_two_calls(&rt, rt.alloc())?, "");
    Ok(())
}

fn is_reply_to_first_room(reply: &TransactionReply) -> bool {
    match reply {
        TransactionReply::Closed(reply) => reply.as_str() == REPLY_TO_FIRST_ROOM,
        _ => false,
    }
}

// Whether D's join is offered to the room through the seat, and joins.
fn is_joined<R: Wait>(
    rt: &R,
    alloc: Global,
    engine: &TestEngine,
    seat: &mut TestSeat,
) -> Result<bool, AllocError>
    requires { IsSeatOf engine.now seat.old }
    ensures { IsSeatOf engine.now seat.new }
{
    let origin = server(alloc, "d.example")?;
    let join = event(alloc, JOIN_OF_D)?;
    let joined = engine
        .join(rt, alloc, seat, &origin, join)
        .map_err(refused)?;
    Ok(matches!(
        joined,
        Answer::ToJoined(JoinReply::Offered {
            joined: Some(_),
            ..
        })
    ))
}

// Whether d.example is shown that join through the seat.
fn is_shown<R: Wait>(
    rt: &R,
    alloc: Global,
    engine: &TestEngine,
    seat: &mut TestSeat,
) -> Result<bool, AllocError>
    requires { IsSeatOf engine.now seat.old }
{
    let origin = server(alloc, "d.example")?;
    let now = Moment::at(1).ok_or(AllocError)?;
    let query = Query::Event(event_id(alloc, ID_OF_JOIN_OF_D)?);
    let answer = engine.ask(rt, seat, &origin, now, &query).map_err(refused)?;
    Ok(matches!(answer, Answer::ToAsked(Ok(QueryReply::Event(_)))))
}

fn meet<R: Wait>(rt: &R, engine: &TestEngine, first: &mut TestSeat, second: &mut TestSeat)
    requires first { IsSeatOf engine.now first.old }
    requires second { IsSeatOf engine.now second.old }
    ensures first { IsSeatOf engine.now first.new }
    ensures second { IsSeatOf engine.now second.new }
{
    engine.meet(rt, first, second);
}

// What is wrong where a room is hosted and filled through one seat, D's join is offered there, and another seat that has met
// it is asked for the join.
fn fault_of_two_seats<R: Threads + Wait + Sync>(
    rt: &R,
    alloc: Global,
) -> Result<&'static str, AllocError> {
    let gate = gate_of(&new_meeting(alloc)?)?;
    let (engine, mut other, mut seat) = with_two_seats(rt, alloc, gate)?;
    let filled = fill(rt, alloc, &engine, &mut seat, TestRoom::First)?;
    if !is_reply_to_first_room(&filled) {
        return Ok("reply");
    }
    if !is_joined(rt, alloc, &engine, &mut seat)? {
        return Ok("join");
    }
    meet(rt, &engine, &mut other, &mut seat);
    if !is_shown(rt, alloc, &engine, &mut other)? {
        return Ok("event");
    }
    Ok("")
}

// A room is hosted, filled and joined through one seat, and another seat that has met it is shown the join.
#[test]
fn seat_to_seat(rt: HostRuntime) -> Result<(), Fail> {
    assert_eq!(rt; fault_of_two_seats(&rt, rt.alloc())?, "");
    Ok(())
}
