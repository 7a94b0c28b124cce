// Callers of an engine, each in a thread of its own.
ghost use Rattle.std.specs.Prelude.{◌≡◌, ◌<◌, ℕ, All, IfOk, length, get_or, map};
ghost use Rattle.std.specs.Thread.{IsSync};
ghost use Rattle.mx_engine.specs.Seats.{IsSeatOf, seat_number};
ghost use Rattle.mx_server_tests.specs.Callers.{AreTheSeats};

use crate::engines::{TestEngine, TestSeat, send};
use crate::gates::Meeting;
use crate::room_events::{TestRoom, create_of, key_of, message, others_of};
use mx_book::TransactionKey;
use mx_engine::TransactionReply;
use mx_pdu::Pdu;
use std::alloc::{AllocError, Global};
use std::sync::Wait;
use std::thread;
use std::thread::Threads;

// What a caller does in one turn.
#[derive(Drop)]
pub enum Turn {
    Rest,
    Host(Pdu),
    Send(TransactionKey, Vec<Pdu>),
}

// A seat, what is done through it, the last turn first, and the reply to its last transaction.
#[derive(Drop)]
pub struct Caller {
    pub seat: TestSeat,
    pub turns: Vec<Turn>,
    pub reply: Option<TransactionReply>,
}

// Does a turn through a seat, and gives the reply to what it sends.
fn do_turn<R: Threads + Wait + Sync>(
    rt: &R,
    alloc: Global,
    engine: &TestEngine,
    seat: &mut TestSeat,
    turn: Turn,
) -> Option<TransactionReply>
    requires { IsSeatOf engine.now seat.old }
    ensures mine { IsSeatOf engine.now seat.new }
    ensures number { seat_number seat.new ≡ seat_number seat.old }
{
    match turn {
        Turn::Rest => None,
        Turn::Host(create) => {
            let _hosted = engine.host(rt, alloc, seat, create);
            None
        }
        Turn::Send(key, events) => send(rt, alloc, engine, seat, &key, events).ok(),
    }
}

// Does a caller's next turn.
fn take_turn<R: Threads + Wait + Sync>(
    rt: &R,
    alloc: Global,
    engine: &TestEngine,
    caller: &mut Caller,
)
    requires { IsSeatOf engine.now caller.old.seat }
    ensures mine { IsSeatOf engine.now caller.new.seat }
    ensures number { seat_number caller.new.seat ≡ seat_number caller.old.seat }
{
    let turn = caller.turns.pop().unwrap_or(Turn::Rest);
    caller.reply = do_turn(rt, alloc, engine, &mut caller.seat, turn);
}

// Does each caller's next turn, in a thread of its own.
fn turns_in_threads<R: Threads + Wait + Sync>(
    rt: &R,
    alloc: Global,
    engine: &TestEngine,
    callers: &mut [Caller],
    meeting: &Meeting,
)
    requires { All (λ c. IsSeatOf engine.now c.seat) callers.old }
    ensures count { length callers.new ≡ length callers.old }
    ensures mine { All (λ c. IsSeatOf engine.now c.seat) callers.new }
    ensures numbers { (n : ℕ) (d : Caller) → n < length callers.old
        → seat_number (get_or callers.new n d).seat ≡ seat_number (get_or callers.old n d).seat }
{
    thread::for_each_mut(
        rt,
        callers,
        4,
        &|place, caller|
            requires { IsSync R.row × IsSeatOf engine.now caller.old.seat }
            ensures { IsSeatOf engine.entry.now caller.new.seat
                × (seat_number caller.new.seat ≡ seat_number caller.old.seat) }
        {
            meeting.before(place);
            take_turn(rt, alloc, engine, caller);
            meeting.after(place);
        },
    );
}

// The callers once each has done its next turn, in a thread of its own.
pub fn after_a_turn<R: Threads + Wait + Sync>(
    rt: &R,
    alloc: Global,
    engine: &TestEngine,
    callers: Vec<Caller>,
    meeting: &Meeting,
) -> Vec<Caller>
    requires { AreTheSeats engine.now (map (λ c. c.seat) callers.items) }
    ensures seated { AreTheSeats engine.now (map (λ c. c.seat) result.items) }
    ensures count { length result.items ≡ length callers.items }
{
    let mut callers = callers;
    turns_in_threads(rt, alloc, engine, &mut callers, meeting);
    callers
}

// What a caller is to do: it hosts and fills the room, and sends so many messages in a transaction with this number.
#[derive(Drop)]
pub struct Plan {
    pub room: TestRoom,
    pub txn: &'static str,
    pub messages: u32,
}

fn messages(alloc: Global, plan: &Plan) -> Result<Vec<Pdu>, AllocError> {
    let mut all = Vec::new(alloc);
    for number in 0..plan.messages {
        let body = format!(in alloc; "{} {number}", plan.txn)?;
        all.push(message(alloc, plan.room, &body)?)?;
    }
    Ok(all)
}

// Three turns, the last one first.
fn turns_of(alloc: Global, plan: &Plan) -> Result<Vec<Turn>, AllocError> {
    let last = sending(alloc, plan.txn, messages(alloc, plan)?)?;
    let filling = sending(alloc, plan.room.id(), others_of(alloc, plan.room)?)?;
    let hosting = Turn::Host(create_of(alloc, plan.room)?);
    Ok(vec![in alloc; last, filling, hosting]?)
}

fn sending(alloc: Global, txn: &str, events: Vec<Pdu>) -> Result<Turn, AllocError> {
    let key = key_of(alloc, txn)?;
    Ok(Turn::Send(key, events))
}

// A caller at the seat, with what it is to do.
fn caller_of(alloc: Global, seat: TestSeat, plan: &Plan) -> Result<Caller, AllocError>
    ensures { IfOk result (λ caller. caller.seat ≡ seat) }
{
    let turns = turns_of(alloc, plan)?;
    Ok(Caller {
        seat,
        turns,
        reply: None,
    })
}

// A caller at each seat, with what it is to do.
pub fn callers_of(
    alloc: Global,
    _engine: &TestEngine,
    seats: Vec<TestSeat>,
    plans: &[Plan],
) -> Result<Vec<Caller>, AllocError>
    requires { AreTheSeats _engine.now seats.items }
    ensures seated { IfOk result (λ callers. AreTheSeats _engine.now (map (λ c. c.seat) callers.items)) }
    ensures count { IfOk result (λ callers. length callers.items ≡ length seats.items) }
{
    let mut callers = Vec::new(alloc);
    for seat in seats {
        let plan = plans.get(callers.len()).ok_or(AllocError)?;
        let caller = caller_of(alloc, seat, plan)?;
        callers.push(caller)?;
    }
    Ok(callers)
}

fn seat_of(caller: Caller) -> TestSeat
    ensures { result ≡ caller.seat }
{
    caller.seat
}

// The seats of the callers.
pub fn seats_of(alloc: Global, callers: Vec<Caller>) -> Result<Vec<TestSeat>, AllocError>
    ensures items { IfOk result (λ seats. seats.items ≡ map (λ c. c.seat) callers.items) }
    ensures count { IfOk result (λ seats. length seats.items ≡ length callers.items) }
{
    let mut seats = Vec::new(alloc);
    for caller in callers {
        seats.push(seat_of(caller))?;
    }
    Ok(seats)
}
