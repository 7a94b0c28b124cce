// The replies to requests, by an engine that callers share.
ghost use Rattle.std.specs.Prelude.{◌≡◌, ◌≢◌, ◌⊎◌, ℕ, Err, IfErr, IfOk, IfSome, Ok, None, Some};
ghost use Rattle.mx_engine.specs.Seats.{IsSeatOf, book_views, seat_number, shard_views, verifier_of};
ghost use Rattle.mx_engine.specs.Views.{AreSameViews};
ghost use Rattle.mx_requests.specs.Calls.{asks, call_of, joins, sends};
ghost use Rattle.mx_requests.specs.CallsShown.{call_shown, request_shown};
ghost use Rattle.mx_requests.specs.RepliesShown.{reply_shown};
ghost use Rattle.mx_requests.specs.ReplyBodies.{failure};
ghost use Rattle.mx_wire.specs.Responses.{IsCallAnswered, IsCallRefused, IsResponse, IsUnanswered, last_step_reply, unavailable};

use json::Scratch;
use mx_engine::{Engine, Gate, Seat, TransactionReply};
use mx_ident::ServerName;
use mx_keeper::{BookRow, CallError, Keeper, ShardRow, TransactionId};
use mx_pdu::{Offered, Verifier};
use mx_requests::{
    Fault, WireCall, WireReply, WireRequest, WireServer, memory_reply, read_request, storage_reply,
};
use mx_room::{Moment, Query};
use mx_step_replies::{asked_reply, joined_reply, sent_reply, told_fault};
use mx_world::{StepReply, TransactionKey};
use std::alloc::Global;
use std::sync::Wait;
use std::thread::Threads;

/// The reply to a request, and why it stands in place of an answer, where it does.
#[derive(Debug, Drop)]
pub struct RequestReply {
    pub reply: WireReply,
    // No memory was left, or what keeps rows failed: the reply tells that, with status 503.
    pub refused: Option<CallError>,
}

/// The reply of this server to a request at this moment, by an engine that callers share.
///
/// A request with a fault is told it, and the engine is not called. Else the engine is called once, and the reply is the
/// one by its answer. `refused` is `Memory` where no memory is left, and `Storage` where what keeps rows failed, now or
/// before. Then a query has added nothing; a join or a transaction was refused by the engine, or it was answered, and no
/// memory was left for the bytes of its reply. Bodies are read over the scratch, which is kept from request to request.
///
/// It waits where the engine does. Source: the Server-Server API of the Matrix specification: "Request Authentication",
/// "Transactions", "Retrieving events", "Backfilling and retrieving missing events" and "Joining Rooms".
pub fn respond<
    K: Keeper<Row = ShardRow> + Send,
    L: Keeper<Row = BookRow>,
    V: Verifier + Drop,
    G: Gate + Sync + Drop,
    R: Threads + Wait + Sync,
>(
    rt: &R,
    alloc: Global,
    scratch: &mut Scratch,
    server: &WireServer,
    engine: &Engine<K, L, V, G>,
    seat: &mut Seat<K, L>,
    now: Moment,
    request: &WireRequest,
) -> RequestReply
    requires { IsSeatOf engine.now seat.old }
    ensures seat { IsSeatOf engine.now seat.new }
    ensures number { seat_number seat.new ≡ seat_number seat.old }
    ensures same_shards { AreSameViews (shard_views seat.old) (shard_views seat.new) }
    ensures same_books { AreSameViews (book_views seat.old) (book_views seat.new) }
    ensures reply { result.refused ≡ None → IsResponse (V.judges (verifier_of engine.now)) server.now.name now (seat_number seat.old)
        (shard_views seat.old) (book_views seat.old) (shard_views seat.new) (book_views seat.new) (request_shown request.now) (reply_shown result.reply) }
    ensures refused { IfSome result.refused (λ error. IsUnanswered (V.judges (verifier_of engine.now)) server.now.name (seat_number seat.old)
        (shard_views seat.old) (book_views seat.old) (shard_views seat.new) (book_views seat.new) (request_shown request.now) error
        × (reply_shown result.reply ≡ unavailable error)) }
{
    match read_call(alloc, scratch, server, engine.verifier(), request) {
        Ok(call) => answer_call(rt, alloc, &server.name, engine, seat, now, call),
        Err(fault) => refuse_request(alloc, fault),
    }
}

/// What a request to this server asks for, or its first fault, as this judge of signatures has it. It waits for nobody.
/// Its body is read over the scratch, which is kept from request to request.
///
/// `Memory` where no memory is left. Source: the Server-Server API of the Matrix specification: "Request Authentication".
pub fn read_call<V: Verifier>(
    alloc: Global,
    scratch: &mut Scratch,
    server: &WireServer,
    verifier: &V,
    request: &WireRequest,
) -> Result<WireCall, Fault>
    ensures ok { IfOk result (λ call.
        call_of (V.judges verifier.now) server.now.name (request_shown request.now) ≡ Ok (call_shown call)) }
    ensures err { IfErr result (λ fault. (fault ≡ Fault.Memory)
        ⊎ (call_of (V.judges verifier.now) server.now.name (request_shown request.now) ≡ Err fault)) }
{
    read_request(alloc, scratch, server, verifier, request)
}

/// The reply to a request with this fault. `refused` is `Memory` where the fault is want of memory, or no memory is left
/// for the reply's bytes.
pub fn refuse_request(alloc: Global, fault: Fault) -> RequestReply
    ensures told { result.refused ≡ None → fault ≢ Fault.Memory }
    ensures reply { result.refused ≡ None → reply_shown result.reply ≡ failure fault }
    ensures refused { IfSome result.refused (λ error. (error ≡ CallError.Memory) × (reply_shown result.reply ≡ unavailable error)) }
{
    match told_fault(alloc, fault) {
        Ok(reply) => RequestReply {
            reply,
            refused: None,
        },
        Err(_refused) => unavailable_reply(CallError::Memory),
    }
}

/// The reply of the server with this name to what a request asks for at this moment, by an engine that callers share.
///
/// The engine is called once, and the reply is the one by its answer. `refused` is `Memory` where no memory is left, and
/// `Storage` where what keeps rows failed, now or before. Then a query has added nothing; a join or a transaction was
/// refused by the engine, or it was answered, and no memory was left for the bytes of its reply.
///
/// It waits where the engine does. Source: the Server-Server API of the Matrix specification: "Transactions", "Retrieving
/// events", "Backfilling and retrieving missing events" and "Joining Rooms".
pub fn answer_call<
    K: Keeper<Row = ShardRow> + Send,
    L: Keeper<Row = BookRow>,
    V: Verifier + Drop,
    G: Gate + Sync + Drop,
    R: Threads + Wait + Sync,
>(
    rt: &R,
    alloc: Global,
    name: &ServerName,
    engine: &Engine<K, L, V, G>,
    seat: &mut Seat<K, L>,
    now: Moment,
    call: WireCall,
) -> RequestReply
    requires { IsSeatOf engine.now seat.old }
    ensures seat { IsSeatOf engine.now seat.new }
    ensures number { seat_number seat.new ≡ seat_number seat.old }
    ensures same_shards { AreSameViews (shard_views seat.old) (shard_views seat.new) }
    ensures same_books { AreSameViews (book_views seat.old) (book_views seat.new) }
    ensures reply { result.refused ≡ None → IsCallAnswered name.now now (seat_number seat.old) (call_shown call)
        (shard_views seat.old) (book_views seat.old) (shard_views seat.new) (book_views seat.new) (reply_shown result.reply) }
    ensures refused { IfSome result.refused (λ error. IsCallRefused (seat_number seat.old) (call_shown call)
        (shard_views seat.old) (book_views seat.old) (shard_views seat.new) (book_views seat.new) error
        × (reply_shown result.reply ≡ unavailable error)) }
{
    match call_reply(rt, alloc, engine, seat, name, now, call) {
        Ok(reply) => RequestReply {
            reply,
            refused: None,
        },
        Err(error) => unavailable_reply(error),
    }
}

// The reply where no memory is left, or what keeps rows failed. It takes no memory.
fn unavailable_reply(error: CallError) -> RequestReply
    ensures reply { reply_shown result.reply ≡ unavailable error }
    ensures refused { result.refused ≡ Some error }
{
    let reply = match error {
        CallError::Memory => memory_reply(),
        CallError::Storage => storage_reply(),
    };
    RequestReply {
        reply,
        refused: Some(error),
    }
}

// The reply to a call, or why there is none.
fn call_reply<
    K: Keeper<Row = ShardRow> + Send,
    L: Keeper<Row = BookRow>,
    V: Verifier + Drop,
    G: Gate + Sync + Drop,
    R: Threads + Wait + Sync,
>(
    rt: &R,
    alloc: Global,
    engine: &Engine<K, L, V, G>,
    seat: &mut Seat<K, L>,
    name: &ServerName,
    now: Moment,
    call: WireCall,
) -> Result<WireReply, CallError>
    requires { IsSeatOf engine.now seat.old }
    ensures seat { IsSeatOf engine.now seat.new }
    ensures number { seat_number seat.new ≡ seat_number seat.old }
    ensures same_shards { AreSameViews (shard_views seat.old) (shard_views seat.new) }
    ensures same_books { AreSameViews (book_views seat.old) (book_views seat.new) }
    ensures reply { IfOk result (λ reply. IsCallAnswered name.now now (seat_number seat.old) (call_shown call)
        (shard_views seat.old) (book_views seat.old) (shard_views seat.new) (book_views seat.new) (reply_shown reply)) }
    ensures err { IfErr result (IsCallRefused (seat_number seat.old) (call_shown call)
        (shard_views seat.old) (book_views seat.old) (shard_views seat.new) (book_views seat.new)) }
{
    match call {
        WireCall::Sends {
            origin,
            transaction,
            events,
        } => {
            let txn = TransactionId::new(transaction);
            let key = TransactionKey { origin, txn };
            let reply = answer_transaction(rt, alloc, engine, seat, name, &key, &events)?;
            Ok(reply)
        }
        WireCall::Asks { origin, query } => {
            let asked = AskedQuery {
                origin: &origin,
                moment: now,
                query: &query,
            };
            let reply = answer_query(rt, alloc, engine, seat, name, asked)?;
            Ok(reply)
        }
        WireCall::Joins { origin, event } => {
            let reply = answer_join(rt, alloc, engine, seat, name, &origin, &event)?;
            Ok(reply)
        }
    }
}

// What a server asks at a moment.
#[derive(Clone, Copy)]
struct AskedQuery<'a> {
    origin: &'a ServerName,
    moment: Moment,
    query: &'a Query,
}

// The reply to a query.
fn answer_query<
    K: Keeper<Row = ShardRow>,
    L: Keeper<Row = BookRow>,
    V: Verifier + Drop,
    G: Gate + Drop,
    R: Wait,
>(
    rt: &R,
    alloc: Global,
    engine: &Engine<K, L, V, G>,
    seat: &mut Seat<K, L>,
    name: &ServerName,
    asked: AskedQuery<'_>,
) -> Result<WireReply, CallError>
    requires { IsSeatOf engine.now seat.old }
    ensures seat { IsSeatOf engine.now seat.new }
    ensures number { seat_number seat.new ≡ seat_number seat.old }
    ensures same_shards { AreSameViews (shard_views seat.old) (shard_views seat.new) }
    ensures same_books { AreSameViews (book_views seat.old) (book_views seat.new) }
    ensures reply { IfOk result (λ reply. IsCallAnswered name.now asked.entry.moment (seat_number seat.old) (asks asked.entry.origin.now asked.entry.query.now)
        (shard_views seat.old) (book_views seat.old) (shard_views seat.new) (book_views seat.new) (reply_shown reply)) }
    ensures err { IfErr result (IsCallRefused (seat_number seat.old) (asks asked.entry.origin.now asked.entry.query.now)
        (shard_views seat.old) (book_views seat.old) (shard_views seat.new) (book_views seat.new)) }
{
    let told = engine.ask(rt, seat, asked.origin, asked.moment, asked.query)?;
    let last = StepReply::OfRoom(told);
    let reply = asked_reply(alloc, name, asked.moment, asked.query, last)?;
    Ok(reply)
}

// The reply to a join.
fn answer_join<
    K: Keeper<Row = ShardRow>,
    L: Keeper<Row = BookRow>,
    V: Verifier + Drop,
    G: Gate + Drop,
    R: Wait,
>(
    rt: &R,
    alloc: Global,
    engine: &Engine<K, L, V, G>,
    seat: &mut Seat<K, L>,
    name: &ServerName,
    origin: &ServerName,
    event: &Offered,
) -> Result<WireReply, CallError>
    requires { IsSeatOf engine.now seat.old }
    ensures seat { IsSeatOf engine.now seat.new }
    ensures number { seat_number seat.new ≡ seat_number seat.old }
    ensures same_shards { AreSameViews (shard_views seat.old) (shard_views seat.new) }
    ensures same_books { AreSameViews (book_views seat.old) (book_views seat.new) }
    ensures reply { IfOk result (λ reply. (now : ℕ) → IsCallAnswered name.now now (seat_number seat.old) (joins origin.now event.now)
        (shard_views seat.old) (book_views seat.old) (shard_views seat.new) (book_views seat.new) (reply_shown reply)) }
    ensures err { IfErr result (IsCallRefused (seat_number seat.old) (joins origin.now event.now)
        (shard_views seat.old) (book_views seat.old) (shard_views seat.new) (book_views seat.new)) }
{
    let told = engine.join_offered(rt, seat, origin, event)?;
    let last = StepReply::OfRoom(told);
    let reply = joined_reply(alloc, name, last)?;
    Ok(reply)
}

// The reply to a transaction.
fn answer_transaction<
    K: Keeper<Row = ShardRow> + Send,
    L: Keeper<Row = BookRow>,
    V: Verifier + Drop,
    G: Gate + Sync + Drop,
    R: Threads + Wait + Sync,
>(
    rt: &R,
    alloc: Global,
    engine: &Engine<K, L, V, G>,
    seat: &mut Seat<K, L>,
    name: &ServerName,
    key: &TransactionKey,
    events: &[Offered],
) -> Result<WireReply, CallError>
    requires { IsSeatOf engine.now seat.old }
    ensures seat { IsSeatOf engine.now seat.new }
    ensures number { seat_number seat.new ≡ seat_number seat.old }
    ensures same_shards { AreSameViews (shard_views seat.old) (shard_views seat.new) }
    ensures same_books { AreSameViews (book_views seat.old) (book_views seat.new) }
    ensures reply { IfOk result (λ reply. (now : ℕ) → IsCallAnswered name.now now (seat_number seat.old) (sends key.now.origin key.now.txn events.now)
        (shard_views seat.old) (book_views seat.old) (shard_views seat.new) (book_views seat.new) (reply_shown reply)) }
    ensures err { IfErr result (IsCallRefused (seat_number seat.old) (sends key.now.origin key.now.txn events.now)
        (shard_views seat.old) (book_views seat.old) (shard_views seat.new) (book_views seat.new)) }
{
    let told = engine.transaction_offered(rt, alloc, seat, key, events)?;
    let last = to_step_reply(told);
    let reply = sent_reply(alloc, last)?;
    Ok(reply)
}

// The reply to a transaction, as that to its last step.
fn to_step_reply(reply: TransactionReply) -> StepReply
    ensures { result ≡ last_step_reply reply }
{
    match reply {
        TransactionReply::Replayed(body) => StepReply::Replayed(body),
        TransactionReply::Busy => StepReply::Busy,
        TransactionReply::Closed(body) => StepReply::Closed(body),
    }
}
