// A worker: a seat of an engine, which answers requests.
ghost use Rattle.std.specs.Prelude.{◌≡◌, All, IfSome, None};
ghost use Rattle.mx_engine.specs.Seats.{IsSeatOf, book_views, seat_number, shard_views};
ghost use Rattle.mx_http_requests.specs.Carried.{IsCarried, http_reply_shown};
ghost use Rattle.mx_requests.specs.CallsShown.{call_shown};
ghost use Rattle.mx_requests.specs.RepliesShown.{reply_shown};
ghost use Rattle.mx_server.specs.Moments.{moment_shown};
ghost use Rattle.mx_server.specs.Replies.{AsksSome, IsReplyTo, IsWorkersReply, answer_shown};
ghost use Rattle.mx_wire.specs.Responses.{IsCallAnswered, IsCallRefused, unavailable};

use crate::reading::RequestReader;
use bytes::Bytes;
use json::Scratch;
use mx_admin::DeskThread;
use mx_answer_records::{Answered, CallAbout, RequestAbout, note_answer};
use mx_directory::RowFiles;
use mx_engine::{Engine, OpenGate, Seat};
use mx_http::{AskedCall, HttpReply, HttpRequest, ReadRequest, Responder};
use mx_http_requests::http_reply;
use mx_ident::ServerName;
use mx_keeper::{BookRow, CallError, Keeper, ShardRow};
use mx_pdu::{Pdu, PresenceVerifier};
use mx_room::{LATEST_MILLISECONDS, Moment, Room};
use mx_shard::Answer;
use mx_wire::{Fault, RequestReply, WireCall, answer_call, fault_reply, memory_reply};
use std::alloc::{AllocError, Global};
use std::marker::Model;
use std::sync::{Arc, Wait};
use std::thread::Threads;
use std::time::{Clock, Duration};

// The status where a body does not come in its coding.
const BAD_REQUEST: u16 = 400;
// The status where a body comes in a transfer coding that is not known.
const NOT_IMPLEMENTED: u16 = 501;

// How the paths begin of queries whose replies grow with their room.
const LONG_REPLIES: [&[u8]; 6] = [
    b"/_matrix/federation/v1/state/",
    b"/_matrix/federation/v1/state_ids/",
    b"/_matrix/federation/v1/event_auth/",
    b"/_matrix/federation/v1/backfill/",
    b"/_matrix/federation/v1/get_missing_events/",
    b"/_matrix/federation/v2/send_join/",
];

/// The engine of the program.
pub type ServerEngine<K, L> = Engine<K, L, PresenceVerifier, OpenGate>;

/// What all workers share: the engine, the server's name, and the files of rows.
#[derive(Drop)]
pub struct Shared<K: Keeper<Row = ShardRow>, L: Keeper<Row = BookRow>> {
    pub engine: ServerEngine<K, L>,
    pub name: ServerName,
    pub files: Arc<RowFiles>,
}

/// A worker: a seat, and what it shares with the others, whose engine it is a seat of.
#[derive(Drop)]
pub struct Worker<K: Keeper<Row = ShardRow>, L: Keeper<Row = BookRow>> {
    shared: Arc<Shared<K, L>>,
    seat: Seat<K, L>,
}

impl<K: Keeper<Row = ShardRow>, L: Keeper<Row = BookRow>> Model for Worker<K, L> {
    ghost use Rattle.mx_engine.specs.Seats.{IsSeatOf, book_views, seat_number, shard_views};
    ghost use Rattle.mx_server.specs.WorkerViews.{WorkerView, worker_code};

    ghost Value = { WorkerView };

    ghost coded = { worker_code };

    ghost view = { λ worker. record {
      name = worker.shared.value.name;
      number = seat_number worker.seat;
      shards = shard_views worker.seat;
      books = book_views worker.seat;
    } };

    ghost invariant = { λ worker. IsSeatOf worker.shared.value.engine worker.seat };
}

/// What a request is answered, and whether no more requests are wanted then.
#[derive(Drop)]
pub struct AnsweredRequest {
    reply: HttpReply,
    is_last: bool,
}

impl<K: Keeper<Row = ShardRow> + Send, L: Keeper<Row = BookRow>> Worker<K, L> {
    /// The answer at this moment to what a request asks for. Where what keeps rows refused it, who runs the server is told which
    /// file has failed, and no more requests are wanted if the server is to end then.
    pub fn answer<R: Threads + Wait + Sync>(
        &mut self,
        rt: &R,
        alloc: Global,
        now: Moment,
        call: WireCall,
    ) -> AnsweredRequest
        ensures name { self.new.name ≡ self.old.name }
        ensures number { self.new.number ≡ self.old.number }
        ensures reply { IsWorkersReply now (call_shown call) self.old self.new (answer_shown result) }
    {
        let answered = answer_in(rt, alloc, &self.shared, &mut self.seat, now, call);
        answered_request(rt, alloc, &self.shared, answered)
    }
}

impl<K: Keeper<Row = ShardRow>, L: Keeper<Row = BookRow>> Worker<K, L> {
    /// What is read of the rooms of a shard; none where there is no such shard.
    pub fn read<R: Wait, A, F: FnOnce(&[Room]) -> A + Drop>(
        &mut self,
        rt: &R,
        shard: usize,
        read: F,
    ) -> Option<A>
        requires { F.IsAlwaysCallable read }
    {
        rooms_in(rt, &self.shared, &mut self.seat, shard, read)
    }

    /// The answer of the room of an event, which it is to host. Where what keeps rows refused it, who runs the server is told
    /// which file has failed.
    pub fn host<R: Wait>(
        &mut self,
        rt: &R,
        alloc: Global,
        event: Pdu,
    ) -> Result<Answer, CallError> {
        let answered = host_in(rt, alloc, &self.shared, &mut self.seat, event);
        if let Err(CallError::Storage) = &answered {
            self.shared.files.tell(rt, alloc);
        }
        answered
    }
}

// What is read of the rooms of a shard through a seat.
fn rooms_in<K, L, R, A, F>(
    rt: &R,
    shared: &Shared<K, L>,
    seat: &mut Seat<K, L>,
    shard: usize,
    read: F,
) -> Option<A>
where
    K: Keeper<Row = ShardRow>,
    L: Keeper<Row = BookRow>,
    R: Wait,
    F: FnOnce(&[Room]) -> A + Drop,
    requires seat { IsSeatOf shared.now.engine seat.old }
    requires callable { F.IsAlwaysCallable read }
    ensures seat { IsSeatOf shared.now.engine seat.new }
    ensures number { seat_number seat.new ≡ seat_number seat.old }
{
    shared.engine.read_rooms(rt, seat, shard, read)
}

// The answer through a seat of the room of an event, which it is to host.
fn host_in<K: Keeper<Row = ShardRow>, L: Keeper<Row = BookRow>, R: Wait>(
    rt: &R,
    alloc: Global,
    shared: &Shared<K, L>,
    seat: &mut Seat<K, L>,
    event: Pdu,
) -> Result<Answer, CallError>
    requires { IsSeatOf shared.now.engine seat.old }
    ensures seat { IsSeatOf shared.now.engine seat.new }
    ensures number { seat_number seat.new ≡ seat_number seat.old }
{
    shared.engine.host(rt, alloc, seat, event)
}

// What a request is answered. Where what keeps rows refused it, who runs the server is told which file has failed.
fn answered_request<K: Keeper<Row = ShardRow>, L: Keeper<Row = BookRow>, R: Wait>(
    rt: &R,
    alloc: Global,
    shared: &Shared<K, L>,
    answered: RequestReply,
) -> AnsweredRequest
    ensures { IsCarried (reply_shown answered.reply) (http_reply_shown result.reply) }
{
    let RequestReply { reply, refused } = answered;
    let has_failed = refused == Some(CallError::Storage);
    if has_failed {
        shared.files.tell(rt, alloc);
    }
    AnsweredRequest {
        reply: http_reply(reply),
        is_last: has_failed && shared.files.stop_on_failure,
    }
}

/// What a request asks for, and what is noted of it.
#[derive(Drop)]
pub struct NotedCall {
    about: RequestAbout,
    call: WireCall,
}

/// Reads the requests of connections, and answers them by a call, as of a worker. It notes each reply at its desk.
#[derive(Drop)]
pub struct Handler<F: Drop, C: Drop> {
    reader: Arc<RequestReader>,
    // What bodies are read over.
    scratch: Scratch,
    desk: DeskThread,
    // The clock of what is noted.
    clock: C,
    answer: F,
    // Whether it wants no more requests.
    is_done: bool,
}

impl<F: Drop, C: Wait + Clock + Drop> Handler<F, C> {
    pub fn new(
        alloc: Global,
        reader: Arc<RequestReader>,
        desk: DeskThread,
        clock: C,
        answer: F,
    ) -> Handler<F, C>
        ensures { result.answer ≡ answer }
    {
        Handler {
            reader,
            scratch: Scratch::new(alloc),
            desk,
            clock,
            answer,
            is_done: false,
        }
    }

    // Notes the reply to a request, and gives it.
    fn noted(
        &self,
        alloc: Global,
        about: RequestAbout,
        call: Option<CallAbout>,
        reply: HttpReply,
    ) -> HttpReply
        ensures { result ≡ reply }
    {
        let answered = Answered {
            request: about,
            call,
            status: reply.status,
            body: reply.body.as_slice(),
        };
        note_answer(&self.clock, alloc, &self.desk, answered);
        reply
    }

    // Notes the reply to a request whose body was not read.
    fn noted_unread(&self, alloc: Global, reply: HttpReply) -> HttpReply
        ensures { result ≡ reply }
    {
        self.noted(alloc, RequestAbout::unknown(&self.clock), None, reply)
    }

    // What a call is, where it offers events or a log tells of it. Where no memory is left for that, it is not noted.
    fn about_call(&self, alloc: Global, call: &WireCall) -> Option<CallAbout> {
        if !self.desk.has_log() && matches!(call, WireCall::Asks { .. }) {
            return None;
        }
        match CallAbout::of(alloc, call) {
            Ok(about) => Some(about),
            Err(_refused) => {
                self.desk.tell_dropped(&self.clock);
                None
            }
        }
    }
}

impl<F: FnMut(Global, Moment, WireCall) -> AnsweredRequest + Drop, C: Wait + Clock + Drop> Responder
    for Handler<F, C> {
    type Call = NotedCall;

    ghost can_respond = { (answer : F) → F.IsAlwaysCallable answer };

    ghost asks = { λ request noted. AsksSome request noted.call };

    ghost answers = { λ request reply. IsReplyTo F.step request reply };

    fn has_long_reply(_method: &str, target: &[u8]) -> bool {
        LONG_REPLIES.iter().any(|path| target.starts_with(*path))
    }

    fn is_short(&self, request: &HttpRequest) -> bool {
        self.reader.is_short(request)
    }

    fn read(&mut self, alloc: Global, request: HttpRequest) -> ReadRequest<NotedCall> {
        let about = RequestAbout::of(&self.clock, request.method.as_str(), &request.target);
        match self.reader.read(alloc, &mut self.scratch, request) {
            ReadRequest::Refused(reply) => {
                ReadRequest::Refused(self.noted(alloc, about, None, reply))
            }
            ReadRequest::Asking(asked) => ReadRequest::Asking(AskedCall {
                claim: asked.claim,
                is_quick: asked.is_quick,
                call: NotedCall {
                    about,
                    call: asked.call,
                },
            }),
        }
    }

    fn respond<R: Wait + Clock>(&mut self, rt: &R, alloc: Global, call: NotedCall) -> HttpReply {
        let NotedCall { about, call } = call;
        let asked = self.about_call(alloc, &call);
        self.desk
            .set_in_transaction(matches!(call, WireCall::Sends { .. }));
        let now = moment(rt);
        let answered = (self.answer)(alloc, now, call);
        let AnsweredRequest { reply, is_last } = answered;
        self.is_done |= is_last;
        self.desk.set_in_transaction(false);
        self.noted(alloc, about, asked, reply)
    }

    fn is_done(&self) -> bool {
        self.is_done
    }

    fn refuse_body(&self, alloc: Global) -> HttpReply {
        let reply = match fault_reply(alloc, Fault::TooLarge) {
            Ok(reply) => http_reply(reply),
            Err(_refused) => http_reply(memory_reply()),
        };
        self.noted_unread(alloc, reply)
    }

    fn refuse_coding(&self, alloc: Global) -> HttpReply {
        let reply = refusal(
            NOT_IMPLEMENTED,
            b"{\"errcode\":\"M_UNRECOGNIZED\",\"error\":\"unknown transfer coding\"}",
        );
        self.noted_unread(alloc, reply)
    }

    fn refuse_framing(&self, alloc: Global) -> HttpReply {
        let reply = refusal(
            BAD_REQUEST,
            b"{\"errcode\":\"M_UNRECOGNIZED\",\"error\":\"malformed body\"}",
        );
        self.noted_unread(alloc, reply)
    }
}

fn refusal(status: u16, body: &'static [u8]) -> HttpReply {
    HttpReply {
        status,
        body: Bytes::from_static(body),
        allowed: None,
    }
}

// The reply through a seat, at a moment, to what a request asks for.
fn answer_in<K: Keeper<Row = ShardRow> + Send, L: Keeper<Row = BookRow>, R: Threads + Wait + Sync>(
    rt: &R,
    alloc: Global,
    shared: &Shared<K, L>,
    seat: &mut Seat<K, L>,
    now: Moment,
    call: WireCall,
) -> RequestReply
    requires { IsSeatOf shared.now.engine seat.old }
    ensures seat { IsSeatOf shared.now.engine seat.new }
    ensures number { seat_number seat.new ≡ seat_number seat.old }
    ensures reply { result.refused ≡ None → IsCallAnswered shared.now.name now (seat_number seat.old) (call_shown call)
        (shard_views seat.old) (book_views seat.old) (shard_views seat.new) (book_views seat.new) (reply_shown result.reply) }
    ensures refused { IfSome result.refused (λ error. IsCallRefused (seat_number seat.old) (call_shown call)
        (shard_views seat.old) (book_views seat.old) (shard_views seat.new) (book_views seat.new) error
        × (reply_shown result.reply ≡ unavailable error)) }
{
    answer_call(rt, alloc, &shared.name, &shared.engine, seat, now, call)
}

// The moment of the clock.
fn moment<C: Clock>(clock: &C) -> Moment {
    moment_of(clock.since_1970().ok())
}

// The moment that a clock shows: the first one where it can't be read, the latest one where it shows more.
fn moment_of(time: Option<Duration>) -> Moment
    ensures { result ≡ moment_shown time }
{
    let milliseconds = match time {
        Some(time) => u64::try_from(time.as_millis()).unwrap_or(u64::MAX),
        None => 0,
    };
    Moment::at(milliseconds.min(LATEST_MILLISECONDS)).unwrap()
}

/// A worker at each seat of an engine.
pub fn workers_of<K: Keeper<Row = ShardRow>, L: Keeper<Row = BookRow>>(
    alloc: Global,
    shared: &Arc<Shared<K, L>>,
    seats: Vec<Seat<K, L>>,
) -> Result<Vec<Worker<K, L>>, AllocError>
    requires { All (IsSeatOf shared.now.value.engine) seats.items }
{
    let mut workers = Vec::new(alloc);
    for seat in seats {
        workers.push(worker_of(shared, seat)?)?;
    }
    Ok(workers)
}

fn worker_of<K: Keeper<Row = ShardRow>, L: Keeper<Row = BookRow>>(
    shared: &Arc<Shared<K, L>>,
    seat: Seat<K, L>,
) -> Result<Worker<K, L>, AllocError>
    requires { IsSeatOf shared.now.value.engine seat }
{
    let shared = Arc::try_clone(shared)?;
    Ok(Worker { shared, seat })
}
