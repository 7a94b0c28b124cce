// The bodies of requests.
ghost use Rattle.std.specs.Prelude.{◌≡◌, ◌++◌, [], Err, IfOk, IsOk, IsTrue, MatchOption, None, OnOk, false, length, true};
ghost use Rattle.futures.specs.Task.{Covers, Keeps};
ghost use Rattle.futures.specs.Poll.{IfReady, OnPending};
ghost use Rattle.http_body.specs.Frame.{data_of};
ghost use Rattle.mx_http.specs.Bodies.{OnOkOrPending, is_kept};
ghost use Rattle.mx_http.specs.WholeBodies.{GivesBody, StillGives};

use crate::memory::{ClientMemory, RoomWait};
use bytes::Bytes;
use futures::task::{Context, Poll};
use futures::{Future, ready};
use hyper::body::{Body, Frame};
use std::alloc::{AllocError, AllocGlobal, Global};
use std::mem;
use std::time::Clock;

// How many bytes an allocation has at least that glibc takes from the system for itself, whatever came before (32 MiB).
const ADDRESSES: usize = 33_554_432;
// How many pieces of a body one poll takes.
const MOST_PIECES: usize = 64;
/// Of a body that is longer than it may be, so many times the most bytes are read, so that its client comes to read the
/// reply.
pub const READ_ON: usize = 8;

/// Why a body was not had.
#[derive(Clone, Copy, Debug, PartialEq, Eq, Drop)]
pub enum BodyError {
    Memory,
    // It is longer than it may be.
    TooLong,
    // It does not come in its coding.
    Malformed,
    // The client went away before it had come.
    Cut,
    // Its connection was closed for want of room.
    Closed,
}

impl BodyError {
    // Why hyper does not give the rest of a body.
    fn of(error: &hyper::Error) -> BodyError {
        if error.is_out_of_memory() {
            BodyError::Memory
        } else if error.is_incomplete_message() {
            BodyError::Cut
        } else {
            BodyError::Malformed
        }
    }
}

impl From<AllocError> for BodyError {
    ghost use Rattle.std.specs.Prelude.{◌≡◌};
    ghost use Rattle.mx_http.specs.declared.bodies.BodyError.TheVariants.{Memory};

    ghost from_gives = { λ _ error. error ≡ Memory };

    fn from(_refused: AllocError) -> BodyError {
        BodyError::Memory
    }
}

// What has come of a body.
#[derive(Drop)]
struct Gathered {
    alloc: Global,
    bytes: Vec<u8>,
    // How many bytes a body may have.
    largest: usize,
    // How many came once there were more. None of these is kept, nor what came before.
    past: Option<usize>,
}

impl Gathered {
    // Whether so many bytes more are kept.
    fn keeps(&self, more: usize) -> bool
        ensures { result ≡ is_kept self.now.past self.now.largest (length self.now.bytes.items) more }
    {
        self.past.is_none() && self.bytes.len().saturating_add(more) <= self.largest
    }

    // A body that is counted gets addresses enough at once. The system gives memory for those that are written, and takes it
    // back as soon as they are dropped: it does so with allocations of that size, and may keep what smaller ones leave.
    fn reserve(&mut self)
        ensures past { self.new.past ≡ self.old.past }
        ensures largest { self.new.largest ≡ self.old.largest }
        ensures bytes { self.new.bytes.items ≡ self.old.bytes.items }
    {
        if self.bytes.capacity() < ADDRESSES {
            let _ = self.bytes.reserve_exact(ADDRESSES);
        }
    }

    // Of a body that is too long nothing is kept. `TooLong` where it has gone on for long enough.
    fn add(&mut self, piece: &[u8]) -> Result<(), BodyError>
        ensures bytes { OnOk result (self.new.past ≡ None → (self.old.past ≡ None)
            × (self.new.bytes.items ≡ self.old.bytes.items ++ piece.now)) }
        ensures kept { IsTrue (is_kept self.old.past self.old.largest (length self.old.bytes.items) (length piece.now))
            → OnOk result (self.new.past ≡ None) }
    {
        if self.keeps(piece.len()) {
            self.bytes.extend_from_slice(piece)?;
            return Ok(());
        }
        self.bytes = Vec::new(self.alloc);
        let past = self.past.unwrap_or(0).saturating_add(piece.len());
        self.past = Some(past);
        if past > self.largest.saturating_mul(READ_ON) {
            return Err(BodyError::TooLong);
        }
        Ok(())
    }

    // A body that has come to its end.
    fn take(&mut self) -> Result<Vec<u8>, BodyError>
        ensures bytes { IfOk result (λ bytes. (self.old.past ≡ None) × (bytes.items ≡ self.old.bytes.items)) }
        ensures whole { self.old.past ≡ None → IsOk result }
    {
        if self.past.is_some() {
            return Err(BodyError::TooLong);
        }
        Ok(mem::replace(&mut self.bytes, Vec::new(self.alloc)))
    }
}

/// A body, and what is held for its client.
#[derive(Drop)]
pub struct CountedBody {
    pub bytes: Vec<u8>,
    pub memory: Option<ClientMemory>,
}

/// The whole of a body, once it has come, each of whose pieces is kept once there is room for it; and where its request may
/// have a long reply, once there is room for that.
#[derive(Drop)]
pub struct WholeBody<B, R> {
    body: B,
    // Why it is not read, as its head says.
    fault: Option<BodyError>,
    gathered: Gathered,
    // None where no memory is left, or once it is had.
    room: Option<RoomWait<R>>,
    // A piece that came, and is kept once there is room.
    piece: Option<Bytes>,
    has_ended: bool,
    has_long_reply: bool,
}

impl<B, R> WholeBody<B, R> {
    /// The whole of this body, which may have so many bytes; or, where its head has a fault, that, and no byte is read.
    pub fn new(
        alloc: Global,
        body: B,
        largest: usize,
        fault: Option<BodyError>,
        room: Option<RoomWait<R>>,
        has_long_reply: bool,
    ) -> WholeBody<B, R>
        ensures body { result.body ≡ body }
        ensures fault { result.fault ≡ fault }
        ensures begins { result.has_ended ≡ false }
        ensures none_past { result.gathered.past ≡ None }
        ensures none_held { (result.gathered.bytes.items ≡ []) × (result.piece ≡ None) }
    {
        let gathered = Gathered {
            alloc,
            bytes: Vec::new(alloc),
            largest,
            past: None,
        };
        WholeBody {
            body,
            fault,
            gathered,
            room,
            piece: None,
            has_ended: false,
            has_long_reply,
        }
    }
}

impl<B, R> WholeBody<B, R>
where
    B: Body<Data = Bytes, Error = hyper::Error>,
    R: Clock + AllocGlobal + Copy + Drop,
{
    // Ready once the piece that came is kept.
    fn poll_piece(&mut self, cx: &mut Context<'_>) -> Poll<Result<(), BodyError>>
        ensures body { self.new.body ≡ self.old.body }
        ensures fault { self.new.fault ≡ self.old.fault }
        ensures ended { self.new.has_ended ≡ self.old.has_ended }
        ensures taken { IfReady result (λ r. OnOk r (self.new.piece ≡ None)) }
        ensures rest { OnOkOrPending result (StillGives B.yields self.old self.new) }
        ensures registered { OnPending result (Covers cx.new (λ _. ⊥)) }
        ensures kept { Keeps cx.old cx.new }
    {
        let Some(piece) = &self.piece else {
            return Poll::Ready(Ok(()));
        };
        let Some(room) = &mut self.room else {
            return Poll::Ready(Err(BodyError::Memory));
        };
        if self.gathered.keeps(piece.len()) {
            let own = self.gathered.bytes.len();
            if let Err(error) = ready!(room.poll_piece(own, piece.len(), cx)) {
                return Poll::Ready(Err(error));
            }
            if !room.is_empty() {
                self.gathered.reserve();
            }
        } else {
            room.clear();
        }
        if let Err(error) = self.gathered.add(piece.as_slice()) {
            return Poll::Ready(Err(error));
        }
        self.piece = None;
        Poll::Ready(Ok(()))
    }

    // Ready once the next frame has come, or the end.
    fn poll_frame(&mut self, cx: &mut Context<'_>) -> Poll<Result<(), BodyError>>
        requires can_poll { B.can_poll self.old.body }
        requires goes_on { self.old.has_ended ≡ false }
        requires taken { self.old.piece ≡ None }
        ensures fault { self.new.fault ≡ self.old.fault }
        ensures goes { OnOkOrPending result (self.new.has_ended ≡ false → B.can_poll self.new.body) }
        ensures rest { OnOkOrPending result (StillGives B.yields self.old self.new) }
        ensures registered { OnPending result (Covers cx.new (B.needs self.new.body)) }
        ensures kept { Keeps cx.old cx.new }
    {
        match ready!(self.body.poll_frame(cx)) {
            Some(Ok(frame)) => self.piece = data_of(frame),
            Some(Err(error)) => return Poll::Ready(Err(BodyError::of(&error))),
            None => self.has_ended = true,
        }
        Poll::Ready(Ok(()))
    }

    // Ready once all has come, and there is room for a long reply where its request may have one.
    fn poll_end(&mut self, cx: &mut Context<'_>) -> Poll<Result<CountedBody, BodyError>>
        requires ended { self.old.has_ended ≡ true }
        requires taken { self.old.piece ≡ None }
        ensures body { self.new.body ≡ self.old.body }
        ensures fault { self.new.fault ≡ self.old.fault }
        ensures ended { self.new.has_ended ≡ self.old.has_ended }
        ensures whole { IfReady result (λ r. IfOk r (λ counted. GivesBody B.yields self.old counted.bytes.items)) }
        ensures rest { OnPending result (StillGives B.yields self.old self.new) }
        ensures registered { OnPending result (Covers cx.new (λ _. ⊥)) }
        ensures kept { Keeps cx.old cx.new }
    {
        let Some(room) = &mut self.room else {
            return Poll::Ready(Err(BodyError::Memory));
        };
        if self.has_long_reply && self.gathered.past.is_none() {
            if let Err(error) = ready!(room.poll_reply(cx)) {
                return Poll::Ready(Err(error));
            }
        }
        let bytes = match self.gathered.take() {
            Ok(bytes) => bytes,
            Err(error) => return Poll::Ready(Err(error)),
        };
        let memory = self.room.take().map(RoomWait::into_memory);
        Poll::Ready(Ok(CountedBody { bytes, memory }))
    }
}

// The data of a frame; none of trailers.
fn data_of(frame: Frame<Bytes>) -> Option<Bytes>
    ensures { result ≡ data_of frame }
{
    match frame.into_data() {
        Ok(data) => Some(data),
        Err(_trailers) => None,
    }
}

impl<B, R> Future for WholeBody<B, R>
where
    B: Body<Data = Bytes, Error = hyper::Error>,
    R: Clock + AllocGlobal + Copy + Drop,
{
    type Output = Result<CountedBody, BodyError>;

    ghost can_poll = { λ whole. whole.has_ended ≡ false → B.can_poll whole.body };

    ghost gives = { λ whole r. MatchOption whole.fault
        (IfOk r (λ counted. GivesBody B.yields whole counted.bytes.items))
        (λ fault. r ≡ Err fault) };

    fn poll(&mut self, cx: &mut Context<'_>) -> Poll<Result<CountedBody, BodyError>> {
        if let Some(fault) = self.fault {
            return Poll::Ready(Err(fault));
        }
        for _ in 0..MOST_PIECES {
            if let Err(error) = ready!(self.poll_piece(cx)) {
                return Poll::Ready(Err(error));
            }
            if self.has_ended {
                return self.poll_end(cx);
            }
            if let Err(error) = ready!(self.poll_frame(cx)) {
                return Poll::Ready(Err(error));
            }
        }
        cx.yield_now()
    }
}
