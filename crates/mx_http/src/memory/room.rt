// Bodies and requests that wait for room.
ghost use Rattle.futures.specs.Task.{Covers, Keeps};
ghost use Rattle.futures.specs.Poll.{OnPending};

use crate::bodies::BodyError;
use crate::memory::budget::{Account, ClientMemory, SMALL};
use crate::stages::SharedProgress;
use futures::Future;
use futures::task::{Context, Poll};
use std::alloc::{AllocError, AllocGlobal};
use std::rc::Rc;
use std::sync::Arc;
use std::time::{Clock, Duration, Instant};
use tokio::time::{self, Sleep};

// How many milliseconds later it looks again whether there is room.
const LOOKS_AGAIN: u64 = 10;

/// What a connection needs to wait for room.
#[derive(Drop)]
pub struct Room<R> {
    pub rt: R,
    pub timers: time::Handle,
    pub account: Arc<Account>,
    pub progress: SharedProgress,
}

impl<R: Clock + AllocGlobal + Copy + Drop> Room<R> {
    /// For a request of the connection, for whose client nothing is held yet.
    pub fn wait(room: &Rc<Room<R>>) -> Result<RoomWait<R>, AllocError> {
        let account = Arc::try_clone(&room.account)?;
        Ok(RoomWait {
            room: Rc::clone(room)?,
            memory: ClientMemory::new(account),
            since: None,
            sleep: None,
        })
    }
}

/// What is held for the client of a request, which waits where there is no room for more.
#[derive(Drop)]
pub struct RoomWait<R> {
    room: Rc<Room<R>>,
    memory: ClientMemory,
    // When the first bytes were held.
    since: Option<u64>,
    sleep: Option<Sleep>,
}

impl<R: Clock + AllocGlobal + Copy + Drop> RoomWait<R> {
    /// What is held.
    pub fn into_memory(self) -> ClientMemory {
        self.memory
    }

    /// Whether nothing is counted.
    pub fn is_empty(&self) -> bool {
        self.memory.is_empty()
    }

    /// Nothing is held any more.
    pub fn clear(&mut self) {
        self.memory.clear();
    }

    // Since when the body comes.
    fn since(&mut self, now: u64) -> u64 {
        let since = self.since.unwrap_or(now);
        self.since = Some(since);
        since
    }

    /// Ready once there is room for a piece of so many bytes behind the `own` ones that have come, which are counted where
    /// they are more than a few together.
    pub fn poll_piece(
        &mut self,
        own: usize,
        piece: usize,
        cx: &mut Context<'_>,
    ) -> Poll<Result<(), BodyError>>
        ensures registered { OnPending result (Covers cx.new (λ _. ⊥)) }
        ensures kept { Keeps cx.old cx.new }
    {
        let bytes = own.saturating_add(piece);
        if bytes <= SMALL {
            return Poll::Ready(Ok(()));
        }
        let more = if self.memory.is_empty() { bytes } else { piece };
        let now = self.room.account.moment(&self.room.rt);
        let since = self.since(now);
        let taken = self.memory.take(more, since);
        self.poll_taken(taken, more, now, cx)
    }

    /// Ready once there is room for a long reply.
    pub fn poll_reply(&mut self, cx: &mut Context<'_>) -> Poll<Result<(), BodyError>>
        ensures registered { OnPending result (Covers cx.new (λ _. ⊥)) }
        ensures kept { Keeps cx.old cx.new }
    {
        let Ok(more) = self.memory.expected_reply() else {
            return Poll::Ready(Err(BodyError::Memory));
        };
        let now = self.room.account.moment(&self.room.rt);
        let since = self.since(now);
        let taken = self.memory.take(more, since);
        self.poll_taken(taken, more, now, cx)
    }

    // Ready where there was room. Else it waits for a moment, and one that has waited longer is asked to make room.
    fn poll_taken(
        &mut self,
        taken: Result<bool, AllocError>,
        more: usize,
        now: u64,
        cx: &mut Context<'_>,
    ) -> Poll<Result<(), BodyError>>
        ensures registered { OnPending result (Covers cx.new (λ _. ⊥)) }
        ensures kept { Keeps cx.old cx.new }
    {
        match taken {
            Ok(true) => return Poll::Ready(Ok(())),
            Ok(false) => {}
            Err(_refused) => return Poll::Ready(Err(BodyError::Memory)),
        }
        let rt = self.room.rt;
        if !self.room.progress.begin_wait(now) || self.room.account.makes_room() {
            return Poll::Ready(Err(BodyError::Closed));
        }
        if self.memory.wait(rt.alloc(), more, now).is_err() {
            return Poll::Ready(Err(BodyError::Memory));
        }
        self.poll_sleep(cx)
    }

    // Pending for a moment.
    fn poll_sleep(&mut self, cx: &mut Context<'_>) -> Poll<Result<(), BodyError>>
        ensures registered { OnPending result (Covers cx.new (λ _. ⊥)) }
        ensures kept { Keeps cx.old cx.new }
    {
        let pause = Duration::from_millis(LOOKS_AGAIN);
        if self.sleep.is_none() {
            match self.room.timers.sleep(&self.room.rt, pause) {
                Ok(sleep) => self.sleep = Some(sleep),
                Err(_error) => return Poll::Ready(Err(BodyError::Memory)),
            }
        }
        let (Some(sleep), Ok(now)) = (&mut self.sleep, Instant::now(&self.room.rt)) else {
            return Poll::Ready(Err(BodyError::Memory));
        };
        if let Some(later) = now.checked_add(pause) {
            sleep.reset(later);
        }
        match sleep.poll(cx) {
            Poll::Ready(Ok(())) => cx.yield_now(),
            Poll::Ready(Err(_error)) => Poll::Ready(Err(BodyError::Memory)),
            Poll::Pending => Poll::Pending,
        }
    }
}
