// What the thread that takes connections in and the one that serves one of them know of it together.
ghost use Rattle.std.specs.Prelude.{◌≡◌};
ghost use Rattle.futures.specs.Task.{Keeps};
ghost use Rattle.mx_http.specs.Moments.{milliseconds_from};

use crate::places::activities::Activity;
use crate::stages::{Progress, Stage};
use futures::task::{Context, Poll};
use std::alloc::{AllocError, Global};
use std::sync::Arc;
use std::sync::atomic::{AtomicBool, AtomicU64, Ordering};
use std::time::{Clock, Instant};
use tokio::sync::mpsc::{UnboundedReceiver, UnboundedSender, unbounded_channel};

/// What a connection does, to both threads. It is changed in one step from what was seen, so that a connection which was
/// given up stays so, and none is given up that has become busy.
#[derive(Drop)]
pub struct SharedActivity {
    number: AtomicU64,
    // Since when its client has taken nothing of what is written; 0 where it took the last of it.
    unread_since: AtomicU64,
    // Whether it is asked to make room, for what it holds.
    is_asked: AtomicBool,
    // Whether it ends since it was asked to make room.
    makes_room: AtomicBool,
}

impl SharedActivity {
    fn new(activity: Activity) -> SharedActivity {
        SharedActivity {
            number: AtomicU64::new(activity.number()),
            unread_since: AtomicU64::new(0),
            is_asked: AtomicBool::new(false),
            makes_room: AtomicBool::new(false),
        }
    }

    pub fn load(&self) -> Activity {
        Activity::of_number(self.number.load(Ordering::SeqCst))
    }

    /// The connection does something else, as who serves it says. False where it was given up.
    pub fn change(&self, to: Activity) -> bool {
        let seen = self.number.load(Ordering::SeqCst);
        !matches!(Activity::of_number(seen), Activity::GivenUp) && self.replace(seen, to.number())
    }

    /// Gives the connection up, where it still does what was seen.
    fn give_up(&self, seen: Activity) -> bool {
        self.replace(seen.number(), Activity::GivenUp.number())
    }

    /// Its client took some of what is written.
    fn note_taken(&self) {
        self.unread_since.store(0, Ordering::SeqCst);
        self.is_asked.store(false, Ordering::SeqCst);
    }

    /// Whether it is to end now since it was asked to make room, and waits.
    fn makes_room(&self) -> bool {
        let is_asked = self.is_asked.load(Ordering::SeqCst);
        if is_asked {
            self.makes_room.store(true, Ordering::SeqCst);
        }
        is_asked
    }

    fn replace(&self, seen: u64, next: u64) -> bool {
        seen == next
            || self
                .number
                .compare_exchange(seen, next, Ordering::SeqCst, Ordering::SeqCst)
                .is_ok()
    }
}

/// What a connection is told.
#[derive(Clone, Copy)]
enum Notice {
    // It is to end: now where it was given up, and else once it is idle.
    End,
    // It is to end where it still waits, so that there is room for others.
    MakeRoom,
}

/// The end of who may close the connection.
#[derive(Drop)]
pub struct ConnectionHandle {
    activity: Arc<SharedActivity>,
    notices: UnboundedSender<Notice>,
}

/// The end of who serves the connection, which is open as long as there is this end.
#[derive(Drop)]
pub struct ConnectionGuard {
    activity: Arc<SharedActivity>,
    notices: UnboundedReceiver<Notice>,
    // For others who may close it.
    handle: Arc<ConnectionHandle>,
    is_told: bool,
    start: Instant,
}

/// Both ends for a connection that is idle since now. Moments are milliseconds from `start`.
pub fn ends(
    alloc: Global,
    start: Instant,
    now: u64,
) -> Result<(ConnectionHandle, ConnectionGuard), AllocError> {
    let (tell, told) = unbounded_channel(alloc)?;
    let activity = Arc::new(alloc, SharedActivity::new(Activity::IdleSince(now)))?;
    let handle = ConnectionHandle {
        activity: Arc::try_clone(&activity)?,
        notices: tell,
    };
    let guard = ConnectionGuard {
        activity,
        notices: told,
        handle: Arc::new(alloc, handle.another()?)?,
        is_told: false,
        start,
    };
    Ok((handle, guard))
}

/// The milliseconds from `start`; none where the clock can't be read.
pub fn moment<C: Clock>(clock: &C, start: Instant) -> u64 {
    milliseconds_from(start, Instant::now(clock).ok())
}

// The milliseconds from `start` to now.
fn milliseconds_from(start: Instant, now: Option<Instant>) -> u64
    ensures { result ≡ milliseconds_from start now }
{
    match now {
        Some(now) => u64::try_from(now.duration_since(start).as_millis()).unwrap_or(u64::MAX),
        None => 0,
    }
}

impl ConnectionHandle {
    // The same, to another who may close the connection.
    fn another(&self) -> Result<ConnectionHandle, AllocError> {
        Ok(ConnectionHandle {
            activity: Arc::try_clone(&self.activity)?,
            notices: self.notices.clone()?,
        })
    }

    pub fn is_open(&self) -> bool {
        !self.notices.is_closed()
    }

    /// What the connection does now.
    pub fn activity(&self) -> Activity {
        self.activity.load()
    }

    /// Since when its client has taken nothing of what is written; the first moment where it took the last of it.
    pub fn unread_since(&self) -> u64 {
        self.activity.unread_since.load(Ordering::SeqCst)
    }

    /// Gives the connection up, where it still does what was seen: from then on it serves no request.
    pub fn give_up(&self, seen: Activity) -> bool {
        self.activity.give_up(seen)
    }

    /// Asks the connection, which holds bytes, to end where it still waits. False where it has ended.
    pub fn ask_for_room(&self) -> bool {
        self.activity.is_asked.store(true, Ordering::SeqCst);
        self.notices.send(Notice::MakeRoom).is_ok()
    }

    /// Whether it is asked to make room, and has not gone on since.
    pub fn is_asked(&self) -> bool {
        self.activity.is_asked.load(Ordering::SeqCst)
    }

    /// Whether it is to end now since it was asked to make room, and waits.
    pub fn makes_room(&self) -> bool {
        self.activity.makes_room()
    }

    /// It holds nothing any more. Whether it ends since it was asked to make room.
    pub fn end_asking(&self) -> bool {
        self.activity.is_asked.store(false, Ordering::SeqCst);
        self.activity.makes_room.swap(false, Ordering::SeqCst)
    }

    /// Tells the connection to end: now where it was given up, and else once it is idle.
    pub fn close(self) -> LeavingConnection {
        let ConnectionHandle { activity, notices } = self;
        let _ = notices.send(Notice::End);
        LeavingConnection { activity }
    }
}

/// A connection that was told to end.
#[derive(Drop)]
pub struct LeavingConnection {
    activity: Arc<SharedActivity>,
}

impl LeavingConnection {
    /// Whether who serves it has yet to close it.
    pub fn is_open(&self) -> bool {
        Arc::strong_count(&self.activity) > 1
    }
}

impl ConnectionGuard {
    /// What the connection does, to its progress.
    pub fn activity(&self) -> Result<Arc<SharedActivity>, AllocError> {
        Ok(Arc::try_clone(&self.activity)?)
    }

    /// What closes the connection, to others.
    pub fn handle(&self) -> Result<Arc<ConnectionHandle>, AllocError> {
        Ok(Arc::try_clone(&self.handle)?)
    }

    /// When moments begin.
    pub fn start(&self) -> Instant {
        self.start
    }

    /// Its client took some of what is written.
    pub fn note_taken(&self) {
        self.activity.note_taken();
    }

    /// Its client takes nothing of what is written from now on.
    pub fn note_unread<C: Clock>(&self, clock: &C) {
        let now = moment(clock, self.start);
        self.activity.unread_since.store(now, Ordering::SeqCst);
    }

    /// Whether it is asked to make room, and has not gone on since.
    pub fn is_asked(&self) -> bool {
        self.activity.is_asked.load(Ordering::SeqCst)
    }

    /// Its client was waited for too long.
    pub fn note_late(&self) {
        let _ = self.activity.makes_room();
    }

    /// The connection waits for its client. False where it was given up.
    pub fn begin_wait<C: Clock>(&self, clock: &C, progress: &Progress) -> bool {
        let now = match progress.since() {
            Some(since) => since,
            None => moment(clock, self.start),
        };
        progress.begin_wait(now)
    }

    /// Ready once it is told to end, and was given up or is idle.
    pub fn poll_end(&mut self, stage: Stage, cx: &mut Context<'_>) -> Poll<()>
        ensures { Keeps cx.old cx.new }
    {
        let notice = self.notices.poll_recv(cx);
        self.is_told |= matches!(notice, Poll::Ready(Some(Notice::End)));
        let is_given_up = matches!(self.activity.load(), Activity::GivenUp);
        if is_given_up || (self.is_told && stage == Stage::Idle) {
            return Poll::Ready(());
        }
        // Another notice may have come.
        if notice.is_ready() {
            return cx.yield_now();
        }
        Poll::Pending
    }
}
