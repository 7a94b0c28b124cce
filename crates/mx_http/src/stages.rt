// How far a connection is with its requests, and since when its client is waited for.
ghost use Rattle.std.specs.Prelude.{◌≡◌, ◌≢◌, ℕ, Some, None, IsSome, true, false};
ghost use Rattle.mx_http.specs.declared.stages.Stage.TheVariants as is_at;
ghost use Rattle.mx_http.specs.declared.places.activities.Activity.TheVariants.{IdleSince, SlowSince, Busy};

use crate::guards::SharedActivity;
use crate::places::activities::Activity;
use std::cell::Cell;
use std::rc::Rc;
use std::sync::Arc;

/// How far a connection is with a request.
#[derive(Clone, Copy, PartialEq, Eq)]
pub enum Stage {
    // None has begun.
    Idle,
    // The head of one comes.
    Head,
    // Its head has come, and its body comes.
    Body,
    // It has come, and waits for its turn.
    Turn,
    // Its reply goes.
    Reply,
}

impl Stage {
    /// Whether a read that finds nothing waits for the client: not while its request is answered, or its reply goes.
    pub fn waits_for_bytes(self) -> bool
        ensures turn { self ≡ is_at.Turn → result ≡ false }
        ensures reply { self ≡ is_at.Reply → result ≡ false }
        ensures other { self ≢ is_at.Turn → self ≢ is_at.Reply → result ≡ true }
    {
        match self {
            Stage::Idle | Stage::Head | Stage::Body => true,
            Stage::Turn | Stage::Reply => false,
        }
    }
}

/// How far a connection is, and since which moment its client is waited for there, if it has been.
#[derive(Clone, Copy)]
pub struct StageTime {
    pub stage: Stage,
    pub since: Option<u64>,
}

impl StageTime {
    /// It enters a stage, or stays in it.
    pub fn entering(self, stage: Stage) -> StageTime
        ensures stays { self.stage ≡ stage → result ≡ self }
        ensures enters { self.stage ≢ stage → result ≡ record { stage = stage; since = None } }
    {
        if self.stage == stage {
            return self;
        }
        StageTime { stage, since: None }
    }

    /// Something has come: the first bytes of a request begin its head, and all else changes nothing.
    pub fn after_read(self) -> StageTime
        ensures begins { self.stage ≡ is_at.Idle → result ≡ record { stage = is_at.Head; since = None } }
        ensures goes_on { self.stage ≢ is_at.Idle → result ≡ self }
    {
        match self.stage {
            Stage::Idle => self.entering(Stage::Head),
            Stage::Head | Stage::Body | Stage::Turn | Stage::Reply => self,
        }
    }

    /// Something is to go: what goes while no request has begun is the rest of a reply.
    pub fn before_write(self) -> StageTime
        ensures replies { self.stage ≡ is_at.Idle → result ≡ record { stage = is_at.Reply; since = None } }
        ensures goes_on { self.stage ≢ is_at.Idle → result ≡ self }
    {
        match self.stage {
            Stage::Idle => self.entering(Stage::Reply),
            Stage::Head | Stage::Body | Stage::Turn | Stage::Reply => self,
        }
    }

    /// All has gone: after a reply the connection is idle.
    pub fn after_flush(self) -> StageTime
        ensures ends { self.stage ≡ is_at.Reply → result ≡ record { stage = is_at.Idle; since = None } }
        ensures goes_on { self.stage ≢ is_at.Reply → result ≡ self }
    {
        match self.stage {
            Stage::Reply => self.entering(Stage::Idle),
            Stage::Idle | Stage::Head | Stage::Body | Stage::Turn => self,
        }
    }

    /// Its client is waited for now: since the moment when it was first in this stage.
    pub fn waiting(self, now: u64) -> StageTime
        ensures first { self.since ≡ None → result ≡ record { stage = self.stage; since = Some now } }
        ensures again { IsSome self.since → result ≡ self }
    {
        match self.since {
            Some(_since) => self,
            None => StageTime {
                stage: self.stage,
                since: Some(now),
            },
        }
    }

    /// What a connection does whose client is waited for.
    pub fn activity(self) -> Activity
        ensures busy { self.since ≡ None → result ≡ Busy }
        ensures idle { (moment : ℕ) → self.since ≡ Some moment → self.stage ≡ is_at.Idle → result ≡ IdleSince moment }
        ensures slow { (moment : ℕ) → self.since ≡ Some moment → self.stage ≢ is_at.Idle → result ≡ SlowSince moment }
    {
        match (self.since, self.stage) {
            (None, _) => Activity::Busy,
            (Some(since), Stage::Idle) => Activity::IdleSince(since),
            (Some(since), _) => Activity::SlowSince(since),
        }
    }
}

/// How far a connection is with its requests.
#[derive(Drop)]
pub struct Progress {
    time: Cell<StageTime>,
    has_answered: Cell<bool>,
    // A request was answered whose body was not read.
    has_left_body: Cell<bool>,
    activity: Arc<SharedActivity>,
}

/// The progress of a connection, to what reads and writes it and to what answers it.
pub type SharedProgress = Rc<Progress>;

impl Progress {
    /// No request has begun.
    pub fn new(activity: Arc<SharedActivity>) -> Progress {
        let time = StageTime {
            stage: Stage::Idle,
            since: None,
        };
        Progress {
            time: Cell::new(time),
            has_answered: Cell::new(false),
            has_left_body: Cell::new(false),
            activity,
        }
    }

    pub fn stage(&self) -> Stage {
        self.time.get().stage
    }

    /// Since when its client is waited for in this stage.
    pub fn since(&self) -> Option<u64> {
        self.time.get().since
    }

    pub fn enter(&self, stage: Stage) {
        self.time.set(self.time.get().entering(stage));
    }

    /// Something has come.
    pub fn note_read(&self) {
        self.time.set(self.time.get().after_read());
    }

    /// Something is to go.
    pub fn begin_write(&self) {
        self.time.set(self.time.get().before_write());
    }

    /// All has gone.
    pub fn note_flush(&self) {
        self.time.set(self.time.get().after_flush());
    }

    /// Its client is waited for. False where it was given up before.
    pub fn begin_wait(&self, now: u64) -> bool {
        let time = self.time.get().waiting(now);
        self.time.set(time);
        self.activity.change(time.activity())
    }

    /// Its client is waited for no longer. False where it was given up before: then nothing more of it is read, written or
    /// answered.
    pub fn end_wait(&self) -> bool {
        self.activity.change(Activity::Busy)
    }

    /// Its event loop gives it a turn.
    pub fn begin_turn(&self) {
        self.has_answered.set(false);
    }

    /// A request is answered in this turn.
    pub fn note_answer(&self) {
        self.has_answered.set(true);
    }

    /// Whether a request was answered in this turn.
    pub fn has_answered(&self) -> bool {
        self.has_answered.get()
    }

    /// A request is answered whose body was not read.
    pub fn note_left_body(&self) {
        self.has_left_body.set(true);
    }

    /// Whether a request was answered whose body was not read.
    pub fn has_left_body(&self) -> bool {
        self.has_left_body.get()
    }
}
