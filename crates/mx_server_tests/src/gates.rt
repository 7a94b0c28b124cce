// A gate at which two callers meet inside an engine.
use mx_engine::Gate;
use std::sync::atomic::{AtomicBool, Ordering};
use std::sync::{Arc, Wait};
use std::thread;

// How long a caller is held: so many turns.
const MOST_TURNS: u32 = 100_000;

// How often a turn gives way to the other threads: so often that who waits for a thread which another program's work holds
// up, as on a busy machine, does not give it up.
const YIELDS_A_TURN: u32 = 1_000;

// Two callers that meet in the engine, where they are asked to: the first one is held inside the first shard until the
// second one is answered, and the second one sends nothing before the first one is held. Or two calls of one transaction
// meet: each is held inside its shard until the other one is inside another shard. Whether one waited for too long.
#[derive(Drop)]
pub struct Meeting {
    is_asked: AtomicBool,
    is_asked_of_calls: AtomicBool,
    // Whether the first caller, or a call, is inside the first shard.
    is_first_inside: AtomicBool,
    // Whether the second caller is answered, or a call is inside another shard.
    has_other_come: AtomicBool,
    is_given_up: AtomicBool,
}

impl Meeting {
    pub fn new() -> Meeting {
        Meeting {
            is_asked: AtomicBool::new(false),
            is_asked_of_calls: AtomicBool::new(false),
            is_first_inside: AtomicBool::new(false),
            has_other_come: AtomicBool::new(false),
            is_given_up: AtomicBool::new(false),
        }
    }

    // From now on they are to meet.
    pub fn ask(&self) {
        self.is_asked.store(true, Ordering::SeqCst);
    }

    // From now on two calls of one transaction are to meet.
    pub fn ask_calls(&self) {
        self.is_asked_of_calls.store(true, Ordering::SeqCst);
    }

    pub fn is_given_up(&self) -> bool {
        self.is_given_up.load(Ordering::SeqCst)
    }

    // A call is inside the first shard, as of the first caller.
    fn enter_first(&self) {
        if self.is_asked.load(Ordering::SeqCst) || self.is_asked_of_calls.load(Ordering::SeqCst) {
            self.is_first_inside.store(true, Ordering::SeqCst);
            self.wait_for(&self.has_other_come);
        }
    }

    // A call is inside another shard.
    fn enter_other(&self) {
        if self.is_asked_of_calls.load(Ordering::SeqCst) {
            self.has_other_come.store(true, Ordering::SeqCst);
            self.wait_for(&self.is_first_inside);
        }
    }

    // The caller at this place is about to send.
    pub fn before(&self, place: usize) {
        if place != 0 && self.is_asked.load(Ordering::SeqCst) {
            self.wait_for(&self.is_first_inside);
        }
    }

    // The caller at this place is answered. That of a turn before they are to meet does not count: the first caller is
    // to be held until the second one is answered while the first one is held.
    pub fn after(&self, place: usize) {
        if place != 0 && self.is_asked.load(Ordering::SeqCst) {
            self.has_other_come.store(true, Ordering::SeqCst);
        }
    }

    // Waits until it is so, or for too long.
    fn wait_for(&self, is_so: &AtomicBool) {
        for _ in 0..MOST_TURNS {
            if is_so.load(Ordering::SeqCst) {
                return;
            }
            give_way();
        }
        self.is_given_up.store(true, Ordering::SeqCst);
    }
}

// A turn of the other threads.
fn give_way() {
    for _ in 0..YIELDS_A_TURN {
        thread::yield_now();
    }
}

// A gate that holds who is inside a shard, where they are to meet.
#[derive(Drop)]
pub struct MeetingGate {
    pub meeting: Arc<Meeting>,
}

impl Gate for MeetingGate {
    fn inside<R: Wait>(&self, _rt: &R, shard: usize) {
        if shard == 0 {
            self.meeting.enter_first();
        } else {
            self.meeting.enter_other();
        }
    }
}
