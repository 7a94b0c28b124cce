// What open connections do, as far as it tells which of them gives way to a new one.
ghost use Rattle.std.specs.Prelude.{◌≡◌, ◌+◌, ◌<◌, ◌≤◌, ℕ};
ghost use Rattle.mx_http.specs.Places.{since};
ghost use Rattle.mx_http.specs.declared.places.activities.Activity.TheVariants.{IdleSince, SlowSince, Busy, GivenUp};
ghost use Rattle.mx_http.specs.declared.places.activities.TheConstants.{SLOW_FROM, LATEST, GIVEN_UP, BUSY};

// The number of the first moment since which a connection may be slow; smaller numbers are moments since which one is idle.
const SLOW_FROM: u64 = 1 << 63;
// The last moment that has a number.
const LATEST: u64 = (1 << 63) - 3;

const GIVEN_UP: u64 = u64::MAX - 1;

const BUSY: u64 = u64::MAX;

/// What a connection waits for that waits for its client.
#[derive(Clone, Copy)]
pub enum Waiting {
    // That a request begins.
    Idle,
    // The rest of a request, or that its client reads a reply.
    Slow,
}

/// What an open connection does. Moments are milliseconds from the listener's start.
#[derive(Clone, Copy)]
pub enum Activity {
    // It has waited since this moment for a request to begin.
    IdleSince(u64),
    // It has waited since this moment for the rest of a request, or for its client to read a reply.
    SlowSince(u64),
    // It waits for nothing of its client's.
    Busy,
    // It serves no request any more.
    GivenUp,
}

impl Activity {
    /// Since when it waits so for its client.
    pub fn since(self, waiting: Waiting) -> Option<u64>
        ensures { result ≡ since waiting self }
    {
        match (self, waiting) {
            (Activity::IdleSince(moment), Waiting::Idle)
            | (Activity::SlowSince(moment), Waiting::Slow) => Some(moment),
            _ => None,
        }
    }

    /// Its number, which no other activity has. A moment past the last is as the last.
    pub fn number(self) -> u64
        ensures idle { (moment : ℕ) → moment ≤ LATEST → self ≡ IdleSince moment → result ≡ moment }
        ensures slow { (moment : ℕ) → moment ≤ LATEST → self ≡ SlowSince moment → result ≡ SLOW_FROM + moment }
        ensures busy { self ≡ Busy → result ≡ BUSY }
        ensures given_up { self ≡ GivenUp → result ≡ GIVEN_UP }
    {
        match self {
            Activity::IdleSince(moment) => moment.min(LATEST),
            Activity::SlowSince(moment) => SLOW_FROM + moment.min(LATEST),
            Activity::Busy => BUSY,
            Activity::GivenUp => GIVEN_UP,
        }
    }

    /// The activity with this number.
    pub fn of_number(number: u64) -> Activity
        ensures idle { number < SLOW_FROM → result ≡ IdleSince number }
        ensures slow { (moment : ℕ) → moment ≤ LATEST → number ≡ SLOW_FROM + moment → result ≡ SlowSince moment }
        ensures busy { number ≡ BUSY → result ≡ Busy }
        ensures given_up { number ≡ GIVEN_UP → result ≡ GivenUp }
    {
        if number == BUSY {
            Activity::Busy
        } else if number == GIVEN_UP {
            Activity::GivenUp
        } else if number < SLOW_FROM {
            Activity::IdleSince(number)
        } else {
            Activity::SlowSince(number - SLOW_FROM)
        }
    }
}
