// What a server counts.
ghost use Rattle.std.specs.Prelude.{◌≡◌, ◌*◌, ◌+◌, ◌<◌, IfOk, replicate};
ghost use Rattle.mx_metrics.specs.Counts as counting;
ghost use Rattle.mx_metrics.specs.Labels.{reply_place, result_number};
ghost use Rattle.mx_metrics.specs.Latencies.{range_of};

use crate::counts::Counts;
use crate::labels::{EventResult, RouteLabel, StatusLabel};
use crate::latencies::Latencies;
use std::alloc::{AllocError, Global};

// How many kinds of replies there are: ten routes by ten statuses.
const REPLIES: usize = 100;

/// What a server, or one thread of it, has done: how many replies of each route and status it gave, how long they took, and what
/// became of how many events.
#[derive(Debug, Drop)]
pub struct ServerCounts {
    pub replies: Counts,
    pub latencies: Latencies,
    pub events: Counts,
}

impl ServerCounts {
    /// Nothing yet. `AllocError` where no memory is left.
    pub fn new(alloc: Global) -> Result<ServerCounts, AllocError>
        ensures replies { IfOk result (λ new. new.replies ≡ replicate REPLIES 0) }
        ensures events { IfOk result (λ new. new.events ≡ replicate 8 0) }
    {
        let replies = Counts::new(alloc, REPLIES)?;
        let latencies = Latencies::new(alloc)?;
        let events = Counts::new(alloc, EventResult::ALL.len())?;
        Ok(ServerCounts {
            replies,
            latencies,
            events,
        })
    }

    /// A request on this route was given a reply of this status, after so many microseconds.
    pub fn note_reply(&mut self, route: RouteLabel, status: StatusLabel, microseconds: u64)
        ensures replies { self.new.replies ≡ counting.raised self.old.replies (reply_place route status) 1 }
        ensures times { self.new.latencies.counts ≡ counting.raised self.old.latencies.counts (range_of microseconds) 1 }
        ensures time { self.new.latencies.microseconds ≡ counting.sum_up_to_most self.old.latencies.microseconds microseconds }
        ensures events { self.new.events ≡ self.old.events }
    {
        self.replies.raise(place_of(route, status), 1);
        self.latencies.note(microseconds);
    }

    /// This became of an event.
    pub fn note_event(&mut self, became: EventResult)
        ensures events { self.new.events ≡ counting.raised self.old.events (result_number became) 1 }
        ensures replies { self.new.replies ≡ self.old.replies }
        ensures latencies { self.new.latencies ≡ self.old.latencies }
    {
        self.events.raise(became.number(), 1);
    }

    /// Adds all that others counted.
    pub fn add(&mut self, others: &ServerCounts)
        ensures replies { self.new.replies ≡ counting.added self.old.replies others.now.replies }
        ensures times { self.new.latencies.counts ≡ counting.added self.old.latencies.counts others.now.latencies.counts }
        ensures time { self.new.latencies.microseconds ≡ counting.sum_up_to_most self.old.latencies.microseconds others.now.latencies.microseconds }
        ensures events { self.new.events ≡ counting.added self.old.events others.now.events }
    {
        self.replies.add(&others.replies);
        self.latencies.add(&others.latencies);
        self.events.add(&others.events);
    }
}

/// Where replies of a route and status are counted.
pub(crate) fn place_of(route: RouteLabel, status: StatusLabel) -> usize
    ensures { result ≡ reply_place route status }
{
    route.number() * 10 + status.number()
}
