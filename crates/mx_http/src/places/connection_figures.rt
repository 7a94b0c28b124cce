// What the connections of a listener do, and how much is held for their clients, to who tells of it.
ghost use Rattle.std.specs.Prelude.{◌≡◌, ◌+◌, ◌≤◌};
ghost use Rattle.mx_http.specs.Figures.{no_connection, with_one, counted};

use crate::memory::MemoryBudget;
use crate::places::activities::Activity;
use crate::places::open_connections::OpenConnections;
use std::alloc::{AllocError, Global};
use std::sync::{Arc, Mutex, Wait};

/// What the connections of a listener do, and how much is held for their clients.
#[derive(Clone, Copy, Debug, PartialEq, Eq)]
pub struct ConnectionFigures {
    // How many wait for a request to begin.
    pub idle: u64,
    // Of how many the rest of a request, or the reading of a reply, is waited for.
    pub slow: u64,
    // How many wait for nothing of their client's: their requests wait for an answer, or are answered.
    pub busy: u64,
    // How many bytes are held of bodies that come and of replies that go, as the limit counts them.
    pub held_bytes: u64,
}

impl ConnectionFigures {
    // No connection is open, and so many bytes are held.
    pub(crate) fn no_connection(held_bytes: u64) -> ConnectionFigures
        ensures { result ≡ no_connection held_bytes }
    {
        ConnectionFigures {
            idle: 0,
            slow: 0,
            busy: 0,
            held_bytes,
        }
    }

    // With one connection more, which does this. One that was given up is not counted.
    pub(crate) fn with_one(self, activity: Activity) -> ConnectionFigures
        ensures counts { result ≡ with_one activity self }
        ensures at_most_one { counted result ≤ counted self + 1 }
        ensures held { result.held_bytes ≡ self.held_bytes }
    {
        let mut figures = self;
        match activity {
            Activity::IdleSince(_) => figures.idle = figures.idle.saturating_add(1),
            Activity::SlowSince(_) => figures.slow = figures.slow.saturating_add(1),
            Activity::Busy => figures.busy = figures.busy.saturating_add(1),
            Activity::GivenUp => {}
        }
        figures
    }
}

/// The connections of a listener and what is held for their clients, to who asks for their figures: one or several threads,
/// at any time.
#[derive(Drop)]
pub struct ConnectionWatch {
    connections: Arc<Mutex<OpenConnections>>,
    budget: Arc<MemoryBudget>,
}

impl ConnectionWatch {
    // No connection is open, of at most so many.
    pub(crate) fn new(
        alloc: Global,
        most: usize,
        budget: Arc<MemoryBudget>,
    ) -> Result<ConnectionWatch, AllocError> {
        let connections = Mutex::new(OpenConnections::new(alloc, most));
        Ok(ConnectionWatch {
            connections: Arc::new(alloc, connections)?,
            budget,
        })
    }

    /// The same, to somebody else.
    pub fn another(&self) -> Result<ConnectionWatch, AllocError> {
        Ok(ConnectionWatch {
            connections: Arc::try_clone(&self.connections)?,
            budget: Arc::try_clone(&self.budget)?,
        })
    }

    // The connections, to who takes them in.
    pub(crate) fn into_connections(self) -> Arc<Mutex<OpenConnections>> {
        self.connections
    }

    /// What they do now. It waits for no event loop and for no write: who takes connections in, and what holds bytes, keeps
    /// the lists only for moments. One that was told to end is not counted: it was closed for a new one, or the listener
    /// ends.
    pub fn figures<R: Wait>(&self, rt: &R) -> ConnectionFigures {
        let held_bytes = self.budget.held_bytes();
        self.connections.lock(rt).figures(held_bytes)
    }
}
