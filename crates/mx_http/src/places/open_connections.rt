// The connections that are open.
ghost use Rattle.std.specs.Prelude.{◌≡◌, ◌+◌, ◌≤◌, ◌<◌, ◌↔◌, ◌++◌, ◌∷◌, [], Some, None, IfSome, IsTrue, false, true, length};
ghost use Rattle.std.specs.List.{remove};
ghost use Rattle.mx_http.specs.Figures.{counted};
ghost use Rattle.mx_http.specs.Places.{gives_way};

use crate::guards::{ConnectionHandle, LeavingConnection};
use crate::places::activities::Activity;
use crate::places::connection_figures::ConnectionFigures;
use crate::places::giving_way::gives_way;
use std::alloc::Global;
use std::marker::Model;
use std::mem;

/// A connection that is open, and the number of the worker that serves it.
#[derive(Drop)]
pub struct OpenConnection {
    handle: ConnectionHandle,
    worker: usize,
}

/// The connections that may still serve a request, in the order in which they came: at most so many. Those that were given
/// up are not among them; of these at most as many may have yet to be closed by who serves them.
#[derive(Drop)]
pub struct OpenConnections {
    taken: Vec<OpenConnection>,
    leaving: Vec<LeavingConnection>,
    most: usize,
}

impl Model for OpenConnections {
    ghost use Rattle.std.specs.Prelude.{List, ℕ, ◌≤◌, length};
    ghost use Rattle.mx_http.specs.declared.places.open_connections.OpenConnection.{OpenConnection};

    // Those that are open, and how many may be.
    ghost Value = { List OpenConnection × ℕ };

    ghost view = { λ connections. (connections.taken.items, connections.most) };

    ghost invariant = { λ connections. length connections.taken.items ≤ connections.most };
}

impl OpenConnections {
    /// None is open.
    pub fn new(alloc: Global, most: usize) -> OpenConnections
        ensures { result ≡ ([], most) }
    {
        OpenConnections {
            taken: Vec::new(alloc),
            leaving: Vec::new(alloc),
            most,
        }
    }

    /// Leaves out those that are closed.
    pub fn forget_closed(&mut self)
        ensures fewer { length self.new.0 ≤ length self.old.0 }
        ensures most { self.new.1 ≡ self.old.1 }
    {
        self.taken.retain(|connection| connection.handle.is_open());
        self.leaving.retain(|connection| connection.is_open());
    }

    /// Makes room where as many are open as may be: one that waits for its client is given up, and its place told. None
    /// where there is room, where none waits for its client, and where too many have yet to be closed.
    pub fn make_room(&mut self, alloc: Global) -> Option<usize>
        ensures none { length self.old.0 < self.old.1 → result ≡ None }
        ensures one { IfSome result (λ place. self.new.0 ≡ remove self.old.0 place) }
        ensures fewer { IfSome result (λ _. length self.new.0 + 1 ≡ length self.old.0) }
        ensures same { result ≡ None → self.new.0 ≡ self.old.0 }
        ensures most { self.new.1 ≡ self.old.1 }
    {
        if self.has_room() || self.leaving.len() >= self.most {
            return None;
        }
        let activities = self.seen_activities(alloc)?;
        self.give_up_longest(activities.as_slice())
    }

    // What each does now. None where no memory is left.
    fn seen_activities(&self, alloc: Global) -> Option<Vec<Activity>> {
        let mut activities = Vec::new(alloc);
        for connection in &self.taken {
            activities.push(connection.handle.activity()).ok()?;
        }
        Some(activities)
    }

    // Of connections that were seen to do so, gives up the one that gives way, where it still waits, and tells its place.
    fn give_up_longest(&mut self, activities: &[Activity]) -> Option<usize>
        ensures longest { IfSome result (λ place. gives_way activities.now ≡ Some place) }
        ensures one { IfSome result (λ place. self.new.0 ≡ remove self.old.0 place) }
        ensures fewer { IfSome result (λ _. length self.new.0 + 1 ≡ length self.old.0) }
        ensures same { result ≡ None → self.new.0 ≡ self.old.0 }
        ensures most { self.new.1 ≡ self.old.1 }
    {
        let place = gives_way(activities)?;
        let connection = self.taken.get(place)?;
        let activity = activities.get(place)?;
        if !connection.handle.give_up(*activity) {
            return None;
        }
        let OpenConnection { handle, .. } = self.taken.remove(place);
        let _ = self.leaving.push(handle.close());
        Some(place)
    }

    /// Whether one more may be open.
    pub fn has_room(&self) -> bool
        ensures { IsTrue result ↔ (length self.now.0 < self.now.1) }
    {
        self.taken.len() < self.most
    }

    /// Takes in a connection that a worker serves, behind the others, and tells whether it is open now. It is not where as
    /// many are open as may be, or no memory is left.
    pub fn add(&mut self, handle: ConnectionHandle, worker: usize) -> bool
        ensures open { result ≡ true → self.new.0 ≡ self.old.0 ++ record { handle = handle; worker = worker } ∷ [] }
        ensures closed { result ≡ false → self.new.0 ≡ self.old.0 }
        ensures most { self.new.1 ≡ self.old.1 }
    {
        self.taken.len() < self.most && self.taken.push(OpenConnection { handle, worker }).is_ok()
    }

    /// Tells all to end once they are idle.
    pub fn close_all(&mut self, alloc: Global)
        ensures none { self.new.0 ≡ [] }
        ensures most { self.new.1 ≡ self.old.1 }
    {
        let taken = mem::replace(&mut self.taken, Vec::new(alloc));
        for connection in taken {
            let OpenConnection { handle, .. } = connection;
            let _ = handle.close();
        }
    }

    /// What those do that are not closed yet. So many bytes are held for their clients.
    pub fn figures(&self, held_bytes: u64) -> ConnectionFigures
        ensures open { counted result ≤ length self.now.0 }
        ensures held { result.held_bytes ≡ held_bytes }
    {
        let mut figures = ConnectionFigures::no_connection(held_bytes);
        for connection in &self.taken {
            if connection.handle.is_open() {
                figures = figures.with_one(connection.handle.activity());
            }
        }
        figures
    }

    /// How many a worker serves.
    pub fn count_at(&self, worker: usize) -> usize {
        let mut count = 0usize;
        for connection in &self.taken {
            if connection.worker == worker {
                count = count.saturating_add(1);
            }
        }
        count
    }
}
