// What is held for clients, as one table of all threads.
ghost use Rattle.std.specs.Prelude.{◌≡◌, ◌+◌, ◌<◌, ◌++◌, ◌∷◌, [], Some, None, IfSome, length, true, false};
ghost use Rattle.std.specs.List.{remove};
ghost use Rattle.mx_http.specs.Memory.{held_bytes, may_hold, closed_first, IsNumberedAt, IsChangedAt};

use crate::guards::ConnectionHandle;
use crate::memory::closing::{Holder, closed_first};
use crate::memory::closings::RoomClosings;
use crate::places::activities::Activity;
use std::alloc::Global;
use std::marker::Model;
use std::sync::Arc;

/// Bytes that are held for the client of a connection.
#[derive(Drop)]
pub struct Holding {
    // Its number, which no other has.
    number: u64,
    bytes: usize,
    // When its reply was made, or when its body began, in milliseconds from the listener's start.
    since: u64,
    waits_for_room: bool,
    connection: Arc<ConnectionHandle>,
}

impl Holding {
    // Since when its client has taken nothing of its reply; of a body, when that began.
    fn unread_since(&self) -> u64 {
        self.since.max(self.connection.unread_since())
    }

    // Whether its connection is asked to make room.
    fn is_asked(&self) -> bool {
        self.connection.is_asked()
    }

    // Whether its connection waits, and is not asked to make room.
    fn waits(&self) -> bool {
        matches!(self.connection.activity(), Activity::SlowSince(_)) && !self.is_asked()
    }

    // What it waits for. One that waits for room is not closed while others go on.
    fn holder(&self, all_await_room: bool) -> Holder {
        if self.waits() && !self.waits_for_room {
            Holder::AwaitsClient(self.unread_since())
        } else if all_await_room {
            Holder::AwaitsRoom(self.since)
        } else {
            Holder::Answered
        }
    }

    // Asks its connection to make room.
    fn ask_for_room(&self) -> bool {
        self.connection.ask_for_room()
    }

    // Nothing is held any more. Whether its connection ends since it was asked to make room.
    fn end_asking(&self) -> bool {
        self.connection.end_asking()
    }
}

/// What is held for clients, and how much may be.
#[derive(Drop)]
pub struct Holdings {
    taken: Vec<Holding>,
    // How many bytes they are together.
    held: usize,
    most: usize,
    // The number of the next one.
    next: u64,
    // How many bytes the longest reply had so far.
    longest: usize,
    closings: RoomClosings,
}

impl Model for Holdings {
    ghost use Rattle.std.specs.Prelude.{List, ℕ, ◌≡◌};
    ghost use Rattle.mx_http.specs.Memory.{held_bytes};
    ghost use Rattle.mx_http.specs.declared.memory.holdings.Holding.{Holding};

    // What is held, and how many bytes may be.
    ghost Value = { List Holding × ℕ };

    ghost view = { λ holdings. (holdings.taken.items, holdings.most) };

    ghost invariant = { λ holdings. holdings.held ≡ held_bytes holdings.taken.items };
}

// Of how many replies each is taken to be as long as its part of the total, until a longer one was made.
const EXPECTED_REPLIES: usize = 16;

impl Holdings {
    /// Nothing is held.
    pub fn new(alloc: Global, most: usize, closings: RoomClosings) -> Holdings
        ensures { result ≡ ([], most) }
    {
        Holdings {
            taken: Vec::new(alloc),
            held: 0,
            most,
            next: 0,
            longest: 0,
            closings,
        }
    }

    /// How many bytes are held.
    pub fn bytes(&self) -> usize
        ensures { result ≡ held_bytes self.now.0 }
    {
        self.held
    }

    /// Whether so many bytes more may be held by who holds `own` of all.
    pub fn may_hold(&self, own: usize, more: usize) -> bool
        ensures { result ≡ may_hold self.now.1 (held_bytes self.now.0) own more }
    {
        self.held <= own || (self.held <= self.most && more <= self.most - self.held)
    }

    /// Holds so many bytes, and tells the number of what holds them. None where no memory is left.
    pub fn add(
        &mut self,
        bytes: usize,
        since: u64,
        connection: Arc<ConnectionHandle>,
    ) -> Option<u64>
        ensures added { IfSome result (λ number. self.new.0 ≡ self.old.0
            ++ record { number = number; bytes = bytes; since = since; waits_for_room = false; connection = connection } ∷ []) }
        ensures same { result ≡ None → self.new.0 ≡ self.old.0 }
        ensures most { self.new.1 ≡ self.old.1 }
    {
        let held = self.held.checked_add(bytes)?;
        let number = self.next;
        let next = number.checked_add(1)?;
        let holding = Holding {
            number,
            bytes,
            since,
            waits_for_room: false,
            connection,
        };
        self.taken.push(holding).ok()?;
        self.held = held;
        self.next = next;
        Some(number)
    }

    // The place of what has this number.
    fn place_of(&self, number: u64) -> Option<usize>
        ensures { IfSome result (λ place. (place < length self.now.0) × IsNumberedAt self.now.0 place number) }
    {
        for place in 0..self.taken.len() {
            if self.taken[place].number == number {
                return Some(place);
            }
        }
        None
    }

    /// How many bytes are held by what has this number.
    pub fn bytes_of(&self, number: u64) -> usize {
        match self.place_of(number) {
            Some(place) => self.taken[place].bytes,
            None => 0,
        }
    }

    /// What has this number holds so many bytes from now on, of a reply that was made or a body that began then; its place
    /// is told. None where there is no such one.
    pub fn change(&mut self, number: u64, bytes: usize, since: u64) -> Option<usize>
        ensures changed { IfSome result (λ place. IsChangedAt self.old.0 place number bytes since self.new.0) }
        ensures same { result ≡ None → self.new.0 ≡ self.old.0 }
        ensures most { self.new.1 ≡ self.old.1 }
    {
        let place = self.place_of(number)?;
        let rest = self.held - self.taken[place].bytes;
        let held = rest.checked_add(bytes)?;
        let holding = &mut self.taken[place];
        holding.bytes = bytes;
        holding.since = since;
        holding.waits_for_room = false;
        self.held = held;
        Some(place)
    }

    /// What has this number waits for room.
    pub fn note_waiting(&mut self, number: u64)
        ensures bytes { held_bytes self.new.0 ≡ held_bytes self.old.0 }
        ensures most { self.new.1 ≡ self.old.1 }
    {
        if let Some(place) = self.place_of(number) {
            self.taken[place].waits_for_room = true;
        }
    }

    /// Takes out what has this number, and tells its place.
    pub fn remove(&mut self, number: u64) -> Option<usize>
        ensures removed { IfSome result (λ place. IsNumberedAt self.old.0 place number × (self.new.0 ≡ remove self.old.0 place)) }
        ensures same { result ≡ None → self.new.0 ≡ self.old.0 }
        ensures most { self.new.1 ≡ self.old.1 }
    {
        let place = self.place_of(number)?;
        let holding = self.taken.remove(place);
        self.held -= holding.bytes;
        if holding.end_asking() {
            self.closings.note();
        }
        Some(place)
    }

    /// Asks a connection to make room where there is none for so many bytes more, those that were asked left out: the one
    /// that is closed first of those that have waited since `latest`. Its place is told.
    pub fn ask_first(&self, alloc: Global, latest: u64, more: usize) -> Option<usize> {
        let staying = self.held.saturating_sub(self.asked_bytes());
        if staying <= self.most && more <= self.most - staying {
            return None;
        }
        let holders = self.holders(alloc)?;
        self.ask_longest(latest, holders.as_slice())
    }

    // How many bytes are held by connections that were asked to make room.
    fn asked_bytes(&self) -> usize {
        let mut bytes = 0usize;
        for holding in &self.taken {
            if holding.is_asked() {
                bytes = bytes.saturating_add(holding.bytes);
            }
        }
        bytes
    }

    // What each waits for now. None where no memory is left.
    fn holders(&self, alloc: Global) -> Option<Vec<Holder>> {
        let all_await_room = self.all_await_room();
        let mut holders = Vec::new(alloc);
        for holding in &self.taken {
            holders.push(holding.holder(all_await_room)).ok()?;
        }
        Some(holders)
    }

    // Whether all wait for room, so that none goes on by itself.
    fn all_await_room(&self) -> bool {
        for holding in &self.taken {
            if !holding.waits_for_room || !holding.waits() {
                return false;
            }
        }
        true
    }

    // Of holders that were seen to wait so, asks the one that is closed first, and tells its place.
    fn ask_longest(&self, latest: u64, holders: &[Holder]) -> Option<usize>
        ensures { IfSome result (λ place. closed_first latest holders.now ≡ Some place) }
    {
        let place = closed_first(latest, holders)?;
        if self.taken.get(place)?.ask_for_room() {
            return Some(place);
        }
        None
    }

    /// A reply of so many bytes was made.
    pub fn note_reply(&mut self, bytes: usize)
        ensures { self.new ≡ self.old }
    {
        self.longest = self.longest.max(bytes);
    }

    /// How many bytes a reply is taken to have until it is made: as many as the longest so far, and at least a sixteenth of
    /// the total.
    pub fn expected_reply(&self) -> usize {
        self.longest.max(self.most / EXPECTED_REPLIES)
    }
}
