// Which of several keepers has which rows.
ghost use Rattle.std.specs.Prelude.{◌≡◌, ◌<◌, ◌≤◌};
ghost use Rattle.mx_keeper.specs.Places.{place_number, is_at};

use std::marker::Model;

/// The most shards of a server, and the most books.
pub const MOST_PLACES: usize = 64;

/// A place among the shards of a server, or among its books: its number, counted from 0, and how many there are.
///
/// A room is kept at the place of its id, and the transactions of a server at the place of its name.
#[derive(Clone, Copy, Debug, PartialEq, Eq)]
pub struct Place {
    number: usize,
    count: usize,
}

impl Model for Place {
    ghost use Rattle.std.specs.Prelude.{◌<◌, ◌≤◌};
    ghost use Rattle.mx_keeper.specs.Places.{PlaceView};

    ghost Value = { PlaceView };

    ghost view = { λ place. record { number = place.number; count = place.count } };

    ghost invariant = { λ place. (place.number < place.count) × (place.count ≤ 64) };

    ghost inverse = { λ place. record { number = place.number; count = place.count } };
}

impl Place {
    /// The place with this number among so many.
    pub fn new(number: usize, count: usize) -> Place
        requires within { number < count }
        requires few { count ≤ MOST_PLACES }
        ensures number { result.number ≡ number }
        ensures count { result.count ≡ count }
    {
        Place { number, count }
    }

    /// The place of what has this name, among so many: the sum of the name's bytes, modulo their count. The time is
    /// linear in the name.
    pub fn of(name: &str, count: usize) -> Place
        requires some { 0 < count }
        requires few { count ≤ MOST_PLACES }
        ensures number { result.number ≡ place_number count name.now }
        ensures count { result.count ≡ count }
    {
        let bytes = name.as_bytes();
        Place {
            number: number_for(bytes, count),
            count,
        }
    }

    /// Its number, counted from 0.
    pub fn number(&self) -> usize
        ensures number { result ≡ self.now.number }
        ensures within { result < self.now.count }
    {
        self.number
    }

    /// How many places there are, at most [`MOST_PLACES`].
    pub fn count(&self) -> usize
        ensures count { result ≡ self.now.count }
        ensures few { result ≤ MOST_PLACES }
    {
        self.count
    }

    /// Whether what has this name is kept here: the sum of the name's bytes, modulo the count of places, is the number
    /// of this one. The time is linear in the name.
    pub fn has(&self, name: &str) -> bool
        ensures { result ≡ is_at self.now name.now }
    {
        number_for(name.as_bytes(), self.count) == self.number
    }
}

// The number of the place of what has this name.
fn number_for(name: &[u8], count: usize) -> usize
    requires some { 0 < count }
    requires few { count ≤ MOST_PLACES }
    ensures { result ≡ place_number count name.now }
{
    let mut number = 0;
    for byte in name {
        number = (number + *byte as usize) % count;
    }
    number
}
