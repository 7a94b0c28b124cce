// Numbers of states.
ghost use Rattle.std.specs.Prelude.{◌≡◌};

use std::marker::Model;

/// The number of a state among those of a room: its place, from 0. A number is of the one table that gave it.
#[derive(Clone, Copy, Debug, PartialEq, Eq, PartialOrd, Ord, Hash)]
pub struct StateNo {
    place: usize,
}

impl Model for StateNo {
    ghost use Rattle.std.specs.Prelude.{ℕ};

    ghost Value = { ℕ };

    ghost view = { λ n. n.place };

    ghost inverse = { λ n. record { place = n } };
}

impl StateNo {
    /// The number of the state at a place.
    pub fn at(place: usize) -> StateNo
        ensures { result ≡ place }
    {
        StateNo { place }
    }

    // Its place.
    pub(crate) fn index(self) -> usize
        ensures { result ≡ self }
    {
        self.place
    }
}
