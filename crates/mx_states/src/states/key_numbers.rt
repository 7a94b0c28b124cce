// Numbers of keys.
ghost use Rattle.std.specs.Prelude.{◌≡◌, ◌<◌, ◌^◌};

use std::marker::Model;

// The number of a key among those of a room's states: its place, from 0. A number is of the one table that gave it.
#[derive(Clone, Copy, Debug, PartialEq, Eq, PartialOrd, Ord)]
pub(crate) struct KeyNo {
    place: u32,
}

impl Model for KeyNo {
    ghost use Rattle.std.specs.Prelude.{ℕ};

    ghost Value = { ℕ };

    ghost view = { λ n. n.place };

    ghost inverse = { λ n. record { place = n } };
}

impl KeyNo {
    // The number of the key at a place.
    pub(crate) fn at(place: u32) -> KeyNo
        ensures { result ≡ place }
    {
        KeyNo { place }
    }

    // Its place.
    pub(crate) fn index(self) -> usize
        ensures index { result ≡ self }
        ensures small { result < 2 ^ 32 }
    {
        self.place as usize
    }
}
