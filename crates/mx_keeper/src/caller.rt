// The numbers of callers.
ghost use Rattle.std.specs.Prelude.{◌≡◌, ◌<◌, ◌^◌};

use std::marker::Model;

/// The number of a caller, as of a seat of a server that several share: who brought an event or began a transaction.
///
/// Any number fits an INTEGER column of SQLite, so that it is stored with the row.
#[derive(Clone, Copy, Debug, PartialEq, Eq)]
pub struct Caller {
    number: u32,
}

impl Model for Caller {
    ghost use Rattle.std.specs.Prelude.{ℕ, ◌<◌, ◌^◌};

    ghost Value = { ℕ };

    ghost view = { λ caller. caller.number };

    ghost invariant = { λ caller. caller.number < 2 ^ 32 };

    ghost inverse = { λ number. record { number = number } };
}

impl Caller {
    /// The caller with this number.
    pub fn new(number: u32) -> Caller
        ensures value { result ≡ number }
        ensures within { result < 2 ^ 32 }
    {
        Caller { number }
    }

    /// Its number.
    pub fn number(self) -> u32
        ensures value { result ≡ self }
        ensures within { self < 2 ^ 32 }
    {
        self.number
    }
}
