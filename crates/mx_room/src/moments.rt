// Moments of time.
ghost use Rattle.std.specs.Prelude.{◌≡◌, ◌≤◌, IfNone, IfSome, nat_lt, IsTrue, ℕ};
ghost use Rattle.mx_room.specs.declared.moments.TheConstants.{LATEST_MILLISECONDS};

use std::marker::Model;

/// The latest moment, in milliseconds since 1970: 2^53 - 1, the greatest number of canonical JSON.
pub const LATEST_MILLISECONDS: u64 = 9_007_199_254_740_991;

/// A moment, in whole milliseconds since 1970, up to [`LATEST_MILLISECONDS`].
///
/// Source: the Matrix specification, appendices, "Timestamps", and "Canonical JSON" for the greatest one.
#[derive(Clone, Copy, Debug, PartialEq, Eq)]
pub struct Moment {
    milliseconds: u64,
}

impl Model for Moment {
    ghost Value = { ℕ };

    ghost view = { λ moment. moment.milliseconds };

    ghost invariant = { λ moment. moment.milliseconds ≤ LATEST_MILLISECONDS };

    ghost inverse = { λ n. record { milliseconds = n } };
}

impl Moment {
    /// The moment that is so many milliseconds after the beginning of 1970; none where that is later than the latest.
    pub fn at(milliseconds: u64) -> Option<Moment>
        ensures moment { IfSome result (λ moment. moment ≡ milliseconds) }
        ensures late { IfNone result (IsTrue (nat_lt LATEST_MILLISECONDS milliseconds)) }
    {
        if milliseconds <= LATEST_MILLISECONDS {
            Some(Moment { milliseconds })
        } else {
            None
        }
    }

    /// How many milliseconds it is after the beginning of 1970.
    pub fn milliseconds(self) -> u64
        ensures same { result ≡ self }
        ensures few { result ≤ LATEST_MILLISECONDS }
    {
        self.milliseconds
    }
}
