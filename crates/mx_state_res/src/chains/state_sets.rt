// Sets of states.
ghost use Rattle.std.specs.Prelude.{◌≡◌, ◌≤◌, ◌<◌, ◌-◌, ◌^◌, ◌==◌, bit_or};

use std::marker::Model;

/// The most states of a set.
pub(crate) const MOST_STATES: usize = 64;

/// Some of at most 64 states, each by its place.
#[derive(Clone, Copy, Debug, PartialEq, Eq)]
pub(crate) struct StateSet {
    bits: u64,
}

impl Model for StateSet {
    ghost use Rattle.std.specs.Prelude.{ℕ};

    ghost Value = { ℕ };

    ghost view = { λ s. s.bits };

    ghost inverse = { λ n. record { bits = n } };
}

impl StateSet {
    /// No state.
    pub(crate) fn none() -> StateSet
        ensures { result ≡ 0 }
    {
        StateSet { bits: 0 }
    }

    /// One state.
    pub(crate) fn only(state: usize) -> StateSet
        requires { state < 64 }
        ensures { result ≡ 2 ^ state }
    {
        StateSet { bits: 1 << state }
    }

    /// The first of all states, so many.
    pub(crate) fn every(states: usize) -> StateSet
        requires { states ≤ 64 }
        ensures { result ≡ 2 ^ states - 1 }
    {
        if states == 0 {
            return StateSet::none();
        }
        StateSet {
            bits: u64::MAX >> (64 - states),
        }
    }

    /// The states of another set too.
    pub(crate) fn with(self, other: StateSet) -> StateSet
        ensures { result ≡ bit_or self other }
    {
        StateSet {
            bits: self.bits | other.bits,
        }
    }

    /// Whether it has no state.
    pub(crate) fn is_empty(self) -> bool
        ensures { result ≡ (self == 0) }
    {
        self.bits == 0
    }
}
