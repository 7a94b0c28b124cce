// A keeper that fails once.
ghost use Rattle.std.specs.Prelude.{◌≡◌, ◌↔◌, None, Some, true};
ghost use Rattle.mx_keeper.specs.FaultKeepers.{left_after};

use crate::faults::KeeperFault;
use crate::keepers::Keeper;
use std::marker::Model;

/// A keeper around another, for tests of what stands over keepers: it passes so many calls on, fails at the next, and
/// from then on passes calls on again.
///
/// The call at which it fails is answered `Store` and is not passed on, so that the rows stay.
#[derive(Drop)]
pub struct FaultKeeper<K: Keeper> {
    keeper: K,
    // How many more calls are passed on before it fails; none where it has failed.
    left: Option<u64>,
}

impl<K: Keeper> Model for FaultKeeper<K> {
    ghost use Rattle.mx_keeper.specs.FaultKeepers.{FaultView, fault_code};

    ghost Value = { FaultView K };

    ghost coded = { fault_code K.code };

    ghost view = { λ keeper. record { keeper = keeper.keeper; left = keeper.left } };
}

impl<K: Keeper> FaultKeeper<K> {
    /// A keeper around this one, which passes so many calls on before it fails.
    pub fn new(keeper: K, calls: u64) -> FaultKeeper<K>
        ensures { result ≡ record { keeper = keeper; left = Some calls } }
    {
        FaultKeeper {
            keeper,
            left: Some(calls),
        }
    }

    /// The keeper within.
    pub fn into_keeper(self) -> K
        ensures { result ≡ self.keeper }
    {
        let FaultKeeper { keeper, left: _ } = self;
        keeper
    }
}

// Counts one call more, and tells whether it is the one to fail.
fn fails(left: &mut Option<u64>) -> bool
    ensures fails { (result ≡ true) ↔ (left.old ≡ Some 0) }
    ensures left { left.new ≡ left_after left.old }
{
    match *left {
        Some(0) => {
            *left = None;
            true
        }
        Some(calls) => {
            *left = Some(calls - 1);
            false
        }
        None => false,
    }
}

impl<K: Keeper> Keeper for FaultKeeper<K> {
    ghost use Rattle.std.specs.Prelude.{◌≡◌, ◌≢◌, ◌⊎◌, Some};
    ghost use Rattle.mx_keeper.specs.FaultKeepers.{failures_of};

    type Row = K::Row;

    ghost rows = { λ keeper. K.rows keeper.keeper };

    ghost is_open = { λ keeper. K.is_open keeper.keeper };

    ghost is_honest = { λ keeper. K.is_honest keeper.keeper };

    ghost may_leave = { λ keeper left. K.may_leave keeper.keeper left };

    ghost failed = { λ keeper. failures_of (K.failed keeper.keeper) keeper.left };

    ghost unsure = { λ keeper. K.unsure keeper.keeper };

    ghost is_ready = { λ keeper. K.is_ready keeper.keeper × (keeper.left ≢ Some 0) };

    ghost may_refuse = { λ old row new. (old.left ≡ Some 0) ⊎ K.may_refuse old.keeper row new.keeper };

    fn append(&mut self, row: &K::Row) -> Result<(), KeeperFault> {
        if fails(&mut self.left) {
            return Err(KeeperFault::Store);
        }
        self.keeper.append(row)
    }

    fn rows(&mut self) -> Result<Vec<K::Row>, KeeperFault> {
        if fails(&mut self.left) {
            return Err(KeeperFault::Store);
        }
        self.keeper.rows()
    }

    fn failures(&self) -> u64 {
        let failures = self.keeper.failures();
        match self.left {
            Some(_) => failures,
            None => failures.saturating_add(1),
        }
    }

    ghost settled = { λ keeper left honest live may. K.settled keeper.keeper left honest live may };
}
