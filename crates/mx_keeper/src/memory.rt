// Rows in memory.
ghost use Rattle.std.specs.Prelude.{◌≡◌, [], Some, ⊤, IfOk};

use crate::faults::KeeperFault;
use crate::keepers::Keeper;
use crate::storing::Storable;
use std::alloc::{AllocError, Global};
use std::marker::Model;

/// Rows in memory, which are there as long as the keeper is.
///
/// It is always open, honest and ready, it never fails but for want of memory, and what is left of it is always its
/// rows.
#[derive(Debug, Drop)]
pub struct MemoryKeeper<R: Storable> {
    alloc: Global,
    kept: Vec<R>,
}

impl<R: Storable> Model for MemoryKeeper<R> {
    ghost use Rattle.std.specs.Prelude.{List};

    ghost Value = { List R };

    ghost view = { λ keeper. keeper.kept.items };
}

impl<R: Storable> MemoryKeeper<R> {
    /// A keeper with no rows.
    pub fn new(alloc: Global) -> MemoryKeeper<R>
        ensures { result ≡ [] }
    {
        MemoryKeeper {
            alloc,
            kept: Vec::new(alloc),
        }
    }
}

impl<R: Storable> Keeper for MemoryKeeper<R> {
    ghost use Rattle.std.specs.Prelude.{◌≡◌, Some, ⊤};

    type Row = R;

    ghost rows = { λ keeper. Some keeper };

    ghost is_open = { λ _. ⊤ };

    ghost is_honest = { λ _. ⊤ };

    ghost may_leave = { λ keeper left. left ≡ Some keeper };

    ghost failed = { λ _. 0 };

    ghost unsure = { λ _. 0 };

    ghost is_ready = { λ _. ⊤ };

    ghost may_refuse = { λ _ _ _. ⊥ };

    fn append(&mut self, row: &R) -> Result<(), KeeperFault> {
        self.kept.push(row.copy()?)?;
        Ok(())
    }

    fn rows(&mut self) -> Result<Vec<R>, KeeperFault> {
        let copies = copies_of(self.alloc, &self.kept)?;
        Ok(copies)
    }

    fn failures(&self) -> u64 {
        0
    }

    ghost settled = { λ _ _ _ _ is. is };
}

fn copies_of<R: Storable>(alloc: Global, rows: &[R]) -> Result<Vec<R>, AllocError>
    ensures { IfOk result (λ copies. copies.items ≡ rows.now) }
{
    let mut copies = Vec::new(alloc);
    for row in rows {
        let copy = row.copy()?;
        copies.push(copy)?;
    }
    Ok(copies)
}
