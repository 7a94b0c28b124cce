// A keeper for which memory runs out once.
use mx_keeper::{Keeper, KeeperFault, MemoryKeeper, ShardRow};
use std::alloc::Global;

// Rows in memory. So many are added, for the next one no memory is left, and from then on they are added again.
#[derive(Drop)]
pub struct ScarceKeeper {
    keeper: MemoryKeeper<ShardRow>,
    // How many more rows are added before that; none where it was.
    left: Option<u64>,
}

impl ScarceKeeper {
    pub fn new(alloc: Global, rows: u64) -> ScarceKeeper {
        ScarceKeeper {
            keeper: MemoryKeeper::new(alloc),
            left: Some(rows),
        }
    }
}

impl Keeper for ScarceKeeper {
    ghost use Rattle.std.specs.Prelude.{Some, [], ⊤};

    type Row = ShardRow;

    ghost rows = { λ _. Some [] };

    ghost is_open = { λ _. ⊤ };

    ghost is_honest = { λ _. ⊥ };

    ghost may_leave = { λ _ _. ⊤ };

    ghost failed = { λ _. 0 };

    ghost unsure = { λ _. 0 };

    ghost is_ready = { λ _. ⊥ };

    ghost may_refuse = { λ _ _ _. ⊤ };

    fn append(&mut self, row: &ShardRow) -> Result<(), KeeperFault> {
        match self.left {
            Some(0) => {
                self.left = None;
                return Err(KeeperFault::Memory);
            }
            Some(rows) => self.left = Some(rows - 1),
            None => {}
        }
        self.keeper.append(row)
    }

    fn rows(&mut self) -> Result<Vec<ShardRow>, KeeperFault> {
        self.keeper.rows()
    }

    fn failures(&self) -> u64 {
        self.keeper.failures()
    }

    ghost settled = { λ _ _ honest _ _. absurd honest };
}
