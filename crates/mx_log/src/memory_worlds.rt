// Servers with their rows in memory.
ghost use Rattle.std.specs.Prelude.{◌≡◌, [], All, IfOk, false, length};
ghost use Rattle.mx_world.specs.Worlds.{is_refused};

use mx_keeper::{BookRow, CallError, MemoryKeeper, ShardCount, ShardRow, Storable};
use mx_world::{OpenError, Step, StepReply, TransactionKey, World};
use std::alloc::{AllocError, Global};

/// A server with its rows in memory. Storage never fails it, so a call is refused for want of memory alone.
#[derive(Drop)]
pub(crate) struct MemoryWorld {
    pub(crate) world: World<MemoryKeeper<ShardRow>, MemoryKeeper<BookRow>>,
    ghost none_refused: { is_refused world ≡ false },
}

impl MemoryWorld {
    ghost use Rattle.std.specs.Prelude.{◌≡◌, List, [], IfOk, OnErr, false};
    ghost use Rattle.mx_world.specs.Calls.{Start};
    ghost use Rattle.mx_world.specs.Worlds.{IsAfter, Stays, status_in};
    ghost use Rattle.mx_world.specs.declared.steps.Step.{Step as AnyStep};
    ghost use Rattle.mx_log.specs.LineRuns.{IsTaken, is_waiting};
    ghost use Rattle.mx_log.specs.LineSteps.{nothing_yet};

    /// A server that hosts no room, over so many shards and books. `AllocError` where no memory is left.
    pub(crate) fn new(alloc: Global, shards: ShardCount) -> Result<MemoryWorld, AllocError>
        ensures { IfOk result (λ made. IsAfter nothing_yet [] made.world) }
    {
        let shard_keepers = keepers(alloc, shards)?;
        let book_keepers = keepers(alloc, shards)?;
        match World::reopen(alloc, shard_keepers, book_keepers) {
            Ok(world) => Ok(MemoryWorld { world }),
            Err(OpenError::Memory) => Err(AllocError),
            Err(OpenError::Shard(_)) => unreachable!(),
            Err(OpenError::Book(_)) => unreachable!(),
        }
    }

    /// One step, as [`World::step`] takes it. `AllocError` where no memory is left, and then nothing is done.
    pub(crate) fn step(&mut self, alloc: Global, step: &Step) -> Result<StepReply, AllocError>
        ensures ok { IfOk result (λ reply. (start : Start) (earlier : List AnyStep) → IsAfter start earlier self.old.world
            → IsTaken start earlier step.now reply self.new.world) }
        ensures err { OnErr result (Stays self.old.world self.new.world) }
    {
        match self.world.step(alloc, step) {
            Ok(reply) => Ok(reply),
            Err(CallError::Memory) => Err(AllocError),
            Err(CallError::Storage) => unreachable!(),
        }
    }

    /// Gives up a transaction, as [`World::abandon`] does: it is not open then.
    pub(crate) fn abandon(&mut self, key: &TransactionKey)
        ensures { is_waiting (status_in self.new.world key.now) ≡ false }
    {
        self.world.abandon(key);
    }
}

// As many keepers, with no rows.
fn keepers<R: Storable>(
    alloc: Global,
    shards: ShardCount,
) -> Result<Vec<MemoryKeeper<R>>, AllocError>
    ensures many { IfOk result (λ keepers. length keepers.items ≡ shards) }
    ensures blank { IfOk result (λ keepers. All (λ keeper. keeper ≡ []) keepers.items) }
{
    let mut keepers = Vec::new(alloc);
    for _keeper in 0..shards.get() {
        keepers.push(MemoryKeeper::new(alloc))?;
    }
    Ok(keepers)
}
