// What answers the lines of a log.
ghost use Rattle.std.specs.Prelude.{◌≡◌, List, [], IfOk, OnErr};
ghost use Rattle.mx_world.specs.Calls.{Start};
ghost use Rattle.mx_world.specs.Worlds.{IsAfter, Stays};
ghost use Rattle.mx_world.specs.declared.steps.Step.{Step as AnyStep};
ghost use Rattle.mx_log.specs.LineRuns.{IsTaken};
ghost use Rattle.mx_log.specs.LineSteps.{nothing_yet};

use crate::memory_worlds::MemoryWorld;
use crate::watching::LogWatcher;
use json::Scratch;
use mx_keeper::ShardCount;
use mx_world::{Step, StepReply};
use std::alloc::{AllocError, Global};

/// What is kept from line to line of a log: the server's rooms and replies, memory for reading, and who is told.
#[derive(Drop)]
pub(crate) struct LineDesk<W: LogWatcher + Drop> {
    pub(crate) alloc: Global,
    pub(crate) rooms: MemoryWorld,
    pub(crate) scratch: Scratch,
    pub(crate) watcher: W,
}

impl<W: LogWatcher + Drop> LineDesk<W> {
    /// Where no line was read: of a server that hosts no room, over so many shards and books. `AllocError` where no memory
    /// is left.
    pub(crate) fn new(
        alloc: Global,
        shards: ShardCount,
        watcher: W,
    ) -> Result<LineDesk<W>, AllocError>
        ensures { IfOk result (λ desk. IsAfter nothing_yet [] desk.rooms.world) }
    {
        let rooms = MemoryWorld::new(alloc, shards)?;
        Ok(LineDesk {
            alloc,
            rooms,
            scratch: Scratch::new(alloc),
            watcher,
        })
    }

    /// Takes a step, and tells who watches. `AllocError` where no memory is left, and then nothing is done.
    pub(crate) fn take(&mut self, step: &Step) -> Result<StepReply, AllocError>
        ensures ok { IfOk result (λ reply. (start : Start) (earlier : List AnyStep)
            → IsAfter start earlier self.old.rooms.world → IsTaken start earlier step.now reply self.new.rooms.world) }
        ensures err { OnErr result (Stays self.old.rooms.world self.new.rooms.world) }
    {
        let reply = self.rooms.step(self.alloc, step)?;
        self.watcher.see_step(step, &reply);
        Ok(reply)
    }
}
