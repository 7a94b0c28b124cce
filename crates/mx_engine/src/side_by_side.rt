// The events of a transaction at the docks of several shards, one beside the other.
ghost use Rattle.std.specs.Prelude.{◌≡◌, [], ◌≤◌, List, All, IfErr, IfOk, length, vec_capacity};
ghost use Rattle.mx_shard.specs.Journal.{Entry};
ghost use Rattle.mx_engine.specs.Jobs.{AreReady, AreOver, AreTakenOut};
ghost use Rattle.mx_engine.specs.Turns.{AreAtShards, StayAtShards, AreOfferedBy, IsAbortedBy, IsReadyFor, IsRunBy, AreRunBy};

use crate::docked::DockedShard;
use crate::event_places::busy_docks;
use crate::gates::Gate;
use crate::jobs::{Job, jobs_of, lowest_fault, put_back, told_in_order};
use crate::moves::{bring_back, bring_forward};
use crate::offering::Offering;
use mx_dock::Berth;
use mx_keeper::{CallError, Keeper, ShardRow};
use mx_pdu::Offered;
use mx_world::Told;
use std::alloc::Global;
use std::sync::Wait;
use std::thread::Threads;
use std::{mem, thread};

// ---- several jobs

impl<R: Wait, K: Keeper<Row = ShardRow>, G: Gate> Offering<'_, R, K, G> {
    // Runs these jobs, which are not busy, one after the other.
    fn run_in_turn(&self, events: &[Offered], jobs: &mut [Job<K>])
        requires { All (IsReadyFor self.now events.now) jobs.old }
        ensures { AreRunBy self.now events.now jobs.old jobs.new }
    {
        for number in 0..jobs.len() {
            self.run_job(events, &mut jobs[number]);
        }
    }
}

impl<R: Threads + Wait + Sync, K: Keeper<Row = ShardRow> + Send, G: Gate + Sync> Offering<
    '_,
    R,
    K,
    G,
> {
    // Runs these jobs, each in a thread of its own where one can be had.
    fn run_in_threads(&self, events: &[Offered], jobs: &mut [Job<K>])
        requires { All (IsReadyFor self.now events.now) jobs.old }
        ensures { AreRunBy self.now events.now jobs.old jobs.new }
    {
        let threads = jobs.len().max(1);
        thread::for_each_mut(
            self.turns.rt,
            jobs,
            threads,
            &|_, job|
                requires { IsReadyFor self.now events.now job.old }
                ensures { IsRunBy self.entry.now events.entry.now job.old job.new }
            { self.run_job(events, job) },
        );
    }

    // Runs the jobs, of which so many first ones are busy, each of those in a thread of its own where one can be had.
    fn run_jobs(&self, events: &[Offered], jobs: &mut [Job<K>], busy: usize)
        requires ready { All (IsReadyFor self.now events.now) jobs.old }
        requires busy { busy ≤ length jobs.old }
        ensures { AreRunBy self.now events.now jobs.old jobs.new }
    {
        let (first, others) = jobs.split_at_mut(busy);
        self.run_in_threads(events, first);
        self.run_in_turn(events, others);
    }

    // Runs all jobs, the busy ones side by side.
    fn run_all(&self, events: &[Offered], jobs: &mut Vec<Job<K>>, moves: &mut Vec<usize>)
        requires ready { (berths : List (Berth (DockedShard K) Entry))
            × AreReady self.now.turns.docks.now self.now.turns.caller events.now berths jobs.old.items }
        requires none { moves.old.items ≡ [] }
        requires room { length jobs.old.items ≤ vec_capacity moves.old }
        ensures { (berths : List (Berth (DockedShard K) Entry))
            → AreReady self.now.turns.docks.now self.now.turns.caller events.now berths jobs.old.items
            → AreOver self.now.turns.docks.now self.now.turns.caller self.now.origin.now events.now berths jobs.new.items }
    {
        bring_forward(jobs, moves);
        self.run_jobs(events, jobs, moves.len());
        bring_back(jobs, moves);
    }
}

// ---- the whole

impl<R: Threads + Wait + Sync, K: Keeper<Row = ShardRow> + Send, G: Gate + Sync> Offering<
    '_,
    R,
    K,
    G,
> {
    /// Offers each event to its room, those of each shard in their order and the shards one beside the other, and tells of
    /// each in the order of the events. Of several faults it tells the one at the lowest place.
    pub(crate) fn offer_side_by_side(
        &self,
        alloc: Global,
        berths: &mut Vec<Berth<DockedShard<K>>>,
        events: &[Offered],
    ) -> Result<Vec<Told>, CallError>
        requires { AreAtShards self.now.turns berths.old.items }
        ensures berths { StayAtShards self.now.turns berths.old.items berths.new.items }
        ensures ok { IfOk result (λ told. AreOfferedBy self.now events.now berths.old.items berths.new.items told.items) }
        ensures err { IfErr result (IsAbortedBy self.now events.now berths.old.items berths.new.items) }
    {
        let busy = busy_docks(events, self.turns.docks.len());
        let count = berths.len();
        let back = Vec::with_capacity(alloc, count)?;
        let mut jobs = Vec::with_capacity(alloc, count)?;
        let mut moves = Vec::with_capacity(alloc, count)?;
        let mut told = Vec::with_capacity(alloc, count)?;
        take_out(alloc, berths, back, &busy, &mut jobs);
        self.run_all(events, &mut jobs, &mut moves);
        let fault = lowest_fault(&jobs);
        put_back(jobs, berths, &mut told);
        match fault {
            Some(fault) => Err(fault.error),
            None => told_in_order(alloc, events, &mut told),
        }
    }
}

// Takes the berths out, each into a job, and leaves this empty list for them.
fn take_out<K: Keeper<Row = ShardRow>>(
    alloc: Global,
    berths: &mut Vec<Berth<DockedShard<K>>>,
    back: Vec<Berth<DockedShard<K>>>,
    busy: &[bool; 64],
    jobs: &mut Vec<Job<K>>,
)
    requires few { length berths.old.items ≤ 64 }
    requires none { jobs.old.items ≡ [] }
    requires room { length berths.old.items ≤ vec_capacity jobs.old }
    ensures ready { AreTakenOut busy.now berths.old.items jobs.new.items }
    ensures back { berths.new ≡ back }
{
    let taken = mem::replace(berths, back);
    jobs_of(alloc, taken, busy, jobs);
}
