// The jobs of a transaction, one for each dock of a shard.
ghost use Rattle.std.specs.Prelude.{◌≡◌, ◌++◌, ◌∷◌, [], ◌<◌, ◌≤◌, ℕ, List, IfOk, OnOk, OnErr, length, get_or, map, take, drop, true, IsTrue, vec_capacity};
ghost use Rattle.mx_dock.specs.Dock.{own};
ghost use Rattle.mx_shard.specs.Journal.{Entry};
ghost use Rattle.mx_keeper.specs.Places.{is_at};
ghost use Rattle.mx_pdu.specs.Event.{room_of};
ghost use Rattle.mx_world.specs.declared.answers.Told.{Told as ToldOf};
ghost use Rattle.mx_engine.specs.Views.{AddsNothingThere, IsSameView};
ghost use Rattle.mx_engine.specs.Berths.{IsBerthAt};
ghost use Rattle.mx_engine.specs.Transactions.{IsOfferedThere, AreOfferedThere, events_at};
ghost use Rattle.mx_engine.specs.Jobs.{IsFresh, IsSameJob, IsSeated, lower_of, lowest_of, merged, faults_of, berths_of, told_of_jobs};
ghost use Rattle.mx_engine.specs.Turns.{IsReadyFor, IsRunBy};

use crate::calls::ShardCall;
use crate::docked::DockedShard;
use crate::faults::Fault;
use crate::gates::Gate;
use crate::offering::Offering;
use mx_dock::{Berth, Dock};
use mx_keeper::{CallError, Keeper, Place, ShardRow};
use mx_pdu::Offered;
use mx_shard::Sending;
use mx_world::{Told, outcome_of};
use std::alloc::Global;
use std::collections::VecDeque;
use std::sync::Wait;

/// What is done at one dock: the events of the rooms of its shard are offered there, in their order, up to the first
/// fault. It is busy where there are such events.
#[derive(Drop)]
pub(crate) struct Job<K: Keeper<Row = ShardRow>> {
    pub place: Place,
    pub berth: Berth<DockedShard<K>>,
    pub is_busy: bool,
    pub told: VecDeque<Told>,
    pub fault: Option<Fault>,
}

// ---- one job

impl<R: Wait, K: Keeper<Row = ShardRow>, G: Gate> Offering<'_, R, K, G> {
    // Offers one event at the dock of its room's shard.
    fn offer_there(
        &self,
        place: Place,
        dock: &Dock<DockedShard<K>>,
        berth: &mut Berth<DockedShard<K>>,
        offered: &Offered,
    ) -> Result<Told, CallError>
        requires berth { IsBerthAt place dock.now self.now.turns.caller berth.old }
        requires here { IsTrue (is_at place (room_of offered.now.pdu)) }
        ensures berth { IsBerthAt place dock.now self.now.turns.caller berth.new }
        ensures same { IsSameView (own berth.old) (own berth.new) }
        ensures ok { IfOk result
            (IsOfferedThere self.now.turns.caller self.now.origin.now offered.now (own berth.old) (own berth.new)) }
        ensures err { OnErr result (AddsNothingThere (own berth.old) (own berth.new)) }
    {
        let id = offered.id.clone()?;
        let call = ShardCall::Send(Sending::Offer, self.origin, offered);
        let answer = self.turns.call_at(place, dock, berth, &call)?;
        Ok(Told {
            id,
            outcome: outcome_of(answer),
        })
    }

    // Offers the event and tells of it, where its room is of the job's shard.
    fn offer_in_job(&self, offered: &Offered, job: &mut Job<K>) -> Result<(), CallError>
        requires { IsSeated self.now.turns.docks.now self.now.turns.caller job.old }
        ensures seated { IsSeated self.now.turns.docks.now self.now.turns.caller job.new }
        ensures same { IsSameJob job.old job.new }
        ensures ok { OnOk result
            ((later : List ToldOf)
            × AreOfferedThere self.now.turns.caller self.now.origin.now (events_at job.old.place (offered.now ∷ []))
            (own job.old.berth) (own job.new.berth) later
            × (job.new.told.items ≡ job.old.told.items ++ later)) }
        ensures err { OnErr result (AddsNothingThere (own job.old.berth) (own job.new.berth)
            × IsTrue (is_at job.old.place (room_of offered.now.pdu))) }
    {
        let place = job.place;
        if !place.has(offered.pdu.room_id().as_str()) {
            return Ok(());
        }
        // What it is told has its room before the event is offered: behind a fault no event was kept.
        job.told.reserve(1)?;
        let dock = &self.turns.docks[place.number()];
        let one = self.offer_there(place, dock, &mut job.berth, offered)?;
        job.told.push_back_reserved(one);
        Ok(())
    }

    /// Offers the events of a job's shard in their order, up to the first fault.
    pub(crate) fn run_job(&self, events: &[Offered], job: &mut Job<K>)
        requires { IsReadyFor self.now events.now job.old }
        ensures { IsRunBy self.now events.now job.old job.new }
    {
        if !job.is_busy {
            return;
        }
        for place in 0..events.len() {
            let offered = &events[place];
            match self.offer_in_job(offered, job) {
                Ok(()) => {}
                Err(error) => {
                    job.fault = Some(Fault { place, error });
                    return;
                }
            }
        }
    }
}

// ---- where jobs stand

// Whether the dock with this number is busy.
fn is_busy_at(busy: &[bool; 64], number: usize) -> bool
    requires { number < 64 }
    ensures { result ≡ get_or busy.now number true }
{
    busy[number]
}

/// A job for each dock, in their order.
pub(crate) fn jobs_of<K: Keeper<Row = ShardRow>>(
    alloc: Global,
    berths: Vec<Berth<DockedShard<K>>>,
    busy: &[bool; 64],
    jobs: &mut Vec<Job<K>>,
)
    requires few { length berths.items ≤ 64 }
    requires none { jobs.old.items ≡ [] }
    requires room { length berths.items ≤ vec_capacity jobs.old }
    ensures count { length jobs.new.items ≡ length berths.items }
    ensures each { (n : ℕ) (d : Job K) (b : Berth (DockedShard K) Entry) → n < length berths.items
        → IsFresh n (length berths.items) (get_or busy.now n true) (get_or berths.items n b) (get_or jobs.new.items n d) }
{
    let count = berths.len();
    for berth in berths {
        let number = jobs.len();
        let is_busy = is_busy_at(busy, number);
        jobs.push_reserved(Job {
            place: Place::new(number, count),
            berth,
            is_busy,
            told: VecDeque::new(alloc),
            fault: None,
        });
    }
}

// ---- what the jobs leave

// The fault at the lower place.
fn lower(first: Option<Fault>, second: Option<Fault>) -> Option<Fault>
    ensures { result ≡ lower_of first second }
{
    match (first, second) {
        (Some(one), Some(other)) if other.place < one.place => second,
        (None, _) => second,
        _ => first,
    }
}

/// The fault at the lowest place.
pub(crate) fn lowest_fault<K: Keeper<Row = ShardRow>>(jobs: &[Job<K>]) -> Option<Fault>
    ensures { result ≡ lowest_of (faults_of jobs.now) }
{
    let mut lowest = None;
    for job in jobs {
        lowest = lower(lowest, job.fault);
    }
    lowest
}

/// Puts the berths back, and gives what is told at each dock.
pub(crate) fn put_back<K: Keeper<Row = ShardRow>>(
    jobs: Vec<Job<K>>,
    berths: &mut Vec<Berth<DockedShard<K>>>,
    told: &mut Vec<VecDeque<Told>>,
)
    requires no_berth { berths.old.items ≡ [] }
    requires none_told { told.old.items ≡ [] }
    requires room { length jobs.items ≤ vec_capacity berths.old }
    requires told_room { length jobs.items ≤ vec_capacity told.old }
    ensures berths { berths.new.items ≡ berths_of jobs.items }
    ensures told { map (λ q. q.items) told.new.items ≡ told_of_jobs jobs.items }
{
    for job in jobs {
        let Job {
            berth,
            told: told_there,
            ..
        } = job;
        berths.push_reserved(berth);
        told.push_reserved(told_there);
    }
}

// Tells what is told first at a dock.
fn tell_next(told_there: &mut VecDeque<Told>, told: &mut Vec<Told>) -> Result<(), CallError>
    ensures left { told_there.new.items ≡ drop 1 told_there.old.items }
    ensures told { OnOk result (told.new.items ≡ told.old.items ++ take 1 told_there.old.items) }
{
    let Some(one) = told_there.pop_front() else {
        return Ok(());
    };
    told.push(one)?;
    Ok(())
}

/// What is told of the events, in their order, by what is told of those at each dock in theirs.
pub(crate) fn told_in_order(
    alloc: Global,
    events: &[Offered],
    told_there: &mut Vec<VecDeque<Told>>,
) -> Result<Vec<Told>, CallError>
    requires some { 0 < length told_there.old.items }
    requires few { length told_there.old.items ≤ 64 }
    ensures { IfOk result
        (λ told. told.items ≡ merged (length told_there.old.items) events.now (map (λ q. q.items) told_there.old.items)) }
{
    let mut told = Vec::new(alloc);
    let count = told_there.len();
    for offered in events {
        let place = Place::of(offered.pdu.room_id().as_str(), count);
        tell_next(&mut told_there[place.number()], &mut told)?;
    }
    Ok(told)
}
