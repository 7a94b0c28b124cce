// The rows of a graph, each with the states that reach it.
ghost use Rattle.std.specs.Prelude.{◌≡◌, ◌≤◌, ◌<◌, ◌^◌, ◌==◌, ◌&&◌, ◌||◌, ◌∷◌, ◌++◌, [], ℕ, All, IfNone, IfOk, IfSome, false, length, slice_index_or};
ghost use Rattle.mx_graph.specs.Record.{is_in};
ghost use Rattle.mx_state_res.specs.ChainDifference.{cites, is_cited};
ghost use Rattle.mx_state_res.specs.RowSets.{has_state, is_partial, is_reached, weight, AreCounted};

use crate::chains::state_sets::StateSet;
use mx_graph::{EventNo, Graph};
use std::alloc::{AllocError, Global};

/// The first rows of a graph, each with the states that reach it. Those that some states reach and not all are unsettled.
#[derive(Drop)]
pub(crate) struct RowSets {
    states: usize,
    all: StateSet,
    sets: Vec<StateSet>,
    unsettled: usize,
}

/// An event with the states that reach it.
#[derive(Drop)]
pub(crate) struct ReachedRow {
    pub(crate) event: EventNo,
    pub(crate) states: StateSet,
}

impl RowSets {
    /// So many rows, which none of so many states reaches.
    pub(crate) fn new(alloc: Global, rows: usize, states: usize) -> Result<RowSets, AllocError>
        requires { states ≤ 64 }
        ensures states { IfOk result (λ r. r.states ≡ states) }
        ensures len { IfOk result (λ r. length r.sets.items ≡ rows) }
        ensures counted { IfOk result (λ r. AreCounted r.states r.all r.sets.items r.unsettled) }
        ensures none { IfOk result (λ r. (p i : ℕ) → is_reached r.sets.items p i ≡ false) }
    {
        let sets = vec![in alloc; StateSet::none(); rows]?;
        Ok(RowSets {
            states,
            all: StateSet::every(states),
            sets,
            unsettled: 0,
        })
    }

    /// The last row, unless each row that is left is reached by all states or by none.
    pub(crate) fn pop(&mut self) -> Option<ReachedRow>
        requires counted { AreCounted self.old.states self.old.all self.old.sets.items self.old.unsettled }
        requires few { length self.old.sets.items < 2 ^ 32 }
        ensures states { self.new.states ≡ self.old.states }
        ensures all { self.new.all ≡ self.old.all }
        ensures counted { AreCounted self.new.states self.new.all self.new.sets.items self.new.unsettled }
        ensures taken { IfSome result (λ r. self.old.sets.items ≡ self.new.sets.items ++ r.states ∷ []) }
        ensures event { IfSome result (λ r. r.event ≡ length self.new.sets.items) }
        ensures settled { IfNone result
            ((p : ℕ) → is_partial self.old.all (slice_index_or self.old.sets.items p 0) ≡ false) }
    {
        if self.unsettled == 0 {
            return None;
        }
        let states = self.sets.pop()?;
        self.unsettled -= self.weight_of(states);
        let event = EventNo::at(self.sets.len() as u32);
        Some(ReachedRow { event, states })
    }

    /// These states reach what some events cite.
    pub(crate) fn mark_each(&mut self, graph: &Graph, events: &[EventNo], states: StateSet)
        requires counted { AreCounted self.old.states self.old.all self.old.sets.items self.old.unsettled }
        requires fits { states < 2 ^ self.old.states }
        requires events { All (λ event. event < length graph.now) events.now }
        requires rows { length graph.now ≤ length self.old.sets.items }
        ensures states { self.new.states ≡ self.old.states }
        ensures all { self.new.all ≡ self.old.all }
        ensures len { length self.new.sets.items ≡ length self.old.sets.items }
        ensures counted { AreCounted self.new.states self.new.all self.new.sets.items self.new.unsettled }
        ensures reached { (p i : ℕ) → is_reached self.new.sets.items p i
            ≡ (is_reached self.old.sets.items p i || (is_cited graph.now events.now p && has_state states i)) }
    {
        for event in events {
            self.mark_cited(graph, *event, states);
        }
    }

    /// These states reach what an event cites.
    pub(crate) fn mark_cited(&mut self, graph: &Graph, event: EventNo, states: StateSet)
        requires counted { AreCounted self.old.states self.old.all self.old.sets.items self.old.unsettled }
        requires fits { states < 2 ^ self.old.states }
        requires event { event < length graph.now }
        requires row { event ≤ length self.old.sets.items }
        ensures states { self.new.states ≡ self.old.states }
        ensures all { self.new.all ≡ self.old.all }
        ensures len { length self.new.sets.items ≡ length self.old.sets.items }
        ensures counted { AreCounted self.new.states self.new.all self.new.sets.items self.new.unsettled }
        ensures reached { (p i : ℕ) → is_reached self.new.sets.items p i
            ≡ (is_reached self.old.sets.items p i || (is_in (cites graph.now event) p && has_state states i)) }
    {
        if states.is_empty() {
            return;
        }
        let cited = graph.auth_events(event);
        for other in cited {
            self.mark(*other, states);
        }
    }

    // These states reach an event.
    fn mark(&mut self, event: EventNo, states: StateSet)
        requires counted { AreCounted self.old.states self.old.all self.old.sets.items self.old.unsettled }
        requires fits { states < 2 ^ self.old.states }
        requires row { event < length self.old.sets.items }
        ensures states { self.new.states ≡ self.old.states }
        ensures all { self.new.all ≡ self.old.all }
        ensures len { length self.new.sets.items ≡ length self.old.sets.items }
        ensures counted { AreCounted self.new.states self.new.all self.new.sets.items self.new.unsettled }
        ensures reached { (p i : ℕ) → is_reached self.new.sets.items p i
            ≡ (is_reached self.old.sets.items p i || ((event == p) && has_state states i)) }
    {
        let place = event.index();
        let before = self.sets[place];
        let after = before.with(states);
        if after == before {
            return;
        }
        self.unsettled = self.unsettled - self.weight_of(before) + self.weight_of(after);
        self.sets[place] = after;
    }

    // 1 for a set that has a state and lacks one, else 0.
    fn weight_of(&self, states: StateSet) -> usize
        ensures { result ≡ weight self.now.all states }
    {
        self.is_partial(states) as usize
    }

    /// Whether a set has a state and lacks one.
    pub(crate) fn is_partial(&self, states: StateSet) -> bool
        ensures { result ≡ is_partial self.now.all states }
    {
        !states.is_empty() && states != self.all
    }
}
