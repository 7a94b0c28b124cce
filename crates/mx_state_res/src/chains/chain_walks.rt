// Walks down the auth chains of several states.
ghost use Rattle.std.specs.Prelude.{◌≡◌, ◌==◌, ◌&&◌, ◌||◌, ◌∷◌, ◌++◌, if◌then◌else◌, [], ℕ, IfNone, IfOk, IfSome, IsTrue, OnOk, OnSome, false, length, not, true, vec_len};
ghost use Rattle.std.specs.Ordering.{nat_cmp};
ghost use Rattle.std.specs.BTreeSet.{contains};
ghost use Rattle.mx_graph.specs.Record.{is_in};
ghost use Rattle.mx_state_res.specs.Masks.{has, waits, is_there, AreKept, AreLow, IsTaken, AreSettled};

use crate::chains::masks::{add_states, covers, is_full};
use mx_graph::EventNo;
use std::alloc::{AllocError, Global};
use std::collections::{BTreeMap, BTreeSet};

/// The events that wait in a walk, each with a mask of the states that reach it. Those that not every state reaches are
/// unsettled. What the starts cite is reached by every state: they are looked at only where the walk comes that far.
#[derive(Drop)]
pub(crate) struct ChainWalk {
    alloc: Global,
    states: usize,
    masks: BTreeMap<EventNo, Vec<bool>>,
    unsettled: BTreeSet<EventNo>,
    starts: BTreeSet<EventNo>,
}

/// An event that waited, with its mask.
#[derive(Drop)]
pub(crate) struct Taken {
    pub(crate) event: EventNo,
    pub(crate) mask: Vec<bool>,
}

impl ChainWalk {
    /// A walk in which nothing waits yet.
    pub(crate) fn new(alloc: Global, states: usize, starts: BTreeSet<EventNo>) -> ChainWalk
        ensures states { result.states ≡ states }
        ensures kept { AreKept result.states result.masks result.unsettled }
        ensures none { (p : ℕ) → is_there result.masks p ≡ false }
        ensures starts { result.starts ≡ starts }
    {
        ChainWalk {
            alloc,
            states,
            masks: BTreeMap::new(alloc),
            unsettled: BTreeSet::new(alloc),
            starts,
        }
    }

    /// The last event that waits, with its mask, unless every state reaches all that wait.
    pub(crate) fn next(&mut self) -> Option<Taken>
        requires { AreKept self.old.states self.old.masks self.old.unsettled }
        ensures states { self.new.states ≡ self.old.states }
        ensures starts { self.new.starts ≡ self.old.starts }
        ensures kept { AreKept self.new.states self.new.masks self.new.unsettled }
        ensures taken { IfSome result (λ r. IsTaken self.old.masks self.new.masks r.event r.mask.items) }
        ensures wide { IfSome result (λ r. vec_len r.mask ≡ self.old.states) }
        ensures settled { IfNone result (AreSettled self.old.masks) }
        ensures unsettled { OnSome result (AreSettled self.old.masks → ⊥) }
    {
        if self.unsettled.is_empty() {
            return None;
        }
        let (event, mask) = self.masks.pop_last()?;
        self.unsettled.remove(&event);
        Some(Taken { event, mask })
    }

    /// The last start, where it is after the last event that is unsettled: it is no start any more.
    pub(crate) fn next_start(&mut self) -> Option<EventNo>
        requires { AreKept self.old.states self.old.masks self.old.unsettled }
        ensures states { self.new.states ≡ self.old.states }
        ensures masks { self.new.masks ≡ self.old.masks }
        ensures unsettled { self.new.unsettled ≡ self.old.unsettled }
        ensures some { IfSome result (λ start. self.old.starts.keys ≡ self.new.starts.keys ++ start ∷ []) }
        ensures none { IfNone result (self.new.starts ≡ self.old.starts) }
        ensures low { IfNone result (AreLow self.old.masks self.old.starts.keys) }
    {
        let last = *self.unsettled.last()?;
        let start = *self.starts.last()?;
        if start <= last {
            return None;
        }
        self.starts.pop_last()
    }

    /// The states of a mask reach these events.
    pub(crate) fn mark_all(&mut self, events: &[EventNo], mask: &[bool]) -> Result<(), AllocError>
        requires kept { AreKept self.old.states self.old.masks self.old.unsettled }
        requires wide { length mask.now ≡ self.old.states }
        ensures states { self.new.states ≡ self.old.states }
        ensures starts { self.new.starts ≡ self.old.starts }
        ensures kept { OnOk result (AreKept self.new.states self.new.masks self.new.unsettled) }
        ensures there { OnOk result ((p : ℕ)
            → is_there self.new.masks p ≡ (is_there self.old.masks p || is_in events.now p)) }
        ensures marked { OnOk result ((p i : ℕ)
            → waits self.new.masks p i ≡ (waits self.old.masks p i || (is_in events.now p && has mask.now i))) }
    {
        for event in events {
            self.mark(*event, mask)?;
        }
        Ok(())
    }

    fn mark(&mut self, event: EventNo, mask: &[bool]) -> Result<(), AllocError>
        requires kept { AreKept self.old.states self.old.masks self.old.unsettled }
        requires wide { length mask.now ≡ self.old.states }
        ensures states { self.new.states ≡ self.old.states }
        ensures starts { self.new.starts ≡ self.old.starts }
        ensures kept { OnOk result (AreKept self.new.states self.new.masks self.new.unsettled) }
        ensures there { OnOk result ((p : ℕ)
            → is_there self.new.masks p ≡ (is_there self.old.masks p || (event == p))) }
        ensures marked { OnOk result ((p i : ℕ)
            → waits self.new.masks p i ≡ (waits self.old.masks p i || ((event == p) && has mask.now i))) }
    {
        if self.has_all(event, mask) {
            return Ok(());
        }
        self.put(event, mask)
    }

    // Whether an event waits for each of the states of a mask.
    fn has_all(&self, event: EventNo, mask: &[bool]) -> bool
        requires kept { AreKept self.now.states self.now.masks self.now.unsettled }
        requires wide { length mask.now ≡ self.now.states }
        ensures there { IsTrue result → is_there self.now.masks event ≡ true }
        ensures each { IsTrue result → (i : ℕ) → has mask.now i ≡ true → waits self.now.masks event i ≡ true }
    {
        match self.masks.get(&event) {
            Some(own) => covers(own, mask),
            None => false,
        }
    }

    fn put(&mut self, event: EventNo, mask: &[bool]) -> Result<(), AllocError>
        requires kept { AreKept self.old.states self.old.masks self.old.unsettled }
        requires wide { length mask.now ≡ self.old.states }
        ensures states { self.new.states ≡ self.old.states }
        ensures starts { self.new.starts ≡ self.old.starts }
        ensures kept { OnOk result (AreKept self.new.states self.new.masks self.new.unsettled) }
        ensures there { OnOk result ((p : ℕ)
            → is_there self.new.masks p ≡ (is_there self.old.masks p || (event == p))) }
        ensures marked { OnOk result ((p i : ℕ)
            → waits self.new.masks p i ≡ (waits self.old.masks p i || ((event == p) && has mask.now i))) }
    {
        let joined = self.joined(event, mask)?;
        self.list(event, is_full(&joined))?;
        self.masks.insert(event, joined)?;
        Ok(())
    }

    // An event is unsettled unless every state reaches it.
    fn list(&mut self, event: EventNo, is_common: bool) -> Result<(), AllocError>
        ensures states { self.new.states ≡ self.old.states }
        ensures starts { self.new.starts ≡ self.old.starts }
        ensures masks { self.new.masks ≡ self.old.masks }
        ensures listed { OnOk result ((q : ℕ) → contains nat_cmp self.new.unsettled q
            ≡ (if event == q then not is_common else contains nat_cmp self.old.unsettled q)) }
    {
        if is_common {
            self.unsettled.remove(&event);
            return Ok(());
        }
        self.unsettled.insert(event)?;
        Ok(())
    }

    // A mask, with that of an event.
    fn joined(&self, event: EventNo, mask: &[bool]) -> Result<Vec<bool>, AllocError>
        requires kept { AreKept self.now.states self.now.masks self.now.unsettled }
        requires wide { length mask.now ≡ self.now.states }
        ensures wide { IfOk result (λ joined. vec_len joined ≡ self.now.states) }
        ensures each { IfOk result (λ joined. (i : ℕ) → has joined.items i ≡ (waits self.now.masks event i || has mask.now i)) }
    {
        let mut joined = mask.to_vec(self.alloc)?;
        if let Some(other) = self.masks.get(&event) {
            add_states(&mut joined, other);
        }
        Ok(joined)
    }
}
