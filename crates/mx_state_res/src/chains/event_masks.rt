// Masks of events: which of several sets have an event.
ghost use Rattle.std.specs.Prelude.{◌≡◌, ◌==◌, ◌<◌, ◌&&◌, ◌||◌, ℕ, IfOk, OnOk, [], false, length, map, slice_index_or};
ghost use Rattle.mx_graph.specs.Record.{is_in};
ghost use Rattle.mx_state_res.specs.Masks.{is_there};
ghost use Rattle.mx_state_res.specs.EventMasks.{is_had, is_in_one, AreWide};

use crate::chains::masks::{add_state, only};
use mx_graph::EventNo;
use std::alloc::{AllocError, Global};
use std::collections::BTreeMap;

/// Each event of these sets, with the mask of the sets that have it.
///
/// The time is that of a look-up for each event of each set, and of one mask for each different event.
pub(crate) fn masks_by_event(
    alloc: Global,
    sets: &[Vec<EventNo>],
) -> Result<BTreeMap<EventNo, Vec<bool>>, AllocError>
    ensures wide { IfOk result (λ masks. AreWide (length sets.now) masks) }
    ensures there { IfOk result (λ masks. (p : ℕ)
        → is_there masks p ≡ is_in_one (map (λ events. events.items) sets.now) p) }
    ensures each { IfOk result (λ masks. (p i : ℕ)
        → is_had masks p i ≡ is_in (slice_index_or (map (λ events. events.items) sets.now) i []) p) }
{
    let mut gathered = EventMasks::new(alloc, sets.len());
    for (i, events) in sets.iter().enumerate() {
        gathered.add_all(events, i)?;
    }
    Ok(gathered.masks)
}

// The masks of events, while the events of one set after another are added.
#[derive(Drop)]
struct EventMasks {
    alloc: Global,
    sets: usize,
    masks: BTreeMap<EventNo, Vec<bool>>,
}

impl EventMasks {
    // Of so many sets, with no event yet.
    fn new(alloc: Global, sets: usize) -> EventMasks
        ensures sets { result.sets ≡ sets }
        ensures wide { AreWide result.sets result.masks }
        ensures there { (p : ℕ) → is_there result.masks p ≡ false }
        ensures none { (p i : ℕ) → is_had result.masks p i ≡ false }
    {
        EventMasks {
            alloc,
            sets,
            masks: BTreeMap::new(alloc),
        }
    }

    // A set has these events.
    fn add_all(&mut self, events: &[EventNo], set: usize) -> Result<(), AllocError>
        requires wide { AreWide self.old.sets self.old.masks }
        requires set { set < self.old.sets }
        ensures sets { self.new.sets ≡ self.old.sets }
        ensures wide { OnOk result (AreWide self.new.sets self.new.masks) }
        ensures there { OnOk result ((p : ℕ)
            → is_there self.new.masks p ≡ (is_there self.old.masks p || is_in events.now p)) }
        ensures had { OnOk result ((p i : ℕ)
            → is_had self.new.masks p i ≡ (is_had self.old.masks p i || (is_in events.now p && (set == i)))) }
    {
        for event in events {
            self.add(*event, set)?;
        }
        Ok(())
    }

    // A set has an event.
    fn add(&mut self, event: EventNo, set: usize) -> Result<(), AllocError>
        requires wide { AreWide self.old.sets self.old.masks }
        requires set { set < self.old.sets }
        ensures sets { self.new.sets ≡ self.old.sets }
        ensures wide { OnOk result (AreWide self.new.sets self.new.masks) }
        ensures there { OnOk result ((p : ℕ)
            → is_there self.new.masks p ≡ (is_there self.old.masks p || (event == p))) }
        ensures had { OnOk result ((p i : ℕ)
            → is_had self.new.masks p i ≡ (is_had self.old.masks p i || ((event == p) && (set == i)))) }
    {
        if let Some(mask) = self.masks.get_mut(&event) {
            add_state(mask, set);
            return Ok(());
        }
        let mask = only(self.alloc, self.sets, set)?;
        self.masks.insert(event, mask)?;
        Ok(())
    }
}
