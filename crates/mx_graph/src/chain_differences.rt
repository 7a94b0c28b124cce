// Where auth chains differ, by the index of auth chains.
ghost use Rattle.std.specs.Prelude.{◌≡◌, ◌&&◌, ◌||◌, ℕ, All, IfOk, IfSome, IsSome, IsTrue, OnOk, nat_le, nat_lt};
ghost use Rattle.std.specs.List.{list_any};
ghost use Rattle.mx_graph.specs.AuthChains.{all_have, any_has, differs, has_row, is_apart, is_between, is_partly_met, kept_at, place_at, rows_of, some_has, AreDistinct, AreEnds, AreFew, AreKept, AreLinked, AreMetBySome, AreMetToo, IsNextBelow};
ghost use Rattle.mx_graph.specs.Record.{is_in};

use crate::auth_chains::{AuthChains, MOST_CHAINS};
use crate::numbers::EventNo;
use crate::reached_rows::{Reached, add_rows, end_in, greater};
use std::alloc::{AllocError, Global};

impl AuthChains {
    // Whether an event is in the auth chain of one of some others; `None` where that can't be told.
    pub fn has_in_chain(&self, event: EventNo, starts: &[EventNo]) -> Option<bool>
        ensures kept { IfSome result (λ _. AreKept (kept_at self.now.reached.items) starts.now) }
        ensures is { IfSome result (λ is_there. is_there ≡ some_has (kept_at self.now.reached.items) starts.now
            (place_at self.now.places.items event).chain event) }
        ensures answers { AreKept (kept_at self.now.reached.items) starts.now → IsSome result }
    {
        let end = self.end_of(starts, self.place(event).chain)?;
        Some(event.index() < end)
    }

    // The end of the rows of a chain in the auth chains of some events; `None` where that can't be told.
    fn end_of(&self, events: &[EventNo], chain: EventNo) -> Option<usize>
        ensures kept { IfSome result (λ _. AreKept (kept_at self.now.reached.items) events.now) }
        ensures rows { IfSome result (λ end. (p : ℕ)
            → nat_lt p end ≡ some_has (kept_at self.now.reached.items) events.now chain p) }
        ensures answers { AreKept (kept_at self.now.reached.items) events.now → IsSome result }
    {
        let mut end = 0;
        for event in events {
            let rows = self.kept(*event)?;
            end = greater(end, end_in(rows, chain));
        }
        Some(end)
    }

    // The end of the rows of a chain, before this one, in the auth chains of each of some sets of events.
    fn least_end(&self, apart: &[Vec<EventNo>], chain: EventNo, end: usize) -> Option<usize>
        ensures least { IfSome result (λ least. (p : ℕ)
            → nat_lt p least ≡ (nat_lt p end && all_have (kept_at self.now.reached.items) apart.now chain p)) }
        ensures answers { All (λ others. AreKept (kept_at self.now.reached.items) others.items) apart.now
            → IsSome result }
    {
        let mut least = end;
        for others in apart {
            least = lesser(least, self.end_of(others, chain)?);
        }
        Some(least)
    }

    // The events that the auth chains of some of these sets have, and not of all, and not that of the shared events, each
    // once; `None` where that can't be told.
    //
    // The time is that of all the events for each chain that is met, and of what is found.
    pub fn difference(
        &self,
        alloc: Global,
        shared: &[EventNo],
        apart: &[Vec<EventNo>],
    ) -> Result<Option<Vec<EventNo>>, AllocError>
        requires { AreLinked (place_at self.now.places.items) }
        ensures shared { IfOk result (λ found. IfSome found (λ _. AreKept (kept_at self.now.reached.items) shared.now)) }
        ensures apart { IfOk result (λ found. IfSome found (λ _.
            All (λ others. AreKept (kept_at self.now.reached.items) others.items) apart.now)) }
        ensures set { IfOk result (λ found. IfSome found (λ events.
            ((r : ℕ) → AreEnds (place_at self.now.places.items) (rows_of (kept_at self.now.reached.items r)))
            → (p : ℕ) → is_in events.items p ≡ differs (place_at self.now.places.items)
            (kept_at self.now.reached.items) shared.now apart.now p)) }
        ensures answers { IfOk result (λ found. AreKept (kept_at self.now.reached.items) shared.now
            → All (λ others. AreKept (kept_at self.now.reached.items) others.items) apart.now
            → ((r : ℕ) → AreEnds (place_at self.now.places.items) (rows_of (kept_at self.now.reached.items r)))
            → AreFew (place_at self.now.places.items) (any_has (kept_at self.now.reached.items) apart.now)
            → IsSome found) }
    {
        if !self.are_kept(shared) {
            return Ok(None);
        }
        let Some(met) = self.met_by_some(alloc, apart)? else {
            return Ok(None);
        };
        let found = self.partly_met(alloc, shared, apart, &met)?;
        Ok(found)
    }

    // Whether something is kept for each of these events.
    fn are_kept(&self, events: &[EventNo]) -> bool
        ensures kept { IsTrue result → AreKept (kept_at self.now.reached.items) events.now }
        ensures answers { AreKept (kept_at self.now.reached.items) events.now → IsTrue result }
    {
        for event in events {
            if self.kept(*event).is_none() {
                return false;
            }
        }
        true
    }

    // The last row of each chain in the auth chains of some sets of events; `None` where they are of too many chains.
    fn met_by_some(
        &self,
        alloc: Global,
        apart: &[Vec<EventNo>],
    ) -> Result<Option<Vec<Reached>>, AllocError>
        ensures found { IfOk result (λ found. IfSome found (λ rows.
            AreMetBySome (place_at self.now.places.items) (kept_at self.now.reached.items) apart.now rows.items)) }
        ensures answers { IfOk result (λ found.
            All (λ others. AreKept (kept_at self.now.reached.items) others.items) apart.now
            → ((r : ℕ) → AreEnds (place_at self.now.places.items) (rows_of (kept_at self.now.reached.items r)))
            → AreFew (place_at self.now.places.items) (any_has (kept_at self.now.reached.items) apart.now)
            → IsSome found) }
    {
        let mut met = Vec::new(alloc);
        for others in apart {
            if !self.add_met(&mut met, others)? {
                return Ok(None);
            }
        }
        Ok(Some(met))
    }

    // Adds the rows in the auth chains of some events; false where they are of too many chains.
    fn add_met(&self, met: &mut Vec<Reached>, events: &[EventNo]) -> Result<bool, AllocError>
        ensures met { IfOk result (λ done. IsTrue done → AreMetToo (place_at self.now.places.items)
            (kept_at self.now.reached.items) events.now met.old.items met.new.items) }
        ensures distinct { OnOk result (AreDistinct met.old.items → AreDistinct met.new.items) }
        ensures answers { IfOk result (λ done. AreKept (kept_at self.now.reached.items) events.now
            → ((r : ℕ) → AreEnds (place_at self.now.places.items) (rows_of (kept_at self.now.reached.items r)))
            → AreEnds (place_at self.now.places.items) met.old.items → AreDistinct met.old.items
            → AreFew (place_at self.now.places.items)
            (λ chain p. has_row met.old.items chain p || some_has (kept_at self.now.reached.items) events.now chain p)
            → IsTrue done) }
    {
        for event in events {
            let Some(rows) = self.kept(*event) else {
                return Ok(false);
            };
            if met.len() > MOST_CHAINS {
                return Ok(false);
            }
            add_rows(met, rows)?;
        }
        Ok(true)
    }

    // Of these rows of chains, those that not every set's auth chain has, nor that of the shared events.
    fn partly_met(
        &self,
        alloc: Global,
        shared: &[EventNo],
        apart: &[Vec<EventNo>],
        met: &[Reached],
    ) -> Result<Option<Vec<EventNo>>, AllocError>
        requires { AreLinked (place_at self.now.places.items) }
        ensures set { IfOk result (λ found. IfSome found (λ events.
            (p : ℕ) → is_in events.items p ≡ list_any (λ e. is_partly_met (place_at self.now.places.items)
            (kept_at self.now.reached.items) shared.now apart.now e p) met.now)) }
        ensures answers { IfOk result (λ found. AreKept (kept_at self.now.reached.items) shared.now
            → All (λ others. AreKept (kept_at self.now.reached.items) others.items) apart.now → IsSome found) }
    {
        let mut found = Vec::new(alloc);
        for row in met {
            let Some(first) = self.first_apart(shared, apart, *row) else {
                return Ok(None);
            };
            self.add_chain(&mut found, row.last, first)?;
        }
        Ok(Some(found))
    }

    // From which number on the rows of a chain, up to a last one, are not in the auth chains of all sets, nor in that of the
    // shared events.
    fn first_apart(&self, shared: &[EventNo], apart: &[Vec<EventNo>], row: Reached) -> Option<usize>
        ensures first { IfSome result (λ first. (p : ℕ) → (nat_le first p && nat_le p row.last)
            ≡ (nat_le p row.last && is_apart (kept_at self.now.reached.items) shared.now apart.now row.chain p)) }
        ensures answers { AreKept (kept_at self.now.reached.items) shared.now
            → All (λ others. AreKept (kept_at self.now.reached.items) others.items) apart.now → IsSome result }
    {
        let end = row.last.index() + 1;
        let least = self.least_end(apart, row.chain, end)?;
        if least == end {
            return Some(end);
        }
        Some(greater(least, self.end_of(shared, row.chain)?))
    }

    // Adds the rows of a chain from a number on up to a last one.
    fn add_chain(
        &self,
        found: &mut Vec<EventNo>,
        last: EventNo,
        first: usize,
    ) -> Result<(), AllocError>
        requires { AreLinked (place_at self.now.places.items) }
        ensures { OnOk result ((p : ℕ) → is_in found.new.items p ≡ (is_in found.old.items p
            || is_between (place_at self.now.places.items) last first p)) }
    {
        if last.index() < first {
            return Ok(());
        }
        let mut next = Some(last);
        while let Some(row) = next {
            found.push(row)?;
            next = self.below(row, first);
        }
        Ok(())
    }

    // The row before a row in its chain, unless that is before a number.
    fn below(&self, row: EventNo, first: usize) -> Option<EventNo>
        requires { AreLinked (place_at self.now.places.items) }
        ensures { IsNextBelow (place_at self.now.places.items) row first result }
    {
        let below = self.place(row).below?;
        if below.index() < first {
            return None;
        }
        Some(below)
    }
}

// The lesser of two ends.
fn lesser(a: usize, b: usize) -> usize
    ensures { (p : ℕ) → nat_lt p result ≡ (nat_lt p a && nat_lt p b) }
{
    if a < b { a } else { b }
}
