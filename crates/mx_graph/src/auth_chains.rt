// An index of auth chains.
ghost use Rattle.std.specs.Prelude.{◌≡◌, ◌<◌, ◌≤◌, ℕ, Bool, IfOk, IfSome, IsSome, IsTrue, OnOk, [], is_some, length, true, vec_capacity, vec_len};
ghost use Rattle.mx_graph.specs.AuthChains.{alone, begun, following, kept_at, place_at, rows_of, some_cited_has, AreAdded, AreChains, AreDistinct, AreEnds, AreFew, AreKept, AreMet, AreReached, IsLast};
ghost use Rattle.mx_graph.specs.Edges.{cited};
ghost use Rattle.mx_graph.specs.Graph.{most_chains};
ghost use Rattle.mx_graph.specs.Record.{is_in};

use crate::numbers::EventNo;
use crate::reached_rows::{Reached, add_row, add_rows};
use crate::rows::GraphRow;
use std::alloc::{AllocError, Global};

/// The most chains that are kept for a row.
pub(crate) const MOST_CHAINS: usize = 64;

/// The place of a row in the chains.
///
/// Each row of a chain is in the auth chains of the later ones. A chain is named by its first row. A row that no row
/// cites is alone in a chain of its own, and nothing follows it.
#[derive(Clone, Copy, Debug, Drop)]
pub(crate) struct ChainPlace {
    pub(crate) chain: EventNo,
    // The row before it in its chain.
    pub(crate) below: Option<EventNo>,
    pub(crate) is_cited: bool,
    pub(crate) is_followed: bool,
}

/// For each row of a graph its place in the chains, and for each chain that its auth chain meets the last of the chain's
/// rows there: with these the auth chain has all earlier rows of the chain.
///
/// A row gets its place when it is first cited: after the last row of a chain that it cites itself, if that has the same
/// type and state key. So states that are replaced again and again, as power levels, make one chain. For a row whose auth
/// chain meets more than 64 chains nothing is kept.
#[derive(Debug, Drop)]
pub(crate) struct AuthChains {
    pub(crate) places: Vec<ChainPlace>,
    pub(crate) reached: Vec<Option<Vec<Reached>>>,
}

impl AuthChains {
    // An index of no rows.
    pub fn new(alloc: Global) -> AuthChains
        ensures places { result.places.items ≡ [] }
        ensures reached { result.reached.items ≡ [] }
    {
        AuthChains {
            places: Vec::new(alloc),
            reached: Vec::new(alloc),
        }
    }

    // The place of a row.
    pub fn place(&self, event: EventNo) -> ChainPlace
        ensures { result ≡ place_at self.now.places.items event }
    {
        match self.places.get(event.index()) {
            Some(place) => *place,
            None => place_alone(event),
        }
    }

    // What is kept for a row, if anything is.
    pub fn kept(&self, event: EventNo) -> Option<&[Reached]>
        ensures rows { IfSome result (λ found. found.now ≡ rows_of (kept_at self.now.reached.items event)) }
        ensures there { is_some result ≡ is_some (kept_at self.now.reached.items event) }
    {
        match self.reached.get(event.index())? {
            Some(found) => Some(found),
            None => None,
        }
    }

    // Makes room for one more row, which cites these, and gives what is to be kept for it. At an error too it may be that the
    // cited ones have got their places.
    pub fn prepare(
        &mut self,
        alloc: Global,
        rows: &[GraphRow],
        edges: &[Vec<EventNo>],
        events: &[EventNo],
    ) -> Result<Option<Vec<Reached>>, AllocError>
        ensures len { length self.new.places.items ≡ length self.old.places.items }
        ensures reached { self.new.reached.items ≡ self.old.reached.items }
        ensures chains { (meets : ℕ → ℕ → Bool) → AreMet (cited edges.now) meets
            → AreChains meets (place_at self.old.places.items) (kept_at self.old.reached.items)
            → AreChains meets (place_at self.new.places.items) (kept_at self.old.reached.items) }
        ensures places_room { OnOk result (vec_len self.new.places < vec_capacity self.new.places) }
        ensures reached_room { OnOk result (vec_len self.new.reached < vec_capacity self.new.reached) }
        ensures found { IfOk result (λ found. IfSome found (λ own.
            AreReached (place_at self.new.places.items) (kept_at self.new.reached.items) events.now own.items)) }
        ensures distinct { IfOk result (λ found. IfSome found (λ own. AreDistinct own.items)) }
        ensures answers { IfOk result (λ found. ((q : ℕ) → is_in events.now q ≡ true → q < length self.new.places.items)
            → AreKept (kept_at self.new.reached.items) events.now
            → ((r : ℕ) → AreEnds (place_at self.new.places.items) (rows_of (kept_at self.new.reached.items r)))
            → AreFew (place_at self.new.places.items)
            (some_cited_has (place_at self.new.places.items) (kept_at self.new.reached.items) events.now)
            → IsSome found) }
    {
        self.cite(rows, edges, events);
        self.places.reserve(1)?;
        self.reached.reserve(1)?;
        let found = self.reached_from(alloc, events)?;
        Ok(found)
    }

    // These rows are cited: those that were not yet get their places.
    fn cite(&mut self, rows: &[GraphRow], edges: &[Vec<EventNo>], events: &[EventNo])
        ensures len { length self.new.places.items ≡ length self.old.places.items }
        ensures reached { self.new.reached ≡ self.old.reached }
        ensures chains { (meets : ℕ → ℕ → Bool) → AreMet (cited edges.now) meets
            → AreChains meets (place_at self.old.places.items) (kept_at self.old.reached.items)
            → AreChains meets (place_at self.new.places.items) (kept_at self.old.reached.items) }
        ensures cited { (q : ℕ) → is_in events.now q ≡ true → q < length self.old.places.items
            → (place_at self.new.places.items q).is_cited ≡ true }
    {
        for event in events {
            self.cite_one(rows, edges, *event);
        }
    }

    fn cite_one(&mut self, rows: &[GraphRow], edges: &[Vec<EventNo>], event: EventNo)
        ensures len { length self.new.places.items ≡ length self.old.places.items }
        ensures reached { self.new.reached ≡ self.old.reached }
        ensures chains { (meets : ℕ → ℕ → Bool) → AreMet (cited edges.now) meets
            → AreChains meets (place_at self.old.places.items) (kept_at self.old.reached.items)
            → AreChains meets (place_at self.new.places.items) (kept_at self.old.reached.items) }
        ensures cited { event < length self.old.places.items → (place_at self.new.places.items event).is_cited ≡ true }
        ensures stays { (q : ℕ) → (place_at self.old.places.items q).is_cited ≡ true
            → (place_at self.new.places.items q).is_cited ≡ true }
    {
        if event.index() >= self.places.len() || self.places[event.index()].is_cited {
            return;
        }
        match self.last_before(rows, edges, event) {
            Some(last) => self.follow(event, last),
            None => self.begin(event),
        }
    }

    // A row begins a chain.
    fn begin(&mut self, event: EventNo)
        requires { event < length self.old.places.items }
        ensures len { length self.new.places.items ≡ length self.old.places.items }
        ensures reached { self.new.reached ≡ self.old.reached }
        ensures places { (p : ℕ) → place_at self.new.places.items p ≡ begun (place_at self.old.places.items) event p }
    {
        let place = self.places[event.index()];
        self.places[event.index()] = ChainPlace {
            is_cited: true,
            ..place
        };
    }

    // A row comes after the last row of a chain.
    fn follow(&mut self, event: EventNo, last: EventNo)
        requires event { event < length self.old.places.items }
        requires last { last < length self.old.places.items }
        ensures len { length self.new.places.items ≡ length self.old.places.items }
        ensures reached { self.new.reached ≡ self.old.reached }
        ensures places { (p : ℕ)
            → place_at self.new.places.items p ≡ following (place_at self.old.places.items) event last p }
    {
        let before = self.places[last.index()];
        self.places[event.index()] = ChainPlace {
            chain: before.chain,
            below: Some(last),
            is_cited: true,
            is_followed: false,
        };
        self.places[last.index()] = ChainPlace {
            is_followed: true,
            ..before
        };
    }

    // The last row of a chain that a row cites and may come after.
    fn last_before(
        &self,
        rows: &[GraphRow],
        edges: &[Vec<EventNo>],
        event: EventNo,
    ) -> Option<EventNo>
        ensures cited { IfSome result (λ last. is_in (cited edges.now event) last ≡ true) }
        ensures place { IfSome result (λ last. IsLast (place_at self.now.places.items last)) }
        ensures here { IfSome result (λ last. last < length self.now.places.items) }
    {
        if event.index() >= edges.len() {
            return None;
        }
        let found = self.last_among(rows, event, &edges[event.index()]);
        found
    }

    fn last_among(&self, rows: &[GraphRow], event: EventNo, others: &[EventNo]) -> Option<EventNo>
        ensures cited { IfSome result (λ last. is_in others.now last ≡ true) }
        ensures place { IfSome result (λ last. IsLast (place_at self.now.places.items last)) }
        ensures here { IfSome result (λ last. last < length self.now.places.items) }
    {
        for other in others {
            if self.is_last(*other) && have_one_key(rows, event, *other) {
                return Some(*other);
            }
        }
        None
    }

    // Whether a row is the last one of its chain, and cited.
    fn is_last(&self, event: EventNo) -> bool
        ensures place { IsTrue result → IsLast (place_at self.now.places.items event) }
        ensures here { IsTrue result → event < length self.now.places.items }
    {
        if event.index() >= self.places.len() {
            return false;
        }
        let place = self.places[event.index()];
        place.is_cited && !place.is_followed
    }

    // The rows that the auth chain of a row has which cites these, the last one of each chain; `None` where they are of too
    // many chains. The time is that of what is kept for these, times the chains.
    fn reached_from(
        &self,
        alloc: Global,
        events: &[EventNo],
    ) -> Result<Option<Vec<Reached>>, AllocError>
        ensures found { IfOk result (λ found. IfSome found (λ rows.
            AreReached (place_at self.now.places.items) (kept_at self.now.reached.items) events.now rows.items)) }
        ensures distinct { IfOk result (λ found. IfSome found (λ rows. AreDistinct rows.items)) }
        ensures answers { IfOk result (λ found.
            ((q : ℕ) → is_in events.now q ≡ true → (place_at self.now.places.items q).is_cited ≡ true)
            → AreKept (kept_at self.now.reached.items) events.now
            → ((r : ℕ) → AreEnds (place_at self.now.places.items) (rows_of (kept_at self.now.reached.items r)))
            → AreFew (place_at self.now.places.items)
            (some_cited_has (place_at self.now.places.items) (kept_at self.now.reached.items) events.now)
            → IsSome found) }
    {
        let mut found = Vec::new(alloc);
        for event in events {
            if !self.add_cited(&mut found, *event)? {
                return Ok(None);
            }
        }
        if found.len() > MOST_CHAINS {
            return Ok(None);
        }
        Ok(Some(found))
    }

    // Adds a row that is cited, and those of its auth chain; false where that can't be told.
    fn add_cited(&self, found: &mut Vec<Reached>, event: EventNo) -> Result<bool, AllocError>
        ensures added { IfOk result (λ done. IsTrue done → AreAdded (place_at self.now.places.items)
            (kept_at self.now.reached.items) event found.old.items found.new.items) }
        ensures distinct { OnOk result (AreDistinct found.old.items → AreDistinct found.new.items) }
        ensures answers { IfOk result (λ done. (place_at self.now.places.items event).is_cited ≡ true
            → is_some (kept_at self.now.reached.items event) ≡ true → length found.old.items ≤ most_chains
            → IsTrue done) }
    {
        let place = self.place(event);
        let Some(others) = self.kept(event) else {
            return Ok(false);
        };
        if !place.is_cited || found.len() > MOST_CHAINS {
            return Ok(false);
        }
        add_rows(found, others)?;
        let own = Reached {
            chain: place.chain,
            last: event,
        };
        add_row(found, own)?;
        Ok(true)
    }
}

/// The place of a row that no row cites.
pub(crate) fn place_alone(event: EventNo) -> ChainPlace
    ensures { result ≡ alone event }
{
    ChainPlace {
        chain: event,
        below: None,
        is_cited: false,
        is_followed: false,
    }
}

// Whether two rows are of the same type and state key.
fn have_one_key(rows: &[GraphRow], event: EventNo, other: EventNo) -> bool {
    match (rows.get(event.index()), rows.get(other.index())) {
        (Some(row), Some(other_row)) => {
            row.event.state_key().is_some()
                && row.event.state_key() == other_row.event.state_key()
                && row.event.kind() == other_row.event.kind()
        }
        _ => false,
    }
}
