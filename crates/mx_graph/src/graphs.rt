// The graph of a room.
ghost use Rattle.std.specs.Prelude.{◌≡◌, ◌+◌, ◌<◌, ◌≤◌, ◌↔◌, All, IfOk, IfSome, IsErrOf, IsSome, IsTrue, MatchOption, None, OnErr, OnOk, Some, [], ◌∷◌, ◌++◌, ◌&&◌, ℕ, filter_map, flat_map, length, map, nat_le};
ghost use Rattle.std.specs.List.{list_all};
ghost use Rattle.std.specs.Result.{result_err};
ghost use Rattle.mx_graph.specs.Adding.{add_error, is_known};
ghost use Rattle.mx_graph.specs.Depths.{AreBounds, depth_bound};
ghost use Rattle.mx_graph.specs.Edges.{Rises};
ghost use Rattle.mx_graph.specs.Graph as closure;
ghost use Rattle.mx_graph.specs.Record as definition;
ghost use Rattle.mx_graph.specs.Record.{is_in};
ghost use Rattle.mx_graph.specs.declared.refusals.NotAdded.{NotAdded as Cause};

use crate::auth_chains::{AuthChains, place_alone};
use crate::closing::reached;
use crate::closing_above::reached_above;
use crate::depths::bound_behind;
use crate::numbers::EventNo;
use crate::redactions::RedactionIndex;
use crate::refusals::{GraphError, NotAdded};
use crate::rows::GraphRow;
use mx_ident::EventId;
use std::alloc::{AllocError, Global};
use std::collections::BTreeMap;
use std::marker::Model;

/// The most rows of a graph.
pub const MOST_ROWS: usize = 50_000;

/// The events of a room in the order of their arrival, each with the earlier ones that it cites.
///
/// Each event id is there once, and each event that an event cites came before it. So what citations lead to from
/// some events, their ancestors and their auth chain, is found from the last one down.
///
/// Source: the Matrix specification, Server-Server API, "PDUs".
#[derive(Debug, Drop)]
pub struct Graph {
    alloc: Global,
    rows: Vec<GraphRow>,
    // What each row cites.
    prev_edges: Vec<Vec<EventNo>>,
    auth_edges: Vec<Vec<EventNo>>,
    auth_chains: AuthChains,
    numbers: BTreeMap<EventId, EventNo>,
    redactions: RedactionIndex,
    // For each row the greatest depth of it and of its ancestors.
    depth_bounds: Vec<u64>,
}

impl Model for Graph {
    ghost use Rattle.std.specs.Prelude.{List};
    ghost use Rattle.mx_graph.specs.Record.{Row};
    ghost use Rattle.mx_graph.specs.RowCode.{rows_code};

    ghost Value = { List Row };

    ghost coded = { rows_code };

    ghost use Rattle.mx_graph.specs.Inside.{IsIndexed};
    ghost use Rattle.mx_graph.specs.Redactions.{naming};

    ghost view = { λ g. g.rows.items };

    ghost invariant = { λ g. IsIndexed g.rows.items g.prev_edges.items g.auth_edges.items g.numbers.entries
        (naming g.redactions) g.auth_chains g.depth_bounds.items };
}

impl Graph {
    /// A graph with no rows.
    pub fn new(alloc: Global) -> Graph
        ensures { result ≡ [] }
    {
        Graph {
            alloc,
            rows: Vec::new(alloc),
            prev_edges: Vec::new(alloc),
            auth_edges: Vec::new(alloc),
            auth_chains: AuthChains::new(alloc),
            numbers: BTreeMap::new(alloc),
            redactions: RedactionIndex::new(alloc),
            depth_bounds: Vec::new(alloc),
        }
    }

    /// How many rows it has, at most [`MOST_ROWS`].
    pub fn len(&self) -> usize
        ensures len { result ≡ length self.now }
        ensures few { result ≤ MOST_ROWS }
        // Each id is there once, and each event that an event cites came before it.
        ensures sound { closure.IsSound self.now }
    {
        self.rows.len()
    }

    /// Whether it has no rows.
    pub fn is_empty(&self) -> bool
        ensures { IsTrue result ↔ (self.now ≡ []) }
    {
        self.rows.is_empty()
    }

    /// Adds a row at the end, and gives its number.
    ///
    /// `NotAdded` with the cause that [`Graph::check`] gives. At an error the rows stay. The time is that of a look-up
    /// for each event that the row cites.
    pub fn add(&mut self, row: GraphRow) -> Result<EventNo, GraphError>
        ensures ok { IfOk result (λ number. (self.new ≡ self.old ++ row ∷ []) × (number ≡ length self.old)) }
        ensures free { OnOk result (add_error self.old row ≡ None) }
        // It is tested first, so that memory may run out only where the row may be added.
        ensures refused { (cause : Cause)
            → (IsErrOf result (GraphError.NotAdded cause) ↔ (add_error self.old row ≡ Some cause)) }
        ensures err { OnErr result (self.new ≡ self.old) }
    {
        self.check(&row)?;
        let prev_events = self.numbers_of(row.event.prev_events())?;
        let auth_events = self.numbers_of(row.event.auth_events())?;
        let number = self.add_checked(row, prev_events, auth_events)?;
        Ok(number)
    }

    /// Whether a row may be added, and if not, why. It takes no memory.
    ///
    /// In this order: `Known`, its id is there already; `MissingPrevEvent` and `MissingAuthEvent`, one of its prev
    /// events or of its auth events is not there; `Full`, there are [`MOST_ROWS`] rows.
    #[tactic(auto, unfolding(crate::specs::Adding::add_error))]
    pub fn check(&self, row: &GraphRow) -> Result<(), NotAdded>
        ensures { result_err result ≡ add_error self.now row.now }
    {
        if self.find(&row.id).is_some() {
            return Err(NotAdded::Known);
        }
        if !self.has_all(row.event.prev_events()) {
            return Err(NotAdded::MissingPrevEvent);
        }
        if !self.has_all(row.event.auth_events()) {
            return Err(NotAdded::MissingAuthEvent);
        }
        if self.len() >= MOST_ROWS {
            return Err(NotAdded::Full);
        }
        Ok(())
    }

    // Whether it has the events with these ids.
    fn has_all(&self, ids: &[EventId]) -> bool
        ensures { result ≡ list_all (is_known self.now) ids.now }
    {
        ids.iter().all(|id| self.find(id).is_some())
    }

    // The numbers of the events with these ids, without those that are not there.
    fn numbers_of(&self, ids: &[EventId]) -> Result<Vec<EventNo>, AllocError>
        ensures { IfOk result (λ numbers. numbers.items ≡ filter_map (definition.place_of self.now) ids.now) }
    {
        ids.iter()
            .filter_map(|id| self.find(id))
            .collect(self.alloc)
    }

    /// [`add`](Graph::add) for a row that [`check`](Graph::check) lets pass, with the numbers of the events that it
    /// cites, so that none is looked up again. `AllocError` where no memory is left; the rows stay.
    pub fn add_checked(
        &mut self,
        row: GraphRow,
        prev_events: Vec<EventNo>,
        auth_events: Vec<EventNo>,
    ) -> Result<EventNo, AllocError>
        requires free { add_error self.old row ≡ None }
        requires prev { prev_events.items ≡ definition.prev_events self.old row.event }
        requires auth { auth_events.items ≡ definition.auth_events self.old row.event }
        ensures ok { IfOk result (λ number. (self.new ≡ self.old ++ row ∷ []) × (number ≡ length self.old)) }
        ensures err { OnErr result (self.new ≡ self.old) }
    {
        // What can fail goes first, so that an error leaves the rows as they were.
        let number = EventNo::at(self.rows.len() as u32);
        let id = row.id.clone()?;
        self.rows.reserve(1)?;
        self.prev_edges.reserve(1)?;
        self.auth_edges.reserve(1)?;
        self.depth_bounds.reserve(1)?;
        let reached = self
            .auth_chains
            .prepare(self.alloc, &self.rows, &self.auth_edges, &auth_events)?;
        self.numbers.insert(id, number)?;
        if let Err(refused) = self.redactions.add(self.alloc, &row.event, number) {
            self.numbers.remove(&row.id);
            return Err(refused);
        }
        let bound = bound_behind(&self.depth_bounds, row.event.depth(), &prev_events);
        self.rows.push(row).unwrap();
        self.prev_edges.push(prev_events).unwrap();
        self.auth_edges.push(auth_events).unwrap();
        self.auth_chains.places.push(place_alone(number)).unwrap();
        self.auth_chains.reached.push(reached).unwrap();
        self.depth_bounds.push(bound).unwrap();
        Ok(number)
    }

    /// Removes the last row, and gives it; with no rows it gives `None`. It takes no memory, and the time is logarithmic
    /// in the rows.
    pub fn remove_last(&mut self) -> Option<GraphRow>
        ensures { MatchOption result ((self.old ≡ []) × (self.new ≡ [])) (λ row. self.old ≡ self.new ++ row ∷ []) }
    {
        let row = self.rows.pop()?;
        self.prev_edges.pop();
        self.auth_edges.pop();
        self.auth_chains.places.pop();
        self.auth_chains.reached.pop();
        self.depth_bounds.pop();
        self.numbers.remove(&row.id);
        self.redactions.remove_last(&row.event);
        Some(row)
    }

    /// The number of the event with this id. It takes no memory, and the time is logarithmic in the rows.
    pub fn find(&self, id: &EventId) -> Option<EventNo>
        ensures place { result ≡ definition.place_of self.now id.now }
        ensures below { IfSome result (λ number. number < length self.now) }
    {
        self.numbers.get(id).copied()
    }

    /// The row with this number.
    pub fn row(&self, number: EventNo) -> &GraphRow
        requires { number < length self.now }
        ensures { result.now ≡ definition.row self.now number }
    {
        &self.rows[number.index()]
    }

    /// The prev events of the event with this number, in its order: each has a lower number.
    pub fn prev_events(&self, number: EventNo) -> &[EventNo]
        requires { number < length self.now }
        ensures cited { result.now ≡ definition.prev_events self.now (definition.event self.now number) }
        ensures lower { All (λ other. other < number) result.now }
    {
        &self.prev_edges[number.index()]
    }

    /// The auth events of the event with this number, in its order: each has a lower number.
    pub fn auth_events(&self, number: EventNo) -> &[EventNo]
        requires { number < length self.now }
        ensures cited { result.now ≡ definition.auth_events self.now (definition.event self.now number) }
        ensures lower { All (λ other. other < number) result.now }
    {
        &self.auth_edges[number.index()]
    }

    /// The greatest depth of an event and of its ancestors. It takes no memory.
    ///
    /// Source: own, for backfill and missing events (Matrix specification, Server-Server API, "Backfilling and
    /// retrieving missing events").
    pub fn depth_bound(&self, number: EventNo) -> u64
        requires { number < length self.now }
        ensures { result ≡ depth_bound self.now number }
    {
        self.depth_bounds[number.index()]
    }

    /// The redactions that name an event, rising, whether or not they were rejected. The event need not be there. It
    /// takes no memory, and the time is logarithmic in the redactions.
    ///
    /// Source: the Matrix specification, Room Version 6, "Redactions".
    pub fn redactions_of(&self, id: &EventId) -> &[EventNo]
        ensures named { result.now
            ≡ definition.events_where self.now (definition.names_in_redaction self.now id.now) }
        ensures rises { Rises result.now }
        ensures below { All (λ number. number < length self.now) result.now }
    {
        self.redactions.get(id)
    }

    /// The prev events of these events, their prev events, and so on, rising. A given event is among them only where
    /// another one leads to it.
    ///
    /// The time is that of the edges from the given events down, times a logarithm.
    pub fn ancestors(&self, alloc: Global, starts: &[EventNo]) -> Result<Vec<EventNo>, AllocError>
        ensures set { IfOk result (λ found. found.items ≡ closure.ancestors self.now starts.now) }
        ensures rises { IfOk result (λ found. Rises found.items) }
        ensures below { IfOk result (λ found. All (λ number. number < length self.now) found.items) }
    {
        let found = reached(alloc, &self.prev_edges, starts)?;
        Ok(found)
    }

    /// The auth events of these events, their auth events, and so on, rising. A given event is among them only where
    /// another one leads to it.
    ///
    /// The time is that of the edges from the given events down, times a logarithm. Source: the Matrix specification,
    /// Room Version 2, "State resolution", auth chain.
    pub fn auth_chain(&self, alloc: Global, starts: &[EventNo]) -> Result<Vec<EventNo>, AllocError>
        ensures set { IfOk result (λ found. found.items ≡ closure.auth_chain self.now starts.now) }
        ensures rises { IfOk result (λ found. Rises found.items) }
        ensures below { IfOk result (λ found. All (λ number. number < length self.now) found.items) }
    {
        let found = reached(alloc, &self.auth_edges, starts)?;
        Ok(found)
    }

    /// The events with this number or a greater one in the auth chain of these events, rising.
    ///
    /// The time is that of the edges of these events, and a few steps for each number from the least on. Source: the
    /// Matrix specification, Room Version 2, "State resolution", auth chain.
    pub fn auth_chain_above(
        &self,
        alloc: Global,
        starts: &[EventNo],
        least: EventNo,
    ) -> Result<Vec<EventNo>, AllocError>
        ensures set { IfOk result (λ found. (p : ℕ)
            → is_in found.items p ≡ (nat_le least p && is_in (closure.auth_chain self.now starts.now) p)) }
        ensures rises { IfOk result (λ found. Rises found.items) }
        ensures below { IfOk result (λ found. All (λ number. number < length self.now) found.items) }
    {
        let found = reached_above(alloc, &self.auth_edges, starts, least.index())?;
        Ok(found)
    }

    /// Whether an event is in the auth chain of some others, from what is kept of auth chains: no event is visited. `None`
    /// only where one of the others is not in the graph, or has more than 64 events in its auth chain.
    ///
    /// It takes no memory, and the time is that of the given events. Source: the Matrix specification, Room Version 2,
    /// "State resolution", auth chain.
    pub fn is_in_auth_chain(&self, event: EventNo, starts: &[EventNo]) -> Option<bool>
        ensures is { IfSome result (λ is_there. is_there ≡ is_in (closure.auth_chain self.now starts.now) event) }
        ensures answers { closure.HaveShortChains self.now starts.now → IsSome result }
    {
        self.auth_chains.has_in_chain(event, starts)
    }

    /// The events in the auth chains of some of these sets, and not of all, and not in the auth chain of what all sets
    /// share, in no order, from what is kept of auth chains: no other event is visited. `None` only where a given event is
    /// not in the graph, or there are more than 64 events in the auth chain of a shared one, or in that of all others
    /// together.
    ///
    /// The time is that of all given events, for each of these chains, and of what is found. Source: the Matrix
    /// specification, Room Version 2, "State resolution", auth difference.
    pub fn auth_difference(
        &self,
        alloc: Global,
        shared: &[EventNo],
        apart: &[Vec<EventNo>],
    ) -> Result<Option<Vec<EventNo>>, AllocError>
        ensures set { IfOk result (λ found. IfSome found (λ events. (p : ℕ) → is_in events.items p
            ≡ closure.is_in_difference self.now shared.now (map (λ others. others.items) apart.now) p)) }
        ensures answers { IfOk result (λ found. closure.HaveShortChains self.now shared.now
            → closure.HaveShortJointChain self.now (flat_map (λ others. others.items) apart.now) → IsSome found) }
    {
        let found = self.auth_chains.difference(alloc, shared, apart)?;
        Ok(found)
    }
}

/// A law: in a graph each id is there once, and each event that an event cites came before it.
pub fn graph_is_sound(graph: &Graph)
    ensures { closure.IsSound graph.now }
{
    let _ = graph.len();
}

/// A law: no event and none of its ancestors is deeper than its bound, and the bounds of the events that it follows are
/// not above its own.
pub fn depth_bounds_hold(graph: &Graph)
    ensures { AreBounds graph.now }
{
    graph_is_sound(graph);
}

/// A law: the ancestors and the auth chain of events are the least sets that have what these events cite and what
/// their own members cite.
pub fn closures_are_least()
    ensures { closure.ClosuresAreLeast }
{}
