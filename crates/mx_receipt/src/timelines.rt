// A room's events under their verdicts.
ghost use Rattle.std.specs.Prelude.{◌≡◌, ◌<◌, ◌≤◌, ◌↔◌, ◌++◌, ◌∷◌, All, IfOk, IfSome, IsErrOf, None, OnErr, OnOk, Option, Some, [], ℕ, is_none, length, option_copied, option_map, take};
ghost use Rattle.std.specs.List.{list_any};
ghost use Rattle.std.specs.Fn.{FnOnceReturnsAt};
ghost use Rattle.std.specs.Result.{result_err};
ghost use Rattle.mx_graph.specs.Depths.{AreBounds, depth_bound};
ghost use Rattle.mx_graph.specs.Edges.{Rises};
ghost use Rattle.mx_graph.specs.Graph as closure;
ghost use Rattle.mx_graph.specs.Record as record_of;
ghost use Rattle.mx_graph.specs.Record.{place_of, row as row_at};
ghost use Rattle.mx_receipt.specs.Receipt as definition;
ghost use Rattle.mx_receipt.specs.Receipt.{AreJudged, Kept};
ghost use Rattle.mx_receipt.specs.TimelineView.{IsSoundCreate};
ghost use Rattle.mx_receipt.specs.Timelines.{IsTimeline};
ghost use Rattle.mx_receipt.specs.declared.refusals.NotReceived.{NotReceived as Cause};

use crate::closures::{earlier_ancestors, earlier_auth_chain};
use crate::covering::mark_covered;
use crate::receiving::{Latest, TakenEvent, begin_in, last_event, prepare_checked_in, remove_last};
use crate::redactions::below_count;
use crate::refusals::{NotReceived, OfferError};
use crate::resolution_cache::ResolutionCache;
use crate::room_states::created_version;
use crate::snapshots::Judgement;
use crate::verdicts::Verdict;
use mx_auth::RoomVersion;
use mx_graph::{EventNo, Graph, GraphRow, MOST_ROWS, graph_is_sound};
use mx_ident::EventId;
use mx_pdu::Pdu;
use mx_states::{StateNo, StateRef, States};
use std::alloc::{AllocError, Global};
use std::marker::Model;
use std::mem;

// What an event that is prepared will make of the room.
#[derive(Debug, Drop)]
pub(crate) struct Prepared {
    pub extremities: Vec<EventNo>,
    // The events that it covers.
    pub covered: Vec<EventNo>,
    pub current: StateNo,
    // How many states there were before it.
    pub states: usize,
}

/// The events of a room in the order of their arrival, each under its verdict, with the states before and after each,
/// the forward extremities and the current state.
///
/// An event can be received in one step ([`offer`](Timeline::offer)), or in two: [`prepare`](Timeline::prepare) makes
/// whatever needs memory, and [`install`](Timeline::install), which needs none, adds the event.
///
/// Source: the Matrix specification, Server-Server API, "Checks performed on receipt of a PDU".
#[derive(Debug, Drop)]
pub struct Timeline {
    alloc: Global,
    graph: Graph,
    states: States,
    resolutions: ResolutionCache,
    // One for each row of the graph.
    judgements: Vec<Judgement>,
    extremities: Vec<EventNo>,
    current: StateNo,
    // Where an event is prepared, the last row is its row.
    prepared: Option<Prepared>,
}

impl Model for Timeline {
    ghost use Rattle.mx_receipt.specs.Judgements.{judged_in};
    ghost use Rattle.mx_receipt.specs.Resolutions.{AreRight};
    ghost use Rattle.mx_receipt.specs.TimelineView.{TimelineView, timeline_code};
    ghost use Rattle.mx_receipt.specs.Timelines.{IsTimeline, kept_in, prepared_in};

    ghost Value = { TimelineView };

    ghost coded = { timeline_code };

    ghost view = { λ t. record {
      kept = kept_in t.graph (judged_in t.states t.judgements.items) t.prepared;
      prepared = prepared_in t.graph (judged_in t.states t.judgements.items) t.prepared;
    } };

    ghost invariant = { λ t. IsTimeline t.graph t.states t.judgements.items t.extremities.items t.current t.prepared
        × AreRight t.graph t.states t.resolutions };
}

impl Timeline {
    /// The timeline that a create event begins. It is accepted.
    pub fn begin(alloc: Global, event: Pdu, id: EventId) -> Result<Timeline, AllocError>
        requires { IsSoundCreate event }
        ensures { IfOk result (λ timeline. timeline ≡ record { kept = definition.begun id event; prepared = None }) }
    {
        let mut graph = Graph::new(alloc);
        let mut states = States::new(alloc);
        let mut resolutions = ResolutionCache::new(alloc)?;
        let mut judgements = Vec::new(alloc);
        let first = begin_in(
            alloc,
            &mut graph,
            &mut states,
            &mut resolutions,
            &mut judgements,
            event,
            id,
        )?;
        Ok(Timeline {
            alloc,
            graph,
            states,
            resolutions,
            judgements,
            extremities: first.extremities,
            current: first.current,
            prepared: None,
        })
    }

    /// The version of the room, which its create event names. It takes no memory.
    ///
    /// Source: the Matrix specification, `m.room.create`.
    pub fn version(&self) -> RoomVersion
        ensures { result ≡ definition.version_in (definition.rows_of self.now.kept) }
    {
        if self.len() == 0 {
            return RoomVersion::V6;
        }
        created_version(&self.row(EventNo::at(0)).event)
    }

    /// How many events the room has.
    pub fn len(&self) -> usize
        ensures { result ≡ length self.now.kept }
    {
        match &self.prepared {
            Some(_) => self.judgements.len() - 1,
            None => self.judgements.len(),
        }
    }

    /// The number of the event with this id. It takes no memory, and the time is logarithmic in the events.
    pub fn find(&self, id: &EventId) -> Option<EventNo>
        ensures place { result ≡ place_of (definition.rows_of self.now.kept) id.now }
        ensures below { IfSome result (λ number. number < length self.now.kept) }
    {
        match self.graph.find(id) {
            Some(number) => {
                if number.index() < self.len() {
                    Some(number)
                } else {
                    None
                }
            }
            None => None,
        }
    }

    /// The redactions that name an event, rising, whatever the verdicts on them. The event need not be there. It takes
    /// no memory, and the time is logarithmic in the redactions.
    ///
    /// Source: the Matrix specification, Room Version 6, "Redactions".
    pub fn redactions_naming(&self, id: &EventId) -> &[EventNo]
        ensures named { result.now ≡ record_of.events_where (definition.rows_of self.now.kept)
            (record_of.names_in_redaction (definition.rows_of self.now.kept) id.now) }
        ensures below { All (λ number. number < length self.now.kept) result.now }
    {
        below_count(self.graph.redactions_of(id), self.len())
    }

    /// The event with this number as it is kept, with its id, and whether it was rejected.
    pub fn row(&self, number: EventNo) -> &GraphRow
        requires { number < length self.now.kept }
        ensures { result.now ≡ row_at (definition.rows_of self.now.kept) number }
    {
        self.graph.row(number)
    }

    /// The prev events of the event with this number, in its order: each has a lower number. It takes no memory.
    pub fn prev_events(&self, number: EventNo) -> &[EventNo]
        requires { number < length self.now.kept }
        ensures cited { result.now ≡ record_of.prev_events (definition.rows_of self.now.kept)
            (record_of.event (definition.rows_of self.now.kept) number) }
        ensures lower { All (λ other. other < number) result.now }
    {
        graph_is_sound(&self.graph);
        self.graph.prev_events(number)
    }

    /// The greatest depth of the event with this number and of its ancestors. It takes no memory.
    ///
    /// Source: own, for backfill and missing events (Matrix specification, Server-Server API, "Backfilling and
    /// retrieving missing events").
    pub fn depth_bound(&self, number: EventNo) -> u64
        requires { number < length self.now.kept }
        ensures { result ≡ depth_bound (definition.rows_of self.now.kept) number }
    {
        graph_is_sound(&self.graph);
        self.graph.depth_bound(number)
    }

    /// The events as a graph, where none is prepared: that one would stand behind them.
    pub fn graph(&self) -> &Graph
        requires { self.now.prepared ≡ None }
        ensures { result.now ≡ definition.rows_of self.now.kept }
    {
        &self.graph
    }

    /// The event that is prepared, in the form in which it would be kept; none where none is prepared. It takes no
    /// memory.
    pub fn prepared_event(&self) -> Option<&Pdu>
        ensures { option_copied result ≡ option_map (λ (kept : Kept). kept.event) self.now.prepared }
    {
        match &self.prepared {
            Some(_) => Some(last_event(&self.graph)),
            None => None,
        }
    }

    /// The verdict on the event with this number.
    pub fn verdict(&self, number: EventNo) -> Verdict
        requires { number < length self.now.kept }
        ensures { result ≡ (definition.kept_at self.now.kept number).verdict }
    {
        self.judgements[number.index()].verdict
    }

    /// The state before the event with this number: the resolution of the states after its prev events.
    pub fn state_before(&self, number: EventNo) -> StateRef<'_>
        requires { number < length self.now.kept }
        ensures { result ≡ definition.state_before self.now.kept number }
    {
        self.states.state(self.judgements[number.index()].before)
    }

    /// The state after the event with this number: that before it, with the event where it is a state event and was not
    /// rejected.
    pub fn state_after(&self, number: EventNo) -> StateRef<'_>
        requires { number < length self.now.kept }
        ensures { result ≡ definition.state_after self.now.kept number }
    {
        self.states.state(self.judgements[number.index()].after)
    }

    /// The current state when the event with this number came, by the events before it: it judges the event last.
    ///
    /// Source: the Matrix specification, Server-Server API, "Checks performed on receipt of a PDU", soft failure.
    pub fn current_before(&self, number: EventNo) -> StateRef<'_>
        requires { number < length self.now.kept }
        ensures { result ≡ definition.current_state (take number self.now.kept) }
    {
        self.states.state(self.judgements[number.index()].current)
    }

    /// The room's current state: the resolution of the states after the forward extremities.
    ///
    /// Source: the Matrix specification, Server-Server API, "Checks performed on receipt of a PDU", soft failure.
    pub fn current(&self) -> StateRef<'_>
        ensures { result ≡ definition.current_state self.now.kept }
    {
        self.states.state(self.current)
    }

    /// The forward extremities, rising: the accepted events that are no ancestors of accepted events.
    pub fn extremities(&self) -> &[EventNo]
        ensures forward { result.now ≡ definition.forward_extremities self.now.kept }
        ensures below { All (λ number. number < length self.now.kept) result.now }
    {
        &self.extremities
    }

    /// The prev events of these events, their prev events, and so on, rising. A given event is among them only where
    /// another one leads to it. `AllocError` where no memory is left.
    ///
    /// The time is that of [`Graph::ancestors`].
    pub fn ancestors(&self, alloc: Global, starts: &[EventNo]) -> Result<Vec<EventNo>, AllocError>
        requires { All (λ start. start < length self.now.kept) starts.now }
        ensures set { IfOk result (λ found. found.items ≡ closure.ancestors (definition.rows_of self.now.kept) starts.now) }
        ensures rises { IfOk result (λ found. Rises found.items) }
        ensures below { IfOk result (λ found. All (λ number. number < length self.now.kept) found.items) }
    {
        let found = earlier_ancestors(alloc, &self.graph, starts)?;
        Ok(found)
    }

    /// The auth events of these events, their auth events, and so on, rising. A given event is among them only where
    /// another one leads to it. `AllocError` where no memory is left.
    ///
    /// The time is that of [`Graph::auth_chain`]. Source: the Matrix specification, Room Version 2, "State resolution",
    /// auth chain.
    pub fn auth_chain(&self, alloc: Global, starts: &[EventNo]) -> Result<Vec<EventNo>, AllocError>
        requires { All (λ start. start < length self.now.kept) starts.now }
        ensures set { IfOk result (λ found. found.items ≡ closure.auth_chain (definition.rows_of self.now.kept) starts.now) }
        ensures rises { IfOk result (λ found. Rises found.items) }
        ensures below { IfOk result (λ found. All (λ number. number < length self.now.kept) found.items) }
    {
        let found = earlier_auth_chain(alloc, &self.graph, starts)?;
        Ok(found)
    }

    /// Whether the room takes an event, and if not, the first cause that holds. It takes no memory.
    ///
    /// The time is that of a look-up for each event that it cites. Source: the Matrix specification, Server-Server API,
    /// "Checks performed on receipt of a PDU".
    #[tactic(auto, unfolding(crate::specs::Receipt::offer_error))]
    pub fn check(&self, event: &Pdu, id: &EventId) -> Result<(), NotReceived>
        ensures { result_err result ≡ definition.offer_error (definition.rows_of self.now.kept) id.now event.now }
    {
        if self.find(id).is_some() {
            return Err(NotReceived::Known);
        }
        if event.kind() == "m.room.create" {
            return Err(NotReceived::SecondCreate);
        }
        if self.lacks_cited(event) {
            return Err(NotReceived::MissingEvents);
        }
        if self.len() >= MOST_ROWS {
            return Err(NotReceived::RoomFull);
        }
        Ok(())
    }

    // Whether an event that it follows or rests on is not held.
    fn lacks_cited(&self, event: &Pdu) -> bool
        ensures { result ≡ definition.lacks_cited (definition.rows_of self.now.kept) event.now }
    {
        self.lacks_any(event.prev_events()) || self.lacks_any(event.auth_events())
    }

    fn lacks_any(&self, ids: &[EventId]) -> bool
        ensures { result ≡ list_any (λ id. is_none (place_of (definition.rows_of self.now.kept) id)) ids.now }
    {
        ids.iter().any(|id| self.find(id).is_none())
    }

    /// Receives an event: judges it and adds it to the room.
    ///
    /// `NotReceived` with the first cause that holds, and `Memory`; at an error the room stays. The time is that of a
    /// look-up for each event that it cites, of the rules, and of a resolution where its prev events, or the forward
    /// extremities, are several.
    ///
    /// Source: the Matrix specification, Server-Server API, "Checks performed on receipt of a PDU".
    pub fn offer(&mut self, event: Pdu, id: EventId) -> Result<Verdict, OfferError>
        ensures verdict { IfOk result (λ verdict. verdict ≡ definition.verdict self.old.kept event) }
        ensures received { OnOk result (self.new ≡ record { kept = definition.received self.old.kept (id, event); prepared = None }) }
        ensures free { OnOk result (definition.offer_error (definition.rows_of self.old.kept) id event ≡ None) }
        ensures refused { (cause : Cause) → (IsErrOf result (OfferError.NotReceived cause)
            ↔ (definition.offer_error (definition.rows_of self.old.kept) id event ≡ Some cause)) }
        ensures err { OnErr result (self.new ≡ record { kept = self.old.kept; prepared = None }) }
    {
        let verdict = self.prepare(event, id);
        self.install();
        verdict
    }

    /// Judges an event and makes whatever needs memory to add it, and changes nothing else. An event that was prepared
    /// before is given up.
    ///
    /// The errors are those of [`offer`](Timeline::offer).
    pub fn prepare(&mut self, event: Pdu, id: EventId) -> Result<Verdict, OfferError>
        ensures verdict { IfOk result (λ verdict. verdict ≡ definition.verdict self.old.kept event) }
        ensures prepared { OnOk result (self.new ≡ record {
          kept = self.old.kept;
          prepared = Some (definition.judged self.old.kept id event);
        }) }
        ensures free { OnOk result (definition.offer_error (definition.rows_of self.old.kept) id event ≡ None) }
        ensures refused { (cause : Cause) → (IsErrOf result (OfferError.NotReceived cause)
            ↔ (definition.offer_error (definition.rows_of self.old.kept) id event ≡ Some cause)) }
        ensures err { OnErr result (self.new ≡ record { kept = self.old.kept; prepared = None }) }
    {
        self.discard();
        self.check(&event, &id)?;
        let verdict = self.prepare_checked(event, id)?;
        Ok(verdict)
    }

    /// [`prepare`](Timeline::prepare) for an event that [`check`](Timeline::check) lets pass, which it does not ask
    /// again. `AllocError` where no memory is left.
    pub fn prepare_checked(&mut self, event: Pdu, id: EventId) -> Result<Verdict, AllocError>
        requires { definition.offer_error (definition.rows_of self.old.kept) id event ≡ None }
        ensures verdict { IfOk result (λ verdict. verdict ≡ definition.verdict self.old.kept event) }
        ensures prepared { OnOk result (self.new ≡ record {
          kept = self.old.kept;
          prepared = Some (definition.judged self.old.kept id event);
        }) }
        ensures err { OnErr result (self.new ≡ record { kept = self.old.kept; prepared = None }) }
    {
        self.discard();
        let count = self.states.len();
        match prepare_checked_in(
            self.alloc,
            &mut self.graph,
            &mut self.states,
            &mut self.resolutions,
            &mut self.judgements,
            &Latest {
                extremities: &self.extremities,
                current: self.current,
            },
            TakenEvent { event, id },
        ) {
            Ok((verdict, prepared)) => {
                self.prepared = Some(prepared);
                Ok(verdict)
            }
            Err(refused) => {
                self.states.truncate(count);
                self.resolutions.clear();
                Err(refused)
            }
        }
    }

    /// Adds the event that is prepared. It takes no memory.
    pub fn install(&mut self)
        ensures { self.new ≡ record { kept = definition.installed self.old.kept self.old.prepared; prepared = None } }
    {
        if let Some(prepared) = self.prepared.take() {
            mark_covered(&mut self.judgements, &prepared.covered);
            self.extremities = prepared.extremities;
            self.current = prepared.current;
        }
    }

    /// What is read of the timeline as it will be when the event that is prepared is installed, or as it is where none
    /// is prepared. Nothing changes, and only what is read may take memory.
    pub fn as_installed<A, F: FnOnce(&Timeline) -> A>(&mut self, read: F) -> A
        requires { F.IsAlwaysCallable read }
        ensures answer { FnOnceReturnsAt F.FnOnce read (record {
          kept = definition.installed self.old.kept self.old.prepared;
          prepared = None;
        }) result }
        ensures stays { self.new ≡ self.old }
    {
        match self.prepared.take() {
            Some(mut prepared) => {
                mem::swap(&mut self.extremities, &mut prepared.extremities);
                mem::swap(&mut self.current, &mut prepared.current);
                let answer = read(self);
                mem::swap(&mut self.extremities, &mut prepared.extremities);
                mem::swap(&mut self.current, &mut prepared.current);
                self.prepared = Some(prepared);
                answer
            }
            None => read(self),
        }
    }

    /// Gives up an event that is prepared. It takes no memory.
    pub fn discard(&mut self)
        ensures { self.new ≡ record { kept = self.old.kept; prepared = None } }
    {
        if let Some(prepared) = self.prepared.take() {
            remove_last(&mut self.graph, &mut self.judgements);
            self.states.truncate(prepared.states);
            self.resolutions.clear();
        }
    }
}

/// A law: a timeline has at most [`MOST_ROWS`] events, and the events of its states are its own.
pub fn timeline_is_sound(timeline: &Timeline)
    ensures few { length timeline.now.kept ≤ MOST_ROWS }
    ensures current { All (λ e. e.1 < length timeline.now.kept) (definition.current_state timeline.now.kept) }
    ensures before { (number : ℕ) → number < length timeline.now.kept
        → All (λ e. e.1 < length timeline.now.kept) (definition.state_before timeline.now.kept number) }
    ensures after { (number : ℕ) → number < length timeline.now.kept
        → All (λ e. e.1 < length timeline.now.kept) (definition.state_after timeline.now.kept number) }
{
    let _ = timeline.graph.len();
}

/// A law: each event of a timeline but the first is under the verdict that the events before it give it.
pub fn timeline_is_judged(timeline: &Timeline)
    ensures { AreJudged timeline.now.kept }
{
    let _ = timeline.graph.len();
}

/// A law: each event of a timeline has an id of its own.
pub fn timeline_ids_differ(timeline: &Timeline)
    ensures { (x y : ℕ) → x < length timeline.now.kept → y < length timeline.now.kept
        → (row_at (definition.rows_of timeline.now.kept) x).id ≡ (row_at (definition.rows_of timeline.now.kept) y).id → x ≡ y }
{
    graph_is_sound(&timeline.graph);
}

/// A law: in a timeline each id is there once, each event that an event cites came before it, and neither an event nor an
/// ancestor of it is deeper than its bound.
pub fn timeline_depths_hold(timeline: &Timeline)
    ensures sound { closure.IsSound (definition.rows_of timeline.now.kept) }
    ensures bounds { AreBounds (definition.rows_of timeline.now.kept) }
{
    graph_is_sound(&timeline.graph);
}
