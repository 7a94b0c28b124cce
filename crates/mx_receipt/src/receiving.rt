// The receipt of an event.
ghost use Rattle.std.specs.Prelude.{◌≡◌, ◌<◌, ◌++◌, ◌∷◌, All, IfOk, IfSome, None, OnErr, OnOk, [], ℕ, List, false, length, true};
ghost use Rattle.mx_graph.specs.Adding.{add_error};
ghost use Rattle.mx_graph.specs.Edges.{Rises};
ghost use Rattle.mx_graph.specs.Graph.{IsSound};
ghost use Rattle.mx_graph.specs.Record as record_of;
ghost use Rattle.mx_graph.specs.Record.{is_in};
ghost use Rattle.mx_graph.specs.StateMap.{State};
ghost use Rattle.mx_state_res.specs.Numbered.{AreAdded, AreKnown};
ghost use Rattle.mx_states.specs.Numbered.{state_at};
ghost use Rattle.mx_receipt.specs.Judgements.{AreAfter, AreBelow, AreCovered, ArePast, AreSorted, IsAdded, IsHeld, IsJudged, afters, is_marked, judged_by, judged_in, kept_of, numbers_at, replaced, verdicts_in};
ghost use Rattle.mx_receipt.specs.Receipt as definition;
ghost use Rattle.mx_receipt.specs.Resolutions.{AreRight, IsResolution};
ghost use Rattle.mx_graph.specs.Record.{Row};
ghost use Rattle.mx_receipt.specs.TimelineView.{IsSoundCreate};
ghost use Rattle.mx_receipt.specs.declared.snapshots.Judgement.{Judgement as Judged};

use crate::citing::{Cited, cited_by};
use crate::covering::{NextExtremities, next_extremities};
use crate::judging::judged;
use crate::resolution_cache::ResolutionCache;
use crate::snapshots::{Judgement, resolved_after, same_after, state_after};
use crate::timelines::Prepared;
use crate::verdicts::Verdict;
use mx_graph::{EventNo, Graph, GraphRow, graph_is_sound, rising};
use mx_ident::EventId;
use mx_pdu::Pdu;
use mx_states::{StateNo, States};
use std::alloc::{AllocError, Global};

/// What stands last in a room: its forward extremities, and the current state, which they resolve to.
#[derive(Clone, Copy, Debug)]
pub(crate) struct Latest<'r> {
    pub extremities: &'r [EventNo],
    pub current: StateNo,
}

/// An event with its id, which the room takes.
#[derive(Debug, Drop)]
pub(crate) struct TakenEvent {
    pub event: Pdu,
    pub id: EventId,
}

// An event with the numbers of the events that it cites.
#[derive(Clone, Copy, Debug)]
struct CitingEvent<'e> {
    event: &'e Pdu,
    cited: &'e Cited,
}

// The state before an event that comes next: the resolution of the states after its prev events, each once. Where these
// are the forward extremities it is the current state, and nothing is resolved.
fn state_before(
    alloc: Global,
    graph: &Graph,
    states: &mut States,
    resolutions: &mut ResolutionCache,
    judgements: &[Judgement],
    prev_events: &[EventNo],
    latest: &Latest<'_>,
) -> Result<StateNo, AllocError>
    requires rows { length graph.now ≡ length judgements.now }
    requires prev { All (λ prev. prev < length graph.now) prev_events.now }
    requires below { AreBelow (length states.old) judgements.now }
    requires sorted { AreSorted states.old judgements.now }
    requires known { AreKnown graph.now states.old }
    requires right { AreRight graph.now states.old resolutions.old }
    requires current { state_at states.old latest.now.current
        ≡ definition.resolve_in graph.now (definition.states_at (afters (judged_in states.old judgements.now)) latest.now.extremities.now) }
    requires below_current { latest.now.current < length states.old }
    ensures resolved { IfOk result (λ before. state_at states.new before ≡ definition.resolve_in graph.now
        (definition.states_at (afters (judged_in states.old judgements.now)) (record_of.events_where graph.now (record_of.is_in prev_events.now)))) }
    ensures below { IfOk result (λ before. before < length states.new) }
    ensures added { AreAdded graph.now states.old states.new }
    ensures right { OnOk result (AreRight graph.now states.new resolutions.new) }
{
    let prev_events = rising(alloc, prev_events)?;
    if prev_events.as_slice() == latest.extremities {
        return Ok(latest.current);
    }
    let before = resolved_after(alloc, graph, states, resolutions, judgements, &prev_events)?;
    Ok(before)
}

// The forward extremities after an event, and the events that it covers.
fn extremities_after(
    alloc: Global,
    graph: &Graph,
    judgements: &[Judgement],
    prev_events: &[EventNo],
    extremities: &[EventNo],
    number: EventNo,
    verdict: Verdict,
) -> Result<NextExtremities, AllocError>
    requires rows { length judgements.now ≡ length graph.now }
    requires prev { All (λ prev. prev < length graph.now) prev_events.now }
    requires rises { Rises extremities.now }
    requires past { ArePast graph.now (verdicts_in judgements.now) extremities.now (is_marked judgements.now) }
    ensures after { IfOk result (λ next. AreAfter graph.now (verdicts_in judgements.now) prev_events.now extremities.now number verdict
        next.extremities.items) }
    ensures covered { IfOk result (λ next. AreCovered graph.now judgements.now prev_events.now verdict next.covered.items) }
    ensures replaced { IfOk result (λ next. next.extremities.items ≡ replaced verdict next.covered.items extremities.now number) }
{
    if verdict.is_accepted() {
        let next = next_extremities(alloc, graph, judgements, prev_events, extremities, number)?;
        return Ok(next);
    }
    let extremities = Vec::from_slice(alloc, extremities)?;
    Ok(NextExtremities {
        extremities,
        covered: Vec::new(alloc),
    })
}

// An event's judgement, the forward extremities after it, and the events that it covers.
#[derive(Debug, Drop)]
struct JudgedEvent {
    judgement: Judgement,
    extremities: Vec<EventNo>,
    covered: Vec<EventNo>,
}

// Judges an event that cites these events, and finds the states before and after it and the forward extremities after
// it. At an error states may have been added.
fn judged_event(
    alloc: Global,
    graph: &Graph,
    states: &mut States,
    resolutions: &mut ResolutionCache,
    judgements: &[Judgement],
    latest: &Latest<'_>,
    citing: &CitingEvent<'_>,
) -> Result<JudgedEvent, AllocError>
    requires held { IsHeld graph.now states.old judgements.now latest.now.extremities.now latest.now.current }
    requires right { AreRight graph.now states.old resolutions.old }
    requires prev { citing.now.cited.now.prev_events.items ≡ record_of.prev_events graph.now citing.now.event.now }
    requires auth { citing.now.cited.now.auth_events.items ≡ record_of.auth_events graph.now citing.now.event.now }
    requires known_prev { All (λ number. number < length graph.now) citing.now.cited.now.prev_events.items }
    requires known_auth { All (λ number. number < length graph.now) citing.now.cited.now.auth_events.items }
    ensures verdict { IfOk result (λ judged. judged.judgement.verdict
        ≡ definition.verdict (kept_of graph.now (judged_in states.old judgements.now)) citing.now.event.now) }
    ensures judged { IfOk result (λ judged. (id : List ℕ)
        → IsJudged graph.now (judged_in states.old judgements.now) latest.now.extremities.now
        (record { id = id; event = citing.now.event.now; rejected = definition.is_rejected judged.judgement.verdict })
        (judged_by states.new judged.judgement) judged.extremities.items) }
    ensures current { IfOk result (λ judged. judged.judgement.current ≡ latest.now.current) }
    ensures unmarked { IfOk result (λ judged. judged.judgement.covered ≡ false) }
    ensures covered { IfOk result (λ judged. AreCovered graph.now judgements.now (record_of.prev_events graph.now citing.now.event.now)
        judged.judgement.verdict judged.covered.items) }
    ensures replaced { IfOk result (λ judged. judged.extremities.items
        ≡ replaced judged.judgement.verdict judged.covered.items latest.now.extremities.now (length graph.now)) }
    ensures below { IfOk result (λ judged. (judged.judgement.before < length states.new) × (judged.judgement.after < length states.new)) }
    ensures added { (rows : List Row) → length graph.now < length rows → AreAdded rows states.old states.new }
    ensures right { OnOk result (AreRight graph.now states.new resolutions.new) }
{
    let CitingEvent { event, cited } = *citing;
    let before = state_before(
        alloc,
        graph,
        states,
        resolutions,
        judgements,
        &cited.prev_events,
        latest,
    )?;
    let verdict = judged(
        alloc,
        graph,
        event,
        &cited.auth_events,
        states,
        before,
        latest.current,
    )?;
    let number = next_number(graph);
    let after = state_after(states, before, event, number, verdict)?;
    let next = extremities_after(
        alloc,
        graph,
        judgements,
        &cited.prev_events,
        latest.extremities,
        number,
        verdict,
    )?;
    Ok(JudgedEvent {
        judgement: Judgement {
            verdict,
            before,
            after,
            current: latest.current,
            covered: false,
        },
        extremities: next.extremities,
        covered: next.covered,
    })
}

// The number of a row that comes next.
fn next_number(graph: &Graph) -> EventNo
    ensures { result ≡ length graph.now }
{
    EventNo::at(graph.len() as u32)
}

// The current state with an event that is judged, where it plainly stays what it was. See `states_stay`.
fn current_that_stays(
    judgements: &[Judgement],
    latest: &Latest<'_>,
    judged: &JudgedEvent,
) -> Option<StateNo>
    requires below { All (λ p. p < length judgements.now) latest.now.extremities.now }
    requires covered { All (λ p. p < length judgements.now) judged.now.covered.items }
    requires replaced { judged.now.extremities.items
        ≡ replaced judged.now.judgement.verdict judged.now.covered.items latest.now.extremities.now (length judgements.now) }
    ensures current { IfSome result (λ current. current ≡ latest.now.current) }
    ensures same { IfSome result (λ current. (n : ℕ)
        → is_in (numbers_at (judgements.now ++ judged.now.judgement ∷ []) judged.now.extremities.items) n
        ≡ is_in (numbers_at judgements.now latest.now.extremities.now) n) }
{
    if states_stay(judgements, latest, judged) {
        return Some(latest.current);
    }
    None
}

// Whether it is plain that the states after the forward extremities are with an event those that they were before it, in
// whatever order and however often. Then they resolve to the same state, and nothing has to be resolved.
//
// It is plain where the event is not accepted, for it changes no extremity. It is plain where the event takes none out and
// the state after it is that after the last of them, and where it takes some out and the state after each event that it
// covers is the one after it. The time is that of the events that it covers, however many extremities there are.
fn states_stay(judgements: &[Judgement], latest: &Latest<'_>, judged: &JudgedEvent) -> bool
    requires below { All (λ p. p < length judgements.now) latest.now.extremities.now }
    requires covered { All (λ p. p < length judgements.now) judged.now.covered.items }
    requires replaced { judged.now.extremities.items
        ≡ replaced judged.now.judgement.verdict judged.now.covered.items latest.now.extremities.now (length judgements.now) }
    ensures { result ≡ true → (n : ℕ)
        → is_in (numbers_at (judgements.now ++ judged.now.judgement ∷ []) judged.now.extremities.items) n
        ≡ is_in (numbers_at judgements.now latest.now.extremities.now) n }
{
    if !judged.judgement.verdict.is_accepted() {
        return true;
    }
    let after = judged.judgement.after;
    if judged.extremities.len() <= latest.extremities.len() {
        return same_after(judgements, &judged.covered, after);
    }
    match latest.extremities.last() {
        Some(last) => judgements[last.index()].after == after,
        None => false,
    }
}

// An event that is judged, as its row comes next: the row, the numbers of the events that it cites, what was judged, the
// current state with it where that is known, and how many states there were before it.
#[derive(Drop)]
struct NextRow {
    row: GraphRow,
    cited: Cited,
    judged: JudgedEvent,
    current: Option<StateNo>,
    states: usize,
}

// Adds an event that is judged. It gives the forward extremities and the current state with it, which is resolved where
// it is not known. At an error states may have been added.
fn add(
    alloc: Global,
    graph: &mut Graph,
    states: &mut States,
    resolutions: &mut ResolutionCache,
    judgements: &mut Vec<Judgement>,
    next: NextRow,
) -> Result<Prepared, AllocError>
    requires free { add_error graph.old next.row ≡ None }
    requires prev { next.cited.prev_events.items ≡ record_of.prev_events graph.old next.row.event }
    requires auth { next.cited.auth_events.items ≡ record_of.auth_events graph.old next.row.event }
    requires known { AreKnown (graph.old ++ next.row ∷ []) states.old }
    requires right { AreRight graph.old states.old resolutions.old }
    requires numbers { AreBelow (length states.old) (judgements.old.items ++ next.judged.judgement ∷ []) }
    requires sorted { AreSorted states.old (judgements.old.items ++ next.judged.judgement ∷ []) }
    requires below { All (λ p. p < length (judgements.old.items ++ next.judged.judgement ∷ [])) next.judged.extremities.items }
    requires current { IfSome next.current (IsResolution graph.old states.old
        (numbers_at (judgements.old.items ++ next.judged.judgement ∷ []) next.judged.extremities.items)) }
    ensures rows { OnOk result (graph.new ≡ graph.old ++ next.row ∷ []) }
    ensures judgements { OnOk result (judgements.new.items ≡ judgements.old.items ++ next.judged.judgement ∷ []) }
    ensures extremities { IfOk result (λ prepared. prepared.extremities.items ≡ next.judged.extremities.items) }
    ensures covered { IfOk result (λ prepared. prepared.covered.items ≡ next.judged.covered.items) }
    ensures current { IfOk result (λ prepared. state_at states.new prepared.current ≡ definition.resolve_in graph.new
        (definition.states_at (afters (judged_in states.old judgements.new.items)) next.judged.extremities.items)) }
    ensures below_current { IfOk result (λ prepared. prepared.current < length states.new) }
    ensures count { IfOk result (λ prepared. prepared.states ≡ next.states) }
    ensures added { AreAdded (graph.old ++ next.row ∷ []) states.old states.new }
    ensures right { OnOk result (AreRight graph.new states.new resolutions.new) }
    ensures err_rows { OnErr result (graph.new ≡ graph.old) }
    ensures err_judgements { OnErr result (judgements.new.items ≡ judgements.old.items) }
{
    let NextRow {
        row,
        cited,
        judged,
        current,
        states: count,
    } = next;
    let JudgedEvent {
        judgement,
        extremities,
        covered,
    } = judged;
    judgements.reserve(1)?;
    graph_is_sound(graph);
    graph.add_checked(row, cited.prev_events, cited.auth_events)?;
    graph_is_sound(graph);
    judgements.push_reserved(judgement);
    if let Some(current) = current {
        return Ok(Prepared {
            extremities,
            covered,
            current,
            states: count,
        });
    }
    match resolved_after(alloc, graph, states, resolutions, judgements, &extremities) {
        Ok(current) => Ok(Prepared {
            extremities,
            covered,
            current,
            states: count,
        }),
        Err(refused) => {
            remove_last(graph, judgements);
            Err(refused)
        }
    }
}

/// The event of the last row.
pub(crate) fn last_event(graph: &Graph) -> &Pdu
    requires { 0 < length graph.now }
    ensures { (rows : List Row) (row : Row) → graph.now ≡ rows ++ row ∷ [] → result.now ≡ row.event }
{
    &graph.row(EventNo::at(graph.len() as u32 - 1)).event
}

/// Removes the last event. It takes no memory.
pub(crate) fn remove_last(graph: &mut Graph, judgements: &mut Vec<Judgement>)
    ensures rows { (rows : List Row) (row : Row) → graph.old ≡ rows ++ row ∷ [] → graph.new ≡ rows }
    ensures judgements { (js : List Judged) (j : Judged) → judgements.old.items ≡ js ++ j ∷ [] → judgements.new.items ≡ js }
{
    graph.remove_last();
    judgements.pop();
}

/// Judges an event that the room takes, and adds it. At an error the room stays, but for states that were added.
pub(crate) fn prepare_checked_in(
    alloc: Global,
    graph: &mut Graph,
    states: &mut States,
    resolutions: &mut ResolutionCache,
    judgements: &mut Vec<Judgement>,
    latest: &Latest<'_>,
    taken: TakenEvent,
) -> Result<(Verdict, Prepared), AllocError>
    requires held { IsHeld graph.old states.old judgements.old.items latest.now.extremities.now latest.now.current }
    requires right { AreRight graph.old states.old resolutions.old }
    requires free { definition.offer_error graph.old taken.id taken.event ≡ None }
    ensures verdict { IfOk result (λ made. made.0
        ≡ definition.verdict (kept_of graph.old (judged_in states.old judgements.old.items)) taken.event) }
    ensures added { IfOk result (λ made. IsAdded graph.old states.old judgements.old.items taken.id taken.event
        graph.new states.new judgements.new.items made.1.extremities.items made.1.covered.items made.1.current) }
    ensures count { IfOk result (λ made. made.1.states ≡ length states.old) }
    ensures right { OnOk result (AreRight graph.new states.new resolutions.new) }
    ensures err_rows { OnErr result (graph.new ≡ graph.old) }
    ensures grown { (more : List State) × (states.new ≡ states.old ++ more) }
    ensures err_judgements { OnErr result (judgements.new.items ≡ judgements.old.items) }
{
    graph_is_sound(graph);
    let TakenEvent { event, id } = taken;
    let count = states.len();
    let cited = cited_by(alloc, graph, &event)?;
    let judged = judged_event(
        alloc,
        graph,
        states,
        resolutions,
        judgements,
        latest,
        &CitingEvent {
            event: &event,
            cited: &cited,
        },
    )?;
    let current = current_that_stays(judgements, latest, &judged);
    let verdict = judged.judgement.verdict;
    let row = GraphRow {
        id,
        event,
        rejected: verdict.is_rejected(),
    };
    let prepared = add(
        alloc,
        graph,
        states,
        resolutions,
        judgements,
        NextRow {
            row,
            cited,
            judged,
            current,
            states: count,
        },
    )?;
    graph_is_sound(graph);
    Ok((verdict, prepared))
}

/// Makes a create event the first event of a room. It is accepted.
pub(crate) fn begin_in(
    alloc: Global,
    graph: &mut Graph,
    states: &mut States,
    resolutions: &mut ResolutionCache,
    judgements: &mut Vec<Judgement>,
    event: Pdu,
    id: EventId,
) -> Result<Prepared, AllocError>
    requires sound { IsSoundCreate event }
    requires rows { graph.old ≡ [] }
    requires states { states.old ≡ [] }
    requires judgements { judgements.old.items ≡ [] }
    requires right { AreRight [] [] resolutions.old }
    ensures held { IfOk result (λ first. IsHeld graph.new states.new judgements.new.items first.extremities.items first.current) }
    ensures right { OnOk result (AreRight graph.new states.new resolutions.new) }
    ensures begun { OnOk result (kept_of graph.new (judged_in states.new judgements.new.items) ≡ definition.begun id event) }
{
    graph_is_sound(graph);
    let cited = cited_by(alloc, graph, &event)?;
    let before = states.add_empty()?;
    let first = EventNo::at(0);
    let after = state_after(states, before, &event, first, Verdict::Accepted)?;
    let mut extremities = Vec::new(alloc);
    extremities.push(first)?;
    let judged = JudgedEvent {
        judgement: Judgement {
            verdict: Verdict::Accepted,
            before,
            after,
            current: before,
            covered: false,
        },
        extremities,
        covered: Vec::new(alloc),
    };
    let row = GraphRow {
        id,
        event,
        rejected: false,
    };
    let prepared = add(
        alloc,
        graph,
        states,
        resolutions,
        judgements,
        NextRow {
            row,
            cited,
            judged,
            current: None,
            states: 0,
        },
    )?;
    graph_is_sound(graph);
    Ok(prepared)
}
