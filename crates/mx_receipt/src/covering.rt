// The forward extremities that an event replaces.
ghost use Rattle.std.specs.Prelude.{◌≡◌, ◌==◌, ◌<◌, ◌||◌, ◌++◌, ◌∷◌, [], All, IfOk, OnOk, ℕ, filter, length, not};
ghost use Rattle.std.specs.BTreeSet.{contains};
ghost use Rattle.std.specs.Ordering.{nat_cmp};
ghost use Rattle.mx_graph.specs.Edges.{IsAllFrom, Rises};
ghost use Rattle.mx_graph.specs.Record.{is_in};
ghost use Rattle.mx_receipt.specs.Judgements.{AreNext, ArePast, is_marked, leads_further, unmarked, verdicts_in};

use crate::snapshots::Judgement;
use mx_graph::{EventNo, Graph, graph_is_sound};
use std::alloc::{AllocError, Global};
use std::collections::BTreeSet;

/// The forward extremities after an event, and the events that it covers.
#[derive(Debug, Drop)]
pub(crate) struct NextExtremities {
    pub extremities: Vec<EventNo>,
    pub covered: Vec<EventNo>,
}

/// The forward extremities after an accepted event, which follows some of those before it, and the events that it
/// covers: those that it leads to through events that were not accepted.
///
/// An extremity is no ancestor of an accepted event, so the event can follow it through events alone that were not
/// accepted. Where an event is marked as covered, what it leads on to is no extremity any more. So each event's edges are
/// walked for one accepted event at most. The time is that of these edges, and of a copy of the extremities.
pub(crate) fn next_extremities(
    alloc: Global,
    graph: &Graph,
    judgements: &[Judgement],
    prev_events: &[EventNo],
    extremities: &[EventNo],
    number: EventNo,
) -> Result<NextExtremities, AllocError>
    requires rows { length judgements.now ≡ length graph.now }
    requires prev { All (λ prev. prev < length graph.now) prev_events.now }
    requires rises { Rises extremities.now }
    requires past { ArePast graph.now (verdicts_in judgements.now) extremities.now (is_marked judgements.now) }
    ensures next { IfOk result (λ next. AreNext graph.now (verdicts_in judgements.now) prev_events.now extremities.now number
        next.extremities.items) }
    ensures covered { IfOk result (λ next.
        IsAllFrom (leads_further graph.now judgements.now) (is_in prev_events.now) (is_in next.covered.items)) }
    ensures replaced { IfOk result (λ next. next.extremities.items
        ≡ filter (λ p. not (is_in next.covered.items p)) extremities.now ++ number ∷ []) }
{
    graph_is_sound(graph);
    let covered = covered(alloc, graph, judgements, prev_events)?;
    let mut next = Vec::from_slice(alloc, extremities)?;
    remove_events(&mut next, &covered);
    next.push(number)?;
    Ok(NextExtremities {
        extremities: next,
        covered,
    })
}

// Takes these out of some events that rise, where they are there.
fn remove_events(events: &mut Vec<EventNo>, covered: &[EventNo])
    requires { Rises events.old.items }
    ensures { events.new.items ≡ filter (λ p. not (is_in covered.now p)) events.old.items }
{
    for event in covered {
        remove_event(events, *event);
    }
}

// Takes an event out of some that rise, where it is there.
fn remove_event(events: &mut Vec<EventNo>, event: EventNo)
    requires { Rises events.old.items }
    ensures { events.new.items ≡ filter (λ p. not (event == p)) events.old.items }
{
    if let Ok(place) = events.binary_search(&event) {
        events.remove(place);
    }
}

// The events that these lead to, through events that were not accepted and are not marked. They are taken from the last
// one down, so that each comes up once.
fn covered(
    alloc: Global,
    graph: &Graph,
    judgements: &[Judgement],
    prev_events: &[EventNo],
) -> Result<Vec<EventNo>, AllocError>
    requires rows { length judgements.now ≡ length graph.now }
    requires prev { All (λ prev. prev < length graph.now) prev_events.now }
    ensures { IfOk result (λ found.
        IsAllFrom (leads_further graph.now judgements.now) (is_in prev_events.now) (is_in found.items)) }
{
    graph_is_sound(graph);
    let mut waiting = BTreeSet::new(alloc);
    wait_for(&mut waiting, prev_events)?;
    let mut found = Vec::new(alloc);
    while let Some(event) = waiting.pop_last() {
        found.push(event)?;
        wait_for_led_on(&mut waiting, graph, judgements, event)?;
    }
    Ok(found)
}

// The events that an event leads on to wait, unless it is marked.
fn wait_for_led_on(
    waiting: &mut BTreeSet<EventNo>,
    graph: &Graph,
    judgements: &[Judgement],
    event: EventNo,
) -> Result<(), AllocError>
    requires rows { length judgements.now ≡ length graph.now }
    requires event { event < length graph.now }
    ensures { OnOk result ((p : ℕ) → contains nat_cmp waiting.new p
        ≡ (contains nat_cmp waiting.old p || is_in (leads_further graph.now judgements.now event) p)) }
{
    let judgement = &judgements[event.index()];
    if judgement.covered {
        return Ok(());
    }
    if judgement.verdict.is_accepted() {
        return Ok(());
    }
    wait_for(waiting, graph.prev_events(event))
}

// These events wait.
fn wait_for(waiting: &mut BTreeSet<EventNo>, events: &[EventNo]) -> Result<(), AllocError>
    ensures { OnOk result ((p : ℕ)
        → contains nat_cmp waiting.new p ≡ (contains nat_cmp waiting.old p || is_in events.now p)) }
{
    for event in events {
        waiting.insert(*event)?;
    }
    Ok(())
}

/// Marks these events as covered. It takes no memory.
pub(crate) fn mark_covered(judgements: &mut Vec<Judgement>, covered: &[EventNo])
    requires { All (λ event. event < length judgements.old.items) covered.now }
    ensures stay { unmarked judgements.new.items ≡ unmarked judgements.old.items }
    ensures marked { (p : ℕ)
        → is_marked judgements.new.items p ≡ (is_marked judgements.old.items p || is_in covered.now p) }
{
    for event in covered {
        mark_event(judgements, *event);
    }
}

// Marks an event as covered.
fn mark_event(judgements: &mut Vec<Judgement>, event: EventNo)
    requires { event < length judgements.old.items }
    ensures stay { unmarked judgements.new.items ≡ unmarked judgements.old.items }
    ensures marked { (p : ℕ)
        → is_marked judgements.new.items p ≡ (is_marked judgements.old.items p || (event == p)) }
{
    judgements[event.index()].covered = true;
}
