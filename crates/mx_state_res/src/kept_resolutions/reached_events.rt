// Events that a state's auth chain has, beside those in conflict, as far as its events at some keys tell it.
ghost use Rattle.std.specs.Prelude.{◌≡◌, ◌<◌, ℕ, All, IfSome, length, true};
ghost use Rattle.mx_graph.specs.Graph.{auth_chain};
ghost use Rattle.mx_graph.specs.Record.{is_in};
ghost use Rattle.mx_graph.specs.StateMap.{events_of};
ghost use Rattle.mx_state_res.specs.ChainDifference.{cites};
ghost use Rattle.mx_state_res.specs.KeptResolutions.{AllCiteReached, CitesReached, events_checked};
ghost use Rattle.mx_state_res.specs.LaterResolution.{is_reached};

use crate::kept_resolutions::checked_events::{CheckedEvent, is_checked};
use mx_graph::{EventNo, Graph, graph_is_sound};
use mx_states::{StateEntry, StateRef};

/// Whether each of two states reaches what the events of the other one at these keys cite. It takes no memory.
pub(crate) fn reach_alike(
    graph: &Graph,
    order: &[CheckedEvent],
    entries: &[StateEntry],
    one: &StateRef<'_>,
    other: &StateRef<'_>,
) -> bool
    requires one { All (λ e. e.1 < length graph.now) one.now }
    requires other { All (λ e. e.1 < length graph.now) other.now }
    ensures one { result ≡ true → AllCiteReached graph.now (events_checked order.now) one.now other.now entries.now }
    ensures other { result ≡ true → AllCiteReached graph.now (events_checked order.now) other.now one.now entries.now }
{
    let reaches = cite_reached(graph, order, entries, one, other);
    let is_reached = cite_reached(graph, order, entries, other, one);
    reaches && is_reached
}

// Whether another state reaches what the events of a state at these keys cite.
fn cite_reached(
    graph: &Graph,
    order: &[CheckedEvent],
    entries: &[StateEntry],
    state: &StateRef<'_>,
    other: &StateRef<'_>,
) -> bool
    requires state { All (λ e. e.1 < length graph.now) state.now }
    requires other { All (λ e. e.1 < length graph.now) other.now }
    ensures { result ≡ true → AllCiteReached graph.now (events_checked order.now) state.now other.now entries.now }
{
    for entry in entries {
        let event = state.get(entry.kind(), entry.state_key());
        if !cites_reached(graph, order, entries, other, event) {
            return false;
        }
    }
    true
}

// Whether a state reaches what an event cites; none cites nothing. It reaches all of it where one of its events cites this
// one.
fn cites_reached(
    graph: &Graph,
    order: &[CheckedEvent],
    entries: &[StateEntry],
    other: &StateRef<'_>,
    event: Option<EventNo>,
) -> bool
    requires event { IfSome event (λ event. event < length graph.now) }
    requires other { All (λ e. e.1 < length graph.now) other.now }
    ensures { result ≡ true → IfSome event (CitesReached graph.now (events_checked order.now) other.now) }
{
    let Some(event) = event else {
        return true;
    };
    if is_cited(graph, entries, other, event) {
        graph_is_sound(graph);
        return true;
    }
    let cited = graph.auth_events(event);
    reaches_each(graph, order, entries, other, cited)
}

// Whether a state reaches each of these events.
fn reaches_each(
    graph: &Graph,
    order: &[CheckedEvent],
    entries: &[StateEntry],
    other: &StateRef<'_>,
    events: &[EventNo],
) -> bool
    requires events { All (λ event. event < length graph.now) events.now }
    requires other { All (λ e. e.1 < length graph.now) other.now }
    ensures { result ≡ true → All (λ event. is_reached graph.now (events_checked order.now) other.now event ≡ true) events.now }
{
    for event in events {
        if !reaches(graph, order, entries, other, *event) {
            return false;
        }
    }
    true
}

// Whether a state reaches an event: one of its events at these keys cites it, or it is in conflict and stands in the state.
fn reaches(
    graph: &Graph,
    order: &[CheckedEvent],
    entries: &[StateEntry],
    other: &StateRef<'_>,
    event: EventNo,
) -> bool
    requires event { event < length graph.now }
    requires other { All (λ e. e.1 < length graph.now) other.now }
    ensures { result ≡ true → is_reached graph.now (events_checked order.now) other.now event ≡ true }
{
    is_cited(graph, entries, other, event)
        || (is_checked(order, event) && stands_in(graph, other, event))
}

// Whether one of a state's events at these keys cites an event.
fn is_cited(graph: &Graph, entries: &[StateEntry], state: &StateRef<'_>, event: EventNo) -> bool
    requires { All (λ e. e.1 < length graph.now) state.now }
    ensures { result ≡ true → is_in (auth_chain graph.now (events_of state.now)) event ≡ true }
{
    graph_is_sound(graph);
    for entry in entries {
        let by = state.get(entry.kind(), entry.state_key());
        if is_cited_by(graph, by, event) {
            return true;
        }
    }
    false
}

// Whether an event cites another; none cites nothing.
fn is_cited_by(graph: &Graph, by: Option<EventNo>, event: EventNo) -> bool
    requires { IfSome by (λ by. by < length graph.now) }
    ensures { result ≡ true → (p : ℕ) × (by ≡ Some p) × (is_in (cites graph.now p) event ≡ true) }
{
    match by {
        Some(by) => graph.auth_events(by).contains(&event),
        None => false,
    }
}

// Whether a state has an event.
fn stands_in(graph: &Graph, state: &StateRef<'_>, event: EventNo) -> bool
    requires { event < length graph.now }
    ensures { result ≡ true → is_in (events_of state.now) event ≡ true }
{
    let row = &graph.row(event).event;
    let Some(state_key) = row.state_key() else {
        return false;
    };
    match state.get(row.kind(), state_key) {
        Some(found) => found == event,
        None => false,
    }
}
