// Rising lists of events.
ghost use Rattle.std.specs.Prelude.{◌≡◌, ◌||◌, IfOk, filter, not, ℕ};
ghost use Rattle.mx_graph.specs.Edges.{Rises};
ghost use Rattle.mx_graph.specs.Record.{is_in};

use mx_graph::EventNo;
use std::alloc::{AllocError, Global};

/// Whether an event is one of these, which rise. The time is logarithmic in them.
pub(crate) fn stands_in(events: &[EventNo], event: EventNo) -> bool
    requires { Rises events.now }
    ensures { result ≡ is_in events.now event }
{
    events.binary_search(&event).is_ok()
}

/// The events of a list that are not in another, which rises. The time is that of the first, times a logarithm.
pub(crate) fn without(
    alloc: Global,
    events: &[EventNo],
    others: &[EventNo],
) -> Result<Vec<EventNo>, AllocError>
    requires { Rises others.now }
    ensures { IfOk result (λ rest. rest.items ≡ filter (λ p. not (is_in others.now p)) events.now) }
{
    events
        .iter()
        .copied()
        .filter(|event| !stands_in(others, *event))
        .collect(alloc)
}

/// The events of a list that are in one of two others, which rise. The time is that of the first, times a logarithm.
pub(crate) fn within(
    alloc: Global,
    events: &[EventNo],
    some: &[EventNo],
    others: &[EventNo],
) -> Result<Vec<EventNo>, AllocError>
    requires some { Rises some.now }
    requires others { Rises others.now }
    ensures { IfOk result (λ kept. kept.items ≡ filter (λ p. is_in some.now p || is_in others.now p) events.now) }
{
    events
        .iter()
        .copied()
        .filter(|event| stands_in(some, *event) || stands_in(others, *event))
        .collect(alloc)
}
