// Sets of events, and their events as rising lists.
ghost use Rattle.std.specs.Prelude.{◌≡◌, IfOk, ℕ};
ghost use Rattle.std.specs.BTreeSet.{contains};
ghost use Rattle.std.specs.Ordering.{nat_cmp};
ghost use Rattle.mx_graph.specs.Edges.{Rises};
ghost use Rattle.mx_graph.specs.Record.{is_in};

use crate::numbers::EventNo;
use std::alloc::{AllocError, Global};
use std::collections::BTreeSet;

/// These events, each once, rising: what is in the list is in the answer, and nothing else. The time is that of the
/// list, times a logarithm where it does not rise already. The one error is that no memory is left.
pub fn rising(alloc: Global, events: &[EventNo]) -> Result<Vec<EventNo>, AllocError>
    ensures rises { IfOk result (λ found. Rises found.items) }
    ensures same { IfOk result (λ found. (p : ℕ) → is_in found.items p ≡ is_in events.now p) }
{
    let mut found = Vec::new(alloc);
    found.extend_from_slice(events)?;
    found.sort_unstable();
    found.dedup();
    Ok(found)
}

/// The set of these events. The one error is that no memory is left. The time is that of the list, times a logarithm.
pub fn set_of(alloc: Global, events: &[EventNo]) -> Result<BTreeSet<EventNo>, AllocError>
    ensures { IfOk result (λ set. (p : ℕ) → contains nat_cmp set p ≡ is_in events.now p) }
{
    let mut set = BTreeSet::new(alloc);
    for event in events {
        set.insert(*event)?;
    }
    Ok(set)
}
