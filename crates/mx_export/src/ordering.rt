// The events of a room in the order of its log.
ghost use Rattle.std.specs.Prelude.{◌≡◌, ◌<◌, ℕ, IfOk, length, map};
ghost use Rattle.mx_export.specs.Arranging.{cites_place};
ghost use Rattle.mx_export.specs.Collecting.{Each, event_at};
ghost use Rattle.mx_export.specs.RoomEvents as definition;
ghost use Rattle.mx_export.specs.RoomEvents.{cites};

use crate::arranging::arrange;
use crate::exported_events::ExportedEvent;
use std::alloc::{AllocError, Global};

// Each after those that it cites and that are there, at these places, else as they were found. Those that cite one
// another in a circle, and those that cite them, are left out.
pub(crate) fn in_order(
    alloc: Global,
    events: &[ExportedEvent],
    cited: &[Vec<usize>],
) -> Result<Vec<ExportedEvent>, AllocError>
    requires len { length cited.now ≡ length events.now }
    requires cited { (p q : ℕ) → p < length events.now → q < length events.now
        → cites_place cited.now p q ≡ cites (event_at events.now p) (event_at events.now q) }
    ensures { IfOk result (λ ordered. ordered.items ≡ definition.in_order events.now) }
{
    let order = arrange(alloc, cited)?;
    let ordered = events_at(alloc, events, &order)?;
    Ok(ordered)
}

// The events at these places.
fn events_at(
    alloc: Global,
    events: &[ExportedEvent],
    places: &[usize],
) -> Result<Vec<ExportedEvent>, AllocError>
    requires { Each (λ place. place < length events.now) places.now }
    ensures { IfOk result (λ found. found.items ≡ map (event_at events.now) places.now) }
{
    let mut found = Vec::with_capacity(alloc, places.len())?;
    for place in places {
        let event = events[*place].clone()?;
        found.push(event)?;
    }
    Ok(found)
}
