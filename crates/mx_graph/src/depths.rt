// How deep a room's record is behind an event.
ghost use Rattle.std.specs.Prelude.{◌≡◌, ◌<◌, All, fold, length, max, slice_index};

use crate::numbers::EventNo;

/// The greatest of an event's depth and of the bounds of its prev events, from the bounds of all earlier events.
pub(crate) fn bound_behind(bounds: &[u64], depth: u64, prev_events: &[EventNo]) -> u64
    requires { All (λ event. event < length bounds.now) prev_events.now }
    ensures { result ≡ fold (λ d event. max d (slice_index bounds.now event)) depth prev_events.now }
{
    let mut bound = depth;
    for event in prev_events {
        bound = bound.max(bounds[event.index()]);
    }
    bound
}
