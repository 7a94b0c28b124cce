// Tests of a state's events.
ghost use Rattle.std.specs.Prelude.{◌≡◌, ◌<◌, Bool, ℕ};

use mx_graph::EventNo;

/// A test of the events of a state.
pub trait EventTest {
    ghost event_test: { Self → ℕ → Bool };

    // It can be asked of the events before this one.
    ghost event_count: { Self → ℕ };

    /// Whether this event passes.
    fn passes_event(&self, event: EventNo) -> bool
        requires { event < event_count self.now }
        ensures { result ≡ event_test self.now event };
}
