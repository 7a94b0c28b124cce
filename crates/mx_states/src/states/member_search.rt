// A search among the members of a state. Nothing here takes memory.
ghost use Rattle.std.specs.Prelude.{◌≡◌, ◌<◌, ◌&&◌, All, length};
ghost use Rattle.std.specs.FinMap.Entries.{find};
ghost use Rattle.std.specs.List.{list_any};
ghost use Rattle.std.specs.Option.{IfSome};
ghost use Rattle.std.specs.Ordering.{nat_cmp};
ghost use Rattle.mx_states.specs.KeyNumbers.{AreShown, passes_at, shown};
ghost use Rattle.mx_states.specs.MemberKeys.{is_member_key};
ghost use Rattle.mx_states.specs.SnapshotEntries.{snapshot};

use crate::states::event_tests::EventTest;
use crate::states::key_numbers::KeyNo;
use crate::states::state_keys::Keys;
use crate::states::state_numbers::StateNo;
use crate::trees::Snapshots;

// Whether the event at the key of a member of a server passes a test. No other keys are looked at.
pub(crate) fn has_passing_member<T: EventTest>(
    keys: &Keys,
    snapshots: &Snapshots,
    number: StateNo,
    server: &str,
    test: &T,
) -> bool
    requires keys { AreShown keys.now snapshots.now }
    requires number { number < length snapshots.now }
    requires known { All (λ e. e.1 < T.event_count test.now) (shown keys.now (snapshot snapshots.now number)) }
    ensures { result ≡ list_any (λ e. is_member_key server.now e.0 && T.event_test test.now e.1)
        (shown keys.now (snapshot snapshots.now number)) }
{
    for &key in keys.members_of(server) {
        if passes_at(snapshots, number, test, key) {
            return true;
        }
    }
    false
}

// Whether the event at the key with a number, if there is one, passes a test.
fn passes_at<T: EventTest>(snapshots: &Snapshots, number: StateNo, test: &T, key: KeyNo) -> bool
    requires number { number < length snapshots.now }
    requires known { IfSome (find nat_cmp key (snapshot snapshots.now number))
        (λ event. event < T.event_count test.now) }
    ensures { result ≡ passes_at (T.event_test test.now) (snapshot snapshots.now number) key }
{
    match snapshots.get(number, key) {
        Some(event) => test.passes_event(event),
        None => false,
    }
}
