// Redactions of an event. Nothing here takes memory.
ghost use Rattle.std.specs.Prelude.{◌≡◌, ◌<◌, ◌&&◌, length};
ghost use Rattle.mx_orders.specs.StateMap.{view};
ghost use Rattle.mx_receipt.specs.Receipt.{is_accepted, kept_at, rows_of};
ghost use Rattle.mx_access.specs.Access as definition;

use crate::events::kept_event;
use crate::states::StateInRoom;
use mx_graph::EventNo;
use mx_pdu::Pdu;
use mx_receipt::Timeline;

/// Whether an effective redaction names an event: an accepted redaction whose sender has the level for redactions in
/// the state before it, or is of the server of the event's sender. It takes no memory.
///
/// The time is that of a look-up, and of the levels in the state before each redaction that names the event.
///
/// Source: the Matrix specification, Client-Server API, "Redactions", and Room Version 3, "Handling redactions".
#[tactic(auto, unfolding(crate::specs::Access::is_redacted))]
pub fn is_redacted(timeline: &Timeline, number: EventNo) -> bool
    requires { number < length timeline.now.kept }
    ensures { result ≡ definition.is_redacted timeline.now.kept number }
{
    let redactions = timeline.redactions_naming(&timeline.row(number).id);
    for redaction in redactions {
        if takes_effect(timeline, *redaction, number) {
            return true;
        }
    }
    false
}

// Whether a redaction of an event was accepted and is effective.
fn takes_effect(timeline: &Timeline, redaction: EventNo, target: EventNo) -> bool
    requires redaction { redaction < length timeline.now.kept }
    requires target { target < length timeline.now.kept }
    ensures { result ≡ (is_accepted (kept_at timeline.now.kept redaction).verdict
        && definition.is_effective timeline.now.kept target redaction) }
{
    timeline.verdict(redaction).is_accepted() && is_effective(timeline, redaction, target)
}

// Whether a redaction of an event is effective.
fn is_effective(timeline: &Timeline, redaction: EventNo, target: EventNo) -> bool
    requires redaction { redaction < length timeline.now.kept }
    requires target { target < length timeline.now.kept }
    ensures { result ≡ definition.is_effective timeline.now.kept target redaction }
{
    let state = StateInRoom::before(timeline, redaction);
    may_redact(
        &state,
        kept_event(timeline, redaction),
        kept_event(timeline, target),
    )
}

fn may_redact(state: &StateInRoom<'_>, redaction: &Pdu, target: &Pdu) -> bool
    ensures { result ≡ definition.may_redact (view (rows_of state.now.0) state.now.1) redaction.now target.now }
{
    let levels = state.levels();
    levels.redact() <= levels.user(redaction.sender().as_str())
        || redaction.sender().server() == target.sender().server()
}
