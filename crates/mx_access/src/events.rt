// The events of a room.
ghost use Rattle.std.specs.Prelude.{◌≡◌, ◌<◌, length};
ghost use Rattle.mx_receipt.specs.Receipt.{kept_at};

use mx_graph::EventNo;
use mx_pdu::Pdu;
use mx_receipt::Timeline;

/// The event with this number, as it is kept.
pub(crate) fn kept_event(timeline: &Timeline, number: EventNo) -> &Pdu
    requires { number < length timeline.now.kept }
    ensures { result.now ≡ (kept_at timeline.now.kept number).event }
{
    &timeline.row(number).event
}
