// Memberships in a room's state. Nothing here takes memory.
ghost use Rattle.std.specs.Prelude.{◌≡◌};
ghost use Rattle.mx_pdu.specs.Event.{has_membership as has_membership_in};

use mx_auth::membership_of;
use mx_graph::EventNo;
use mx_pdu::Pdu;
use mx_receipt::Timeline;
use mx_redact::is_text;
use mx_states::EventTest;

/// Whether an event has this membership.
#[derive(Debug, Drop)]
pub(crate) struct MemberTest<'t, 'm> {
    pub timeline: &'t Timeline,
    pub membership: &'m str,
}

impl<'t, 'm> EventTest for MemberTest<'t, 'm> {
    ghost use Rattle.std.specs.Prelude.{length};
    ghost use Rattle.mx_graph.specs.Record.{event as event_of};
    ghost use Rattle.mx_pdu.specs.Event.{has_membership};
    ghost use Rattle.mx_receipt.specs.Receipt.{rows_of};

    ghost event_test = { λ test number.
        has_membership test.membership.now (event_of (rows_of test.timeline.now.kept) number) };

    ghost event_count = { λ test. length test.timeline.now.kept };

    fn passes_event(&self, event: EventNo) -> bool {
        has_membership(&self.timeline.row(event).event, self.membership)
    }
}

fn has_membership(event: &Pdu, membership: &str) -> bool
    ensures { result ≡ has_membership_in membership.now event.now }
{
    is_text(membership_of(event), membership)
}
