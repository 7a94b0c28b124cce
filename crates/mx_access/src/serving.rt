// The form in which an event is given.
ghost use Rattle.std.specs.Prelude.{◌≡◌, ◌<◌, IfOk, IsTrue, OnErr, false, length};
ghost use Rattle.std.specs.Cow.{IsBorrowed, cow_value};
ghost use Rattle.mx_access.specs.Access as definition;

use crate::events::kept_event;
use crate::redactions::is_redacted;
use mx_graph::EventNo;
use mx_pdu::Pdu;
use mx_receipt::Timeline;
use std::alloc::{AllocError, Global};
use std::borrow::Cow;

/// An event as it is given to whoever may have it: redacted where an effective redaction names it, else as it is kept.
/// `AllocError` where it is given redacted and no memory is left.
///
/// The event is not copied where it is given as it is kept. Source: the Matrix specification, Client-Server API,
/// "Redactions".
#[tactic(auto, unfolding(crate::specs::Access::served))]
pub fn served<'t>(
    alloc: Global,
    timeline: &'t Timeline,
    number: EventNo,
) -> Result<Cow<'t, Pdu>, AllocError>
    requires { number < length timeline.now.kept }
    ensures event { IfOk result (λ event. cow_value event ≡ definition.served timeline.now.kept number) }
    ensures lent { definition.is_redacted timeline.now.kept number ≡ false → IfOk result IsBorrowed }
    ensures memory { OnErr result (IsTrue (definition.is_redacted timeline.now.kept number)) }
{
    let event = kept_event(timeline, number);
    if is_redacted(timeline, number) {
        let redacted = event.redacted(alloc)?;
        Ok(Cow::Owned(redacted))
    } else {
        Ok(Cow::Borrowed(event))
    }
}
