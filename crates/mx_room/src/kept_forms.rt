// The form in which an event is kept.
ghost use Rattle.std.specs.Prelude.{◌≡◌, IfOk};
ghost use Rattle.mx_room.specs.Offer.{as_kept};

use mx_pdu::{Offered, Pdu};
use std::alloc::{AllocError, Global};

/// The event as a room keeps it: redacted where its content hash is wrong. `AllocError` where no memory is left.
///
/// Source: the Matrix specification, Server-Server API, "Checks performed on receipt of a PDU", check 3.
pub fn kept_form(alloc: Global, offered: &Offered) -> Result<Pdu, AllocError>
    ensures { IfOk result (λ event. event ≡ as_kept offered.now) }
{
    if offered.pdu.hash_holds() {
        offered.pdu.clone()
    } else {
        offered.pdu.redacted(alloc)
    }
}
