// Events as they are offered, with the verifier's answers.
ghost use Rattle.std.specs.Prelude.{◌≡◌, IfOk, map};
ghost use Rattle.mx_world.specs.Offers.{offer_by};

use mx_pdu::{Offered, Pdu, Verifier};
use std::alloc::{AllocError, Global};

/// The events, each with its id and the verifier's answer on its signatures.
pub(crate) fn offers_of<V: Verifier>(
    alloc: Global,
    events: Vec<Pdu>,
    verifier: &V,
) -> Result<Vec<Offered>, AllocError>
    ensures { IfOk result (λ offers. offers.items ≡ map (offer_by (V.judges verifier.now)) events.items) }
{
    let mut offers = Vec::new(alloc);
    for event in events {
        let offered = Offered::of(alloc, event, verifier)?;
        offers.push(offered)?;
    }
    Ok(offers)
}
