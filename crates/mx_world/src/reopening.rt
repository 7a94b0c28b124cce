// Shards and books that are opened over keepers.
ghost use Rattle.std.specs.Prelude.{◌≡◌, ◌≤◌, ◌⊎◌, ℕ, length, map, IfErr, IfOk};
ghost use Rattle.mx_world.specs.Parts.{ArePlaced};
ghost use Rattle.mx_world.specs.Reopening.{AreOver, CannotAt};

use crate::open_errors::OpenError;
use crate::parts::Part;
use mx_keeper::{MOST_PLACES, Place};
use std::alloc::Global;

/// A part over each keeper, with the entries of its rows.
pub(crate) fn reopened_parts<P: Part>(
    alloc: Global,
    keepers: Vec<P::RowKeeper>,
) -> Result<Vec<P>, OpenError>
    requires some { 1 ≤ length keepers.items }
    requires few { length keepers.items ≤ MOST_PLACES }
    ensures count { IfOk result (λ parts. length parts.items ≡ length keepers.items) }
    ensures placed { IfOk result (λ parts. ArePlaced (map P.place_of parts.items)) }
    ensures over { IfOk result (λ parts. AreOver P.is_over keepers.items parts.items) }
    ensures refused { IfErr result
        (λ error. (error ≡ OpenError.Memory) ⊎ ((n : ℕ) × (error ≡ P.refusal n) × CannotAt P.cannot keepers.items n)) }
{
    let count = keepers.len();
    let mut parts = Vec::new(alloc);
    for keeper in keepers {
        let place = Place::new(parts.len(), count);
        let part = P::reopen(alloc, keeper, place)?;
        parts.push(part)?;
    }
    Ok(parts)
}
