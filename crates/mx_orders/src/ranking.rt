// Ranks of events: their places in a list.
ghost use Rattle.std.specs.Prelude.{IfOk};
ghost use Rattle.std.specs.BTreeMap.{get};
ghost use Rattle.std.specs.Ordering.{nat_cmp};
ghost use Rattle.mx_orders.specs.Lists.{Distinct};
ghost use Rattle.mx_orders.specs.Ranks.{IsRanked};

use mx_graph::EventNo;
use std::alloc::{AllocError, Global};
use std::collections::BTreeMap;

// The place of each of these events in their list.
pub(crate) fn ranks_of(
    alloc: Global,
    numbers: &[EventNo],
) -> Result<BTreeMap<EventNo, usize>, AllocError>
    requires { Distinct numbers.now }
    ensures { IfOk result (λ found. IsRanked numbers.now (get nat_cmp found)) }
{
    let mut found = BTreeMap::new(alloc);
    for (rank, event) in numbers.iter().enumerate() {
        found.insert(*event, rank)?;
    }
    Ok(found)
}
