// Two callers that meet.
ghost use Rattle.std.specs.Prelude.{◌≡◌, ℕ};
ghost use Rattle.mx_dock.specs.Journal.{IsPrefix};
ghost use Rattle.mx_engine.specs.Views.{view_at, AddsNothing};
ghost use Rattle.mx_engine.specs.Berths.{AreBerthsAt, caller_of, views_of};

use crate::docked::PaddedDock;
use mx_dock::{Berth, Journaled};
use std::sync::Wait;

/// At each dock the first of two callers has then seen all that both had seen.
pub(crate) fn meet_each<R: Wait, T: Journaled>(
    rt: &R,
    docks: &[PaddedDock<T>],
    first: &mut Vec<Berth<T>>,
    second: &mut Vec<Berth<T>>,
)
    requires first { AreBerthsAt docks.now (caller_of first.old.items) first.old.items }
    requires second { AreBerthsAt docks.now (caller_of second.old.items) second.old.items }
    ensures first { AreBerthsAt docks.now (caller_of first.old.items) first.new.items }
    ensures second { AreBerthsAt docks.now (caller_of second.old.items) second.new.items }
    ensures nothing { AddsNothing (views_of first.old.items) (views_of first.new.items) }
    ensures told { (n : ℕ)
        → IsPrefix (view_at (views_of second.old.items) n).seen (view_at (views_of first.new.items) n).seen }
    ensures stays { views_of second.new.items ≡ views_of second.old.items }
{
    for number in 0..docks.len() {
        docks[number].meet(rt, &mut first[number], &mut second[number]);
    }
}
