// How far up chains of rows an auth chain goes.
ghost use Rattle.std.specs.Prelude.{◌≡◌, ◌==◌, ◌<◌, ◌≤◌, ◌&&◌, ◌||◌, ℕ, All, IfSome, None, OnOk, false, length, nat_le, nat_lt, slice_index_or};
ghost use Rattle.mx_graph.specs.AuthChains.{has_row, AreDistinct, AreEnds};
ghost use Rattle.mx_graph.specs.declared.auth_chains.ChainPlace.{ChainPlace};
ghost use Rattle.mx_graph.specs.declared.reached_rows.Reached as reached_row;

use crate::numbers::EventNo;
use std::alloc::AllocError;

/// A chain of rows that an auth chain meets, by the number of the chain's first row, and the last of the chain's rows in
/// that auth chain: those before it are in it too.
#[derive(Clone, Copy, Debug, Drop)]
pub(crate) struct Reached {
    pub(crate) chain: EventNo,
    pub(crate) last: EventNo,
}

// Adds the rows of a chain up to one of them.
pub(crate) fn add_row(reached: &mut Vec<Reached>, row: Reached) -> Result<(), AllocError>
    ensures rows { OnOk result ((chain p : ℕ) → has_row reached.new.items chain p
        ≡ (has_row reached.old.items chain p || ((row.chain == chain) && nat_le p row.last))) }
    ensures ends { OnOk result ((at : ℕ → ChainPlace) → AreEnds at reached.old.items
        → (at row.last).chain ≡ row.chain → AreEnds at reached.new.items) }
    ensures distinct { OnOk result (AreDistinct reached.old.items → AreDistinct reached.new.items) }
{
    let Some(index) = index_of(reached, row.chain) else {
        reached.push(row)?;
        return Ok(());
    };
    if reached[index].last < row.last {
        reached[index] = row;
    }
    Ok(())
}

// Where a list has rows of a chain.
fn index_of(reached: &[Reached], chain: EventNo) -> Option<usize>
    ensures there { IfSome result (λ i. (i < length reached.now)
        × ((d : reached_row.Reached) → (slice_index_or reached.now i d).chain ≡ chain)) }
    ensures none { result ≡ None → All (λ e. (e.chain == chain) ≡ false) reached.now }
{
    reached.iter().position(|own| own.chain == chain)
}

// Adds the rows of another list.
pub(crate) fn add_rows(reached: &mut Vec<Reached>, others: &[Reached]) -> Result<(), AllocError>
    ensures rows { OnOk result ((chain p : ℕ) → has_row reached.new.items chain p
        ≡ (has_row reached.old.items chain p || has_row others.now chain p)) }
    ensures ends { OnOk result ((at : ℕ → ChainPlace) → AreEnds at reached.old.items
        → AreEnds at others.now → AreEnds at reached.new.items) }
    ensures distinct { OnOk result (AreDistinct reached.old.items → AreDistinct reached.new.items) }
{
    for other in others {
        add_row(reached, *other)?;
    }
    Ok(())
}

// The end of the rows of a chain: those before this number are among these, and no others.
pub(crate) fn end_in(reached: &[Reached], chain: EventNo) -> usize
    ensures { (p : ℕ) → nat_lt p result ≡ has_row reached.now chain p }
{
    let mut end = 0;
    for own in reached {
        if own.chain == chain {
            end = greater(end, own.last.index() + 1);
        }
    }
    end
}

// The greater of two ends.
pub(crate) fn greater(a: usize, b: usize) -> usize
    ensures { (p : ℕ) → nat_lt p result ≡ (nat_lt p a || nat_lt p b) }
{
    if a < b { b } else { a }
}
