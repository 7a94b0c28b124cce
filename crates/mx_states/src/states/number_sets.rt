// Sets of numbers of states.
ghost use Rattle.std.specs.Prelude.{◌≡◌, ◌==◌, ◌<◌, ◌+◌, ◌||◌, IfOk, IfSome, IsTrue, OnOk, length, slice_index, true, ℕ};
ghost use Rattle.std.specs.BTreeSet.{contains};
ghost use Rattle.std.specs.Ordering.{nat_cmp};
ghost use Rattle.mx_graph.specs.Record.{is_in};

use crate::states::state_numbers::StateNo;
use std::alloc::{AllocError, Global};
use std::collections::BTreeSet;

/// These numbers, each once: what is in the list is in the answer, and nothing else. The time is that of the list, times
/// a logarithm where neighbours differ.
pub fn each_once(alloc: Global, numbers: &[StateNo]) -> Result<Vec<StateNo>, AllocError>
    ensures { IfOk result (λ found. (n : ℕ) → is_in found.items n ≡ is_in numbers.now n) }
{
    let set = set_of(alloc, numbers)?;
    let found = list_of(alloc, &set)?;
    Ok(found)
}

/// Whether each of these numbers is greater than the one before it.
pub fn rise(numbers: &[StateNo]) -> bool
    ensures { IsTrue result → (k : ℕ) → k + 1 < length numbers.now
        → slice_index numbers.now k < slice_index numbers.now (k + 1) }
{
    for place in 1..numbers.len() {
        if numbers[place].index() <= numbers[place - 1].index() {
            return false;
        }
    }
    true
}

fn set_of(alloc: Global, numbers: &[StateNo]) -> Result<BTreeSet<StateNo>, AllocError>
    ensures { IfOk result (λ set. (n : ℕ) → contains nat_cmp set n ≡ is_in numbers.now n) }
{
    let mut set = BTreeSet::new(alloc);
    let mut last = None;
    for number in numbers {
        insert_after(&mut set, last, *number)?;
        last = Some(*number);
    }
    Ok(set)
}

// Puts a number that comes after another one. Where both are the same it is there.
fn insert_after(
    set: &mut BTreeSet<StateNo>,
    last: Option<StateNo>,
    number: StateNo,
) -> Result<(), AllocError>
    requires { IfSome last (λ l. contains nat_cmp set.old l ≡ true) }
    ensures { OnOk result ((n : ℕ) → contains nat_cmp set.new n ≡ (contains nat_cmp set.old n || (number == n))) }
{
    if last == Some(number) {
        return Ok(());
    }
    set.insert(number)?;
    Ok(())
}

fn list_of(alloc: Global, set: &BTreeSet<StateNo>) -> Result<Vec<StateNo>, AllocError>
    ensures { IfOk result (λ found. found.items ≡ set.now.keys) }
{
    let mut found = Vec::new(alloc);
    for number in set {
        found.push(*number)?;
    }
    Ok(found)
}
