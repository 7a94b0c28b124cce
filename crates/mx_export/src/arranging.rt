// The order in which events are written, by their places in a list.
ghost use Rattle.std.specs.Prelude.{◌≡◌, ◌<◌, ◌≤◌, ◌⊎◌, ◌≢◌, [], ℕ, List, IfNone, IfOk, IfSome, IsSome, OnOk, Vec, false, length, replicate, slice_set, true};
ghost use Rattle.std.specs.declared.alloc.Global.{Global};
ghost use Rattle.std.specs.List.{range_with_len};
ghost use Rattle.mx_export.specs.Arrangement.{arranged};
ghost use Rattle.mx_export.specs.Arranging.{IsHeld, IsSound, cites_place, is_in, is_left, is_ready, listed, waits_for};

use std::alloc::{AllocError, Global};
use std::collections::BTreeSet;
use std::mem;

// What is known while places are arranged. A place that is left is ready, or it waits for one that it cites.
#[derive(Debug, Drop)]
pub(crate) struct Arranging {
    alloc: Global,
    pub(crate) written: Vec<bool>,
    // Those left that cite none that is left.
    pub(crate) ready: BTreeSet<usize>,
    // For each place, some of those that cite it.
    pub(crate) waiting: Vec<Vec<usize>>,
}

// A place that is written now, and those that waited for it.
#[derive(Debug, Drop)]
pub(crate) struct Written {
    place: usize,
    released: Vec<usize>,
}

// The places in the order in which they are written: the next is the first of those left that cites none that is left.
pub(crate) fn arrange(alloc: Global, cited: &[Vec<usize>]) -> Result<Vec<usize>, AllocError>
    ensures { IfOk result (λ order. order.items
        ≡ arranged (cites_place cited.now) (length cited.now) (range_with_len 0 (length cited.now))) }
{
    let mut arranging = begin(alloc, cited.len())?;
    for place in 0..cited.len() {
        settle(&mut arranging, cited, place)?;
    }
    let mut order = Vec::with_capacity(alloc, cited.len())?;
    for _ in 0..cited.len() {
        let Some(next) = write_next(&mut arranging) else {
            return Ok(order);
        };
        order.push(next.place)?;
        settle_all(&mut arranging, cited, &next.released)?;
    }
    Ok(order)
}

// So many places, none of them written.
fn begin(alloc: Global, count: usize) -> Result<Arranging, AllocError>
    ensures written { IfOk result (λ arranging. arranging.written.items ≡ replicate count false) }
    ensures sound { IfOk result (λ arranging. (cited : List (Vec ℕ Global)) → length cited ≡ count → IsSound cited arranging) }
{
    let waiting = empty_lists(alloc, count)?;
    let written = vec![in alloc; false; count]?;
    Ok(Arranging {
        alloc,
        written,
        ready: BTreeSet::new(alloc),
        waiting,
    })
}

fn empty_lists(alloc: Global, count: usize) -> Result<Vec<Vec<usize>>, AllocError>
    ensures len { IfOk result (λ lists. length lists.items ≡ count) }
    ensures empty { IfOk result (λ lists. (p : ℕ) → listed lists.items p ≡ []) }
{
    let mut lists = Vec::with_capacity(alloc, count)?;
    for _ in 0..count {
        lists.push(Vec::new(alloc))?;
    }
    Ok(lists)
}

// The next place, which is written now, and those that waited for it. None where no place is ready.
fn write_next(arranging: &mut Arranging) -> Option<Written>
    requires places { length arranging.old.waiting.items ≡ length arranging.old.written.items }
    requires left { (p : ℕ) → is_ready arranging.old p ≡ true → is_left arranging.old.written.items p ≡ true }
    ensures none { IfNone result ((p : ℕ) → is_ready arranging.old p ≡ false) }
    ensures ready { IfSome result (λ next. is_ready arranging.old next.place ≡ true) }
    ensures least { IfSome result (λ next. (p : ℕ) → is_ready arranging.old p ≡ true → next.place ≤ p) }
    ensures written { IfSome result (λ next. arranging.new.written.items
        ≡ slice_set arranging.old.written.items next.place true) }
    ensures released { IfSome result (λ next. (p : ℕ)
        → is_in next.released.items p ≡ waits_for arranging.old p next.place) }
    ensures held { IfSome result (λ next. (p : ℕ) → p ≢ next.place → IsHeld arranging.old p
        → IsHeld arranging.new p ⊎ (is_in next.released.items p ≡ true)) }
    ensures sound { IsSome result → (cited : List (Vec ℕ Global)) → IsSound cited arranging.old
        → IsSound cited arranging.new }
{
    let place = arranging.ready.pop_first()?;
    arranging.written[place] = true;
    let released = mem::replace(&mut arranging.waiting[place], Vec::new(arranging.alloc));
    Some(Written { place, released })
}

// These places, which are left, are ready, or wait for one that they cite.
fn settle_all(
    arranging: &mut Arranging,
    cited: &[Vec<usize>],
    places: &[usize],
) -> Result<(), AllocError>
    requires sound { IsSound cited.now arranging.old }
    requires left { (p : ℕ) → is_in places.now p ≡ true → is_left arranging.old.written.items p ≡ true }
    ensures sound { OnOk result (IsSound cited.now arranging.new) }
    ensures written { OnOk result (arranging.new.written.items ≡ arranging.old.written.items) }
    ensures held { OnOk result ((p : ℕ) → is_in places.now p ≡ true → IsHeld arranging.new p) }
    ensures kept { OnOk result ((p : ℕ) → IsHeld arranging.old p → IsHeld arranging.new p) }
{
    for place in places {
        settle(arranging, cited, *place)?;
    }
    Ok(())
}

// This place, which is left, is ready, or waits for one that it cites.
fn settle(arranging: &mut Arranging, cited: &[Vec<usize>], place: usize) -> Result<(), AllocError>
    requires sound { IsSound cited.now arranging.old }
    requires left { is_left arranging.old.written.items place ≡ true }
    ensures sound { OnOk result (IsSound cited.now arranging.new) }
    ensures written { OnOk result (arranging.new.written.items ≡ arranging.old.written.items) }
    ensures held { OnOk result (IsHeld arranging.new place) }
    ensures kept { OnOk result ((p : ℕ) → IsHeld arranging.old p → IsHeld arranging.new p) }
{
    match first_left(&arranging.written, &cited[place]) {
        Some(awaited) => arranging.waiting[awaited].push(place)?,
        None => {
            arranging.ready.insert(place)?;
        }
    }
    Ok(())
}

// The first of these places that is left.
fn first_left(written: &[bool], places: &[usize]) -> Option<usize>
    ensures none { IfNone result ((p : ℕ) → is_in places.now p ≡ true → is_left written.now p ≡ false) }
    ensures left { IfSome result (λ found. is_left written.now found ≡ true) }
    ensures there { IfSome result (λ found. is_in places.now found ≡ true) }
{
    for place in places {
        if written.get(*place) == Some(&false) {
            return Some(*place);
        }
    }
    None
}
