// The docks of an engine, and its seats.
ghost use Rattle.std.specs.Prelude.{◌≡◌, ◌+◌, ◌<◌, ◌≤◌, ℕ, List, [], All, IfOk, OnOk, length, map, get_or, vec_capacity};
ghost use Rattle.crossbeam_utils.specs.Padded.{padded_value};
ghost use Rattle.mx_shard.specs.Journal.{Entry};
ghost use Rattle.mx_book.specs.declared.entries.BookEntry.{BookEntry as BookEntryOf};
ghost use Rattle.mx_world.specs.Parts.{ArePlaced};
ghost use Rattle.mx_engine.specs.Closing.{AreFirst, AreNext, IsDockOpened};

use crate::docked::{Docked, DockedBook, DockedShard, PaddedDock};
use crate::seats::Seat;
use crossbeam_utils::CachePadded;
use mx_dock::{Berth, Dock, Journaled};
use mx_keeper::{BookRow, Caller, Keeper, ShardRow};
use std::alloc::{AllocError, Global};
use std::sync::Wait;

// ---- docks

/// A dock of each shard or book, with its first berth.
pub(crate) fn open_docks<R: Wait, T: Docked>(
    rt: &R,
    alloc: Global,
    values: Vec<T::Value>,
) -> Result<(Vec<PaddedDock<T>>, Vec<Berth<T>>), AllocError>
    requires { ArePlaced (map T.place_of values.items) }
    ensures { IfOk result (λ made. AreFirst (map T.journal_of values.items) made.0.items 1 made.1.items) }
{
    let mut docks = Vec::new(alloc);
    let mut berths = Vec::new(alloc);
    for value in values {
        let (dock, berth) = open_dock(rt, alloc, value)?;
        docks.push(dock)?;
        berths.push(berth)?;
    }
    Ok((docks, berths))
}

// A dock of one shard or book, with its first berth.
fn open_dock<R: Wait, T: Docked>(
    rt: &R,
    alloc: Global,
    value: T::Value,
) -> Result<(PaddedDock<T>, Berth<T>), AllocError>
    ensures { IfOk result (λ made. IsDockOpened (T.journal_of value) (T.place_of value) (padded_value made.0) made.1) }
{
    let value = Box::new(alloc, value)?;
    let (dock, berth) = Dock::open(rt, alloc, T::in_box(value))?;
    Ok((CachePadded::new(dock), berth))
}

// ---- seats

/// The first seat, at these docks, with room for what closing the engine gives.
pub(crate) fn first_seat<K: Keeper<Row = ShardRow>, L: Keeper<Row = BookRow>>(
    alloc: Global,
    shards: Vec<Berth<DockedShard<K>>>,
    books: Vec<Berth<DockedBook<L>>>,
) -> Result<Seat<K, L>, AllocError>
    ensures number { IfOk result (λ seat. seat.number ≡ 1) }
    ensures shards { IfOk result (λ seat. seat.shards ≡ shards) }
    ensures books { IfOk result (λ seat. seat.books ≡ books) }
    ensures no_shard { IfOk result
        (λ seat. (seat.closed_shards.items ≡ []) × (length shards.items ≤ vec_capacity seat.closed_shards)) }
    ensures no_book { IfOk result
        (λ seat. (seat.closed_books.items ≡ []) × (length books.items ≤ vec_capacity seat.closed_books)) }
{
    let closed_shards = Vec::with_capacity(alloc, shards.len())?;
    let closed_books = Vec::with_capacity(alloc, books.len())?;
    Ok(Seat {
        number: Caller::new(1),
        shards,
        books,
        closed_shards,
        closed_books,
    })
}

/// So many seats, of which this is the first.
pub(crate) fn seats_with<K: Keeper<Row = ShardRow>, L: Keeper<Row = BookRow>>(
    alloc: Global,
    shards: &[PaddedDock<DockedShard<K>>],
    books: &[PaddedDock<DockedBook<L>>],
    first: Seat<K, L>,
    count: u32,
) -> Result<Vec<Seat<K, L>>, AllocError>
    requires some { 1 ≤ count }
    requires number { first.number ≡ 1 }
    requires shards { (journals : List (List Entry)) × AreFirst journals shards.now 1 first.shards.items }
    requires books { (journals : List (List BookEntryOf)) × AreFirst journals books.now 1 first.books.items }
    ensures length { IfOk result (λ all. length all.items ≡ count) }
    ensures numbers { IfOk result (λ all. (n : ℕ) (d : Seat K L) → n < count → (get_or all.items n d).number ≡ n + 1) }
    ensures shards { IfOk result
        (λ all. (journals : List (List Entry)) → AreFirst journals shards.now 1 first.shards.items
        → All (λ seat. AreNext journals shards.now seat.number seat.shards.items) all.items) }
    ensures books { IfOk result
        (λ all. (journals : List (List BookEntryOf)) → AreFirst journals books.now 1 first.books.items
        → All (λ seat. AreNext journals books.now seat.number seat.books.items) all.items) }
    ensures first_shards { IfOk result
        (λ all. (journals : List (List Entry)) (d : Seat K L) → AreFirst journals shards.now 1 first.shards.items
        → AreFirst journals shards.now count (get_or all.items 0 d).shards.items) }
    ensures first_books { IfOk result
        (λ all. (journals : List (List BookEntryOf)) (d : Seat K L) → AreFirst journals books.now 1 first.books.items
        → AreFirst journals books.now count (get_or all.items 0 d).books.items) }
    ensures lists { IfOk result
        (λ all. (d : Seat K L)
        → ((get_or all.items 0 d).closed_shards ≡ first.closed_shards)
        × ((get_or all.items 0 d).closed_books ≡ first.closed_books)) }
{
    let mut first = first;
    let mut all = others_of(alloc, shards, books, &mut first, count)?;
    all.insert(0, first)?;
    Ok(all)
}

// The seats behind the first one.
fn others_of<K: Keeper<Row = ShardRow>, L: Keeper<Row = BookRow>>(
    alloc: Global,
    shards: &[PaddedDock<DockedShard<K>>],
    books: &[PaddedDock<DockedBook<L>>],
    first: &mut Seat<K, L>,
    count: u32,
) -> Result<Vec<Seat<K, L>>, AllocError>
    requires some { 1 ≤ count }
    requires shards { (journals : List (List Entry)) × AreFirst journals shards.now 1 first.old.shards.items }
    requires books { (journals : List (List BookEntryOf)) × AreFirst journals books.now 1 first.old.books.items }
    ensures length { IfOk result (λ others. length others.items + 1 ≡ count) }
    ensures numbers { IfOk result
        (λ others. (n : ℕ) (d : Seat K L) → n < length others.items → (get_or others.items n d).number ≡ n + 2) }
    ensures shards { IfOk result
        (λ others. (journals : List (List Entry)) → AreFirst journals shards.now 1 first.old.shards.items
        → All (λ seat. AreNext journals shards.now seat.number seat.shards.items) others.items) }
    ensures books { IfOk result
        (λ others. (journals : List (List BookEntryOf)) → AreFirst journals books.now 1 first.old.books.items
        → All (λ seat. AreNext journals books.now seat.number seat.books.items) others.items) }
    ensures first_shards { OnOk result
        ((journals : List (List Entry)) → AreFirst journals shards.now 1 first.old.shards.items
        → AreFirst journals shards.now count first.new.shards.items) }
    ensures first_books { OnOk result
        ((journals : List (List BookEntryOf)) → AreFirst journals books.now 1 first.old.books.items
        → AreFirst journals books.now count first.new.books.items) }
    ensures lists { (first.new.closed_shards ≡ first.old.closed_shards) × (first.new.closed_books ≡ first.old.closed_books)
        × (first.new.number ≡ first.old.number) }
{
    let mut others = Vec::new(alloc);
    for made in 1..count {
        let seat = next_seat(alloc, shards, books, first, made + 1)?;
        others.push(seat)?;
    }
    Ok(others)
}

// The next seat, which has this number.
fn next_seat<K: Keeper<Row = ShardRow>, L: Keeper<Row = BookRow>>(
    alloc: Global,
    shards: &[PaddedDock<DockedShard<K>>],
    books: &[PaddedDock<DockedBook<L>>],
    first: &mut Seat<K, L>,
    number: u32,
) -> Result<Seat<K, L>, AllocError>
    requires shards { (journals : List (List Entry)) × (made : ℕ)
        × AreFirst journals shards.now made first.old.shards.items }
    requires books { (journals : List (List BookEntryOf)) × (made : ℕ)
        × AreFirst journals books.now made first.old.books.items }
    ensures number { IfOk result (λ seat. seat.number ≡ number) }
    ensures shards { IfOk result
        (λ seat. (journals : List (List Entry)) (made : ℕ) → AreFirst journals shards.now made first.old.shards.items
        → AreNext journals shards.now (made + 1) seat.shards.items) }
    ensures books { IfOk result
        (λ seat. (journals : List (List BookEntryOf)) (made : ℕ) → AreFirst journals books.now made first.old.books.items
        → AreNext journals books.now (made + 1) seat.books.items) }
    ensures first_shards { OnOk result
        ((journals : List (List Entry)) (made : ℕ) → AreFirst journals shards.now made first.old.shards.items
        → AreFirst journals shards.now (made + 1) first.new.shards.items) }
    ensures first_books { OnOk result
        ((journals : List (List BookEntryOf)) (made : ℕ) → AreFirst journals books.now made first.old.books.items
        → AreFirst journals books.now (made + 1) first.new.books.items) }
    ensures lists { (first.new.closed_shards ≡ first.old.closed_shards) × (first.new.closed_books ≡ first.old.closed_books)
        × (first.new.number ≡ first.old.number) }
{
    let shard_berths = next_berths(alloc, shards, &mut first.shards)?;
    let book_berths = next_berths(alloc, books, &mut first.books)?;
    Ok(Seat {
        number: Caller::new(number),
        shards: shard_berths,
        books: book_berths,
        closed_shards: Vec::new(alloc),
        closed_books: Vec::new(alloc),
    })
}

// The next berth of each dock.
fn next_berths<T: Journaled>(
    alloc: Global,
    docks: &[PaddedDock<T>],
    first: &mut Vec<Berth<T>>,
) -> Result<Vec<Berth<T>>, AllocError>
    requires { (journals : List (List T.Entry)) × (made : ℕ) × AreFirst journals docks.now made first.old.items }
    ensures first { OnOk result
        ((journals : List (List T.Entry)) (made : ℕ) → AreFirst journals docks.now made first.old.items
        → AreFirst journals docks.now (made + 1) first.new.items) }
    ensures next { IfOk result
        (λ berths. (journals : List (List T.Entry)) (made : ℕ) → AreFirst journals docks.now made first.old.items
        → AreNext journals docks.now (made + 1) berths.items) }
{
    let mut berths = Vec::new(alloc);
    for number in 0..docks.len() {
        let berth = docks[number].berth(&mut first[number]);
        berths.push(berth)?;
    }
    Ok(berths)
}
