// Seats that are given back, and docks that are closed.
ghost use Rattle.std.specs.Prelude.{◌≡◌, ◌<◌, ◌≤◌, ◌++◌, ℕ, List, [], ◌∷◌, All, Any, IsTrue, length, get_or, map, vec_capacity};
ghost use Rattle.crossbeam_utils.specs.Padded.{padded_value};
ghost use Rattle.mx_dock.specs.Dock.{given_back, own, opening, place};
ghost use Rattle.mx_keeper.specs.Places.{PlaceView};
ghost use Rattle.mx_shard.specs.Journal.{Entry, IsLegal};
ghost use Rattle.mx_book.specs.Journal.{is_legal};
ghost use Rattle.mx_book.specs.declared.entries.BookEntry.{BookEntry as BookEntryOf};
ghost use Rattle.mx_world.specs.Parts.{shard_places, book_places, ArePlaced};
ghost use Rattle.mx_world.specs.Worlds.{shard_journals, book_journals};
ghost use Rattle.mx_engine.specs.Places.{book_caller, place_code};
ghost use Rattle.mx_engine.specs.Views.{BerthView, view_at};
ghost use Rattle.mx_engine.specs.Berths.{AreBerthsAt, views_of};
ghost use Rattle.mx_engine.specs.Closing.{AreAllBack, AreGathered, IsAllBack, IsWhole, known_at};

use crate::docked::{Docked, DockedBook, DockedShard, PaddedDock};
use crate::seats::Seat;
use mx_book::Book;
use mx_dock::{Berth, Journaled};
use mx_keeper::{BookRow, Keeper, ShardRow};
use mx_shard::Shard;
use std::sync::Wait;

// ---- the whole

/// The shards and the books, once all seats are given back. It takes no memory.
pub(crate) fn close_all<R: Wait, K: Keeper<Row = ShardRow>, L: Keeper<Row = BookRow>>(
    rt: &R,
    shards: Vec<PaddedDock<DockedShard<K>>>,
    books: Vec<PaddedDock<DockedBook<L>>>,
    first: Seat<K, L>,
    others: Vec<Seat<K, L>>,
) -> (Vec<Shard<K>>, Vec<Book<L>>)
    requires shards { All (λ seat. AreBerthsAt shards.items seat.number seat.shards.items) (first ∷ others.items) }
    requires books { All (λ seat. AreBerthsAt books.items seat.number seat.books.items) (first ∷ others.items) }
    requires number { first.number ≡ 1 }
    requires all { (count : ℕ)
        × ((n : ℕ) → n < length shards.items → (view_at (views_of first.shards.items) n).made ≡ count)
        × ((n : ℕ) → n < length books.items → (view_at (views_of first.books.items) n).made ≡ count)
        × ((n : ℕ) → 1 ≤ n → n ≤ count → Any (λ seat. seat.number ≡ n) (first ∷ others.items)) }
    requires shard_list { (first.closed_shards.items ≡ []) × (length shards.items ≤ vec_capacity first.closed_shards) }
    requires book_list { (first.closed_books.items ≡ []) × (length books.items ≤ vec_capacity first.closed_books) }
    ensures shard_count { length result.0.items ≡ length shards.items }
    ensures book_count { length result.1.items ≡ length books.items }
    ensures shards_placed { ArePlaced (shard_places result.0.items) }
    ensures books_placed { ArePlaced (book_places result.1.items) }
    ensures legal_shards { All (λ shard. IsLegal shard.journal) result.0.items }
    ensures legal_books { All (λ book. IsTrue (is_legal book.journal)) result.1.items }
    ensures shards { (n : ℕ) → n < length result.0.items
        → IsWhole (λ e. e.caller) (view_at (views_of first.shards.items) n).opening
        (known_at (map (λ seat. views_of seat.shards.items) (first ∷ others.items)) n)
        (get_or (shard_journals result.0.items) n []) }
    ensures books { (n : ℕ) → n < length result.1.items
        → IsWhole book_caller (view_at (views_of first.books.items) n).opening
        (known_at (map (λ seat. views_of seat.books.items) (first ∷ others.items)) n)
        (get_or (book_journals result.1.items) n []) }
{
    let mut first = first;
    gather(&shards, &books, &mut first, others);
    let Seat {
        shards: shard_berths,
        books: book_berths,
        closed_shards,
        closed_books,
        ..
    } = first;
    let shards = close_docks(rt, shards, shard_berths, closed_shards);
    let books = close_docks(rt, books, book_berths, closed_books);
    (shards, books)
}

// ---- seats

/// Where the first seat stands among these.
pub(crate) fn first_among<K: Keeper<Row = ShardRow>, L: Keeper<Row = BookRow>>(
    seats: &[Seat<K, L>],
) -> usize
    requires { Any (λ seat. seat.number ≡ 1) seats.now }
    ensures within { result < length seats.now }
    ensures first { (d : Seat K L) → (get_or seats.now result d).number ≡ 1 }
{
    for place in 0..seats.len() {
        if seats[place].number() == 1 {
            return place;
        }
    }
    unreachable!()
}

// Gives the other seats back; the first one then knows what each of them does.
fn gather<K: Keeper<Row = ShardRow>, L: Keeper<Row = BookRow>>(
    shards: &[PaddedDock<DockedShard<K>>],
    books: &[PaddedDock<DockedBook<L>>],
    first: &mut Seat<K, L>,
    others: Vec<Seat<K, L>>,
)
    requires first_shards { AreBerthsAt shards.now first.old.number first.old.shards.items }
    requires first_books { AreBerthsAt books.now first.old.number first.old.books.items }
    requires shards { All (λ seat. AreBerthsAt shards.now seat.number seat.shards.items) others.items }
    requires books { All (λ seat. AreBerthsAt books.now seat.number seat.books.items) others.items }
    ensures shards { AreGathered shards.now first.new.shards.items (map (λ seat. views_of seat.shards.items) others.items) }
    ensures books { AreGathered books.now first.new.books.items (map (λ seat. views_of seat.books.items) others.items) }
    ensures shard_views { views_of first.new.shards.items ≡ views_of first.old.shards.items }
    ensures book_views { views_of first.new.books.items ≡ views_of first.old.books.items }
    ensures lists { (first.new.closed_shards ≡ first.old.closed_shards) × (first.new.closed_books ≡ first.old.closed_books) }
{
    for seat in others {
        give_back_seat(shards, books, first, seat);
    }
}

// Gives a seat back.
fn give_back_seat<K: Keeper<Row = ShardRow>, L: Keeper<Row = BookRow>>(
    shards: &[PaddedDock<DockedShard<K>>],
    books: &[PaddedDock<DockedBook<L>>],
    first: &mut Seat<K, L>,
    other: Seat<K, L>,
)
    requires first_shards { (known : List (List (BerthView Entry))) × AreGathered shards.now first.old.shards.items known }
    requires first_books { (known : List (List (BerthView BookEntryOf)))
        × AreGathered books.now first.old.books.items known }
    requires shards { AreBerthsAt shards.now other.number other.shards.items }
    requires books { AreBerthsAt books.now other.number other.books.items }
    ensures shards { (known : List (List (BerthView Entry))) → AreGathered shards.now first.old.shards.items known
        → AreGathered shards.now first.new.shards.items (known ++ views_of other.shards.items ∷ []) }
    ensures books { (known : List (List (BerthView BookEntryOf))) → AreGathered books.now first.old.books.items known
        → AreGathered books.now first.new.books.items (known ++ views_of other.books.items ∷ []) }
    ensures shard_views { views_of first.new.shards.items ≡ views_of first.old.shards.items }
    ensures book_views { views_of first.new.books.items ≡ views_of first.old.books.items }
    ensures lists { (first.new.closed_shards ≡ first.old.closed_shards) × (first.new.closed_books ≡ first.old.closed_books) }
{
    let Seat {
        shards: shard_berths,
        books: book_berths,
        ..
    } = other;
    give_back(shards, &mut first.shards, shard_berths);
    give_back(books, &mut first.books, book_berths);
}

// Gives a caller's berths back.
fn give_back<T: Journaled>(
    docks: &[PaddedDock<T>],
    first: &mut Vec<Berth<T>>,
    berths: Vec<Berth<T>>,
)
    requires first { (known : List (List (BerthView T.Entry))) × AreGathered docks.now first.old.items known }
    requires other { (caller : ℕ) × AreBerthsAt docks.now caller berths.items }
    ensures first { (known : List (List (BerthView T.Entry))) → AreGathered docks.now first.old.items known
        → AreGathered docks.now first.new.items (known ++ views_of berths.items ∷ []) }
    ensures views { views_of first.new.items ≡ views_of first.old.items }
{
    for (number, berth) in berths.into_iter().enumerate() {
        docks[number].give_back(&mut first[number], berth);
    }
}

// ---- docks

// The shards or books, once all berths are given back, in the list that has room for them. It takes no memory.
fn close_docks<R: Wait, T: Docked>(
    rt: &R,
    docks: Vec<PaddedDock<T>>,
    berths: Vec<Berth<T>>,
    list: Vec<T::Value>,
) -> Vec<T::Value>
    requires all { (known : List (List (BerthView T.Entry))) × AreAllBack docks.items berths.items known }
    requires empty { list.items ≡ [] }
    requires room { length docks.items ≤ vec_capacity list }
    ensures count { length result.items ≡ length docks.items }
    ensures placed { ArePlaced (map T.place_of result.items) }
    ensures legal { All (λ value. T.is_legal (T.journal_of value)) result.items }
    ensures whole { (known : List (List (BerthView T.Entry))) → AreAllBack docks.items berths.items known
        → (n : ℕ) (b : Berth T T.Entry) → n < length docks.items
        → IsWhole T.caller (opening (get_or berths.items n b)) (own (get_or berths.items n b) ∷ known_at known n)
        (get_or (map T.journal_of result.items) n []) }
{
    let mut berths = berths;
    let mut values = list;
    for dock in docks {
        let berth = berths.remove(0);
        let value = close_dock(rt, dock, berth);
        values.push_reserved(value);
    }
    values
}

// Closes the dock of one shard or book.
fn close_dock<R: Wait, T: Docked>(rt: &R, dock: PaddedDock<T>, berth: Berth<T>) -> T::Value
    requires { (at : PlaceView) × IsAllBack at (padded_value dock) berth }
    ensures place { place_code (T.place_of result) ≡ place berth }
    ensures within { ((T.place_of result).number < (T.place_of result).count) × ((T.place_of result).count ≤ 64) }
    ensures legal { T.is_legal (T.journal_of result) }
    ensures whole { IsWhole T.caller (opening berth) (own berth ∷ given_back berth) (T.journal_of result) }
{
    let docked = dock.into_inner().close(rt, berth);
    docked.soundness();
    docked.out_of_box()
}
