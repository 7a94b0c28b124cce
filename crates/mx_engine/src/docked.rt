// Shards and books as docks have them.
ghost use Rattle.std.specs.Prelude.{◌≡◌, ◌<◌, ◌≤◌, List};
ghost use Rattle.mx_keeper.specs.Places.{PlaceView};
ghost use Rattle.mx_engine.specs.Places.{place_code};

use crossbeam_utils::CachePadded;
use mx_book::{Book, BookEntry};
use mx_dock::{Dock, Journaled};
use mx_keeper::{BookRow, Keeper, ShardRow};
use mx_shard::{Shard, ShardEntry};

/// A dock of a shard or a book, with nothing else on its cache lines.
pub(crate) type PaddedDock<T> = CachePadded<Dock<T>>;

/// A shard or a book that callers share.
pub(crate) trait Docked: Journaled + Drop {
    /// A shard or a book.
    type Value: Drop;

    /// Where a shard or a book stands.
    ghost place_of: { Self.Value → PlaceView };

    /// Its entries.
    ghost journal_of: { Self.Value → List Self.Entry };

    /// What always holds of its entries.
    ghost is_legal: { List Self.Entry → Type 0 };

    /// What is shared.
    ghost value_of: { Self → Self.Value };

    /// A shard or a book that callers are to share.
    fn in_box(value: Box<Self::Value>) -> Self
        ensures journal { Self.journal result ≡ journal_of value.value }
        ensures place { Self.place result ≡ place_code (place_of value.value) };

    /// What callers no longer share.
    fn out_of_box(self) -> Self::Value
        ensures { result ≡ value_of self };

    /// What always holds of it. This is a law: it changes nothing, and hands its facts to the caller.
    fn soundness(&self)
        ensures journal { Self.journal self.now ≡ journal_of (value_of self.now) }
        ensures place { Self.place self.now ≡ place_code (place_of (value_of self.now)) }
        ensures within { (place_of (value_of self.now)).number < (place_of (value_of self.now)).count }
        ensures few { (place_of (value_of self.now)).count ≤ 64 }
        ensures legal { is_legal (journal_of (value_of self.now)) };
}

/// A shard that callers share. It lies in a box, so that taking it and putting it back moves a pointer alone.
#[derive(Drop)]
pub struct DockedShard<K: Keeper<Row = ShardRow>> {
    pub(crate) shard: Box<Shard<K>>,
}

impl<K: Keeper<Row = ShardRow>> Journaled for DockedShard<K> {
    ghost use Rattle.mx_engine.specs.Places.{place_code};

    type Entry = ShardEntry;

    ghost journal = { λ docked. docked.shard.value.journal };

    ghost caller = { λ entry. entry.caller };

    ghost place = { λ docked. place_code docked.shard.value.place };
}

impl<K: Keeper<Row = ShardRow>> Docked for DockedShard<K> {
    ghost use Rattle.std.specs.Prelude.{◌≡◌};
    ghost use Rattle.mx_shard.specs.Journal.{IsLegal};
    ghost use Rattle.mx_engine.specs.Places.{place_code};

    type Value = Shard<K>;

    ghost place_of = { λ shard. shard.place };

    ghost journal_of = { λ shard. shard.journal };

    ghost is_legal = { IsLegal };

    ghost value_of = { λ docked. docked.shard.value };

    fn in_box(value: Box<Shard<K>>) -> DockedShard<K>
        ensures journal { result.shard.value.journal ≡ value.value.journal }
        ensures place { place_code result.shard.value.place ≡ place_code value.value.place }
    {
        DockedShard { shard: value }
    }

    fn out_of_box(self) -> Shard<K> {
        Box::into_inner(self.shard)
    }

    fn soundness(&self) {
        let place = self.shard.place();
        place.number();
        place.count();
    }
}

/// A book that callers share. It lies in a box, as a shard does.
#[derive(Drop)]
pub struct DockedBook<L: Keeper<Row = BookRow>> {
    pub(crate) book: Box<Book<L>>,
}

impl<L: Keeper<Row = BookRow>> Journaled for DockedBook<L> {
    ghost use Rattle.mx_engine.specs.Places.{place_code, book_caller};

    type Entry = BookEntry;

    ghost journal = { λ docked. docked.book.value.journal };

    ghost caller = { book_caller };

    ghost place = { λ docked. place_code docked.book.value.place };
}

impl<L: Keeper<Row = BookRow>> Docked for DockedBook<L> {
    ghost use Rattle.std.specs.Prelude.{◌≡◌, IsTrue};
    ghost use Rattle.mx_book.specs.Journal.{is_legal};
    ghost use Rattle.mx_engine.specs.Places.{place_code};

    type Value = Book<L>;

    ghost place_of = { λ book. book.place };

    ghost journal_of = { λ book. book.journal };

    ghost is_legal = { λ journal. IsTrue (is_legal journal) };

    ghost value_of = { λ docked. docked.book.value };

    fn in_box(value: Box<Book<L>>) -> DockedBook<L>
        ensures journal { result.book.value.journal ≡ value.value.journal }
        ensures place { place_code result.book.value.place ≡ place_code value.value.place }
    {
        DockedBook { book: value }
    }

    fn out_of_box(self) -> Book<L> {
        Box::into_inner(self.book)
    }

    fn soundness(&self) {
        let place = self.book.place();
        place.number();
        place.count();
    }
}
