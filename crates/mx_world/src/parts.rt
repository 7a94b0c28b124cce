// What shards and books have in common: each stands at a place, over what keeps its rows.
ghost use Rattle.std.specs.Prelude.{◌≡◌, All, IfSome, None};
ghost use Rattle.mx_world.specs.Parts.{FilledAt};

use crate::open_errors::OpenError;
use mx_book::Book;
use mx_keeper::{BookRow, CallError, Keeper, Place, ShardRow};
use mx_shard::Shard;
use std::alloc::Global;

/// A shard or a book of a server.
pub(crate) trait Part: Drop {
    ghost use Rattle.std.specs.Prelude.{◌≡◌, ◌⊎◌, ◌↔◌, ℕ, IfErr, IfOk, IsTrue};
    ghost use Rattle.mx_keeper.specs.Places.{PlaceView};
    ghost use Rattle.mx_world.specs.declared.open_errors.OpenError.{OpenError};

    /// What keeps its rows.
    type RowKeeper: Drop;

    /// Where it stands.
    ghost place_of: { Self → PlaceView };

    /// It was opened over this keeper, with the entries of its rows.
    ghost is_over: { Self.RowKeeper → Self → Type 0 };

    /// Nothing can be opened over this keeper at this place.
    ghost cannot: { PlaceView → Self.RowKeeper → Type 0 };

    /// The error that names the keeper with this number.
    ghost refusal: { ℕ → OpenError };

    /// What always holds of it.
    ghost is_sound: { Self → Type 0 };

    /// It has no entry.
    ghost is_blank: { Self → Type 0 };

    /// One over a keeper, at this place, with the entries of its rows.
    fn reopen(alloc: Global, keeper: Self::RowKeeper, place: Place) -> Result<Self, OpenError>
        ensures place { IfOk result (λ part. place_of part ≡ place) }
        ensures over { IfOk result (is_over keeper) }
        ensures refused { IfErr result
            (λ error. (error ≡ OpenError.Memory) ⊎ ((error ≡ refusal place.number) × cannot place keeper)) };

    /// Whether it has no entry.
    fn has_no_entry(&self) -> bool
        ensures { IsTrue result ↔ is_blank self.now };

    /// It is sound. This is a law: it changes nothing, and hands its fact to the caller.
    fn soundness(&self)
        ensures { is_sound self.now };
}

impl<K: Keeper<Row = ShardRow>> Part for Shard<K> {
    ghost use Rattle.std.specs.Prelude.{◌≡◌, []};
    ghost use Rattle.mx_shard.specs.Journal.{CanReopen};
    ghost use Rattle.mx_world.specs.Parts.{IsSoundShard};
    ghost use Rattle.mx_world.specs.Reopening.{IsReopenedShard, CannotReopen};
    ghost use Rattle.mx_world.specs.declared.open_errors.OpenError.TheVariants as named;

    type RowKeeper = K;

    ghost place_of = { λ shard. shard.place };

    ghost is_over = { IsReopenedShard K.is_ready K.is_honest K.rows K.may_leave };

    ghost cannot = { λ place. CannotReopen (CanReopen place) K.is_ready K.is_honest K.rows };

    ghost refusal = { named.Shard };

    ghost is_sound = { IsSoundShard K.is_honest K.is_open K.rows };

    ghost is_blank = { λ shard. shard.journal ≡ [] };

    fn reopen(alloc: Global, keeper: K, place: Place) -> Result<Self, OpenError> {
        match Shard::reopen(alloc, keeper, place) {
            Ok(shard) => Ok(shard),
            Err(CallError::Memory) => Err(OpenError::Memory),
            Err(CallError::Storage) => Err(OpenError::Shard(place.number())),
        }
    }

    fn has_no_entry(&self) -> bool {
        self.is_empty()
    }

    fn soundness(&self) {
        self.place();
    }
}

impl<L: Keeper<Row = BookRow>> Part for Book<L> {
    ghost use Rattle.std.specs.Prelude.{◌≡◌, []};
    ghost use Rattle.mx_world.specs.Parts.{IsSoundBook};
    ghost use Rattle.mx_world.specs.Reopening.{IsReopenedBook, CannotReopen, CanReopenBook};
    ghost use Rattle.mx_world.specs.declared.open_errors.OpenError.TheVariants as named;

    type RowKeeper = L;

    ghost place_of = { λ book. book.place };

    ghost is_over = { IsReopenedBook L.is_ready L.is_honest L.rows L.may_leave };

    ghost cannot = { λ place. CannotReopen (CanReopenBook place) L.is_ready L.is_honest L.rows };

    ghost refusal = { named.Book };

    ghost is_sound = { IsSoundBook L.is_honest L.is_open L.rows };

    ghost is_blank = { λ book. book.journal ≡ [] };

    fn reopen(alloc: Global, keeper: L, place: Place) -> Result<Self, OpenError> {
        match Book::reopen(alloc, keeper, place) {
            Ok(book) => Ok(book),
            Err(CallError::Memory) => Err(OpenError::Memory),
            Err(CallError::Storage) => Err(OpenError::Book(place.number())),
        }
    }

    fn has_no_entry(&self) -> bool {
        self.is_empty()
    }

    fn soundness(&self) {
        self.place();
    }
}

/// Each part is sound. This is a law: it changes nothing, and hands its fact to the caller.
pub(crate) fn parts_are_sound<P: Part>(parts: &[P])
    ensures { All P.is_sound parts.now }
{
    for part in parts {
        part.soundness();
    }
}

/// The number of the first part that has an entry.
pub(crate) fn first_filled<P: Part>(parts: &[P]) -> Option<usize>
    ensures blank { result ≡ None → All P.is_blank parts.now }
    ensures filled { IfSome result (FilledAt P.is_blank parts.now) }
{
    for number in 0..parts.len() {
        if !parts[number].has_no_entry() {
            return Some(number);
        }
    }
    None
}
