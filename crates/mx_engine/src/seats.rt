// Callers of an engine.
ghost use Rattle.std.specs.Prelude.{◌≡◌};
ghost use Rattle.mx_engine.specs.Seats.{seat_number};

use crate::docked::{DockedBook, DockedShard};
use mx_book::Book;
use mx_dock::Berth;
use mx_keeper::{BookRow, Caller, Keeper, ShardRow};
use mx_shard::Shard;

/// The right of one caller to call an engine, from any thread.
///
/// Its number never changes, and no other seat of the engine has it: the seats are numbered from 1. It knows of each
/// shard and each book which journal its owner has seen, and which entries came through it. A seat that is dropped
/// between two calls keeps nobody waiting, but without it the engine can't be closed.
#[derive(Drop)]
pub struct Seat<K: Keeper<Row = ShardRow>, L: Keeper<Row = BookRow>> {
    pub(crate) number: Caller,
    pub(crate) shards: Vec<Berth<DockedShard<K>>>,
    pub(crate) books: Vec<Berth<DockedBook<L>>>,
    // Of the first seat: empty, with room for what closing the engine gives.
    pub(crate) closed_shards: Vec<Shard<K>>,
    pub(crate) closed_books: Vec<Book<L>>,
}

impl<K: Keeper<Row = ShardRow>, L: Keeper<Row = BookRow>> Seat<K, L> {
    /// Its number. An entry that came through it has this number as its caller's.
    pub fn number(&self) -> u32
        ensures { result ≡ seat_number self.now }
    {
        self.number.number()
    }
}
