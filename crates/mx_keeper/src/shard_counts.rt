// How many shards a server has.
ghost use Rattle.std.specs.Prelude.{◌≡◌, ◌≤◌, ◌<◌, ◌⊎◌, IfNone, IfSome};

use crate::places::MOST_PLACES;
use std::marker::Model;

/// How many shards a server has, and as many books: 1 to [`MOST_PLACES`].
#[derive(Clone, Copy, Debug)]
pub struct ShardCount {
    count: usize,
}

impl Model for ShardCount {
    ghost use Rattle.std.specs.Prelude.{ℕ, ◌≤◌};

    ghost Value = { ℕ };

    ghost view = { λ shards. shards.count };

    ghost invariant = { λ shards. (1 ≤ shards.count) × (shards.count ≤ 64) };

    ghost inverse = { λ count. record { count = count } };
}

impl ShardCount {
    /// So many shards; none where that is 0 or more than [`MOST_PLACES`].
    pub fn of(count: usize) -> Option<ShardCount>
        ensures shards { IfSome result (λ shards. shards ≡ count) }
        ensures none { IfNone result ((count < 1) ⊎ (MOST_PLACES < count)) }
    {
        if 1 <= count && count <= MOST_PLACES {
            Some(ShardCount { count })
        } else {
            None
        }
    }

    /// How many they are.
    pub fn get(self) -> usize
        ensures count { result ≡ self }
        ensures some { 1 ≤ result }
        ensures few { result ≤ MOST_PLACES }
    {
        self.count
    }
}
