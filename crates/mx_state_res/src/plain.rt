//! Plain bodies under the contracts of fast ones, which tests compare with them.

mod plain_conflicts;

pub use plain_conflicts::plain_full_conflicted;
