//! Plain bodies under the contracts of fast ones, which tests compare with them.

mod differing_keys;
mod plain_states;

pub use plain_states::PlainStates;
