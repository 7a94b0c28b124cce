//! A room's states: at a type and a state key an event. What a caller sees is a state, by its number or as a map of its own;
//! a numbered state is kept as a tree of its events, which shares with those of earlier states what both have.
#![tactic(auto)]

mod entries;
mod map_entries;
pub mod plain;
mod state_maps;
mod states;
mod trees;

pub use entries::StateEntry;
pub use map_entries::{has_entry, overwrite};
pub use state_maps::StateMap;
pub use states::States;
pub use states::event_tests::EventTest;
pub use states::number_sets::{each_once, rise};
pub use states::state_changes::{StateChange, least_change, restored_puts};
pub use states::state_numbers::StateNo;
pub use states::state_refs::StateRef;
