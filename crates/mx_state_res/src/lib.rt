//! State resolution, version 2: the one state that several states of a room resolve to (Matrix specification, Room
//! Version 2, state resolution).
#![tactic(auto)]

mod chains;
mod checks;
mod conflicts;
mod kept_resolutions;
mod laws;
mod numbered_resolution;
pub mod plain;
mod resolving;

pub use chains::chain_difference::sparse_chain_difference;
pub use chains::dense_difference::dense_chain_difference;
pub use checks::judged_states::usable_auth_event;
pub use checks::powers::power_events;
pub use conflicts::{full_conflicted, unconflicted};
pub use kept_resolutions::checked_events::CheckedEvent;
pub use kept_resolutions::{KeptResolution, resolve_keeping};
pub use laws::{
    equal_states_resolve_to_themselves, one_state_resolves_to_itself,
    resolutions_follow_from_the_one_before,
};
pub use numbered_resolution::resolve_numbered;
pub use resolving::resolve;
