//! The authorization rules of a room (Matrix specification, Room Version 6 and Room Version 7, authorization rules).
#![tactic(auto)]

mod citing;
mod contents;
mod creating;
mod events;
mod joining;
mod judging;
mod memberships;
mod power_levels;
mod refusals;
mod selecting;
mod states;
mod versions;

pub use citing::{CitedEvent, judge_auth_events};
pub use events::{is_at, membership_of};
pub use joining::judge_own_join;
pub use judging::{agreeing_states_judge_alike, judge};
pub use refusals::Rule;
pub use selecting::{NeededKeys, StateKey, needed_keys};
pub use states::RoomState;
pub use versions::RoomVersion;
