//! Power levels of room version 6 (Matrix specification, `m.room.power_levels`, and Room Version 6, authorization
//! rules). Nothing here takes memory.
#![tactic(auto)]

mod numerals;
mod power_levels;
mod reading;

pub use power_levels::Levels;
pub use reading::{entry_at, level_at, read_level};
