//! The orders in which state resolution takes the events of a conflict (Matrix specification, Room Version 2, state
//! resolution).
#![tactic(auto)]

mod candidates;
mod citing;
mod following;
mod levels;
mod mainline_ordering;
mod mainline_walks;
mod mainlines;
mod passed_rows;
pub mod plain;
mod power_ordering;
mod ranking;
mod readiness;
mod tied_positions;

pub use mainline_ordering::mainline_order;
pub use mainlines::Mainline;
pub use power_ordering::power_order;
