//! What a room makes of the events that it receives: the verdict on each, the states before and after it, the forward
//! extremities and the current state (Matrix specification, Server-Server API, checks performed on receipt of a PDU).
#![tactic(auto)]

mod citing;
mod closures;
mod covering;
mod judging;
mod receiving;
mod redactions;
mod refusals;
mod resolution_cache;
mod room_states;
mod snapshots;
mod timelines;
mod verdicts;

pub use refusals::{NotReceived, OfferError};
pub use room_states::created_version;
pub use timelines::{
    Timeline, timeline_depths_hold, timeline_ids_differ, timeline_is_judged, timeline_is_sound,
};
pub use verdicts::Verdict;
