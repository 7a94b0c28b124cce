//! What is noted of an answered request: its counts, its record, and the records of its events that were refused or rejected.
#![tactic(auto)]

mod abouts;
mod event_results;
mod noting;

pub use abouts::{CallAbout, EventAbout, RequestAbout};
pub use noting::{Answered, note_answer};
