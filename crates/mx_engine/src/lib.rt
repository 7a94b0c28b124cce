//! A server of rooms that callers in threads of their own share.
#![tactic(auto)]

mod asking;
mod book_turns;
mod calls;
mod closing;
mod crashes;
mod docked;
mod engines;
mod event_places;
mod faults;
mod gates;
mod jobs;
mod meeting;
mod moves;
mod offering;
mod offers;
mod opening;
mod reading;
mod replies;
mod seats;
mod side_by_side;
mod taking;
mod transactions;

pub use crashes::{
    books_outlast_a_crash, reopened_servers_have_what_was_told, shards_outlast_a_crash,
    told_as_kept_is_seen,
};
pub use engines::{Engine, MOST_SEATS};
pub use gates::{Gate, OpenGate};
pub use replies::TransactionReply;
pub use seats::Seat;
