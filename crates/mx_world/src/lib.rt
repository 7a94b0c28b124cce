//! A server of rooms on one thread: steps from other servers, and the reply to each.
#![tactic(auto)]

mod answers;
mod bodies;
mod books;
mod callers;
mod losses;
mod numbering;
mod open_errors;
mod orders;
mod parts;
mod reopening;
mod rooms;
mod runs;
mod steps;
mod stops;
mod transacting;
mod transactions;
mod worlds;

pub use answers::{Told, outcome_of};
pub use bodies::{last_answers_are_told, processing_result, reply_body};
pub use callers::SOLE_CALLER;
pub use mx_book::TransactionKey;
pub use mx_keeper::{BookRow, CallError, Keeper, Reply, ShardRow};
pub use mx_room::{
    Denied, EventIdList, EventList, Moment, NotARoom, Outcome, Query, QueryReply, Refusal,
};
pub use mx_shard::Answer;
pub use open_errors::OpenError;
pub use orders::agreeing_orders_answer_alike;
pub use runs::{RunError, agreeing_runs_answer_alike, run};
pub use steps::{Step, StepReply};
pub use stops::{known_events_keep_their_verdicts, stops_leave_the_journals};
pub use worlds::World;
