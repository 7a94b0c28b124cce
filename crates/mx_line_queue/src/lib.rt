//! Lines on their way to a writer: from threads that never wait for it, through a queue that has a limit, in a thread of its own.
#![tactic(auto)]

mod line_outputs;
mod line_queues;
mod line_senders;
mod lines;
#[cfg(test)]
mod tests;
mod writing;

pub use line_outputs::LineOutput;
pub use line_queues::LineQueue;
pub use line_senders::{LineSender, QueueSender};
pub use lines::QueuedLine;
pub use writing::start_writer;
