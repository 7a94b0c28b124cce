//! Threads beside the event loops, which answer the requests that may have to wait.
pub mod claims;
pub mod jobs;
pub mod loops;
pub mod marks;
pub mod shared;
pub mod threads;
pub mod tickets;
