//! Logs of steps and of other servers' requests, answered line by line by a server on one thread.
#![tactic(auto)]

mod answers;
mod desks;
mod host_lines;
mod input;
mod line_reader;
mod lines;
mod log_servers;
mod logs;
mod memory_worlds;
mod steps;
mod strict_logs;
mod watching;

pub use answers::step_texts::host_answer_line;
pub use host_lines::{HostLine, HostLineOutcome, host_by_line, read_host_line};
pub use input::{InputError, read_all};
pub use lines::splitting::first_line;
pub use log_servers::{WatchedServer, server_after_log};
pub use logs::{LinesError, run_lines};
pub use strict_logs::{BadLine, run_lines_to_bad};
pub use watching::{LineForm, LogWatcher};
