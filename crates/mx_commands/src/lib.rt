//! The subcommands that need no server: `check` tells of one event, `replay` answers a log, `audit` tells why the events of
//! a room were accepted or refused, and `log` makes a log of events as other servers export them. And what the program says where it did not do what it was asked.
#![tactic(auto)]

mod auditing;
mod bad_lines;
mod checking;
mod event_faults;
mod explanations;
mod logging;
mod output;
mod replaying;

pub use auditing::audit;
pub use checking::{CheckError, Checked, check, check_event};
pub use logging::log;
pub use output::{
    Failure, FailureAbout, MISUSED, REFUSED, SUCCESS, lines_of, report, report_about, report_server,
};
pub use replaying::replay;
