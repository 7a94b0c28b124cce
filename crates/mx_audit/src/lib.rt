//! Why an event of a room was refused, and how a state came to be (Matrix specification, Server-Server API, checks
//! performed on receipt of a PDU; Room Version 2, state resolution).
#![tactic(auto)]

mod asking;
mod audit_errors;
mod auth_checks;
mod checks;
mod conflicting;
mod earlier_events;
mod entry_lines;
mod event_lines;
mod explaining;
mod judged_events;
mod judged_states;
mod laws;
mod pictures;
mod reasons;
mod resolution_lines;
mod resolutions;
mod room_audits;
mod steps;

pub use asking::AskedEntry;
pub use audit_errors::AuditError;
pub use checks::{Check, FailedCheck};
pub use entry_lines::state_lines;
pub use event_lines::event_line;
pub use explaining::Explanation;
pub use laws::{deciding_check_makes_the_verdict, steps_make_the_state};
pub use pictures::{picture_end, picture_head, picture_lines};
pub use resolution_lines::lines_of_resolution;
pub use resolutions::resolution_before;
pub use room_audits::RoomAudit;
pub use steps::{ResolutionStep, ResolutionSteps, resolution_steps};
