//! What the program may be asked to do with rooms, and how.
#![tactic(auto)]

mod auditing;
mod checking;
mod logging;
mod migrating;
mod replaying;
mod serving;

pub use auditing::{AskedOf, AuditOptions, AuditQuestion, AuditSource, EventQuestion};
pub use checking::CheckOptions;
pub use logging::LogOptions;
pub use migrating::MigrateOptions;
pub use replaying::ReplayOptions;
pub use serving::{SeatCount, ServeOptions, ServerLog};
