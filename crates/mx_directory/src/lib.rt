//! The files of a server in a directory, each taken by a keeper; what is told of them; and why a server does not serve.
#![tactic(auto)]

mod batches;
mod directories;
mod errors;
mod file_states;
mod log_damage;
mod losses;
mod made_for;
mod new_files;
mod opened_names;
mod presence;
mod progress_lines;
mod row_counts;
mod row_files;
mod row_openings;
mod server_file;
mod watched_keepers;
mod whole_files;

pub use directories::{ServerFiles, migrate, open_directory};
pub use errors::{ServerError, StartError};
pub use progress_lines::ProgressLine;
pub use row_files::{RowFile, RowFiles};
pub use row_openings::FileRows;
pub use watched_keepers::WatchedKeeper;
