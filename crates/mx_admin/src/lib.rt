//! What tells an operator of a running server: its counts, the records of its log, and the files that failed, which threads hand
//! over and never wait for; a port of its own that shows them; and the file of the log, which is opened again where it was moved
//! away.
#![tactic(auto)]

mod calls;
mod desks;
mod failures;
mod gaps;
mod log_files;
mod notices;
mod record_logs;
mod replies;
mod requests;
mod rooms;
mod serving;

pub use calls::AdminCall;
pub use desks::{Desk, DeskThread};
pub use failures::Failures;
pub use log_files::LogFile;
pub use notices::{NoticeOutput, NoticePaths};
pub use record_logs::{LogRecord, RecordLog};
pub use replies::{AdminReply, JSON_LINES, PLAIN_TEXT, reply_bytes};
pub use rooms::{NumberedOrder, RoomDesk, RoomOrder, RoomsReply};
pub use serving::{AdminSource, answer_one, serve_admin};
