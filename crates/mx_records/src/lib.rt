//! Records of what a server did, as lines of its log: of each answered request, of each event that was refused or rejected, and
//! of what happened to the server. No record has a body, or anything of an event's content.
#![tactic(auto)]

mod lines;
mod members;
mod moments;
mod records;

pub use lines::{RecordForm, record_line};
pub use log::{Level, LevelFilter};
pub use records::{AnsweredRequest, EventNotTaken, NotTaken, Notice, NoticeKind, Record, Subject};
