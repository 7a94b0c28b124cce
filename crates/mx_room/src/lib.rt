//! A room: its hosting, the events that it receives, and what it answers about them (Matrix specification,
//! Server-Server API).
#![tactic(auto)]

mod event_lists;
mod hosting;
mod joining;
mod kept_forms;
mod moments;
mod outcomes;
mod queries;
mod rooms;

pub use event_lists::{EventIdList, EventList, VersionList};
pub use hosting::{HostError, NotARoom, hosting_fault};
pub use joining::{JoinReply, Joined};
pub use kept_forms::kept_form;
pub use moments::{LATEST_MILLISECONDS, Moment};
pub use outcomes::{Outcome, Refusal};
pub use queries::join_templates::JoinTemplate;
pub use queries::{Denied, Query, QueryReply};
pub use rooms::Room;
