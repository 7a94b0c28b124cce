//! What a server may see of a room: server access control lists, whether a server is in the room, which events are
//! visible to it, and the form in which they are given (Matrix specification, Client-Server API and Server-Server API).
#![tactic(auto)]

mod access_lists;
mod events;
mod globs;
mod member_tests;
mod redactions;
mod serving;
mod states;
mod viewers;
mod visibilities;

pub use access_lists::acl_allows;
pub use globs::{glob_matches, globs_match_by_cases};
pub use redactions::is_redacted;
pub use serving::served;
pub use states::StateInRoom;
pub use viewers::{Viewer, in_room, shown, visible};
