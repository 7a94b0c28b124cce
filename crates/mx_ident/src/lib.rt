//! Matrix identifiers, as the Matrix specification's appendix "Identifier Grammar" defines them: user ids, room ids,
//! event ids and server names, each of which owns its text.
//!
//! They stay four types, and not one that is generic over its kind: a room id can't stand where a user id is asked, each
//! contract names its own grammar (an event id has no server, a server name no sigil), and what they share is their
//! tests of a text, which stand once, in `checking`. The price is that `Clone`, `Ord` and `Display` are written four
//! times.
#![tactic(auto)]

mod checking;
mod digits;
mod event_ids;
mod hosts;
mod refusals;
mod room_ids;
mod server_names;
mod user_ids;

pub use digits::has_only_digits;
pub use event_ids::EventId;
pub use refusals::{IdError, NotAnId};
pub use room_ids::RoomId;
pub use server_names::ServerName;
pub use user_ids::UserId;
