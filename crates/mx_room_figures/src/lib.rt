//! Rooms, as whoever runs their server is shown them: counted by shard, and each on a line.
#![tactic(auto)]

mod lines;
mod servers;
mod surveys;

pub use lines::{RoomLines, room_lines};
pub use servers::joined_servers;
pub use surveys::{RoomSurvey, survey};
