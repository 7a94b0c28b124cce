//! What runs beside the threads of a server that answer: who looks after its files, who counts its rooms, who shows an operator
//! how it is, and who writes its lines.
#![tactic(auto)]

mod admin_view;
mod file_watch;
mod room_watch;
mod server_lines;

pub use admin_view::{AdminView, start_admin};
pub use file_watch::{FileWatch, start_file_watch};
pub use room_watch::{RoomNotices, RoomWatch, ServerRooms, start_room_watch};
pub use server_lines::{ServerLines, ServerTold};
