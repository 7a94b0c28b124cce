// The bytes that are held for clients: bodies that come, and replies that go.
mod budget;
mod closing;
mod closings;
mod holdings;
mod replies;
mod room;

pub use budget::{Account, ClientMemory, MemoryBudget};
pub use closings::RoomClosings;
pub use replies::{CountedReply, ReplyBody};
pub use room::{Room, RoomWait};
