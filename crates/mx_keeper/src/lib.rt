//! What keeps rows, so that rooms and transactions can be made of them again.
#![tactic(auto)]

mod caller;
mod event_texts;
mod failure_notes;
mod fault_keepers;
mod faults;
mod keepers;
mod memory;
mod places;
mod refusals;
mod replies;
mod rows;
mod shard_counts;
mod sqlite_keepers;
mod statements;
mod storing;
mod tables;
mod transaction_ids;

pub use caller::Caller;
pub use failure_notes::FailureNote;
pub use fault_keepers::FaultKeeper;
pub use faults::KeeperFault;
pub use keepers::Keeper;
pub use memory::MemoryKeeper;
pub use places::{MOST_PLACES, Place};
pub use refusals::CallError;
pub use replies::Reply;
pub use rows::{BookRow, ShardRow};
pub use shard_counts::ShardCount;
pub use sqlite_keepers::{NotAdopted, SqliteKeeper};
pub use storing::Storable;
pub use tables::table_rows::TableRow;
pub use transaction_ids::TransactionId;
