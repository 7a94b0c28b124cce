//! The rooms of one place: a journal of the events that they kept, whose entries are rows of a keeper.
#![tactic(auto)]

mod answers;
mod asking;
mod entries;
mod holders;
mod holding;
mod hosting;
mod journal_places;
mod offering;
mod reopening;
mod sendings;
mod shards;
mod storing;

pub use answers::Answer;
pub use entries::ShardEntry;
pub use mx_keeper::CallError;
pub use sendings::Sending;
pub use shards::Shard;
