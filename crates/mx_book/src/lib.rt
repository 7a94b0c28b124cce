//! The transactions of other servers: which were begun, and the reply that was kept for each.
#![tactic(auto)]

mod books;
mod entries;
mod journals;
mod openings;
mod recording;
mod reopening;
mod transaction_keys;

pub use books::Book;
pub use entries::BookEntry;
pub use mx_keeper::CallError;
pub use openings::Opening;
pub use transaction_keys::TransactionKey;
