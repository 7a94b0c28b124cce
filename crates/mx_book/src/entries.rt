// What a book tells of its transactions.
use crate::transaction_keys::TransactionKey;
use mx_keeper::{Caller, Reply};

/// An entry of a book's journal, with the number of the caller that made it.
///
/// A book keeps what is begun and not ended and the replies, and no list of all that came, so that no value of this type
/// is made: clauses alone speak of entries.
#[derive(Debug, Drop)]
pub enum BookEntry {
    // A transaction was begun.
    Begun(TransactionKey, Caller),
    // It was ended, and this reply is kept for good.
    Kept(TransactionKey, Caller, Reply),
    // It was ended with no reply, and may be begun again.
    GivenUp(TransactionKey, Caller),
}
