// The reply to a transaction.
use mx_keeper::Reply;

/// The reply to a transaction.
#[derive(Debug, Drop)]
pub enum TransactionReply {
    // It was ended before, with this reply.
    Replayed(Reply),
    // It was begun before and is not ended.
    Busy,
    // Its events all went to their rooms, and this reply is kept from now on.
    Closed(Reply),
}
