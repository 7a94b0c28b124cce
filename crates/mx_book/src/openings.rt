// What opening a transaction gives.
use mx_keeper::Reply;

/// What opening a transaction gives.
#[derive(Debug, Drop)]
pub enum Opening {
    // It is begun now.
    Fresh,
    // It was ended before, with this reply.
    Kept(Reply),
    // It was begun before and is not ended.
    Busy,
}
