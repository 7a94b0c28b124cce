// What stops the events of a transaction.
use mx_keeper::CallError;

/// The place in a transaction's list of the event that could not be offered, and why.
#[derive(Clone, Copy, Drop)]
pub struct Fault {
    pub place: usize,
    pub error: CallError,
}
