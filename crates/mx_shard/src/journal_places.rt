// Where the entries of a journal stand.
use mx_keeper::Caller;

/// Where an entry of the journal stands: the number of its room, the number of the event there, and the number of the
/// caller that offered it.
#[derive(Clone, Copy, Debug)]
pub(crate) struct JournalPlace {
    pub room: usize,
    pub row: usize,
    pub caller: Caller,
}
