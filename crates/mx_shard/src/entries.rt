// The entries of a shard's journal.
use mx_ident::{EventId, RoomId};
use mx_keeper::Caller;
use mx_pdu::Pdu;

/// An entry of a shard's journal: an event as its room kept it, with its id, and the number of the caller that offered
/// it.
///
/// A shard keeps where each entry stands among its rooms, and no copy of an event, so that no value of this type is made:
/// clauses alone speak of entries.
#[derive(Debug, Drop)]
pub struct ShardEntry {
    pub room: RoomId,
    pub id: EventId,
    pub event: Pdu,
    pub caller: Caller,
}
