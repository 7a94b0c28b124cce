// Rows of rooms and of transactions.
use crate::caller::Caller;
use crate::replies::Reply;
use crate::storing::Storable;
use crate::transaction_ids::TransactionId;
use mx_auth::RoomVersion;
use mx_ident::{RoomId, ServerName};
use mx_pdu::Pdu;
use std::alloc::AllocError;

/// An event that a room kept, in the form in which it is kept, with the version of the room, as the room's create event
/// names it, and the number of the caller that brought the event.
#[derive(Debug, Drop)]
pub struct ShardRow {
    pub room: RoomId,
    pub version: RoomVersion,
    pub event: Pdu,
    pub caller: Caller,
}

impl Storable for ShardRow {
    fn copy(&self) -> Result<ShardRow, AllocError> {
        let room = self.room.clone()?;
        let event = self.event.clone()?;
        Ok(ShardRow {
            room,
            version: self.version,
            event,
            caller: self.caller,
        })
    }
}

/// The reply that was kept for a transaction: the server that sent it, the number that this server gave it, and the
/// body of the reply.
#[derive(Debug, Drop)]
pub struct BookRow {
    pub origin: ServerName,
    pub txn: TransactionId,
    pub reply: Reply,
}

impl Storable for BookRow {
    fn copy(&self) -> Result<BookRow, AllocError> {
        let origin = self.origin.clone()?;
        let txn = self.txn.clone()?;
        let reply = self.reply.clone()?;
        Ok(BookRow { origin, txn, reply })
    }
}
