// Steps and the replies to them.
use crate::answers::Told;
use mx_book::TransactionKey;
use mx_ident::ServerName;
use mx_keeper::Reply;
use mx_pdu::Offered;
use mx_room::{Moment, Query};
use mx_shard::Answer;

/// One step of a server of rooms.
///
/// `Host`: host the room that this create event makes. `Open`: a server begins a transaction with these events. `Next`:
/// the next event of a transaction that is open goes to its room. `Close`: a transaction whose events all went to their
/// rooms gets its reply, which is kept for good. `Join`: a server sends the join of a user of its own. `Ask`: a server's
/// query, at a moment.
///
/// Source: the Matrix specification, Server-Server API, "Transactions", "Joining Rooms", "Retrieving events" and
/// "Backfilling and retrieving missing events".
#[derive(Debug, Drop)]
pub enum Step {
    Host(Offered),
    Open(TransactionKey, Vec<Offered>),
    Next(TransactionKey),
    Close(TransactionKey),
    Join {
        origin: ServerName,
        event: Offered,
    },
    Ask {
        origin: ServerName,
        now: Moment,
        query: Query,
    },
}

/// The reply to a step.
///
/// `OfRoom`: a room's answer. `Opened`: a transaction was opened with so many events. `Replayed`: it was closed before,
/// and this is its reply. `Busy`: it is open already. `NotOpen`: it is not open. `NoMore`: none of its events is left.
/// `OfEvent`: its next event, and what became of it. `MoreLeft`: so many of its events are left, so that it stays open.
/// `Closed`: it is closed from now on, and this is its reply. `Busy`, `NotOpen`, `NoMore` and `MoreLeft` change nothing.
#[derive(Debug, Drop)]
pub enum StepReply {
    OfRoom(Answer),
    Opened(usize),
    Replayed(Reply),
    Busy,
    NotOpen,
    NoMore,
    OfEvent(Told),
    MoreLeft(usize),
    Closed(Reply),
}
