// Rows of a graph.
use mx_ident::EventId;
use mx_pdu::Pdu;

/// An event as a room keeps it: its id, the event, and whether it was rejected.
///
/// Source: the Matrix specification, Server-Server API, "Rejection".
#[derive(Debug, Drop)]
pub struct GraphRow {
    pub id: EventId,
    pub event: Pdu,
    pub rejected: bool,
}
