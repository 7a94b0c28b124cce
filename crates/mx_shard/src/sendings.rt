// How a server sends an event to its room.

/// How a server sends an event to its room: it offers the event, or it sends the join of a user of its own.
#[derive(Clone, Copy, Debug)]
pub enum Sending {
    Offer,
    Join,
}
