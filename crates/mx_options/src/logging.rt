// What `log` is told when it starts.
use mx_ident::{RoomId, ServerName};

/// Which log is asked of an export of events.
#[derive(Debug, Drop)]
pub struct LogOptions {
    // The room, where the export has events of several.
    pub room: Option<RoomId>,
    // The server that sends the transactions, else that of the create event's sender.
    pub origin: Option<ServerName>,
    // Whether all ids are told that are cited and not there, or the first ten.
    pub shows_missing: bool,
}
