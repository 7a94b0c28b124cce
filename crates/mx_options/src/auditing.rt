// What an audit is told when it starts.
use mx_ident::{EventId, RoomId, ServerName};
use mx_keeper::ShardCount;

/// What is asked of one event.
///
/// `Event`: its line. `StateBefore` and `StateAfter`: a line for each entry of the state before and after it. `Resolution`: how
/// the state before it was resolved.
#[derive(Clone, Copy, Debug, PartialEq, Eq)]
pub enum AskedOf {
    Event,
    StateBefore,
    StateAfter,
    Resolution,
}

/// What is asked of which event.
#[derive(Debug, Drop)]
pub struct EventQuestion {
    pub asked: AskedOf,
    pub event: EventId,
}

/// What is asked of a room.
#[derive(Debug, Drop)]
pub enum AuditQuestion {
    // A line for each event.
    Events,
    // Of one event each, in this order.
    OfEvents(Vec<EventQuestion>),
    // The room as a graph for Graphviz.
    Picture,
    // The room as a page for a browser.
    Page,
}

/// Where the events of a room are.
#[derive(Debug, Drop)]
pub enum AuditSource {
    // A log on standard input, answered by a server of this name, if one is given, over so many shards.
    Log {
        name: Option<ServerName>,
        shards: ShardCount,
    },
    // The files of a server, in this directory.
    Directory(String),
}

/// What `audit` is asked.
#[derive(Debug, Drop)]
pub struct AuditOptions {
    pub source: AuditSource,
    pub room: RoomId,
    pub question: AuditQuestion,
}
