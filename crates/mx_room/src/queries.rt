// Queries and what they give.
ghost use Rattle.std.specs.Prelude.{◌≡◌, option_copied};
ghost use Rattle.mx_room.specs.Queries.{room_named};

pub(crate) mod answering;
pub(crate) mod event_orders;
pub(crate) mod history_queries;
pub(crate) mod history_walks;
pub(crate) mod join_queries;
pub(crate) mod join_templates;
pub(crate) mod marked_events;
pub(crate) mod plain_history;
pub(crate) mod served_events;
pub(crate) mod state_queries;

use crate::event_lists::{EventIdList, EventList, VersionList};
use crate::queries::join_templates::JoinTemplate;
use mx_auth::{RoomVersion, Rule};
use mx_ident::{EventId, RoomId, UserId};
use mx_pdu::Pdu;

/// A query of another server.
///
/// `Event`: an event by its id alone, whatever room holds it. `State`: the state of a room before an event, and its auth
/// chain. `StateIds`: the same, by ids. `EventAuth`: the auth chain of an event. `Backfill`: the events with these ids
/// and their ancestors, at most `limit` of them, and never more than 100. `Missing`: the ancestors of the latest events
/// that are neither among the earliest events nor their ancestors, each at least `min_depth` deep, at most `limit` of
/// them, and never more than 20. `MakeJoin`: what a join of the user is to be made of; `versions` are the versions of
/// rooms that the server knows, each of them any text.
///
/// Source: the Matrix specification, Server-Server API, "Retrieving events", "Backfilling and retrieving missing events"
/// and "Joining Rooms".
#[derive(Debug, Drop)]
pub enum Query {
    Event(EventId),
    State {
        room: RoomId,
        event: EventId,
    },
    StateIds {
        room: RoomId,
        event: EventId,
    },
    EventAuth {
        room: RoomId,
        event: EventId,
    },
    Backfill {
        room: RoomId,
        from: EventIdList,
        limit: u64,
    },
    Missing {
        room: RoomId,
        earliest: EventIdList,
        latest: EventIdList,
        limit: u64,
        min_depth: u64,
    },
    MakeJoin {
        room: RoomId,
        user: UserId,
        versions: VersionList,
    },
}

impl Query {
    /// The room that it names; none for an event by its id alone.
    pub fn room(&self) -> Option<&RoomId>
        ensures { option_copied result ≡ room_named self.now }
    {
        match self {
            Query::Event(_) => None,
            Query::State { room, .. } => Some(room),
            Query::StateIds { room, .. } => Some(room),
            Query::EventAuth { room, .. } => Some(room),
            Query::Backfill { room, .. } => Some(room),
            Query::Missing { room, .. } => Some(room),
            Query::MakeJoin { room, .. } => Some(room),
        }
    }
}

/// What a query gives.
///
/// `Event`: the event, as it is shown. `State`: the events of a state in the order of their keys, and their auth chain in
/// the order of its ids, each as it is served. `StateIds`: the ids of these. `EventAuth`: the auth chain of an event, in
/// the order of its ids, each as it is served. `Events`: events as they are shown; for `Backfill` the deepest first, for
/// `Missing` the deepest last, and of one depth in the order of their ids. `Template`: the version of the room,
/// and what the join is to be made of.
#[derive(Debug, Drop)]
pub enum QueryReply {
    Event(Pdu),
    State {
        state: EventList,
        auth_chain: EventList,
    },
    StateIds {
        state: EventIdList,
        auth_chain: EventIdList,
    },
    EventAuth(EventList),
    Events(EventList),
    Template(RoomVersion, JoinTemplate),
}

/// Why a query gives nothing, in the order in which it is asked.
///
/// `AccessList`: the room's access control list denies the server. `NotInRoom`: no user of the server is joined in the
/// room. `NotFound`: the event is not held, or was rejected, or is not shown; for `Backfill`, none of the events is held.
/// A query for an event by its id alone is refused by `NotFound` alone.
///
/// `MakeJoin` is refused by `AccessList`, and by the last three alone. `OtherServer`: the user is of another server than
/// the one that asks. `WrongVersion`: the server does not know the version of the room, which is this one. `Rule`:
/// the line of the authorization rules that does not allow the join in the room's current state.
#[derive(Clone, Copy, Debug, PartialEq, Eq)]
pub enum Denied {
    AccessList,
    NotInRoom,
    NotFound,
    OtherServer,
    WrongVersion(RoomVersion),
    Rule(Rule),
}
