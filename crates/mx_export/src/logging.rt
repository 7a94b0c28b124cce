// The log of a room.
ghost use Rattle.std.specs.Prelude.{◌≡◌, ◌++◌, ◌↔◌, IfOk, IsErrOf, None, Some, drop, filter, length, option_map};
ghost use Rattle.mx_export.specs.RoomEvents.{create_of, is_in_room};
ghost use Rattle.mx_export.specs.RoomLogs.{host_text, origin_of, room_log, transactions_text};
ghost use Rattle.mx_export.specs.declared.logging.LogError.TheVariants.{NoCreateEvent};

use crate::collecting::{cited_places, collect, create_event};
use crate::exported_events::ExportedEvent;
use crate::missing::{Missing, missing_events};
use crate::ordering::in_order;
use crate::writing::text_of_log;
use mx_ident::{RoomId, ServerName};
use std::alloc::{AllocError, Global};
use thiserror::Error;

/// Why a room has no log.
#[derive(Clone, Copy, Debug, PartialEq, Eq, Drop, Error)]
pub enum LogError {
    // No memory was left.
    #[error("out of memory")]
    Memory,
    // No create event of the room, which cites no event, is there.
    #[error("no create event")]
    NoCreateEvent,
}

impl From<AllocError> for LogError {
    ghost use Rattle.mx_export.specs.declared.logging.LogError.TheVariants.{Memory};

    ghost from_gives = { λ _ e. e ≡ Memory };

    fn from(_refused: AllocError) -> LogError {
        LogError::Memory
    }
}

/// The log of a room, and what its events lack.
#[derive(Debug, Drop)]
pub struct RoomLog {
    /// The lines.
    pub text: Vec<u8>,
    /// How many events stand in it, the create event among them.
    pub events: usize,
    /// How many events of the room were there again.
    pub again: usize,
    /// How many events cite one another in a circle, or cite these, and do not stand in it. Hashes allow none.
    pub circular: usize,
    /// What they cite and that is not there.
    pub missing: Missing,
}

/// The log that hosts a room and puts its events to it, in transactions of at most 50: each event once, after those that
/// it cites and that are there, else in the order in which they are given. A create event that cites events is none here.
///
/// The transactions are of `origin`, else of the server of the create event's sender, and bear the room and a number.
/// `NoCreateEvent` where the room has no create event among these. The time is that of the events' sizes, and of a look-up
/// for each event that one cites. Source: docs/LOG.md, and the Matrix specification, Server-Server API, "PDUs" and
/// "Transactions".
pub fn log_of_room(
    alloc: Global,
    room: &RoomId,
    origin: Option<&ServerName>,
    events: &[ExportedEvent],
) -> Result<RoomLog, LogError>
    ensures text { IfOk result (λ log. Some log.text.items
        ≡ room_log (option_map (λ name. name.now) origin.entry) room.now events.now) }
    ensures no_create { IsErrOf result NoCreateEvent ↔ (create_of room.now events.now ≡ None) }
{
    let Some(create) = create_event(room, events) else {
        return Err(LogError::NoCreateEvent);
    };
    let collected = collect(alloc, room, create, events)?;
    let cited = cited_places(alloc, &collected)?;
    let ordered = in_order(alloc, &collected.events, &cited)?;
    let text = text_by(alloc, room, origin, create, &ordered)?;
    let missing = missing_events(alloc, &collected, &cited)?;
    Ok(RoomLog {
        text,
        events: ordered.len(),
        again: count_of_room(room, events).saturating_sub(collected.events.len()),
        circular: collected.events.len().saturating_sub(ordered.len()),
        missing,
    })
}

// The log of a room whose events stand in this order, by the server that was named or that of the create event's sender.
fn text_by(
    alloc: Global,
    room: &RoomId,
    origin: Option<&ServerName>,
    create: &ExportedEvent,
    ordered: &[ExportedEvent],
) -> Result<Vec<u8>, AllocError>
    ensures { IfOk result (λ text. text.items ≡ host_text create.now ++ transactions_text
        (origin_of (option_map (λ name. name.now) origin.entry) create.now) room.now (drop 1 ordered.now)) }
{
    match origin {
        Some(name) => text_of_log(alloc, name, room, create, ordered),
        None => {
            let name = create.sender().server_name(alloc)?;
            text_of_log(alloc, &name, room, create, ordered)
        }
    }
}

// How many of these events are of a room.
fn count_of_room(room: &RoomId, events: &[ExportedEvent]) -> usize
    ensures { result ≡ length (filter (is_in_room room.now) events.now) }
{
    events
        .iter()
        .filter(|event| event.room_id() == room)
        .count()
}
