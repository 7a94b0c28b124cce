// What a log makes of a room, and what it offers beside that.
use crate::auditing::offerings::{LineCounts, NotKept, Offerings};
use crate::output::Failure;
use mx_ident::{IdError, RoomId, ServerName};
use mx_keeper::{BookRow, MemoryKeeper, ShardCount, ShardRow};
use mx_log::server_after_log;
use mx_pdu::PresenceVerifier;
use mx_receipt::Timeline;
use mx_world::World;
use std::alloc::Global;
use std::io::Read;

// The name of a server whom no line of a log names.
const NO_NAME: &str = "localhost";

/// What the lines of a log make of a room: its events under their verdicts, where it is hosted, what was offered to it and
/// not kept, and what the lines were.
#[derive(Drop)]
pub(crate) struct Logged {
    pub(crate) timeline: Option<Timeline>,
    pub(crate) not_kept: Vec<NotKept>,
    pub(crate) counts: LineCounts,
}

/// The room of a new server of this name, over so many shards, that has done what the lines of a log ask for; with it what
/// the lines offered to this room.
///
/// `NameNeeded` where there is no name and a line is a request, which names the server that it is for.
pub(crate) fn logged_room<R: Read>(
    alloc: Global,
    name: Option<&ServerName>,
    shards: ShardCount,
    room: &RoomId,
    log: &mut R,
) -> Result<Logged, Failure> {
    let server = match name {
        Some(name) => name.clone()?,
        None => ServerName::parse(alloc, NO_NAME).map_err(of_id)?,
    };
    let offerings = Offerings::new(alloc, room.clone()?);
    let after = server_after_log(alloc, log, &server, shards, &PresenceVerifier, offerings)?;
    let (not_kept, counts) = after.watcher.finish()?;
    if name.is_none() && counts.requests > 0 {
        return Err(Failure::NameNeeded);
    }
    Ok(Logged {
        timeline: timeline_in(after.world, room),
        not_kept,
        counts,
    })
}

fn of_id(error: IdError) -> Failure {
    match error {
        IdError::Memory => Failure::Memory,
        IdError::NotAnId(_) => Failure::NameNeeded,
    }
}

// The events of a room of a server, under the verdicts that it gave them, where the room is hosted.
fn timeline_in(
    world: World<MemoryKeeper<ShardRow>, MemoryKeeper<BookRow>>,
    room: &RoomId,
) -> Option<Timeline> {
    let (shards, _books) = world.into_parts();
    for shard in shards {
        if let Some(hosted) = shard.into_room(room) {
            return Some(hosted.into_timeline());
        }
    }
    None
}
