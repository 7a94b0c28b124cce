// Rooms, counted.
use mx_ident::RoomId;
use mx_metrics::ShardCounts;
use mx_room::Room;
use std::alloc::{AllocError, Global};

// How many rooms are counted at a time.
const ROOMS_AT_A_TIME: usize = 1_000;
// From how many events on a room is nearly full.
const NEARLY_FULL: usize = 45_000;

/// The counts of a shard with some of its rooms, those of these that are nearly full, and the place of the next room, if some
/// are left.
#[derive(Drop)]
pub struct RoomSurvey {
    pub counts: ShardCounts,
    pub nearly_full: Vec<RoomId>,
    pub next: Option<usize>,
}

/// Counts the rooms from a place on, up to 1,000, to what was counted before. A room of 45,000 events or more is nearly full.
/// `AllocError` where no memory is left.
pub fn survey(
    alloc: Global,
    rooms: &[Room],
    from: usize,
    before: ShardCounts,
) -> Result<RoomSurvey, AllocError> {
    let mut counts = before;
    let mut nearly_full = Vec::new(alloc);
    let mut place = from;
    let end = from.saturating_add(ROOMS_AT_A_TIME).min(rooms.len());
    while place < end {
        let room = &rooms[place];
        let events = room.len();
        let extremities = room.timeline().extremities().len();
        counts = counts.with_room(events as u64, extremities as u64);
        if events >= NEARLY_FULL {
            nearly_full.push(room.id().clone()?)?;
        }
        place += 1;
    }
    Ok(RoomSurvey {
        counts,
        nearly_full,
        next: if end < rooms.len() { Some(end) } else { None },
    })
}
