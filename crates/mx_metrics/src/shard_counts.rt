// What the shards of a server have.
ghost use Rattle.std.specs.Prelude.{◌≡◌};
ghost use Rattle.mx_metrics.specs.ShardCounts as definition;

use crate::samples::{Family, FamilyKind, Label, Labels, write_family, write_sample};
use std::alloc::{AllocError, Global};

const ROOMS: Family<'static> = Family {
    name: "mx_federd_rooms",
    help: "Rooms that are hosted, by shard.",
    kind: FamilyKind::Gauge,
};

const ROOM_EVENTS: Family<'static> = Family {
    name: "mx_federd_room_events",
    help: "Events that the rooms have kept, by shard.",
    kind: FamilyKind::Gauge,
};

const MOST_EXTREMITIES: Family<'static> = Family {
    name: "mx_federd_most_extremities",
    help: "Forward extremities of the room that has most, by shard.",
    kind: FamilyKind::Gauge,
};

/// What a shard has: so many rooms, so many events in all of them, and so many forward extremities in the room that has most.
#[derive(Clone, Copy, Debug, PartialEq, Eq)]
pub struct ShardCounts {
    pub rooms: u64,
    pub events: u64,
    pub most_extremities: u64,
}

impl ShardCounts {
    /// Of a shard without rooms.
    pub fn new() -> ShardCounts
        ensures { result ≡ definition.none }
    {
        ShardCounts {
            rooms: 0,
            events: 0,
            most_extremities: 0,
        }
    }

    /// With one more room, of so many events and forward extremities. A count that would pass 2^64 - 1 stays there.
    pub fn with_room(self, events: u64, extremities: u64) -> ShardCounts
        ensures { result ≡ definition.with_room self events extremities }
    {
        ShardCounts {
            rooms: self.rooms.saturating_add(1),
            events: self.events.saturating_add(events),
            most_extremities: self.most_extremities.max(extremities),
        }
    }
}

// One of the figures of a shard.
#[derive(Clone, Copy)]
enum ShardFigure {
    Rooms,
    Events,
    MostExtremities,
}

impl ShardFigure {
    fn family(self) -> Family<'static> {
        match self {
            ShardFigure::Rooms => ROOMS,
            ShardFigure::Events => ROOM_EVENTS,
            ShardFigure::MostExtremities => MOST_EXTREMITIES,
        }
    }

    fn of(self, counts: &ShardCounts) -> u64 {
        match self {
            ShardFigure::Rooms => counts.rooms,
            ShardFigure::Events => counts.events,
            ShardFigure::MostExtremities => counts.most_extremities,
        }
    }
}

/// Adds what each shard has, by its number from 0. `AllocError` where no memory is left.
///
/// Source: Prometheus, "Exposition formats", "Text-based format".
pub fn write_shards(
    alloc: Global,
    text: &mut String,
    shards: &[ShardCounts],
) -> Result<(), AllocError> {
    write_figures(alloc, text, shards, ShardFigure::Rooms)?;
    write_figures(alloc, text, shards, ShardFigure::Events)?;
    write_figures(alloc, text, shards, ShardFigure::MostExtremities)
}

// Adds one figure of each shard.
fn write_figures(
    alloc: Global,
    text: &mut String,
    shards: &[ShardCounts],
    figure: ShardFigure,
) -> Result<(), AllocError> {
    let family = figure.family();
    write_family(text, &family)?;
    for (number, shard) in shards.iter().enumerate() {
        let name = format!(in alloc; "{number}")?;
        let label = Label {
            name: "shard",
            value: &name,
        };
        write_sample(text, family.name, &Labels::One(label), figure.of(shard))?;
    }
    Ok(())
}
