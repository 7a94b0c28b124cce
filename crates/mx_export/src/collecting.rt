// The events of a room, each once.
ghost use Rattle.std.specs.Prelude.{◌≡◌, ◌<◌, ℕ, IfOk, OnOk, filter_map, length, option_map};
ghost use Rattle.std.specs.BTreeMap.{get};
ghost use Rattle.std.specs.Cmp.Lexicographic.{slice_cmp};
ghost use Rattle.std.specs.Ordering.{nat_cmp};
ghost use Rattle.mx_export.specs.Arranging.{is_in, listed};
ghost use Rattle.mx_export.specs.Collecting.{AreCitedPlaces, IsIndexed, event_at};
ghost use Rattle.mx_export.specs.RoomEvents.{cited_ids, cites, create_of, room_events, with_event};

use crate::exported_events::ExportedEvent;
use mx_ident::{EventId, RoomId};
use std::alloc::{AllocError, Global};
use std::collections::BTreeMap;

// Events, each once, with the place of each by its id.
#[derive(Debug, Drop)]
pub(crate) struct Collected {
    pub(crate) events: Vec<ExportedEvent>,
    pub(crate) places: BTreeMap<EventId, usize>,
}

// The create event of a room among these events: the first that was found.
pub(crate) fn create_event<'a>(
    room: &RoomId,
    events: &'a [ExportedEvent],
) -> Option<&'a ExportedEvent>
    ensures { option_map (λ event. event.now) result ≡ create_of room.now events.now }
{
    for event in events {
        if event.room_id() == room && event.is_create() {
            return Some(event);
        }
    }
    None
}

// The events of a room, each once, as they were found, its create event first.
pub(crate) fn collect(
    alloc: Global,
    room: &RoomId,
    create: &ExportedEvent,
    events: &[ExportedEvent],
) -> Result<Collected, AllocError>
    ensures indexed { IfOk result IsIndexed }
    ensures events { IfOk result (λ collected. collected.events.items ≡ room_events room.now create.now events.now) }
{
    let mut collected = Collected {
        events: Vec::new(alloc),
        places: BTreeMap::new(alloc),
    };
    add(&mut collected, create)?;
    for event in events {
        if event.room_id() == room {
            add(&mut collected, event)?;
        }
    }
    Ok(collected)
}

// Adds an event, unless it is there.
fn add(collected: &mut Collected, event: &ExportedEvent) -> Result<(), AllocError>
    requires { IsIndexed collected.old }
    ensures indexed { OnOk result (IsIndexed collected.new) }
    ensures events { OnOk result (collected.new.events.items ≡ with_event collected.old.events.items event.now) }
{
    let name = event.event_id();
    if collected.places.contains_key(name) {
        return Ok(());
    }
    let id = name.clone()?;
    let event = event.clone()?;
    collected.places.insert(id, collected.events.len())?;
    collected.events.push(event)?;
    Ok(())
}

// For each event the places of those that it cites and that are there.
pub(crate) fn cited_places(
    alloc: Global,
    collected: &Collected,
) -> Result<Vec<Vec<usize>>, AllocError>
    requires { IsIndexed collected.now }
    ensures len { IfOk result (λ cited. length cited.items ≡ length collected.now.events.items) }
    ensures found { IfOk result (λ cited. AreCitedPlaces collected.now cited.items) }
    ensures cited { IfOk result (λ cited. (p q : ℕ)
        → p < length collected.now.events.items → q < length collected.now.events.items
        → is_in (listed cited.items p) q
        ≡ cites (event_at collected.now.events.items p) (event_at collected.now.events.items q)) }
{
    let mut cited = Vec::with_capacity(alloc, collected.events.len())?;
    for event in &collected.events {
        let places = places_of(alloc, &collected.places, event)?;
        cited.push(places)?;
    }
    Ok(cited)
}

// The places of the events that one cites and that are there.
fn places_of(
    alloc: Global,
    places: &BTreeMap<EventId, usize>,
    event: &ExportedEvent,
) -> Result<Vec<usize>, AllocError>
    ensures { IfOk result (λ cited. cited.items ≡ filter_map (get (slice_cmp nat_cmp) places.now) (cited_ids event.now)) }
{
    event
        .prev_events()
        .iter()
        .chain(event.auth_events().iter())
        .filter_map(|id| places.get(id).copied())
        .collect(alloc)
}
