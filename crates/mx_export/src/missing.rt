// The events that are cited and are not there.
ghost use Rattle.std.specs.Prelude.{◌≡◌, ◌^◌, ◌<◌, ◌==◌, ◌&&◌, ◌||◌, if◌then◌else◌, suc, ℕ, List, IfOk, OnOk, bytes_eq, filter, length, not};
ghost use Rattle.std.specs.BTreeSet.{contains};
ghost use Rattle.std.specs.Cmp.Lexicographic.{slice_cmp};
ghost use Rattle.std.specs.List.{list_any};
ghost use Rattle.std.specs.Ordering.{nat_cmp};
ghost use Rattle.mx_redact.specs.Redaction.{is_among};
ghost use Rattle.mx_export.specs.Collecting.{AreCitedPlaces, IsIndexed, event_at};
ghost use Rattle.mx_export.specs.RoomEvents.{cited_ids, has_id, is_missing, lacks_one};

use crate::collecting::Collected;
use crate::exported_events::ExportedEvent;
use mx_ident::EventId;
use std::alloc::{AllocError, Global};
use std::collections::BTreeSet;

/// What the events of a room cite and that is not there.
#[derive(Debug, Drop)]
pub struct Missing {
    /// The ids, each once.
    pub ids: BTreeSet<EventId>,
    /// How many events cite one of them.
    pub citing: usize,
}

// What these events cite and that is not among them, by the places of what each cites and that is there.
pub(crate) fn missing_events(
    alloc: Global,
    collected: &Collected,
    cited: &[Vec<usize>],
) -> Result<Missing, AllocError>
    requires indexed { IsIndexed collected.now }
    requires len { length cited.now ≡ length collected.now.events.items }
    requires cited { AreCitedPlaces collected.now cited.now }
    ensures ids { IfOk result (λ missing. (id : List ℕ)
        → contains (slice_cmp nat_cmp) missing.ids id ≡ is_missing collected.now.events.items id) }
    ensures citing { IfOk result (λ missing. missing.citing
        ≡ length (filter (lacks_one collected.now.events.items) collected.now.events.items)) }
{
    let mut ids = BTreeSet::new(alloc);
    let mut citing: usize = 0;
    for place in 0..collected.events.len() {
        let lacks = add_cited(&mut ids, collected, cited, place)?;
        citing = one_more_if(citing, lacks);
    }
    Ok(Missing { ids, citing })
}

// A count, with one more where that is counted.
fn one_more_if(count: usize, counts: bool) -> usize
    requires { count < 2 ^ 63 }
    ensures { result ≡ (if counts then suc count else count) }
{
    if counts { count + 1 } else { count }
}

fn either(first: bool, second: bool) -> bool
    ensures { result ≡ (first || second) }
{
    first || second
}

// Adds what the event at a place cites and that is not there, and tells whether it cites any such. No id is looked up
// where each that it cites has a place.
fn add_cited(
    ids: &mut BTreeSet<EventId>,
    collected: &Collected,
    cited: &[Vec<usize>],
    place: usize,
) -> Result<bool, AllocError>
    requires indexed { IsIndexed collected.now }
    requires len { length cited.now ≡ length collected.now.events.items }
    requires cited { AreCitedPlaces collected.now cited.now }
    requires below { place < length collected.now.events.items }
    ensures lacks { IfOk result (λ lacks. lacks
        ≡ lacks_one collected.now.events.items (event_at collected.now.events.items place)) }
    ensures ids { OnOk result ((id : List ℕ) → contains (slice_cmp nat_cmp) ids.new id
        ≡ (contains (slice_cmp nat_cmp) ids.old id
        || (is_among (cited_ids (event_at collected.now.events.items place)) id
        && not (has_id collected.now.events.items id)))) }
{
    let event = &collected.events[place];
    if has_as_many(event, &cited[place]) {
        return Ok(false);
    }
    let prev = add_missing(ids, collected, event.prev_events())?;
    let auth = add_missing(ids, collected, event.auth_events())?;
    let lacks = either(prev, auth);
    Ok(lacks)
}

// Whether these places are as many as the ids that an event cites.
fn has_as_many(event: &ExportedEvent, places: &[usize]) -> bool
    ensures { result ≡ (length places.now == length (cited_ids event.now)) }
{
    places.len() == count_of_cited(event)
}

// How many ids an event cites.
fn count_of_cited(event: &ExportedEvent) -> usize
    ensures { result ≡ length (cited_ids event.now) }
{
    event.prev_events().len() + event.auth_events().len()
}

// Adds those of these ids that are not there, and tells whether there are any.
fn add_missing(
    ids: &mut BTreeSet<EventId>,
    collected: &Collected,
    cited: &[EventId],
) -> Result<bool, AllocError>
    requires { IsIndexed collected.now }
    ensures lacks { IfOk result (λ lacks. lacks ≡ list_any (λ id. not (has_id collected.now.events.items id)) cited.now) }
    ensures ids { OnOk result ((id : List ℕ) → contains (slice_cmp nat_cmp) ids.new id
        ≡ (contains (slice_cmp nat_cmp) ids.old id
        || (is_among cited.now id && not (has_id collected.now.events.items id)))) }
{
    let mut lacks = false;
    for id in cited {
        let one = add_if_missing(ids, collected, id)?;
        lacks = either(lacks, one);
    }
    Ok(lacks)
}

// Adds an id that is not there, and tells whether it is so.
fn add_if_missing(
    ids: &mut BTreeSet<EventId>,
    collected: &Collected,
    id: &EventId,
) -> Result<bool, AllocError>
    requires { IsIndexed collected.now }
    ensures lacks { IfOk result (λ lacks. lacks ≡ not (has_id collected.now.events.items id.now)) }
    ensures ids { OnOk result ((other : List ℕ) → contains (slice_cmp nat_cmp) ids.new other
        ≡ (contains (slice_cmp nat_cmp) ids.old other
        || (bytes_eq other id.now && not (has_id collected.now.events.items other)))) }
{
    if collected.places.contains_key(id) {
        return Ok(false);
    }
    let copy = id.clone()?;
    ids.insert(copy)?;
    Ok(true)
}
