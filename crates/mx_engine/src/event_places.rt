// Which docks the events of a transaction go to.
ghost use Rattle.std.specs.Prelude.{◌≡◌, ◌<◌, ◌≤◌, [], ℕ, All, get_or, true, false};
ghost use Rattle.mx_keeper.specs.Places.{place_number};
ghost use Rattle.mx_pdu.specs.Event.{room_of};
ghost use Rattle.mx_engine.specs.Transactions.{events_at};
ghost use Rattle.mx_engine.specs.Offering.{AreOfOne};

use mx_keeper::Place;
use mx_pdu::Offered;

/// Which docks have an event of a room of their shard, of so many docks.
pub(crate) fn busy_docks(events: &[Offered], count: usize) -> [bool; 64]
    requires some { 0 < count }
    requires few { count ≤ 64 }
    ensures { (n : ℕ) → n < count → get_or result n true ≡ false
        → events_at (record { number = n; count = count }) events.now ≡ [] }
{
    let mut busy = [false; 64];
    for offered in events {
        let place = Place::of(offered.pdu.room_id().as_str(), count);
        busy[place.number()] = true;
    }
    busy
}

// Whether all events are of rooms of the shard at this place.
fn are_all_at(place: Place, events: &[Offered]) -> bool
    ensures { result ≡ true → All (λ o. place_number place.count (room_of o.pdu) ≡ place.number) events.now }
{
    for offered in events {
        if !place.has(offered.pdu.room_id().as_str()) {
            return false;
        }
    }
    true
}

/// Whether events are of rooms of several shards, of so many.
pub(crate) fn are_several(events: &[Offered], count: usize) -> bool
    requires some { 0 < count }
    requires few { count ≤ 64 }
    ensures { result ≡ false → AreOfOne count events.now }
{
    match events.first() {
        Some(first) => {
            let place = Place::of(first.pdu.room_id().as_str(), count);
            !are_all_at(place, events)
        }
        None => false,
    }
}
