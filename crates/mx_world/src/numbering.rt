// Which shard has a room, and which book has the transactions of a server.
ghost use Rattle.std.specs.Prelude.{◌≡◌, ◌<◌, ◌≤◌};
ghost use Rattle.mx_keeper.specs.Places.{place_number};

use mx_keeper::Place;

/// The number of the place of what has this name, among so many.
pub(crate) fn number_for(name: &str, count: usize) -> usize
    requires some { 0 < count }
    requires few { count ≤ 64 }
    ensures number { result ≡ place_number count name.now }
    ensures within { result < count }
{
    Place::of(name, count).number()
}
