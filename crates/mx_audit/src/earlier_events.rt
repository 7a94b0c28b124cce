// The events of a room that came before one of them.
ghost use Rattle.std.specs.Prelude.{◌≡◌, ◌<◌, IfSome, length};
ghost use Rattle.mx_graph.specs.Record.{place_of, row as row_at};
ghost use Rattle.mx_receipt.specs.Receipt.{rows_of, version_in};

use mx_auth::RoomVersion;
use mx_graph::{EventNo, GraphRow};
use mx_ident::EventId;
use mx_receipt::Timeline;
use std::marker::Model;

/// The events of a timeline that came before one that is not the first.
#[derive(Debug, Drop)]
pub(crate) struct EarlierEvents<'t> {
    timeline: &'t Timeline,
    next: EventNo,
}

impl<'t> Model for EarlierEvents<'t> {
    ghost use Rattle.std.specs.Prelude.{◌<◌, List, length, take};
    ghost use Rattle.mx_receipt.specs.KeptCode.{record_code};
    ghost use Rattle.mx_receipt.specs.Receipt.{Kept};

    ghost Value = { List Kept };

    ghost coded = { record_code };

    ghost view = { λ e. take e.next e.timeline.now.kept };

    ghost invariant = { λ e. (0 < e.next) × (e.next < length e.timeline.now.kept) };
}

impl<'t> EarlierEvents<'t> {
    ghost use Rattle.std.specs.Prelude.{take};

    /// Those that came before the event with this number.
    pub(crate) fn before(timeline: &'t Timeline, number: EventNo) -> EarlierEvents<'t>
        requires later { 0 < number }
        requires below { number < length timeline.now.kept }
        ensures { result ≡ take number timeline.now.kept }
    {
        EarlierEvents {
            timeline,
            next: number,
        }
    }

    /// The version of the room.
    pub(crate) fn version(&self) -> RoomVersion
        ensures { result ≡ version_in (rows_of self.now) }
    {
        self.timeline.version()
    }

    // How many they are.
    fn len(&self) -> usize
        ensures { result ≡ length self.now }
    {
        self.next.index()
    }

    /// The number of the event with this id.
    pub(crate) fn find(&self, id: &EventId) -> Option<EventNo>
        ensures place { result ≡ place_of (rows_of self.now) id.now }
        ensures below { IfSome result (λ number. number < length self.now) }
    {
        match self.timeline.find(id) {
            Some(number) => {
                if number.index() < self.len() {
                    Some(number)
                } else {
                    None
                }
            }
            None => None,
        }
    }

    /// The event with this number, with its id, and whether it was rejected.
    pub(crate) fn row(&self, number: EventNo) -> &'t GraphRow
        requires { number < length self.now }
        ensures { result.now ≡ row_at (rows_of self.now) number }
    {
        self.timeline.row(number)
    }
}
