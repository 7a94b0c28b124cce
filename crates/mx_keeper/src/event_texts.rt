// Rooms and events from their texts.
ghost use Rattle.std.specs.Prelude.{◌≡◌, Err, IfOk, None, Some, string_bytes};
ghost use Rattle.mx_keeper.specs.Cells.{event_of_text, room_of_text};

use crate::faults::KeeperFault;
use mx_ident::{IdError, RoomId};
use mx_pdu::{Pdu, TextError};
use std::alloc::Global;

/// The room of this id. `Table` where the text is no room's id, `Memory` where no memory is left.
pub fn room_of(alloc: Global, text: &str) -> Result<RoomId, KeeperFault>
    ensures ok { IfOk result (λ room. room_of_text text.now ≡ Some room) }
    ensures table { result ≡ Err KeeperFault.Table → room_of_text text.now ≡ None }
    ensures no_store { ¬ (result ≡ Err KeeperFault.Store) }
{
    match RoomId::parse(alloc, text) {
        Ok(room) => Ok(room),
        Err(IdError::Memory) => Err(KeeperFault::Memory),
        Err(IdError::NotAnId(_)) => Err(KeeperFault::Table),
    }
}

/// The event that has this canonical text, which the event keeps. `Table` where there is none, `Memory` where no memory
/// is left.
pub fn event_of(alloc: Global, text: String) -> Result<Pdu, KeeperFault>
    ensures ok { IfOk result (λ event. event_of_text (string_bytes text) ≡ Some event) }
    ensures table { result ≡ Err KeeperFault.Table → event_of_text (string_bytes text) ≡ None }
    ensures no_store { ¬ (result ≡ Err KeeperFault.Store) }
{
    match Pdu::from_text(alloc, text) {
        Ok(event) => Ok(event),
        Err(TextError::Memory) => Err(KeeperFault::Memory),
        Err(TextError::NotAnEventText) => Err(KeeperFault::Table),
    }
}

/// The canonical text of an event, which reads as the event.
pub fn text_of(event: &Pdu) -> &str
    ensures { event_of_text result.now ≡ Some event.now }
{
    event.text()
}
