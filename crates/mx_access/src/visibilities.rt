// Room history visibility. Nothing here takes memory.
ghost use Rattle.std.specs.Prelude.{◌≡◌};
ghost use Rattle.mx_orders.specs.StateMap.{view};
ghost use Rattle.mx_receipt.specs.Receipt.{rows_of};
ghost use Rattle.mx_access.specs.Access as definition;

use crate::states::StateInRoom;
use mx_redact::text_field;

/// Who sees an event by a state: `WorldReadable` everybody; `Shared` whoever is joined now or in that state; `Invited`
/// whoever is joined or invited in that state; `Joined` whoever is joined in that state.
///
/// Source: the Matrix specification, Client-Server API, "Room History Visibility".
#[derive(Clone, Copy, Debug, PartialEq, Eq)]
pub(crate) enum Visibility {
    WorldReadable,
    Shared,
    Invited,
    Joined,
}

/// The history visibility in a state: `Shared` where none is there that has a name.
pub(crate) fn visibility_in(state: &StateInRoom<'_>) -> Visibility
    ensures { result ≡ definition.visibility_in (view (rows_of state.now.0) state.now.1) }
{
    match state.event("m.room.history_visibility", "") {
        Some(event) => {
            visibility_named(text_field(event.content(), "history_visibility").unwrap_or(""))
        }
        None => Visibility::Shared,
    }
}

fn visibility_named(name: &str) -> Visibility
    ensures { result ≡ definition.visibility_named name.now }
{
    match name {
        "world_readable" => Visibility::WorldReadable,
        "invited" => Visibility::Invited,
        "joined" => Visibility::Joined,
        _ => Visibility::Shared,
    }
}
