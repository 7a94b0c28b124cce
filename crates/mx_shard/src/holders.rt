// Which rooms hold an event.
ghost use Rattle.std.specs.Prelude.{◌≡◌, IfOk, OnOk, OnErr, Some};
ghost use Rattle.mx_shard.specs.Holders.{IsHolderMoved, IsSameHolder, holder_asked, holder_of, holder_with, holder_without};

use mx_ident::EventId;
use mx_room::Query;
use std::alloc::AllocError;
use std::collections::BTreeMap;

/// Which rooms hold an event. `Room`: the room with this number, and no other. `Several`: it may be any of the rooms. An
/// event's id is the hash of an event that names its room, so that `Several` is not to be met.
#[derive(Clone, Copy, Debug)]
pub(crate) enum Holder {
    Room(usize),
    Several,
}

/// Adds a room that is to hold the event with this id.
pub(crate) fn add_holder(
    holders: &mut BTreeMap<EventId, Holder>,
    id: &EventId,
    number: usize,
) -> Result<(), AllocError>
    ensures moved { OnOk result (IsHolderMoved holders.old holders.new id.now (Some (holder_with (holder_of holders.old id.now) number))) }
    ensures err { OnErr result (IsSameHolder holders.old holders.new) }
{
    let key = id.clone()?;
    let holder = match holders.get(id) {
        Some(_) => Holder::Several,
        None => Holder::Room(number),
    };
    holders.insert(key, holder)?;
    Ok(())
}

/// Takes the room away that was added last for this id. It takes no memory.
pub(crate) fn remove_holder(holders: &mut BTreeMap<EventId, Holder>, id: &EventId)
    ensures { IsHolderMoved holders.old holders.new id.now (holder_without (holder_of holders.old id.now)) }
{
    match holders.get(id) {
        Some(Holder::Room(_)) => {
            holders.remove(id);
        }
        Some(Holder::Several) => {}
        None => {}
    }
}

/// Which rooms hold the event that a query asks for by its id alone.
pub(crate) fn holder_for(holders: &BTreeMap<EventId, Holder>, query: &Query) -> Option<Holder>
    ensures { result ≡ holder_asked holders.now query.now }
{
    match query {
        Query::Event(id) => holders.get(id).copied(),
        _ => None,
    }
}
