// Rows that are added to a keeper.
ghost use Rattle.std.specs.Prelude.{◌≡◌, ◌<◌, ◌≤◌, ◌↔◌, ◌⊎◌, IfOk, Option, List, true, false, OnOk, OnErr, IsErrOf, IsTrue, vec_len, vec_capacity};
ghost use Rattle.mx_keeper.specs.Keeping.{with_row, Rose};
ghost use Rattle.mx_keeper.specs.declared.rows.ShardRow.{ShardRow};
ghost use Rattle.mx_pdu.specs.Event.{room_of};
ghost use Rattle.mx_shard.specs.Holders.{IsHolderKept, holder_of, may_hold};

use crate::holders::{Holder, add_holder, remove_holder};
use crate::journal_places::JournalPlace;
use crate::offering::NewRow;
use mx_auth::RoomVersion;
use mx_ident::EventId;
use mx_keeper::{CallError, Caller, Keeper, KeeperFault, ShardRow};
use mx_pdu::{Offered, Pdu};
use std::alloc::AllocError;
use std::collections::BTreeMap;

/// The row that is stored of an offered event in the form in which it is kept, in a room of this version.
pub(crate) fn row_for(
    offered: &Offered,
    version: RoomVersion,
    event: Pdu,
    caller: Caller,
) -> Result<ShardRow, AllocError>
    ensures { IfOk result (λ row. row ≡ record { room = room_of offered.now.pdu; version = version; event = event; caller = caller }) }
{
    let room = offered.pdu.room_id().clone()?;
    Ok(ShardRow {
        room,
        version,
        event,
        caller,
    })
}

/// Adds a row to the keeper. Where the keeper fails, all later calls are to be refused.
///
/// `Memory` where no memory is left. `Storage` where the keeper's count of failures rose.
pub(crate) fn store<K: Keeper<Row = ShardRow>>(
    keeper: &mut K,
    is_refused: &mut bool,
    row: &ShardRow,
) -> Result<(), CallError>
    requires { is_refused.old ≡ false }
    ensures refused { IsErrOf result CallError.Storage ↔ (is_refused.new ≡ true) }
    ensures storage { result ≡ Err CallError.Storage → Rose (K.failed keeper.old) (K.failed keeper.new) }
    ensures counted { K.failed keeper.old ≤ K.failed keeper.new }
    ensures honest { K.is_honest keeper.new → K.is_honest keeper.old }
    ensures ok { K.is_honest keeper.new → OnOk result (K.is_open keeper.new × (K.rows keeper.new ≡ with_row (K.rows keeper.old) row.now)) }
    ensures err { K.is_honest keeper.new → K.is_open keeper.old → OnErr result (is_refused.new ≡ false → K.is_open keeper.new × (K.rows keeper.new ≡ K.rows keeper.old)) }

    // What a crash leaves.
    ensures durable { K.is_honest keeper.new → OnOk result ((left : Option (List ShardRow)) → K.may_leave keeper.new left → left ≡ with_row (K.rows keeper.old) row.now) }
    ensures crash { K.is_honest keeper.new → (left : Option (List ShardRow)) → K.may_leave keeper.new left
        → K.may_leave keeper.old left ⊎ (left ≡ with_row (K.rows keeper.old) row.now) }
{
    match keeper.append(row) {
        Ok(()) => Ok(()),
        Err(KeeperFault::Memory) => Err(CallError::Memory),
        Err(KeeperFault::Store) => {
            *is_refused = true;
            Err(CallError::Storage)
        }
        Err(KeeperFault::Table) => unreachable!(),
    }
}

/// Makes space for one place more and for the id of the event, and then adds the row to the keeper, as [`store`] does.
pub(crate) fn store_with_place<K: Keeper<Row = ShardRow>>(
    keeper: &mut K,
    is_refused: &mut bool,
    journal: &mut Vec<JournalPlace>,
    holders: &mut BTreeMap<EventId, Holder>,
    id: &EventId,
    new: &NewRow,
) -> Result<(), CallError>
    requires { is_refused.old ≡ false }
    ensures journal { journal.new.items ≡ journal.old.items }
    ensures kept { IsHolderKept holders.old holders.new }
    ensures held { OnOk result (IsTrue (may_hold (holder_of holders.new id.now) new.now.number)) }
    ensures spare { OnOk result (vec_len journal.new < vec_capacity journal.new) }
    ensures refused { IsErrOf result CallError.Storage ↔ (is_refused.new ≡ true) }
    ensures storage { result ≡ Err CallError.Storage → Rose (K.failed keeper.old) (K.failed keeper.new) }
    ensures counted { K.failed keeper.old ≤ K.failed keeper.new }
    ensures honest { K.is_honest keeper.new → K.is_honest keeper.old }
    ensures ok { K.is_honest keeper.new → OnOk result (K.is_open keeper.new × (K.rows keeper.new ≡ with_row (K.rows keeper.old) new.now.row)) }
    ensures err { K.is_honest keeper.new → K.is_open keeper.old → OnErr result (is_refused.new ≡ false → K.is_open keeper.new × (K.rows keeper.new ≡ K.rows keeper.old)) }
    ensures durable { K.is_honest keeper.new → OnOk result ((left : Option (List ShardRow)) → K.may_leave keeper.new left → left ≡ with_row (K.rows keeper.old) new.now.row) }
    ensures crash { K.is_honest keeper.new → (left : Option (List ShardRow)) → K.may_leave keeper.new left
        → K.may_leave keeper.old left ⊎ (left ≡ with_row (K.rows keeper.old) new.now.row) }
{
    journal.reserve(1)?;
    add_holder(holders, id, new.number)?;
    match store(keeper, is_refused, &new.row) {
        Ok(()) => Ok(()),
        Err(error) => {
            remove_holder(holders, id);
            Err(error)
        }
    }
}
