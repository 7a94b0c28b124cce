// Rows of the first layout of a shard's file.
ghost use Rattle.std.specs.Prelude.{◌≡◌, [], ℕ, List, IfOk, None, OnOk, Some, bytes_eq, if◌then◌else◌};
ghost use Rattle.std.specs.BTreeMap.{get};
ghost use Rattle.std.specs.Cmp.Lexicographic.{slice_cmp};
ghost use Rattle.std.specs.Option.{option_or};
ghost use Rattle.std.specs.Ordering.{nat_cmp};
ghost use Rattle.mx_keeper.specs.FirstLayout.{created_version as version_created, with_versions};

use crate::caller::Caller;
use crate::event_texts::{event_of, room_of};
use crate::faults::KeeperFault;
use crate::rows::ShardRow;
use crate::tables::cells::{caller_at, check_place, text_at};
use crate::tables::selected_rows::SelectedRow;
use mx_auth::RoomVersion;
use mx_ident::RoomId;
use mx_pdu::Pdu;
use sqlite::Row;
use std::alloc::{AllocError, Global};
use std::collections::BTreeMap;

/// A row of the first layout: an event that a room kept, and the number of the caller that brought it.
#[derive(Drop)]
pub struct FirstRow {
    pub room: RoomId,
    pub event: Pdu,
    pub caller: Caller,
}

impl SelectedRow for FirstRow {
    ghost use Rattle.mx_keeper.specs.FirstLayout.{first_columns, first_select_text, first_shown};
    ghost use Rattle.mx_keeper.specs.Placed.{first_placed};
    ghost use Rattle.mx_keeper.specs.Selections.{HasFirst, selects_first};

    ghost select_text = { first_select_text };

    ghost has_table = { HasFirst };

    ghost tree = { 0 };

    ghost columns = { first_columns };

    ghost shown = { first_shown };

    fn select() -> &'static str {
        "SELECT place, room, event, caller FROM kept ORDER BY place"
    }

    fn read(alloc: Global, row: &Row, place: u64) -> Result<FirstRow, KeeperFault> {
        check_place(row, place)?;
        let room_text = text_at(row, 1)?;
        let room = room_of(alloc, room_text.as_str())?;
        let event_text = text_at(row, 2)?;
        let event = event_of(alloc, event_text)?;
        let caller = caller_at(row, 3)?;
        Ok(FirstRow {
            room,
            event,
            caller,
        })
    }

    ghost selects = { selects_first };

    ghost placed = { first_placed };
}

/// The rows, each with the version of its room, which the first row of the room names as its create event.
///
/// `Table` where the first row of a room is no create event that names a version that is recognised, `Memory` where no
/// memory is left. The time is linear in the rows but for the look-ups of rooms.
pub fn versioned(alloc: Global, rows: Vec<FirstRow>) -> Result<Vec<ShardRow>, KeeperFault>
    ensures ok { IfOk result (λ all. with_versions [] rows.items ≡ Some all.items) }
    ensures table { result ≡ Err KeeperFault.Table → with_versions [] rows.items ≡ None }
    ensures no_store { ¬ (result ≡ Err KeeperFault.Store) }
{
    let mut all = Vec::new(alloc);
    let mut versions = BTreeMap::new(alloc);
    for row in rows {
        let found = version_for(&mut versions, &row)?;
        match found {
            Some(version) => all.push(ShardRow {
                room: row.room,
                version,
                event: row.event,
                caller: row.caller,
            })?,
            None => return Err(KeeperFault::Table),
        }
    }
    Ok(all)
}

// The version of the room of this row, which is noted where this is its first row.
fn version_for(
    versions: &mut BTreeMap<RoomId, Option<RoomVersion>>,
    row: &FirstRow,
) -> Result<Option<RoomVersion>, AllocError>
    ensures found { IfOk result (λ version. get (slice_cmp nat_cmp) versions.new row.now.room ≡ Some version) }
    ensures noted { OnOk result ((room : List ℕ) → get (slice_cmp nat_cmp) versions.new room
        ≡ option_or (get (slice_cmp nat_cmp) versions.old room) (if bytes_eq row.now.room room then Some (version_created row.now.event) else None)) }
{
    if let Some(version) = versions.get(&row.room) {
        return Ok(*version);
    }
    let version = created_version(&row.event);
    let room = row.room.clone()?;
    versions.insert(room, version)?;
    Ok(version)
}

// The version that a create event names, of those that are recognised. It takes no memory.
fn created_version(event: &Pdu) -> Option<RoomVersion>
    ensures { result ≡ version_created event.now }
{
    if event.kind() == "m.room.create" {
        RoomVersion::of(event)
    } else {
        None
    }
}
