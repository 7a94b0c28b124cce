// Reads and edits of one map: a `Vec` of entries whose keys rise.
ghost use Rattle.std.specs.Prelude.{◌≡◌, IfErr, IfOk, OnOk, T};
ghost use Rattle.std.specs.FinMap.Entries.{find, is_sorted};
ghost use Rattle.std.specs.Ordering.{nat_cmp};
ghost use Rattle.mx_states.specs.SnapshotEntries.{change, IsAt, IsGapFor};

use crate::states::key_numbers::KeyNo;
use mx_graph::EventNo;
use std::alloc::AllocError;

// The place of the entry at a key, or the one where it would stand.
fn place_of(entries: &[(KeyNo, EventNo)], key: KeyNo) -> Result<usize, usize>
    requires { T (is_sorted nat_cmp entries.now) }
    ensures found { IfOk result (IsAt key entries.now) }
    ensures absent { IfErr result (IsGapFor key entries.now) }
{
    entries.binary_search_by(|entry| entry.0.cmp(&key))
}

// The value at a key. The time is logarithmic.
pub(crate) fn value_in(entries: &[(KeyNo, EventNo)], key: KeyNo) -> Option<EventNo>
    requires { T (is_sorted nat_cmp entries.now) }
    ensures { result ≡ find nat_cmp key entries.now }
{
    match place_of(entries, key) {
        Ok(place) => Some(entries[place].1),
        Err(_) => None,
    }
}

// Puts a value at a key, or takes the key out.
pub(crate) fn change_entry(
    entries: &mut Vec<(KeyNo, EventNo)>,
    key: KeyNo,
    value: Option<EventNo>,
) -> Result<(), AllocError>
    requires { T (is_sorted nat_cmp entries.old.items) }
    ensures { OnOk result (entries.new.items ≡ change key value entries.old.items) }
{
    match place_of(entries, key) {
        Ok(place) => match value {
            Some(value) => entries[place].1 = value,
            None => {
                entries.remove(place);
            }
        },
        Err(place) => {
            if let Some(value) = value {
                entries.insert(place, (key, value))?;
            }
        }
    }
    Ok(())
}
