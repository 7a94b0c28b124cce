// The keys at which states differ, and states without some keys.
ghost use Rattle.std.specs.Prelude.{◌≡◌, ◌||◌, IfOk, OnOk, T, is_some};
ghost use Rattle.std.specs.FinMap.Entries.{is_sorted};
ghost use Rattle.mx_pdu.specs.StateKeys.{Key};
ghost use Rattle.mx_graph.specs.StateMap.{entry as entry_at, key_cmp};
ghost use Rattle.mx_states.specs.Numbered.{without};
ghost use Rattle.mx_states.specs.Entries.{has_missed};

use crate::map_entries::has_entry;
use crate::state_maps::StateMap;
use std::alloc::{AllocError, Global};

/// Puts an event at each key at which two states differ. At an error some of them were put.
pub(crate) fn put_differing(
    found: &mut StateMap,
    state: &StateMap,
    other: &StateMap,
) -> Result<(), AllocError>
    ensures sorted { OnOk result (T (is_sorted key_cmp state.now) × T (is_sorted key_cmp other.now)) }
    ensures found { OnOk result ((key : Key) → is_some (entry_at found.new key)
        ≡ ((is_some (entry_at found.old key) || has_missed other.now state.now key)
        || has_missed state.now other.now key)) }
{
    put_missed(found, state, other)?;
    put_missed(found, other, state)
}

// Puts the entries of a state that another one doesn't have. At an error some of them were put.
fn put_missed(found: &mut StateMap, state: &StateMap, other: &StateMap) -> Result<(), AllocError>
    ensures sorted { OnOk result (T (is_sorted key_cmp state.now)) }
    ensures found { OnOk result ((key : Key) → is_some (entry_at found.new key)
        ≡ (is_some (entry_at found.old key) || has_missed other.now state.now key)) }
{
    for entry in state.entries() {
        if !has_entry(other, entry) {
            found.insert(entry.kind(), entry.state_key(), entry.event())?;
        }
    }
    Ok(())
}

/// A state without the keys of another.
pub(crate) fn without_keys(
    alloc: Global,
    taken: &StateMap,
    state: &StateMap,
) -> Result<StateMap, AllocError>
    ensures { IfOk result (λ rest. rest ≡ without taken.now state.now) }
{
    let mut rest = StateMap::new(alloc);
    for entry in state.entries() {
        if taken.get(entry.kind(), entry.state_key()).is_none() {
            rest.insert(entry.kind(), entry.state_key(), entry.event())?;
        }
    }
    Ok(rest)
}
