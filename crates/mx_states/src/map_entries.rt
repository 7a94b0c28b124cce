// The entries of one state beside those of another.
ghost use Rattle.std.specs.Prelude.{◌≡◌, OnErr, OnOk, take, ℕ};
ghost use Rattle.mx_states.specs.Entries as definition;

use crate::entries::StateEntry;
use crate::state_maps::StateMap;
use std::alloc::AllocError;

/// Whether a state has an entry.
pub fn has_entry(state: &StateMap, entry: &StateEntry) -> bool
    ensures { result ≡ definition.has_entry entry.now state.now }
{
    match state.get(entry.kind(), entry.state_key()) {
        Some(event) => event == entry.event(),
        None => false,
    }
}

/// Puts the entries of another state over a state. At an error some of them were put.
pub fn overwrite(state: &mut StateMap, others: &StateMap) -> Result<(), AllocError>
    ensures ok { OnOk result (state.new ≡ definition.overwritten state.old others.now) }
    ensures err { OnErr result ((count : ℕ)
        × (state.new ≡ definition.overwritten state.old (take count others.now))) }
{
    for entry in others.entries() {
        state.insert(entry.kind(), entry.state_key(), entry.event())?;
    }
    Ok(())
}
