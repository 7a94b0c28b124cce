// What is to be changed in a state to make another.
ghost use Rattle.std.specs.Prelude.{◌≡◌, ◌<◌, ◌≤◌, ◌+◌, ◌∷◌, All, IfOk, IsTrue, [], length};
ghost use Rattle.mx_states.specs.Numbered.{change_size, edited, really_put, really_taken, restored, state_at, without};

use crate::state_maps::StateMap;
use crate::states::States;
use crate::states::change_sizes::{StateEdit, least_of};
use crate::states::state_numbers::StateNo;
use std::alloc::{AllocError, Global};

/// The state that is another one without the keys of `taken`, with the entries of `puts` put over it.
#[derive(Debug, Drop)]
pub struct StateChange {
    /// The other one.
    pub parent: StateNo,
    /// The keys that are taken from it.
    pub taken: StateMap,
    /// The entries that are put over it.
    pub puts: StateMap,
}

impl StateChange {
    // How many keys are changed.
    fn len(&self) -> usize
        ensures { result ≡ length self.now.taken + length self.now.puts }
    {
        self.taken.entries().len() + self.puts.entries().len()
    }

    /// Whether nothing is changed.
    pub fn is_empty(&self) -> bool
        ensures taken { IsTrue result → self.now.taken ≡ [] }
        ensures puts { IsTrue result → self.now.puts ≡ [] }
    {
        self.taken.entries().is_empty() && self.puts.entries().is_empty()
    }
}

/// What makes, of `base` or another state, that state without the keys of `taken` and with the entries of `puts` put over
/// it. Without those keys the others are `base` without them. It is of the state in which the fewest keys are changed.
///
/// The first and the last state are looked at first, as often one of them is what is to be made. Where a change is of no
/// key, no other one is less, and the rest is not looked at. Of changes of equally many keys, the one of the state that is
/// looked at first is taken: `base`, then the last of the others, then the rest in their order.
///
/// At most two changes are worked out whole, that of `base` and that which is taken. Of how many keys another one is
/// follows from that of `base` and from the keys at which the two states differ.
pub fn least_change(
    alloc: Global,
    states: &States,
    base: StateNo,
    others: &[StateNo],
    taken: &StateMap,
    puts: &StateMap,
) -> Result<StateChange, AllocError>
    requires base { base < length states.now }
    requires others { All (λ number. number < length states.now) others.now }
    requires alike { All (λ number. without taken.now (state_at states.now number)
        ≡ without taken.now (state_at states.now base)) others.now }
    ensures parent { IfOk result (λ change. change.parent < length states.now) }
    ensures made { IfOk result (λ change. edited change.taken (state_at states.now change.parent) change.puts
        ≡ edited taken.now (state_at states.now base) puts.now) }
    ensures least { IfOk result (λ change. All (λ number. length change.taken + length change.puts
        ≤ change_size taken.now (state_at states.now number) puts.now) (base ∷ others.now)) }
{
    let first = change_of(alloc, states, base, taken, puts)?;
    let size = first.len();
    let edit = StateEdit {
        states,
        taken,
        puts,
        base,
        size,
    };
    let least = least_of(alloc, &edit, others)?;
    if least == base {
        return Ok(first);
    }
    let change = change_of(alloc, states, least, taken, puts)?;
    Ok(change)
}

fn change_of(
    alloc: Global,
    states: &States,
    number: StateNo,
    taken: &StateMap,
    puts: &StateMap,
) -> Result<StateChange, AllocError>
    requires { number < length states.now }
    ensures parent { IfOk result (λ change. change.parent ≡ number) }
    ensures size { IfOk result (λ change. length change.taken + length change.puts
        ≡ change_size taken.now (state_at states.now number) puts.now) }
    ensures made { IfOk result (λ change. edited change.taken (state_at states.now number) change.puts
        ≡ edited taken.now (state_at states.now number) puts.now) }
{
    states.state_is_sorted(number);
    let _ = puts.entries();
    let taken = taken_from(alloc, states, number, taken, puts)?;
    let puts = put_over(alloc, states, number, puts)?;
    Ok(StateChange {
        parent: number,
        taken,
        puts,
    })
}

// The keys that a state has, and that are not put over it.
fn taken_from(
    alloc: Global,
    states: &States,
    number: StateNo,
    taken: &StateMap,
    puts: &StateMap,
) -> Result<StateMap, AllocError>
    requires { number < length states.now }
    ensures { IfOk result (λ found. found ≡ really_taken taken.now (state_at states.now number) puts.now) }
{
    let mut found = StateMap::new(alloc);
    for entry in taken.entries() {
        let (kind, state_key) = (entry.kind(), entry.state_key());
        if puts.get(kind, state_key).is_none() && states.get(number, kind, state_key).is_some() {
            found.insert(kind, state_key, entry.event())?;
        }
    }
    Ok(found)
}

// The entries that a state doesn't have.
fn put_over(
    alloc: Global,
    states: &States,
    number: StateNo,
    puts: &StateMap,
) -> Result<StateMap, AllocError>
    requires { number < length states.now }
    ensures { IfOk result (λ found. found ≡ really_put (state_at states.now number) puts.now) }
{
    let mut found = StateMap::new(alloc);
    for entry in puts.entries() {
        if states.get(number, entry.kind(), entry.state_key()) != Some(entry.event()) {
            found.insert(entry.kind(), entry.state_key(), entry.event())?;
        }
    }
    Ok(found)
}

/// These entries without those that are neither at a key of `differing` nor at one that a state lacks.
pub fn restored_puts(
    alloc: Global,
    states: &States,
    base: StateNo,
    differing: &StateMap,
    puts: &StateMap,
) -> Result<StateMap, AllocError>
    requires { base < length states.now }
    ensures { IfOk result (λ found. found ≡ restored differing.now (state_at states.now base) puts.now) }
{
    let mut found = StateMap::new(alloc);
    for entry in puts.entries() {
        let (kind, state_key) = (entry.kind(), entry.state_key());
        if differing.get(kind, state_key).is_some() || states.get(base, kind, state_key).is_none() {
            found.insert(kind, state_key, entry.event())?;
        }
    }
    Ok(found)
}
