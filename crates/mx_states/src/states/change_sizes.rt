// At how many keys a state is changed to make another.
ghost use Rattle.std.specs.Prelude.{◌≡◌, ◌<◌, ◌≤◌, ◌∷◌, All, Contains, IfOk, length};
ghost use Rattle.mx_states.specs.ChangedKeys.{changed_count, is_changed, size_at};
ghost use Rattle.mx_states.specs.Numbered.{state_at};

use crate::state_maps::StateMap;
use crate::states::States;
use crate::states::state_numbers::StateNo;
use std::alloc::{AllocError, Global};

// The keys that are taken from one of some states, and the entries that are put over it. Of one of these, `base`, it is
// known at how many keys it is changed by that.
#[derive(Drop)]
pub(crate) struct StateEdit<'a> {
    pub(crate) states: &'a States,
    pub(crate) taken: &'a StateMap,
    pub(crate) puts: &'a StateMap,
    pub(crate) base: StateNo,
    pub(crate) size: usize,
    ghost known: { base < length states.now },
    ghost counted: { size ≡ size_at states.now taken.now puts.now base },
}

// Of `base` and the others, the one that is changed at the fewest keys. `base` is looked at first, then the last of the
// others, then the rest in their order, and of states that are changed at equally many keys the one that is looked at first
// is taken. Past a state that is changed at no key none is looked at.
pub(crate) fn least_of(
    alloc: Global,
    edit: &StateEdit<'_>,
    others: &[StateNo],
) -> Result<StateNo, AllocError>
    requires { All (λ number. number < length edit.now.states.now) others.now }
    ensures found { IfOk result (Contains (edit.now.base ∷ others.now)) }
    ensures least { IfOk result (λ least. All
        (λ number. size_at edit.now.states.now edit.now.taken.now edit.now.puts.now least
        ≤ size_at edit.now.states.now edit.now.taken.now edit.now.puts.now number) (edit.now.base ∷ others.now)) }
{
    let Some((last, between)) = others.split_last() else {
        return Ok(edit.base);
    };
    if edit.size == 0 {
        return Ok(edit.base);
    }
    let size = size_of(alloc, edit, *last)?;
    let least = if size < edit.size {
        least_among(alloc, edit, *last, size, between)?
    } else {
        least_among(alloc, edit, edit.base, edit.size, between)?
    };
    Ok(least)
}

// The same of a state that is known to be changed at so many keys and of others, in this order.
fn least_among(
    alloc: Global,
    edit: &StateEdit<'_>,
    known: StateNo,
    known_size: usize,
    others: &[StateNo],
) -> Result<StateNo, AllocError>
    requires size { known_size ≡ size_at edit.now.states.now edit.now.taken.now edit.now.puts.now known }
    requires others { All (λ number. number < length edit.now.states.now) others.now }
    ensures found { IfOk result (Contains (known ∷ others.now)) }
    ensures least { IfOk result (λ least. All
        (λ number. size_at edit.now.states.now edit.now.taken.now edit.now.puts.now least
        ≤ size_at edit.now.states.now edit.now.taken.now edit.now.puts.now number) (known ∷ others.now)) }
{
    let mut least = known;
    let mut size = known_size;
    for number in others {
        if size == 0 {
            return Ok(least);
        }
        let other = size_of(alloc, edit, *number)?;
        if other < size {
            least = *number;
            size = other;
        }
    }
    Ok(least)
}

// At how many keys a state is changed, from what is known of `base`: where the two are alike, both are changed or neither
// is. Only the keys at which they differ are looked at.
fn size_of(alloc: Global, edit: &StateEdit<'_>, number: StateNo) -> Result<usize, AllocError>
    requires { number < length edit.now.states.now }
    ensures { IfOk result (λ size. size
        ≡ size_at edit.now.states.now edit.now.taken.now edit.now.puts.now number) }
{
    let _ = edit.taken.entries();
    let _ = edit.puts.entries();
    let apart = edit.states.differing(alloc, &[edit.base, number])?;
    let _ = apart.entries();
    let before = changed_count(edit, edit.base, &apart);
    let after = changed_count(edit, number, &apart);
    Ok(edit.size - before + after)
}

// At how many of some keys a state is changed.
fn changed_count(edit: &StateEdit<'_>, number: StateNo, keys: &StateMap) -> usize
    requires { number < length edit.now.states.now }
    ensures { result ≡ changed_count edit.now.taken.now (state_at edit.now.states.now number) edit.now.puts.now keys.now }
{
    let mut count = 0;
    for entry in keys.entries() {
        if is_changed(edit, number, entry.kind(), entry.state_key()) {
            count += 1;
        }
    }
    count
}

// Whether a state is changed at a key.
fn is_changed(edit: &StateEdit<'_>, number: StateNo, kind: &str, state_key: &str) -> bool
    requires { number < length edit.now.states.now }
    ensures { result ≡ is_changed edit.now.taken.now (state_at edit.now.states.now number) edit.now.puts.now
        (kind.now, state_key.now) }
{
    let event = edit.states.get(number, kind, state_key);
    match edit.puts.get(kind, state_key) {
        Some(put) => event != Some(put),
        None => event.is_some() && edit.taken.get(kind, state_key).is_some(),
    }
}
