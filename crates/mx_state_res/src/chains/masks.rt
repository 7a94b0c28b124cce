// Masks: which of some states reach an event.
ghost use Rattle.std.specs.Prelude.{◌≡◌, ◌==◌, ◌<◌, ◌&&◌, ◌||◌, ◌↔◌, ℕ, IfOk, IsTrue, length, not, true, vec_len};
ghost use Rattle.std.specs.List.{list_all, list_any};
ghost use Rattle.mx_state_res.specs.Masks.{has};

use std::alloc::{AllocError, Global};

/// The mask of all states.
pub(crate) fn every(alloc: Global, states: usize) -> Result<Vec<bool>, AllocError>
    ensures wide { IfOk result (λ mask. vec_len mask ≡ states) }
    ensures each { IfOk result (λ mask. (i : ℕ) → i < states → has mask.items i ≡ true) }
{
    vec![in alloc; true; states]
}

/// The mask of one state.
pub(crate) fn only(alloc: Global, states: usize, state: usize) -> Result<Vec<bool>, AllocError>
    requires { state < states }
    ensures wide { IfOk result (λ mask. vec_len mask ≡ states) }
    ensures each { IfOk result (λ mask. (i : ℕ) → has mask.items i ≡ (state == i)) }
{
    let mut mask = vec![in alloc; false; states]?;
    mask[state] = true;
    Ok(mask)
}

/// One state more.
pub(crate) fn add_state(mask: &mut Vec<bool>, state: usize)
    requires { state < vec_len mask.old }
    ensures wide { vec_len mask.new ≡ vec_len mask.old }
    ensures each { (i : ℕ) → has mask.new.items i ≡ (has mask.old.items i || (state == i)) }
{
    mask[state] = true;
}

/// The states of another mask too.
pub(crate) fn add_states(mask: &mut Vec<bool>, other: &[bool])
    requires { length other.now ≡ vec_len mask.old }
    ensures wide { vec_len mask.new ≡ vec_len mask.old }
    ensures each { (i : ℕ) → has mask.new.items i ≡ (has other.now i || has mask.old.items i) }
{
    for (i, is_there) in other.iter().enumerate() {
        if *is_there {
            mask[i] = true;
        }
    }
}

/// Whether a mask has all states of another.
pub(crate) fn covers(mask: &[bool], other: &[bool]) -> bool
    requires { length other.now ≡ length mask.now }
    ensures { IsTrue result ↔ ((i : ℕ) → has other.now i ≡ true → has mask.now i ≡ true) }
{
    for (i, is_there) in other.iter().enumerate() {
        if *is_there && !mask[i] {
            return false;
        }
    }
    true
}

/// Whether a mask has every state.
pub(crate) fn is_full(mask: &[bool]) -> bool
    ensures { result ≡ list_all (λ b. b) mask.now }
{
    mask.iter().all(|is_there| *is_there)
}

/// Whether a mask has a state and lacks one.
pub(crate) fn differs(mask: &[bool]) -> bool
    ensures { result ≡ (list_any (λ b. b) mask.now && not (list_all (λ b. b) mask.now)) }
{
    has_some(mask) && !is_full(mask)
}

fn has_some(mask: &[bool]) -> bool
    ensures { result ≡ list_any (λ b. b) mask.now }
{
    mask.iter().any(|is_there| *is_there)
}
