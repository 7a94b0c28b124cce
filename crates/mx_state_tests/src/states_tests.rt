ghost use Rattle.std.specs.Prelude.{◌<◌, IfSome, length};

use crate::rows::next;
use mx_graph::EventNo;
use mx_states::plain::PlainStates;
use mx_states::{StateMap, StateNo, States};
use std::alloc::Global;
use std::test::Fail;

// One of the first numbers.
fn number_below(count: usize, seed: u64) -> Option<StateNo>
    ensures { IfSome result (λ number. number < count) }
{
    if count == 0 {
        return None;
    }
    let place = (seed / 65_536) as usize % count;
    Some(StateNo::at(place))
}

// One of the last three numbers.
fn late_number_below(count: usize, seed: u64) -> Option<StateNo>
    ensures { IfSome result (λ number. number < count) }
{
    if count == 0 {
        return None;
    }
    let last = count - 1;
    let back = ((seed / 65_536) as usize % 3).min(last);
    Some(StateNo::at(last - back))
}

// One of five texts.
fn text(seed: u64) -> &'static str {
    match seed / 65_536 % 5 {
        0 => "",
        1 => "a",
        2 => "b",
        3 => "m.room.member",
        _ => "z",
    }
}

fn event(seed: u64) -> EventNo {
    EventNo::at((seed / 65_536 % 1_000) as u32)
}

// A state with events at so many keys, some of which may be the same.
fn random_map(alloc: Global, first: u64, count: usize) -> Result<StateMap, Fail> {
    let mut map = StateMap::new(alloc);
    let mut seed = first;
    for _ in 0..count {
        seed = next(seed);
        let kind = text(seed);
        seed = next(seed);
        map.insert(kind, text(seed), event(seed))?;
    }
    Ok(map)
}

// One state more, by one of the ways to add one, beside its plain partner. It is mostly an edit of a late one, so that
// more edits follow one another than a chain of them may have.
fn add_random(
    alloc: Global,
    states: &mut States,
    plain: &mut PlainStates,
    seed: u64,
) -> Result<(), Fail> {
    let Some(parent) = late_number_below(states.len().min(plain.len()), seed) else {
        return Ok(());
    };
    let second = next(seed);
    match second / 65_536 % 64 {
        0 => {
            let map = random_map(alloc, second, 8)?;
            states.add(&map)?;
            plain.add(&map)?;
        }
        1..=40 => {
            let taken = random_map(alloc, second, 2)?;
            let puts = random_map(alloc, next(second), 2)?;
            states.apply(parent, &taken, &puts)?;
            plain.apply(parent, &taken, &puts)?;
        }
        _ => {
            let kind = text(next(second));
            let state_key = text(second);
            states.with(parent, kind, state_key, event(second))?;
            plain.with(parent, kind, state_key, event(second))?;
        }
    }
    Ok(())
}

fn has_all(map: &StateMap, other: &StateMap) -> bool {
    other.entries().iter().all(|entry| map.get(entry.kind(), entry.state_key())
        == Some(entry.event()))
}

fn has_keys(map: &StateMap, other: &StateMap) -> bool {
    other
        .entries()
        .iter()
        .all(|entry| map.get(entry.kind(), entry.state_key()).is_some())
}

// Whether a state is the same in both, read whole and key by key.
fn is_same_at(
    alloc: Global,
    states: &States,
    plain: &PlainStates,
    number: StateNo,
) -> Result<bool, Fail>
    requires here { number < length states.now }
    requires plain { number < length plain.now }
{
    let state = states.state(number);
    let map = state.map(alloc)?;
    let plain_map = plain.map(alloc, number)?;
    let mut is_same = has_all(&map, &plain_map) && has_all(&plain_map, &map);
    for kind in ["", "a", "b", "m.room.member", "z"] {
        for state_key in ["", "a", "b", "m.room.member", "z"] {
            if state.get(kind, state_key) != plain_map.get(kind, state_key) {
                is_same = false;
            }
        }
    }
    Ok(is_same)
}

// Whether all states are the same in both.
fn are_same(alloc: Global, states: &States, plain: &PlainStates) -> Result<bool, Fail> {
    let mut are_same = states.len() == plain.len();
    for place in 0..states.len().min(plain.len()) {
        if !is_same_at(alloc, states, plain, StateNo::at(place))? {
            are_same = false;
        }
    }
    Ok(are_same)
}

// Whether both say the same of the keys at which two states differ.
fn differ_at_the_same_keys(
    alloc: Global,
    states: &States,
    plain: &PlainStates,
    seed: u64,
) -> Result<bool, Fail> {
    let count = states.len().min(plain.len());
    let (Some(first), Some(second)) = (number_below(count, seed), number_below(count, next(seed)))
    else {
        return Ok(false);
    };
    let found = states.differing(alloc, &[first, second])?;
    let plain_found = plain.differing(alloc, &[first, second])?;
    Ok(has_keys(&found, &plain_found) && has_keys(&plain_found, &found))
}

#[test]
fn random_steps_by_both_bodies(rt: HostRuntime) -> Result<(), Fail> {
    let alloc = rt.alloc();
    let mut states = States::new(alloc);
    let mut plain = PlainStates::new(alloc);
    states.add_empty()?;
    plain.add_empty()?;
    let mut seed = 11;
    for _ in 0..200 {
        seed = next(seed);
        add_random(alloc, &mut states, &mut plain, seed)?;
        assert!(rt; differ_at_the_same_keys(alloc, &states, &plain, next(seed))?);
    }
    assert_eq!(rt; states.len(), 201);
    assert!(rt; are_same(alloc, &states, &plain)?);
    states.truncate(70);
    plain.truncate(70);
    assert_eq!(rt; states.len(), 70);
    add_random(alloc, &mut states, &mut plain, seed)?;
    assert_eq!(rt; states.len(), 71);
    assert!(rt; are_same(alloc, &states, &plain)?);
    Ok(())
}
