// The keys of a room's states, by number.
ghost use Rattle.std.specs.Prelude.{◌≡◌, ◌<◌, ◌++◌, ◌∷◌, [], IfErr, IfOk, OnErr, OnOk, length};
ghost use Rattle.mx_graph.specs.StateMap.{key_cmp};
ghost use Rattle.mx_states.specs.KeyNumbers.{AreIndexed, AreInOrder, in_order, key_at, number_of, numbers_where, order_at, with_key};
ghost use Rattle.mx_states.specs.MemberKeys.{is_member_key};
ghost use Rattle.mx_states.specs.MemberLists.{listed};
ghost use Rattle.mx_states.specs.Places.{IsAt, IsGapFor};

use crate::states::key_numbers::KeyNo;
use crate::states::member_lists::MemberLists;
use std::alloc::{AllocError, Global};
use std::cmp::Ordering;
use std::marker::Model;

// A key of a state: a type and a state key.
#[derive(Debug, Drop)]
pub(crate) struct StateKey {
    kind: String,
    state_key: String,
}

impl Model for StateKey {
    ghost use Rattle.std.specs.Prelude.{List, ℕ, string_bytes};

    ghost Value = { List ℕ × List ℕ };

    ghost view = { λ key. (string_bytes key.kind, string_bytes key.state_key) };
}

impl StateKey {
    fn new(alloc: Global, kind: &str, state_key: &str) -> Result<StateKey, AllocError>
        ensures { IfOk result (λ key. key ≡ (kind.now, state_key.now)) }
    {
        let kind = String::from_str(alloc, kind)?;
        let state_key = String::from_str(alloc, state_key)?;
        Ok(StateKey { kind, state_key })
    }

    // The type.
    pub(crate) fn kind(&self) -> &str
        ensures { result.now ≡ self.now.0 }
    {
        &self.kind
    }

    // The state key.
    pub(crate) fn state_key(&self) -> &str
        ensures { result.now ≡ self.now.1 }
    {
        &self.state_key
    }

    // It beside another: types first, and then state keys, by bytes.
    fn compare(&self, kind: &str, state_key: &str) -> Ordering
        ensures { result ≡ key_cmp self.now (kind.now, state_key.now) }
    {
        match self.kind.as_str().cmp(kind) {
            Ordering::Equal => self.state_key.as_str().cmp(state_key),
            unequal => unequal,
        }
    }
}

// The keys of a room's states, each of them once, by their numbers, which rise from 0 as they are added.
#[derive(Debug, Drop)]
pub(crate) struct Keys {
    alloc: Global,
    keys: Vec<StateKey>,
    // Their numbers in the order of the keys.
    order: Vec<KeyNo>,
    // Those of members' keys, by the servers.
    members: MemberLists,
}

impl Model for Keys {
    ghost use Rattle.std.specs.Prelude.{List};
    ghost use Rattle.mx_pdu.specs.StateKeys.{Key};
    ghost use Rattle.mx_states.specs.KeyNumbers.{AreIndexed};
    ghost use Rattle.mx_states.specs.MemberLists.{listed};

    ghost Value = { List Key };

    ghost view = { λ keys. keys.keys.items };

    ghost invariant = { λ keys. AreIndexed keys.keys.items keys.order.items (listed keys.members) };
}

// There are at most so many keys, as their numbers are `u32`.
const MOST_KEYS: usize = 0xffff_ffff;

impl Keys {
    // No keys.
    pub(crate) fn new(alloc: Global) -> Keys
        ensures { result ≡ [] }
    {
        Keys {
            alloc,
            keys: Vec::new(alloc),
            order: Vec::new(alloc),
            members: MemberLists::new(alloc),
        }
    }

    // How many keys there are.
    pub(crate) fn len(&self) -> usize
        ensures { result ≡ length self.now }
    {
        self.keys.len()
    }

    // The key with this number.
    pub(crate) fn key(&self, number: KeyNo) -> &StateKey
        requires { number < length self.now }
        ensures { result.now ≡ key_at self.now number }
    {
        &self.keys[number.index()]
    }

    // The numbers of all keys, in the order of the keys.
    pub(crate) fn in_order(&self) -> &[KeyNo]
        ensures { AreInOrder self.now result.now }
    {
        &self.order
    }

    // The numbers of the keys of a server's members, rising. It takes no memory, and the time is logarithmic in the
    // servers of all members.
    pub(crate) fn members_of(&self, server: &str) -> &[KeyNo]
        ensures { result.now ≡ numbers_where (is_member_key server.now) self.now }
    {
        self.members.get(server)
    }

    // The number of a key. It takes no memory, and the time is logarithmic in the keys.
    pub(crate) fn number_of(&self, kind: &str, state_key: &str) -> Option<KeyNo>
        ensures { result ≡ number_of self.now (kind.now, state_key.now) }
    {
        match place_of(&self.keys, &self.order, kind, state_key) {
            Ok(place) => Some(self.order[place]),
            Err(_) => None,
        }
    }

    // The number of a key, which is added where it is new. At an error the keys stay.
    pub(crate) fn number_for(&mut self, kind: &str, state_key: &str) -> Result<KeyNo, AllocError>
        ensures number { IfOk result (λ number. number_of self.new (kind.now, state_key.now) ≡ Some number) }
        ensures added { OnOk result (self.new ≡ with_key self.old (kind.now, state_key.now)) }
        ensures err { OnErr result (self.new ≡ self.old) }
    {
        match place_of(&self.keys, &self.order, kind, state_key) {
            Ok(place) => Ok(self.order[place]),
            Err(place) => add_key(
                self.alloc,
                &mut self.keys,
                &mut self.order,
                &mut self.members,
                place,
                kind,
                state_key,
            ),
        }
    }
}

// The place of a key in their order, or the one where it would stand.
fn place_of(keys: &[StateKey], order: &[KeyNo], kind: &str, state_key: &str) -> Result<usize, usize>
    requires { AreInOrder keys.now order.now }
    ensures found { IfOk result (IsAt (kind.now, state_key.now) (in_order keys.now order.now)) }
    ensures absent { IfErr result (IsGapFor (kind.now, state_key.now) (in_order keys.now order.now)) }
{
    order.binary_search_by(|number| compare_at(keys, *number, kind, state_key))
}

// The key with a number beside another.
fn compare_at(keys: &[StateKey], number: KeyNo, kind: &str, state_key: &str) -> Ordering
    ensures { result ≡ order_at keys.now (kind.now, state_key.now) number }
{
    match keys.get(number.index()) {
        Some(key) => key.compare(kind, state_key),
        None => Ordering::Less,
    }
}

// Adds a key that is new, at its place in the order. At an error the keys stay.
fn add_key(
    alloc: Global,
    keys: &mut Vec<StateKey>,
    order: &mut Vec<KeyNo>,
    members: &mut MemberLists,
    place: usize,
    kind: &str,
    state_key: &str,
) -> Result<KeyNo, AllocError>
    requires indexed { AreIndexed keys.old.items order.old.items (listed members.old) }
    requires gap { IsGapFor (kind.now, state_key.now) (in_order keys.old.items order.old.items) place }
    ensures number { IfOk result (λ number. number ≡ length keys.old.items) }
    ensures added { OnOk result (keys.new.items ≡ keys.old.items ++ (kind.now, state_key.now) ∷ []) }
    ensures indexed { AreIndexed keys.new.items order.new.items (listed members.new) }
    ensures err { OnErr result (keys.new.items ≡ keys.old.items) }
{
    if keys.len() > MOST_KEYS {
        return Err(AllocError);
    }
    let number = KeyNo::at(keys.len() as u32);
    let key = StateKey::new(alloc, kind, state_key)?;
    // What can fail goes first, so that an error leaves the keys as they were.
    keys.reserve(1)?;
    order.reserve(1)?;
    members.add(alloc, kind, state_key, number)?;
    order.insert(place, number).unwrap();
    keys.push(key).unwrap();
    Ok(number)
}
