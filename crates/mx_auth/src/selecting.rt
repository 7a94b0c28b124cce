// The keys of a state that an event's auth events are selected from.
ghost use Rattle.std.specs.Prelude.{◌≡◌, ◌&&◌, not};
ghost use Rattle.std.specs.List.{list_any};
ghost use Rattle.mx_pdu.specs.Event.{is_state};
ghost use Rattle.mx_auth.specs.Rules.{needed_keys as needed_keys_of, needs_join_rules as needs_join_rules_of, same_key, is_own as is_own_event};
ghost use Rattle.mx_auth.specs.Keys.{key_shown};

use crate::events::{is_own, membership_of, target_of};
use crate::versions::RoomVersion;
use mx_pdu::Pdu;
use mx_redact::is_text;
use std::marker::Model;

/// A type and a state key, at which a state has at most one event.
#[derive(Clone, Copy, Debug)]
pub struct StateKey<'a> {
    pub kind: &'a str,
    pub state_key: &'a str,
}

/// The keys of a state that an event's auth events are selected from, at most five.
///
/// Source: the Matrix specification, Server-Server API, "Auth events selection".
#[derive(Debug, Drop)]
pub struct NeededKeys<'a> {
    keys: [StateKey<'a>; 5],
    count: usize,
}

impl<'a> Model for NeededKeys<'a> {
    ghost use Rattle.std.specs.Prelude.{◌≡◌, ℕ, ◌≤◌, List, length};
    ghost use Rattle.mx_auth.specs.Keys.{keys_shown};

    ghost Value = { List (List ℕ × List ℕ) };

    ghost view = { keys_shown };

    ghost invariant = { λ needed. (needed.count ≤ 5) × (length needed.keys ≡ 5) };
}

impl<'a> NeededKeys<'a> {
    ghost use Rattle.std.specs.Prelude.{◌≡◌, ◌<◌, ◌++◌, ◌∷◌, [], length, map};
    ghost use Rattle.std.specs.List.{list_any};
    ghost use Rattle.mx_auth.specs.Rules.{same_key, where_so};
    ghost use Rattle.mx_auth.specs.Keys.{key_shown};

    // No keys.
    fn new() -> NeededKeys<'a>
        ensures { result ≡ [] }
    {
        NeededKeys {
            keys: [StateKey {
                kind: "",
                state_key: "",
            }; 5],
            count: 0,
        }
    }

    // Adds a key where it is wanted.
    fn push_if(&mut self, wanted: bool, kind: &'a str, state_key: &'a str)
        requires { length self.old < 5 }
        ensures { self.new ≡ self.old ++ where_so wanted ((kind.now, state_key.now) ∷ []) }
    {
        if wanted {
            self.keys[self.count] = StateKey { kind, state_key };
            self.count += 1;
        }
    }

    /// The keys: that of the create event, of the power levels, of the sender's member event, then those that a member
    /// event needs besides. It takes no memory.
    pub fn as_slice(&self) -> &[StateKey<'a>]
        ensures { map key_shown result.now ≡ self.now }
    {
        &self.keys[..self.count]
    }

    /// Whether a key is among them. It takes no memory.
    pub fn contains(&self, kind: &str, state_key: &str) -> bool
        ensures { result ≡ list_any (same_key (kind.now, state_key.now)) self.now }
    {
        is_key_among(kind, state_key, self.as_slice())
    }
}

fn is_key_among(kind: &str, state_key: &str, keys: &[StateKey<'_>]) -> bool
    ensures { result ≡ list_any (λ key. same_key (kind.now, state_key.now) (key_shown key)) keys.now }
{
    keys.iter()
        .any(|key| kind == key.kind && state_key == key.state_key)
}

/// The keys of the state before an event that its auth events are selected from, in a room of this version: none for a
/// create event. It takes no memory.
///
/// Source: the Matrix specification, Server-Server API, "Auth events selection", and Room Version 7.
pub fn needed_keys(version: RoomVersion, event: &Pdu) -> NeededKeys<'_>
    ensures { result ≡ needed_keys_of version event.now }
{
    let is_later = event.kind() != "m.room.create";
    let is_member = event.kind() == "m.room.member";
    let mut keys = NeededKeys::new();
    keys.push_if(is_later, "m.room.create", "");
    keys.push_if(is_later, "m.room.power_levels", "");
    keys.push_if(is_later, "m.room.member", event.sender().as_str());
    keys.push_if(
        is_member && needs_target(event),
        "m.room.member",
        target_of(event),
    );
    keys.push_if(
        is_member && needs_join_rules(version, event),
        "m.room.join_rules",
        "",
    );
    keys
}

// Whether a member event is about another user than its sender.
fn needs_target(event: &Pdu) -> bool
    ensures { result ≡ (is_state event.now && not (is_own_event event.now)) }
{
    event.state_key().is_some() && !is_own(event)
}

// Whether a member event is judged by the join rules.
fn needs_join_rules(version: RoomVersion, event: &Pdu) -> bool
    ensures { result ≡ needs_join_rules_of version event.now }
{
    let membership = membership_of(event);
    is_text(membership, "join")
        || is_text(membership, "invite")
        || (is_text(membership, "knock") && version.has_knocks())
}
