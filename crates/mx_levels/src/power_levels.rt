// The levels of a room.
ghost use Rattle.std.specs.Prelude.{◌≡◌, true, option_map};
ghost use Rattle.mx_pdu.specs.RuleContent.{is_rule_key};
ghost use Rattle.mx_levels.specs.Level as definition;

use crate::reading::{entry_at, level_at};
use mx_pdu::Pdu;
use mx_redact::text_field;
use std::marker::Model;

/// The power levels under a create event and a power levels event, either of which may be absent.
///
/// Source: the Matrix specification, `m.room.power_levels`.
#[derive(Debug, Drop)]
pub struct Levels<'a> {
    create: Option<&'a Pdu>,
    power: Option<&'a Pdu>,
}

impl<'a> Model for Levels<'a> {
    ghost use Rattle.std.specs.Prelude.{option_map};
    ghost use Rattle.mx_levels.specs.Sources.{Sources, sources_code};

    ghost Value = { Sources };

    ghost coded = { sources_code };

    ghost view = { λ l. record { create = option_map (λ e. e.now) l.create; power = option_map (λ e. e.now) l.power } };
}

impl<'a> Levels<'a> {
    /// The levels that these events give.
    pub fn of(create: Option<&'a Pdu>, power: Option<&'a Pdu>) -> Levels<'a>
        ensures create { result.create ≡ option_map (λ e. e.now) create.entry }
        ensures power { result.power ≡ option_map (λ e. e.now) power.entry }
    {
        Levels { create, power }
    }

    /// The level of a user: its entry in `users`, else `users_default`, else 0. Without a power levels event the
    /// `creator` that the create event names has 100, and any other user 0.
    #[tactic(auto, unfolding(crate::specs::Level::user_level))]
    pub fn user(&self, user: &str) -> i64
        ensures { result ≡ definition.user_level self.now.create self.now.power user.now }
    {
        match entry_level(self.power, "users", user) {
            Some(level) => level,
            None => users_default(self.create, self.power, user),
        }
    }

    /// The level that sending an event of this type asks for: the type's entry in `events`, else `state_default` for a
    /// state event, which is 50 if absent, and `events_default` for another, which is 0 if absent. Without a power
    /// levels event it is 0.
    #[tactic(auto, unfolding(crate::specs::Level::required_level))]
    pub fn required(&self, kind: &str, is_state: bool) -> i64
        ensures { result ≡ definition.required_level self.now.power kind.now is_state }
    {
        match entry_level(self.power, "events", kind) {
            Some(level) => level,
            None if is_state => given_level(self.power, "state_default", 50, 0),
            None => given_level(self.power, "events_default", 0, 0),
        }
    }

    /// The level that banning asks for, 50 if absent.
    #[tactic(auto, unfolding(crate::specs::Level::ban_level))]
    pub fn ban(&self) -> i64
        ensures { result ≡ definition.ban_level self.now.power }
    {
        given_level(self.power, "ban", 50, 50)
    }

    /// The level that kicking asks for, 50 if absent.
    #[tactic(auto, unfolding(crate::specs::Level::kick_level))]
    pub fn kick(&self) -> i64
        ensures { result ≡ definition.kick_level self.now.power }
    {
        given_level(self.power, "kick", 50, 50)
    }

    /// The level that inviting asks for, 0 if absent.
    #[tactic(auto, unfolding(crate::specs::Level::invite_level))]
    pub fn invite(&self) -> i64
        ensures { result ≡ definition.invite_level self.now.power }
    {
        given_level(self.power, "invite", 0, 0)
    }

    /// The level that redacting the events of others asks for, 50 if absent.
    #[tactic(auto, unfolding(crate::specs::Level::redact_level))]
    pub fn redact(&self) -> i64
        ensures { result ≡ definition.redact_level self.now.power }
    {
        given_level(self.power, "redact", 50, 50)
    }
}

// A level that the power levels event gives, its default there, and the level where there is no such event.
fn given_level(power: Option<&Pdu>, key: &str, default: i64, absent: i64) -> i64
    requires { is_rule_key key.now ≡ true }
    ensures { result ≡ definition.given_level key.now default absent (option_map (λ e. e.now) power.entry) }
{
    match power {
        Some(power) => level_at(power.content(), key).unwrap_or(default),
        None => absent,
    }
}

// The level at a key of an object in the content of the power levels event.
fn entry_level(power: Option<&Pdu>, map: &str, key: &str) -> Option<i64>
    requires { is_rule_key map.now ≡ true }
    ensures { result ≡ definition.entry_level map.now key.now (option_map (λ e. e.now) power.entry) }
{
    entry_at(power?.content(), map, key)
}

// A user's level where `users` has no entry.
fn users_default(create: Option<&Pdu>, power: Option<&Pdu>, user: &str) -> i64
    ensures { result
        ≡ definition.users_default (option_map (λ e. e.now) create.entry) (option_map (λ e. e.now) power.entry) user.now }
{
    match power {
        Some(_) => given_level(power, "users_default", 0, 0),
        None => if is_creator(create, user) { 100 } else { 0 },
    }
}

// Whether the create event names the user as its creator.
fn is_creator(create: Option<&Pdu>, user: &str) -> bool
    ensures { result ≡ definition.is_creator (option_map (λ e. e.now) create.entry) user.now }
{
    match create {
        Some(create) => text_field(create.content(), "creator").is_some_and(|creator| creator
            == user),
        None => false,
    }
}
