// The rules of power levels events.
ghost use Rattle.std.specs.Prelude.{◌≡◌, ◌||◌, codes, option_and_then, option_map};
ghost use Rattle.std.specs.List.{list_any, list_all};
ghost use Rattle.std.specs.Result.{result_err};
ghost use Rattle.serde_json.specs.Data.{object};
ghost use Rattle.serde_json.specs.Find.{as_object};
ghost use Rattle.serde_json.specs.View.{view, members_view};
ghost use Rattle.mx_redact.specs.Fields.{field, keys_of};
ghost use Rattle.mx_auth.specs.Rules.{first_line, power_lines, change_lines, has_sound_users as has_sound_users_at, is_user_levels as is_user_levels_value, same_level, is_above as is_above_level, is_at_or_above as is_at_or_above_level, alters_above as alters_above_at, some_above as some_above_in, some_other_user as some_other_user_in};
ghost use Rattle.mx_auth.specs.Entries.{level_in as level_in_members, is_altered_above as is_altered_above_in, is_other_user_altered as is_other_user_altered_in, is_user_level as is_user_level_in};

use crate::refusals::Rule;
use crate::states::{RoomState, levels_in, power_event};
use mx_ident::UserId;
use mx_levels::level_at;
use mx_pdu::Pdu;
use mx_redact::field;
use serde_json::{Map, Value};

// Whether two levels are the same, or both absent.
fn is_same(one: Option<i64>, other: Option<i64>) -> bool
    ensures { result ≡ same_level one other }
{
    match (one, other) {
        (Some(one), Some(other)) => one == other,
        (None, None) => true,
        _ => false,
    }
}

// Whether there is a level, and it is above another.
fn is_above(bound: i64, level: Option<i64>) -> bool
    ensures { result ≡ is_above_level bound level }
{
    match level {
        Some(level) => bound < level,
        None => false,
    }
}

// Whether there is a level, and it is not below another.
fn is_at_or_above(bound: i64, level: Option<i64>) -> bool
    ensures { result ≡ is_at_or_above_level bound level }
{
    match level {
        Some(level) => bound <= level,
        None => false,
    }
}

// Whether a level is added, changed or removed, and is above the bound before or after.
#[tactic(auto, unfolding(crate::specs::Rules::alters_above))]
fn alters_above(bound: i64, old: &Map<String, Value>, new: &Map<String, Value>, key: &str) -> bool
    ensures { result ≡ alters_above_at bound (object (members_view old.now.entries))
        (object (members_view new.now.entries)) key.now }
{
    let before = level_at(old, key);
    let after = level_at(new, key);
    !is_same(before, after) && (is_above(bound, before) || is_above(bound, after))
}

// The levels outside `events`, `notifications` and `users`.
const CHECKED_LEVELS: [&str; 7] = [
    "users_default",
    "events_default",
    "state_default",
    "ban",
    "redact",
    "kick",
    "invite",
];

// Whether one of these levels is altered so.
fn alters_one_above(
    bound: i64,
    old: &Map<String, Value>,
    new: &Map<String, Value>,
    keys: &[&str],
) -> bool
    ensures { result ≡ list_any (λ key. alters_above_at bound (object (members_view old.now.entries))
        (object (members_view new.now.entries)) key.now) keys.now }
{
    keys.iter().any(|key| alters_above(bound, old, new, key))
}

// The object at a key of a content.
fn entries_at<'a>(content: &'a Map<String, Value>, map: &str) -> Option<&'a Map<String, Value>>
    ensures { option_map (λ entries. members_view entries.now.entries) result
        ≡ option_and_then as_object (field map.now (object (members_view content.now.entries))) }
{
    field(content, map).and_then(Value::as_object)
}

// The level at a key of an object, none where there is no object.
fn level_in(entries: Option<&Map<String, Value>>, key: &str) -> Option<i64>
    ensures { result
        ≡ level_in_members (option_map (λ entries. members_view entries.now.entries) entries.entry) key.now }
{
    match entries {
        Some(entries) => level_at(entries, key),
        None => None,
    }
}

// Whether an entry has another level among the others, or none there, and is above the bound.
#[tactic(auto, unfolding(crate::specs::Entries::is_altered_above))]
fn is_altered_above(
    bound: i64,
    entries: &Map<String, Value>,
    others: Option<&Map<String, Value>>,
    key: &str,
) -> bool
    ensures { result ≡ is_altered_above_in bound (members_view entries.now.entries)
        (option_map (λ others. members_view others.now.entries) others.entry) key.now }
{
    let level = level_at(entries, key);
    !is_same(level, level_in(others, key)) && is_above(bound, level)
}

// Whether an entry has another level among the others, or none there, and is another user's, not below the bound.
#[tactic(auto, unfolding(crate::specs::Entries::is_other_user_altered))]
fn is_other_user_altered(
    sender: &UserId,
    bound: i64,
    entries: &Map<String, Value>,
    others: Option<&Map<String, Value>>,
    key: &str,
) -> bool
    ensures { result ≡ is_other_user_altered_in sender.now bound (members_view entries.now.entries)
        (option_map (λ others. members_view others.now.entries) others.entry) key.now }
{
    let level = level_at(entries, key);
    !is_same(level, level_in(others, key)) && key != sender.as_str() && is_at_or_above(bound, level)
}

// Whether an entry is altered and above the bound.
fn alters_entry_above(
    bound: i64,
    entries: &Map<String, Value>,
    others: Option<&Map<String, Value>>,
) -> bool
    ensures { result ≡ list_any (is_altered_above_in bound (members_view entries.now.entries)
        (option_map (λ others. members_view others.now.entries) others.entry))
        (keys_of (members_view entries.now.entries)) }
{
    for (key, _value) in entries.iter() {
        if is_altered_above(bound, entries, others, key) {
            return true;
        }
    }
    false
}

// Whether another user's entry is altered and not below the bound.
fn alters_user_at_or_above(
    sender: &UserId,
    bound: i64,
    entries: &Map<String, Value>,
    others: Option<&Map<String, Value>>,
) -> bool
    ensures { result ≡ list_any (is_other_user_altered_in sender.now bound (members_view entries.now.entries)
        (option_map (λ others. members_view others.now.entries) others.entry))
        (keys_of (members_view entries.now.entries)) }
{
    for (key, _value) in entries.iter() {
        if is_other_user_altered(sender, bound, entries, others, key) {
            return true;
        }
    }
    false
}

// Whether an entry is a user id's, and a level.
#[tactic(auto, unfolding(crate::specs::Entries::is_user_level))]
fn is_user_level(entries: &Map<String, Value>, key: &str) -> bool
    ensures { result ≡ is_user_level_in (members_view entries.now.entries) key.now }
{
    UserId::is(key) && level_at(entries, key).is_some()
}

// Whether each entry is a user id's, and a level.
fn are_user_levels(entries: &Map<String, Value>) -> bool
    ensures { result ≡ list_all (is_user_level_in (members_view entries.now.entries))
        (keys_of (members_view entries.now.entries)) }
{
    for (key, _value) in entries.iter() {
        if !is_user_level(entries, key) {
            return false;
        }
    }
    true
}

// Whether an entry of a map of levels in one content has another level in the other content, or none there, and is
// above the bound.
fn some_above(bound: i64, map: &str, one: &Map<String, Value>, other: &Map<String, Value>) -> bool
    ensures { result ≡ some_above_in bound map.now (object (members_view one.now.entries))
        (object (members_view other.now.entries)) }
{
    match entries_at(one, map) {
        Some(entries) => alters_entry_above(bound, entries, entries_at(other, map)),
        None => false,
    }
}

// The same of `events` and `notifications`.
fn some_entry_above(bound: i64, one: &Map<String, Value>, other: &Map<String, Value>) -> bool
    ensures { result ≡ (some_above_in bound (codes "events") (object (members_view one.now.entries))
        (object (members_view other.now.entries))
        || some_above_in bound (codes "notifications") (object (members_view one.now.entries))
        (object (members_view other.now.entries))) }
{
    some_above(bound, "events", one, other) || some_above(bound, "notifications", one, other)
}

// The same of `users`, but for the sender's own entry, and not below the bound.
fn some_other_user(
    sender: &UserId,
    bound: i64,
    one: &Map<String, Value>,
    other: &Map<String, Value>,
) -> bool
    ensures { result ≡ some_other_user_in sender.now bound (object (members_view one.now.entries))
        (object (members_view other.now.entries)) }
{
    match entries_at(one, "users") {
        Some(entries) => alters_user_at_or_above(
            sender,
            bound,
            entries,
            entries_at(other, "users"),
        ),
        None => false,
    }
}

// Whether a value is an object from user ids to levels.
#[tactic(auto, unfolding(crate::specs::Rules::is_user_levels, crate::specs::Entries::is_user_level))]
fn is_user_levels(users: &Value) -> bool
    ensures { result ≡ is_user_levels_value (view users.now) }
{
    match users {
        Value::Object(entries) => are_user_levels(entries),
        _ => false,
    }
}

// Whether `users`, where it is there, is one.
#[tactic(auto, unfolding(crate::specs::Rules::has_sound_users))]
fn has_sound_users(content: &Map<String, Value>) -> bool
    ensures { result ≡ has_sound_users_at (object (members_view content.now.entries)) }
{
    match field(content, "users") {
        Some(users) => is_user_levels(users),
        None => true,
    }
}

// Judges a change of the content by a sender of a level.
#[tactic(auto, unfolding(crate::specs::Rules::change_lines))]
fn judge_change(
    sender: &UserId,
    level: i64,
    old: &Map<String, Value>,
    new: &Map<String, Value>,
) -> Result<(), Rule>
    ensures { result_err result ≡ first_line (change_lines sender.now level
        (object (members_view old.now.entries)) (object (members_view new.now.entries))) }
{
    if alters_one_above(level, old, new, &CHECKED_LEVELS) {
        return Err(Rule::LevelChangedAboveSender);
    }
    if some_entry_above(level, old, new) {
        return Err(Rule::OldEntryAboveSender);
    }
    if some_entry_above(level, new, old) {
        return Err(Rule::NewEntryAboveSender);
    }
    if some_other_user(sender, level, old, new) {
        return Err(Rule::OldUserNotBelowSender);
    }
    if some_above(level, "users", new, old) {
        return Err(Rule::NewUserAboveSender);
    }
    Ok(())
}

/// Judges a power levels event.
#[tactic(auto, unfolding(crate::specs::Rules::power_lines))]
pub(crate) fn judge_power_levels<S: RoomState>(event: &Pdu, state: &S) -> Result<(), Rule>
    ensures { result_err result ≡ first_line (power_lines event.now (S.state state.now)) }
{
    let content = event.content();
    if !has_sound_users(content) {
        return Err(Rule::UsersMalformed);
    }
    let Some(power) = power_event(state) else {
        return Ok(());
    };
    let level = levels_in(state).user(event.sender().as_str());
    judge_change(event.sender(), level, power.content(), content)
}
