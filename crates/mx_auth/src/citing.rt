// The check of the events that an event cites as its auth events.
ghost use Rattle.std.specs.Prelude.{◌≡◌, ◌||◌, bytes_eq, codes, not, map};
ghost use Rattle.std.specs.List.{list_any};
ghost use Rattle.std.specs.Result.{result_err};
ghost use Rattle.mx_redact.specs.Fields.{is_some_and};
ghost use Rattle.mx_pdu.specs.Event.{has_kind, auth_ids};
ghost use Rattle.mx_auth.specs.Rules.{auth_rules, key_of, same_key, has_repeat, is_selected as is_selected_for};
ghost use Rattle.mx_auth.specs.Keys.{cited_shown, repeats_key as repeats_key_of, is_cited_again as is_cited_again_in};

use crate::events::is_at;
use crate::refusals::Rule;
use crate::selecting::{NeededKeys, needed_keys};
use crate::versions::RoomVersion;
use mx_ident::EventId;
use mx_pdu::Pdu;

/// An event that another one cites as an auth event, and whether it was rejected.
#[derive(Clone, Copy, Debug)]
pub struct CitedEvent<'a> {
    pub event: &'a Pdu,
    pub rejected: bool,
}

/// Checks the events that an event of a room of this version cites as its auth events, in the order of `auth_events`:
/// `Ok` where no line rejects the event for them. Of a create event, which cites none, nothing is said. It takes no memory.
///
/// The error is the first of `AuthEventsRepeat`, `AuthEventNotSelected`, `AuthEventRejected` and
/// `AuthEventsWithoutCreate` that holds.
///
/// Source: the Matrix specification, Room Version 6 and Room Version 7, "Authorization rules", rule 2.
pub fn judge_auth_events(
    version: RoomVersion,
    event: &Pdu,
    entries: &[CitedEvent<'_>],
) -> Result<(), Rule>
    ensures { result_err result ≡ auth_rules version event.now (map cited_shown entries.now) }
{
    if event.kind() == "m.room.create" {
        return Ok(());
    }
    if repeats(event, entries) {
        return Err(Rule::AuthEventsRepeat);
    }
    if cites_unselected(version, event, entries) {
        return Err(Rule::AuthEventNotSelected);
    }
    if cites_rejected(entries) {
        return Err(Rule::AuthEventRejected);
    }
    if !cites_create(entries) {
        return Err(Rule::AuthEventsWithoutCreate);
    }
    Ok(())
}

// Whether an id stands twice, or a type with a state key.
fn repeats(event: &Pdu, entries: &[CitedEvent<'_>]) -> bool
    ensures { result ≡ (has_repeat bytes_eq (auth_ids event.now) || repeats_key_of entries.now) }
{
    repeats_id(event.auth_events()) || repeats_key(entries)
}

fn repeats_id(ids: &[EventId]) -> bool
    ensures { result ≡ has_repeat bytes_eq ids.now }
{
    for (i, id) in ids.iter().enumerate() {
        if is_id_among(id, &ids[i + 1..]) {
            return true;
        }
    }
    false
}

fn is_id_among(id: &EventId, ids: &[EventId]) -> bool
    ensures { result ≡ list_any (bytes_eq id.now) ids.now }
{
    ids.iter().any(|other| id == other)
}

// Whether a type with a state key stands twice.
fn repeats_key(entries: &[CitedEvent<'_>]) -> bool
    ensures { result ≡ repeats_key_of entries.now }
{
    for (i, cited) in entries.iter().enumerate() {
        if is_cited_again(cited.event, &entries[i + 1..]) {
            return true;
        }
    }
    false
}

// Whether an event has a state key, and a cited event has it with the same type.
#[tactic(auto, unfolding(crate::specs::Keys::is_cited_again))]
fn is_cited_again(event: &Pdu, entries: &[CitedEvent<'_>]) -> bool
    ensures { result ≡ is_cited_again_in event.now entries.now }
{
    match event.state_key() {
        Some(state_key) => is_key_cited(event.kind(), state_key, entries),
        None => false,
    }
}

fn is_key_cited(kind: &str, state_key: &str, entries: &[CitedEvent<'_>]) -> bool
    ensures { result
        ≡ list_any (λ cited. is_some_and (same_key (kind.now, state_key.now)) (key_of cited.event.now)) entries.now }
{
    entries
        .iter()
        .any(|cited| is_at(cited.event, kind, state_key))
}

// Whether a cited event has no place in the selection of auth events.
#[tactic(auto, unfolding(crate::specs::Rules::is_selected))]
fn cites_unselected(version: RoomVersion, event: &Pdu, entries: &[CitedEvent<'_>]) -> bool
    ensures { result ≡ list_any (λ cited. not (is_selected_for version event.now cited.event.now)) entries.now }
{
    let keys = needed_keys(version, event);
    has_unselected(&keys, entries)
}

fn has_unselected(keys: &NeededKeys<'_>, entries: &[CitedEvent<'_>]) -> bool
    ensures { result ≡ list_any (λ cited. not (is_some_and (λ key. list_any (same_key key) keys.now) (key_of cited.event.now)))
        entries.now }
{
    entries
        .iter()
        .any(|cited| !has_key_among(keys, cited.event))
}

fn has_key_among(keys: &NeededKeys<'_>, event: &Pdu) -> bool
    ensures { result ≡ is_some_and (λ key. list_any (same_key key) keys.now) (key_of event.now) }
{
    match event.state_key() {
        Some(state_key) => keys.contains(event.kind(), state_key),
        None => false,
    }
}

fn cites_rejected(entries: &[CitedEvent<'_>]) -> bool
    ensures { result ≡ list_any (λ cited. cited.rejected) entries.now }
{
    entries.iter().any(|cited| cited.rejected)
}

fn cites_create(entries: &[CitedEvent<'_>]) -> bool
    ensures { result ≡ list_any (λ cited. has_kind (codes "m.room.create") cited.event.now) entries.now }
{
    entries
        .iter()
        .any(|cited| cited.event.kind() == "m.room.create")
}
