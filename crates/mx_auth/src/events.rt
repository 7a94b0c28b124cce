// What the rules ask of an event, and of the create event.
ghost use Rattle.std.specs.Prelude.{◌≡◌, bytes_eq};
ghost use Rattle.std.specs.List.{list_all};
ghost use Rattle.std.specs.Option.{option_copied};
ghost use Rattle.mx_redact.specs.Fields.{is_some_and};
ghost use Rattle.mx_pdu.specs.Event.{membership_of as membership_text};
ghost use Rattle.mx_levels.specs.Level.{is_creator as is_creator_of};
ghost use Rattle.mx_auth.specs.Joins as joins;
ghost use Rattle.mx_auth.specs.Rules.{key_of, same_key, target_of as target, is_own as is_own_event, all_are as all_are_that, is_kept_out as is_kept_out_by};

use crate::contents::{content_field, content_text};
use mx_ident::EventId;
use mx_pdu::Pdu;
use mx_redact::is_text;
use serde_json::Value;

/// Whether an event is a state event with this type and this state key. It takes no memory.
pub fn is_at(event: &Pdu, kind: &str, state_key: &str) -> bool
    ensures { result ≡ is_some_and (same_key (kind.now, state_key.now)) (key_of event.now) }
{
    match event.state_key() {
        Some(key) => kind == event.kind() && state_key == key,
        None => false,
    }
}

/// The `membership` that a member event gives. It takes no memory.
///
/// Source: the Matrix specification, `m.room.member`.
pub fn membership_of(event: &Pdu) -> Option<&str>
    ensures { option_copied result ≡ membership_text event.now }
{
    content_text(event, "membership")
}

/// The user whose membership a member event is about.
pub(crate) fn target_of(event: &Pdu) -> &str
    ensures { result.now ≡ target event.now }
{
    event.state_key().unwrap_or("")
}

/// Whether the sender is the state key.
pub(crate) fn is_own(event: &Pdu) -> bool
    ensures { result ≡ is_own_event event.now }
{
    event.sender().as_str() == target_of(event)
}

/// Whether there are ids, and all are this one.
pub(crate) fn all_are(id: Option<&EventId>, ids: &[EventId]) -> bool
    ensures { result ≡ all_are_that (option_copied id.entry) ids.now }
{
    match id {
        Some(id) => !ids.is_empty() && is_each(id, ids),
        None => false,
    }
}

// Whether each id is this one.
fn is_each(id: &EventId, ids: &[EventId]) -> bool
    ensures { result ≡ list_all (λ other. bytes_eq other id.now) ids.now }
{
    ids.iter().all(|other| other == id)
}

/// Whether the create event names the user as its creator.
pub(crate) fn is_creator(create: Option<&Pdu>, user: &str) -> bool
    ensures { result ≡ is_creator_of (option_copied create.entry) user.now }
{
    match create {
        Some(create) => is_text(content_text(create, "creator"), user),
        None => false,
    }
}

/// Whether the create event keeps the event out, because it is of another server.
#[tactic(auto, unfolding(crate::specs::Rules::is_kept_out, crate::specs::Joins::keeps_out))]
pub(crate) fn is_kept_out(event: &Pdu, create: &Pdu) -> bool
    ensures { result ≡ is_kept_out_by event.now create.now }
{
    keeps_out(create, event.sender().server())
}

/// Whether the create event keeps a server out, because it is another one than its own.
#[tactic(auto, unfolding(crate::specs::Joins::keeps_out))]
pub(crate) fn keeps_out(create: &Pdu, server: &str) -> bool
    ensures { result ≡ joins.keeps_out create.now server.now }
{
    let federates = content_field(create, "m.federate").and_then(Value::as_bool);
    federates == Some(false) && server != create.sender().server()
}
