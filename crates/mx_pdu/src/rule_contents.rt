// What is kept of a content beside the event's text.
ghost use Rattle.std.specs.Prelude.{◌≡◌, IfOk, IsTrue, OnOk, string_bytes};
ghost use Rattle.serde_json.specs.Data.{object, put};
ghost use Rattle.serde_json.specs.View.{view, members_view};
ghost use Rattle.mx_redact.specs.Redaction.{members_where};
ghost use Rattle.mx_pdu.specs.Event.{content_of};
ghost use Rattle.mx_pdu.specs.Format.{is_well_formed};
ghost use Rattle.mx_pdu.specs.RuleContent.{is_rule_key as is_in_rules, rule_content};

use crate::event_fields::EventFields;
use crate::lookups::object_at;
use mx_redact::EventKey;
use serde_json::{Map, Value};
use std::alloc::{AllocError, Global};

// A copy of the members that rules read of the content of a well-formed event.
pub fn rule_content_at(
    alloc: Global,
    fields: &EventFields<'_>,
) -> Result<Map<String, Value>, AllocError>
    requires { IsTrue (is_well_formed (object (members_view fields.now.members.now.entries))) }
    ensures { IfOk result (λ kept. object (members_view kept.entries)
        ≡ rule_content (content_of (object (members_view fields.now.members.now.entries)))) }
{
    match object_at(fields, EventKey::Content) {
        Some(content) => rule_content_of(alloc, content),
        None => unreachable!(),
    }
}

// A copy of a content's members that rules read.
fn rule_content_of(
    alloc: Global,
    content: &Map<String, Value>,
) -> Result<Map<String, Value>, AllocError>
    ensures { IfOk result (λ kept. members_view kept.entries
        ≡ members_where is_in_rules (members_view content.now.entries)) }
{
    let mut kept = Map::new(alloc);
    for (key, value) in content.iter() {
        if !is_rule_key(key) {
            continue;
        }
        copy_member(key, value, &mut kept)?;
    }
    Ok(kept)
}

fn copy_member(key: &String, value: &Value, kept: &mut Map<String, Value>) -> Result<(), AllocError>
    ensures { OnOk result (members_view kept.new.entries
        ≡ put (string_bytes key.now) (view value.now) (members_view kept.old.entries)) }
{
    let name = key.clone()?;
    let value = value.clone()?;
    kept.insert(name, value)?;
    Ok(())
}

/// Whether rules read a content's member at this key, as [`crate::Pdu::content`] has it.
pub fn is_rule_key(key: &str) -> bool
    ensures { result ≡ is_in_rules key.now }
{
    matches!(
        key,
        "creator"
            | "room_version"
            | "m.federate"
            | "membership"
            | "third_party_invite"
            | "join_rule"
            | "history_visibility"
            | "allow"
            | "deny"
            | "allow_ip_literals"
            | "users"
            | "users_default"
            | "events"
            | "events_default"
            | "state_default"
            | "ban"
            | "kick"
            | "redact"
            | "invite"
            | "notifications"
    )
}
