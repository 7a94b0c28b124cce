// Server access control lists. Nothing here takes memory.
ghost use Rattle.std.specs.Prelude.{◌≡◌, option_and_then, option_map};
ghost use Rattle.std.specs.List.{list_any};
ghost use Rattle.serde_json.specs.Data.{object};
ghost use Rattle.serde_json.specs.Find.{as_array, as_str};
ghost use Rattle.serde_json.specs.View.{items_view, members_view, view};
ghost use Rattle.mx_redact.specs.Fields.{field as field_of, is_some_and, texts_at};
ghost use Rattle.mx_access.specs.Acl as definition;

use crate::globs::glob_matches;
use crate::states::StateInRoom;
use mx_ident::ServerName;
use mx_receipt::Timeline;
use mx_redact::field;
use serde_json::{Map, Value};

/// Whether the access control list of the room's current state allows a server. A state with no list allows every
/// server. It takes no memory.
///
/// A server whose host is an IP literal is denied where `allow_ip_literals` is `false`. Otherwise its host, without the
/// port, is compared with globs: a server that `deny` matches is denied, and of the others those are allowed that
/// `allow` matches. A list of a wrong kind is empty, and an entry that is no text is passed over.
///
/// Source: the Matrix specification, Server-Server API, "Server Access Control Lists", and Client-Server API,
/// `m.room.server_acl`.
#[tactic(auto, unfolding(crate::specs::Acl::acl_allows))]
pub fn acl_allows(timeline: &Timeline, server: &ServerName) -> bool
    ensures { result ≡ definition.acl_allows timeline.now.kept server.now }
{
    match StateInRoom::current(timeline).event("m.room.server_acl", "") {
        Some(list) => content_allows(list.content(), server),
        None => true,
    }
}

#[tactic(auto, unfolding(crate::specs::Acl::content_allows))]
fn content_allows(content: &Map<String, Value>, server: &ServerName) -> bool
    ensures { result ≡ definition.content_allows (object (members_view content.now.entries)) server.now }
{
    if server.is_ip_literal() && bars_ip_literals(content) {
        return false;
    }
    let host = server.host();
    !names_host(content, "deny", host) && names_host(content, "allow", host)
}

fn bars_ip_literals(content: &Map<String, Value>) -> bool
    ensures { result ≡ definition.bars_ip_literals (object (members_view content.now.entries)) }
{
    field(content, "allow_ip_literals").and_then(Value::as_bool) == Some(false)
}

// Whether a glob in the list at a key matches the host.
fn names_host(content: &Map<String, Value>, key: &str, host: &str) -> bool
    ensures { result
        ≡ list_any (definition.glob host.now) (texts_at key.now (object (members_view content.now.entries))) }
{
    match list_at(content, key) {
        Some(entries) => has_match(entries, host),
        None => false,
    }
}

fn list_at<'c>(content: &'c Map<String, Value>, key: &str) -> Option<&'c Vec<Value>>
    ensures { option_map (λ entries. items_view entries.now.items) result
        ≡ option_and_then as_array (field_of key.now (object (members_view content.now.entries))) }
{
    field(content, key).and_then(Value::as_array)
}

fn has_match(entries: &[Value], host: &str) -> bool
    ensures { result ≡ list_any (λ entry. is_some_and (definition.glob host.now) (as_str (view entry))) entries.now }
{
    entries.iter().any(|entry| is_match(entry, host))
}

fn is_match(entry: &Value, host: &str) -> bool
    ensures { result ≡ is_some_and (definition.glob host.now) (as_str (view entry.now)) }
{
    match entry.as_str() {
        Some(pattern) => glob_matches(pattern, host),
        None => false,
    }
}
