// Parts of an event, and the walks over them.
ghost use Rattle.std.specs.Prelude.{◌≡◌, ℕ, List, ◌++◌, codes, bytes_eq, IfOk, OnOk, string_bytes};
ghost use Rattle.serde_json.specs.View.{view, members_view};
ghost use Rattle.serde_json.specs.Data.{object, put};
ghost use Rattle.mx_canon.specs.Canonical.{canonical_text, member_text, member_numbers, numbers};
ghost use Rattle.mx_canon.specs.Pieces.{comma_if};
ghost use Rattle.mx_canon.specs.Faults.{fault_of};
ghost use Rattle.mx_redact.specs.Redaction.{is_among, kept_keys};
ghost use Rattle.mx_redact.specs.Selected.{is_in_part, selected_value, selected, inner_of};

use crate::kinds::KeptContent;
use mx_canon::{NotCanonical, TextSink, check, write_key, write_text};
use serde_json::{Map, Value};
use std::alloc::{AllocError, Global};

/// A part of an event, or of its `content`.
#[derive(Clone, Copy, Debug, PartialEq, Eq)]
pub(crate) enum Selection {
    // What the content hash is made of.
    Hashed,
    // What redaction keeps.
    Redacted(KeptContent),
    // What is signed.
    Signed(KeptContent),
    // What redaction keeps of a content.
    Content(KeptContent),
}

impl Selection {
    // Whether a key of the event, or of its content, is in the part.
    pub(crate) fn has(self, key: &str) -> bool
        ensures { result ≡ is_in_part self key.now }
    {
        match self {
            Selection::Hashed => !matches!(key, "unsigned" | "signatures" | "hashes"),
            Selection::Redacted(_) => is_kept_key(key),
            Selection::Signed(_) => is_kept_key(key) && key != "signatures" && key != "unsigned",
            Selection::Content(kept) => kept.keeps(key),
        }
    }

    // What redaction keeps of the value at a key, where it keeps a part of it alone.
    pub(crate) fn inner(self, key: &str) -> Option<KeptContent>
        ensures { result ≡ inner_of self key.now }
    {
        match self {
            Selection::Redacted(kept) | Selection::Signed(kept) if key == "content" => Some(kept),
            _ => None,
        }
    }
}

// Whether redaction keeps a key of an event.
fn is_kept_key(key: &str) -> bool
    ensures { result ≡ is_among kept_keys key.now }
{
    matches!(
        key,
        "event_id"
            | "type"
            | "room_id"
            | "sender"
            | "state_key"
            | "content"
            | "hashes"
            | "signatures"
            | "depth"
            | "prev_events"
            | "prev_state"
            | "auth_events"
            | "origin"
            | "origin_server_ts"
            | "membership"
    )
}

/// A copy of the part.
#[cycle(select)]
pub(crate) fn copy_of(
    alloc: Global,
    selection: Selection,
    members: &Map<String, Value>,
) -> Result<Map<String, Value>, AllocError>
    ensures { IfOk result (λ copy. members_view copy.entries ≡ selected selection (members_view members.now.entries)) }
{
    let mut copy = Map::new(alloc);
    for (key, value) in members.iter() {
        if !selection.has(key) {
            continue;
        }
        copy_member(alloc, selection, key, value, &mut copy)?;
    }
    Ok(copy)
}

#[cycle(select)]
fn copy_member(
    alloc: Global,
    selection: Selection,
    key: &String,
    value: &Value,
    copy: &mut Map<String, Value>,
) -> Result<(), AllocError>
    ensures { OnOk result (members_view copy.new.entries
        ≡ put (string_bytes key.now) (selected_value selection (string_bytes key.now) (view value.now)) (members_view copy.old.entries)) }
{
    let name = key.clone()?;
    let selected = copy_of_value(alloc, selection, key, value)?;
    copy.insert(name, selected)?;
    Ok(())
}

#[cycle(select)]
fn copy_of_value(
    alloc: Global,
    selection: Selection,
    key: &str,
    value: &Value,
) -> Result<Value, AllocError>
    ensures { IfOk result (λ copy. view copy ≡ selected_value selection key.now (view value.now)) }
{
    match (selection.inner(key), value) {
        (Some(kept), Value::Object(members)) => {
            let copy = copy_of(alloc, Selection::Content(kept), members)?;
            Ok(Value::Object(copy))
        }
        _ => value.clone(),
    }
}

/// Gives the sink the canonical text of the part, in which a float has no digits.
#[cycle(write)]
pub(crate) fn write_selected<S: TextSink>(
    sink: &mut S,
    selection: Selection,
    members: &Map<String, Value>,
)
    ensures { (taken : List ℕ) → S.has_taken sink.old taken
        → S.has_taken sink.new (taken ++ canonical_text (object (selected selection (members_view members.now.entries)))) }
{
    sink.put(b"{");
    let mut later = false;
    for (key, value) in members.iter() {
        if !selection.has(key) {
            continue;
        }
        write_member(sink, later, selection, key, value);
        later = true;
    }
    sink.put(b"}");
}

// Gives the sink the text of a member of the part, behind a comma where it is a later one.
#[cycle(write)]
fn write_member<S: TextSink>(
    sink: &mut S,
    later: bool,
    selection: Selection,
    key: &str,
    value: &Value,
)
    ensures { (taken : List ℕ) → S.has_taken sink.old taken
        → S.has_taken sink.new ((taken ++ comma_if later)
        ++ member_text (key.now, canonical_text (selected_value selection key.now (view value.now)))) }
{
    write_key(sink, later, key.as_bytes());
    write_selected_value(sink, selection, key, value);
}

#[cycle(write)]
fn write_selected_value<S: TextSink>(sink: &mut S, selection: Selection, key: &str, value: &Value)
    ensures { (taken : List ℕ) → S.has_taken sink.old taken
        → S.has_taken sink.new (taken ++ canonical_text (selected_value selection key.now (view value.now))) }
{
    match (selection.inner(key), value) {
        (Some(kept), Value::Object(members)) => {
            write_selected(sink, Selection::Content(kept), members);
        }
        _ => write_text(sink, value),
    }
}

/// Why the part has no canonical text.
#[cycle(check)]
pub(crate) fn fault_in(selection: Selection, members: &Map<String, Value>) -> Option<NotCanonical>
    ensures { result ≡ fault_of (member_numbers (selected selection (members_view members.now.entries))) }
{
    let mut found = None;
    for (key, value) in members.iter() {
        if !selection.has(key) {
            continue;
        }
        found = NotCanonical::gravest(found, fault_in_value(selection, key, value));
    }
    found
}

#[cycle(check)]
fn fault_in_value(selection: Selection, key: &str, value: &Value) -> Option<NotCanonical>
    ensures { result ≡ fault_of (numbers (selected_value selection key.now (view value.now))) }
{
    match (selection.inner(key), value) {
        (Some(kept), Value::Object(members)) => fault_in(Selection::Content(kept), members),
        _ => check(value).err(),
    }
}
