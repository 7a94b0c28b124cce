// The lines of events that were offered and not kept.
ghost use Rattle.std.specs.Prelude.{◌≡◌, ◌++◌, ℕ, IfOk, List, Some, codes, option_map, string_bytes};
ghost use Rattle.serde_json.specs.Data.{number, string, unsigned};
ghost use Rattle.serde_json.specs.Find.{of_integer};
ghost use Rattle.mx_canon.specs.Canonical.{canonical_text, value_text};
ghost use Rattle.mx_pdu.specs.Event.{content_of, is_state as is_state_event, membership_of as membership_in, timestamp_of};
ghost use Rattle.mx_lines.specs.RefusedLines as definition;
ghost use Rattle.mx_lines.specs.Written.{opened, with_member, with_members};

use crate::contents::{content_text, hash_name, write_content};
use crate::line_writing::{end_line, open_line, write_number, write_text_if};
use crate::members::{
    write_ids_member, write_integer_member, write_number_member, write_text_member,
};
use crate::refused_causes::RefusedCause;
use mx_canon::{TextBuffer, TextSink};
use mx_ident::{EventId, ServerName};
use mx_pdu::Pdu;
use mx_redact::text_field;
use std::alloc::{AllocError, Global};

/// How many events a room had when an event was offered, which server offered it, and in which transaction.
#[derive(Debug, Drop)]
pub struct Offering {
    pub after: usize,
    pub origin: Option<ServerName>,
    pub transaction: Option<String>,
}

/// An event that was offered and not kept, as it was sent: why, and which events that it cites were not there.
#[derive(Debug, Drop)]
pub struct RefusedEvent {
    pub offering: Offering,
    pub cause: RefusedCause,
    pub missing: Vec<EventId>,
    pub id: EventId,
    pub event: Pdu,
}

/// One line of JSON that tells of an event that was offered and not kept, in canonical form and with its newline.
/// `AllocError` where no memory is left.
pub fn refused_line(alloc: Global, refused: &RefusedEvent) -> Result<Vec<u8>, AllocError>
    ensures { IfOk result (λ line. line.items ≡ definition.refused_text refused.now) }
{
    let content = content_text(alloc, &refused.event)?;
    let mut line = TextBuffer::new(alloc);
    write_refused(&mut line, refused, &content);
    let bytes = line.into_bytes()?;
    Ok(bytes)
}

fn write_refused<S: TextSink>(sink: &mut S, refused: &RefusedEvent, content: &[u8])
    requires { content.now ≡ canonical_text (content_of refused.now.event) }
    ensures { (taken : List ℕ) → S.has_taken sink.old taken
        → S.has_taken sink.new (taken ++ definition.refused_text refused.now) }
{
    write_head(sink, refused);
    write_content(sink, is_state(&refused.event), content);
    write_middle(sink, refused);
    write_tail(sink, refused);
    end_line(sink);
}

fn write_head<S: TextSink>(sink: &mut S, refused: &RefusedEvent)
    ensures { (taken : List ℕ) → S.has_taken sink.old taken
        → S.has_taken sink.new (definition.head_written taken refused.now) }
{
    open_line(sink, b"after");
    write_number(sink, refused.offering.after as u64);
    write_ids_member(sink, b"auth_events", refused.event.auth_events());
    write_text_member(sink, b"because", refused.cause.text().as_bytes());
}

fn write_middle<S: TextSink>(sink: &mut S, refused: &RefusedEvent)
    ensures { (taken : List ℕ) → S.has_taken sink.old taken
        → S.has_taken sink.new (with_members taken (definition.refused_middle refused.now)) }
{
    write_text_member(
        sink,
        b"content_hash",
        hash_name(refused.event.hash_holds()).as_bytes(),
    );
    write_number_member(sink, b"depth", refused.event.depth());
    write_text_member(sink, b"event_id", refused.id.as_str().as_bytes());
    write_text_if(sink, b"membership", membership_told(&refused.event));
    write_missing(sink, &refused.missing);
    write_text_if(sink, b"origin", origin_of(&refused.offering));
    write_time(sink, &refused.event);
}

/// Gives the sink the time of an event, as the later member `origin_server_ts`.
pub fn write_time<S: TextSink>(sink: &mut S, event: &Pdu)
    ensures { (taken : List ℕ) → S.has_taken sink.old taken → S.has_taken sink.new
        (with_member taken (codes "origin_server_ts", Some (number (of_integer (timestamp_of event.now))))) }
{
    write_integer_member(sink, b"origin_server_ts", event.origin_server_ts());
}

fn write_tail<S: TextSink>(sink: &mut S, refused: &RefusedEvent)
    ensures { (taken : List ℕ) → S.has_taken sink.old taken
        → S.has_taken sink.new (with_members taken (definition.refused_tail refused.now)) }
{
    write_ids_member(sink, b"prev_events", refused.event.prev_events());
    write_text_member(sink, b"sender", refused.event.sender().as_str().as_bytes());
    write_text_if(sink, b"state_key", refused.event.state_key());
    write_text_if(sink, b"transaction", transaction_of(&refused.offering));
    write_text_member(sink, b"type", refused.event.kind().as_bytes());
    write_text_member(sink, b"verdict", b"refused");
}

fn is_state(event: &Pdu) -> bool
    ensures { result ≡ is_state_event event.now }
{
    match event.state_key() {
        Some(_) => true,
        None => false,
    }
}

// Gives the sink the ids of the events that are missing, where some are.
fn write_missing<S: TextSink>(sink: &mut S, missing: &[EventId])
    ensures { (taken : List ℕ) → S.has_taken sink.old taken
        → S.has_taken sink.new (with_member taken (codes "missing", definition.some_ids missing.now)) }
{
    if !missing.is_empty() {
        write_ids_member(sink, b"missing", missing);
    }
}

pub(crate) fn origin_of(offering: &Offering) -> Option<&str>
    ensures { option_map (λ text. text.now) result ≡ offering.now.origin }
{
    match &offering.origin {
        Some(origin) => Some(origin.as_str()),
        None => None,
    }
}

pub(crate) fn transaction_of(offering: &Offering) -> Option<&str>
    ensures { option_map (λ text. text.now) result ≡ option_map string_bytes offering.now.transaction }
{
    match &offering.transaction {
        Some(transaction) => Some(transaction.as_str()),
        None => None,
    }
}

/// The membership that an event gives, where it is a member event.
pub fn membership_told(event: &Pdu) -> Option<&str>
    ensures { option_map (λ text. text.now) result ≡ definition.membership_told event.now }
{
    if event.kind() == "m.room.member" {
        membership_of(event)
    } else {
        None
    }
}

fn membership_of(event: &Pdu) -> Option<&str>
    ensures { option_map (λ text. text.now) result ≡ membership_in event.now }
{
    text_field(event.content(), "membership")
}
