// Values that were offered and are no events.
ghost use Rattle.std.specs.Prelude.{◌≡◌, ◌++◌, ℕ, IfOk, List, option_map};
ghost use Rattle.mx_lines.specs.Malformed as definition;

use crate::line_writing::{end_line, open_line, write_number, write_text_if};
use crate::members::{write_number_member, write_text_member};
use crate::refused_lines::{Offering, origin_of, transaction_of};
use mx_canon::{TextBuffer, TextSink};
use std::alloc::{AllocError, Global};

/// A field of an event.
///
/// Source: the Matrix specification, Room Version 6, "Event format".
#[derive(Clone, Copy, Debug, PartialEq, Eq)]
pub enum EventField {
    AuthEvents,
    Content,
    Depth,
    Hashes,
    OriginServerTs,
    PrevEvents,
    RoomId,
    Sender,
    Signatures,
    StateKey,
    Type,
}

impl EventField {
    /// Its key.
    pub fn name(self) -> &'static str
        ensures { result.now ≡ definition.field_name self }
    {
        match self {
            EventField::AuthEvents => "auth_events",
            EventField::Content => "content",
            EventField::Depth => "depth",
            EventField::Hashes => "hashes",
            EventField::OriginServerTs => "origin_server_ts",
            EventField::PrevEvents => "prev_events",
            EventField::RoomId => "room_id",
            EventField::Sender => "sender",
            EventField::Signatures => "signatures",
            EventField::StateKey => "state_key",
            EventField::Type => "type",
        }
    }
}

/// What keeps a value from being an event: of the whole value, or of one field.
///
/// Source: the Matrix specification, Room Version 6, "Event format", and Client-Server API, "Size limits".
#[derive(Clone, Copy, Debug, PartialEq, Eq)]
pub enum EventFault {
    NotAnObject,
    NotCanonical,
    TooLong,
    Missing,
    WrongKind,
    OverLimit,
    TooDeep,
}

impl EventFault {
    /// The fault in words.
    pub fn text(self) -> &'static str
        ensures { result.now ≡ definition.fault_text self }
    {
        match self {
            EventFault::NotAnObject => "not an object",
            EventFault::NotCanonical => "not canonical",
            EventFault::TooLong => "too long",
            EventFault::Missing => "missing",
            EventFault::WrongKind => "wrong kind",
            EventFault::OverLimit => "over limit",
            EventFault::TooDeep => "nested too deep",
        }
    }
}

/// A value that was offered and is no event: its place in the transaction, from 1, the fault, and the field whose it is.
#[derive(Debug, Drop)]
pub struct MalformedEvent {
    pub offering: Offering,
    pub position: usize,
    pub field: Option<EventField>,
    pub fault: EventFault,
}

/// One line of JSON that tells of a value that was offered and is no event, in canonical form and with its newline.
/// `AllocError` where no memory is left.
pub fn malformed_line(alloc: Global, malformed: &MalformedEvent) -> Result<Vec<u8>, AllocError>
    ensures { IfOk result (λ line. line.items ≡ definition.malformed_text malformed.now) }
{
    let mut line = TextBuffer::new(alloc);
    write_malformed(&mut line, malformed);
    let bytes = line.into_bytes()?;
    Ok(bytes)
}

fn write_malformed<S: TextSink>(sink: &mut S, malformed: &MalformedEvent)
    ensures { (taken : List ℕ) → S.has_taken sink.old taken
        → S.has_taken sink.new (taken ++ definition.malformed_text malformed.now) }
{
    open_line(sink, b"after");
    write_number(sink, malformed.offering.after as u64);
    write_text_member(sink, b"because", b"malformed");
    write_text_member(sink, b"fault", malformed.fault.text().as_bytes());
    write_text_if(sink, b"field", field_name(malformed));
    write_text_if(sink, b"origin", origin_of(&malformed.offering));
    write_number_member(sink, b"position", malformed.position as u64);
    write_text_if(sink, b"transaction", transaction_of(&malformed.offering));
    write_text_member(sink, b"verdict", b"refused");
    end_line(sink);
}

fn field_name(malformed: &MalformedEvent) -> Option<&'static str>
    ensures { option_map (λ text. text.now) result ≡ option_map definition.field_name malformed.now.field }
{
    match malformed.field {
        Some(field) => Some(field.name()),
        None => None,
    }
}
