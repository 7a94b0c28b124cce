// The faults of a request: what is told in place of an answer.
ghost use Rattle.std.specs.Prelude.{◌≡◌, ◌++◌, IfOk, List, ℕ, string_bytes};
ghost use Rattle.mx_requests.specs.Faults as definition;
ghost use Rattle.mx_requests.specs.Faults.{fault_body, fault_code, fault_status, fault_text, invalid_name, missing_name};
ghost use Rattle.mx_requests.specs.Bodies.{body_end, denied_end};

use mx_canon::{TextBuffer, TextSink, write_key, write_string};
use mx_room::{Denied, Refusal};
use std::alloc::{AllocError, Global};

/// A parameter of a query that a request has to have.
#[derive(Clone, Copy, Debug, PartialEq, Eq, Drop)]
pub enum MissingParameter {
    EventId,
    // The events from which a backfill starts.
    V,
    Limit,
}

/// What is invalid about a request whose form is right.
#[derive(Clone, Copy, Debug, PartialEq, Eq, Drop)]
pub enum InvalidPart {
    RoomId,
    UserId,
    EventId,
    Limit,
    Event,
    // The number of a transaction is not UTF-8.
    Path,
}

/// What a request is told in place of an answer: a status, a code, a text, and a body that has the last two.
///
/// Source: the section "Standard error response" of the Server-Server API of the Matrix specification.
#[derive(Clone, Copy, Debug, PartialEq, Eq, Drop)]
pub enum Fault {
    // The body is not JSON.
    NotJson,
    // The body is JSON of another form than the route's.
    WrongForm,
    // The query lacks a parameter.
    Missing(MissingParameter),
    // A part of the request is not of its kind.
    Invalid(InvalidPart),
    // The request has no header that names the server from which it comes.
    NoOrigin,
    // The request is for another server.
    WrongDestination,
    // The room denies what is asked for, or has nothing of it to show.
    Denied(Denied),
    // The room refuses the event before it is judged.
    Refused(Refusal),
    // No route has this path.
    UnknownPath,
    // The route has another method.
    UnknownMethod,
    // The body is over the limit.
    TooLarge,
    // No memory was left.
    Memory,
    // The keeper failed.
    Storage,
    // The transaction is open just now.
    Busy,
}

impl From<AllocError> for Fault {
    ghost use Rattle.std.specs.Prelude.{◌≡◌};
    ghost use Rattle.mx_requests.specs.declared.faults.Fault.TheVariants.{Memory};

    ghost from_gives = { λ _ fault. fault ≡ Memory };

    fn from(_refused: AllocError) -> Fault {
        Fault::Memory
    }
}

impl MissingParameter {
    /// The parameter's name.
    pub(crate) fn name(self) -> &'static str
        ensures { result.now ≡ missing_name self }
    {
        match self {
            MissingParameter::EventId => "event_id",
            MissingParameter::V => "v",
            MissingParameter::Limit => "limit",
        }
    }
}

impl InvalidPart {
    /// The words for the part.
    pub(crate) fn name(self) -> &'static str
        ensures { result.now ≡ invalid_name self }
    {
        match self {
            InvalidPart::RoomId => "room id",
            InvalidPart::UserId => "user id",
            InvalidPart::EventId => "event id",
            InvalidPart::Limit => "limit",
            InvalidPart::Event => "event",
            InvalidPart::Path => "path",
        }
    }
}

impl Fault {
    /// The status of the response, a number of HTTP.
    pub(crate) fn status(self) -> u16
        ensures { result ≡ fault_status self }
    {
        match self {
            Fault::NotJson | Fault::WrongForm | Fault::Missing(_) | Fault::Invalid(_) => 400,
            Fault::NoOrigin | Fault::WrongDestination => 401,
            Fault::Denied(denied) => denied_status(denied),
            Fault::Refused(_) => 403,
            Fault::UnknownPath => 404,
            Fault::UnknownMethod => 405,
            Fault::TooLarge => 413,
            Fault::Memory | Fault::Storage | Fault::Busy => 503,
        }
    }

    /// The code of the error, as `M_NOT_FOUND`, which the body has at `errcode`.
    pub(crate) fn code(self) -> &'static str
        ensures { result.now ≡ fault_code self }
    {
        match self {
            Fault::NotJson => "M_NOT_JSON",
            Fault::WrongForm => "M_BAD_JSON",
            Fault::Missing(_) => "M_MISSING_PARAM",
            Fault::Invalid(_) => "M_INVALID_PARAM",
            Fault::NoOrigin | Fault::WrongDestination => "M_UNAUTHORIZED",
            Fault::Denied(denied) => denied_code(denied),
            Fault::Refused(_) => "M_FORBIDDEN",
            Fault::UnknownPath | Fault::UnknownMethod => "M_UNRECOGNIZED",
            Fault::TooLarge => "M_TOO_LARGE",
            Fault::Memory | Fault::Storage | Fault::Busy => "M_UNKNOWN",
        }
    }

    /// The text of the error, which the body has at `error`.
    pub(crate) fn text(self, alloc: Global) -> Result<String, AllocError>
        ensures { IfOk result (λ text. string_bytes text ≡ fault_text self) }
    {
        let (lead, rest) = self.words();
        let mut text = String::from_str(alloc, lead)?;
        text.push_str(rest)?;
        Ok(text)
    }

    // The text in two pieces.
    fn words(self) -> (&'static str, &'static str)
        ensures { result.0.now ++ result.1.now ≡ fault_text self }
    {
        match self {
            Fault::NotJson => ("body is not JSON", ""),
            Fault::WrongForm => ("body has a wrong form", ""),
            Fault::Missing(parameter) => ("missing ", parameter.name()),
            Fault::Invalid(part) => ("invalid ", part.name()),
            Fault::NoOrigin => ("no origin", ""),
            Fault::WrongDestination => ("wrong destination", ""),
            Fault::Denied(denied) => denied_words(denied),
            Fault::Refused(refusal) => (refusal.text(), ""),
            Fault::UnknownPath => ("unknown path", ""),
            Fault::UnknownMethod => ("unknown method", ""),
            Fault::TooLarge => ("body over 8 MiB", ""),
            Fault::Memory => ("memory", ""),
            Fault::Storage => ("storage", ""),
            Fault::Busy => ("busy", ""),
        }
    }

    /// The body of the response, in canonical JSON.
    ///
    /// `AllocError` where no memory was left; [`memory_body`] needs none.
    pub(crate) fn body(self, alloc: Global) -> Result<Vec<u8>, AllocError>
        ensures { IfOk result (λ body. body.items ≡ fault_body self) }
    {
        let text = self.text(alloc)?;
        let mut body = TextBuffer::new(alloc);
        write_body(&mut body, self, text.as_bytes());
        let bytes = body.into_bytes()?;
        Ok(bytes)
    }
}

fn denied_status(denied: Denied) -> u16
    ensures { result ≡ definition.denied_status denied }
{
    match denied {
        Denied::WrongVersion(_) => 400,
        Denied::NotFound => 404,
        Denied::AccessList | Denied::NotInRoom | Denied::OtherServer | Denied::Rule(_) => 403,
    }
}

fn denied_code(denied: Denied) -> &'static str
    ensures { result.now ≡ definition.denied_code denied }
{
    match denied {
        Denied::WrongVersion(_) => "M_INCOMPATIBLE_ROOM_VERSION",
        Denied::NotFound => "M_NOT_FOUND",
        Denied::AccessList | Denied::NotInRoom | Denied::OtherServer | Denied::Rule(_) =>
            "M_FORBIDDEN",
    }
}

// The text in two pieces.
fn denied_words(denied: Denied) -> (&'static str, &'static str)
    ensures { result.0.now ++ result.1.now ≡ definition.denied_text denied }
{
    match denied {
        Denied::AccessList => ("server acl", ""),
        Denied::NotInRoom => ("not in room", ""),
        Denied::NotFound => ("not found", ""),
        Denied::OtherServer => ("user of another server", ""),
        Denied::WrongVersion(_) => ("room version", ""),
        Denied::Rule(rule) => ("rule ", rule.label()),
    }
}

// Gives the sink the body of a fault that has this text.
fn write_body<S: TextSink>(sink: &mut S, fault: Fault, text: &[u8])
    requires { text.now ≡ fault_text fault }
    ensures { (taken : List ℕ) → S.has_taken sink.old taken → S.has_taken sink.new (taken ++ fault_body fault) }
{
    sink.put(b"{");
    write_key(sink, false, b"errcode");
    write_string(sink, fault.code().as_bytes());
    write_key(sink, true, b"error");
    write_string(sink, text);
    close_body(sink, fault);
}

// The members that some faults have beside these two, and the end.
fn close_body<S: TextSink>(sink: &mut S, fault: Fault)
    ensures { (taken : List ℕ) → S.has_taken sink.old taken → S.has_taken sink.new (taken ++ body_end fault) }
{
    match fault {
        Fault::Denied(denied) => close_denied(sink, denied),
        _ => sink.put(b"}"),
    }
}

fn close_denied<S: TextSink>(sink: &mut S, denied: Denied)
    ensures { (taken : List ℕ) → S.has_taken sink.old taken → S.has_taken sink.new (taken ++ denied_end denied) }
{
    if let Denied::WrongVersion(version) = denied {
        sink.put(b",\"room_version\":\"");
        sink.put(version.text().as_bytes());
        sink.put(b"\"}");
    } else {
        sink.put(b"}");
    }
}

/// The body of [`Fault::Memory`], which needs no memory.
pub fn memory_body() -> &'static [u8]
    ensures { result.now ≡ fault_body Fault.Memory }
{
    b"{\"errcode\":\"M_UNKNOWN\",\"error\":\"memory\"}"
}

/// The body of [`Fault::Storage`], which needs no memory.
pub(crate) fn storage_body() -> &'static [u8]
    ensures { result.now ≡ fault_body Fault.Storage }
{
    b"{\"errcode\":\"M_UNKNOWN\",\"error\":\"storage\"}"
}
