// What a server did, or what happened to it.
ghost use Rattle.std.specs.Prelude.{◌≡◌, nat_eq};
ghost use Rattle.std.specs.List.{starts_with};
ghost use Rattle.mx_records.specs.Records as definition;

use log::Level;
use mx_ident::{EventId, RoomId, ServerName, UserId};
use mx_metrics::RouteLabel;

/// A request, and what it was answered. The origin stands there where the request has a sound one, and the room where it is about
/// one alone.
#[derive(Debug, Drop)]
pub struct AnsweredRequest {
    pub origin: Option<ServerName>,
    pub method: &'static str,
    pub route: RouteLabel,
    pub room: Option<RoomId>,
    pub status: u16,
    pub milliseconds: u64,
    // How many bytes the reply's body has.
    pub bytes: u64,
}

/// How an event was not taken: it was refused, and is not kept; or the rules rejected it.
#[derive(Clone, Copy, Debug, PartialEq, Eq)]
pub enum NotTaken {
    Refused,
    Rejected,
}

/// An event that was refused or rejected, who offered it, and why.
#[derive(Debug, Drop)]
pub struct EventNotTaken {
    pub how: NotTaken,
    pub origin: ServerName,
    pub id: EventId,
    pub room: RoomId,
    pub sender: UserId,
    // As the reply tells it.
    pub cause: String,
}

/// What happened to a server.
///
/// `Started`: it serves. `FileFailed`: a file of rows can't be written or read any more. `ConnectionsClosed`: connections were
/// closed to make room. `Warning`: something will fail unless somebody acts. `Told`: any other line for who runs the server.
#[derive(Clone, Copy, Debug, PartialEq, Eq)]
pub enum NoticeKind {
    Started,
    FileFailed,
    ConnectionsClosed,
    Warning,
    Told,
}

/// What happened to a server, and about what.
#[derive(Debug, Drop)]
pub struct Notice {
    pub kind: NoticeKind,
    pub text: String,
}

/// What a record is of.
#[derive(Debug, Drop)]
pub enum Subject {
    Request(AnsweredRequest),
    Event(EventNotTaken),
    Notice(Notice),
}

impl Subject {
    /// What kind of subject it is, in words.
    pub(crate) fn kind(&self) -> &'static str
        ensures { result.now ≡ definition.kind_text self.now }
    {
        match self {
            Subject::Request(_) => "request",
            Subject::Event(event) => event.how.name(),
            Subject::Notice(notice) => notice.kind.name(),
        }
    }

    /// How much it matters.
    pub(crate) fn level(&self) -> Level
        ensures { result ≡ definition.level_of self.now }
    {
        match self {
            Subject::Request(request) => level_of_status(request.status),
            Subject::Event(_) => Level::Info,
            Subject::Notice(notice) => notice.kind.level(),
        }
    }
}

impl NotTaken {
    fn name(self) -> &'static str
        ensures { result.now ≡ definition.not_taken_text self }
    {
        match self {
            NotTaken::Refused => "refused",
            NotTaken::Rejected => "rejected",
        }
    }
}

impl NoticeKind {
    /// The kind of a line for who runs the server, by how the line begins.
    pub fn of_line(line: &str) -> NoticeKind
        ensures { result ≡ definition.notice_of line.now }
    {
        if begins_with(line, b"serving ") {
            NoticeKind::Started
        } else if begins_with(line, b"storage: ") {
            NoticeKind::FileFailed
        } else if begins_with(line, b"memory: ") {
            NoticeKind::ConnectionsClosed
        } else if begins_with(line, b"warning: ") {
            NoticeKind::Warning
        } else {
            NoticeKind::Told
        }
    }

    fn name(self) -> &'static str
        ensures { result.now ≡ definition.notice_text self }
    {
        match self {
            NoticeKind::Started => "started",
            NoticeKind::FileFailed => "file_failed",
            NoticeKind::ConnectionsClosed => "connections_closed",
            NoticeKind::Warning => "warning",
            NoticeKind::Told => "told",
        }
    }

    fn level(self) -> Level
        ensures { result ≡ definition.notice_level self }
    {
        match self {
            NoticeKind::Started => Level::Info,
            NoticeKind::ConnectionsClosed | NoticeKind::Warning | NoticeKind::Told => Level::Warn,
            NoticeKind::FileFailed => Level::Error,
        }
    }
}

fn begins_with(line: &str, beginning: &[u8]) -> bool
    ensures { result ≡ starts_with nat_eq line.now beginning.now }
{
    line.as_bytes().starts_with(beginning)
}

// A reply of status 500 and more is the server's want.
fn level_of_status(status: u16) -> Level
    ensures { result ≡ definition.status_level status }
{
    if status < 500 {
        Level::Info
    } else {
        Level::Warn
    }
}

/// A record of what happened, at a moment in milliseconds since 1970.
#[derive(Debug, Drop)]
pub struct Record {
    pub at: u64,
    pub subject: Subject,
}

impl Record {
    /// How much it matters.
    pub fn level(&self) -> Level
        ensures { result ≡ definition.level_of self.now.subject }
    {
        self.subject.level()
    }
}
