// What is counted apart, in words.
ghost use Rattle.std.specs.Prelude.{◌≡◌, ◌<◌};
ghost use Rattle.mx_metrics.specs.Labels as definition;

/// What a request asked: one of the routes of the Server-Server API; `Unknown` stands for any other path.
#[derive(Clone, Copy, Debug, PartialEq, Eq)]
pub enum RouteLabel {
    Send,
    Event,
    State,
    StateIds,
    EventAuth,
    Backfill,
    GetMissingEvents,
    MakeJoin,
    SendJoin,
    Unknown,
}

impl RouteLabel {
    /// All of them, by their numbers.
    pub const ALL: [RouteLabel; 10] = [
        RouteLabel::Send,
        RouteLabel::Event,
        RouteLabel::State,
        RouteLabel::StateIds,
        RouteLabel::EventAuth,
        RouteLabel::Backfill,
        RouteLabel::GetMissingEvents,
        RouteLabel::MakeJoin,
        RouteLabel::SendJoin,
        RouteLabel::Unknown,
    ];

    /// Its number, from 0.
    pub fn number(self) -> usize
        ensures number { result ≡ definition.route_number self }
        ensures below { result < 10 }
    {
        match self {
            RouteLabel::Send => 0,
            RouteLabel::Event => 1,
            RouteLabel::State => 2,
            RouteLabel::StateIds => 3,
            RouteLabel::EventAuth => 4,
            RouteLabel::Backfill => 5,
            RouteLabel::GetMissingEvents => 6,
            RouteLabel::MakeJoin => 7,
            RouteLabel::SendJoin => 8,
            RouteLabel::Unknown => 9,
        }
    }

    /// Its name: the segment of its path that names it.
    pub fn name(self) -> &'static str
        ensures { result.now ≡ definition.route_name self }
    {
        match self {
            RouteLabel::Send => "send",
            RouteLabel::Event => "event",
            RouteLabel::State => "state",
            RouteLabel::StateIds => "state_ids",
            RouteLabel::EventAuth => "event_auth",
            RouteLabel::Backfill => "backfill",
            RouteLabel::GetMissingEvents => "get_missing_events",
            RouteLabel::MakeJoin => "make_join",
            RouteLabel::SendJoin => "send_join",
            RouteLabel::Unknown => "unknown",
        }
    }
}

/// The status of a reply. `Other` stands for one that the server does not give.
#[derive(Clone, Copy, Debug, PartialEq, Eq)]
pub enum StatusLabel {
    Ok,
    BadRequest,
    Unauthorized,
    Forbidden,
    NotFound,
    MethodNotAllowed,
    TooLarge,
    NotImplemented,
    Unavailable,
    Other,
}

impl StatusLabel {
    /// All of them, by their numbers.
    pub const ALL: [StatusLabel; 10] = [
        StatusLabel::Ok,
        StatusLabel::BadRequest,
        StatusLabel::Unauthorized,
        StatusLabel::Forbidden,
        StatusLabel::NotFound,
        StatusLabel::MethodNotAllowed,
        StatusLabel::TooLarge,
        StatusLabel::NotImplemented,
        StatusLabel::Unavailable,
        StatusLabel::Other,
    ];

    /// The label of a status of HTTP.
    pub fn of(status: u16) -> StatusLabel
        ensures { result ≡ definition.status_of status }
    {
        match status {
            200 => StatusLabel::Ok,
            400 => StatusLabel::BadRequest,
            401 => StatusLabel::Unauthorized,
            403 => StatusLabel::Forbidden,
            404 => StatusLabel::NotFound,
            405 => StatusLabel::MethodNotAllowed,
            413 => StatusLabel::TooLarge,
            501 => StatusLabel::NotImplemented,
            503 => StatusLabel::Unavailable,
            _ => StatusLabel::Other,
        }
    }

    /// Its number, from 0.
    pub fn number(self) -> usize
        ensures number { result ≡ definition.status_number self }
        ensures below { result < 10 }
    {
        match self {
            StatusLabel::Ok => 0,
            StatusLabel::BadRequest => 1,
            StatusLabel::Unauthorized => 2,
            StatusLabel::Forbidden => 3,
            StatusLabel::NotFound => 4,
            StatusLabel::MethodNotAllowed => 5,
            StatusLabel::TooLarge => 6,
            StatusLabel::NotImplemented => 7,
            StatusLabel::Unavailable => 8,
            StatusLabel::Other => 9,
        }
    }

    /// Its name: the digits of the status.
    pub fn name(self) -> &'static str
        ensures { result.now ≡ definition.status_name self }
    {
        match self {
            StatusLabel::Ok => "200",
            StatusLabel::BadRequest => "400",
            StatusLabel::Unauthorized => "401",
            StatusLabel::Forbidden => "403",
            StatusLabel::NotFound => "404",
            StatusLabel::MethodNotAllowed => "405",
            StatusLabel::TooLarge => "413",
            StatusLabel::NotImplemented => "501",
            StatusLabel::Unavailable => "503",
            StatusLabel::Other => "other",
        }
    }
}

/// What became of an event that was offered: it was kept, accepted or soft-failed, or rejected by the rules; or it was refused, for
/// one of six causes.
#[derive(Clone, Copy, Debug, PartialEq, Eq)]
pub enum EventResult {
    Accepted,
    Rejected,
    UnknownRoom,
    AccessList,
    SecondCreate,
    Signature,
    MissingEvents,
    RoomFull,
}

impl EventResult {
    /// What became of an event whose result has this error; none where the text is no such error. An event without an error was
    /// accepted.
    pub fn of_error(error: &str) -> Option<EventResult>
        ensures { result ≡ definition.result_of error.now }
    {
        if error.as_bytes().starts_with(b"rejected: ") {
            Some(EventResult::Rejected)
        } else {
            EventResult::refusal_of(error)
        }
    }

    // Why an event was refused.
    fn refusal_of(error: &str) -> Option<EventResult>
        ensures { result ≡ definition.refusal_of error.now }
    {
        if error == "unknown room" {
            Some(EventResult::UnknownRoom)
        } else if error == "server acl" {
            Some(EventResult::AccessList)
        } else if error == "second create" {
            Some(EventResult::SecondCreate)
        } else if error == "signature" {
            Some(EventResult::Signature)
        } else if error == "missing events" {
            Some(EventResult::MissingEvents)
        } else if error == "room full" {
            Some(EventResult::RoomFull)
        } else {
            None
        }
    }

    /// All of them, by their numbers.
    pub const ALL: [EventResult; 8] = [
        EventResult::Accepted,
        EventResult::Rejected,
        EventResult::UnknownRoom,
        EventResult::AccessList,
        EventResult::SecondCreate,
        EventResult::Signature,
        EventResult::MissingEvents,
        EventResult::RoomFull,
    ];

    /// Its number, from 0.
    pub fn number(self) -> usize
        ensures number { result ≡ definition.result_number self }
        ensures below { result < 8 }
    {
        match self {
            EventResult::Accepted => 0,
            EventResult::Rejected => 1,
            EventResult::UnknownRoom => 2,
            EventResult::AccessList => 3,
            EventResult::SecondCreate => 4,
            EventResult::Signature => 5,
            EventResult::MissingEvents => 6,
            EventResult::RoomFull => 7,
        }
    }

    /// Its name, as replies tell it.
    pub fn name(self) -> &'static str
        ensures { result.now ≡ definition.result_name self }
    {
        match self {
            EventResult::Accepted => "accepted",
            EventResult::Rejected => "rejected",
            EventResult::UnknownRoom => "unknown room",
            EventResult::AccessList => "server acl",
            EventResult::SecondCreate => "second create",
            EventResult::Signature => "signature",
            EventResult::MissingEvents => "missing events",
            EventResult::RoomFull => "room full",
        }
    }
}
