// The keys of an event.
ghost use Rattle.std.specs.Prelude.{◌≡◌};
ghost use Rattle.mx_redact.specs.EventKeys.{key_of};

/// A key of an event, as far as hashes, redaction and the format ask for it; each other key is `Other`.
///
/// Source: the Matrix specification, Room Version 6, "Event format" and "Redactions".
#[derive(Clone, Copy, Debug, PartialEq, Eq)]
pub enum EventKey {
    AuthEvents,
    Content,
    Depth,
    EventId,
    Hashes,
    Membership,
    Origin,
    OriginServerTs,
    PrevEvents,
    PrevState,
    Redacts,
    RoomId,
    Sender,
    Signatures,
    StateKey,
    Kind,
    Unsigned,
    Other,
}

impl EventKey {
    /// The key that a text names.
    #[tactic(auto, unfolding(crate::specs::EventKeys::key_of))]
    pub fn of(key: &str) -> EventKey
        ensures { result ≡ key_of key.now }
    {
        match key {
            "auth_events" => EventKey::AuthEvents,
            "content" => EventKey::Content,
            "depth" => EventKey::Depth,
            "event_id" => EventKey::EventId,
            "hashes" => EventKey::Hashes,
            "membership" => EventKey::Membership,
            "origin" => EventKey::Origin,
            "origin_server_ts" => EventKey::OriginServerTs,
            "prev_events" => EventKey::PrevEvents,
            "prev_state" => EventKey::PrevState,
            "redacts" => EventKey::Redacts,
            "room_id" => EventKey::RoomId,
            "sender" => EventKey::Sender,
            "signatures" => EventKey::Signatures,
            "state_key" => EventKey::StateKey,
            "type" => EventKey::Kind,
            "unsigned" => EventKey::Unsigned,
            _ => EventKey::Other,
        }
    }
}
