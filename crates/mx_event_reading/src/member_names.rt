// The names of an event's members.
ghost use Rattle.std.specs.Prelude.{◌≡◌};
ghost use Rattle.mx_event_reading.specs.OpenTexts.{member_name};

use mx_redact::EventKey;

/// The name that a key stands for; none for `Other`.
pub(crate) fn name_of(key: EventKey) -> &'static str
    ensures { result.now ≡ member_name key }
{
    match key {
        EventKey::AuthEvents => "auth_events",
        EventKey::Content => "content",
        EventKey::Depth => "depth",
        EventKey::EventId => "event_id",
        EventKey::Hashes => "hashes",
        EventKey::Membership => "membership",
        EventKey::Origin => "origin",
        EventKey::OriginServerTs => "origin_server_ts",
        EventKey::PrevEvents => "prev_events",
        EventKey::PrevState => "prev_state",
        EventKey::Redacts => "redacts",
        EventKey::RoomId => "room_id",
        EventKey::Sender => "sender",
        EventKey::Signatures => "signatures",
        EventKey::StateKey => "state_key",
        EventKey::Kind => "type",
        EventKey::Unsigned => "unsigned",
        EventKey::Other => "",
    }
}
