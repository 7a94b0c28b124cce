// Versions of rooms.
ghost use Rattle.std.specs.Prelude.{◌≡◌};
ghost use Rattle.mx_auth.specs.Versions.{has_knocks as has_knocks_in, version_of, version_text};

use crate::contents::content_text;
use mx_pdu::Pdu;

/// A version of rooms whose rules are known here. Version 7 adds knocking to version 6.
///
/// Source: the Matrix specification, Room Version 6 and Room Version 7.
#[derive(Clone, Copy, Debug, PartialEq, Eq)]
pub enum RoomVersion {
    V6,
    V7,
}

impl RoomVersion {
    /// The version of a room by its create event, where `room_version` there names one of these. It takes no memory.
    ///
    /// Source: the Matrix specification, `m.room.create`.
    pub fn of(create: &Pdu) -> Option<RoomVersion>
        ensures { result ≡ version_of create.now }
    {
        match content_text(create, "room_version") {
            Some("6") => Some(RoomVersion::V6),
            Some("7") => Some(RoomVersion::V7),
            _ => None,
        }
    }

    /// The version as `room_version` writes it. It takes no memory.
    pub fn text(self) -> &'static str
        ensures { result.now ≡ version_text self }
    {
        match self {
            RoomVersion::V6 => "6",
            RoomVersion::V7 => "7",
        }
    }

    /// Whether such rooms know the membership `knock`.
    pub(crate) fn has_knocks(self) -> bool
        ensures { result ≡ has_knocks_in self }
    {
        match self {
            RoomVersion::V6 => false,
            RoomVersion::V7 => true,
        }
    }
}
