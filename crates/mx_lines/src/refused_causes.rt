// Why events that were offered were not kept.
ghost use Rattle.std.specs.Prelude.{◌≡◌};
ghost use Rattle.mx_lines.specs.RefusedCauses.{cause_text};

/// Why an event that was offered was not kept.
///
/// `UnknownRoom`: its room is not hosted. `AccessList`, `SecondCreate`, `Signature`, `MissingEvents` and `RoomFull`: its
/// room refused it. `UserOfAnotherServer`: it was sent as a join, and its sender is not of the server that sent it. The
/// others are of events that were to begin a room; those with a name of a rule broke it.
///
/// Source: the Matrix specification, Server-Server API, "Checks performed on receipt of a PDU" and "Joining Rooms", and Room
/// Version 6, "Authorization rules", rule 1.
#[derive(Clone, Copy, Debug, PartialEq, Eq)]
pub enum RefusedCause {
    UnknownRoom,
    AccessList,
    SecondCreate,
    Signature,
    MissingEvents,
    RoomFull,
    UserOfAnotherServer,
    NotACreateEvent,
    CitesAuthEvents,
    ContentHash,
    CreateHasPrevEvents,
    CreateOfAnotherServer,
    CreateVersionUnknown,
    CreateWithoutCreator,
}

impl RefusedCause {
    /// The cause in words.
    pub fn text(self) -> &'static str
        ensures { result.now ≡ cause_text self }
    {
        match self {
            RefusedCause::UnknownRoom => "unknown room",
            RefusedCause::AccessList => "server acl",
            RefusedCause::SecondCreate => "second create",
            RefusedCause::Signature => "signature",
            RefusedCause::MissingEvents => "missing events",
            RefusedCause::RoomFull => "room full",
            RefusedCause::UserOfAnotherServer => "user of another server",
            RefusedCause::NotACreateEvent => "not a create event",
            RefusedCause::CitesAuthEvents => "a create event cites auth events",
            RefusedCause::ContentHash => "content hash",
            RefusedCause::CreateHasPrevEvents => "rule A1.1: a create event has a prev event",
            RefusedCause::CreateOfAnotherServer =>
                "rule A1.2: the server of the room id is not that of the sender",
            RefusedCause::CreateVersionUnknown =>
                "rule A1.3: rooms of versions 6 and 7 are hosted, and of no other",
            RefusedCause::CreateWithoutCreator => "rule A1.4: a create event has no text creator",
        }
    }
}
