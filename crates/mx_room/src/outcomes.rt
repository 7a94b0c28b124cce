// What becomes of an offered event.
ghost use Rattle.std.specs.Prelude.{◌≡◌};

use mx_receipt::Verdict;

/// Why a room does not keep an offered event, in the order in which it is asked.
///
/// `AccessList`: the room's access control list denies the server that offers it. `SecondCreate`: it is a create event.
/// `Signature`: its signatures were refused. `MissingEvents`: an event that it follows or rests on is not held.
/// `RoomFull`: the room has 50,000 events.
///
/// Source: the Matrix specification, Server-Server API, "Checks performed on receipt of a PDU".
#[derive(Clone, Copy, Debug, PartialEq, Eq)]
pub enum Refusal {
    AccessList,
    SecondCreate,
    Signature,
    MissingEvents,
    RoomFull,
}

impl Refusal {
    ghost use Rattle.mx_room.specs.Refusals.{refusal_text};

    /// What a transaction's reply says of an event that is refused so.
    pub fn text(self) -> &'static str
        ensures { result.now ≡ refusal_text self }
    {
        match self {
            Refusal::AccessList => "server acl",
            Refusal::SecondCreate => "second create",
            Refusal::Signature => "signature",
            Refusal::MissingEvents => "missing events",
            Refusal::RoomFull => "room full",
        }
    }
}

/// What becomes of an offered event: it is kept under a verdict, or known already under one, or refused.
#[derive(Clone, Copy, Debug, PartialEq, Eq)]
pub enum Outcome {
    Kept(Verdict),
    Known(Verdict),
    Refused(Refusal),
}
