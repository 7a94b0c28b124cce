// Verdicts on events.
ghost use Rattle.std.specs.Prelude.{◌≡◌};
ghost use Rattle.mx_receipt.specs.Receipt as definition;

use mx_auth::Rule;

/// What a room finds of an event that it keeps.
///
/// `Accepted`: the authorization rules allow it. `SoftFailed`: they allow it in the state before it, and not in the
/// room's current state. `Rejected`: they do not allow it by its auth events, or in the state before it. The rule is the
/// line that does not allow it.
///
/// Source: the Matrix specification, Server-Server API, "Checks performed on receipt of a PDU".
#[derive(Clone, Copy, Debug, PartialEq, Eq)]
pub enum Verdict {
    Accepted,
    SoftFailed(Rule),
    Rejected(Rule),
}

impl Verdict {
    /// Whether the event was accepted.
    pub fn is_accepted(self) -> bool
        ensures { result ≡ definition.is_accepted self }
    {
        match self {
            Verdict::Accepted => true,
            Verdict::SoftFailed(_) => false,
            Verdict::Rejected(_) => false,
        }
    }

    /// Whether the event was rejected.
    pub fn is_rejected(self) -> bool
        ensures { result ≡ definition.is_rejected self }
    {
        match self {
            Verdict::Accepted => false,
            Verdict::SoftFailed(_) => false,
            Verdict::Rejected(_) => true,
        }
    }
}
