// The checks on receipt of an event.
ghost use Rattle.std.specs.Prelude.{◌≡◌};
ghost use Rattle.mx_audit.specs.Explaining as definition;

use mx_auth::Rule;
use mx_receipt::Verdict;

/// A check on receipt of an event that asks the authorization rules, by the state that it judges the event on.
///
/// `AuthEvents`: check 4, on the events that it cites as its auth events, and then on the state that these make.
/// `StateBefore`: check 5, on the state before it. `CurrentState`: check 6, on the room's current state as it comes.
///
/// Source: the Matrix specification, Server-Server API, "Checks performed on receipt of a PDU".
#[derive(Clone, Copy, Debug, PartialEq, Eq)]
pub enum Check {
    AuthEvents,
    StateBefore,
    CurrentState,
}

/// A check that an event fails, and the line of the rules that does not allow the event there.
#[derive(Clone, Copy, Debug, PartialEq, Eq)]
pub struct FailedCheck {
    pub check: Check,
    pub rule: Rule,
}

impl FailedCheck {
    /// The verdict on an event that fails this check, and none before it.
    pub fn verdict(self) -> Verdict
        ensures { result ≡ definition.verdict_at self.check self.rule }
    {
        match self.check {
            Check::AuthEvents => Verdict::Rejected(self.rule),
            Check::StateBefore => Verdict::Rejected(self.rule),
            Check::CurrentState => Verdict::SoftFailed(self.rule),
        }
    }
}
