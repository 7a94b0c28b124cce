// A room's answers.
ghost use Rattle.std.specs.Prelude.{◌≡◌};
ghost use Rattle.mx_shard.specs.Told.{tells_shown};

use mx_ident::EventId;
use mx_room::{Denied, JoinReply, NotARoom, Outcome, QueryReply};

/// What a room answers to a call.
///
/// `NotHosted`: the room is not hosted. `Hosted`: it is hosted from now on, by the event with this id. `AlreadyHosted`:
/// it was hosted, by the create event with this id. `NotHost`: the event makes no room. `ToOffered`: what became of an
/// offered event. `ToJoined`: the reply to a join. `ToAsked`: what a query gives.
#[derive(Debug, Drop)]
pub enum Answer {
    NotHosted,
    Hosted(EventId),
    AlreadyHosted(EventId),
    NotHost(NotARoom),
    ToOffered(Outcome),
    ToJoined(JoinReply),
    ToAsked(Result<QueryReply, Denied>),
}

impl Answer {
    /// Whether it is what a query gives, and no denial.
    pub fn is_shown(&self) -> bool
        ensures { result ≡ tells_shown self.now }
    {
        matches!(self, Answer::ToAsked(Ok(_)))
    }
}
