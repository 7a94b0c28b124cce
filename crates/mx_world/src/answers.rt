// What is told of an event.
ghost use Rattle.std.specs.Prelude.{◌≡◌};
ghost use Rattle.mx_world.specs.Replies.{outcome_told};

use mx_ident::EventId;
use mx_room::Outcome;
use mx_shard::Answer;

/// The id of an offered event, and what became of it; none where its room is not hosted.
#[derive(Debug, Drop)]
pub struct Told {
    pub id: EventId,
    pub outcome: Option<Outcome>,
}

/// What a room's answer to an offered event tells of it; nothing where its room is not hosted.
///
/// Other answers are never given to an offer, and tell nothing.
pub fn outcome_of(answer: Answer) -> Option<Outcome>
    ensures { result ≡ outcome_told answer }
{
    match answer {
        Answer::ToOffered(outcome) => Some(outcome),
        _ => None,
    }
}
