// The rules of create events.
ghost use Rattle.std.specs.Prelude.{◌≡◌};
ghost use Rattle.std.specs.Result.{result_err};
ghost use Rattle.mx_auth.specs.Rules.{first_line, create_lines};

use crate::contents::content_text;
use crate::refusals::Rule;
use crate::versions::RoomVersion;
use mx_pdu::Pdu;

/// Judges a create event.
#[tactic(auto, unfolding(crate::specs::Rules::create_lines))]
pub(crate) fn judge_create(event: &Pdu) -> Result<(), Rule>
    ensures { result_err result ≡ first_line (create_lines event.now) }
{
    if !event.prev_events().is_empty() {
        return Err(Rule::CreateHasPrevEvents);
    }
    if event.room_id().server() != event.sender().server() {
        return Err(Rule::CreateOfAnotherServer);
    }
    if RoomVersion::of(event).is_none() {
        return Err(Rule::CreateVersionUnknown);
    }
    if content_text(event, "creator").is_none() {
        return Err(Rule::CreateWithoutCreator);
    }
    Ok(())
}
