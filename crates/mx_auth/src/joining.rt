// The judgement of a join for which there is no event yet.
ghost use Rattle.std.specs.Prelude.{◌≡◌};
ghost use Rattle.std.specs.Result.{result_err};
ghost use Rattle.mx_redact.specs.Fields.{Event};
ghost use Rattle.mx_pdu.specs.Event.{prev_ids};
ghost use Rattle.mx_auth.specs.Joins.{IsOwnJoin};
ghost use Rattle.mx_auth.specs.Rules.{all_are, rules};

use crate::events::keeps_out;
use crate::memberships::judge_join_of;
use crate::refusals::Rule;
use crate::states::{RoomState, create_event};
use crate::versions::RoomVersion;
use mx_ident::UserId;

/// Judges a join that a user would make of its own, on a state of a room of this version: `Ok` where the rules allow
/// it. It takes no memory.
///
/// `follows_create_alone` says whether the join has prev events, and each of them is the create event of the state. The
/// error is the line of the rules that would reject the join, as [`judge`](crate::judge) gives it of an event.
///
/// Source: the Matrix specification, Room Version 6 and Room Version 7, "Authorization rules", rule 4.
pub fn judge_own_join<S: RoomState>(
    version: RoomVersion,
    user: &UserId,
    follows_create_alone: bool,
    state: &S,
) -> Result<(), Rule>
    ensures { (event : Event) → IsOwnJoin user.now event
        → all_are (S.state state.now).create_id (prev_ids event) ≡ follows_create_alone
        → result_err result ≡ rules version event (S.state state.now) }
{
    let Some(create) = create_event(state) else {
        return Err(Rule::StateWithoutCreate);
    };
    if keeps_out(create, user.server()) {
        return Err(Rule::RoomNotFederated);
    }
    judge_join_of(
        version,
        user.as_str(),
        user.as_str(),
        follows_create_alone,
        state,
    )
}
