// The rules of member events.
ghost use Rattle.std.specs.Prelude.{◌≡◌};
ghost use Rattle.std.specs.Result.{result_err};
ghost use Rattle.mx_auth.specs.Joins.{join_lines_of};
ghost use Rattle.mx_auth.specs.Rules.{first_line, join_lines, invite_lines, leave_lines, ban_lines, knock_lines, member_lines, opens_to_invited as opens_to_invited_by, may_leave as may_leave_in};

use crate::contents::content_field;
use crate::events::{all_are, is_creator, is_own, membership_of, target_of};
use crate::refusals::Rule;
use crate::states::{
    RoomState, create_event, is_banned, is_invited_or_joined, is_joined, is_knocking, join_rule_in,
    levels_in,
};
use crate::versions::RoomVersion;
use mx_pdu::Pdu;

/// Judges a member event.
#[tactic(auto, unfolding(crate::specs::Rules::member_lines))]
pub(crate) fn judge_member<S: RoomState>(
    version: RoomVersion,
    event: &Pdu,
    state: &S,
) -> Result<(), Rule>
    ensures { result_err result ≡ first_line (member_lines version event.now (S.state state.now)) }
{
    if event.state_key().is_none() {
        return Err(Rule::MemberIncomplete);
    }
    match membership_of(event) {
        Some("join") => judge_join(version, event, state),
        Some("invite") => judge_invite(event, state),
        Some("leave") => judge_leave(version, event, state),
        Some("ban") => judge_ban(event, state),
        Some("knock") if version.has_knocks() => judge_knock(event, state),
        Some(_) => Err(Rule::MembershipUnknown),
        None => Err(Rule::MemberIncomplete),
    }
}

#[tactic(auto, unfolding(crate::specs::Rules::join_lines, crate::specs::Joins::join_lines_of))]
fn judge_join<S: RoomState>(version: RoomVersion, event: &Pdu, state: &S) -> Result<(), Rule>
    ensures { result_err result ≡ first_line (join_lines version event.now (S.state state.now)) }
{
    let follows_create_alone = all_are(state.create_id(), event.prev_events());
    judge_join_of(
        version,
        event.sender().as_str(),
        target_of(event),
        follows_create_alone,
        state,
    )
}

/// Judges a join of a user by a sender, which follows the create event alone or does not.
#[tactic(auto, unfolding(crate::specs::Joins::join_lines_of))]
pub(crate) fn judge_join_of<S: RoomState>(
    version: RoomVersion,
    sender: &str,
    user: &str,
    follows_create_alone: bool,
    state: &S,
) -> Result<(), Rule>
    ensures { result_err result ≡ first_line (join_lines_of version sender.now user.now follows_create_alone (S.state state.now)) }
{
    if follows_create_alone && is_creator(create_event(state), user) {
        return Ok(());
    }
    if sender != user {
        return Err(Rule::JoinForAnother);
    }
    if is_banned(state, user) {
        return Err(Rule::JoinOfBanned);
    }
    let rule = join_rule_in(state);
    if rule == "public" || (opens_to_invited(version, rule) && is_invited_or_joined(state, user)) {
        return Ok(());
    }
    Err(Rule::JoinNotAllowed)
}

// Whether those who are invited or joined may join by this join rule.
fn opens_to_invited(version: RoomVersion, rule: &str) -> bool
    ensures { result ≡ opens_to_invited_by version rule.now }
{
    rule == "invite" || (version.has_knocks() && rule == "knock")
}

#[tactic(auto, unfolding(crate::specs::Rules::invite_lines))]
fn judge_invite<S: RoomState>(event: &Pdu, state: &S) -> Result<(), Rule>
    ensures { result_err result ≡ first_line (invite_lines event.now (S.state state.now)) }
{
    let sender = event.sender().as_str();
    let target = target_of(event);
    if content_field(event, "third_party_invite").is_some() {
        return Err(Rule::InviteByThirdParty);
    }
    if !is_joined(state, sender) {
        return Err(Rule::InviterNotJoined);
    }
    if is_joined(state, target) || is_banned(state, target) {
        return Err(Rule::InviteOfJoinedOrBanned);
    }
    let levels = levels_in(state);
    if levels.user(sender) >= levels.invite() {
        return Ok(());
    }
    Err(Rule::InviteLevelTooLow)
}

#[tactic(auto, unfolding(crate::specs::Rules::leave_lines))]
fn judge_leave<S: RoomState>(version: RoomVersion, event: &Pdu, state: &S) -> Result<(), Rule>
    ensures { result_err result ≡ first_line (leave_lines version event.now (S.state state.now)) }
{
    let sender = event.sender().as_str();
    let target = target_of(event);
    if is_own(event) {
        if may_leave(version, state, target) {
            return Ok(());
        }
        return Err(Rule::LeaveNotInvitedOrJoined);
    }
    if !is_joined(state, sender) {
        return Err(Rule::KickerNotJoined);
    }
    let levels = levels_in(state);
    let level = levels.user(sender);
    if is_banned(state, target) && level < levels.ban() {
        return Err(Rule::UnbanLevelTooLow);
    }
    if level >= levels.kick() && levels.user(target) < level {
        return Ok(());
    }
    Err(Rule::KickLevelTooLow)
}

// Whether the user may leave.
fn may_leave<S: RoomState>(version: RoomVersion, state: &S, user: &str) -> bool
    ensures { result ≡ may_leave_in version (S.state state.now) user.now }
{
    is_invited_or_joined(state, user) || (version.has_knocks() && is_knocking(state, user))
}

#[tactic(auto, unfolding(crate::specs::Rules::ban_lines))]
fn judge_ban<S: RoomState>(event: &Pdu, state: &S) -> Result<(), Rule>
    ensures { result_err result ≡ first_line (ban_lines event.now (S.state state.now)) }
{
    let sender = event.sender().as_str();
    if !is_joined(state, sender) {
        return Err(Rule::BannerNotJoined);
    }
    let levels = levels_in(state);
    let level = levels.user(sender);
    if level >= levels.ban() && levels.user(target_of(event)) < level {
        return Ok(());
    }
    Err(Rule::BanLevelTooLow)
}

// Judges a knock, in a version of rooms that has them.
#[tactic(auto, unfolding(crate::specs::Rules::knock_lines))]
fn judge_knock<S: RoomState>(event: &Pdu, state: &S) -> Result<(), Rule>
    ensures { result_err result ≡ first_line (knock_lines event.now (S.state state.now)) }
{
    let target = target_of(event);
    if join_rule_in(state) != "knock" {
        return Err(Rule::KnockNotAllowed);
    }
    if !is_own(event) {
        return Err(Rule::KnockForAnother);
    }
    if is_banned(state, target) || is_invited_or_joined(state, target) {
        return Err(Rule::KnockOfBannedOrInvitedOrJoined);
    }
    Ok(())
}
