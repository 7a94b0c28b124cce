// The judgement of an event on a state.
ghost use Rattle.std.specs.Prelude.{◌≡◌, ◌&&◌, not};
ghost use Rattle.std.specs.Result.{result_err};
ghost use Rattle.mx_ident.specs.Identifier.{begins_with};
ghost use Rattle.mx_redact.specs.Fields.{Event, kind};
ghost use Rattle.mx_pdu.specs.Event.{is_state};
ghost use Rattle.mx_levels.specs.Level.{required_level};
ghost use Rattle.mx_auth.specs.StateView.{StateView, power_of};
ghost use Rattle.mx_auth.specs.declared.versions.RoomVersion.{RoomVersion as Version};
ghost use Rattle.mx_auth.specs.Rules.{first_line, rules, other_lines, third_party_invite_lines, reaches, target_of as target, is_own as is_own_event, needed_keys, AgreeAt};

use crate::creating::judge_create;
use crate::events::{is_kept_out, is_own, target_of};
use crate::memberships::judge_member;
use crate::power_levels::judge_power_levels;
use crate::refusals::Rule;
use crate::states::{RoomState, create_event, is_joined, levels_in};
use crate::versions::RoomVersion;
use mx_pdu::Pdu;

/// Judges an event on a state of its room, which is of this version: `Ok` where the rules allow it. It takes no memory.
///
/// The first line of the rules that decides, decides, and the error is the line that rejects the event. The lines on
/// the events that it cites as its auth events are those of [`judge_auth_events`](crate::judge_auth_events).
///
/// Source: the Matrix specification, Room Version 6 and Room Version 7, "Authorization rules".
pub fn judge<S: RoomState>(version: RoomVersion, event: &Pdu, state: &S) -> Result<(), Rule>
    ensures { result_err result ≡ rules version event.now (S.state state.now) }
{
    if event.kind() == "m.room.create" {
        return judge_create(event);
    }
    let Some(create) = create_event(state) else {
        return Err(Rule::StateWithoutCreate);
    };
    if is_kept_out(event, create) {
        return Err(Rule::RoomNotFederated);
    }
    if event.kind() == "m.room.member" {
        return judge_member(version, event, state);
    }
    judge_other(event, state)
}

// Judges an event that is neither a create event nor a member event.
fn judge_other<S: RoomState>(event: &Pdu, state: &S) -> Result<(), Rule>
    ensures { result_err result ≡ first_line (other_lines event.now (S.state state.now)) }
{
    if !is_joined(state, event.sender().as_str()) {
        return Err(Rule::SenderNotJoined);
    }
    if event.kind() == "m.room.third_party_invite" {
        return judge_third_party_invite(event, state);
    }
    if !reaches_required_level(event, state) {
        return Err(Rule::SenderLevelTooLow);
    }
    if has_other_user_as_key(event) {
        return Err(Rule::StateKeyOfAnotherUser);
    }
    if event.kind() == "m.room.power_levels" {
        return judge_power_levels(event, state);
    }
    Ok(())
}

// Whether the sender has the level that sending such an event asks for.
fn reaches_required_level<S: RoomState>(event: &Pdu, state: &S) -> bool
    ensures { result ≡ reaches (S.state state.now) event.now
        (required_level (power_of (S.state state.now)) (kind event.now) (is_state event.now)) }
{
    let levels = levels_in(state);
    let required = levels.required(event.kind(), event.state_key().is_some());
    levels.user(event.sender().as_str()) >= required
}

// Whether the state key begins with `@` and is not the sender.
fn has_other_user_as_key(event: &Pdu) -> bool
    ensures { result ≡ (begins_with 64 (target event.now) && not (is_own_event event.now)) }
{
    target_of(event).starts_with('@') && !is_own(event)
}

#[tactic(auto, unfolding(crate::specs::Rules::third_party_invite_lines))]
fn judge_third_party_invite<S: RoomState>(event: &Pdu, state: &S) -> Result<(), Rule>
    ensures { result_err result ≡ first_line (third_party_invite_lines event.now (S.state state.now)) }
{
    let levels = levels_in(state);
    if levels.user(event.sender().as_str()) >= levels.invite() {
        return Ok(());
    }
    Err(Rule::ThirdPartyInviteLevelTooLow)
}

/// Two states judge an event alike where they agree on the create event's id and at the event's
/// [`needed_keys`](crate::needed_keys), whatever types hold them. It does nothing: this is what it ensures.
pub fn agreeing_states_judge_alike()
    ensures { (version : Version) (event : Event) (one other : StateView) → one.create_id ≡ other.create_id
        → AgreeAt (needed_keys version event) one other → rules version event one ≡ rules version event other }
{}
