// What the lines of the authorization rules say, in words.
ghost use Rattle.std.specs.Prelude.{◌≡◌};
ghost use Rattle.mx_reasons.specs.Reasons as definition;

use mx_auth::Rule;

/// One sentence on the line of the authorization rules that does not allow an event. A membership, a level and the join
/// rule are those of the state that decided.
///
/// Source: the Matrix specification, Room Version 6 and Room Version 7, "Authorization rules".
pub fn reason(rule: Rule) -> &'static str
    ensures { result.now ≡ definition.reason_text rule }
{
    match rule {
        Rule::CreateHasPrevEvents => "a create event has a prev event",
        Rule::CreateOfAnotherServer =>
            "the server of a create event's room id is not that of its sender",
        Rule::CreateVersionUnknown =>
            "the room_version of a create event is absent, or is neither 6 nor 7",
        Rule::CreateWithoutCreator => "a create event has no text creator",
        Rule::AuthEventsRepeat =>
            "auth_events has an id twice, or two events of one type and state key",
        Rule::AuthEventNotSelected => "auth_events has an event that is not in the selection",
        Rule::AuthEventRejected => "auth_events has an event that was itself rejected",
        Rule::AuthEventsWithoutCreate => "auth_events has no create event",
        Rule::StateWithoutCreate => "the state has no create event",
        Rule::RoomNotFederated =>
            "the create event says m.federate: false, and the sender is of another server than the create event's sender",
        Rule::MemberIncomplete => "a member event has no state key or no text membership",
        Rule::JoinForAnother => "a join for another user: the sender is not the state key",
        Rule::JoinOfBanned => "a join of a banned user",
        Rule::JoinNotAllowed => "a join that the join rule does not allow",
        Rule::InviteByThirdParty =>
            "an invite that stands for a third-party invite, which is not built",
        Rule::InviterNotJoined => "an invite whose sender is not joined",
        Rule::InviteOfJoinedOrBanned => "an invite of a user who is joined or banned",
        Rule::InviteLevelTooLow => "an invite whose sender's level is below invite",
        Rule::LeaveNotInvitedOrJoined =>
            "a leave of one's own by a user who is neither invited nor joined, nor knocking in version 7",
        Rule::KickerNotJoined => "a kick or an unban whose sender is not joined",
        Rule::UnbanLevelTooLow => "an unban whose sender's level is below ban",
        Rule::KickLevelTooLow =>
            "a kick or an unban whose sender's level is below kick, or is not above the target's",
        Rule::BannerNotJoined => "a ban whose sender is not joined",
        Rule::BanLevelTooLow =>
            "a ban whose sender's level is below ban, or is not above the target's",
        Rule::KnockNotAllowed => "in version 7: a knock where the join rule is not knock",
        Rule::KnockForAnother =>
            "in version 7: a knock for another user: the sender is not the state key",
        Rule::KnockOfBannedOrInvitedOrJoined =>
            "in version 7: a knock of a user who is banned, invited or joined",
        Rule::MembershipUnknown =>
            "a membership that is none of join, invite, leave and ban, nor knock in version 7",
        Rule::SenderNotJoined => "the sender is not joined",
        Rule::ThirdPartyInviteLevelTooLow =>
            "a third-party invite whose sender's level is below invite",
        Rule::SenderLevelTooLow =>
            "the sender's level is below what the event's type asks for: its entry in events, else state_default or events_default",
        Rule::StateKeyOfAnotherUser => "the state key begins with @ and is not the sender",
        Rule::UsersMalformed =>
            "users of power levels is there and is not an object from user ids to levels",
        Rule::LevelChangedAboveSender =>
            "one of users_default, events_default, state_default, ban, redact, kick and invite is added, changed or removed, and its value before or after is above the sender's level",
        Rule::OldEntryAboveSender =>
            "an entry of events or notifications is changed or removed, and was above the sender's level",
        Rule::NewEntryAboveSender =>
            "an entry of events or notifications is added or changed, and is above the sender's level now",
        Rule::OldUserNotBelowSender =>
            "an entry of another user is changed or removed, and was not below the sender's level",
        Rule::NewUserAboveSender =>
            "an entry of users is added or changed, and is above the sender's level now",
    }
}
