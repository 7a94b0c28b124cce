// Why the authorization rules reject an event.
ghost use Rattle.std.specs.Prelude.{◌≡◌};
ghost use Rattle.mx_auth.specs.Rules.{label_text};

use std::error::Error;
use std::fmt;

/// The line of the authorization rules that rejects an event. Its [`label`](Rule::label) is that line's.
///
/// Source: the Matrix specification, Room Version 6 and Room Version 7, "Authorization rules".
#[derive(Clone, Copy, Debug, PartialEq, Eq)]
pub enum Rule {
    // Of `m.room.create`.
    // A1.1: It has a prev event.
    CreateHasPrevEvents,
    // A1.2: The server of its room id is not its sender's.
    CreateOfAnotherServer,
    // A1.3: Its `room_version` is neither `"6"` nor `"7"`.
    CreateVersionUnknown,
    // A1.4: It has no text `creator`.
    CreateWithoutCreator,
    // On the events among `auth_events`.
    // A2.1: An event id, or a type with a state key, stands there twice.
    AuthEventsRepeat,
    // A2.2: An event has no place in the selection of auth events.
    AuthEventNotSelected,
    // A2.3: An event was itself rejected.
    AuthEventRejected,
    // A2.4: None is a create event.
    AuthEventsWithoutCreate,
    // On every other event.
    // A0: The state has no create event.
    StateWithoutCreate,
    // A3: The create event keeps other servers out.
    RoomNotFederated,
    // Of `m.room.member`.
    // A4.1: It has no state key, or no text `membership`.
    MemberIncomplete,
    // Of a join.
    // A4.2.2: The sender is not who joins.
    JoinForAnother,
    // A4.2.3: The user is banned.
    JoinOfBanned,
    // A4.2.6: The join rule does not allow it.
    JoinNotAllowed,
    // Of an invite.
    // A4.T: It stands for a third-party invite.
    InviteByThirdParty,
    // A4.3.2: The sender is not joined.
    InviterNotJoined,
    // A4.3.3: The target is joined or banned.
    InviteOfJoinedOrBanned,
    // A4.3.5: The sender's level is below `invite`.
    InviteLevelTooLow,
    // Of a leave, for oneself or for another.
    // A4.4.1: The user is neither invited nor joined, nor knocking in version 7.
    LeaveNotInvitedOrJoined,
    // A4.4.2: The sender is not joined.
    KickerNotJoined,
    // A4.4.3: The target is banned, and the sender's level is below `ban`.
    UnbanLevelTooLow,
    // A4.4.5: The sender's level is below `kick`, or not above the target's.
    KickLevelTooLow,
    // Of a ban.
    // A4.5.1: The sender is not joined.
    BannerNotJoined,
    // A4.5.3: The sender's level is below `ban`, or not above the target's.
    BanLevelTooLow,
    // Of a knock, in version 7.
    // A4.7.1: The join rule is not `knock`.
    KnockNotAllowed,
    // A4.7.2: The sender is not who knocks.
    KnockForAnother,
    // A4.7.4: The user is banned, invited or joined.
    KnockOfBannedOrInvitedOrJoined,
    // Of another membership.
    // A4.6: It is none of join, invite, leave and ban, nor knock in version 7.
    MembershipUnknown,
    // On every event but a create event or a member event.
    // A5: The sender is not joined.
    SenderNotJoined,
    // A6: A third-party invite, where the sender's level is below `invite`.
    ThirdPartyInviteLevelTooLow,
    // A7: The sender's level is below what the type asks for.
    SenderLevelTooLow,
    // A8: The state key begins with `@` and is not the sender.
    StateKeyOfAnotherUser,
    // Of `m.room.power_levels`.
    // A9.1: `users` is not an object from user ids to levels.
    UsersMalformed,
    // A9.3: One of the seven levels is altered that is above the sender's, before or after.
    LevelChangedAboveSender,
    // A9.4: An entry of `events` or `notifications` is altered that was above the sender's level.
    OldEntryAboveSender,
    // A9.5: An entry of `events` or `notifications` is set above the sender's level.
    NewEntryAboveSender,
    // A9.6: Another user's entry is altered that was not below the sender's level.
    OldUserNotBelowSender,
    // A9.7: A user's entry is set above the sender's level.
    NewUserAboveSender,
}

impl Rule {
    /// The label of the line, as `A4.2.6`. It takes no memory.
    pub fn label(self) -> &'static str
        ensures { result.now ≡ label_text self }
    {
        match self {
            Rule::CreateHasPrevEvents => "A1.1",
            Rule::CreateOfAnotherServer => "A1.2",
            Rule::CreateVersionUnknown => "A1.3",
            Rule::CreateWithoutCreator => "A1.4",
            Rule::AuthEventsRepeat => "A2.1",
            Rule::AuthEventNotSelected => "A2.2",
            Rule::AuthEventRejected => "A2.3",
            Rule::AuthEventsWithoutCreate => "A2.4",
            Rule::StateWithoutCreate => "A0",
            Rule::RoomNotFederated => "A3",
            Rule::MemberIncomplete => "A4.1",
            Rule::JoinForAnother => "A4.2.2",
            Rule::JoinOfBanned => "A4.2.3",
            Rule::JoinNotAllowed => "A4.2.6",
            Rule::InviteByThirdParty => "A4.T",
            Rule::InviterNotJoined => "A4.3.2",
            Rule::InviteOfJoinedOrBanned => "A4.3.3",
            Rule::InviteLevelTooLow => "A4.3.5",
            Rule::LeaveNotInvitedOrJoined => "A4.4.1",
            Rule::KickerNotJoined => "A4.4.2",
            Rule::UnbanLevelTooLow => "A4.4.3",
            Rule::KickLevelTooLow => "A4.4.5",
            Rule::BannerNotJoined => "A4.5.1",
            Rule::BanLevelTooLow => "A4.5.3",
            Rule::KnockNotAllowed => "A4.7.1",
            Rule::KnockForAnother => "A4.7.2",
            Rule::KnockOfBannedOrInvitedOrJoined => "A4.7.4",
            Rule::MembershipUnknown => "A4.6",
            Rule::SenderNotJoined => "A5",
            Rule::ThirdPartyInviteLevelTooLow => "A6",
            Rule::SenderLevelTooLow => "A7",
            Rule::StateKeyOfAnotherUser => "A8",
            Rule::UsersMalformed => "A9.1",
            Rule::LevelChangedAboveSender => "A9.3",
            Rule::OldEntryAboveSender => "A9.4",
            Rule::NewEntryAboveSender => "A9.5",
            Rule::OldUserNotBelowSender => "A9.6",
            Rule::NewUserAboveSender => "A9.7",
        }
    }
}

impl fmt::Display for Rule {
    ghost use Rattle.std.specs.Prelude.{Some};
    ghost use Rattle.mx_auth.specs.Rules.{label_text};

    ghost output = { λ rule. Some (label_text rule) };

    fn fmt<W: fmt::Write>(&self, f: &mut fmt::Formatter<W>) -> fmt::Result {
        fmt::Display::fmt(&self.label(), f)
    }
}

impl Error for Rule {}
