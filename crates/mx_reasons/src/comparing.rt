// Which levels a line of the rules compares with the sender's.
ghost use Rattle.std.specs.Prelude.{◌≡◌};
ghost use Rattle.mx_reasons.specs.Because as definition;

use mx_auth::Rule;

/// What a line of the authorization rules compares with the level of the sender.
///
/// `Invite`, `Ban`: the level of that name. `Kick`, `BanOfTarget`: that of the name, and the level of the target.
/// `TypeOfEvent`: the level that the event's type asks for. `Entries`: levels of the power levels event itself.
#[derive(Clone, Copy, Debug, PartialEq, Eq)]
pub enum Comparison {
    Nothing,
    Invite,
    Ban,
    Kick,
    BanOfTarget,
    TypeOfEvent,
    Entries,
}

/// What a line compares with the level of the sender.
pub(crate) fn compared_by(rule: Rule) -> Comparison
    ensures { result ≡ definition.compared_by rule }
{
    match rule {
        Rule::InviteLevelTooLow | Rule::ThirdPartyInviteLevelTooLow => Comparison::Invite,
        Rule::UnbanLevelTooLow => Comparison::Ban,
        Rule::KickLevelTooLow => Comparison::Kick,
        Rule::BanLevelTooLow => Comparison::BanOfTarget,
        Rule::SenderLevelTooLow => Comparison::TypeOfEvent,
        Rule::LevelChangedAboveSender
        | Rule::OldEntryAboveSender
        | Rule::NewEntryAboveSender
        | Rule::OldUserNotBelowSender
        | Rule::NewUserAboveSender => Comparison::Entries,
        _ => Comparison::Nothing,
    }
}
