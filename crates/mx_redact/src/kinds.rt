// The types of events of which redaction keeps some keys of `content`.
ghost use Rattle.std.specs.Prelude.{◌≡◌};
ghost use Rattle.mx_redact.specs.Selected.{kept_content_of, is_kept_content};

/// What redaction keeps of the `content` of an event, by its type.
#[derive(Clone, Copy, Debug, PartialEq, Eq)]
pub(crate) enum KeptContent {
    Member,
    Create,
    JoinRules,
    PowerLevels,
    HistoryVisibility,
    Nothing,
}

// By the event's type.
pub(crate) fn kept_content(kind: &str) -> KeptContent
    ensures { result ≡ kept_content_of kind.now }
{
    match kind {
        "m.room.member" => KeptContent::Member,
        "m.room.create" => KeptContent::Create,
        "m.room.join_rules" => KeptContent::JoinRules,
        "m.room.power_levels" => KeptContent::PowerLevels,
        "m.room.history_visibility" => KeptContent::HistoryVisibility,
        _ => KeptContent::Nothing,
    }
}

impl KeptContent {
    // Whether a key of `content` is kept.
    pub(crate) fn keeps(self, key: &str) -> bool
        ensures { result ≡ is_kept_content self key.now }
    {
        match self {
            KeptContent::Member => key == "membership",
            KeptContent::Create => key == "creator",
            KeptContent::JoinRules => key == "join_rule",
            KeptContent::PowerLevels => is_power_levels_key(key),
            KeptContent::HistoryVisibility => key == "history_visibility",
            KeptContent::Nothing => false,
        }
    }
}

fn is_power_levels_key(key: &str) -> bool
    ensures { result ≡ is_kept_content KeptContent.PowerLevels key.now }
{
    matches!(
        key,
        "ban"
            | "events"
            | "events_default"
            | "kick"
            | "redact"
            | "state_default"
            | "users"
            | "users_default"
    )
}
