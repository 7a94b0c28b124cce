// What lines say of verdicts.
ghost use Rattle.std.specs.Prelude.{◌≡◌, option_map};
ghost use Rattle.mx_auth.specs.Rules.{label_text};
ghost use Rattle.mx_audit.specs.Reasons as definition;
ghost use Rattle.mx_reasons.specs.Reasons.{reason_text};

use mx_auth::Rule;
use mx_reasons::reason;
use mx_receipt::Verdict;

/// The sentence on the line that does not allow an event, where one does not.
pub(crate) fn sentence_of(refusal: Option<Rule>) -> Option<&'static str>
    ensures { option_map (λ text. text.now) result ≡ option_map reason_text refusal }
{
    match refusal {
        Some(rule) => Some(reason(rule)),
        None => None,
    }
}

/// The label of the line that does not allow an event, where one does not.
pub(crate) fn label_of(refusal: Option<Rule>) -> Option<&'static str>
    ensures { option_map (λ text. text.now) result ≡ option_map label_text refusal }
{
    match refusal {
        Some(rule) => Some(rule.label()),
        None => None,
    }
}

/// The line of the rules that a verdict tells.
pub(crate) fn refusal_of(verdict: Verdict) -> Option<Rule>
    ensures { result ≡ definition.refusal_of verdict }
{
    match verdict {
        Verdict::Accepted => None,
        Verdict::SoftFailed(rule) | Verdict::Rejected(rule) => Some(rule),
    }
}

/// The verdict, as lines name it.
pub(crate) fn verdict_name(verdict: Verdict) -> &'static str
    ensures { result.now ≡ definition.verdict_text verdict }
{
    match verdict {
        Verdict::Accepted => "accepted",
        Verdict::SoftFailed(_) => "soft failed",
        Verdict::Rejected(_) => "rejected",
    }
}
