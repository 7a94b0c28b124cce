// An event with the levels of the state that decided on it.
ghost use Rattle.std.specs.Prelude.{◌≡◌, ◌<◌, IfOk, IfSome, None, Some, codes, find, length, option_and_then, option_map, []};
ghost use Rattle.mx_auth.specs.Rules.{same_key};
ghost use Rattle.mx_reasons.specs.Because.{because_text};
ghost use Rattle.mx_audit.specs.EventLines as definition;
ghost use Rattle.mx_audit.specs.Told.{told_shown};

use crate::asking::AskedEntry;
use crate::explaining::Explanation;
use mx_auth::Rule;
use mx_graph::EventNo;
use mx_pdu::Pdu;
use mx_reasons::{JudgedEvent, because};
use mx_receipt::Timeline;
use std::alloc::{AllocError, Global};

/// The event with this number, with the create event and the power levels of the state that decided on it, by why it was
/// received as it was.
pub(crate) fn judged_event<'t>(
    timeline: &'t Timeline,
    number: EventNo,
    explanation: Option<&Explanation>,
) -> JudgedEvent<'t>
    requires { number < length timeline.now.kept }
    ensures { result ≡ definition.judged_event timeline.now.kept number (option_map (λ e. told_shown e.now) explanation.entry) }
{
    let create = standing_event(timeline, asked_of(explanation, "m.room.create"));
    let power = standing_event(timeline, asked_of(explanation, "m.room.power_levels"));
    JudgedEvent::of(&timeline.row(number).event, create, power)
}

// What stood at a type and the empty state key, of what was asked.
fn asked_of(explanation: Option<&Explanation>, kind: &str) -> Option<EventNo>
    ensures { result ≡ definition.asked_at (definition.asked_in (option_map (λ e. told_shown e.now) explanation.entry)) (kind.now, []) }
{
    match explanation {
        Some(explanation) => asked_at(&explanation.asked, kind, ""),
        None => None,
    }
}

fn asked_at(asked: &[AskedEntry], kind: &str, state_key: &str) -> Option<EventNo>
    ensures { result ≡ definition.asked_at asked.now (kind.now, state_key.now) }
{
    for entry in asked {
        if entry.kind() == kind && entry.state_key() == state_key {
            return entry.event();
        }
    }
    None
}

/// The event with this number, where there is one.
pub(crate) fn standing_event(timeline: &Timeline, number: Option<EventNo>) -> Option<&Pdu>
    ensures { option_map (λ e. e.now) result ≡ definition.standing timeline.now.kept number }
{
    let number = number?;
    if number.index() < timeline.len() {
        Some(&timeline.row(number).event)
    } else {
        None
    }
}

/// Why the rules do not allow an event, by the line that does not, if any.
pub(crate) fn because_of(
    alloc: Global,
    judged: &JudgedEvent<'_>,
    refusal: Option<Rule>,
) -> Result<Option<Vec<u8>>, AllocError>
    ensures { IfOk result (λ text. option_map (λ t. t.items) text
        ≡ option_map (λ rule. because_text rule judged.now.sources judged.now.event) refusal) }
{
    match refusal {
        Some(rule) => {
            let text = because(alloc, rule, judged)?;
            Ok(Some(text))
        }
        None => Ok(None),
    }
}
