// Why an event was received as it was.
ghost use Rattle.std.specs.Prelude.{◌≡◌, ◌<◌, IfOk, length, take};
ghost use Rattle.mx_auth.specs.Rules.{needed_keys as needed_keys_of};
ghost use Rattle.mx_receipt.specs.Receipt as receipt;
ghost use Rattle.mx_receipt.specs.Receipt.{kept_at};
ghost use Rattle.mx_audit.specs.Explaining as definition;
ghost use Rattle.mx_audit.specs.Noting.{failed_by, rejected_by};
ghost use Rattle.mx_audit.specs.Told.{told_at, told_shown};

use crate::asking::{AskedEntry, entries_of};
use crate::auth_checks::{StateOfEvents, auth_events_of, auth_failure};
use crate::checks::{Check, FailedCheck};
use crate::earlier_events::EarlierEvents;
use mx_auth::{Rule, needed_keys};
use mx_graph::EventNo;
use mx_pdu::Pdu;
use mx_receipt::{Timeline, Verdict, timeline_is_judged};
use mx_states::StateRef;
use std::alloc::{AllocError, Global};

/// Why an event was received as it was: its number, the check that it failed, if any, and what stood at the keys that the
/// rules ask for in the state that decided. For an accepted event that is the state before it.
///
/// Source: the Matrix specification, Server-Server API, "Checks performed on receipt of a PDU".
#[derive(Debug, Drop)]
pub struct Explanation {
    pub number: EventNo,
    pub failed: Option<FailedCheck>,
    pub asked: Vec<AskedEntry>,
}

/// Why the event with this number, which is not the first, was received as it was. It is not judged again: the verdict on it
/// tells the check that it failed. `AllocError` where no memory is left.
///
/// The time is that of a look-up for each key that the rules ask for; of an event that was rejected also of one judgement by
/// its auth events.
///
/// Source: the Matrix specification, Server-Server API, "Checks performed on receipt of a PDU".
pub(crate) fn explained(
    alloc: Global,
    timeline: &Timeline,
    number: EventNo,
) -> Result<Explanation, AllocError>
    requires later { 0 < number }
    requires below { number < length timeline.now.kept }
    ensures told { IfOk result (λ explanation. told_shown explanation ≡ told_at timeline.now.kept number) }
    ensures verdict { IfOk result (λ explanation. (kept_at timeline.now.kept number).verdict ≡ definition.verdict_by explanation.failed) }
{
    timeline_is_judged(timeline);
    let earlier = EarlierEvents::before(timeline, number);
    let event = &timeline.row(number).event;
    let failed = failed_check(alloc, &earlier, event, timeline.verdict(number))?;
    let asked = asked_of(alloc, timeline, number, told_check(failed))?;
    Ok(Explanation {
        number,
        failed,
        asked,
    })
}

// The check that an event fails which is received under this verdict, behind these events. A rejected event fails the one by
// its auth events where that does not allow it, and else the one by the state before it.
fn failed_check(
    alloc: Global,
    earlier: &EarlierEvents<'_>,
    event: &Pdu,
    verdict: Verdict,
) -> Result<Option<FailedCheck>, AllocError>
    ensures { IfOk result (λ failed. failed
        ≡ failed_by verdict (receipt.auth_failure (receipt.rows_of earlier.now) event.now)) }
{
    match verdict {
        Verdict::Accepted => Ok(None),
        Verdict::Rejected(rule) => {
            let auth_events = auth_events_of(alloc, earlier, event)?;
            let failure = auth_failure(alloc, earlier, event, &auth_events)?;
            Ok(Some(rejecting_check(failure, rule)))
        }
        Verdict::SoftFailed(rule) => Ok(Some(FailedCheck {
            check: Check::CurrentState,
            rule,
        })),
    }
}

fn rejecting_check(auth_failure: Option<Rule>, rule: Rule) -> FailedCheck
    ensures { result ≡ rejected_by auth_failure rule }
{
    match auth_failure {
        Some(rule) => FailedCheck {
            check: Check::AuthEvents,
            rule,
        },
        None => FailedCheck {
            check: Check::StateBefore,
            rule,
        },
    }
}

// The check whose state is told.
fn told_check(failed: Option<FailedCheck>) -> Check
    ensures { result ≡ definition.told_check failed }
{
    match failed {
        Some(failed) => failed.check,
        None => Check::StateBefore,
    }
}

// What stood in the state that a check judged the event with this number on, at the keys that the rules ask for.
fn asked_of(
    alloc: Global,
    timeline: &Timeline,
    number: EventNo,
    check: Check,
) -> Result<Vec<AskedEntry>, AllocError>
    requires later { 0 < number }
    requires below { number < length timeline.now.kept }
    ensures { IfOk result (λ asked. asked.items
        ≡ definition.checked_entries (take number timeline.now.kept) (kept_at timeline.now.kept number).event check) }
{
    let earlier = EarlierEvents::before(timeline, number);
    let event = &timeline.row(number).event;
    match check {
        Check::AuthEvents => asked_of_auth_events(alloc, &earlier, event),
        Check::StateBefore => {
            asked_of_state(alloc, &earlier, event, &timeline.state_before(number))
        }
        Check::CurrentState => {
            asked_of_state(alloc, &earlier, event, &timeline.current_before(number))
        }
    }
}

// What stands in the state of an event's auth events at the keys that the rules ask for.
fn asked_of_auth_events(
    alloc: Global,
    earlier: &EarlierEvents<'_>,
    event: &Pdu,
) -> Result<Vec<AskedEntry>, AllocError>
    ensures { IfOk result (λ asked. asked.items ≡ definition.checked_entries earlier.now event.now Check.AuthEvents) }
{
    let auth_events = auth_events_of(alloc, earlier, event)?;
    let keys = needed_keys(earlier.version(), event);
    let asked = entries_of(alloc, &keys, &StateOfEvents::of(earlier, &auth_events))?;
    Ok(asked)
}

// What stands in a state at the keys that the rules ask for.
fn asked_of_state(
    alloc: Global,
    earlier: &EarlierEvents<'_>,
    event: &Pdu,
    state: &StateRef<'_>,
) -> Result<Vec<AskedEntry>, AllocError>
    ensures { IfOk result (λ asked. asked.items
        ≡ definition.entries_at state.now (needed_keys_of (receipt.version_in (receipt.rows_of earlier.now)) event.now)) }
{
    let keys = needed_keys(earlier.version(), event);
    let asked = entries_of(alloc, &keys, state)?;
    Ok(asked)
}
