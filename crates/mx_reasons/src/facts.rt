// What the rules read of the events that stand in a state.
ghost use Rattle.std.specs.Prelude.{◌≡◌, ℕ, List, None, Some, codes, option_and_then, option_map};
ghost use Rattle.mx_pdu.specs.Event.{has_membership as has_this_membership, membership_of as membership_in};
ghost use Rattle.mx_auth.specs.Rules.{is_own as is_own_event};
ghost use Rattle.mx_auth.specs.StateView.{join_rule_of as join_rule_in};
ghost use Rattle.mx_lines.specs.Written.{with_members};
ghost use Rattle.mx_reasons.specs.Facts as definition;
ghost use Rattle.mx_reasons.specs.Facts.{if_type};

use crate::judged::JudgedEvent;
use mx_auth::membership_of;
use mx_canon::TextSink;
use mx_lines::{write_integer_if, write_text_if};
use mx_pdu::Pdu;
use mx_redact::text_field;

/// Gives the sink, as later members, what the rules read at a type of the state that an event was judged on: of a member
/// event the `membership`, of the join rules the `join_rule`, and at the power levels the `level` of the event's sender and
/// the `level_needed`, where sending the event asks for one.
///
/// Source: the Matrix specification, Room Version 6 and Room Version 7, "Authorization rules", and `m.room.power_levels`.
pub fn write_facts<S: TextSink>(
    sink: &mut S,
    judged: &JudgedEvent<'_>,
    kind: &str,
    standing: Option<&Pdu>,
)
    ensures { (taken : List ℕ) → S.has_taken sink.old taken → S.has_taken sink.new
        (with_members taken (definition.fact_members judged.now kind.now (option_map (λ e. e.now) standing.entry))) }
{
    write_text_if(sink, b"join_rule", join_rule_told(kind, standing));
    write_integer_if(sink, b"level", level_told(judged, kind));
    write_integer_if(sink, b"level_needed", level_needed_told(judged, kind));
    write_text_if(sink, b"membership", membership_told(kind, standing));
}

fn join_rule_told<'e>(kind: &str, standing: Option<&'e Pdu>) -> Option<&'e str>
    ensures { option_map (λ text. text.now) result ≡ if_type (codes "m.room.join_rules") kind.now
        (option_and_then join_rule_in (option_map (λ e. e.now) standing.entry)) }
{
    if kind == "m.room.join_rules" {
        join_rule_of(standing?)
    } else {
        None
    }
}

fn membership_told<'e>(kind: &str, standing: Option<&'e Pdu>) -> Option<&'e str>
    ensures { option_map (λ text. text.now) result ≡ if_type (codes "m.room.member") kind.now
        (option_and_then membership_in (option_map (λ e. e.now) standing.entry)) }
{
    if kind == "m.room.member" {
        membership_of(standing?)
    } else {
        None
    }
}

fn join_rule_of(event: &Pdu) -> Option<&str>
    ensures { option_map (λ text. text.now) result ≡ join_rule_in event.now }
{
    text_field(event.content(), "join_rule")
}

fn level_told(judged: &JudgedEvent<'_>, kind: &str) -> Option<i64>
    ensures { result ≡ if_type (codes "m.room.power_levels") kind.now (Some (definition.level_had judged.now)) }
{
    if kind == "m.room.power_levels" {
        Some(level_had(judged))
    } else {
        None
    }
}

fn level_needed_told(judged: &JudgedEvent<'_>, kind: &str) -> Option<i64>
    ensures { result ≡ if_type (codes "m.room.power_levels") kind.now (definition.level_needed judged.now) }
{
    if kind == "m.room.power_levels" {
        level_needed(judged)
    } else {
        None
    }
}

#[tactic(auto, unfolding(crate::specs::Facts::level_had))]
fn level_had(judged: &JudgedEvent<'_>) -> i64
    ensures { result ≡ definition.level_had judged.now }
{
    judged.levels().user(judged.sender())
}

#[tactic(auto, unfolding(crate::specs::Facts::level_needed))]
fn level_needed(judged: &JudgedEvent<'_>) -> Option<i64>
    ensures { result ≡ definition.level_needed judged.now }
{
    match judged.kind() {
        "m.room.member" => membership_level(judged),
        "m.room.third_party_invite" => Some(judged.levels().invite()),
        _ => Some(judged.required()),
    }
}

fn membership_level(judged: &JudgedEvent<'_>) -> Option<i64>
    ensures { result ≡ definition.membership_level judged.now }
{
    if has_membership(judged.event(), "invite") {
        Some(judged.levels().invite())
    } else if has_membership(judged.event(), "ban") {
        Some(judged.levels().ban())
    } else if has_membership(judged.event(), "leave") && !is_own(judged) {
        Some(judged.levels().kick())
    } else {
        None
    }
}

fn has_membership(event: &Pdu, membership: &str) -> bool
    ensures { result ≡ has_this_membership membership.now event.now }
{
    match membership_of(event) {
        Some(given) => given == membership,
        None => false,
    }
}

fn is_own(judged: &JudgedEvent<'_>) -> bool
    ensures { result ≡ is_own_event judged.now.event }
{
    judged.sender() == judged.target()
}
