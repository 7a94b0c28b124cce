// Why the rules do not allow an event, with the levels that they compare.
ghost use Rattle.std.specs.Prelude.{◌≡◌, ◌++◌, ℕ, IfOk, List, codes};
ghost use Rattle.serde_json.specs.Data.{number};
ghost use Rattle.serde_json.specs.Find.{of_integer};
ghost use Rattle.mx_canon.specs.Canonical.{canonical_text};
ghost use Rattle.mx_levels.specs.Level.{ban_level, invite_level, kick_level, required_level};
ghost use Rattle.mx_pdu.specs.Event.{is_state, sender_of};
ghost use Rattle.mx_redact.specs.Fields.{kind};
ghost use Rattle.mx_auth.specs.Rules.{target_of};
ghost use Rattle.mx_reasons.specs.Because as definition;

use crate::comparing::{Comparison, compared_by};
use crate::judged::JudgedEvent;
use crate::reasons::reason;
use mx_auth::Rule;
use mx_canon::{TextBuffer, TextSink, write_text};
use serde_json::{Number, Value};
use std::alloc::{AllocError, Global};

/// Why a line of the authorization rules does not allow an event, in one sentence. Where the line compares levels, it tells
/// the sender's and what that is compared with, by these levels, those of the state that the event was judged on; else what
/// the line says. `AllocError` where no memory is left.
///
/// Source: the Matrix specification, Room Version 6 and Room Version 7, "Authorization rules", and `m.room.power_levels`.
#[tactic(auto, unfolding(crate::specs::Because::because_text))]
pub fn because(alloc: Global, rule: Rule, judged: &JudgedEvent<'_>) -> Result<Vec<u8>, AllocError>
    ensures { IfOk result (λ text. text.items ≡ definition.because_text rule judged.now.sources judged.now.event) }
{
    let mut text = TextBuffer::new(alloc);
    write_compared(&mut text, compared_by(rule), reason(rule), judged);
    let bytes = text.into_bytes()?;
    Ok(bytes)
}

fn write_compared<S: TextSink>(
    sink: &mut S,
    comparison: Comparison,
    sentence: &str,
    judged: &JudgedEvent<'_>,
)
    ensures { (taken : List ℕ) → S.has_taken sink.old taken
        → S.has_taken sink.new (taken ++ definition.compared_text comparison sentence.now judged.now.sources judged.now.event) }
{
    match comparison {
        Comparison::Nothing => sink.put(sentence.as_bytes()),
        Comparison::Invite => {
            write_sender(sink, judged);
            write_invite(sink, judged);
        }
        Comparison::Ban => {
            write_sender(sink, judged);
            write_ban(sink, judged);
        }
        Comparison::Kick => {
            write_sender(sink, judged);
            write_kick_of(sink, judged);
        }
        Comparison::BanOfTarget => {
            write_sender(sink, judged);
            write_ban_of(sink, judged);
        }
        Comparison::TypeOfEvent => {
            write_sender(sink, judged);
            write_type(sink, judged);
        }
        Comparison::Entries => {
            write_sender(sink, judged);
            write_sentence(sink, sentence);
        }
    }
}

// The sender's level, what a level asks for, and the target's level.
fn write_kick_of<S: TextSink>(sink: &mut S, judged: &JudgedEvent<'_>)
    ensures { (taken : List ℕ) → S.has_taken sink.old taken
        → S.has_taken sink.new (taken ++ (definition.asks_for (codes "kick") (kick_level judged.now.sources.power)
        ++ (codes "; " ++ definition.has_level judged.now.sources (target_of judged.now.event)))) }
{
    write_kick(sink, judged);
    sink.put(b"; ");
    write_level_of(sink, judged, judged.target());
}

fn write_ban_of<S: TextSink>(sink: &mut S, judged: &JudgedEvent<'_>)
    ensures { (taken : List ℕ) → S.has_taken sink.old taken
        → S.has_taken sink.new (taken ++ (definition.asks_for (codes "ban") (ban_level judged.now.sources.power)
        ++ (codes "; " ++ definition.has_level judged.now.sources (target_of judged.now.event)))) }
{
    write_ban(sink, judged);
    sink.put(b"; ");
    write_level_of(sink, judged, judged.target());
}

// What the event's type asks for.
fn write_type<S: TextSink>(sink: &mut S, judged: &JudgedEvent<'_>)
    ensures { (taken : List ℕ) → S.has_taken sink.old taken
        → S.has_taken sink.new (taken ++ definition.type_asks_for judged.now.sources judged.now.event) }
{
    write_type_level(sink, judged);
    sink.put(b" (");
    sink.put(judged.source().as_bytes());
    sink.put(b")");
}

fn write_type_level<S: TextSink>(sink: &mut S, judged: &JudgedEvent<'_>)
    ensures { (taken : List ℕ) → S.has_taken sink.old taken
        → S.has_taken sink.new (taken ++ definition.asks_for (kind judged.now.event)
        (required_level judged.now.sources.power (kind judged.now.event) (is_state judged.now.event))) }
{
    write_asking(sink, judged.kind());
    write_level(sink, judged.required());
}

fn write_sentence<S: TextSink>(sink: &mut S, sentence: &str)
    ensures { (taken : List ℕ) → S.has_taken sink.old taken
        → S.has_taken sink.new (taken ++ (codes "; " ++ sentence.now)) }
{
    sink.put(b"; ");
    sink.put(sentence.as_bytes());
}

// The sender's level.
fn write_sender<S: TextSink>(sink: &mut S, judged: &JudgedEvent<'_>)
    ensures { (taken : List ℕ) → S.has_taken sink.old taken
        → S.has_taken sink.new (taken ++ definition.has_level judged.now.sources (sender_of judged.now.event)) }
{
    write_level_of(sink, judged, judged.sender());
}

fn write_level_of<S: TextSink>(sink: &mut S, judged: &JudgedEvent<'_>, user: &str)
    ensures { (taken : List ℕ) → S.has_taken sink.old taken
        → S.has_taken sink.new (taken ++ definition.has_level judged.now.sources user.now) }
{
    sink.put(user.as_bytes());
    sink.put(b" has level ");
    write_level(sink, judged.levels().user(user));
}

fn write_invite<S: TextSink>(sink: &mut S, judged: &JudgedEvent<'_>)
    ensures { (taken : List ℕ) → S.has_taken sink.old taken
        → S.has_taken sink.new (taken ++ definition.asks_for (codes "invite") (invite_level judged.now.sources.power)) }
{
    write_asking(sink, "invite");
    write_level(sink, judged.levels().invite());
}

fn write_ban<S: TextSink>(sink: &mut S, judged: &JudgedEvent<'_>)
    ensures { (taken : List ℕ) → S.has_taken sink.old taken
        → S.has_taken sink.new (taken ++ definition.asks_for (codes "ban") (ban_level judged.now.sources.power)) }
{
    write_asking(sink, "ban");
    write_level(sink, judged.levels().ban());
}

fn write_kick<S: TextSink>(sink: &mut S, judged: &JudgedEvent<'_>)
    ensures { (taken : List ℕ) → S.has_taken sink.old taken
        → S.has_taken sink.new (taken ++ definition.asks_for (codes "kick") (kick_level judged.now.sources.power)) }
{
    write_asking(sink, "kick");
    write_level(sink, judged.levels().kick());
}

#[tactic(auto, unfolding(crate::specs::Because::asking))]
fn write_asking<S: TextSink>(sink: &mut S, what: &str)
    ensures { (taken : List ℕ) → S.has_taken sink.old taken
        → S.has_taken sink.new (taken ++ definition.asking what.now) }
{
    sink.put(b"; ");
    sink.put(what.as_bytes());
    sink.put(b" asks for ");
}

fn write_level<S: TextSink>(sink: &mut S, level: i64)
    ensures { (taken : List ℕ) → S.has_taken sink.old taken
        → S.has_taken sink.new (taken ++ definition.level_text level) }
{
    let number = Value::Number(Number::from(level));
    write_text(sink, &number);
}
