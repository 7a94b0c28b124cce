// The lines of a file of rooms that a server is to host.
ghost use Rattle.std.specs.Prelude.{◌≡◌, ◌≢◌, ◌⊎◌, false, IfErr, IfNone, IfOk, IfSome, OnErr};
ghost use Rattle.mx_pdu.specs.Offers.{offer_by};
ghost use Rattle.mx_world.specs.Worlds.{Stays};
ghost use Rattle.mx_world.specs.declared.steps.Step.TheVariants.{Host};
ghost use Rattle.mx_log.specs.HostAnswers.{IsHostAnswer, answer_hosts};
ghost use Rattle.mx_log.specs.HostLines.{HostsNone, HostsRoom, IsNext, answers_hosted, asks_to_host, tells_hosted};
ghost use Rattle.mx_step_replies.specs.Steps.{step_shown, host_step};
ghost use Rattle.mx_log.specs.Lines.{malformed_host, read_line as line_of, step_line};
ghost use Rattle.mx_log.specs.LinesShown.{line_shown};

use crate::answers::LineAnswer;
use crate::answers::writing::{write_answer, write_error};
use crate::lines::{Line, read_line};
use json::Scratch;
use mx_keeper::{BookRow, Keeper, ShardRow};
use mx_pdu::{Offered, Verifier};
use mx_shard::Answer;
use mx_world::{CallError, Step, StepReply, World};
use std::alloc::{AllocError, Global};
use std::io;
use std::io::Write;

/// What became of a line of a file of rooms.
#[derive(Clone, Copy, Debug, PartialEq, Eq, Drop)]
pub enum HostLineOutcome {
    // Its room is hosted now: by this line, or before it.
    Hosted,
    // It hosts no room.
    NotHosted,
    // It was refused for memory or storage, and nothing is done for it.
    Refused(CallError),
}

/// A line that is to host a room.
#[derive(Drop)]
pub enum HostLine {
    // It asks to host the room of this event.
    Event(Offered),
    // It asks to host a room by an event that has no form.
    Malformed,
    // It asks for something else, or for nothing.
    Other,
}

/// What a line asks to host. `AllocError` where no memory is left.
pub fn read_host_line<V: Verifier>(
    alloc: Global,
    verifier: &V,
    text: &[u8],
) -> Result<HostLine, AllocError>
    ensures event { IfOk result (λ line. (event : Offered) → line ≡ HostLine.Event event
        → line_of (offer_by (V.judges verifier.now)) text.now ≡ step_line (host_step event)) }
    ensures malformed { IfOk result (λ line. line ≡ HostLine.Malformed
        → line_of (offer_by (V.judges verifier.now)) text.now ≡ malformed_host) }
    ensures other { IfOk result (λ line. line ≡ HostLine.Other
        → asks_to_host (line_of (offer_by (V.judges verifier.now)) text.now) ≡ false) }
    ensures not_malformed { IfOk result (λ line. line ≡ HostLine.Other
        → line_of (offer_by (V.judges verifier.now)) text.now ≢ malformed_host) }
{
    let mut scratch = Scratch::new(alloc);
    let line = read_line(alloc, &mut scratch, verifier, text)?;
    Ok(hosting_line(line))
}

// What a line that was read asks to host.
fn hosting_line(line: Line) -> HostLine
    ensures event { (event : Offered) → result ≡ HostLine.Event event → line_shown line ≡ step_line (host_step event) }
    ensures malformed { result ≡ HostLine.Malformed → line_shown line ≡ malformed_host }
    ensures other { result ≡ HostLine.Other → asks_to_host (line_shown line) ≡ false }
    ensures not_malformed { result ≡ HostLine.Other → line_shown line ≢ malformed_host }
{
    match line {
        Line::Step(step) => match event_of_hosting(step) {
            Some(event) => HostLine::Event(event),
            None => HostLine::Other,
        },
        Line::MalformedHost => HostLine::Malformed,
        _ => HostLine::Other,
    }
}

/// Hosts the room of a line, as such a line of a log does. Where the room is not hosted now, by this line or before it,
/// what the line is answered is written to `err`, with a newline.
///
/// Every other line of a log is a bad one here, and its steps are not done. An error is one of `err`, and then no room is
/// hosted by the line.
pub fn host_by_line<K: Keeper<Row = ShardRow>, L: Keeper<Row = BookRow>, V: Verifier, W: Write>(
    alloc: Global,
    verifier: &V,
    world: &mut World<K, L>,
    line: &[u8],
    err: &mut W,
) -> io::Result<HostLineOutcome>
    ensures hosted { IfOk result (λ outcome. outcome ≡ HostLineOutcome.Hosted
        → HostsRoom (offer_by (V.judges verifier.now)) line.now world.old world.new) }
    ensures not_hosted { IfOk result (λ outcome. outcome ≡ HostLineOutcome.NotHosted
        → HostsNone (offer_by (V.judges verifier.now)) line.now world.old world.new) }
    ensures refused { IfOk result (λ outcome. (error : CallError) → outcome ≡ HostLineOutcome.Refused error
        → Stays world.old world.new) }
    ensures err { OnErr result (HostsNone (offer_by (V.judges verifier.now)) line.now world.old world.new
        ⊎ Stays world.old world.new) }
{
    match hosting_answer(alloc, verifier, world, line) {
        Ok(answer) => {
            if is_hosted(&answer) {
                return Ok(HostLineOutcome::Hosted);
            }
            let _told = write_answer(alloc, err, &answer)?;
            Ok(HostLineOutcome::NotHosted)
        }
        Err(error) => {
            write_error(err, error)?;
            Ok(HostLineOutcome::Refused(error))
        }
    }
}

// What a line is answered where no other than a line that hosts a room is done.
fn hosting_answer<K: Keeper<Row = ShardRow>, L: Keeper<Row = BookRow>, V: Verifier>(
    alloc: Global,
    verifier: &V,
    world: &mut World<K, L>,
    text: &[u8],
) -> Result<LineAnswer, CallError>
    ensures ok { IfOk result (λ answer. IsHostAnswer (offer_by (V.judges verifier.now)) text.now answer world.old world.new) }
    ensures err { OnErr result (Stays world.old world.new) }
{
    let mut scratch = Scratch::new(alloc);
    let line = read_line(alloc, &mut scratch, verifier, text)?;
    match event_to_host(line) {
        Ok(event) => {
            let reply = hosting_reply(alloc, world, event)?;
            Ok(LineAnswer::Step(reply))
        }
        Err(answer) => Ok(answer),
    }
}

// The event by which a line asks to host a room, or else what the line is answered.
fn event_to_host(line: Line) -> Result<Offered, LineAnswer>
    ensures event { IfOk result (λ event. line_shown line ≡ step_line (host_step event)) }
    ensures none { OnErr result (asks_to_host (line_shown line) ≡ false) }
    ensures answer { IfErr result (λ answer. answer_hosts answer ≡ false) }
{
    match hosting_line(line) {
        HostLine::Event(event) => Ok(event),
        HostLine::Malformed => Err(LineAnswer::MalformedHost),
        HostLine::Other => Err(LineAnswer::Bad),
    }
}

// The event of a step that hosts a room.
fn event_of_hosting(step: Step) -> Option<Offered>
    ensures event { IfSome result (λ event. step_shown step ≡ host_step event) }
    ensures none { IfNone result (asks_to_host (step_line (step_shown step)) ≡ false) }
{
    match step {
        Step::Host(event) => Some(event),
        _ => None,
    }
}

// The reply to the hosting of a room by its event.
fn hosting_reply<K: Keeper<Row = ShardRow>, L: Keeper<Row = BookRow>>(
    alloc: Global,
    world: &mut World<K, L>,
    event: Offered,
) -> Result<StepReply, CallError>
    ensures next { IfOk result (IsNext world.old world.new (Host event)) }
    ensures err { OnErr result (Stays world.old world.new) }
{
    let step = Step::Host(event);
    world.step(alloc, &step)
}

fn is_hosted(answer: &LineAnswer) -> bool
    ensures { result ≡ answer_hosts answer.now }
{
    match answer {
        LineAnswer::Step(reply) => tells_it_is_hosted(reply),
        _ => false,
    }
}

fn tells_it_is_hosted(reply: &StepReply) -> bool
    ensures { result ≡ tells_hosted reply.now }
{
    match reply {
        StepReply::OfRoom(answer) => is_answer_of_a_host(answer),
        _ => false,
    }
}

fn is_answer_of_a_host(answer: &Answer) -> bool
    ensures { result ≡ answers_hosted answer.now }
{
    matches!(answer, Answer::Hosted(_) | Answer::AlreadyHosted(_))
}
