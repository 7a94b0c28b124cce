// The lines that tell of a resolution.
ghost use Rattle.std.specs.Prelude.{◌≡◌, ◌++◌, ℕ, IfOk, List, Some, flat_map};
ghost use Rattle.mx_graph.specs.StateMap.{State};
ghost use Rattle.mx_audit.specs.EventLines as definition;

use crate::entry_lines::{id_at, write_rest};
use crate::reasons::{label_of, sentence_of};
use crate::steps::{ResolutionStep, ResolutionSteps};
use mx_canon::{TextBuffer, TextSink, write_key, write_string};
use mx_lines::{end_line, open_line, write_flag, write_id, write_number, write_text_if};
use mx_receipt::Timeline;
use mx_states::{StateEntry, StateMap};
use std::alloc::{AllocError, Global};

/// A resolution in lines: the entries in conflict of each state, by the state's place from 0, then the checks of the power
/// events in power order, and those of the other events in mainline order, each with the line of the rules that does not
/// allow the event, where there is one. `AllocError` where no memory is left.
pub fn lines_of_resolution(
    alloc: Global,
    timeline: &Timeline,
    steps: &ResolutionSteps,
) -> Result<Vec<u8>, AllocError>
    ensures { IfOk result (λ lines. lines.items ≡ definition.resolution_text timeline.now.kept
        steps.now.conflicted.items steps.now.power.items steps.now.others.items) }
{
    let mut lines = TextBuffer::new(alloc);
    write_conflicts(&mut lines, timeline, &steps.conflicted);
    write_steps(&mut lines, timeline, "power", &steps.power);
    write_steps(&mut lines, timeline, "mainline", &steps.others);
    let bytes = lines.into_bytes()?;
    Ok(bytes)
}

fn write_conflicts<S: TextSink>(sink: &mut S, timeline: &Timeline, states: &[StateMap])
    ensures { (taken : List ℕ) → S.has_taken sink.old taken
        → S.has_taken sink.new (taken ++ definition.conflicts_text timeline.now.kept 0 states.now) }
{
    for (place, state) in states.iter().enumerate() {
        write_conflict(sink, timeline, place, state.entries());
    }
}

fn write_conflict<S: TextSink>(
    sink: &mut S,
    timeline: &Timeline,
    place: usize,
    entries: &[StateEntry],
)
    ensures { (taken : List ℕ) → S.has_taken sink.old taken
        → S.has_taken sink.new (taken ++ definition.conflict_text timeline.now.kept place entries.now) }
{
    for entry in entries {
        write_conflicted(sink, timeline, place, entry);
    }
}

fn write_conflicted<S: TextSink>(
    sink: &mut S,
    timeline: &Timeline,
    place: usize,
    entry: &StateEntry,
)
    ensures { (taken : List ℕ) → S.has_taken sink.old taken
        → S.has_taken sink.new (taken ++ definition.conflict_line timeline.now.kept place entry.now) }
{
    open_line(sink, b"conflicted");
    write_number(sink, place as u64);
    write_key(sink, true, b"event_id");
    write_id(sink, id_at(timeline, Some(entry.event())));
    write_rest(sink, entry.kind(), entry.state_key());
    sink.put(b"\n");
}

fn write_steps<S: TextSink>(
    sink: &mut S,
    timeline: &Timeline,
    order: &str,
    steps: &[ResolutionStep],
)
    ensures { (taken : List ℕ) → S.has_taken sink.old taken
        → S.has_taken sink.new (taken ++ flat_map (definition.step_text timeline.now.kept order.now) steps.now) }
{
    for step in steps {
        write_step(sink, timeline, order, *step);
    }
}

fn write_step<S: TextSink>(sink: &mut S, timeline: &Timeline, order: &str, step: ResolutionStep)
    ensures { (taken : List ℕ) → S.has_taken sink.old taken
        → S.has_taken sink.new (taken ++ definition.step_text timeline.now.kept order.now step) }
{
    open_line(sink, b"allowed");
    write_flag(sink, step.refusal.is_none());
    write_text_if(sink, b"because", sentence_of(step.refusal));
    write_key(sink, true, b"event_id");
    write_id(sink, id_at(timeline, Some(step.event)));
    write_key(sink, true, b"order");
    write_string(sink, order.as_bytes());
    write_text_if(sink, b"rule", label_of(step.refusal));
    end_line(sink);
}
