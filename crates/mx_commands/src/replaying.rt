// `replay`: a log of lines, one line out for each line of it.
use crate::bad_lines::why_bad;
use crate::output::{Failure, FailureAbout, flushed};
use mx_log::{BadLine, run_lines, run_lines_to_bad};
use mx_options::ReplayOptions;
use mx_pdu::PresenceVerifier;
use std::alloc::{AllocError, Global};
use std::io::{BufWriter, Read, Write};

/// Answers the log as a new server. `BadLine` where it is to end at the first bad line, and has one: that line is answered too,
/// and its number and fault are told.
pub fn replay<R: Read, W: Write>(
    alloc: Global,
    options: &ReplayOptions,
    log: &mut R,
    out: &mut W,
) -> Result<(), FailureAbout> {
    let mut answers = BufWriter::new(alloc, out).map_err(Failure::of_io)?;
    let bad = answered(alloc, options, log, &mut answers)?;
    flushed(&mut answers)?;
    match bad {
        Some(bad) => Err(bad_line(alloc, &bad)),
        None => Ok(()),
    }
}

// Answers the log to its end, or to its first bad line, which it gives.
fn answered<R: Read, W: Write>(
    alloc: Global,
    options: &ReplayOptions,
    log: &mut R,
    answers: &mut W,
) -> Result<Option<BadLine>, Failure> {
    let name = &options.name;
    let shards = options.shards;
    if options.is_strict {
        let bad = run_lines_to_bad(alloc, log, answers, name, shards, &PresenceVerifier)?;
        return Ok(bad);
    }
    run_lines(alloc, log, answers, name, shards, &PresenceVerifier)?;
    Ok(None)
}

// What is told of a bad line. Where no memory is left for its fault that is left out.
fn bad_line(alloc: Global, bad: &BadLine) -> FailureAbout {
    FailureAbout {
        failure: Failure::BadLine,
        cause: cause_of(alloc, bad).ok(),
    }
}

fn cause_of(alloc: Global, bad: &BadLine) -> Result<String, AllocError> {
    let number = bad.number;
    let why = why_bad(alloc, &bad.text)?;
    format!(in alloc; "line {number}: {why}")
}
