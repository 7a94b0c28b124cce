//! Reads a log of other servers' requests on standard input, as `mx_federd replay` does, and prints what a server of the
//! name that its one argument says answers to each line: an example of the libraries in a program of one's own.
#![tactic(auto)]

use mx_ident::{IdError, ServerName};
use mx_keeper::ShardCount;
use mx_log::{LinesError, run_lines};
use mx_pdu::PresenceVerifier;
use std::env;
use std::io::{self, BufWriter, ErrorKind, Write};
use std::process::ExitCode;
use thiserror::Error;

/// Why a log was not answered to its end.
#[derive(Clone, Copy, Debug, Drop, Error)]
enum ReplayError {
    #[error("give the server's name as the one argument, for example hub.example")]
    NoName,
    #[error(transparent)]
    Lines(LinesError),
    #[error("failed read or write")]
    ReadOrWrite,
}

impl From<io::Error> for ReplayError {
    fn from(error: io::Error) -> ReplayError {
        match error.kind() {
            ErrorKind::OutOfMemory => ReplayError::Lines(LinesError::Memory),
            _ => ReplayError::ReadOrWrite,
        }
    }
}

impl From<LinesError> for ReplayError {
    fn from(error: LinesError) -> ReplayError {
        ReplayError::Lines(error)
    }
}

impl From<IdError> for ReplayError {
    fn from(_error: IdError) -> ReplayError {
        ReplayError::NoName
    }
}

// Answers the log on standard input, in one shard. A signature counts as good where an event has one: this server has no
// keys.
fn replay(rt: &HostRuntime, name: &ServerName) -> Result<(), ReplayError> {
    let shards = ShardCount::of(1).ok_or(ReplayError::NoName)?;
    let mut answers = BufWriter::new(rt.alloc(), rt.stdout())?;
    run_lines(
        rt.alloc(),
        &mut rt.stdin(),
        &mut answers,
        name,
        shards,
        &PresenceVerifier,
    )?;
    answers.flush()?;
    Ok(())
}

// The name that the one argument gives; the first word is the program's own.
fn name_given(rt: &HostRuntime) -> Result<ServerName, ReplayError> {
    let mut words = env::args(rt)?;
    match (words.nth(1), words.next()) {
        (Some(text), None) => Ok(ServerName::parse(rt.alloc(), &text)?),
        _ => Err(ReplayError::NoName),
    }
}

fn main(rt: HostRuntime) -> ExitCode {
    match name_given(&rt).and_then(|name| replay(&rt, &name)) {
        Ok(()) => ExitCode::SUCCESS,
        Err(error) => {
            let _ = writeln!(rt.stderr(), "{error}");
            ExitCode::FAILURE
        }
    }
}
