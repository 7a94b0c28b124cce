//! `mx_federd`: a Matrix federation room server. `check` reads one event from standard input and prints its id,
//! whether its content hash holds, and its canonical text. `replay` reads a log of steps and of other servers' requests
//! from standard input and prints what a server answers to each. `serve` answers such requests on loopback, and keeps its
//! rows in files. `audit` tells of a room, of a log or of such files, why its events were accepted or refused, and what its
//! states are. `migrate` brings such files to the current layout. `log` reads events as other servers export them, and prints a
//! log of one room.
#![tactic(auto)]

ghost use Rattle.std.specs.Prelude.{◌≡◌, OnErr, OnOk};

mod counted_input;
mod noted_output;

use counted_input::CountedInput;
use mx_command_line::{Command, CommandLineError, Invocation};
use mx_commands::{
    Failure, FailureAbout, MISUSED, REFUSED, SUCCESS, audit, check, log, replay, report,
    report_about, report_server,
};
use mx_directory::{ProgressLine, StartError, migrate};
use mx_line_queue::LineOutput;
use mx_options::{AuditOptions, MigrateOptions, ServeOptions};
use mx_server::serve;
use mx_watch::ServerLines;
use noted_output::NotedOutput;
use std::alloc::{AllocError, AllocGlobal, Global};
use std::env;
use std::fs::File;
use std::io::{self, ErrorKind, Read, Write};
use std::net::{Net, TcpListener, TcpStream};
use std::process::ExitCode;
use std::random::RandomSource;
use std::sync::Wait;
use std::thread::Threads;
use std::time::Clock;

/// What the words of the command line leave to do.
#[derive(Debug, Drop)]
pub enum Asked {
    // Nothing: this is the exit status.
    Ended(u8),
    // To serve. Threads and sockets are what `main` alone has.
    Serve(ServeOptions),
    // To audit a room. Its events may be in files, which `main` alone has.
    Audit(AuditOptions),
    // To bring files to the current layout, which `main` alone has.
    Migrate(MigrateOptions),
}

/// What the words of the command line ask for, the first of which is the program's name, or the exit status where they ask for
/// nothing: 1 where no memory is left, and else 2. What is wrong is said on `err`.
pub fn invocation_of<E: Write>(
    alloc: Global,
    words: &[String],
    err: &mut E,
) -> Result<Invocation, u8> {
    match mx_command_line::parse(alloc, words) {
        Ok(invocation) => Ok(invocation),
        Err(CommandLineError::Memory) => Err(report(Failure::Memory, err)),
        Err(CommandLineError::Misused(text)) => {
            let _ = err.write_all(text.as_bytes());
            Err(MISUSED)
        }
    }
}

/// Does what the program is asked, all but to serve, to audit and to migrate. The exit status is 0, or 1 where the input is
/// refused, memory runs out, storage fails, or a read or a write fails. What went wrong is said on `err`, in one line, and in a
/// second what that is about, if that is known; where the reader of `out` has closed it, as `head` does, nothing is said.
pub fn main_with<R: Read, W: Write, E: Write>(
    alloc: Global,
    command: Command,
    input: &mut CountedInput<'_, R>,
    out: &mut W,
    err: &mut E,
) -> Asked {
    let mut out = NotedOutput::new(out);
    let ran = match command {
        Command::Check(options) => check(alloc, options, input, &mut out),
        Command::Replay(options) => replay(alloc, &options, input, &mut out),
        Command::Log(options) => {
            log(alloc, &options, input, &mut out, err).map_err(FailureAbout::from)
        }
        Command::Version(text) => told(&mut out, &text),
        Command::Serve(options) => return Asked::Serve(options),
        Command::Audit(options) => return Asked::Audit(options),
        Command::Migrate(options) => return Asked::Migrate(options),
    };
    input.end_line();
    Asked::Ended(status_of(ran, out.is_closed(), err))
}

// Writes a text.
fn told<W: Write>(out: &mut W, text: &str) -> Result<(), FailureAbout> {
    out.write_all(text.as_bytes()).map_err(Failure::of_io)?;
    out.flush().map_err(Failure::of_io)?;
    Ok(())
}

// The exit status of a run that gave so, and whose output is closed or not.
fn status_of<E: Write>(ran: Result<(), FailureAbout>, is_closed: bool, err: &mut E) -> u8
    ensures done { OnOk ran (result ≡ SUCCESS) }
    ensures failed { OnErr ran (result ≡ REFUSED) }
{
    match ran {
        Ok(()) => SUCCESS,
        Err(about) if is_closed && about.failure == Failure::ReadOrWrite => REFUSED,
        Err(about) => report_about(about, err),
    }
}

// Serves, and gives the exit status.
fn served<R, W: Write, E: Write>(
    rt: &R,
    host: &HostRuntime,
    options: ServeOptions,
    out: &mut W,
    err: &mut E,
) -> u8
where
    R: Threads
        + Wait
        + Clock
        + Net<Listener = TcpListener, Stream = TcpStream>
        + RandomSource
        + AllocGlobal
        + Copy
        + Drop
        + Send
        + Sync
        + 'static,
{
    let lines = match ServerLines::open(rt, host, &options.log) {
        Ok(lines) => lines,
        Err(error) => return report_server(error, err),
    };
    let status = match served_by(rt, host, options, out, &lines) {
        Ok(()) => SUCCESS,
        Err(error) => report_server(error, &mut LineOutput::new(rt, rt.alloc(), &lines.lines)),
    };
    lines.close(rt);
    status
}

// Serves, and says what happens through these lines.
fn served_by<R, W: Write>(
    rt: &R,
    host: &HostRuntime,
    options: ServeOptions,
    out: &mut W,
    lines: &ServerLines,
) -> Result<(), StartError>
where
    R: Threads
        + Wait
        + Clock
        + Net<Listener = TcpListener, Stream = TcpStream>
        + RandomSource
        + AllocGlobal
        + Copy
        + Drop
        + Send
        + Sync
        + 'static,
{
    let told = lines.told()?;
    serve(rt, host, options, out, told)
}

// Audits a room, and gives the exit status.
fn audited<R: Read, W: Write, E: Write>(
    host: &HostRuntime,
    options: AuditOptions,
    log: &mut CountedInput<'_, R>,
    out: &mut W,
    err: &mut E,
) -> u8 {
    let mut out = NotedOutput::new(out);
    let told = audit(host, options, log, &mut out, err);
    log.end_line();
    match told {
        Ok(()) => SUCCESS,
        Err(_) if out.is_closed() => REFUSED,
        Err(about) => report_about(about, err),
    }
}

// The words of the command line, or the exit status where they can't be had: 2 where one is no UTF-8.
fn words_or_status(rt: &HostRuntime) -> Result<Vec<String>, u8> {
    match words_of(rt) {
        Ok(words) => Ok(words),
        Err(error) if error.kind() == ErrorKind::InvalidData => {
            let _ = rt.stderr().write_all(b"a word is no UTF-8\n");
            Err(MISUSED)
        }
        Err(error) => Err(report(Failure::of_io(error), &mut rt.stderr())),
    }
}

fn words_of(rt: &HostRuntime) -> io::Result<Vec<String>> {
    let mut words = Vec::new(rt.alloc());
    for word in env::args(rt)? {
        words.push(word).map_err(AllocError::from)?;
    }
    Ok(words)
}

// Does what the words ask for, with the file that they name in place of standard input, and gives the exit status.
fn status_by<R, I: Read, W: Write, E: Write>(
    rt: &R,
    host: &HostRuntime,
    words: &[String],
    input: &mut I,
    out: &mut W,
    err: &mut E,
) -> u8
where
    R: Threads
        + Wait
        + Clock
        + Net<Listener = TcpListener, Stream = TcpStream>
        + RandomSource
        + AllocGlobal
        + Copy
        + Drop
        + Send
        + Sync
        + 'static,
{
    let Invocation {
        command,
        input: file,
    } = match invocation_of(rt.alloc(), words, err) {
        Ok(invocation) => invocation,
        Err(status) => return status,
    };
    let progress = ProgressLine::new(host);
    match file {
        None => {
            let mut counted = CountedInput::new(input, None, progress);
            status_with(rt, host, command, &mut counted, out, err)
        }
        Some(path) => match File::open(host, path.as_str()) {
            Ok(mut file) => {
                let length = length_of(&file);
                let mut counted = CountedInput::new(&mut file, length, progress);
                status_with(rt, host, command, &mut counted, out, err)
            }
            Err(error) => unopened(&path, &error, err),
        },
    }
}

// How many bytes a file has; none of what is no plain file, such as a pipe.
fn length_of(file: &File) -> Option<u64> {
    match file.metadata() {
        Ok(about) if about.is_file() => Some(about.len()),
        _ => None,
    }
}

// Says that a file can't be opened, and gives the exit status.
fn unopened<E: Write>(path: &str, error: &io::Error, err: &mut E) -> u8 {
    let status = report(Failure::ReadOrWrite, err);
    let _ = writeln!(err, "{path}: {error}");
    status
}

// Does what the program is asked, and gives the exit status. Where standard error is a terminal it tells how much was read.
fn status_with<R, I: Read, W: Write, E: Write>(
    rt: &R,
    host: &HostRuntime,
    command: Command,
    input: &mut CountedInput<'_, I>,
    out: &mut W,
    err: &mut E,
) -> u8
where
    R: Threads
        + Wait
        + Clock
        + Net<Listener = TcpListener, Stream = TcpStream>
        + RandomSource
        + AllocGlobal
        + Copy
        + Drop
        + Send
        + Sync
        + 'static,
{
    match main_with(rt.alloc(), command, input, out, err) {
        Asked::Ended(status) => status,
        Asked::Serve(options) => served(rt, host, options, out, err),
        Asked::Audit(options) => audited(host, options, input, out, err),
        Asked::Migrate(options) => match migrate(rt, host, &options.data, options.shards, out) {
            Ok(()) => SUCCESS,
            Err(error) => report_server(error, err),
        },
    }
}

fn main(rt: HostRuntime) -> ExitCode {
    let status = match words_or_status(&rt) {
        Ok(words) => status_by(
            &rt,
            &rt,
            &words,
            &mut rt.stdin(),
            &mut rt.stdout(),
            &mut rt.stderr(),
        ),
        Err(status) => status,
    };
    ExitCode::from(status)
}
