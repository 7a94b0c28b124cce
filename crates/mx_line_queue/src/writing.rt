// The thread that writes lines.

use crate::line_senders::{NextLine, QueueSender};
use crate::lines::QueuedLine;
use std::alloc::AllocGlobal;
use std::io::{self, BufWriter, ErrorKind, Write};
use std::sync::Wait;
use std::thread::{self, Builder, Threads};
use std::time::{Clock, Duration};

// For how many milliseconds lines are gathered, to be written together.
const GATHERED_FOR: u64 = 10;

/// Starts a thread that writes the lines of a sender, in the order in which they came, until no line comes any more and all
/// are written. A line is written within some ten milliseconds, together with those that came meanwhile. Where `out` takes
/// nothing, some eight kilobytes of lines are kept for it, and further ones are lost. A line for whose text no memory is
/// left counts as dropped, which is told behind those that wait.
///
/// The error is the system's, where no thread can be started, or that no memory is left.
pub fn start_writer<R, L, W>(rt: &R, lines: QueueSender<L>, out: W) -> io::Result<()>
where
    R: Threads + Wait + Clock + AllocGlobal + Copy + Send + Drop + 'static,
    L: QueuedLine + Send + Drop + 'static,
    W: Write + Send + Drop + 'static,
{
    let runtime = *rt;
    let mut out = BufWriter::new(rt.alloc(), out)?;
    Builder::new().spawn(rt, move || write_all(&runtime, &lines, &mut out))?;
    Ok(())
}

// Writes the lines of a sender until no more come.
fn write_all<R, L, W>(rt: &R, lines: &QueueSender<L>, out: &mut W)
where
    R: Wait + Clock + AllocGlobal,
    L: QueuedLine + Drop,
    W: Write,
{
    for _ in rt.forever() {
        if !lines.wait(rt) {
            return;
        }
        thread::sleep(rt, Duration::from_millis(GATHERED_FOR));
        write_waiting(rt, lines, out);
    }
}

// Writes the lines that wait, and those that come meanwhile.
fn write_waiting<R, L, W>(rt: &R, lines: &QueueSender<L>, out: &mut W)
where
    R: Wait + AllocGlobal,
    L: QueuedLine + Drop,
    W: Write,
{
    for _ in rt.forever() {
        let Some(next) = lines.next(rt) else {
            break;
        };
        match next {
            NextLine::Line(line) => write_line(rt, lines, &line, out),
            NextLine::Dropped(count) => {
                let _ = write_dropped(out, count);
            }
        }
    }
    let _ = out.flush();
}

// Writes a line. Where no memory is left for its text, it is counted.
fn write_line<R, L, W>(rt: &R, lines: &QueueSender<L>, line: &L, out: &mut W)
where
    R: Wait + AllocGlobal,
    L: QueuedLine + Drop,
    W: Write,
{
    match line.write_to(rt.alloc(), out) {
        Err(error) if error.kind() == ErrorKind::OutOfMemory => lines.send_dropped(rt),
        _ => (),
    }
}

// Writes how many were dropped.
fn write_dropped<W: Write>(out: &mut W, count: u64) -> io::Result<()> {
    match count {
        1 => writeln!(out, "1 line was dropped here"),
        _ => writeln!(out, "{count} lines were dropped here"),
    }
}
