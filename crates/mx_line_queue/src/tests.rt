// That lines come to who writes them, in their order, with what is said of those that found no room: no clause says so.

use crate::{LineOutput, LineSender, QueueSender, QueuedLine, start_writer};
use std::alloc::{AllocError, Global};
use std::io::{self, ErrorKind, Write};
use std::sync::{Arc, Mutex, Wait};
use std::test::Fail;
use std::time::Duration;

// How long a test waits for lines at most.
const SECONDS: u64 = 50;

// Output whose bytes can be looked at.
#[derive(Drop)]
struct Shown<R> {
    rt: R,
    written: Arc<Mutex<Vec<u8>>>,
}

impl<R: Wait> Write for Shown<R> {
    fn write(&mut self, buf: &[u8]) -> io::Result<usize> {
        let mut written = self.written.lock(&self.rt);
        for byte in buf {
            written.push(*byte).map_err(AllocError::from)?;
        }
        Ok(buf.len())
    }

    fn flush(&mut self) -> io::Result<()> {
        Ok(())
    }
}

// A number whose text is made where it is written. No memory is left for that of 0.
#[derive(Drop)]
struct Numbered(u32);

impl QueuedLine for Numbered {
    fn write_to<W: Write>(&self, alloc: Global, out: &mut W) -> io::Result<()> {
        if self.0 == 0 {
            return Err(ErrorKind::OutOfMemory.into());
        }
        let text = format!(in alloc; "number {}\n", self.0)?;
        out.write_all(text.as_bytes())
    }
}

// No bytes yet.
fn none_shown(alloc: Global) -> Result<Arc<Mutex<Vec<u8>>>, AllocError> {
    let written = Arc::new(alloc, Mutex::new(Vec::new(alloc)))?;
    Ok(written)
}

// Lines of these texts.
fn send<R: Wait>(rt: &R, alloc: Global, lines: &LineSender, texts: &[&str]) {
    for text in texts {
        lines.send_text(rt, String::from_str(alloc, text));
    }
}

#[test]
fn lines_without_room_are_counted(rt: HostRuntime) -> Result<(), Fail> {
    let alloc = rt.alloc();
    let lines = LineSender::new(alloc, 2)?;
    send(&rt, alloc, &lines, &["a", "b", "c", "d", "e"]);
    let written = none_shown(alloc)?;
    let shown = Shown {
        rt,
        written: Arc::try_clone(&written)?,
    };
    start_writer(&rt, lines.another()?, shown)?;
    lines.close(&rt, Duration::from_secs(SECONDS));
    let told = b"a\nb\n3 lines were dropped here\n";
    assert_eq!(rt; written.lock(&rt).as_slice(), told.as_slice());
    Ok(())
}

#[test]
fn lines_come_one_after_another(rt: HostRuntime) -> Result<(), Fail> {
    let alloc = rt.alloc();
    let lines = LineSender::new(alloc, 8)?;
    let written = none_shown(alloc)?;
    let shown = Shown {
        rt,
        written: Arc::try_clone(&written)?,
    };
    start_writer(&rt, lines.another()?, shown)?;
    send(&rt, alloc, &lines, &["first"]);
    let mut output = LineOutput::new(&rt, alloc, &lines);
    write!(output, "sec")?;
    writeln!(output, "ond\nthird")?;
    lines.send_dropped(&rt);
    lines.close(&rt, Duration::from_secs(SECONDS));
    let told = b"first\nsecond\nthird\n1 line was dropped here\n";
    assert_eq!(rt; written.lock(&rt).as_slice(), told.as_slice());
    Ok(())
}

#[test]
fn texts_are_made_where_they_are_written(rt: HostRuntime) -> Result<(), Fail> {
    let alloc = rt.alloc();
    let lines = QueueSender::new(alloc, 3)?;
    for number in [1, 0, 2, 3] {
        lines.send(&rt, Numbered(number));
    }
    assert_eq!(rt; lines.dropped(&rt), 1);
    let written = none_shown(alloc)?;
    let shown = Shown {
        rt,
        written: Arc::try_clone(&written)?,
    };
    start_writer(&rt, lines.another()?, shown)?;
    lines.close(&rt, Duration::from_secs(SECONDS));
    let told = b"number 1\nnumber 2\n2 lines were dropped here\n";
    assert_eq!(rt; written.lock(&rt).as_slice(), told.as_slice());
    assert_eq!(rt; lines.dropped(&rt), 2);
    Ok(())
}
