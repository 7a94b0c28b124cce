// The lines for who runs a server, on their way to the log and to the admin port too.
use crate::failures::Failures;
use crate::record_logs::RecordLog;
use mx_line_queue::LineSender;
use mx_records::{Notice, NoticeKind, Subject};
use std::alloc::{AllocError, AllocGlobal, Global};
use std::io::{self, Write};
use std::mem;
use std::sync::Wait;
use std::time::Clock;

/// Where the lines for who runs a server go: as they are to who writes them, unless there the log stands; to the log as records,
/// where there is one; and those of failed files to who asks at the admin port. It waits for no write.
#[derive(Drop)]
pub struct NoticePaths {
    pub lines: Option<LineSender>,
    pub log: Option<RecordLog>,
    pub failures: Failures,
}

/// Output whose lines go these paths, each once it has its end. It takes all that is written.
#[derive(Drop)]
pub struct NoticeOutput<R> {
    rt: R,
    paths: NoticePaths,
    begun: Vec<u8>,
}

impl<R: Wait + Clock + AllocGlobal> NoticeOutput<R> {
    /// Nothing was written to it yet.
    pub fn new(rt: R, paths: NoticePaths) -> NoticeOutput<R> {
        let begun = Vec::new(rt.alloc());
        NoticeOutput { rt, paths, begun }
    }

    // One byte more. Where no memory is left for it, the line that it is of is dropped up to it.
    fn add(&mut self, byte: u8) {
        if self.begun.push(byte).is_err() {
            self.begun.clear();
            self.paths.drop_line(&self.rt);
        } else if byte == b'\n' {
            let alloc = self.rt.alloc();
            let line = mem::replace(&mut self.begun, Vec::new(alloc));
            if self.paths.pass(&self.rt, alloc, line).is_err() {
                self.paths.drop_line(&self.rt);
            }
        }
    }
}

impl<R: Wait + Clock + AllocGlobal> Write for NoticeOutput<R> {
    fn write(&mut self, buf: &[u8]) -> io::Result<usize> {
        for byte in buf {
            self.add(*byte);
        }
        Ok(buf.len())
    }

    fn flush(&mut self) -> io::Result<()> {
        Ok(())
    }
}

impl NoticePaths {
    // A line, with its end. `AllocError` where no memory is left to tell the log of it.
    fn pass<R: Wait + Clock>(
        &self,
        rt: &R,
        alloc: Global,
        line: Vec<u8>,
    ) -> Result<(), AllocError> {
        let mut text = String::from_utf8_lossy(alloc, &line)?;
        if let Some(lines) = &self.lines {
            lines.send(rt, line);
        }
        let kind = NoticeKind::of_line(&text);
        if kind == NoticeKind::FileFailed {
            self.failures.add(rt, &text);
        }
        if let Some(log) = &self.log {
            let _end = text.pop();
            log.tell(rt, Subject::Notice(Notice { kind, text }));
        }
        Ok(())
    }

    fn drop_line<R: Wait>(&self, rt: &R) {
        if let Some(lines) = &self.lines {
            lines.send_dropped(rt);
        }
        if let Some(log) = &self.log {
            log.tell_dropped(rt);
        }
    }
}
