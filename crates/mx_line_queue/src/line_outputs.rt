// Output that becomes lines.

use crate::line_senders::LineSender;
use std::alloc::Global;
use std::io::{self, Write};
use std::mem;
use std::sync::Wait;

/// Output whose lines are handed to a sender, each once it has its end. It takes all that is written.
#[derive(Drop)]
pub struct LineOutput<'a, R: Wait> {
    rt: &'a R,
    alloc: Global,
    lines: &'a LineSender,
    begun: Vec<u8>,
}

impl<'a, R: Wait> LineOutput<'a, R> {
    /// Nothing was written to it yet.
    pub fn new(rt: &'a R, alloc: Global, lines: &'a LineSender) -> LineOutput<'a, R> {
        LineOutput {
            rt,
            alloc,
            lines,
            begun: Vec::new(alloc),
        }
    }

    // One byte more. Where no memory is left for it, the line that it is of is dropped up to it.
    fn add(&mut self, byte: u8) {
        if self.begun.push(byte).is_err() {
            self.begun.clear();
            self.lines.send_dropped(self.rt);
        } else if byte == b'\n' {
            let line = mem::replace(&mut self.begun, Vec::new(self.alloc));
            self.lines.send(self.rt, line);
        }
    }
}

impl<'a, R: Wait> Write for LineOutput<'a, R> {
    fn write(&mut self, buf: &[u8]) -> io::Result<usize> {
        for byte in buf {
            self.add(*byte);
        }
        Ok(buf.len())
    }

    fn flush(&mut self) -> io::Result<()> {
        Ok(())
    }
}
