// Output, of which it is noted when whoever reads it has gone.
use std::io::{self, ErrorKind, Write};

/// Output, and whether a write failed since its reader has closed it.
#[derive(Drop)]
pub(crate) struct NotedOutput<'a, W> {
    out: &'a mut W,
    is_closed: bool,
}

impl<'a, W> NotedOutput<'a, W> {
    /// Output to which nothing was written yet.
    pub(crate) fn new(out: &'a mut W) -> NotedOutput<'a, W> {
        NotedOutput {
            out,
            is_closed: false,
        }
    }

    /// Whether its reader has closed it.
    pub(crate) fn is_closed(&self) -> bool {
        self.is_closed
    }

    // A write has failed so.
    fn note(&mut self, error: &io::Error) {
        self.is_closed = self.is_closed || error.kind() == ErrorKind::BrokenPipe;
    }
}

impl<'a, W: Write> Write for NotedOutput<'a, W> {
    fn write(&mut self, buf: &[u8]) -> io::Result<usize> {
        match self.out.write(buf) {
            Ok(count) => Ok(count),
            Err(error) => {
                self.note(&error);
                Err(error)
            }
        }
    }

    fn flush(&mut self) -> io::Result<()> {
        match self.out.flush() {
            Ok(()) => Ok(()),
            Err(error) => {
                self.note(&error);
                Err(error)
            }
        }
    }
}
