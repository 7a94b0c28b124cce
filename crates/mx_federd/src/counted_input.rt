// Input, of which it is told each second how much was read, or which share of it, where its length is known.
use mx_directory::ProgressLine;
use std::io::{self, Read};

// What is counted.
const UNIT: &str = "bytes read";

/// Input, of which it is told how many bytes were read.
#[derive(Drop)]
pub struct CountedInput<'a, R> {
    input: &'a mut R,
    // How many bytes it has, where that is known.
    length: Option<u64>,
    progress: ProgressLine<'a>,
    count: u64,
}

impl<'a, R> CountedInput<'a, R> {
    /// Input of this length, if it is known, of which nothing was read yet.
    pub(crate) fn new(
        input: &'a mut R,
        length: Option<u64>,
        progress: ProgressLine<'a>,
    ) -> CountedInput<'a, R> {
        CountedInput {
            input,
            length,
            progress,
            count: 0,
        }
    }

    /// Ends the line on which shares were told, if one was begun.
    pub(crate) fn end_line(&mut self) {
        if let Some(length) = self.length {
            self.progress.end_share(self.count, length, UNIT);
        }
    }
}

impl<'a, R: Read> Read for CountedInput<'a, R> {
    fn read(&mut self, buf: &mut [u8]) -> io::Result<usize> {
        let read = self.input.read(buf)?;
        self.count = self.count.saturating_add(read as u64);
        match self.length {
            Some(_) if read == 0 => self.end_line(),
            Some(length) => self.progress.tell_share(self.count, length, UNIT),
            None => self.progress.tell(self.count, UNIT),
        }
        Ok(read)
    }
}
