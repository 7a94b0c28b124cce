// What may wait to be written.

use std::alloc::Global;
use std::io::{self, Write};

/// A line of a queue, whose text is made where it is written.
pub trait QueuedLine {
    /// Writes the line, with its end. Where no memory is left for its text the error is of kind `OutOfMemory`, and nothing
    /// was written.
    fn write_to<W: Write>(&self, alloc: Global, out: &mut W) -> io::Result<()>;
}

// A text that has its end.
impl QueuedLine for Vec<u8> {
    fn write_to<W: Write>(&self, _alloc: Global, out: &mut W) -> io::Result<()> {
        out.write_all(self)
    }
}
