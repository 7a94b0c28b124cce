// The lines of an input, one at a time.
ghost use Rattle.std.specs.Prelude.{◌≡◌, ◌≤◌, [], vec_len};
ghost use Rattle.mx_log.specs.declared.line_reader.TheConstants.{CHUNK_BYTES};

use crate::input::{InputError, MOST_READS};
use memchr::memchr;
use std::alloc::{AllocError, Global};
use std::io::{ErrorKind, Read};

// How many bytes one read may give.
const CHUNK_BYTES: usize = 16_384;

// The longest line whose buffer is kept for the next one.
const LONGEST_KEPT: usize = 1 << 20;

/// What was read of an input and not yet taken: of its last read the bytes from `start` to `end`. A reader is for one
/// input, which each call is given.
#[derive(Drop)]
pub(crate) struct LineReader {
    chunk: Vec<u8>,
    start: usize,
    end: usize,
    reads_left: u64,
    ghost size: { vec_len chunk ≡ CHUNK_BYTES },
    ghost in_order: { start ≤ end },
    ghost within: { end ≤ CHUNK_BYTES },
}

impl LineReader {
    ghost use Rattle.std.specs.Prelude.{◌≡◌, ◌++◌, ◌∷◌, ◌<◌, List, [], ℕ, IfOk, IfSome, OnOk, Ok, true, false};
    ghost use Rattle.std.specs.Io.KnownBytes.{Consumes, IsAtEnd, Keeps};
    ghost use Rattle.mx_log.specs.LineReading.{AreTaken, IsOneLine, IsTakenFrom, held, left, turns_left};
    ghost use Rattle.mx_log.specs.Lines.{lines_of};

    /// A reader that has read nothing yet.
    pub(crate) fn new(alloc: Global) -> Result<LineReader, AllocError>
        ensures { IfOk result (λ lines. held lines ≡ []) }
    {
        let chunk = vec![in alloc; 0u8; CHUNK_BYTES]?;
        Ok(LineReader {
            chunk,
            start: 0,
            end: 0,
            reads_left: MOST_READS,
        })
    }

    /// Reads the next line into `line`, in place of what that held, and tells whether there was one. The last line may
    /// lack its newline.
    ///
    /// `Memory` where the line finds no memory, `Read` where a read fails, or where there is no end after 2^32 of them.
    /// After an error nothing is said of what is left.
    pub(crate) fn next_line<R: Read>(
        &mut self,
        alloc: Global,
        input: &mut R,
        line: &mut Vec<u8>,
    ) -> Result<bool, InputError>
        ensures line { result ≡ Ok true → AreTaken (left self.old (R.remaining input.old))
            (left self.new (R.remaining input.new)) (line.new.items ∷ []) }
        ensures none { result ≡ Ok false → IfSome (left self.old (R.remaining input.old)) (λ all. lines_of all ≡ []) }
        ensures fewer { result ≡ Ok true → turns_left self.new < turns_left self.old }
    {
        if self.read_line(alloc, input, line)? {
            return Ok(true);
        }
        Ok(!line.is_empty())
    }

    // Reads what comes up to the next newline, and tells whether there was one, which is passed. Where there was none the
    // input is at its end.
    fn read_line<R: Read>(
        &mut self,
        alloc: Global,
        input: &mut R,
        line: &mut Vec<u8>,
    ) -> Result<bool, InputError>
        ensures one { OnOk result (IsOneLine line.new.items) }
        ensures ended { result ≡ Ok true → Consumes (left self.old (R.remaining input.old))
            (left self.new (R.remaining input.new)) (line.new.items ++ 10 ∷ []) }
        ensures last { result ≡ Ok false → Consumes (left self.old (R.remaining input.old))
            (left self.new (R.remaining input.new)) line.new.items }
        ensures end { result ≡ Ok false → IsAtEnd (left self.new (R.remaining input.new)) }
        ensures fewer { OnOk result (turns_left self.new < turns_left self.old) }
    {
        empty(alloc, line);
        while !self.take_line(line)? {
            if self.is_at_end(input)? {
                return Ok(false);
            }
        }
        Ok(true)
    }

    // Moves what is held up to the next newline to the end of `line`, and tells whether there was one, which is passed.
    fn take_line(&mut self, line: &mut Vec<u8>) -> Result<bool, AllocError>
        ensures { IfOk result (λ is_ended. (taken : List ℕ) × (line.new.items ≡ line.old.items ++ taken)
            × IsTakenFrom self.old self.new is_ended taken) }
    {
        let held = &self.chunk[self.start..self.end];
        match memchr(b'\n', held) {
            Some(place) => {
                line.extend_from_slice(&held[..place])?;
                self.start += place + 1;
                Ok(true)
            }
            None => {
                line.extend_from_slice(held)?;
                self.start = self.end;
                Ok(false)
            }
        }
    }

    // Reads once, where nothing is held. A read that was interrupted gives nothing, and another may follow.
    fn is_at_end<R: Read>(&mut self, input: &mut R) -> Result<bool, InputError>
        requires { held self.old ≡ [] }
        ensures kept { OnOk result (Keeps (left self.old (R.remaining input.old)) (left self.new (R.remaining input.new))) }
        ensures end { result ≡ Ok true → IsAtEnd (left self.new (R.remaining input.new)) }
        ensures fewer { OnOk result (turns_left self.new < turns_left self.old) }
    {
        if self.reads_left == 0 {
            return Err(InputError::Read);
        }
        self.reads_left -= 1;
        self.start = 0;
        self.end = 0;
        match input.read(&mut self.chunk) {
            Ok(0) => Ok(true),
            Ok(count) => {
                self.end = count;
                Ok(false)
            }
            Err(error) if error.kind() == ErrorKind::Interrupted => Ok(false),
            Err(_) => Err(InputError::Read),
        }
    }
}

// Empties a line. A long one gives its memory back.
fn empty(alloc: Global, line: &mut Vec<u8>)
    ensures { line.new.items ≡ [] }
{
    if line.len() > LONGEST_KEPT {
        *line = Vec::new(alloc);
    } else {
        line.clear();
    }
}
