// What takes a text in pieces.
ghost use Rattle.std.specs.Prelude.{◌≡◌, ℕ, ◌++◌, List, [], IfOk, MatchResult, true, false};
ghost use Rattle.mx_canon.specs.Sinks.{HoldsText, is_refused};

use std::alloc::{AllocError, Global};

/// Takes a text in pieces, and refuses none: a hash, or a count of bytes.
pub trait TextSink {
    // The sink has taken this text.
    ghost has_taken: { Self → List ℕ → Type 0 };

    /// Takes one piece more.
    fn put(&mut self, piece: &[u8])
        ensures { (taken : List ℕ) → has_taken self.old taken → has_taken self.new (taken ++ piece.now) };
}

/// A sink that counts the bytes of a text, up to `u64::MAX`.
#[derive(Clone, Copy, Debug, PartialEq, Eq)]
pub struct TextLength {
    pub bytes: u64,
}

impl TextSink for TextLength {
    ghost use Rattle.mx_canon.specs.Sinks.{IsLengthOf};

    ghost has_taken = { IsLengthOf };

    fn put(&mut self, piece: &[u8]) {
        self.bytes = self.bytes.saturating_add(piece.len() as u64);
    }
}

/// A sink that keeps a text in memory, or learns that memory ran out.
#[derive(Drop)]
pub struct TextBuffer {
    bytes: Vec<u8>,
    is_refused: bool,
}

impl TextBuffer {
    /// A buffer that has taken nothing.
    pub fn new(alloc: Global) -> TextBuffer
        ensures text { HoldsText result [] }
        ensures refused { is_refused result ≡ false }
    {
        TextBuffer {
            bytes: Vec::new(alloc),
            is_refused: false,
        }
    }

    /// A buffer that has taken nothing, with room for so many bytes.
    pub fn with_capacity(alloc: Global, capacity: usize) -> Result<TextBuffer, AllocError>
        ensures text { IfOk result (λ buffer. HoldsText buffer []) }
        ensures refused { IfOk result (λ buffer. is_refused buffer ≡ false) }
    {
        let bytes = Vec::with_capacity(alloc, capacity)?;
        Ok(TextBuffer {
            bytes,
            is_refused: false,
        })
    }

    /// The text that it has taken.
    ///
    /// `AllocError` where it was refused the memory for a piece, and nowhere else.
    pub fn into_bytes(self) -> Result<Vec<u8>, AllocError>
        ensures ok { IfOk result (λ bytes. (text : List ℕ) → HoldsText self text → bytes.items ≡ text) }
        ensures refused { MatchResult result (λ _. is_refused self ≡ false) (λ _. is_refused self ≡ true) }
    {
        if self.is_refused {
            Err(AllocError)
        } else {
            Ok(self.bytes)
        }
    }
}

impl TextSink for TextBuffer {
    ghost has_taken = { HoldsText };

    fn put(&mut self, piece: &[u8]) {
        if self.bytes.extend_from_slice(piece).is_err() {
            self.is_refused = true;
        }
    }
}
