// SHA-256 of a text that comes in pieces.
ghost use Rattle.std.specs.Prelude.{◌≡◌, ℕ, List, [], ◌++◌};
ghost use Rattle.sha2.specs.Sha256.{sha256};
ghost use Rattle.mx_redact.specs.Hashers.{HoldsMessage};

use arrayvec::ArrayVec;
use mx_canon::TextSink;
use sha2::{Digest, Sha256};

// How many bytes are gathered, so that the hash takes few pieces.
const CAPACITY: usize = 1024;

/// A sink that hashes a text as it comes.
#[derive(Drop)]
pub(crate) struct TextHasher {
    hasher: Sha256,
    // The end of the text, which the hash has yet to take.
    waiting: ArrayVec<u8, CAPACITY>,
}

impl TextHasher {
    pub(crate) fn new() -> TextHasher
        ensures { HoldsMessage result [] }
    {
        TextHasher {
            hasher: Sha256::new(),
            waiting: ArrayVec::new(),
        }
    }

    /// The hash of the text that it has taken.
    pub(crate) fn finish(mut self) -> [u8; 32]
        ensures { (text : List ℕ) → HoldsMessage self text → result ≡ sha256 text }
    {
        self.hasher.update(self.waiting.as_slice());
        self.hasher.finalize()
    }

    // Takes a piece for which there is no room.
    fn put_late(&mut self, piece: &[u8])
        ensures { (taken : List ℕ) → HoldsMessage self.old taken → HoldsMessage self.new (taken ++ piece.now) }
    {
        self.hasher.update(self.waiting.as_slice());
        self.waiting.clear();
        if self.waiting.try_extend_from_slice(piece).is_err() {
            self.hasher.update(piece);
        }
    }
}

impl TextSink for TextHasher {
    ghost has_taken = { HoldsMessage };

    fn put(&mut self, piece: &[u8]) {
        if self.waiting.try_extend_from_slice(piece).is_err() {
            self.put_late(piece);
        }
    }
}
