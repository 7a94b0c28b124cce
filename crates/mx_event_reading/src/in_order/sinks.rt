// Texts that are put behind what a vector holds.
ghost use Rattle.std.specs.Prelude.{◌≡◌, ℕ, ◌++◌, ◌∷◌, [], IsUtf8, List, OnOk};
ghost use Rattle.json.specs.Print.{quoted};
ghost use Rattle.mx_event_reading.specs.Appending.{HasTaken};
ghost use Rattle.mx_event_reading.specs.InOrder.{key_text};

use mx_canon::{TextSink, write_key, write_string};
use std::alloc::{AllocError, Global};

// A sink that puts a text behind what a vector holds, or learns that memory ran out.
#[derive(Drop)]
struct Appending {
    bytes: Vec<u8>,
    is_refused: bool,
}

impl TextSink for Appending {
    ghost use Rattle.mx_event_reading.specs.Appending.{HasTaken};

    ghost has_taken = { HasTaken };

    fn put(&mut self, piece: &[u8]) {
        if self.bytes.extend_from_slice(piece).is_err() {
            self.is_refused = true;
        }
    }
}

fn begin(alloc: Global, out: &mut Vec<u8>) -> Appending
    ensures { HasTaken result out.old.items }
{
    Appending {
        bytes: std::mem::replace(out, Vec::new(alloc)),
        is_refused: false,
    }
}

fn finish(sink: Appending, out: &mut Vec<u8>) -> Result<(), AllocError>
    ensures { OnOk result ((text : List ℕ) → HasTaken sink text → out.new.items ≡ text) }
{
    let is_refused = sink.is_refused;
    *out = sink.bytes;
    if is_refused { Err(AllocError) } else { Ok(()) }
}

/// Puts what stands before a member's value behind `out`: a comma where the member is a later one, the key as canonical
/// JSON writes it, and a colon.
///
/// `AllocError` where no memory was left. After an error nothing is said of `out`.
pub fn append_key(
    alloc: Global,
    out: &mut Vec<u8>,
    later: bool,
    key: &str,
) -> Result<(), AllocError>
    ensures ok { OnOk result (out.new.items
        ≡ out.old.items ++ key_text later key.now) }
    ensures utf8 { IsUtf8 key.now }
{
    let mut sink = begin(alloc, out);
    write_key(&mut sink, later, key.as_bytes());
    finish(sink, out)
}

/// Puts a string behind `out`, as canonical JSON writes it.
pub(super) fn append_string(alloc: Global, out: &mut Vec<u8>, text: &str) -> Result<(), AllocError>
    ensures ok { OnOk result (out.new.items ≡ out.old.items ++ quoted text.now) }
    ensures utf8 { IsUtf8 text.now }
{
    let mut sink = begin(alloc, out);
    write_string(&mut sink, text.as_bytes());
    finish(sink, out)
}
