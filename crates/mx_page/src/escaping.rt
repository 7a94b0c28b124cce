// JSON that stands within a script of HTML.
ghost use Rattle.std.specs.Prelude.{◌≡◌, ◌++◌, ℕ, IfOk, List};
ghost use Rattle.mx_page.specs.Escaping as definition;

use mx_canon::{TextBuffer, TextSink};
use std::alloc::{AllocError, Global};

/// JSON in which `\u003c` stands for each `<`, so that nothing in it ends the script that it stands in. `AllocError` where
/// no memory is left.
///
/// Source: HTML Standard, "Restrictions for contents of script elements".
pub fn escaped(alloc: Global, text: &[u8]) -> Result<Vec<u8>, AllocError>
    ensures { IfOk result (λ bytes. bytes.items ≡ definition.escaped text.now) }
{
    let mut page = TextBuffer::with_capacity(alloc, text.len())?;
    write_escaped(&mut page, text);
    let bytes = page.into_bytes()?;
    Ok(bytes)
}

fn write_escaped<S: TextSink>(sink: &mut S, text: &[u8])
    ensures { (taken : List ℕ) → S.has_taken sink.old taken
        → S.has_taken sink.new (taken ++ definition.escaped text.now) }
{
    for byte in text {
        write_escaped_byte(sink, *byte);
    }
}

fn write_escaped_byte<S: TextSink>(sink: &mut S, byte: u8)
    ensures { (taken : List ℕ) → S.has_taken sink.old taken
        → S.has_taken sink.new (taken ++ definition.escaped_byte byte) }
{
    if byte == b'<' {
        sink.put(b"\\u003c");
    } else {
        sink.put(&[byte]);
    }
}
