// Whether a value's canonical text is a text that is at hand. Nothing here takes memory.
ghost use Rattle.std.specs.Prelude.{◌≡◌, bytes_eq};
ghost use Rattle.serde_json.specs.View.{view};
ghost use Rattle.mx_canon.specs.Canonical.{canonical_text};

use mx_canon::{TextSink, write_text};
use serde_json::Value;

// A sink that compares what it takes with a text, piece by piece.
#[derive(Drop)]
struct Comparison<'t> {
    whole: &'t [u8],
    rest: &'t [u8],
    is_same: bool,
}

impl<'t> TextSink for Comparison<'t> {
    ghost use Rattle.mx_pdu.specs.EventTexts.{HasTold};

    ghost has_taken = { HasTold };

    fn put(&mut self, piece: &[u8]) {
        match self.rest.strip_prefix(piece) {
            Some(rest) => self.rest = rest,
            None => self.is_same = false,
        }
    }
}

// Whether the text is the value's canonical text, in which a float has no digits.
pub fn is_text_of(value: &Value, text: &[u8]) -> bool
    ensures { result ≡ bytes_eq (canonical_text (view value.now)) text.now }
{
    let mut comparison = Comparison {
        whole: text,
        rest: text,
        is_same: true,
    };
    write_text(&mut comparison, value);
    comparison.is_same && comparison.rest.is_empty()
}
