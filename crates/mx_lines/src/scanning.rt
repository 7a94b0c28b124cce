// Where the content of an event stands in the event's canonical text.
ghost use Rattle.std.specs.Prelude.{◌≡◌, ◌≤◌, ◌<◌, ◌^◌, ◌∷◌, ◌++◌, ℕ, IfSome, Some, codes, drop, length};
ghost use Rattle.std.specs.Prelude.{true};
ghost use Rattle.serde_json.specs.Data.{Data, Members, object};
ghost use Rattle.serde_json.specs.Find.{get_member};
ghost use Rattle.serde_json.specs.Written.{compact_text};
ghost use Rattle.mx_lines.specs.Scanning as definition;
ghost use Rattle.mx_lines.specs.Scanning.{content_key, left_from, outside};

// What stands before the content in the text of an event.
const CONTENT_KEY: [u8; 10] = *b"\"content\":";

/// How deep in arrays and objects a place of a text is, whether it is in a string, and there behind a backslash.
#[derive(Clone, Copy, Debug)]
pub(crate) struct Scan {
    depth: usize,
    is_inside: bool,
    is_escaped: bool,
}

impl Scan {
    ghost use Rattle.std.specs.Prelude.{◌≡◌, ◌<◌, ◌^◌};
    ghost use Rattle.mx_lines.specs.Scanning as definition;

    // In no string.
    fn outside(depth: usize) -> Scan
        ensures { result ≡ definition.outside depth }
    {
        Scan {
            depth,
            is_inside: false,
            is_escaped: false,
        }
    }

    // In a string, and behind a backslash or not.
    fn inside(depth: usize, is_escaped: bool) -> Scan
        ensures { result ≡ record { depth = depth; is_inside = true; is_escaped = is_escaped } }
    {
        Scan {
            depth,
            is_inside: true,
            is_escaped,
        }
    }

    // Whether this byte is behind the member.
    fn ends(self, byte: u8) -> bool
        ensures { result ≡ definition.ends self byte }
    {
        if self.is_inside {
            return false;
        }
        if byte == b',' || byte == b'}' {
            return self.depth == 0;
        }
        false
    }

    // Behind this byte.
    fn next(self, byte: u8) -> Scan
        requires { self.depth < 2 ^ 63 }
        ensures { result ≡ definition.next self byte }
    {
        if !self.is_inside {
            return next_outside(self.depth, byte);
        }
        if self.is_escaped {
            return Scan::inside(self.depth, false);
        }
        next_inside(self.depth, byte)
    }
}

fn next_inside(depth: usize, byte: u8) -> Scan
    ensures { result ≡ definition.next_inside depth byte }
{
    if !is_mark(byte) {
        return Scan::inside(depth, false);
    }
    if byte == b'\\' {
        return Scan::inside(depth, true);
    }
    Scan::outside(depth)
}

fn next_outside(depth: usize, byte: u8) -> Scan
    requires { depth < 2 ^ 63 }
    ensures { result ≡ definition.next_outside depth byte }
{
    if !is_sign(byte) {
        return Scan::outside(depth);
    }
    if byte == b'"' {
        return Scan::inside(depth, false);
    }
    if byte == b'[' || byte == b'{' {
        return Scan::outside(depth + 1);
    }
    if byte == b']' || byte == b'}' {
        return Scan::outside(depth.saturating_sub(1));
    }
    Scan::outside(depth)
}

fn is_mark(byte: u8) -> bool
    ensures { result ≡ definition.is_mark byte }
{
    byte == b'"' || byte == b'\\'
}

fn is_sign(byte: u8) -> bool
    ensures { result ≡ definition.is_sign byte }
{
    byte == b'"'
        || (byte == b',' || (byte == b'[' || (byte == b']' || (byte == b'{' || byte == b'}'))))
}

// How long the member is that a text begins with.
fn member_length(text: &[u8]) -> usize
    ensures bound { result ≤ length text.now }
    ensures left { drop result text.now ≡ left_from (outside 0) text.now }
{
    let mut scan = Scan::outside(0);
    for (place, byte) in text.iter().enumerate() {
        if scan.ends(*byte) {
            return place;
        }
        scan = scan.next(*byte);
    }
    text.len()
}

// What comes behind the member that a text begins with, and the byte behind it.
fn after_member(text: &[u8]) -> Option<&[u8]>
    ensures { IfSome result (λ next. (b : ℕ) × (left_from (outside 0) text.now ≡ b ∷ next.now)) }
{
    let (_member, left) = text.split_at(member_length(text));
    let (_byte, next) = left.split_first()?;
    Some(next)
}

// The value of the member that a text begins with, whose key is `content`.
fn content_at(text: &[u8]) -> &[u8]
    requires { length content_key ≤ length text.now }
    ensures { result.now ++ left_from (outside 0) (drop (length content_key) text.now) ≡ drop (length content_key) text.now }
{
    let (_key, value) = text.split_at(CONTENT_KEY.len());
    let (content, _left) = value.split_at(member_length(value));
    content
}

/// The text of the content in the canonical text of an event, where it is found.
pub(crate) fn content_in(text: &[u8]) -> Option<&[u8]>
    ensures { IfSome result (λ content. (ms : Members) → text.now ≡ compact_text (object ms)
        → (d : Data) × (get_member (codes "content") ms ≡ Some d) × (content.now ≡ compact_text d)) }
{
    let (_brace, mut rest) = text.split_first()?;
    for _ in 0..text.len() {
        if rest.starts_with(&CONTENT_KEY) {
            return Some(content_at(rest));
        }
        rest = after_member(rest)?;
    }
    None
}
