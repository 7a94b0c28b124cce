// A text, line by line.
ghost use Rattle.std.specs.Prelude.{◌≡◌, ◌≢◌, ◌<◌, ◌≤◌, ◌∷◌, ℕ, length, slice_index};
ghost use Rattle.mx_log.specs.Lines.{lines_of};

use memchr::memchr;

/// The first line of a text without its newline, and what comes after it. It takes no memory.
pub fn first_line(text: &[u8]) -> (&[u8], &[u8])
    ensures lines { 0 < length text.now → lines_of text.now ≡ result.0.now ∷ lines_of result.1.now }
    ensures fewer { 0 < length text.now → length result.1.now < length text.now }
{
    let (line, rest) = text.split_at(line_end(text));
    match rest.split_first() {
        Some((_newline, after)) => (line, after),
        None => (line, rest),
    }
}

// Where the first line ends.
fn line_end(text: &[u8]) -> usize
    ensures bound { result ≤ length text.now }
    ensures clean { (place : ℕ) → place < result → slice_index text.now place ≢ 10 }
    ensures stops { result < length text.now → slice_index text.now result ≡ 10 }
{
    memchr(b'\n', text).unwrap_or(text.len())
}
