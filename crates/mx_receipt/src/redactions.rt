// Redactions among the events of a room.
ghost use Rattle.std.specs.Prelude.{◌≡◌, ◌<◌, ◌≤◌, ◌++◌, ◌∷◌, All, List, [], ℕ};

use mx_graph::EventNo;

/// These numbers without the last one, where that is not below a count.
pub(crate) fn below_count(numbers: &[EventNo], count: usize) -> &[EventNo]
    ensures last { (earlier : List ℕ) → (last : ℕ) → count ≤ last → numbers.now ≡ earlier ++ last ∷ []
        → result.now ≡ earlier }
    ensures all { All (λ number. number < count) numbers.now → result.now ≡ numbers.now }
{
    match numbers.split_last() {
        Some((last, earlier)) if last.index() >= count => earlier,
        _ => numbers,
    }
}
