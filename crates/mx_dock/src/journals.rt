// Values that have a journal.
ghost use Rattle.std.specs.Prelude.{List, ℕ};

/// A value that has a journal, where each entry has a caller, and that has a place.
///
/// An entry's caller is the number of the berth through which it came. The place is what never changes of a value: a
/// dock is given values of one place alone.
pub trait Journaled {
    /// What an entry is.
    type Entry;

    /// The entries in the order in which they were added.
    ghost journal: { Self → List Self.Entry };

    /// The number of the berth through which an entry came.
    ghost caller: { Self.Entry → ℕ };

    /// What never changes of a value.
    ghost place: { Self → ℕ };
}
