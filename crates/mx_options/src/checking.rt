// What `check` is told when it starts.

/// What `check` is asked beside its three lines.
#[derive(Clone, Copy, Debug, PartialEq, Eq)]
pub struct CheckOptions {
    // Whether a refused event's field is named in a second line.
    pub explains: bool,
    // Whether a content hash that does not hold is a failure.
    pub is_strict: bool,
}
