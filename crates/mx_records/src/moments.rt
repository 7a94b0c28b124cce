// Moments, as lines of text have them.
use jiff::Timestamp;
use std::alloc::{AllocError, Global};

/// A moment in milliseconds since 1970, as a date and a time of day in UTC to the millisecond; the number itself where it lies
/// beyond the year 9999.
pub(crate) fn moment_text(alloc: Global, milliseconds: u64) -> Result<String, AllocError> {
    match timestamp_of(milliseconds) {
        Some(moment) => format!(in alloc; "{moment:.3}"),
        None => format!(in alloc; "{milliseconds}"),
    }
}

fn timestamp_of(milliseconds: u64) -> Option<Timestamp> {
    let milliseconds = i64::try_from(milliseconds).ok()?;
    Timestamp::from_millisecond(milliseconds).ok()
}
