//! Canonical JSON, as the Matrix specification's appendix "Canonical JSON" defines it: which values have a
//! canonical text, that text, and values read from text.
#![tactic(auto)]

mod checking;
mod plain;
mod reading;
mod sinks;
mod streaming;
mod writing;

pub use checking::{LARGEST, NotCanonical, check};
pub use reading::{ReadError, read};
pub use sinks::{TextBuffer, TextLength, TextSink};
pub use streaming::{text_length, write_key, write_object, write_string, write_text};
pub use writing::{CanonError, text, text_of_canonical};
