//! Lines of JSON that tell of events: their pieces, the content of an event as a line has it, and the line of an event that
//! was offered and not kept.
#![tactic(auto)]

mod contents;
mod line_writing;
mod malformed_events;
mod members;
mod refused_causes;
mod refused_lines;
mod scanning;

pub use contents::{content_text, hash_name, write_content};
pub use line_writing::{
    end_line, open_line, put_comma, write_flag, write_id, write_ids, write_number, write_text_if,
};
pub use malformed_events::{EventFault, EventField, MalformedEvent, malformed_line};
pub use members::{
    write_ids_member, write_integer_if, write_integer_member, write_number_member,
    write_text_member,
};
pub use refused_causes::RefusedCause;
pub use refused_lines::{Offering, RefusedEvent, membership_told, refused_line, write_time};
