//! One HTML page that shows a room and why its events were received as they were: the page's frame, and the data that it
//! shows.
#![tactic(auto)]

mod change_texts;
mod data_parts;
mod entry_texts;
mod escaping;
mod frame;
mod laws;
mod page_entries;
mod state_changes;

pub use data_parts::{data_end, data_start, refused_entry, refused_start};
pub use escaping::escaped;
pub use frame::{page_end, page_head};
pub use laws::{changes_make_the_state, data_has_no_tag, entries_make_the_data};
pub use page_entries::page_entry;
pub use state_changes::{StateChange, changes};
