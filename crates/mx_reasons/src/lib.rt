//! Why the authorization rules do not allow an event, in words and with the levels that they compare, and what they read of
//! the events of a state.
#![tactic(auto)]

mod comparing;
mod facts;
mod judged;
mod reasons;
mod sentences;

pub use facts::write_facts;
pub use judged::JudgedEvent;
pub use reasons::reason;
pub use sentences::because;
