//! Events in the bodies of requests and in lines of logs, read token by token with no JSON value of them, where they are
//! events whose members come in canonical order (Matrix specification, Server-Server API, "Transactions").
#![tactic(auto)]

mod contents;
mod events;
mod in_order;
mod member_names;
mod numbers;
mod objects;
mod open_texts;

pub use objects::{BodyRead, EventsRead, read_body};
