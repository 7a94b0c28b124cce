//! The events of a room as a graph: rows in the order of arrival, and which rows cite which (Matrix specification,
//! Server-Server API, "PDUs").
#![tactic(auto)]

mod auth_chains;
mod chain_differences;
mod closing;
mod closing_above;
mod depths;
mod event_sets;
mod graphs;
mod numbers;
mod reached_rows;
mod redactions;
mod refusals;
mod rows;

pub use event_sets::{rising, set_of};
pub use graphs::{Graph, MOST_ROWS, closures_are_least, depth_bounds_hold, graph_is_sound};
pub use numbers::{EventNo, least_of};
pub use refusals::{GraphError, NotAdded};
pub use rows::GraphRow;
