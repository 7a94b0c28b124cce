// The events in which auth chains differ: of few sets by a walk over rows, and of many by a map of what waits.

pub(crate) mod chain_difference;
mod chain_walks;
pub(crate) mod dense_difference;
mod event_masks;
mod masks;
mod row_sets;
mod state_sets;
