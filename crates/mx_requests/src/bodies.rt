// What the bodies of requests say.
pub(crate) mod missing_events;
pub(crate) mod transactions;
