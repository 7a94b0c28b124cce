// Which events of a conflicted set the authorization rules allow, one after another, in the state so far.

pub(crate) mod auth_checks;
pub(crate) mod conflict_checks;
pub(crate) mod judged_states;
pub(crate) mod powers;
pub(crate) mod working_states;
