// What passes know. No value of these types is ever made: clauses alone speak of them.
use std::collections::LinkedList;

/// What a berth knows.
// `made` counts the berths of the dock, where this is the first one.
pub struct BerthView<E> {
    pub number: u64,
    pub seen: LinkedList<E>,
    pub added: LinkedList<E>,
    pub opening: LinkedList<E>,
    pub made: u64,
    pub place: u64,
}

/// What a pass of the dock's queue knows: its own berth, the berths that were joined to it, and whether the value is out
/// with it.
// A pass that isn't live has no berth: it hasn't put the value in yet, or it is used no more.
pub struct PassView<E> {
    pub own: BerthView<E>,
    pub joined: LinkedList<BerthView<E>>,
    pub holds: bool,
    pub is_live: bool,
}
