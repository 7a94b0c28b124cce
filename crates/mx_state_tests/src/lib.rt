//! Tests that run a fast body and its plain partner, which stand under one contract, over random rooms: orders, full
//! conflicted sets, differences of auth chains, resolutions and numbered states. They stand in a crate of their own,
//! since a crate with tests is proved twice.
#![tactic(auto)]

#[cfg(test)]
mod conflict_tests;
#[cfg(test)]
mod order_tests;
#[cfg(test)]
mod plain_orders;
#[cfg(test)]
mod random_graphs;
#[cfg(test)]
mod resolution_tests;
#[cfg(test)]
mod rows;
#[cfg(test)]
mod states_tests;
