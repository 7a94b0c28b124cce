//! Tests of mx_http: a listener that ends, in threads, and gives its responders back; requests that wait, and hold nobody up.
//! They stand in a crate of their own, since a crate with tests is proved twice.
#![tactic(auto)]

#[cfg(test)]
mod clients;
#[cfg(test)]
mod figures_tests;
#[cfg(test)]
mod gates;
#[cfg(test)]
mod memory_tests;
#[cfg(test)]
mod responders;
#[cfg(test)]
mod serving_tests;
#[cfg(test)]
mod waiting_tests;
