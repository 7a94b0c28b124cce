//! A dock: one value that several threads take and put back in turn, each through a berth of its own.
#![tactic(auto)]

mod berths;
mod docks;
mod journals;
mod passes;
mod steps;
mod views;
mod waiting;

pub use berths::Berth;
pub use docks::Dock;
pub use journals::Journaled;

#[cfg(test)]
mod tests;
