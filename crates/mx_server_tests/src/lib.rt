//! Tests of what neither a contract says nor a log, a file or a socket tells: hashes by plain bodies, a keeper's refusal,
//! a shard, servers and an engine whose keepers fail, all steps of a server, and an engine whose callers are in threads of
//! their own. They stand in a crate of their own, since a crate with tests is proved twice.
#![tactic(auto)]

#[cfg(test)]
mod callers;
#[cfg(test)]
mod engine_tests;
#[cfg(test)]
mod engines;
#[cfg(test)]
mod fault_tests;
#[cfg(test)]
mod faulty_engines;
#[cfg(test)]
mod faulty_servers;
#[cfg(test)]
mod gates;
#[cfg(test)]
mod hash_tests;
#[cfg(test)]
mod keeper_tests;
#[cfg(test)]
mod room_events;
#[cfg(test)]
mod scarce_keepers;
#[cfg(test)]
mod shard_tests;
#[cfg(test)]
mod values;
#[cfg(test)]
mod words;
#[cfg(test)]
mod world_tests;
