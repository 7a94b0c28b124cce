//! The server on loopback: its rows in the files of a directory, its engine, and the connections that its workers answer.
#![tactic(auto)]

mod crews;
mod hosted_rooms;
mod hosting;
mod losses;
mod ports;
mod reading;
mod serving;
mod workers;

pub use serving::serve;
