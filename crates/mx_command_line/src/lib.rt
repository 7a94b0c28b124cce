//! The words of the program's command line, and what they ask for.
#![tactic(auto)]

mod commands;
mod words;

pub use commands::{Command, CommandLineError, Invocation, parse};
