//! Runs the command that the command line of `iwarp` asks for.
#![tactic(auto)]

mod command_line;
mod running;
mod task;

pub use running::run;
