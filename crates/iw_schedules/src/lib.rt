//! Schedules read from text, and traces printed as text.
//!
//! [`read_schedule`] reads the events of a schedule, or returns the first faulty line and its fault. [`print_trace`]
//! prints each entry of a trace as a line. docs/SCHEDULES.md describes both texts.
#![tactic(auto)]

mod appending;
mod calls;
mod fault;
mod hexadecimal;
mod kinds;
mod laws;
mod letters;
mod options;
mod pieces;
mod refusals;
mod rights;
mod schedule;
mod send_kind;
mod trace;
mod words;

pub use fault::{FaultName, ScheduleFault};
pub use laws::{known_lines, pieces_are_clear, schedules_are_clear, words_are_alike};
pub use schedule::read_schedule;
pub use trace::print_trace;
