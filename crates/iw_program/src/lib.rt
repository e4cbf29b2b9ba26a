//! What `iwarp replay` does, over any reader and writer: [`replay`] reads a schedule to the end of its input, runs it,
//! and writes the whole trace; or nothing, if reading, running or printing was refused.
#![tactic(auto)]

mod fault;
mod input;
mod program;
mod status;
mod text;

pub use fault::{Refusal, ReplayFault};
pub use iw_output::Status;
pub use program::replay;
pub use text::{Replayed, replay_text};
