//! What a trace of two ends says, what follows from it, and what holds of every trace.
//!
//! There is no code here but the types of its words: a trace is a list of entries of `iw_events`. `specs/` has the words
//! (what a trace says has happened), the rules (which answer is right in a state, and what it leaves) and the laws;
//! `proofs/` has that each law follows from the rules. `iw_world` runs events by the rules, and promises the laws of its
//! traces. [`wrong_runs`], [`early_runs`], [`rest_runs`], [`held_runs`], [`pool_runs`] and [`enhanced_runs`] have for each law a
//! run that the law alone is false of.
//!
//! [`servers`] has the laws of ends that serve any number of connections, whose streams come and go, and [`server_runs`] wrong
//! runs of these.
#![tactic(auto)]

pub mod early_runs;
pub mod enhanced_runs;
mod fault;
pub mod held_runs;
pub mod pool_runs;
pub mod rest_runs;
pub mod server_runs;
pub mod servers;
pub mod wrong_runs;

pub use fault::WorldFault;
