//! What the benchmarks' jobs are done on, as a seed determines it: numbers, octets and schedules; and the digest of what comes.
#![tactic(auto)]

mod digest;
mod random;
mod schedule;

pub use digest::Digest;
pub use random::{Pool, Random};
pub use schedule::{Digits, Schedule};
