//! What two ends of connections do in the benchmarks' jobs, on inputs that a seed determines.
#![tactic(auto)]

pub mod awkward;
pub mod connections;
mod end;
pub mod lossy;
pub mod storage;
