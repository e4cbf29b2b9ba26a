//! Two ends, and runs of events at them.
//!
//! [`World::run`] takes a list of events, each a call at one of two ends, and returns a trace: each call with its
//! answer. Its clauses are the laws of the endpoint. They speak of the trace alone, and are defined in `iw_laws`;
//! docs/DEFINITIONS.md has them in plain English. [`World::serve`] does the same for ends that serve any number of
//! connections: streams open under numbers that the ends are given, have regions of their own, and are closed.
#![tactic(auto)]

mod acts;
mod fault;
mod host;
mod known;
mod pools;
mod serving;
mod stream;
mod wire;
mod world;

pub use iw_laws::WorldFault;
pub use world::World;
