//! Two endpoints at which the events of a schedule happen one by one. Each call is made under an allocator that refuses
//! memory.
//!
//! Each request for memory that a call makes is refused in turn, and the same call is made again, with what was handed
//! back: first the first request, then only the second, and so on, until none is refused. A call that should not
//! allocate gets no memory. So the entries are those of a run with enough memory only if each refusal left all as it
//! was.
#![tactic(auto)]

mod ends;
mod meter;
mod side;
mod wire;

pub use ends::Ends;
pub use meter::{CALLS, Call, Heap, Meter, Stopped};
