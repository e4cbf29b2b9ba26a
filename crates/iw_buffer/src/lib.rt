//! Octets that C keeps and reads and writes where they stand, and that the library takes over and gives back with no copy.
#![tactic(auto)]

mod buffer;
mod calls;
mod contents;
mod lent;
mod parts;
mod refusal;

pub use buffer::Buffer;
pub use contents::Contents;
pub use lent::Lent;
pub use parts::Parts;
pub use refusal::BufferRefusal;
