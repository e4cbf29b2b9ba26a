//! The receive queue: buffers for untagged messages. Segments are placed in any order, and messages are delivered in
//! order (RFC 5041 4.3, 5.2 and 5.4, queue number 0).
//!
//! A buffer holds one message. Buffers are posted to a queue, and the oldest holds the next message; or several queues
//! share a pool of buffers. A segment *has its turn* when all segments before it had theirs. The message that is *due*
//! is the oldest that is not yet delivered. Only `post` and the constructors allocate.
#![tactic(auto)]

mod buffers;
mod laws;
mod places;
mod pool;
mod queue;
mod received;

pub use laws::{
    binds_there_alone, known_answers, numbers_follow, places_there_alone, pooled_answers,
};
pub use pool::SharedQueue;
pub use queue::{BufferRefusal, RecvQueue};
pub use received::Received;
