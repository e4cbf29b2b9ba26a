//! What is posted at one end of a stream: it is cut into parts, sent part by part, and completed in posting order.
//!
//! `post` hands a [`Request`] to a [`SendQueue`], `post_kept` a message whose octets stay where a program keeps them; `next_part` shows what is to be sent next, in a ULPDU of at most a given
//! size, and `part_sent` says that it was sent. A Write or a Send is finished with its last part, a Read by `finish`,
//! once its response has come. `next` hands finished messages out, each as a [`Done`], in the order in which they were
//! posted (RFC 5040 5.5); `flush` gives up the oldest, finished or not. [`Completions`] holds the messages that wait to be
//! handed out.
//!
//! Only `post` takes memory, for the message's completion too.
#![tactic(auto)]

mod completions;
pub mod laws;
mod outgoing;
mod request;
mod send_queue;

pub use completions::{Completions, Done};
pub use outgoing::Outgoing;
pub use request::{Kind, Refusal, Request};
pub use send_queue::{Part, SendQueue};
