//! What a DDP segment of an RDMAP stream is: its header's checks up to those that need a buffer, a region or an
//! outstanding Read, and the payload of the Terminate that answers a faulty one (RFC 5040 4 and 7, RFC 5041 4 and 7).
//! It takes no memory.
#![tactic(auto)]

mod head;
mod judging;
mod laws;
mod sizes;
mod terminating;

pub use head::{Head, early};
pub use iw_octets::{TaggedOperation, UntaggedOperation};
pub use judging::{judge, tagged_head};
pub use laws::{checks_are_listed, front_will_do, terminates_are_told};
pub use sizes::{FIRST_OCTETS, MAX_TERMINATE};
pub use terminating::terminate;
