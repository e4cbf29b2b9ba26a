//! The shared vocabulary of the endpoint: octets, STags, messages, headers, operations and faults.
//!
//! A ULPDU is read by [`Segment::read`], which tells a [`TaggedHead`] from an [`UntaggedHead`] (RFC 5041 4.2, 4.3);
//! what RDMAP carries in it is told by [`TaggedOperation`] and [`UntaggedOperation`] (RFC 5040 4). Each header has a
//! `write` that spells it and a `read` that takes it off the front of octets, and each is the other's inverse.
//! [`Fault`] has the RFCs' error numbers as constants, and `constants` every limit that several crates share.
//!
//! [`Octets`] is a `Vec<u8>` that contracts see as a list, and [`gather`] copies the pieces of a payload into one
//! place.
#![tactic(auto)]

mod constants;
mod fault;
mod head;
mod laws;
mod message;
mod octets;
mod operation;
mod part;
mod payload;
mod pieces;
mod segment;
mod stag;

pub use constants::{
    DDP_VERSION, MAX_OCTETS, MAX_PLACE, MAX_PRIVATE, MAX_ULPDU, MAX_UNANSWERED, RDMAP_VERSION,
    READ_REQUEST_HEADER, TAGGED_HEADER, UNTAGGED_HEADER,
};
pub use fault::Fault;
pub use head::{Short, TaggedHead, UntaggedHead, is_tagged};
pub use laws::{
    known_constants, known_faults, numbers_tell, operations_are_told, parts_are_taken, reads_again,
    writes_again,
};
pub use message::Message;
pub use octets::Octets;
pub use operation::{TaggedOperation, UntaggedOperation, rdmap_version};
pub use part::Part;
pub use payload::{ReadRequest, TerminateWord};
pub use pieces::{InPieces, gather};
pub use segment::Segment;
pub use stag::Stag;
