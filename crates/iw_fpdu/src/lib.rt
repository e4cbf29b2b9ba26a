//! MPA frames: FPDUs with pad, markers and CRC (RFC 5044 4).
//!
//! Frame places count the octets of one direction of a connection, from the first after the start-up frame.
//! [`write_fpdu`] appends the frame of a ULPDU, to be sent at such a place; [`write_bare`] appends one without markers
//! and CRC. [`Fpdu`] is a frame among octets that came.
//!
//! The *span* of a frame is the frame with its markers, and the marker directly before it. Data octets are those of the
//! frames without the markers.
#![tactic(auto)]

mod check;
mod fpdu;
pub mod laws;
mod layout;
mod pieces;
mod write;
mod writer;

pub use fpdu::{Fpdu, Mismatch, all_came};
pub use layout::{Layout, MARKER, SPACING, span_of};
pub use pieces::Pieces;
pub use write::{WriteRefusal, write_bare, write_fpdu, write_segment};
