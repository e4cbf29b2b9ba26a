//! The CRC-32C of frames (RFC 5044 4.4): the remainder of a division, bit by bit.
//!
//! [`Crc`] takes octets in pieces, [`crc32c`] all at once. Few octets go word by word, by tables, or in four lanes. Of 112 or
//! more, all but the last are folded away first.
#![tactic(auto)]

mod crc;
mod fold;
mod lanes;
mod laws;
mod tables;

pub use crc::{Crc, crc32c};
pub use laws::{adds_in_pieces, known_values};
