//! Messages that are carried from streams to others, for the driver in bench/stream.
#![tactic(auto)]

mod end;
mod ends;
mod load;
mod run;
mod wire;

pub use load::Load;
use run::{Work, perform};
use std::alloc::Global;

/// Carries messages from new streams to others. Returns how many octets were placed; 0 if anything went wrong.
#[unsafe(no_mangle)]
pub extern "C" fn stream_carry(alloc: Global, load: &Load, octets: &[u8]) -> u64 {
    perform(alloc, load, octets, Work::Carry).unwrap_or(0)
}

/// Delivers the frames of one round of messages again and again to a new stream. Returns how many octets were placed; 0
/// if anything went wrong.
#[unsafe(no_mangle)]
pub extern "C" fn stream_receive(alloc: Global, load: &Load, octets: &[u8]) -> u64 {
    perform(alloc, load, octets, Work::Receive).unwrap_or(0)
}

/// Delivers the frames of one round of messages, except the first of each `gap` deliveries, to new streams again and
/// again. Returns how many deliveries there were; 0 if anything went wrong.
#[unsafe(no_mangle)]
pub extern "C" fn stream_window(alloc: Global, load: &Load, octets: &[u8]) -> u64 {
    perform(alloc, load, octets, Work::Window).unwrap_or(0)
}

/// The CRC-32C of the octets.
#[unsafe(no_mangle)]
pub extern "C" fn stream_crc(octets: &[u8]) -> u32 {
    iw_crc::crc32c(octets)
}
