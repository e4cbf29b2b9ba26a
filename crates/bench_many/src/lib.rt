//! Connections without end at one endpoint, for the driver in bench/many.
#![tactic(auto)]

mod client;
mod ended;
mod handles;
mod server;

use std::alloc::Global;

/// Serves connections one after the other. Each is opened, takes a Write of these octets and a Send, and is ended and closed
/// once `alive` more were opened. Returns how many were served; 0 if anything went wrong.
#[unsafe(no_mangle)]
pub extern "C" fn many_serve(alloc: Global, connections: u32, alive: u32, octets: &[u8]) -> u32 {
    match server::serve(alloc, connections, alive, octets) {
        Ok(()) => connections,
        Err(_) => 0,
    }
}

/// Reads connections, one after the other, and leaves them open: each takes a Write of these octets and a Send, by reads of at
/// most `most` octets, or as many as a read takes if that is 0. Returns how many there were; 0 if anything went wrong.
#[unsafe(no_mangle)]
pub extern "C" fn many_read(alloc: Global, connections: u32, most: usize, octets: &[u8]) -> u32 {
    let most = if most == 0 { None } else { Some(most) };
    match server::read(alloc, connections, most, octets) {
        Ok(()) => connections,
        Err(_) => 0,
    }
}

/// Opens streams in domain 1 of a new endpoint, and does nothing with them. Returns how many it opened.
#[unsafe(no_mangle)]
pub extern "C" fn many_idle(alloc: Global, streams: u32, shares: bool) -> u32 {
    server::idle(alloc, streams, shares).unwrap_or(0)
}

/// Serves 64 such connections, one after the other, at each of so many endpoints. Returns how many endpoints there were; 0
/// if anything went wrong.
#[unsafe(no_mangle)]
pub extern "C" fn many_handles(alloc: Global, endpoints: u32, octets: &[u8]) -> u32 {
    match handles::serve(alloc, endpoints, octets) {
        Ok(()) => endpoints,
        Err(_) => 0,
    }
}

/// Opens streams that end at once, after octets came to each with gaps before them, and a Read of each was asked for. None
/// is closed. Returns how many there were; 0 if anything went wrong.
#[unsafe(no_mangle)]
pub extern "C" fn many_ended(alloc: Global, streams: u32) -> u32 {
    match ended::end_all(alloc, streams) {
        Ok(()) => streams,
        Err(_) => 0,
    }
}

/// Opens streams, and looks one and the same of them up again and again. Returns how often it was found.
#[unsafe(no_mangle)]
pub extern "C" fn many_look(alloc: Global, streams: u32, rounds: u64) -> u64 {
    server::look(alloc, streams, rounds).unwrap_or(0)
}
