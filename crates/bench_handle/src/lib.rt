//! What bench/c compares with: what it does through the C interface, done from Rattle. Frames are appended by `fill`, and
//! steps are done by `next`, as an application's are. The number of the stream and how much is filled come from the caller, as
//! they do through the C interface, so that no look-up is worked out when this is compiled.
#![tactic(auto)]

use bytes::Bytes;
use iw_connection::{fill, next};
use iw_endpoint::{
    Config, Endpoint, Establishment, Message, PrivateData, Request, Rights, Role, Stag, Step,
};
use std::alloc::Global;

const WRITES: Rights = Rights {
    write: true,
    read: false,
    sink: false,
    invalidate: false,
};

// An endpoint with an open stream, and a region of zero octets that peers may write.
fn opened(alloc: Global, number: u32, octets: usize) -> Option<Endpoint> {
    let mut endpoint = Endpoint::new(alloc);
    let _ = endpoint.add_domain(1);
    let region = Vec::from_elem(alloc, 0u8, octets).ok()?;
    let _ = endpoint.register(1, 0, region, WRITES);
    let config = Config {
        markers: false,
        crc: false,
        establishment: Establishment::Plain,
        private: PrivateData::new(),
    };
    let _ = endpoint.open(number, 1, Role::Preset, config);
    Some(endpoint)
}

// Works until there is nothing to do, as an application does.
fn work(endpoint: &mut Endpoint, number: u32) {
    for _ in 0..1_000_000u64 {
        match next(endpoint, number) {
            Ok(Step::Idle) | Err(_) => return,
            Ok(_) => {}
        }
    }
}

/// Looks `calls` times for a step where there is nothing to do. Returns how many octets had their turn: none.
#[unsafe(no_mangle)]
pub extern "C" fn handle_bench_idle(alloc: Global, number: u32, calls: u64) -> u64 {
    let Some(mut endpoint) = opened(alloc, number, 0) else {
        return 0;
    };
    for _ in 0..calls {
        work(&mut endpoint, number);
    }
    endpoint.in_order_point(number).unwrap_or(0)
}

// The sequence number after these octets, given that of the first. It wraps.
fn number_after(first: u32, octets: &[u8]) -> u32 {
    ((u64::from(first) + octets.len() as u64) % (1 << 32)) as u32
}

/// Delivers the frames of a Write `writes` times, one after another, and works after each. Returns how many octets had their
/// turn.
#[unsafe(no_mangle)]
pub extern "C" fn handle_bench_write(
    alloc: Global,
    number: u32,
    frames: &[u8],
    writes: u64,
) -> u64 {
    let Some(mut endpoint) = opened(alloc, number, 65_536) else {
        return 0;
    };
    let mut first = 0u32;
    for _ in 0..writes {
        let _ = endpoint.deliver(number, first, frames);
        first = number_after(first, frames);
        work(&mut endpoint, number);
    }
    endpoint.in_order_point(number).unwrap_or(0)
}

// A Send, or a Write to the first region of the peer's first domain.
fn message(is_send: bool, octets: Bytes) -> Message<Bytes> {
    if is_send {
        return Message::Send {
            octets,
            solicited: false,
            invalidate: None,
        };
    }
    Message::Write {
        stag: Stag::from_octets([1, 0, 0, 0]),
        to: 0,
        octets,
    }
}

// Posts a message, emits its frames, at most `most` octets, and works. Returns how many octets were emitted.
fn carry(
    endpoint: &mut Endpoint,
    number: u32,
    most: usize,
    out: &mut Vec<u8>,
    message: Message<Bytes>,
) -> u64 {
    match endpoint.post(number, Request::Message(message)) {
        Ok(()) => {}
        Err(_) => return 0,
    }
    out.clear();
    let _ = fill(endpoint, number, out, most);
    work(endpoint, number);
    out.len() as u64
}

/// Posts a Send, or else a Write, of these octets `messages` times, and each time emits its frames, at most `most` octets, and
/// works. Returns how many octets were emitted.
#[unsafe(no_mangle)]
pub extern "C" fn handle_bench_send(
    alloc: Global,
    number: u32,
    most: usize,
    is_send: bool,
    octets: &[u8],
    messages: u64,
) -> u64 {
    let Some(mut endpoint) = opened(alloc, number, 0) else {
        return 0;
    };
    let Ok(payload) = Bytes::copy_from_slice(alloc, octets) else {
        return 0;
    };
    let mut out = Vec::new(alloc);
    let mut emitted = 0u64;
    for _ in 0..messages {
        let Ok(shared) = payload.clone() else {
            return 0;
        };
        let message = message(is_send, shared);
        emitted = emitted.wrapping_add(carry(&mut endpoint, number, most, &mut out, message));
    }
    emitted
}
