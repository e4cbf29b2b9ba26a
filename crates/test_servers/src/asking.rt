//! Peers that come to a server over TCP, one after the other.

use crate::peer::{Asks, Peer};
use std::io::{self, ErrorKind, Read, Write};
use std::net::{Ipv4Addr, Net, TcpStream};
use std::rt::Runtime;

const ASKS: Asks = Asks {
    markers: false,
    crc: false,
};

// A peer reads no more often.
const MOST_READS: u32 = 1_000;

// Connects, asks, and waits for the answer. Returns whether the right one came.
fn is_answered<R: Runtime + AllocGlobal + Net>(rt: &R, port: u16) -> io::Result<bool> {
    let mut stream = TcpStream::connect(rt, (Ipv4Addr::LOCALHOST, port))?;
    let Some(mut peer) = Peer::new(rt.alloc(), ASKS, b"loopback") else {
        return Err(io::Error::from(ErrorKind::OutOfMemory));
    };
    let mut has_asked = false;
    let mut octets = [0u8; 512];
    for _ in 0..MOST_READS {
        stream.write_all(peer.out.as_slice())?;
        peer.out.clear();
        let n = stream.read(&mut octets)?;
        if n == 0 {
            break;
        }
        peer.hear(&octets[..n]);
        if peer.is_answered || peer.is_wronged {
            break;
        }
        if peer.region.is_some() && !has_asked {
            peer.ask();
            has_asked = true;
        }
    }
    Ok(peer.is_answered && !peer.is_wronged)
}

/// Has so many peers come to a port, and prints how many were answered.
pub(crate) fn ask<R: Runtime + AllocGlobal + Net>(rt: &R, port: u16, count: u32) -> io::Result<()> {
    let mut answered = 0u32;
    for _ in 0..count {
        if is_answered(rt, port).unwrap_or(false) {
            answered = answered.saturating_add(1);
        }
    }
    println!(rt; "{answered} answered")
}
