//! The loop of docs/EMBEDDING.md at both ends, by reads of up to 200,000 octets.

use crate::end::End;
use bytes::Bytes;
use iw_endpoint::{Role, Stag};
use std::alloc::Global;
use std::test::Fail;
use test_support::Halting;

const MOST_READ: usize = 200_000;

const MOST_WRITTEN: usize = 262_144;

const LENGTH: usize = 1_000_000;

/// The two ends of a connection.
#[derive(Drop)]
struct Pair {
    asks: End,
    serves: End,
}

// Carries what one end has to write to the other. Returns whether there was anything.
fn pass(from: &mut End, to: &mut End, wire: &mut Vec<u8>) -> Result<bool, Fail> {
    wire.clear();
    let more = from.is_writable(wire, MOST_WRITTEN)?;
    let mut rest = wire.as_slice();
    for _ in 0..u64::MAX {
        if rest.is_empty() {
            break;
        }
        to.is_readable(&mut Halting::new(&mut rest, MOST_READ))?;
    }
    Ok(more || !wire.is_empty())
}

impl Pair {
    fn open(alloc: Global) -> Result<Pair, Fail> {
        Ok(Pair {
            asks: End::open(alloc, Role::Initiator)?,
            serves: End::open(alloc, Role::Responder)?,
        })
    }

    // Carries what both ends have to write, until neither has anything.
    fn carry(&mut self, alloc: Global) -> Result<(), Fail> {
        let mut wire = Vec::new(alloc);
        for _ in 0..u64::MAX {
            let asked = pass(&mut self.asks, &mut self.serves, &mut wire)?;
            let served = pass(&mut self.serves, &mut self.asks, &mut wire)?;
            if !asked && !served {
                break;
            }
        }
        Ok(())
    }

    // One end writes octets into a region of the other, sends a message, and reads the octets back.
    fn exchange(&mut self, alloc: Global, octets: &[u8]) -> Result<(Stag, Stag), Fail> {
        let target = self.serves.register(vec![in alloc; 0u8; LENGTH]?)?;
        let sink = self.asks.register(vec![in alloc; 0u8; LENGTH]?)?;
        self.carry(alloc)?;
        self.asks.with_long_frames()?;
        self.asks
            .write(target, Bytes::copy_from_slice(alloc, octets)?)?;
        self.asks.send()?;
        self.asks.read(sink, target, LENGTH as u32)?;
        self.carry(alloc)?;
        Ok((target, sink))
    }
}

fn octets(alloc: Global) -> Result<Vec<u8>, Fail> {
    let mut octets = vec![in alloc; 0u8; LENGTH]?;
    for (place, octet) in octets.iter_mut().enumerate() {
        *octet = (place % 253) as u8;
    }
    Ok(octets)
}

#[test]
fn the_loop_carries_a_stream_by_long_reads(rt: HostRuntime) -> Result<(), Fail> {
    let octets = octets(rt.alloc())?;
    let mut pair = Pair::open(rt.alloc())?;
    let (target, sink) = pair.exchange(rt.alloc(), octets.as_slice())?;
    assert!(rt; pair.serves.has(target, octets.as_slice()));
    assert!(rt; pair.asks.has(sink, octets.as_slice()));
    assert!(rt; pair.serves.seen.received == 1);
    assert!(rt; pair.asks.seen.done == 3);
    pair.asks.closed()?;
    pair.serves.closed()?;
    assert!(rt; pair.asks.seen.flushed == 1);
    assert!(rt; pair.serves.seen.flushed == 1);
    Ok(())
}
