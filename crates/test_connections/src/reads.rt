//! One end writes, and the other reads what it wrote by reads of two sizes, by turns.

use crate::end::End;
use bytes::Bytes;
use iw_connection::Intake;
use iw_endpoint::{Role, Stag};
use std::alloc::Global;
use std::test::Fail;
use test_support::Halting;

/// How many octets are written.
const LENGTH: usize = 300_000;

/// Sizes of reads: the least; about those of markers, frames, reads in place, safe deliveries and the window; the most.
const SIZES: [usize; 22] = [
    1, 2, 3, 4, 511, 512, 513, 1_399, 1_400, 1_454, 65_535, 65_536, 65_537, 131_072, 196_080,
    196_081, 200_000, 262_143, 262_144, 262_145, 299_999, 300_000,
];

// The region of the reading end: the first of its domain.
fn region() -> Stag {
    Stag::from_octets([1, 0, 0, 0])
}

fn octets(alloc: Global) -> Result<Vec<u8>, Fail> {
    let mut octets = vec![in alloc; 0u8; LENGTH]?;
    for (place, octet) in octets.iter_mut().enumerate() {
        *octet = (place % 251) as u8;
    }
    Ok(octets)
}

// Posts a Write of the octets and a Send, and emits both.
fn emitted(end: &mut End, alloc: Global, octets: &[u8]) -> Result<Vec<u8>, Fail> {
    let mut wire = Vec::new(alloc);
    end.write(region(), Bytes::copy_from_slice(alloc, octets)?)?;
    end.send()?;
    for _ in 0..u64::MAX {
        if !end.is_writable(&mut wire, 65_536)? {
            break;
        }
    }
    Ok(wire)
}

/// What is written, and what goes over the wire.
#[derive(Drop)]
pub(crate) struct Written {
    pub(crate) octets: Vec<u8>,
    pub(crate) wire: Vec<u8>,
}

impl Written {
    pub(crate) fn new(alloc: Global, is_long: bool) -> Result<Written, Fail> {
        let octets = octets(alloc)?;
        let mut end = End::open(alloc, Role::Preset)?;
        if is_long {
            end.with_long_frames()?;
        }
        let wire = emitted(&mut end, alloc, octets.as_slice())?;
        Ok(Written { octets, wire })
    }

    // Reads the wire by reads of at most these sizes. Returns whether all of it came.
    fn is_read_by(&self, end: &mut End, sizes: (usize, usize)) -> Result<bool, Fail> {
        let mut rest = self.wire.as_slice();
        let mut size = sizes;
        for _ in 0..u64::MAX {
            if rest.is_empty() {
                break;
            }
            let most = rest.len().min(size.0);
            match end.is_readable(&mut Halting::new(&mut rest, most))? {
                Intake::Came(n) if n > 0 && n <= most => {}
                _ => return Ok(false),
            }
            size = (size.1, size.0);
        }
        Ok(
            end.seen.received == 1
                && !end.seen.has_ended
                && end.has(region(), self.octets.as_slice()),
        )
    }

    /// Whether nothing is lost of it.
    pub(crate) fn is_whole(&self, alloc: Global, sizes: (usize, usize)) -> Result<bool, Fail> {
        let mut end = End::open(alloc, Role::Preset)?;
        end.register(vec![in alloc; 0u8; LENGTH]?)?;
        self.is_read_by(&mut end, sizes)
    }

    fn is_whole_by_each_pair(&self, alloc: Global) -> Result<bool, Fail> {
        for first in SIZES {
            for second in SIZES {
                if !self.is_whole(alloc, (first, second))? {
                    return Ok(false);
                }
            }
        }
        Ok(true)
    }

    // Sizes from 1 to 300,000, each with one from the other end of them.
    fn is_whole_by_each_size(&self, alloc: Global) -> Result<bool, Fail> {
        for size in (1..=LENGTH).step_by(499) {
            if !self.is_whole(alloc, (size, LENGTH - size + 1))? {
                return Ok(false);
            }
        }
        Ok(true)
    }
}

#[test]
fn nothing_is_lost_by_reads_of_any_two_sizes(rt: HostRuntime) -> Result<(), Fail> {
    let written = Written::new(rt.alloc(), false)?;
    assert!(rt; written.is_whole_by_each_pair(rt.alloc())?);
    let written = Written::new(rt.alloc(), true)?;
    assert!(rt; written.is_whole_by_each_pair(rt.alloc())?);
    Ok(())
}

#[test]
fn nothing_is_lost_by_reads_of_any_size(rt: HostRuntime) -> Result<(), Fail> {
    let written = Written::new(rt.alloc(), true)?;
    assert!(rt; written.is_whole_by_each_size(rt.alloc())?);
    Ok(())
}
