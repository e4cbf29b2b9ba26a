//! Numbers and octets that a seed determines.

ghost use Rattle.std.specs.Prelude.{◌<◌};

use anyhow::{Result, bail};
use bytes::Bytes;
use std::alloc::Global;

/// How many random octets there are.
const POOL: usize = 1 << 20;

/// A sequence of numbers (SplitMix64, by G. Steele, D. Lea and C. Flood).
#[derive(Drop)]
pub struct Random {
    state: u64,
}

impl Random {
    /// The sequence of a seed.
    pub fn new(seed: u32) -> Random {
        Random {
            state: u64::from(seed),
        }
    }

    /// The next number.
    pub fn next(&mut self) -> u64 {
        self.state = self.state.wrapping_add(0x9e37_79b9_7f4a_7c15);
        let mut z = self.state;
        z = (z ^ (z >> 30)).wrapping_mul(0xbf58_476d_1ce4_e5b9);
        z = (z ^ (z >> 27)).wrapping_mul(0x94d0_49bb_1331_11eb);
        z ^ (z >> 31)
    }

    /// The next number below `end`, or 0 if that is 0.
    pub fn below(&mut self, end: usize) -> usize
        ensures { 0 < end → result < end }
    {
        let number = (self.next() >> 8) as usize;
        if end == 0 {
            return 0;
        }
        number % end
    }

    /// True one time in `times`.
    pub fn once_in(&mut self, times: usize) -> bool {
        self.below(times) == 0
    }

    /// A number from `least` to `most`.
    pub fn between(&mut self, least: usize, most: usize) -> usize {
        let span = most.saturating_sub(least).saturating_add(1);
        least.saturating_add(self.below(span))
    }
}

/// Random octets, of which each message is a part.
#[derive(Drop)]
pub struct Pool {
    octets: Bytes,
}

impl Pool {
    pub fn new(alloc: Global, random: &mut Random) -> Result<Pool> {
        let mut octets = Vec::with_capacity(alloc, POOL)?;
        for _ in 0..POOL / 8 {
            octets.extend_from_slice(&random.next().to_le_bytes())?;
        }
        Ok(Pool {
            octets: Bytes::copy_from_slice(alloc, octets.as_slice())?,
        })
    }

    /// Some place at which `len` octets begin.
    pub fn place(&self, random: &mut Random, len: usize) -> usize {
        random.below(self.octets.len().saturating_sub(len).saturating_add(1))
    }

    /// The octets from a place on.
    pub fn part(&self, at: usize, len: usize) -> Result<Bytes> {
        let all = self.octets.len();
        if len > all || at > all - len {
            bail!("no such part");
        }
        Ok(self.octets.slice(at..at + len)?)
    }

    /// The same, to look at.
    pub fn look(&self, at: usize, len: usize) -> Result<&[u8]> {
        let all = self.octets.as_slice();
        if len > all.len() || at > all.len() - len {
            bail!("no such part");
        }
        Ok(&all[at..at + len])
    }
}
