//! Writes with markers and CRCs over a network that loses and reorders: a segment of every 20 to 100 comes late.

use crate::end::{End, TO_WRITE, config, send};
use anyhow::{Result, bail};
use bench_input::{Digest, Pool, Random};
use bytes::Bytes;
use iw_connection::{Octets, Step};
use iw_endpoint::{Message, Role, Stag};
use std::alloc::Global;

/// How many streams there are.
const STREAMS: usize = 8;

/// The octets of a stream's region.
const REGION: usize = 1 << 20;

/// The octets of a TCP segment.
const SEGMENT: usize = 1_460;

const MOST: u32 = 1_000_000;

/// A TCP segment: its place in the stream, and where its octets are.
#[derive(Clone, Copy)]
struct Segment {
    place: u64,
    at: usize,
    len: usize,
}

/// One stream, from the sending end to the other.
#[derive(Clone, Copy)]
struct Link {
    number: u32,
    /// The region at the other end.
    stag: u32,
    /// A segment is a frame; else it is as long as TCP has them.
    is_aligned: bool,
}

#[derive(Drop)]
struct Lossy {
    alloc: Global,
    random: Random,
    pool: Pool,
    sender: End,
    receiver: End,
    links: Vec<Link>,
    // What was emitted and is to be delivered, and in which order.
    wire: Vec<u8>,
    segments: Vec<Segment>,
    late: Vec<Segment>,
    // Where the last Write goes, and how long it is.
    to: usize,
    len: usize,
    digest: Digest,
}

impl Lossy {
    fn new(alloc: Global, seed: u32) -> Result<Lossy> {
        let mut random = Random::new(seed);
        let pool = Pool::new(alloc, &mut random)?;
        Ok(Lossy {
            alloc,
            random,
            pool,
            sender: End::new(alloc)?,
            receiver: End::new(alloc)?,
            links: Vec::new(alloc),
            wire: Vec::new(alloc),
            segments: Vec::new(alloc),
            late: Vec::new(alloc),
            to: 0,
            len: 0,
            digest: Digest::new(),
        })
    }

    fn open(&mut self) -> Result<()> {
        for link in 0..STREAMS {
            let number = self.sender.open(Role::Preset, config(true, true, &[]))?;
            self.receiver.open(Role::Preset, config(true, true, &[]))?;
            let region = vec![in self.alloc; 0; REGION]?;
            let stag = self.receiver.register(region, TO_WRITE)?;
            self.links.push(Link {
                number,
                stag: u32::from(stag),
                is_aligned: link % 2 == 0,
            })?;
        }
        Ok(())
    }

    // Posts a Write of 64 KiB to 1 MiB, and a Send behind it.
    fn post(&mut self, link: Link) -> Result<()> {
        let len = 65_536 << self.random.below(5);
        let len = len.min(REGION);
        let at = self.pool.place(&mut self.random, len);
        let octets = self.pool.part(at, len)?;
        let to = self
            .random
            .below(REGION.saturating_sub(len).saturating_add(1)) as u64;
        self.sender.post_message(
            link.number,
            Message::Write {
                stag: Stag::from(link.stag),
                to: to as u64,
                octets,
            },
        )?;
        let words = self.random.next().to_le_bytes();
        let words = Bytes::copy_from_slice(self.alloc, &words)?;
        self.receiver
            .lend(link.number, vec![in self.alloc; 0; 16]?)?;
        self.sender.post_message(link.number, send(words))
    }

    // Emits a window, and cuts it into segments. Returns whether there was anything.
    fn emit(&mut self, link: Link, window: usize) -> Result<bool> {
        self.wire.clear();
        self.segments.clear();
        for _ in 0..MOST {
            let at = self.wire.len();
            if at >= window {
                break;
            }
            let Some((place, len)) = self.sender.emit(link.number, &mut self.wire)? else {
                break;
            };
            if link.is_aligned || self.segments.is_empty() {
                self.segments.push(Segment { place, at, len })?;
            }
        }
        if !link.is_aligned {
            self.cut()?;
        }
        Ok(!self.wire.is_empty())
    }

    // Cuts what was emitted into segments as TCP does.
    fn cut(&mut self) -> Result<()> {
        let Some(first) = self.segments.pop() else {
            return Ok(());
        };
        let all = self.wire.len();
        let mut at = 0;
        for _ in 0..MOST {
            if at >= all {
                break;
            }
            let len = SEGMENT.min(all.saturating_sub(at));
            let place = first.place.wrapping_add(at as u64);
            self.segments.push(Segment { place, at, len })?;
            at = at.saturating_add(len);
        }
        Ok(())
    }

    fn bring(&mut self, link: Link, segment: Segment) -> Result<()> {
        let all = self.wire.as_slice();
        if segment.at > all.len() || segment.len > all.len() - segment.at {
            bail!("no such segment");
        }
        let octets = &all[segment.at..segment.at + segment.len];
        self.receiver.deliver(link.number, segment.place, octets)?;
        self.act(link)
    }

    fn step(&mut self, link: Link, step: Step<Octets>) -> Result<()> {
        match step {
            Step::Received { buffer, len, .. } => {
                let octets = buffer.as_slice();
                self.digest.add_octets(&octets[..len.min(octets.len())]);
                self.look(link)
            }
            step => self.receiver.note(link.number, step),
        }
    }

    // Takes note of what is written.
    fn look(&mut self, link: Link) -> Result<()> {
        let Some(octets) = self.receiver.endpoint.local(Stag::from(link.stag)) else {
            bail!("no region");
        };
        let from = self.to.min(octets.len());
        let written = &octets[from..];
        self.digest
            .add_octets(&written[..self.len.min(written.len())]);
        Ok(())
    }

    fn act(&mut self, link: Link) -> Result<()> {
        for _ in 0..MOST {
            match self.receiver.next(link.number)? {
                Step::Idle => return Ok(()),
                step => self.step(link, step)?,
            }
        }
        bail!("too many steps")
    }

    // Brings the segment that has been late for longest, if one has.
    fn catch_up(&mut self, link: Link) -> Result<bool> {
        if self.late.is_empty() {
            return Ok(false);
        }
        let segment = self.late.remove(0);
        self.bring(link, segment)?;
        Ok(true)
    }

    // Delivers the segments of a window. One of so many comes late, behind some of those that follow it.
    fn deliver(&mut self, link: Link, late_of: usize) -> Result<()> {
        for i in 0..self.segments.len() {
            let Some(segment) = self.segments.get(i).copied() else {
                break;
            };
            if self.random.once_in(late_of) {
                self.late.push(segment)?;
                continue;
            }
            self.bring(link, segment)?;
            if self.random.once_in(20) {
                self.catch_up(link)?;
            }
        }
        for _ in 0..MOST {
            if !self.catch_up(link)? {
                break;
            }
        }
        Ok(())
    }

    // Carries what is posted at a stream, window by window.
    fn carry(&mut self, link: Link) -> Result<()> {
        for _ in 0..MOST {
            let window = self.random.between(64 << 10, 250 << 10);
            let late_of = self.random.between(20, 100);
            if !self.emit(link, window)? {
                return Ok(());
            }
            self.deliver(link, late_of)?;
            self.settle(link)?;
        }
        bail!("too many windows")
    }

    // The sender takes note of what is done.
    fn settle(&mut self, link: Link) -> Result<()> {
        for _ in 0..MOST {
            match self.sender.next(link.number)? {
                Step::Idle => return Ok(()),
                step => self.sender.note(link.number, step)?,
            }
        }
        bail!("too many steps")
    }

    fn round(&mut self) -> Result<()> {
        for i in 0..self.links.len() {
            let Some(link) = self.links.get(i).copied() else {
                break;
            };
            self.post(link)?;
            self.carry(link)?;
        }
        Ok(())
    }
}

/// Carries rounds of Writes, one at each stream. Returns their digest.
pub fn run(alloc: Global, seed: u32, rounds: u32) -> Result<u64> {
    let mut lossy = Lossy::new(alloc, seed)?;
    lossy.open()?;
    for _ in 0..rounds {
        lossy.round()?;
    }
    Ok(lossy.digest.finish())
}
