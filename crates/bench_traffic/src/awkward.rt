//! Awkward traffic: deliveries of 1 to 200 octets, ULPDUs of 128, Sends of 0 to 64 octets, many regions that come and go,
//! windows whose first frame comes last, and markers that lie.

use crate::end::{End, TO_WRITE, config, made, send};
use anyhow::{Result, bail};
use bench_input::{Digest, Pool, Random};
use iw_connection::{Octets, Step, close};
use iw_endpoint::{Message, Role, Stag};
use std::alloc::Global;

/// How many regions live.
const REGIONS: usize = 1_000;

const REGION: usize = 256;

/// The octets of the region that windows are written to.
const WINDOW: usize = 180_000;

const MARKER_SPACING: usize = 512;

const MOST: u32 = 1_000_000;

/// Two ends with a stream, and the regions of the receiving one.
#[derive(Drop)]
struct Awkward {
    alloc: Global,
    random: Random,
    pool: Pool,
    sender: End,
    receiver: End,
    regions: Vec<Stag>,
    window: Stag,
    wire: Vec<u8>,
    digest: Digest,
}

impl Awkward {
    fn new(alloc: Global, seed: u32) -> Result<Awkward> {
        let mut random = Random::new(seed);
        let pool = Pool::new(alloc, &mut random)?;
        let mut receiver = End::new(alloc)?;
        let window = receiver.register(vec![in alloc; 0; WINDOW]?, TO_WRITE)?;
        Ok(Awkward {
            alloc,
            random,
            pool,
            sender: End::new(alloc)?,
            receiver,
            regions: Vec::new(alloc),
            window,
            wire: Vec::new(alloc),
            digest: Digest::new(),
        })
    }

    fn fill(&mut self) -> Result<()> {
        for _ in 0..REGIONS {
            let region = vec![in self.alloc; 0; REGION]?;
            let stag = self.receiver.register(region, TO_WRITE)?;
            self.regions.push(stag)?;
        }
        Ok(())
    }

    // Opens a stream with ULPDUs of 128 octets, at both ends.
    fn open(&mut self, markers: bool, crc: bool) -> Result<u32> {
        let number = self.sender.open(Role::Preset, config(markers, crc, &[]))?;
        self.receiver.open(Role::Preset, config(markers, crc, &[]))?;
        made("set_mulpdu", self.sender.endpoint.set_mulpdu(number, 128))?;
        Ok(number)
    }

    fn step(&mut self, number: u32, step: Step<Octets>) -> Result<()> {
        match step {
            Step::Received { buffer, len, .. } => {
                let octets = buffer.as_slice();
                self.digest.add_octets(&octets[..len.min(octets.len())]);
                Ok(())
            }
            step => self.receiver.note(number, step),
        }
    }

    fn act(&mut self, number: u32) -> Result<()> {
        for _ in 0..MOST {
            match self.receiver.next(number)? {
                Step::Idle => return Ok(()),
                step => self.step(number, step)?,
            }
        }
        bail!("too many steps")
    }

    fn settle(&mut self, number: u32) -> Result<()> {
        for _ in 0..MOST {
            match self.sender.next(number)? {
                Step::Idle => return Ok(()),
                step => self.sender.note(number, step)?,
            }
        }
        bail!("too many steps")
    }

    // Replaces one of the regions by a new one, and returns where it stands.
    fn renew(&mut self) -> Result<Stag> {
        let at = self.random.below(self.regions.len());
        let Some(stag) = self.regions.get(at).copied() else {
            bail!("no region");
        };
        let octets = self.receiver.deregister(stag)?;
        self.digest.add_octets(octets.as_slice());
        let stag = self.receiver.register(octets, TO_WRITE)?;
        if let Some(place) = self.regions.get_mut(at) {
            *place = stag;
        }
        Ok(stag)
    }

    // Posts a Send of a few octets.
    fn post_send(&mut self, number: u32) -> Result<()> {
        let len = self.random.below(65);
        let at = self.pool.place(&mut self.random, len);
        let octets = self.pool.part(at, len)?;
        self.receiver.lend(number, vec![in self.alloc; 0; 64]?)?;
        self.sender.post_message(number, send(octets))
    }

    // Posts a Write of a few octets to a region that is new.
    fn post_write(&mut self, number: u32) -> Result<()> {
        let len = self.random.below(65);
        let at = self.pool.place(&mut self.random, len);
        let octets = self.pool.part(at, len)?;
        let stag = self.renew()?;
        let to = self.random.below(REGION - 64) as u64;
        self.sender
            .post_message(number, Message::Write { stag, to, octets })
    }

    // Emits all that is due at a stream. Returns the place of the first octet, and the length of the first frame.
    fn emit(&mut self, number: u32) -> Result<(u64, usize)> {
        self.wire.clear();
        let mut first = None;
        for _ in 0..MOST {
            match self.sender.emit(number, &mut self.wire)? {
                Some(frame) if first.is_none() => first = Some(frame),
                Some(_) => {}
                None => break,
            }
        }
        self.settle(number)?;
        match first {
            Some(frame) => Ok(frame),
            None => bail!("nothing was emitted"),
        }
    }

    // Delivers octets of what was emitted, of which the first has this place.
    fn bring(&mut self, number: u32, place: u64, from: usize, to: usize) -> Result<()> {
        let all = self.wire.as_slice();
        if from > to || to > all.len() {
            bail!("no such octets");
        }
        self.receiver
            .deliver(number, place.wrapping_add(from as u64), &all[from..to])?;
        self.act(number)
    }

    // Delivers all that was emitted, 1 to 200 octets at a time.
    fn bring_in_pieces(&mut self, number: u32, place: u64) -> Result<()> {
        let all = self.wire.len();
        let mut at = 0;
        for _ in 0..MOST {
            if at >= all {
                return Ok(());
            }
            let to = at.saturating_add(self.random.between(1, 200)).min(all);
            self.bring(number, place, at, to)?;
            at = to;
        }
        bail!("too many pieces")
    }

    // Small messages, in small deliveries.
    fn small(&mut self, number: u32, messages: u32) -> Result<()> {
        for _ in 0..messages {
            if self.random.once_in(2) {
                self.post_write(number)?;
            }
            self.post_send(number)?;
            if self.random.once_in(8) {
                self.post_send(number)?;
                self.post_send(number)?;
            }
            let (place, _) = self.emit(number)?;
            self.bring_in_pieces(number, place)?;
        }
        Ok(())
    }

    fn post_window(&mut self, number: u32) -> Result<()> {
        let at = self.pool.place(&mut self.random, WINDOW);
        let octets = self.pool.part(at, WINDOW)?;
        self.sender.post_message(
            number,
            Message::Write {
                stag: self.window,
                to: 0,
                octets,
            },
        )
    }

    // A window whose first frame comes last; the others come in deliveries of 1,460 octets.
    fn first_last(&mut self, number: u32) -> Result<()> {
        self.post_window(number)?;
        let (place, len) = self.emit(number)?;
        let all = self.wire.len();
        let mut at = len;
        for _ in 0..MOST {
            if at >= all {
                break;
            }
            let to = at.saturating_add(1_460).min(all);
            self.bring(number, place, at, to)?;
            at = to;
        }
        self.bring(number, place, 0, len.min(all))?;
        self.look()
    }

    // Takes note of the window's region.
    fn look(&mut self) -> Result<()> {
        let Some(octets) = self.receiver.endpoint.local(self.window) else {
            bail!("no region");
        };
        self.digest.add_octets(octets);
        Ok(())
    }

    // Has each marker point to a frame of 65,535 octets right behind it, or to a place by chance.
    fn lie(&mut self) {
        let is_near = self.random.once_in(2);
        for part in self.wire.chunks_mut(MARKER_SPACING) {
            if part.len() >= 6 {
                let number = self.random.next().to_le_bytes();
                if is_near {
                    part[2] = 0;
                    part[3] = 0;
                    part[4] = 255;
                    part[5] = 255;
                } else {
                    part[2] = number[0];
                    part[3] = number[1];
                }
            }
        }
    }

    // A window of a new stream whose markers lie, and of which the first of each 40 deliveries is lost.
    fn lying(&mut self) -> Result<()> {
        let number = self.open(true, false)?;
        self.post_window(number)?;
        let (place, _) = self.emit(number)?;
        self.lie();
        let all = self.wire.len();
        let mut at = 0;
        for delivery in 0..MOST {
            if at >= all {
                break;
            }
            let to = at.saturating_add(1_408).min(all);
            if delivery % 40 != 0 {
                self.bring(number, place, at, to)?;
            }
            at = to;
        }
        self.look()?;
        self.close(number)
    }

    // Forgets a stream at both ends.
    fn close(&mut self, number: u32) -> Result<()> {
        made("close", close(&mut self.sender.endpoint, number))?;
        made("close", close(&mut self.receiver.endpoint, number))?;
        self.settle(number)?;
        self.act(number)?;
        made("close", self.sender.endpoint.close(number))?;
        made("close", self.receiver.endpoint.close(number))
    }

    // Takes note of the regions that live at the end.
    fn look_at_regions(&mut self) -> Result<()> {
        for _ in 0..REGIONS {
            let Some(stag) = self.regions.pop() else {
                break;
            };
            let octets = self.receiver.deregister(stag)?;
            self.digest.add_octets(octets.as_slice());
        }
        Ok(())
    }

    fn round(&mut self, plain: u32, framed: u32) -> Result<()> {
        self.small(plain, 2_000)?;
        self.small(framed, 2_000)?;
        self.first_last(framed)?;
        self.first_last(plain)?;
        self.lying()
    }
}

/// Does rounds of all of this. Returns the digest of what came.
pub fn run(alloc: Global, seed: u32, rounds: u32) -> Result<u64> {
    let mut awkward = Awkward::new(alloc, seed)?;
    awkward.fill()?;
    let plain = awkward.open(false, false)?;
    let framed = awkward.open(true, true)?;
    for _ in 0..rounds {
        awkward.round(plain, framed)?;
    }
    awkward.look_at_regions()?;
    Ok(awkward.digest.finish())
}
