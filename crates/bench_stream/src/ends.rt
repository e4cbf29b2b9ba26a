use crate::end::{Buffers, DOMAIN, End, Stop};
use crate::load::Load;
use crate::wire::Wire;
use bytes::Bytes;
use iw_memory::{Memory, Rights, Stag};
use iw_octets::{InPieces, ReadRequest};
use iw_stream::Role;
use std::alloc::Global;

/// The most frames that are emitted for a round.
const MAX_FRAMES: usize = 1_000_000;

fn memory(alloc: Global) -> Result<Memory, Stop> {
    let mut memory = Memory::new(alloc);
    if memory.add_domain(DOMAIN).is_err() {
        return Err(Stop);
    }
    Ok(memory)
}

// The rights of the region into which Writes and Read Responses are placed, and of the region that is read.
const TO_PLACE: Rights = Rights {
    write: true,
    read: false,
    sink: true,
    invalidate: false,
};

const TO_READ: Rights = Rights {
    write: false,
    read: true,
    sink: false,
    invalidate: false,
};

// The octets that are read, if any are.
fn to_read(alloc: Global, load: Load, octets: &[u8]) -> Result<Vec<u8>, Stop> {
    if load.reads {
        Ok(octets.to_vec(alloc)?)
    } else {
        Ok(Vec::new(alloc))
    }
}

fn register(memory: &mut Memory, octets: Vec<u8>, rights: Rights) -> Result<Stag, Stop> {
    match memory.register(DOMAIN, 0, octets, rights) {
        Ok(stag) => Ok(stag),
        Err(_) => Err(Stop),
    }
}

/// What the receiving streams share.
#[derive(Drop)]
struct Receiving {
    memory: Memory,
    buffers: Buffers,
    /// The most octets of a delivery.
    delivery: usize,
    /// The first of each `gap` deliveries of a window is left out.
    gap: usize,
    /// The steps are called from the other place of the code.
    too: bool,
}

impl Receiving {
    // With no buffer and no region.
    fn new(alloc: Global, load: Load) -> Result<Receiving, Stop> {
        Ok(Receiving {
            memory: memory(alloc)?,
            buffers: Buffers::new(alloc)?,
            delivery: load.delivery,
            gap: load.gap,
            too: false,
        })
    }

    fn settle(&mut self, end: &mut End) -> Result<u64, Stop> {
        if self.too {
            end.settle_too(&mut self.memory, &mut self.buffers)
        } else {
            end.settle(&mut self.memory, &mut self.buffers)
        }
    }

    // Delivers octets, and works until there is nothing to do.
    fn take_piece(&mut self, end: &mut End, from: u64, octets: &[u8]) -> Result<u64, Stop> {
        end.deliver(from, octets)?;
        self.settle(end)
    }

    // Delivers the octets of a frame. Returns how many octets were placed.
    fn take(&mut self, end: &mut End, from: u64, octets: &[u8]) -> Result<u64, Stop> {
        let mut placed = 0u64;
        let mut place = from;
        for piece in InPieces::new(octets, self.delivery.max(1)) {
            let more = self.take_piece(end, place, piece)?;
            placed = placed.wrapping_add(more);
            place = place.wrapping_add(piece.len() as u64);
        }
        Ok(placed)
    }

    // Delivers frames, `further` octets after the places at which they were emitted. Returns how many octets were
    // placed.
    fn take_all(&mut self, end: &mut End, wire: &Wire, further: u64) -> Result<u64, Stop> {
        let mut placed = 0u64;
        for frame in wire.frames() {
            let from = frame.from.wrapping_add(further);
            let more = self.take(end, from, wire.octets_of(*frame)?)?;
            placed = placed.wrapping_add(more);
        }
        Ok(placed)
    }

    // Has an end read octets in place, and works until there is nothing to do behind each read. Returns how many octets were
    // placed.
    fn read_all(&mut self, end: &mut End, octets: &[u8]) -> Result<u64, Stop> {
        let mut from = octets;
        let mut placed = 0u64;
        for _ in 0..MAX_FRAMES {
            if !end.read(&mut from)? {
                return Ok(placed);
            }
            let more = self.settle(end)?;
            placed = placed.wrapping_add(more);
        }
        Err(Stop)
    }

    // Delivers octets from place 0 on, except the first of each `gap` deliveries. Returns how many deliveries there
    // were.
    fn take_past_gaps(&mut self, end: &mut End, octets: &[u8]) -> Result<u64, Stop> {
        let mut deliveries = 0u64;
        let mut place = 0u64;
        let mut number = 0usize;
        for piece in InPieces::new(octets, self.delivery.max(1)) {
            if number % self.gap.max(1) != 0 {
                self.take_piece(end, place, piece)?;
                deliveries = deliveries.wrapping_add(1);
            }
            place = place.wrapping_add(piece.len() as u64);
            number = number.wrapping_add(1);
        }
        Ok(deliveries)
    }

    // Whether the free buffers, or the region, have these octets.
    fn holds(&self, stag: Stag, sends: bool, octets: &[u8]) -> bool {
        if sends {
            return all_have(self.buffers.spare.as_slice(), octets);
        }
        match self.memory.local(stag) {
            Some(region) => region == octets,
            None => false,
        }
    }
}

fn all_have(buffers: &[Vec<u8>], octets: &[u8]) -> bool {
    for buffer in buffers {
        if buffer.as_slice() != octets {
            return false;
        }
    }
    true
}

/// Two ends of a connection.
#[derive(Drop)]
struct Pair {
    sender: End,
    receiver: End,
}

impl Pair {
    fn new(alloc: Global, load: Load) -> Result<Pair, Stop> {
        let (sends, receives) = if load.start_up {
            (Role::Initiator, Role::Responder)
        } else {
            (Role::Preset, Role::Preset)
        };
        Ok(Pair {
            sender: End::new(alloc, load, sends)?,
            receiver: End::receiving(alloc, load, receives)?,
        })
    }

    fn post(
        &mut self,
        load: Load,
        stag: Stag,
        octets: &Bytes,
        receiving: &mut Receiving,
    ) -> Result<(), Stop> {
        if load.sends {
            self.receiver.post_recv(&mut receiving.buffers)?;
            self.sender.post_send(octets.clone()?)
        } else {
            self.sender.post_write(stag, octets.clone()?)
        }
    }
}

// Delivers the next frame of the receiving end to the other.
fn hand_over(pair: &mut Pair, memory: &Memory, wire: &mut Wire) -> Result<(), Stop> {
    match wire.next(&mut pair.receiver, memory)? {
        Some(from) => pair.sender.deliver(from, wire.octets()),
        None => Err(Stop),
    }
}

// The two ends exchange start-up frames.
fn start_up(
    pair: &mut Pair,
    source: &Memory,
    wire: &mut Wire,
    receiving: &mut Receiving,
) -> Result<(), Stop> {
    wire.fill(&mut pair.sender, source, 1)?;
    receiving.take_all(&mut pair.receiver, wire, 0)?;
    pair.receiver.accept()?;
    wire.fill(&mut pair.receiver, &receiving.memory, 1)?;
    receiving.take_all(&mut pair.sender, wire, 0)?;
    Ok(())
}

fn add_pair(pairs: &mut Vec<Pair>, pair: Pair) -> Result<(), Stop> {
    pairs.reserve(1)?;
    pairs.push_reserved(pair);
    Ok(())
}

// Carries the next frame of a pair. Returns how many octets were placed.
fn carry_frame(
    pair: &mut Pair,
    source: &Memory,
    wire: &mut Wire,
    receiving: &mut Receiving,
) -> Result<u64, Stop> {
    match wire.next(&mut pair.sender, source)? {
        Some(from) => receiving.take(&mut pair.receiver, from, wire.octets()),
        None => Ok(0),
    }
}

// Carries the next frames of a pair. Returns how many octets were placed.
fn carry_batch(
    pair: &mut Pair,
    source: &Memory,
    wire: &mut Wire,
    receiving: &mut Receiving,
    load: Load,
) -> Result<u64, Stop> {
    wire.fill(&mut pair.sender, source, load.batch)?;
    wire.arrange(load)?;
    receiving.take_all(&mut pair.receiver, wire, 0)
}

/// Streams, the regions and buffers of those that receive, and frames in transit.
#[derive(Drop)]
pub(crate) struct Ends {
    load: Load,
    pairs: Vec<Pair>,
    /// The sending side has one region, which is read, and gets no buffer back.
    source: Memory,
    source_stag: Stag,
    none: Buffers,
    receiving: Receiving,
    stag: Stag,
    wire: Wire,
}

impl Ends {
    /// New streams, open, with the buffers for a round.
    pub(crate) fn new(alloc: Global, load: Load, octets: &[u8]) -> Result<Ends, Stop> {
        let mut ends = Ends::empty(alloc, load)?;
        ends.fill(alloc, octets)?;
        Ok(ends)
    }

    // No stream, no region and no buffer.
    fn empty(alloc: Global, load: Load) -> Result<Ends, Stop> {
        Ok(Ends {
            load,
            pairs: Vec::with_capacity(alloc, load.pairs)?,
            source: memory(alloc)?,
            source_stag: Stag::new(DOMAIN, 0, 0),
            none: Buffers::new(alloc)?,
            receiving: Receiving::new(alloc, load)?,
            stag: Stag::new(DOMAIN, 0, 0),
            wire: Wire::new(alloc),
        })
    }

    fn fill(&mut self, alloc: Global, octets: &[u8]) -> Result<(), Stop> {
        let zeros = vec![in alloc; 0; self.load.message]?;
        self.stag = register(&mut self.receiving.memory, zeros, TO_PLACE)?;
        let octets = to_read(alloc, self.load, octets)?;
        self.source_stag = register(&mut self.source, octets, TO_READ)?;
        self.add_pairs(alloc)?;
        self.set_up()?;
        self.add_buffers(alloc)
    }

    fn add_pairs(&mut self, alloc: Global) -> Result<(), Stop> {
        for _ in 0..self.load.pairs {
            add_pair(&mut self.pairs, Pair::new(alloc, self.load)?)?;
        }
        Ok(())
    }

    // The buffers of a round, and before them those that are posted ahead.
    fn add_buffers(&mut self, alloc: Global) -> Result<(), Stop> {
        if !self.load.sends {
            return Ok(());
        }
        for pair in self.pairs.iter_mut() {
            for _ in 0..self.load.ahead {
                self.receiving.buffers.add(alloc, self.load.message)?;
                pair.receiver.post_recv(&mut self.receiving.buffers)?;
            }
        }
        for _ in 0..self.load.posted.saturating_mul(self.load.pairs) {
            self.receiving.buffers.add(alloc, self.load.message)?;
        }
        Ok(())
    }

    // Sets the maximum ULPDU of each pair, whose ends exchange start-up frames if the load says so.
    fn set_up(&mut self) -> Result<(), Stop> {
        for pair in self.pairs.iter_mut() {
            pair.sender.set_mulpdu(self.load.mulpdu)?;
            pair.receiver.set_mulpdu(self.load.mulpdu)?;
            if self.load.start_up {
                start_up(pair, &self.source, &mut self.wire, &mut self.receiving)?;
            }
        }
        Ok(())
    }

    // Posts a Read of the source at an offset to each receiving end, and delivers its request.
    fn post_reads(&mut self, offset: u64) -> Result<(), Stop> {
        let size = self.load.message.min(1 << 24) as u32;
        for pair in self.pairs.iter_mut() {
            pair.receiver.post_read(ReadRequest {
                sink: self.stag,
                sink_to: 0,
                size,
                source: self.source_stag,
                source_to: offset,
            })?;
            hand_over(pair, &self.receiving.memory, &mut self.wire)?;
            pair.sender.settle(&mut self.source, &mut self.none)?;
        }
        Ok(())
    }

    fn post(&mut self, octets: &Bytes) -> Result<(), Stop> {
        for pair in self.pairs.iter_mut() {
            for _ in 0..self.load.posted {
                pair.post(self.load, self.stag, octets, &mut self.receiving)?;
            }
        }
        Ok(())
    }

    // Carries a batch of each pair.
    fn turn(&mut self) -> Result<u64, Stop> {
        let mut placed = 0u64;
        for pair in self.pairs.iter_mut() {
            let more = if self.load.batch == 1 {
                carry_frame(pair, &self.source, &mut self.wire, &mut self.receiving)?
            } else {
                carry_batch(
                    pair,
                    &self.source,
                    &mut self.wire,
                    &mut self.receiving,
                    self.load,
                )?
            };
            placed = placed.wrapping_add(more);
        }
        Ok(placed)
    }

    fn settle_senders(&mut self) -> Result<(), Stop> {
        for pair in self.pairs.iter_mut() {
            pair.sender.settle(&mut self.source, &mut self.none)?;
        }
        Ok(())
    }

    /// Carries a round of messages. Returns how many octets were placed. They are at this offset in the region that is
    /// read.
    pub(crate) fn carry(&mut self, octets: &Bytes, offset: u64) -> Result<u64, Stop> {
        if self.load.reads {
            self.post_reads(offset)?;
        } else {
            self.post(octets)?;
        }
        let mut placed = 0u64;
        for _ in 0..MAX_FRAMES {
            let more = self.turn()?;
            if more == 0 {
                self.settle_senders()?;
                return self.end_round(octets, placed);
            }
            placed = placed.wrapping_add(more);
        }
        Err(Stop)
    }

    // The steps of the next round are called from the other place of the code.
    fn end_round(&mut self, octets: &Bytes, placed: u64) -> Result<u64, Stop> {
        if self.load.two_callers {
            self.receiving.too = !self.receiving.too;
        }
        self.compare(octets)?;
        Ok(placed)
    }

    /// Compares what came with what was posted, if the load says so.
    pub(crate) fn compare(&self, octets: &Bytes) -> Result<(), Stop> {
        let octets = octets.as_slice();
        if self.load.compared && !self.receiving.holds(self.stag, self.load.sends, octets) {
            return Err(Stop);
        }
        Ok(())
    }

    /// Emits a round of messages, for `repeat`.
    pub(crate) fn emit(&mut self, octets: &Bytes) -> Result<(), Stop> {
        self.post(octets)?;
        let Some(pair) = self.pairs.get_mut(0) else {
            return Err(Stop);
        };
        self.wire.fill(&mut pair.sender, &self.source, MAX_FRAMES)?;
        self.wire.arrange(self.load)
    }

    /// Delivers the frames that were emitted, at later places for each round. Returns how many octets were placed.
    pub(crate) fn repeat(&mut self, round: u64) -> Result<u64, Stop> {
        let further = round.wrapping_mul(self.wire.len() as u64);
        let Some(pair) = self.pairs.get_mut(0) else {
            return Err(Stop);
        };
        self.receiving
            .take_all(&mut pair.receiver, &self.wire, further)
    }

    /// Has the receiving end read the frames that were emitted in place, behind what came. Returns how many octets were placed.
    pub(crate) fn read_again(&mut self) -> Result<u64, Stop> {
        let Some(pair) = self.pairs.get_mut(0) else {
            return Err(Stop);
        };
        self.receiving
            .read_all(&mut pair.receiver, self.wire.octets())
    }

    /// Delivers the octets that were emitted, except those of the first of each `gap` deliveries, to a new stream.
    /// Returns how many deliveries there were.
    pub(crate) fn take_window(&mut self, alloc: Global) -> Result<u64, Stop> {
        let mut end = End::new(alloc, self.load, Role::Preset)?;
        end.set_mulpdu(self.load.mulpdu)?;
        self.receiving.take_past_gaps(&mut end, self.wire.octets())
    }

    /// Makes the markers that were emitted point where the load says.
    pub(crate) fn lie(&mut self) {
        self.wire.lie(self.load);
    }
}
