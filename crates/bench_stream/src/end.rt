use crate::load::Load;
use bytes::Bytes;
use iw_memory::{Memory, Stag};
use iw_octets::{MAX_PLACE, Message, Octets, ReadRequest};
use iw_stream::{
    Config, Delivery, Emission, Establishment, Intake, PrivateData, Request, Role, Step, Stream,
    exceeds_request,
};
use iw_untagged::SharedQueue;
use std::alloc::{AllocError, Global};

/// The domain of all streams and regions.
pub(crate) const DOMAIN: u8 = 1;

// The most steps that are done for one delivery.
const MAX_STEPS: u32 = 10_000;

/// Something went wrong.
#[derive(Clone, Copy)]
pub(crate) struct Stop;

impl From<AllocError> for Stop {
    fn from(_error: AllocError) -> Self {
        Stop
    }
}

/// Receive buffers of one side.
#[derive(Drop)]
pub(crate) struct Buffers {
    /// Those that are not posted.
    pub(crate) spare: Vec<Vec<u8>>,
    /// Those that streams share.
    pub(crate) pool: SharedQueue,
}

impl Buffers {
    /// No buffer.
    pub(crate) fn new(alloc: Global) -> Result<Buffers, Stop> {
        Ok(Buffers {
            spare: Vec::new(alloc),
            pool: SharedQueue::new(alloc)?,
        })
    }

    /// Adds a buffer of zeros that is not posted.
    pub(crate) fn add(&mut self, alloc: Global, len: usize) -> Result<(), Stop> {
        let buffer = vec![in alloc; 0; len]?;
        self.spare.reserve(1)?;
        self.spare.push_reserved(buffer);
        Ok(())
    }
}

/// One end of a connection.
#[derive(Drop)]
pub(crate) struct End {
    stream: Stream,
}

fn config(load: Load) -> Config {
    Config {
        markers: load.markers,
        crc: load.crc,
        establishment: Establishment::Plain,
        private: PrivateData::new(),
    }
}

impl End {
    /// An end with the load's markers and CRCs.
    pub(crate) fn new(alloc: Global, load: Load, role: Role) -> Result<End, Stop> {
        let config = config(load);
        if exceeds_request(role, &config) {
            return Err(Stop);
        }
        Ok(End {
            stream: Stream::new(alloc, DOMAIN, role, config)?,
        })
    }

    /// The same, which receives: its receive buffers come from the pool if the load says so.
    pub(crate) fn receiving(alloc: Global, load: Load, role: Role) -> Result<End, Stop> {
        if !load.pooled {
            return End::new(alloc, load, role);
        }
        let config = config(load);
        if exceeds_request(role, &config) {
            return Err(Stop);
        }
        Ok(End {
            stream: Stream::new_shared(alloc, DOMAIN, role, config)?,
        })
    }

    /// Sets the maximum ULPDU.
    pub(crate) fn set_mulpdu(&mut self, size: u32) -> Result<(), Stop> {
        match self.stream.set_mulpdu(size) {
            Ok(()) => Ok(()),
            Err(_) => Err(Stop),
        }
    }

    fn post(&mut self, request: Request<Bytes>) -> Result<(), Stop> {
        match self.stream.post(request) {
            Ok(()) => Ok(()),
            Err(_) => Err(Stop),
        }
    }

    /// Posts a Write to the beginning of a region.
    pub(crate) fn post_write(&mut self, stag: Stag, octets: Bytes) -> Result<(), Stop> {
        self.post(Request::Message(Message::Write {
            stag,
            to: 0,
            octets,
        }))
    }

    /// Posts a Send.
    pub(crate) fn post_send(&mut self, octets: Bytes) -> Result<(), Stop> {
        self.post(Request::Message(Message::Send {
            octets,
            solicited: false,
            invalidate: None,
        }))
    }

    /// Posts a Read.
    pub(crate) fn post_read(&mut self, request: ReadRequest) -> Result<(), Stop> {
        self.post(Request::Read(request))
    }

    /// Posts a receive buffer that is not posted yet, to the pool if the end shares one.
    pub(crate) fn post_recv(&mut self, buffers: &mut Buffers) -> Result<(), Stop> {
        let Some(buffer) = buffers.spare.pop() else {
            return Err(Stop);
        };
        if self.stream.is_shared() {
            return add_to_pool(&mut buffers.pool, buffer);
        }
        match self.stream.post_recv(buffer) {
            Ok(()) => Ok(()),
            Err(_) => Err(Stop),
        }
    }

    /// Appends the next frame and returns its place; `None` if no frame is due.
    pub(crate) fn emit(&mut self, memory: &Memory, out: &mut Vec<u8>) -> Result<Option<u64>, Stop> {
        if self.stream.sent() > MAX_PLACE {
            return Err(Stop);
        }
        match self.stream.emit(memory, out)? {
            Emission::Frame { from, .. } | Emission::Fetched { from, .. } => Ok(Some(from)),
            Emission::Nothing => Ok(None),
            Emission::Fault(_) => Err(Stop),
        }
    }

    /// Delivers octets; the first is at this place, whose number wraps.
    pub(crate) fn deliver(&mut self, from: u64, octets: &[u8]) -> Result<(), Stop> {
        let number = (from % (1 << 32)) as u32;
        match self.stream.deliver(number, octets)? {
            Delivery::Kept => Ok(()),
            Delivery::Dropped => Err(Stop),
        }
    }

    /// Reads once, right to where the octets are to stand. Returns whether there were any.
    pub(crate) fn read(&mut self, from: &mut &[u8]) -> Result<bool, Stop> {
        match self.stream.read_from(from) {
            Ok(Intake::Came(_)) => Ok(true),
            Ok(Intake::End) => Ok(false),
            Ok(Intake::Full) | Err(_) => Err(Stop),
        }
    }

    /// Accepts the peer's start-up frame.
    pub(crate) fn accept(&mut self) -> Result<(), Stop> {
        match self.stream.accept(PrivateData::new()) {
            Ok(_) => Ok(()),
            Err(_) => Err(Stop),
        }
    }

    // Does one step, and returns what `told` says of it.
    #[inline(always)]
    fn step(&mut self, memory: &mut Memory, buffers: &mut Buffers) -> Result<Option<u64>, Stop> {
        if self.stream.in_order_point() > MAX_PLACE {
            return Err(Stop);
        }
        match self.stream.work(memory) {
            Ok(step) => told(step, buffers),
            Err(_) => Err(Stop),
        }
    }

    // The same, of a stream that shares the pool.
    #[inline(always)]
    fn step_shared(
        &mut self,
        memory: &mut Memory,
        buffers: &mut Buffers,
    ) -> Result<Option<u64>, Stop> {
        if self.stream.in_order_point() > MAX_PLACE {
            return Err(Stop);
        }
        match self.stream.work_shared(memory, &mut buffers.pool) {
            Ok(step) => told(step, buffers),
            Err(_) => Err(Stop),
        }
    }

    // Works until there is nothing to do, of a stream that shares the pool: in a call of its own, so that it burdens no other.
    #[inline(never)]
    fn settle_shared(&mut self, memory: &mut Memory, buffers: &mut Buffers) -> Result<u64, Stop> {
        let mut placed = 0u64;
        for _ in 0..MAX_STEPS {
            let Some(more) = self.step_shared(memory, buffers)? else {
                return Ok(placed);
            };
            placed = placed.wrapping_add(more);
        }
        Err(Stop)
    }

    /// Works until there is nothing to do. Returns how many octets were placed.
    #[inline(never)]
    pub(crate) fn settle(
        &mut self,
        memory: &mut Memory,
        buffers: &mut Buffers,
    ) -> Result<u64, Stop> {
        if self.stream.is_shared() {
            return self.settle_shared(memory, buffers);
        }
        let mut placed = 0u64;
        for _ in 0..MAX_STEPS {
            let Some(more) = self.step(memory, buffers)? else {
                return Ok(placed);
            };
            placed = placed.wrapping_add(more);
        }
        Err(Stop)
    }

    /// The same. With two callers of `work`, the compiler cannot inline it into its only caller.
    #[inline(never)]
    pub(crate) fn settle_too(
        &mut self,
        memory: &mut Memory,
        buffers: &mut Buffers,
    ) -> Result<u64, Stop> {
        if self.stream.is_shared() {
            return self.settle_shared(memory, buffers);
        }
        let mut placed = 0u64;
        for _ in 0..MAX_STEPS {
            match self.step(memory, buffers)? {
                Some(more) => placed = placed.wrapping_add(more),
                None => return Ok(placed),
            }
        }
        Err(Stop)
    }
}

fn add_to_pool(pool: &mut SharedQueue, buffer: Vec<u8>) -> Result<(), Stop> {
    match pool.post(buffer) {
        Ok(()) => Ok(()),
        Err(_) => Err(Stop),
    }
}

// How many octets a step placed; `None` if there was nothing to do. The buffer of a complete Send is no longer posted.
#[inline(always)]
fn told(step: Step<Octets>, buffers: &mut Buffers) -> Result<Option<u64>, Stop> {
    match step {
        Step::Placed { len, .. } | Step::Buffered { len, .. } => Ok(Some(len as u64)),
        Step::Received { buffer, .. } => keep(&mut buffers.spare, buffer),
        Step::Done(_) | Step::Tried(_) | Step::Passed => Ok(Some(0)),
        Step::Asked | Step::Opened(_) | Step::Requested { .. } => Ok(Some(0)),
        Step::Idle => Ok(None),
        Step::Closed(_) | Step::Terminated(_) | Step::Fault(_) => Err(Stop),
        Step::Flushed(_) | Step::FlushedRecv(_) => Err(Stop),
    }
}

fn keep(spare: &mut Vec<Vec<u8>>, buffer: Octets) -> Result<Option<u64>, Stop> {
    spare.reserve(1)?;
    spare.push_reserved(buffer.into_vec());
    Ok(Some(0))
}
