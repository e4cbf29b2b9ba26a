use crate::client::{Stop, config, frames};
use iw_connection::{Intake, next, take, take_some};
use iw_endpoint::{Endpoint, Rights, Role, STREAM_NUMBERS, Stag, Step};
use std::alloc::Global;

const DOMAIN: u8 = 1;

/// How many regions there are.
pub(crate) const REGIONS: u32 = 4;

const REGION: usize = 1 << 24;

const FIRST: u32 = STREAM_NUMBERS as u32;

// The most steps that are done at a stream in one go.
const MAX_STEPS: u32 = 1_000;

const WRITE: Rights = Rights {
    write: true,
    read: false,
    sink: false,
    invalidate: false,
};

/// The octets of a region.
pub(crate) fn region(alloc: Global) -> Result<Vec<u8>, Stop> {
    Ok(vec![in alloc; 0u8; REGION]?)
}

/// The end that serves.
#[derive(Drop)]
pub(crate) struct Server {
    endpoint: Endpoint,
}

impl Server {
    pub(crate) fn new(alloc: Global) -> Server {
        Server {
            endpoint: Endpoint::new(alloc),
        }
    }

    pub(crate) fn add_domain(&mut self, shares: bool) -> Result<(), Stop> {
        if self.endpoint.add_domain(DOMAIN).is_err() {
            return Err(Stop);
        }
        if shares && self.endpoint.share(DOMAIN).is_err() {
            return Err(Stop);
        }
        Ok(())
    }

    // Registers a region that peers may write to.
    pub(crate) fn register(&mut self, octets: Vec<u8>) -> Result<Stag, Stop> {
        match self.endpoint.register(DOMAIN, 0, octets, WRITE) {
            Ok(stag) => Ok(stag),
            Err(_) => Err(Stop),
        }
    }

    /// Takes a region back. Returns its octets.
    pub(crate) fn deregister(&mut self, stag: Stag) -> Result<Vec<u8>, Stop> {
        match self.endpoint.deregister(stag) {
            Ok(octets) => Ok(octets),
            Err(_) => Err(Stop),
        }
    }

    // Opens the next stream.
    fn open(&mut self, shares: bool) -> Result<u32, Stop> {
        let opened = if shares {
            self.endpoint
                .open_shared_next(DOMAIN, Role::Preset, config())
        } else {
            self.endpoint.open_next(DOMAIN, Role::Preset, config())
        };
        match opened {
            Ok(number) => Ok(number),
            Err(_) => Err(Stop),
        }
    }

    // Opens streams, of which nothing was opened before.
    fn open_all(&mut self, streams: u32, shares: bool) -> Result<(), Stop> {
        for _ in 0..streams {
            self.open(shares)?;
        }
        Ok(())
    }

    // Works until there is nothing to do. Returns how many messages came.
    fn settle(&mut self, number: u32) -> Result<u32, Stop> {
        let mut came = 0u32;
        for _ in 0..MAX_STEPS {
            match next(&mut self.endpoint, number) {
                Ok(Step::Idle) => return Ok(came),
                Ok(Step::Received { .. }) => came = came.wrapping_add(1),
                Ok(Step::FlushedRecv(_)) => {}
                _ => return Err(Stop),
            }
        }
        Err(Stop)
    }

    // Takes the frames of a connection, and posts another buffer, which is handed back at its end.
    fn carry(&mut self, alloc: Global, number: u32, frames: &[u8]) -> Result<(), Stop> {
        self.lend(alloc, number)?;
        self.lend(alloc, number)?;
        if self.endpoint.deliver(number, 0, frames).is_err() {
            return Err(Stop);
        }
        if self.settle(number)? == 1 {
            Ok(())
        } else {
            Err(Stop)
        }
    }

    // Reads frames until they end, by reads of at most `most` octets if that is given. Returns how many messages came.
    fn hear(&mut self, number: u32, frames: &[u8], most: Option<usize>) -> Result<u32, Stop> {
        let mut rest = frames;
        let mut came = 0u32;
        for _ in 0..MAX_STEPS {
            let intake = match most {
                None => take(&mut self.endpoint, number, &mut rest),
                Some(most) => take_some(&mut self.endpoint, number, &mut rest, most),
            };
            match intake {
                Ok(Intake::Came(_)) => came = came.wrapping_add(self.settle(number)?),
                Ok(Intake::End) => return Ok(came),
                _ => return Err(Stop),
            }
        }
        Err(Stop)
    }

    // Opens a stream, reads the frames of a connection there, and leaves it open.
    fn read_one(
        &mut self,
        alloc: Global,
        all: &[Vec<u8>],
        most: Option<usize>,
    ) -> Result<(), Stop> {
        let number = self.open(false)?;
        let Some(frames) = all.get((number % REGIONS) as usize) else {
            return Err(Stop);
        };
        self.lend(alloc, number)?;
        if self.hear(number, frames, most)? == 1 {
            Ok(())
        } else {
            Err(Stop)
        }
    }

    fn read_all(
        &mut self,
        alloc: Global,
        n: u32,
        all: &[Vec<u8>],
        most: Option<usize>,
    ) -> Result<(), Stop> {
        for _ in 0..n {
            self.read_one(alloc, all, most)?;
        }
        Ok(())
    }

    fn lend(&mut self, alloc: Global, number: u32) -> Result<(), Stop> {
        let buffer = vec![in alloc; 0u8; 64]?;
        match self.endpoint.post_recv(number, buffer) {
            Ok(()) => Ok(()),
            Err(_) => Err(Stop),
        }
    }

    // Ends a connection and closes its stream.
    fn close(&mut self, number: u32) -> Result<(), Stop> {
        if self.endpoint.break_link(number).is_err() {
            return Err(Stop);
        }
        self.settle(number)?;
        match self.endpoint.close(number) {
            Ok(()) => Ok(()),
            Err(_) => Err(Stop),
        }
    }

    /// Serves the connection of a number that no stream had.
    pub(crate) fn serve_one(
        &mut self,
        alloc: Global,
        number: u32,
        all: &[Vec<u8>],
    ) -> Result<(), Stop> {
        if self
            .endpoint
            .open(number, DOMAIN, Role::Preset, config())
            .is_err()
        {
            return Err(Stop);
        }
        let Some(frames) = all.get((number % REGIONS) as usize) else {
            return Err(Stop);
        };
        self.carry(alloc, number, frames)?;
        self.close(number)
    }

    // Serves the next connection, and closes the one that was opened `alive` before it.
    fn serve_next(&mut self, alloc: Global, alive: u32, all: &[Vec<u8>]) -> Result<(), Stop> {
        let number = self.open(false)?;
        let Some(frames) = all.get((number % REGIONS) as usize) else {
            return Err(Stop);
        };
        self.carry(alloc, number, frames)?;
        match number.checked_sub(alive) {
            Some(before) if before >= FIRST => self.close(before),
            _ => Ok(()),
        }
    }

    fn serve_all(
        &mut self,
        alloc: Global,
        n: u32,
        alive: u32,
        all: &[Vec<u8>],
    ) -> Result<(), Stop> {
        for _ in 0..n {
            self.serve_next(alloc, alive, all)?;
        }
        Ok(())
    }

    // Registers the regions; the frames of a connection that writes to each.
    fn register_all(&mut self, alloc: Global, octets: &[u8]) -> Result<Vec<Vec<u8>>, Stop> {
        let mut all = Vec::with_capacity(alloc, REGIONS as usize)?;
        for _ in 0..REGIONS {
            let stag = self.register(region(alloc)?)?;
            let frames = frames(alloc, stag, octets)?;
            all.reserve(1)?;
            all.push_reserved(frames);
        }
        Ok(all)
    }
}

/// Serves connections, `alive` at a time.
pub(crate) fn serve(
    alloc: Global,
    connections: u32,
    alive: u32,
    octets: &[u8],
) -> Result<(), Stop> {
    let mut server = Server::new(alloc);
    server.add_domain(false)?;
    let all = server.register_all(alloc, octets)?;
    server.serve_all(alloc, connections, alive, &all)
}

/// Reads connections, all of which stay open, by reads of at most `most` octets if that is given.
pub(crate) fn read(
    alloc: Global,
    connections: u32,
    most: Option<usize>,
    octets: &[u8],
) -> Result<(), Stop> {
    let mut server = Server::new(alloc);
    server.add_domain(false)?;
    let all = server.register_all(alloc, octets)?;
    server.read_all(alloc, connections, &all, most)
}

/// Opens streams.
pub(crate) fn idle(alloc: Global, streams: u32, shares: bool) -> Result<u32, Stop> {
    let mut server = Server::new(alloc);
    server.add_domain(shares)?;
    server.open_all(streams, shares)?;
    Ok(streams)
}

// Sets the maximum ULPDU of a stream, and tells whether it could. It changes the stream, so that no look-up is left out.
#[inline(never)]
fn touch(endpoint: &mut Endpoint, number: u32, size: u32) -> bool {
    endpoint.set_mulpdu(number, size).is_ok()
}

fn look_up(endpoint: &mut Endpoint, rounds: u64) -> u64 {
    let mut found = 0u64;
    for round in 0..rounds {
        let size = 1_000 + (round % 2) as u32;
        found = found.wrapping_add(touch(endpoint, FIRST, size) as u64);
    }
    found
}

/// Opens streams, and looks the first up.
pub(crate) fn look(alloc: Global, streams: u32, rounds: u64) -> Result<u64, Stop> {
    let mut server = Server::new(alloc);
    server.add_domain(false)?;
    server.open_all(streams, false)?;
    Ok(look_up(&mut server.endpoint, rounds))
}
