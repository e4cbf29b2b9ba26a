//! The same connections at endpoints of 64 streams each, as an application served them that could not close a stream.

use crate::client::{Stop, frames};
use crate::server::{REGIONS, Server, region};
use iw_endpoint::{STREAM_NUMBERS, Stag};
use std::alloc::Global;

/// The regions, which are handed from one endpoint to the next.
#[derive(Drop)]
struct Regions {
    // Those that are not registered.
    octets: Vec<Vec<u8>>,
    // The STags of those that are.
    stags: Vec<Stag>,
}

impl Regions {
    fn new(alloc: Global) -> Result<Regions, Stop> {
        let mut octets = Vec::with_capacity(alloc, REGIONS as usize)?;
        for _ in 0..REGIONS {
            octets.push(region(alloc)?)?;
        }
        Ok(Regions {
            octets,
            stags: Vec::new(alloc),
        })
    }

    fn register(&mut self, server: &mut Server) -> Result<(), Stop> {
        for _ in 0..REGIONS {
            let Some(octets) = self.octets.pop() else {
                return Err(Stop);
            };
            self.stags.push(server.register(octets)?)?;
        }
        Ok(())
    }

    fn take_back(&mut self, server: &mut Server) -> Result<(), Stop> {
        for _ in 0..REGIONS {
            let Some(stag) = self.stags.pop() else {
                return Err(Stop);
            };
            self.octets.push(server.deregister(stag)?)?;
        }
        Ok(())
    }

    // The frames of a connection that writes to each region. The STags are the same at every endpoint.
    fn frames(&self, alloc: Global, octets: &[u8]) -> Result<Vec<Vec<u8>>, Stop> {
        let mut all = Vec::with_capacity(alloc, REGIONS as usize)?;
        for stag in self.stags.iter() {
            all.push(frames(alloc, *stag, octets)?)?;
        }
        Ok(all)
    }

    // An endpoint with the regions.
    fn server(&mut self, alloc: Global) -> Result<Server, Stop> {
        let mut server = Server::new(alloc);
        server.add_domain(false)?;
        self.register(&mut server)?;
        Ok(server)
    }

    // What each connection brings.
    fn brought(&mut self, alloc: Global, octets: &[u8]) -> Result<Vec<Vec<u8>>, Stop> {
        let mut server = self.server(alloc)?;
        let all = self.frames(alloc, octets)?;
        self.take_back(&mut server)?;
        Ok(all)
    }

    // Serves as many connections as an endpoint has numbers for.
    fn serve(&mut self, alloc: Global, all: &[Vec<u8>]) -> Result<(), Stop> {
        let mut server = self.server(alloc)?;
        serve_each(alloc, &mut server, all)?;
        self.take_back(&mut server)
    }
}

fn serve_each(alloc: Global, server: &mut Server, all: &[Vec<u8>]) -> Result<(), Stop> {
    for number in 0..STREAM_NUMBERS as u32 {
        server.serve_one(alloc, number, all)?;
    }
    Ok(())
}

fn serve_all(
    alloc: Global,
    regions: &mut Regions,
    endpoints: u32,
    all: &[Vec<u8>],
) -> Result<(), Stop> {
    for _ in 0..endpoints {
        regions.serve(alloc, all)?;
    }
    Ok(())
}

/// Serves 64 connections one after the other at each of so many endpoints.
pub(crate) fn serve(alloc: Global, endpoints: u32, octets: &[u8]) -> Result<(), Stop> {
    let mut regions = Regions::new(alloc)?;
    let all = regions.brought(alloc, octets)?;
    serve_all(alloc, &mut regions, endpoints, &all)
}
