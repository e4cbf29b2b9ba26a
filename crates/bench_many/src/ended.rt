//! Streams that have ended, and are not closed.

use crate::client::{Stop, config};
use iw_connection::{Filled, fill, next};
use iw_endpoint::{Endpoint, ReadRequest, Request, Rights, Role, Stag, Step};
use std::alloc::Global;

const DOMAIN: u8 = 1;

// How many octets come to each stream, with a gap before each.
const ISLANDS: u32 = 200;

// The most steps that are done at a stream in one go.
const MAX_STEPS: u32 = 1_000;

const SINK: Rights = Rights {
    write: false,
    read: false,
    sink: true,
    invalidate: false,
};

fn open(endpoint: &mut Endpoint) -> Result<u32, Stop> {
    match endpoint.open_next(DOMAIN, Role::Preset, config()) {
        Ok(number) => Ok(number),
        Err(_) => Err(Stop),
    }
}

// Every other octet comes.
fn deliver(endpoint: &mut Endpoint, number: u32) -> Result<(), Stop> {
    for n in 0..ISLANDS {
        if endpoint.deliver(number, n * 2 + 1, &[0]).is_err() {
            return Err(Stop);
        }
    }
    Ok(())
}

// Asks for a Read of 4 octets.
fn ask(endpoint: &mut Endpoint, number: u32, sink: Stag, out: &mut Vec<u8>) -> Result<(), Stop> {
    let read = Request::Read(ReadRequest {
        sink,
        sink_to: 0,
        size: 4,
        source: sink,
        source_to: 0,
    });
    if endpoint.post(number, read).is_err() {
        return Err(Stop);
    }
    out.clear();
    match fill(endpoint, number, out, usize::MAX) {
        Ok(Filled::All) => Ok(()),
        _ => Err(Stop),
    }
}

// Works until there is nothing to do.
fn settle(endpoint: &mut Endpoint, number: u32) -> Result<(), Stop> {
    for _ in 0..MAX_STEPS {
        match next(endpoint, number) {
            Ok(Step::Idle) => return Ok(()),
            Ok(Step::Flushed(_)) => {}
            _ => return Err(Stop),
        }
    }
    Err(Stop)
}

fn end(endpoint: &mut Endpoint, sink: Stag, out: &mut Vec<u8>) -> Result<(), Stop> {
    let number = open(endpoint)?;
    ask(endpoint, number, sink, out)?;
    deliver(endpoint, number)?;
    if endpoint.break_link(number).is_err() {
        return Err(Stop);
    }
    settle(endpoint, number)
}

fn end_each(
    endpoint: &mut Endpoint,
    streams: u32,
    sink: Stag,
    out: &mut Vec<u8>,
) -> Result<(), Stop> {
    for _ in 0..streams {
        end(endpoint, sink, out)?;
    }
    Ok(())
}

fn set_up(alloc: Global, endpoint: &mut Endpoint) -> Result<Stag, Stop> {
    if endpoint.add_domain(DOMAIN).is_err() {
        return Err(Stop);
    }
    match endpoint.register(DOMAIN, 0, vec![in alloc; 0u8; 4]?, SINK) {
        Ok(stag) => Ok(stag),
        Err(_) => Err(Stop),
    }
}

/// Opens streams, and ends each.
pub(crate) fn end_all(alloc: Global, streams: u32) -> Result<(), Stop> {
    let mut endpoint = Endpoint::new(alloc);
    let sink = set_up(alloc, &mut endpoint)?;
    end_each(&mut endpoint, streams, sink, &mut Vec::new(alloc))
}
