use anyhow::{Result, bail};
use iw_connection::{Endpoint, Filled, Intake, Octets, Step, StreamNumber, fill, next, take};
use iw_endpoint::{Config, Establishment, PrivateData, Rights, Role, Stag};
use std::alloc::Global;
use std::fmt::Debug;
use std::io::Read;

pub(crate) const DOMAIN: u8 = 1;

pub(crate) const STREAM: StreamNumber = 0;

/// The sequence number of an end's first octet. Numbers wrap within the first block.
pub(crate) const FIRST: u32 = u32::MAX - 999;

/// How many blocks the region has. It is written again and again, and small enough to stay in the processor's caches,
/// as the buffer of a plain copy does.
pub(crate) const REGION_BLOCKS: u32 = 2;

// The answer of a call; if it is refused, an error with its name and the refusal.
fn made<T: Drop, E: Debug + Drop>(call: &str, answer: Result<T, E>) -> Result<T> {
    match answer {
        Ok(made) => Ok(made),
        Err(refusal) => bail!("{call}: {refusal:?}"),
    }
}

/// An end that is open at once, with a buffer for a message. The other end's first octet has the number [`FIRST`].
pub(crate) fn end(alloc: Global, mulpdu: u32, is_framed: bool) -> Result<Endpoint> {
    let mut endpoint = Endpoint::new(alloc);
    set_up(alloc, &mut endpoint, mulpdu, is_framed)?;
    Ok(endpoint)
}

fn set_up(alloc: Global, endpoint: &mut Endpoint, mulpdu: u32, is_framed: bool) -> Result<()> {
    made("add_domain", endpoint.add_domain(DOMAIN))?;
    open(endpoint, is_framed)?;
    made("first_number", endpoint.first_number(STREAM, FIRST))?;
    made("set_mulpdu", endpoint.set_mulpdu(STREAM, mulpdu))?;
    lend_buffer(alloc, endpoint)
}

fn open(endpoint: &mut Endpoint, is_framed: bool) -> Result<()> {
    let config = Config {
        markers: is_framed,
        crc: is_framed,
        establishment: Establishment::Plain,
        private: PrivateData::new(),
    };
    made("open", endpoint.open(STREAM, DOMAIN, Role::Preset, config))
}

/// Posts a buffer for a message.
pub(crate) fn lend_buffer(alloc: Global, endpoint: &mut Endpoint) -> Result<()> {
    match endpoint.post_recv(STREAM, vec![in alloc; 0u8; 16]?) {
        Ok(()) => Ok(()),
        Err((refusal, _)) => bail!("post_recv: {refusal:?}"),
    }
}

/// Registers a region that the peer may write to.
pub(crate) fn lend_region(endpoint: &mut Endpoint, octets: Vec<u8>) -> Result<Stag> {
    let rights = Rights {
        write: true,
        read: false,
        sink: false,
        invalidate: false,
    };
    match endpoint.register(DOMAIN, 0, octets, rights) {
        Ok(stag) => Ok(stag),
        Err((refusal, _)) => bail!("register: {refusal:?}"),
    }
}

/// Fills `out` with all that is due.
pub(crate) fn gather(endpoint: &mut Endpoint, out: &mut Vec<u8>) -> Result<()> {
    out.clear();
    match made("fill", fill(endpoint, STREAM, out, usize::MAX))? {
        Filled::All => Ok(()),
        filled => bail!("fill: {filled:?}"),
    }
}

/// The outcome of steps that were done.
#[derive(Clone, Copy)]
pub(crate) enum Came {
    /// A message.
    Message,
    /// No message yet.
    Nothing,
}

// The outcome of a step; `None` if there was nothing to do.
#[inline(always)]
fn told(step: &Step<Octets>) -> Result<Option<Came>> {
    match step {
        Step::Idle => Ok(None),
        Step::Received { .. } => Ok(Some(Came::Message)),
        Step::Fault(fault) => bail!("next: {fault:?}"),
        _ => Ok(Some(Came::Nothing)),
    }
}

// Works to the next step that has to be acted on.
fn step(endpoint: &mut Endpoint) -> Result<Option<Came>> {
    match next(endpoint, STREAM) {
        Ok(step) => told(&step),
        Err(refusal) => bail!("next: {refusal:?}"),
    }
}

/// Works until there is nothing to do.
pub(crate) fn work(endpoint: &mut Endpoint) -> Result<Came> {
    let mut came = Came::Nothing;
    for _ in 0..u64::MAX {
        match step(endpoint)? {
            None => break,
            Some(Came::Message) => came = Came::Message,
            Some(Came::Nothing) => {}
        }
    }
    Ok(came)
}

/// Reads once from the connection, and works until there is nothing to do.
pub(crate) fn read<R: Read>(endpoint: &mut Endpoint, input: &mut R) -> Result<Came> {
    match made("take", take(endpoint, STREAM, input))? {
        Intake::Came(_) | Intake::Full => work(endpoint),
        intake => bail!("take: {intake:?}"),
    }
}
