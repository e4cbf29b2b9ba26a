//! One end of some connections: an endpoint, and what it is to write next.

use anyhow::{Result, bail};
use bytes::Bytes;
use iw_connection::{Endpoint, Filled, Octets, Step, fill, next, take};
use iw_endpoint::{
    Config, Emission, Establishment, MAX_PLACE, Message, PrivateData, Request, Rights, Role, Stag,
};
use std::alloc::Global;
use std::fmt::Debug;

/// The domain of all streams and regions.
pub(crate) const DOMAIN: u8 = 1;

/// A region that the peer may write to, and invalidate.
pub(crate) const TO_WRITE: Rights = Rights {
    write: true,
    read: false,
    sink: false,
    invalidate: true,
};

/// A region that the peer may read, and invalidate.
pub(crate) const TO_READ: Rights = Rights {
    write: false,
    read: true,
    sink: false,
    invalidate: true,
};

/// A region that is the sink of this end's Reads.
pub(crate) const SINK: Rights = Rights {
    write: false,
    read: false,
    sink: true,
    invalidate: false,
};

/// The answer of a call; if it is refused, an error with its name and the refusal.
pub(crate) fn made<T: Drop, E: Debug + Drop>(call: &str, answer: Result<T, E>) -> Result<T> {
    match answer {
        Ok(made) => Ok(made),
        Err(refusal) => bail!("{call}: {refusal:?}"),
    }
}

/// The options of a stream.
pub(crate) fn config(markers: bool, crc: bool, private: &[u8]) -> Config {
    let mut data = PrivateData::new();
    let _ = data.try_extend_from_slice(private);
    Config {
        markers,
        crc,
        establishment: Establishment::Plain,
        private: data,
    }
}

/// A message that leaves all regions as they are.
pub(crate) fn send(octets: Bytes) -> Message<Bytes> {
    Message::Send {
        octets,
        solicited: false,
        invalidate: None,
    }
}

/// An end of connections.
#[derive(Drop)]
pub(crate) struct End {
    pub(crate) endpoint: Endpoint,
    pub(crate) out: Vec<u8>,
}

impl End {
    /// An end with a domain, and no stream.
    pub(crate) fn new(alloc: Global) -> Result<End> {
        let mut endpoint = Endpoint::new(alloc);
        made("add_domain", endpoint.add_domain(DOMAIN))?;
        Ok(End {
            endpoint,
            out: Vec::new(alloc),
        })
    }

    /// Opens a stream under the next number.
    pub(crate) fn open(&mut self, role: Role, config: Config) -> Result<u32> {
        made("open_next", self.endpoint.open_next(DOMAIN, role, config))
    }

    /// Registers octets.
    pub(crate) fn register(&mut self, octets: Vec<u8>, rights: Rights) -> Result<Stag> {
        match self.endpoint.register(DOMAIN, 0, octets, rights) {
            Ok(stag) => Ok(stag),
            Err((refusal, _)) => bail!("register: {refusal:?}"),
        }
    }

    /// Takes a region back.
    pub(crate) fn deregister(&mut self, stag: Stag) -> Result<Vec<u8>> {
        made("deregister", self.endpoint.deregister(stag))
    }

    /// Posts a receive buffer.
    pub(crate) fn lend(&mut self, number: u32, buffer: Vec<u8>) -> Result<()> {
        match self.endpoint.post_recv(number, buffer) {
            Ok(()) => Ok(()),
            Err((refusal, _)) => bail!("post_recv: {refusal:?}"),
        }
    }

    /// Posts a message or a Read.
    pub(crate) fn post(&mut self, number: u32, request: Request<Bytes>) -> Result<()> {
        match self.endpoint.post(number, request) {
            Ok(()) => Ok(()),
            Err((refusal, _)) => bail!("post: {refusal:?}"),
        }
    }

    /// Posts a message.
    pub(crate) fn post_message(&mut self, number: u32, message: Message<Bytes>) -> Result<()> {
        self.post(number, Request::Message(message))
    }

    /// Puts into `out` what a stream is to write, some `most` octets of it. Returns whether there was anything.
    pub(crate) fn gather(&mut self, number: u32, most: usize) -> Result<bool> {
        self.out.clear();
        match fill(&mut self.endpoint, number, &mut self.out, most)? {
            Filled::Fault(fault) => bail!("fill: {fault:?}"),
            Filled::All | Filled::More => Ok(!self.out.is_empty()),
        }
    }

    /// Appends the next frame of a stream. Returns its place and its length; `None` if no frame is due.
    pub(crate) fn emit(&mut self, number: u32, out: &mut Vec<u8>) -> Result<Option<(u64, usize)>> {
        match self.endpoint.sent(number) {
            Ok(sent) if sent <= MAX_PLACE => {}
            _ => bail!("sent"),
        }
        match made("emit", self.endpoint.emit(number, out))? {
            Emission::Frame { from, len } | Emission::Fetched { from, len, .. } => {
                Ok(Some((from, len)))
            }
            Emission::Nothing => Ok(None),
            Emission::Fault(fault) => bail!("emit: {fault:?}"),
        }
    }

    /// Reads once what came for a stream.
    pub(crate) fn read(&mut self, number: u32, from: &mut &[u8]) -> Result<()> {
        match take(&mut self.endpoint, number, from) {
            Ok(_) => Ok(()),
            Err(_) => bail!("take"),
        }
    }

    /// Takes octets that came at a place of a stream.
    pub(crate) fn deliver(&mut self, number: u32, place: u64, octets: &[u8]) -> Result<()> {
        let sequence = (place % (1 << 32)) as u32;
        made("deliver", self.endpoint.deliver(number, sequence, octets))?;
        Ok(())
    }

    /// Works on to the next step that has to be acted on.
    pub(crate) fn next(&mut self, number: u32) -> Result<Step<Octets>> {
        made("next", next(&mut self.endpoint, number))
    }

    /// Accepts the peer's Request with private data.
    pub(crate) fn accept(&mut self, number: u32, private: &[u8]) -> Result<()> {
        let mut data = PrivateData::new();
        let _ = data.try_extend_from_slice(private);
        made("accept", self.endpoint.accept(number, data))?;
        Ok(())
    }

    /// Takes note of a step that ends no stream, or of which nothing is to be made.
    pub(crate) fn note(&mut self, number: u32, step: Step<Octets>) -> Result<()> {
        match step {
            Step::Asked => self.accept(number, &[]),
            Step::Done(_) | Step::Opened(_) | Step::FlushedRecv(_) => Ok(()),
            step => bail!("{step:?}"),
        }
    }
}
