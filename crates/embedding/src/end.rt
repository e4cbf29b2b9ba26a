ghost use Rattle.iw_stream.specs.Kept.{IsWithinBuffer};

use anyhow::{Result, bail};
use bytes::Bytes;
use iw_connection::{
    CallRefusal, Endpoint, Filled, Intake, Octets, Step, StreamNumber, break_link, fill, next, take,
};
use iw_endpoint::{Config, Establishment, PrivateData, Request, Rights, Role, Stag};
use std::alloc::Global;
use std::io::{ErrorKind, Read, Write};
use std::rt::Runtime;
use std::str::from_utf8;

const DOMAIN: u8 = 1;

pub(crate) const STREAM: StreamNumber = 0;

// About how many octets are written at a time, so that one stream does not hold up others.
const MOST_WRITTEN: usize = 65_536;

/// One end of a connection: an endpoint with one stream.
#[derive(Drop)]
pub(crate) struct End {
    name: &'static str,
    endpoint: Endpoint,
    // What was emitted, and the socket has not taken yet.
    out: Vec<u8>,
    // The private data with which a responder accepts.
    private: PrivateData,
}

/// Whether a read or write that failed so is to be made again later.
pub(crate) fn is_for_later(kind: ErrorKind) -> bool {
    kind == ErrorKind::WouldBlock || kind == ErrorKind::Interrupted
}

/// An endpoint with a domain and a stream in it.
pub(crate) fn open_endpoint(alloc: Global, role: Role) -> Result<Endpoint> {
    let mut endpoint = Endpoint::new(alloc);
    if let Err(refusal) = endpoint.add_domain(DOMAIN) {
        bail!("add_domain: {refusal}");
    }
    let config = Config {
        markers: true,
        crc: true,
        establishment: Establishment::Plain,
        private: PrivateData::new(),
    };
    if let Err(refusal) = endpoint.open(STREAM, DOMAIN, role, config) {
        bail!("open: {refusal}");
    }
    Ok(endpoint)
}

impl End {
    /// An end that has nothing posted.
    pub(crate) fn open(alloc: Global, name: &'static str, role: Role) -> Result<End> {
        Ok(End {
            name,
            endpoint: open_endpoint(alloc, role)?,
            out: Vec::new(alloc),
            private: PrivateData::new(),
        })
    }

    /// Registers octets that the peer may use with these rights.
    pub(crate) fn register(&mut self, octets: Vec<u8>, rights: Rights) -> Result<Stag> {
        match self.endpoint.register(DOMAIN, 0, octets, rights) {
            Ok(stag) => Ok(stag),
            Err((refusal, _)) => bail!("register: {refusal}"),
        }
    }

    /// Names a region to the peer, in the private data of the MPA Reply.
    pub(crate) fn offer(&mut self, stag: Stag) {
        self.private.clear();
        let _ = self.private.try_extend_from_slice(&stag.to_octets());
    }

    /// The region that the peer named.
    pub(crate) fn offered(&self) -> Option<Stag> {
        let private = self.endpoint.private(STREAM).ok()?;
        let octets: [u8; 4] = private.try_into().ok()?;
        Some(Stag::from_octets(octets))
    }

    pub(crate) fn post(&mut self, request: Request<Bytes>) -> Result<()> {
        match self.endpoint.post(STREAM, request) {
            Ok(()) => Ok(()),
            Err((refusal, _)) => bail!("post: {refusal}"),
        }
    }

    pub(crate) fn post_recv(&mut self, buffer: Vec<u8>) -> Result<()> {
        match self.endpoint.post_recv(STREAM, buffer) {
            Ok(()) => Ok(()),
            Err((refusal, _)) => bail!("post_recv: {refusal}"),
        }
    }

    /// Call it when the socket is readable.
    pub(crate) fn is_readable<R, S>(&mut self, rt: &R, socket: &mut S) -> Result<()>
    where
        R: Runtime + AllocGlobal,
        S: Read,
    {
        match take(&mut self.endpoint, STREAM, socket) {
            Ok(Intake::Came(_) | Intake::Full) => self.act(rt),
            Ok(Intake::End) => self.closed(rt),
            Err(CallRefusal::Refused(error)) if is_for_later(error.kind()) => Ok(()),
            Err(refusal) => bail!("take: {refusal}"),
        }
    }

    /// Call it when the socket is writable. Returns whether there was anything to write.
    pub(crate) fn is_writable<R, S>(&mut self, rt: &R, socket: &mut S) -> Result<bool>
    where
        R: Runtime + AllocGlobal,
        S: Write,
    {
        // What the socket did not take the last time is written first.
        let filled = if self.out.is_empty() {
            fill(&mut self.endpoint, STREAM, &mut self.out, MOST_WRITTEN)?
        } else {
            Filled::More
        };
        let any = filled != Filled::All || !self.out.is_empty();
        match socket.write(self.out.as_slice()) {
            Ok(taken) => drop(self.out.drain(..taken)),
            Err(error) if is_for_later(error.kind()) => {}
            Err(error) => return Err(error.into()),
        }
        // What was posted may be done now.
        self.act(rt)?;
        Ok(any)
    }

    /// Call it when the connection closed. All that was posted and is not done is handed back.
    pub(crate) fn closed<R: Runtime + AllocGlobal>(&mut self, rt: &R) -> Result<()> {
        break_link(&mut self.endpoint, STREAM)?;
        self.act(rt)
    }

    // Does what the steps ask for, until there is nothing to do.
    fn act<R: Runtime + AllocGlobal>(&mut self, rt: &R) -> Result<()> {
        for _ in 0..u64::MAX {
            match next(&mut self.endpoint, STREAM)? {
                Step::Idle => break,
                step => self.act_on(rt, step)?,
            }
        }
        Ok(())
    }

    // Prints a step, and does what the application has to do after it.
    fn act_on<R: Runtime + AllocGlobal>(&mut self, rt: &R, step: Step<Octets>) -> Result<()>
        requires { IsWithinBuffer step }
    {
        let name = self.name;
        match step {
            Step::Asked => {
                println!(rt; "{name}: asked, and accepts")?;
                self.accept()
            }
            Step::Received {
                buffer,
                len,
                invalidate,
                ..
            } => {
                let text = from_utf8(&buffer.as_slice()[..len]).unwrap_or("no text");
                println!(rt; "{name}: received '{text}'")?;
                if let Some(stag) = invalidate {
                    println!(rt; "{name}: {stag:?} is out of use")?;
                }
                self.post_recv(buffer.into_vec())
            }
            Step::FlushedRecv(buffer) => {
                println!(rt;
                    "{name}: has a buffer back, of {} octets",
                    buffer.as_slice().len()
                )?;
                Ok(())
            }
            step => {
                println!(rt; "{name}: {step:?}")?;
                Ok(())
            }
        }
    }

    fn accept(&mut self) -> Result<()> {
        let mut private = PrivateData::new();
        let _ = private.try_extend_from_slice(self.private.as_slice());
        match self.endpoint.accept(STREAM, private) {
            Ok(_) => Ok(()),
            Err(refusal) => bail!("accept: {refusal}"),
        }
    }

    /// Prints the text in a region.
    pub(crate) fn show<R: Runtime + AllocGlobal>(&self, rt: &R, stag: Stag) -> Result<()> {
        let octets = self.endpoint.local(stag).unwrap_or(&[]);
        let end = octets
            .iter()
            .position(|octet| *octet == 0)
            .unwrap_or(octets.len());
        let text = from_utf8(&octets[..end]).unwrap_or("no text");
        println!(rt; "{}: its region has '{text}'", self.name)?;
        Ok(())
    }
}
