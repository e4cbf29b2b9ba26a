//! The other end of a connection: it writes a text into the region that it is offered, sends the text, and closes once it came back.

use bytes::Bytes;
use iw_connection::{Endpoint, Filled, Octets, Step, fill, next, take};
use iw_endpoint::{Config, Establishment, Message, PrivateData, Request, Role, Stag};
use std::alloc::Global;

const DOMAIN: u8 = 1;

const STREAM: u32 = 0;

// What a peer sends: as many octets as each text has, and others.
const SENT: &[u8] = b"????????";

/// How a peer asks for its connection.
#[derive(Clone, Copy)]
pub(crate) struct Asks {
    pub(crate) markers: bool,
    pub(crate) crc: bool,
}

/// A peer, and what it has to send.
#[derive(Drop)]
pub(crate) struct Peer {
    alloc: Global,
    endpoint: Endpoint,
    text: Vec<u8>,
    /// What it has to send.
    pub(crate) out: Vec<u8>,
    /// The region that it was offered.
    pub(crate) region: Option<Stag>,
    /// Its text came back.
    pub(crate) is_answered: bool,
    /// Something else came.
    pub(crate) is_wronged: bool,
}

fn config(asks: Asks) -> Config {
    Config {
        markers: asks.markers,
        crc: asks.crc,
        establishment: Establishment::Plain,
        private: PrivateData::new(),
    }
}

// A stream with a receive buffer.
fn set_up(alloc: Global, endpoint: &mut Endpoint, asks: Asks) -> Option<()> {
    endpoint.add_domain(DOMAIN).ok()?;
    endpoint
        .open(STREAM, DOMAIN, Role::Initiator, config(asks))
        .ok()?;
    let buffer = vec![in alloc; 0u8; 64].ok()?;
    endpoint.post_recv(STREAM, buffer).ok()
}

impl Peer {
    /// A peer that has its Request to send; `None` if memory ran out.
    pub(crate) fn new(alloc: Global, asks: Asks, text: &[u8]) -> Option<Peer> {
        let mut endpoint = Endpoint::new(alloc);
        set_up(alloc, &mut endpoint, asks)?;
        let mut peer = Peer {
            alloc,
            endpoint,
            text: Vec::from_slice(alloc, text).ok()?,
            out: Vec::new(alloc),
            region: None,
            is_answered: false,
            is_wronged: false,
        };
        peer.emit();
        Some(peer)
    }

    /// Takes octets that came.
    pub(crate) fn hear(&mut self, octets: &[u8]) {
        let mut rest = octets;
        for _ in 0..u64::MAX {
            if rest.is_empty() {
                break;
            }
            if take(&mut self.endpoint, STREAM, &mut rest).is_err() {
                self.is_wronged = true;
                break;
            }
            self.work();
        }
        self.emit();
    }

    /// Writes its text into the region, and sends it.
    pub(crate) fn ask(&mut self) {
        let Some(stag) = self.region else {
            return;
        };
        let Ok(octets) = Bytes::copy_from_slice(self.alloc, self.text.as_slice()) else {
            self.is_wronged = true;
            return;
        };
        self.post(Message::Write {
            stag,
            to: 0,
            octets,
        });
        self.post(Message::Send {
            octets: Bytes::from_static(SENT),
            solicited: false,
            invalidate: None,
        });
        self.emit();
    }

    /// Writes octets into the region.
    pub(crate) fn write(&mut self, octets: &'static [u8]) {
        let Some(stag) = self.region else {
            return;
        };
        self.post(Message::Write {
            stag,
            to: 0,
            octets: Bytes::from_static(octets),
        });
        self.emit();
        self.work();
    }

    fn post(&mut self, message: Message<Bytes>) {
        if self
            .endpoint
            .post(STREAM, Request::Message(message))
            .is_err()
        {
            self.is_wronged = true;
        }
    }

    fn emit(&mut self) {
        match fill(&mut self.endpoint, STREAM, &mut self.out, usize::MAX) {
            Ok(Filled::All) => {}
            _ => self.is_wronged = true,
        }
    }

    fn work(&mut self) {
        for _ in 0..u64::MAX {
            match next(&mut self.endpoint, STREAM) {
                Ok(Step::Idle) => break,
                Ok(step) => self.act_on(step),
                Err(_) => {
                    self.is_wronged = true;
                    break;
                }
            }
        }
    }

    fn act_on(&mut self, step: Step<Octets>) {
        match step {
            Step::Opened(_) => self.region = self.offered(),
            Step::Received { buffer, len, .. } => self.compare(&buffer, len),
            Step::Done(_) => {}
            _ => self.is_wronged = true,
        }
    }

    fn offered(&self) -> Option<Stag> {
        let private = self.endpoint.private(STREAM).ok()?;
        let octets: [u8; 4] = private.try_into().ok()?;
        Some(Stag::from_octets(octets))
    }

    fn compare(&mut self, buffer: &Octets, len: usize) {
        match buffer.as_slice().get(..len) {
            Some(octets) if octets == self.text.as_slice() => self.is_answered = true,
            _ => self.is_wronged = true,
        }
    }
}
