//! One end of a connection, with the loop of docs/EMBEDDING.md.

use crate::made::made;
use bytes::Bytes;
use iw_connection::{
    Endpoint, Filled, Intake, Octets, Step, StreamNumber, break_link, fill, next, take, take_some,
};
use iw_endpoint::{
    Config, Establishment, Message, PrivateData, ReadRequest, Request, Rights, Role, Stag,
};
use std::alloc::Global;
use std::io::Read;
use std::test::Fail;

const DOMAIN: u8 = 1;

pub(crate) const STREAM: StreamNumber = 0;

/// What the program has seen of its stream.
#[derive(Clone, Copy, Debug, PartialEq, Eq)]
pub(crate) struct Seen {
    pub(crate) is_open: bool,
    pub(crate) received: u32,
    pub(crate) done: u32,
    pub(crate) flushed: u32,
    pub(crate) has_ended: bool,
}

#[derive(Drop)]
pub(crate) struct End {
    pub(crate) endpoint: Endpoint,
    pub(crate) seen: Seen,
}

impl End {
    /// An end with a domain, a stream in it, and a buffer for a message.
    pub(crate) fn open(alloc: Global, role: Role) -> Result<End, Fail> {
        let mut end = End {
            endpoint: Endpoint::new(alloc),
            seen: Seen {
                is_open: role == Role::Preset,
                received: 0,
                done: 0,
                flushed: 0,
                has_ended: false,
            },
        };
        end.set_up(alloc, role)?;
        Ok(end)
    }

    fn set_up(&mut self, alloc: Global, role: Role) -> Result<(), Fail> {
        let config = Config {
            markers: true,
            crc: true,
            establishment: Establishment::Plain,
            private: PrivateData::new(),
        };
        made("add_domain", self.endpoint.add_domain(DOMAIN))?;
        made("open", self.endpoint.open(STREAM, DOMAIN, role, config))?;
        let buffer = vec![in alloc; 0u8; 16]?;
        made("post_recv", self.endpoint.post_recv(STREAM, buffer))
    }

    /// The longest frames that there can be.
    pub(crate) fn with_long_frames(&mut self) -> Result<(), Fail> {
        made("set_mulpdu", self.endpoint.set_mulpdu(STREAM, 64_512))
    }

    /// Registers octets that the peer may write and read, and into which this end may read.
    pub(crate) fn register(&mut self, octets: Vec<u8>) -> Result<Stag, Fail> {
        let rights = Rights {
            write: true,
            read: true,
            sink: true,
            invalidate: false,
        };
        made(
            "register",
            self.endpoint.register(DOMAIN, 0, octets, rights),
        )
    }

    pub(crate) fn write(&mut self, stag: Stag, octets: Bytes) -> Result<(), Fail> {
        let write = Message::Write {
            stag,
            to: 0,
            octets,
        };
        made("post", self.endpoint.post(STREAM, Request::Message(write)))
    }

    /// Posts a Send without octets.
    pub(crate) fn send(&mut self) -> Result<(), Fail> {
        let send = Message::Send {
            octets: Bytes::new(),
            solicited: false,
            invalidate: None,
        };
        made("post", self.endpoint.post(STREAM, Request::Message(send)))
    }

    pub(crate) fn read(&mut self, sink: Stag, source: Stag, size: u32) -> Result<(), Fail> {
        let read = ReadRequest {
            sink,
            sink_to: 0,
            size,
            source,
            source_to: 0,
        };
        made("post", self.endpoint.post(STREAM, Request::Read(read)))
    }

    /// Whether a region has these octets.
    pub(crate) fn has(&self, stag: Stag, octets: &[u8]) -> bool {
        self.endpoint.local(stag) == Some(octets)
    }

    /// The socket is readable.
    pub(crate) fn is_readable<S: Read>(&mut self, socket: &mut S) -> Result<Intake, Fail> {
        let intake = made("take", take(&mut self.endpoint, STREAM, socket))?;
        self.act()?;
        Ok(intake)
    }

    /// The same, by a read that asks for at most `most` octets.
    pub(crate) fn is_readable_for<S: Read>(
        &mut self,
        socket: &mut S,
        most: usize,
    ) -> Result<Intake, Fail> {
        let intake = made(
            "take_some",
            take_some(&mut self.endpoint, STREAM, socket, most),
        )?;
        self.act()?;
        Ok(intake)
    }

    /// The socket is writable: appends what is to be written, about `most` octets. Returns whether more may be due.
    pub(crate) fn is_writable(&mut self, out: &mut Vec<u8>, most: usize) -> Result<bool, Fail> {
        let filled = made("fill", fill(&mut self.endpoint, STREAM, out, most))?;
        self.act()?;
        Ok(filled != Filled::All)
    }

    /// The connection closed.
    pub(crate) fn closed(&mut self) -> Result<(), Fail> {
        made("break_link", break_link(&mut self.endpoint, STREAM))?;
        self.act()
    }

    fn act(&mut self) -> Result<(), Fail> {
        for _ in 0..u64::MAX {
            match made("next", next(&mut self.endpoint, STREAM))? {
                Step::Idle => break,
                step => self.act_on(step)?,
            }
        }
        Ok(())
    }

    fn act_on(&mut self, step: Step<Octets>) -> Result<(), Fail> {
        let seen = &mut self.seen;
        match step {
            Step::Asked => self.accept(),
            Step::Opened(_) => {
                seen.is_open = true;
                Ok(())
            }
            Step::Received { buffer, .. } => {
                seen.received = seen.received.saturating_add(1);
                made(
                    "post_recv",
                    self.endpoint.post_recv(STREAM, buffer.into_vec()),
                )
            }
            Step::Done(_) => {
                seen.done = seen.done.saturating_add(1);
                Ok(())
            }
            Step::Flushed(_) | Step::FlushedRecv(_) => {
                seen.flushed = seen.flushed.saturating_add(1);
                Ok(())
            }
            _ => {
                seen.has_ended = true;
                Ok(())
            }
        }
    }

    fn accept(&mut self) -> Result<(), Fail> {
        made("accept", self.endpoint.accept(STREAM, PrivateData::new()))?;
        self.seen.is_open = true;
        Ok(())
    }
}
