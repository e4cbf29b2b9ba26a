//! A host in memory: many peers, each behind a socket that moves few octets at a time and often has its caller wait.

use crate::peer::{Asks, Peer};
use iw_server::{Host, Socket, Waits};
use std::alloc::Global;
use std::io::{self, ErrorKind, Read, Write};
use std::net::{Ipv4Addr, SocketAddr};

// The system's number for a process that has no descriptor left (EMFILE).
const NO_DESCRIPTOR: i32 = 24;

// No run takes longer.
const MOST_SECONDS: u64 = 100_000;

/// A socket, with its peer behind it.
#[derive(Drop)]
pub(crate) struct Wire {
    peer: Peer,
    // How many octets of what the peer has to send were read.
    sent: usize,
    // The most octets that a call moves.
    most: usize,
    calls: u64,
    // From this call on it fails.
    fails_at: u64,
    // The peer sends nothing.
    is_mute: bool,
    // The peer has asked; it has closed.
    has_asked: bool,
    is_closed: bool,
    // What it waits for.
    waits: Waits,
}

impl Wire {
    fn new(peer: Peer, most: usize, fails_at: u64, is_mute: bool) -> Wire {
        Wire {
            peer,
            sent: 0,
            most,
            calls: 0,
            fails_at,
            is_mute,
            has_asked: false,
            is_closed: false,
            waits: Waits::Readable,
        }
    }

    // Every third call is interrupted, and every third would wait.
    fn delay(&mut self) -> io::Result<()> {
        self.calls = self.calls.wrapping_add(1);
        if self.calls >= self.fails_at {
            return Err(io::Error::from(ErrorKind::ConnectionReset));
        }
        match self.calls % 3 {
            1 => Err(io::Error::from(ErrorKind::Interrupted)),
            2 => Err(io::Error::from(ErrorKind::WouldBlock)),
            _ => Ok(()),
        }
    }
}

impl Read for Wire {
    fn read(&mut self, buf: &mut [u8]) -> io::Result<usize> {
        self.delay()?;
        let mut left = self.peer.out.get(self.sent..).unwrap_or(&[]);
        if left.is_empty() || self.is_mute {
            return if self.is_closed {
                Ok(0)
            } else {
                Err(io::Error::from(ErrorKind::WouldBlock))
            };
        }
        let most = self.most.min(buf.len());
        let n = left.read(&mut buf[..most])?;
        self.sent = self.sent.saturating_add(n);
        Ok(n)
    }
}

impl Write for Wire {
    fn write(&mut self, buf: &[u8]) -> io::Result<usize> {
        self.delay()?;
        let n = self.most.min(buf.len());
        self.peer.hear(&buf[..n]);
        Ok(n)
    }

    fn flush(&mut self) -> io::Result<()> {
        Ok(())
    }
}

impl Socket for Wire {
    fn end(&mut self) -> io::Result<()> {
        Ok(())
    }
}

/// What a peer does each second that asks for nothing.
#[derive(Clone, Copy, PartialEq, Eq)]
pub(crate) enum Idling {
    Silent,
    /// It writes no octets.
    WritesNothing,
    /// It writes an octet.
    WritesOctet,
}

/// The peers that come, and what was seen of them.
#[derive(Drop)]
pub(crate) struct Crowd {
    alloc: Global,
    asks: Asks,
    most: usize,
    // How many peers come, and how many have come.
    pub(crate) count: u32,
    pub(crate) came: u32,
    // No peer asks before all have come, unless they never do.
    pub(crate) is_silent: bool,
    // The socket of every third peer fails at its fifth call.
    pub(crate) has_broken: bool,
    // What peers do that have their region and ask for nothing.
    pub(crate) idling: Idling,
    // So many peers, the first ones, never send their Request.
    pub(crate) mute: u32,
    // So many times, once these have come, there is no descriptor for the next one.
    pub(crate) shortages: u32,
    // There was none the last time.
    is_short: bool,
    // How many peers still had their connection in second 200.
    pub(crate) outlasted: u32,
    pub(crate) answered: u32,
    pub(crate) wronged: u32,
    // The highest domain of a region that a peer was offered.
    pub(crate) domains: u8,
    seconds: u64,
}

// The text of a peer: its number, as eight digits.
fn text_of(number: u32) -> [u8; 8] {
    let mut text = [b'0'; 8];
    let mut left = number;
    for place in text.iter_mut().rev() {
        *place = b'0' + (left % 10) as u8;
        left /= 10;
    }
    text
}

impl Crowd {
    pub(crate) fn new(alloc: Global, asks: Asks, most: usize, count: u32) -> Crowd {
        Crowd {
            alloc,
            asks,
            most,
            count,
            came: 0,
            is_silent: false,
            has_broken: false,
            idling: Idling::Silent,
            mute: 0,
            shortages: 0,
            is_short: false,
            outlasted: 0,
            answered: 0,
            wronged: 0,
            domains: 0,
            seconds: 0,
        }
    }

    // At which call the socket of the next peer fails.
    fn fails_at(&self) -> u64 {
        if self.has_broken && self.came % 3 == 0 {
            5
        } else {
            u64::MAX
        }
    }

    // Has the peer ask once all have come, and close once it was answered. What was seen of it is counted when it closes.
    fn nudge(&mut self, wire: &mut Wire) {
        if self.came == self.count && !wire.has_asked && !self.is_silent {
            wire.peer.ask();
            wire.has_asked = wire.peer.region.is_some();
        }
        if self.is_silent && wire.peer.region.is_some() {
            self.idle(wire);
        }
        if !wire.is_closed && (wire.peer.is_answered || wire.peer.is_wronged) {
            wire.is_closed = true;
            self.count_in(&wire.peer);
        }
    }

    // Has a peer do what it does that asks for nothing. It closes in second 200.
    fn idle(&mut self, wire: &mut Wire) {
        if wire.is_closed {
            return;
        }
        if self.seconds >= 200 {
            wire.is_closed = true;
            self.outlasted = self.outlasted.saturating_add(1);
            return;
        }
        match self.idling {
            Idling::Silent => {}
            Idling::WritesNothing => wire.peer.write(b""),
            Idling::WritesOctet => wire.peer.write(b"x"),
        }
    }

    // Whether there is no descriptor for the next peer. There is one the next time.
    fn lacks_descriptor(&mut self) -> bool {
        self.is_short = self.came >= self.mute && self.shortages > 0 && !self.is_short;
        if self.is_short {
            self.shortages = self.shortages.saturating_sub(1);
        }
        self.is_short
    }

    fn count_in(&mut self, peer: &Peer) {
        if peer.is_wronged {
            self.wronged = self.wronged.saturating_add(1);
        } else {
            self.answered = self.answered.saturating_add(1);
        }
        if let Some(stag) = peer.region {
            self.domains = self.domains.max(stag.to_octets()[0]);
        }
    }
}

impl Host<Wire> for Crowd {
    fn accept(&mut self) -> io::Result<(Wire, SocketAddr)> {
        if self.came >= self.count {
            return Err(io::Error::from(ErrorKind::WouldBlock));
        }
        if self.lacks_descriptor() {
            return Err(io::Error::from_raw_os_error(NO_DESCRIPTOR));
        }
        match Peer::new(self.alloc, self.asks, &text_of(self.came)) {
            Some(peer) => {
                let fails_at = self.fails_at();
                let is_mute = self.came < self.mute;
                self.came = self.came.saturating_add(1);
                let address = SocketAddr::from((Ipv4Addr::LOCALHOST, 7_174));
                Ok((Wire::new(peer, self.most, fails_at, is_mute), address))
            }
            None => Err(io::Error::from(ErrorKind::OutOfMemory)),
        }
    }

    fn watch(&mut self, wire: &mut Wire, key: usize) -> io::Result<()> {
        self.watch_again(wire, key, Waits::Readable)
    }

    fn watch_again(&mut self, wire: &mut Wire, _key: usize, waits: Waits) -> io::Result<()> {
        wire.waits = waits;
        self.nudge(wire);
        Ok(())
    }

    // Once all have come, any socket may be ready.
    fn wait(&mut self, ready: &mut Vec<usize>, _seconds: u64) -> io::Result<()> {
        self.seconds = self.seconds.saturating_add(1);
        if self.seconds > MOST_SECONDS {
            return Err(io::Error::from(ErrorKind::TimedOut));
        }
        ready.clear();
        if self.came < self.count {
            return Ok(());
        }
        for key in 0..self.came {
            ready.push(key as usize)?;
        }
        Ok(())
    }

    fn now(&mut self) -> io::Result<u64> {
        Ok(self.seconds)
    }

    // Each peer's is another.
    fn draw(&mut self) -> io::Result<u32> {
        Ok(self.came.wrapping_mul(2_654_435_761))
    }
}
