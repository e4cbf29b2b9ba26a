ghost use Rattle.std.specs.Prelude.{◌≡◌, [], true, false, None, ◌&&◌, not};

use crate::host::Waits;
use crate::unwritten::Unwritten;
use iw_connection::StreamNumber;
use iw_endpoint::Stag;
use std::alloc::Global;
use std::net::SocketAddr;

/// The connection is to be dropped: its socket failed, its peer asked too much of it, or memory ran out.
#[derive(Clone, Copy, Debug, PartialEq, Eq)]
pub(crate) struct Broken;

/// How far a connection is.
#[derive(Clone, Copy, Debug, PartialEq, Eq)]
pub(crate) enum Phase {
    /// Its stream is not open yet.
    Starting,
    /// Its stream is open.
    Running,
    /// Its stream has ended. A Terminate may be due.
    Ended,
    /// Its peer's start-up frame was wrong, which ends the connection too (RFC 5044 7.1.1).
    Closed,
    /// Its output is shut down. What comes is dropped until the peer closes.
    Shut,
}

/// What a connection has at the endpoint, and what its socket has not taken yet.
#[derive(Drop)]
pub(crate) struct Connection {
    /// The number of its stream.
    pub(crate) stream: StreamNumber,
    /// Its peer's region, which is registered for this stream alone.
    pub(crate) region: Stag,
    /// The place of their domain.
    pub(crate) place: usize,
    /// Its peer's address.
    pub(crate) peer: SocketAddr,
    pub(crate) unwritten: Unwritten,
    /// The receive buffer, while a Send is answered.
    pub(crate) buffer: Option<Vec<u8>>,
    pub(crate) phase: Phase,
    pub(crate) waits: Waits,
    /// A Send came from its peer.
    pub(crate) has_received: bool,
    /// It did not go as it should.
    pub(crate) has_failed: bool,
    /// When it was accepted, in seconds.
    pub(crate) begun: u64,
    /// When something of use came or went last: an octet was placed, a Send was received, or the peer took octets.
    pub(crate) moved: u64,
}

impl Connection {
    /// A connection on which nothing went yet.
    pub(crate) fn new(
        alloc: Global,
        stream: StreamNumber,
        region: Stag,
        place: usize,
        peer: SocketAddr,
        now: u64,
    ) -> Connection
        ensures stream { result.stream ≡ stream }
        ensures region { result.region ≡ region }
        ensures place { result.place ≡ place }
        ensures unwritten { result.unwritten ≡ [] }
    {
        Connection {
            stream,
            region,
            place,
            peer,
            unwritten: Unwritten::new(alloc),
            buffer: None,
            phase: Phase::Starting,
            waits: Waits::Readable,
            has_received: false,
            has_failed: false,
            begun: now,
            moved: now,
        }
    }

    /// The stream has ended by a fault.
    pub(crate) fn end_by_fault(&mut self)
        ensures { self.new ≡ record self.old { phase = Phase.Ended; has_failed = true } }
    {
        self.has_failed = true;
        self.phase = Phase::Ended;
    }

    /// Whether a Send came, and nothing went wrong.
    pub(crate) fn is_completed(&self) -> bool
        ensures { result ≡ (self.now.has_received && not self.now.has_failed) }
    {
        self.has_received && !self.has_failed
    }
}
