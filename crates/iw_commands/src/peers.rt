use crate::timed::{Manner, Pace, Time, TimedInput, TimedOutput, halves};
use iw_links::Output;
use std::cell::Cell;
use std::io::{self, Read};
use std::net::{Ipv4Addr, Net, OpenListener, SocketAddr, TcpListener, TcpStream};
use std::time::Clock;

/// Where connections come from, one after the other.
pub trait Peers {
    /// The reader of what the peer sends.
    type Input: Read + Drop;

    /// The writer of what is sent to the peer.
    type Output: Output + Drop;

    /// The two halves of the next connection.
    fn next_peer(&mut self) -> io::Result<(Self::Input, Self::Output)>;
}

/// The connections that a listener accepts, one after the other.
#[derive(Drop)]
pub struct Arrivals<'a, N: Net> {
    net: &'a N,
    listener: N::Listener,
    pace: Pace,
    // The connection's MPA Reply was written.
    is_answered: &'a Cell<bool>,
}

impl<'a, N: Net> Arrivals<'a, N> {
    /// Listens on 127.0.0.1, at any free port if `port` is 0. The time of a connection is that until its MPA Reply was written
    /// (RFC 5044 7.1.2, rule 10), after which `is_answered` is set.
    pub fn bind(
        net: &'a N,
        port: u16,
        pace: Pace,
        is_answered: &'a Cell<bool>,
    ) -> io::Result<Arrivals<'a, N>> {
        Ok(Arrivals {
            net,
            listener: TcpListener::bind(net, (Ipv4Addr::LOCALHOST, port))?,
            pace,
            is_answered,
        })
    }

    /// The port that was bound.
    pub fn port(&self) -> io::Result<u16> {
        Ok(self.listener.local_addr()?.port())
    }
}

impl<'a, N: Net + Clock> Peers for Arrivals<'a, N> {
    type Input = TimedInput<'a, N::Stream, N>;

    type Output = TimedOutput<'a, N::Stream, N>;

    fn next_peer(&mut self) -> io::Result<(Self::Input, Self::Output)> {
        let (stream, _) = self.listener.accept()?;
        self.is_answered.set(false);
        let manner = Manner {
            pause: self.pace.pause,
            meets: true,
        };
        halves(
            stream,
            Time::new(self.net, self.pace, self.is_answered)?,
            manner,
        )
    }
}

/// Connections that are made to one port of 127.0.0.1.
#[derive(Drop)]
pub struct Calls<'a, N: Net> {
    net: &'a N,
    port: u16,
    pace: Pace,
    // No call has done all in time before it is over.
    is_met: &'a Cell<bool>,
}

impl<'a, N: Net> Calls<'a, N> {
    /// Connections to this port. None is made yet. The time of a connection is that of all of it; `is_met` is not set.
    pub fn new(net: &'a N, port: u16, pace: Pace, is_met: &'a Cell<bool>) -> Calls<'a, N> {
        Calls {
            net,
            port,
            pace,
            is_met,
        }
    }
}

impl<'a, N: Net + Clock> Calls<'a, N> {
    // Makes a connection in this time.
    fn call(&self, time: &Time<'a, N>) -> io::Result<N::Stream> {
        let address = SocketAddr::from((Ipv4Addr::LOCALHOST, self.port));
        match time.left()? {
            Some(left) => TcpStream::connect_timeout(self.net, &address, left),
            None => TcpStream::connect(self.net, address),
        }
    }
}

impl<'a, N: Net + Clock> Peers for Calls<'a, N> {
    type Input = TimedInput<'a, N::Stream, N>;

    type Output = TimedOutput<'a, N::Stream, N>;

    fn next_peer(&mut self) -> io::Result<(Self::Input, Self::Output)> {
        let time = Time::new(self.net, self.pace, self.is_met)?;
        let stream = self.call(&time)?;
        let manner = Manner {
            pause: self.pace.pause,
            meets: false,
        };
        halves(stream, time, manner)
    }
}
