//! A server over TCP, and its peers in the same process: each wait gives them a turn.

use crate::peer::{Asks, Peer};
use iw_server::{Host, Sockets, Terms, Waits, serve};
use mio::net::TcpStream;
use std::alloc::Global;
use std::io::{self, Read, Write};
use std::net::{Ipv4Addr, Net, Shutdown, SocketAddr};
use std::process::Abort;
use std::random::RandomSource;
use std::test::Fail;
use std::time::Clock;

const CLIENTS: u64 = 100;

const ASKS: Asks = Asks {
    markers: true,
    crc: true,
};

const TERMS: Terms = Terms {
    markers: true,
    crc: true,
    enhanced: false,
    most: 64,
    start: 10,
    stall: 60,
    quiet: false,
};

// How many of these octets the socket takes.
fn write_some(socket: &mut TcpStream, octets: &[u8]) -> usize {
    socket.write(octets).unwrap_or(0)
}

/// A peer, and its end of a connection.
#[derive(Drop)]
struct Client {
    socket: TcpStream,
    peer: Peer,
    // How many octets of what it has to send were written.
    sent: usize,
    has_asked: bool,
    is_closed: bool,
}

impl Client {
    fn new<N: Net>(alloc: Global, net: &N, port: u16) -> Result<Client, Fail> {
        let address = SocketAddr::from((Ipv4Addr::LOCALHOST, port));
        let Some(peer) = Peer::new(alloc, ASKS, b"loopback") else {
            return Err("no memory".into());
        };
        Ok(Client {
            socket: TcpStream::connect(net, address)?,
            peer,
            sent: 0,
            has_asked: false,
            is_closed: false,
        })
    }

    fn take_turn(&mut self) {
        self.read();
        if !self.has_asked {
            self.peer.ask();
            self.has_asked = self.peer.region.is_some();
        }
        self.write();
        if self.peer.is_answered && !self.is_closed {
            self.is_closed = true;
            let _ = self.socket.shutdown(Shutdown::Write);
        }
    }

    fn read(&mut self) {
        let mut octets = [0u8; 512];
        if let Ok(n) = self.socket.read(&mut octets) {
            self.peer.hear(&octets[..n]);
        }
    }

    fn write(&mut self) {
        if self.sent >= self.peer.out.len() {
            return;
        }
        let n = write_some(&mut self.socket, &self.peer.out[self.sent..]);
        self.sent = self.sent.saturating_add(n);
    }
}

/// A server's sockets, and its peers.
#[derive(Drop)]
struct Town<'a, C> {
    sockets: Sockets<'a, C>,
    clients: Vec<Client>,
}

impl<C: Clock + RandomSource> Host<TcpStream> for Town<'_, C> {
    fn accept(&mut self) -> io::Result<(TcpStream, SocketAddr)> {
        self.sockets.accept()
    }

    fn watch(&mut self, socket: &mut TcpStream, key: usize) -> io::Result<()> {
        self.sockets.watch(socket, key)
    }

    fn watch_again(&mut self, socket: &mut TcpStream, key: usize, waits: Waits) -> io::Result<()> {
        self.sockets.watch_again(socket, key, waits)
    }

    fn wait(&mut self, ready: &mut Vec<usize>, _seconds: u64) -> io::Result<()> {
        for client in self.clients.iter_mut() {
            client.take_turn();
        }
        self.sockets.wait(ready, 0)
    }

    fn now(&mut self) -> io::Result<u64> {
        self.sockets.now()
    }

    fn draw(&mut self) -> io::Result<u32> {
        self.sockets.draw()
    }
}

fn new_town<'a, N: Net, C: Clock + RandomSource>(
    alloc: Global,
    net: &N,
    clock: &'a C,
) -> Result<Town<'a, C>, Fail> {
    let sockets = Sockets::bind(alloc, net, clock, 0)?;
    let port = sockets.port()?;
    let mut clients = Vec::new(alloc);
    for _ in 0..CLIENTS {
        clients.push(Client::new(alloc, net, port)?)?;
    }
    Ok(Town { sockets, clients })
}

// How many peers were answered, and nothing else came to them.
fn count_answered(clients: &[Client]) -> usize {
    clients
        .iter()
        .filter(|client| client.peer.is_answered && !client.peer.is_wronged)
        .count()
}

fn check_served<R: Abort + AllocGlobal + Net + Clock + RandomSource>(rt: &R) -> Result<(), Fail> {
    let mut town = new_town(rt.alloc(), rt, rt)?;
    let mut text = Vec::new(rt.alloc());
    let Ok(tally) = serve(rt.alloc(), TERMS, CLIENTS, &mut town, &mut text) else {
        return Err("not served".into());
    };
    assert!(rt; tally.begun == CLIENTS);
    assert!(rt; tally.failed == 0);
    assert!(rt; count_answered(&town.clients) == CLIENTS as usize);
    Ok(())
}

#[test]
fn peers_over_tcp_are_served(rt: HostRuntime) -> Result<(), Fail> {
    check_served(&rt)
}
