use crate::host::{Host, Socket, Waits};
use crate::serving::MOST_READY;
use crate::shared::SharedPort;
use libc::{STDIN_FILENO, net as c};
use mio::net::{TcpListener, TcpStream};
use mio::unix::SourceFd;
use mio::{Events, Interest, Poll, Token};
use std::alloc::Global;
use std::io::{self, ErrorKind};
use std::net::{Ipv4Addr, Net, Shutdown, SocketAddr};
use std::os::fd::{AsRawFd, RawFd};
use std::random::RandomSource;
use std::time::{Clock, Duration};

// The tokens of the listener, and of standard input, whose other end the parent of a worker has. No connection has these keys.
const LISTENER: Token = Token(usize::MAX);

const PARENT: Token = Token(usize::MAX - 1);

// How many octets the kernel is asked to keep for a connection, each way. Linux takes twice as many, for what it keeps with them,
// and no more than twice net.core.wmem_max and rmem_max.
const KERNEL_OCTETS: u32 = 262_144;

impl Socket for TcpStream {
    fn end(&mut self) -> io::Result<()> {
        self.shutdown(Shutdown::Write)
    }
}

/// A listener at 127.0.0.1, and the sockets of its connections.
#[derive(Drop)]
pub struct Sockets<'a, C> {
    poll: Poll,
    events: Events,
    listener: TcpListener,
    // A connection may wait to be accepted.
    has_arrivals: bool,
    // Standard input has ended: the parent is gone.
    is_orphaned: bool,
    system: &'a C,
}

// Sets how many octets the kernel keeps for each connection of a listener, which accepted sockets take over.
fn limit_kernel(fd: RawFd) {
    let mut value = [0u8; 16];
    value[..4].copy_from_slice(&KERNEL_OCTETS.to_ne_bytes());
    unsafe {
        c::setsockopt(fd, c::SOL_SOCKET, c::SO_SNDBUF, &value, 4);
        c::setsockopt(fd, c::SOL_SOCKET, c::SO_RCVBUF, &value, 4);
    }
}

impl<'a, C: Clock + RandomSource> Sockets<'a, C> {
    /// Listens on 127.0.0.1, at any free port if `port` is 0. The kernel is asked to keep no more than 262,144 octets of a connection
    /// each way, beside what it keeps with them. `system` has the clock, and the source of random numbers.
    pub fn bind<N: Net>(
        alloc: Global,
        net: &N,
        system: &'a C,
        port: u16,
    ) -> io::Result<Sockets<'a, C>> {
        let address = SocketAddr::from((Ipv4Addr::LOCALHOST, port));
        Sockets::over(alloc, net, system, TcpListener::bind(net, address)?)
    }

    /// The same at a port that other processes may listen at too (SO_REUSEPORT), until standard input ends: from then on
    /// [`Host::wait`] fails.
    pub(crate) fn share<N: Net>(
        alloc: Global,
        net: &N,
        system: &'a C,
        port: u16,
    ) -> io::Result<Sockets<'a, C>> {
        let listener = SharedPort::bind(net, port)?.listen()?;
        let sockets = Sockets::over(alloc, net, system, listener)?;
        sockets
            .poll
            .registry()
            .register(&mut SourceFd(&STDIN_FILENO), PARENT, Interest::READABLE)?;
        Ok(sockets)
    }

    fn over<N: Net>(
        alloc: Global,
        net: &N,
        system: &'a C,
        mut listener: TcpListener,
    ) -> io::Result<Sockets<'a, C>> {
        let poll = Poll::new(net)?;
        limit_kernel(listener.as_raw_fd());
        poll.registry()
            .register(&mut listener, LISTENER, Interest::READABLE)?;
        Ok(Sockets {
            poll,
            events: Events::with_capacity(alloc, MOST_READY)?,
            listener,
            has_arrivals: false,
            is_orphaned: false,
            system,
        })
    }

    /// Whether standard input has ended.
    pub(crate) fn is_orphaned(&self) -> bool {
        self.is_orphaned
    }

    /// The port that was bound.
    pub fn port(&self) -> io::Result<u16> {
        Ok(self.listener.local_addr()?.port())
    }
}

fn interest_of(waits: Waits) -> Interest {
    match waits {
        Waits::Readable => Interest::READABLE,
        Waits::Writable => Interest::WRITABLE,
    }
}

impl<C: Clock + RandomSource> Host<TcpStream> for Sockets<'_, C> {
    fn accept(&mut self) -> io::Result<(TcpStream, SocketAddr)> {
        if !self.has_arrivals {
            return Err(io::Error::from(ErrorKind::WouldBlock));
        }
        match self.listener.accept() {
            Ok((stream, peer)) => {
                let _ = stream.set_nodelay(true);
                Ok((stream, peer))
            }
            Err(error) => {
                self.has_arrivals = error.kind() != ErrorKind::WouldBlock;
                Err(error)
            }
        }
    }

    fn watch(&mut self, socket: &mut TcpStream, key: usize) -> io::Result<()> {
        self.poll
            .registry()
            .register(socket, Token(key), Interest::READABLE)
    }

    fn watch_again(&mut self, socket: &mut TcpStream, key: usize, waits: Waits) -> io::Result<()> {
        self.poll
            .registry()
            .reregister(socket, Token(key), interest_of(waits))
    }

    fn wait(&mut self, ready: &mut Vec<usize>, seconds: u64) -> io::Result<()> {
        self.poll
            .poll(&mut self.events, Some(Duration::from_secs(seconds)))?;
        ready.clear();
        for event in self.events.iter() {
            let token = event.token();
            if token == LISTENER {
                self.has_arrivals = true;
            } else if token == PARENT {
                self.is_orphaned = true;
            } else {
                ready.push(token.0)?;
            }
        }
        if self.is_orphaned {
            return Err(io::Error::from(ErrorKind::BrokenPipe));
        }
        Ok(())
    }

    fn now(&mut self) -> io::Result<u64> {
        Ok(self.system.monotonic()?.as_secs())
    }

    fn draw(&mut self) -> io::Result<u32> {
        let mut octets = [0u8; 4];
        self.system.fill_bytes(&mut octets)?;
        Ok(u32::from_ne_bytes(octets))
    }
}
