//! A port at which several processes listen.

use libc::net as c;
use mio::net::TcpListener;
use os::FromRawFd;
use std::io;
use std::net::Net;
use std::os::fd::{AsRawFd, RawFd};

// How many connections may wait to be accepted: as many as the system allows.
const BACKLOG: i32 = i32::MAX;

// The octets of C's `sockaddr_in`: the family, the port and 127.0.0.1, and eight more.
const ADDRESS_LEN: u32 = 16;

const LOCALHOST: [u8; 4] = [127, 0, 0, 1];

/// A socket that is bound to a port of 127.0.0.1. Processes of the same user may bind further ones there (SO_REUSEPORT), and the
/// kernel gives each connection to one of those that listen.
#[derive(Drop)]
pub(crate) struct SharedPort {
    // It listens once it is handed out.
    socket: TcpListener,
}

impl SharedPort {
    /// Takes a port at which nobody listens yet, whoever that were: any free one if `port` is 0. Nobody listens there by that.
    pub(crate) fn reserve<N: Net>(net: &N, port: u16) -> io::Result<SharedPort> {
        let alone = bound(port, false)?;
        let port = alone.local_addr()?.port();
        drop(alone);
        SharedPort::bind(net, port)
    }

    /// Takes a port that may be shared already.
    pub(crate) fn bind<N: Net>(_net: &N, port: u16) -> io::Result<SharedPort> {
        Ok(SharedPort {
            socket: bound(port, true)?,
        })
    }

    /// The port.
    pub(crate) fn port(&self) -> io::Result<u16> {
        Ok(self.socket.local_addr()?.port())
    }

    /// Listens there.
    pub(crate) fn listen(self) -> io::Result<TcpListener> {
        check(c::listen(self.socket.as_raw_fd(), BACKLOG))?;
        Ok(self.socket)
    }
}

// The error of the call that has just answered this, if it is negative.
fn check(status: i32) -> io::Result<()> {
    if status < 0 {
        Err(io::Error::from_raw_os_error(os::errno()))
    } else {
        Ok(())
    }
}

// C's address of a port of 127.0.0.1.
fn address_of(port: u16) -> [u8; c::_SS_SIZE] {
    let mut address = [0u8; c::_SS_SIZE];
    address[..2].copy_from_slice(&(c::AF_INET as u16).to_ne_bytes());
    address[2..4].copy_from_slice(&port.to_be_bytes());
    address[4..8].copy_from_slice(&LOCALHOST);
    address
}

// A new socket whose calls do not wait.
fn new_socket() -> io::Result<TcpListener> {
    let kind = c::SOCK_STREAM | c::SOCK_NONBLOCK | c::SOCK_CLOEXEC;
    let fd = unsafe { c::socket(c::AF_INET, kind, 0) };
    if fd < 0 {
        return Err(io::Error::from_raw_os_error(os::errno()));
    }
    Ok(unsafe { TcpListener::from_raw_fd(fd) })
}

// Has other sockets bound to the port of this one too: by itself those of connections that are over, and if it is shared those of
// other processes.
fn allow_others(fd: RawFd, is_shared: bool) -> io::Result<()> {
    let mut on = [0u8; 16];
    on[..4].copy_from_slice(&1i32.to_ne_bytes());
    check(unsafe { c::setsockopt(fd, c::SOL_SOCKET, c::SO_REUSEADDR, &on, 4) })?;
    if is_shared {
        check(unsafe { c::setsockopt(fd, c::SOL_SOCKET, c::SO_REUSEPORT, &on, 4) })?;
    }
    Ok(())
}

// A socket that is bound to a port of 127.0.0.1.
fn bound(port: u16, is_shared: bool) -> io::Result<TcpListener> {
    let socket = new_socket()?;
    let fd = socket.as_raw_fd();
    allow_others(fd, is_shared)?;
    let address = address_of(port);
    check(unsafe { c::bind(fd, &address, ADDRESS_LEN) })?;
    Ok(socket)
}
