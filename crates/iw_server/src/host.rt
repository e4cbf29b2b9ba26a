ghost use Rattle.std.specs.Io.KnownBytes.{Keeps};

use std::io::{self, Read, Write};
use std::net::SocketAddr;

/// The socket of a connection. A read or a write that would wait fails with `WouldBlock`.
pub trait Socket: Read + Write {
    /// Ends the output, so that the peer's input ends.
    fn end(&mut self) -> io::Result<()>
        ensures { Keeps (Self.contents self.old) (Self.contents self.new) };
}

/// What a connection waits for.
#[derive(Clone, Copy, Debug, PartialEq, Eq)]
pub enum Waits {
    Readable,
    Writable,
}

/// What a server stands on: where its connections come from, what tells which sockets are ready, and a clock.
pub trait Host<S> {
    /// The next connection, and its peer's address. `WouldBlock` means that none waits.
    fn accept(&mut self) -> io::Result<(S, SocketAddr)>;

    /// From now on [`Host::wait`] tells this key when the socket can be read. A socket that is dropped is watched no longer.
    fn watch(&mut self, socket: &mut S, key: usize) -> io::Result<()>;

    /// From now on it tells the key when the socket is ready for this, also if it is ready already.
    fn watch_again(&mut self, socket: &mut S, key: usize, waits: Waits) -> io::Result<()>;

    /// Waits until a socket is ready, a connection may be accepted, or so many seconds are over. Puts the keys of sockets
    /// that may be ready into `ready`, in place of what is there. It takes no memory if `ready` has room for
    /// [`MOST_READY`](crate::MOST_READY) keys.
    fn wait(&mut self, ready: &mut Vec<usize>, seconds: u64) -> io::Result<()>;

    /// The seconds of a clock that only goes forward.
    fn now(&mut self) -> io::Result<u64>;

    /// 32 bits that no peer can foresee (RFC 5042 6.1.1).
    fn draw(&mut self) -> io::Result<u32>;
}
