ghost use Rattle.std.specs.Prelude.{◌≡◌, ◌↔◌, [], length, IsTrue, IfOk, OnErr};
ghost use Rattle.iw_server.specs.Unwritten.{Takes, Gathers};

use iw_connection::{Endpoint, Filled, Refusal, StreamNumber, fill};
use std::alloc::Global;
use std::io::{ErrorKind, Write};
use std::marker::Model;

/// The socket fails.
#[derive(Clone, Copy, Debug, PartialEq, Eq)]
pub(crate) struct Failed;

/// What a stream has emitted and its socket has not taken yet.
#[derive(Drop)]
pub(crate) struct Unwritten {
    octets: Vec<u8>,
    // How many of them the socket has taken.
    written: usize,
}

impl Model for Unwritten {
    ghost use Rattle.std.specs.Prelude.{List, ℕ, ◌≤◌, drop, length};

    ghost Value = { List ℕ };

    ghost view = { λ u. drop u.written u.octets.items };

    ghost invariant = { λ u. u.written ≤ length u.octets.items };
}

impl Unwritten {
    /// Nothing.
    pub(crate) fn new(alloc: Global) -> Unwritten
        ensures { result ≡ [] }
    {
        Unwritten {
            octets: Vec::new(alloc),
            written: 0,
        }
    }

    /// How many octets are left.
    pub(crate) fn len(&self) -> usize
        ensures { result ≡ length self.now }
    {
        self.octets.len() - self.written
    }

    /// Appends what the stream is to send, as [`fill`] does. An `Err` changes nothing.
    pub(crate) fn fill(
        &mut self,
        endpoint: &mut Endpoint,
        stream: StreamNumber,
        most: usize,
    ) -> Result<Filled, Refusal>
        ensures gathers { Gathers endpoint.old stream self.old self.new endpoint.new }
        ensures err { OnErr result ((self.new ≡ self.old) × (endpoint.new ≡ endpoint.old)) }
    {
        fill(endpoint, stream, &mut self.octets, most)
    }

    /// Writes until nothing is left, or the socket would have it wait. What was taken is gone, and the rest stays. Returns whether
    /// nothing is left.
    pub(crate) fn write_to<W: Write>(&mut self, socket: &mut W) -> Result<bool, Failed>
        ensures takes { Takes (W.contents socket.old) (W.contents socket.new) self.old self.new }
        ensures all { IfOk result (λ is_all. IsTrue is_all ↔ (self.new ≡ [])) }
    {
        'writes: for _ in 0..u64::MAX {
            if self.written >= self.octets.len() {
                self.octets.clear();
                self.written = 0;
                return Ok(true);
            }
            match socket.write(&self.octets[self.written..]) {
                Ok(0) => return Err(Failed),
                Ok(n) => self.written += n,
                Err(error) => match error.kind() {
                    ErrorKind::Interrupted => {}
                    ErrorKind::WouldBlock => return Ok(false),
                    _ => return Err(Failed),
                },
            }
        }
        Err(Failed)
    }
}
