ghost use Rattle.std.specs.Prelude.{◌≡◌, ◌≤◌, IfOk};

use crate::host::{Host, Socket};
use crate::server::Server;
use crate::terms::Terms;
use std::alloc::Global;
use std::io::Write;
use thiserror::Error;

/// How many keys [`Host::wait`] may have to tell at once.
pub const MOST_READY: usize = 1_024;

/// Why a server stops before its connections are over.
#[derive(Clone, Copy, Debug, PartialEq, Eq, Error)]
pub enum ServeFault {
    /// The host could not wait, or has no clock.
    #[error("the host could not wait, or has no clock")]
    Host,
    /// All numbers of streams were given. The connections that were open are over.
    #[error("no stream number is left")]
    NumbersSpent,
    /// Out of memory, before the first connection.
    #[error("no memory before the first connection")]
    NoMemory,
}

/// How many connections there were.
#[derive(Clone, Copy, Debug, PartialEq, Eq)]
pub struct Tally {
    /// How many were begun.
    pub begun: u64,
    /// How many of them failed: no Send came, the stream ended by a fault, the socket failed, or there was no room.
    pub failed: u64,
    /// How many lines the output did not take, and no line tells of.
    pub unprinted: u64,
}

/// Serves so many connections, as many at once as there are, and prints a line for each Send that came and for each fault that ended a
/// stream, with the peer's address. It returns once they are over.
///
/// What the output does not take waits for it, 65,536 octets at most; further lines are dropped, and a line tells how many once it
/// takes octets again. So an output that fails, or whose writes fail with `WouldBlock`, holds up nothing and ends nothing. Once
/// all connections are over, what is left is tried again behind each `flush` of the output, 1,024 times at most, until one fails.
///
/// An `Err` is `Host` if the host cannot wait or has no clock: connections may be left. `NumbersSpent` comes once 2^32 - 64 streams
/// were opened and the last of them is over. `NoMemory` comes before the first connection.
pub fn serve<S: Socket + Drop, H: Host<S>, W: Write>(
    alloc: Global,
    terms: Terms,
    count: u64,
    host: &mut H,
    print: &mut W,
) -> Result<Tally, ServeFault>
    ensures begun { IfOk result (λ tally. tally.begun ≡ count) }
    ensures failed { IfOk result (λ tally. tally.failed ≤ tally.begun) }
{
    let Ok(mut ready) = Vec::with_capacity(alloc, MOST_READY) else {
        return Err(ServeFault::NoMemory);
    };
    let mut server = Server::new(alloc, terms);
    let served = serve_all(&mut server, count, host, &mut ready, print);
    let unprinted = server.finish(print);
    match served {
        Ok(tally) => Ok(Tally {
            begun: tally.begun,
            failed: tally.failed,
            unprinted,
        }),
        Err(fault) => Err(fault),
    }
}

// The rounds, until so many connections were begun and are over.
fn serve_all<S: Socket + Drop, H: Host<S>, W: Write>(
    server: &mut Server<S>,
    count: u64,
    host: &mut H,
    ready: &mut Vec<usize>,
    print: &mut W,
) -> Result<Tally, ServeFault>
    requires { server.old.begun ≤ count }
    ensures begun { IfOk result (λ tally. tally.begun ≡ count) }
    ensures failed { IfOk result (λ tally. tally.failed ≤ tally.begun) }
{
    let mut seconds = 1;
    'rounds: for _ in 0..u64::MAX {
        if server.begun >= count && server.live() == 0 {
            return Ok(Tally {
                begun: server.begun,
                failed: server.failed,
                unprinted: 0,
            });
        }
        if server.is_spent && server.live() == 0 {
            return Err(ServeFault::NumbersSpent);
        }
        match serve_round(server, count, host, ready, seconds, print) {
            Ok(more) => seconds = if more { 0 } else { 1 },
            Err(fault) => return Err(fault),
        }
    }
    Err(ServeFault::Host)
}

// Waits, gives each connection that is ready a turn, accepts others, and drops those that are late. Returns whether more may be
// accepted.
fn serve_round<S: Socket + Drop, H: Host<S>, W: Write>(
    server: &mut Server<S>,
    count: u64,
    host: &mut H,
    ready: &mut Vec<usize>,
    seconds: u64,
    print: &mut W,
) -> Result<bool, ServeFault>
    requires { server.old.begun ≤ count }
    ensures { server.new.begun ≤ count }
{
    if host.wait(ready, seconds).is_err() {
        return Err(ServeFault::Host);
    }
    let Ok(now) = host.now() else {
        return Err(ServeFault::Host);
    };
    'turns: for key in ready.iter() {
        server.take_turn(host, *key, now);
        server.print_if_long(print);
    }
    let more = server.take_in(host, count, now);
    server.drop_late(now);
    server.print(print);
    Ok(more)
}
