//! What a connection does when its socket is ready.

ghost use Rattle.std.specs.Prelude.{◌≡◌, ◌↔◌, ◌⊎◌, ℕ, [], true, false, Ok, IsTrue, IfOk, OnOk};
ghost use Rattle.std.specs.Io.KnownBytes.{IsAtEnd, Keeps};
ghost use Rattle.iw_endpoint.specs.Endpoint.{EndpointState, has_due};
ghost use Rattle.iw_endpoint.specs.Reading.{Took};
ghost use Rattle.iw_server.specs.declared.host.Waits.{Waits};
ghost use Rattle.iw_server.specs.Unwritten.{Takes, Gathers};
ghost use Rattle.iw_server.specs.Acting.{IsSame, standing, ActsAll, ActsOn};
ghost use Rattle.iw_server.specs.Turns.{GoesOn, Hears, Writes, WritesThen, TakesTurn};

use crate::acting::act;
use crate::connection::{Broken, Connection, Phase};
use crate::host::{Socket, Waits};
use crate::log::Log;
use iw_connection::{CallRefusal, Endpoint, Filled, Intake, take};
use std::alloc::Global;
use std::io::ErrorKind;

// About how many octets are written in a turn, so that no connection holds up the others.
const MOST_WRITTEN: usize = 65_536;

/// What comes after a turn.
#[derive(Clone, Copy, Debug, PartialEq, Eq)]
pub(crate) enum Turn {
    /// The connection goes on once its socket is ready for this.
    Waits(Waits),
    /// It is over.
    Over,
}

// What was read.
#[derive(Clone, Copy, Debug, PartialEq, Eq)]
enum Heard {
    // Nothing that changes anything.
    Nothing,
    // Octets, and all that they ask for is done.
    Octets,
    // Octets, and more is to be done than a turn has room for.
    More,
    // The peer has closed.
    End,
}

// Whether a read that failed so is to be made again later.
fn is_for_later(kind: ErrorKind) -> bool {
    kind == ErrorKind::WouldBlock || kind == ErrorKind::Interrupted
}

/// The turn of a connection whose socket may be ready for what it waits for.
pub(crate) fn take_turn<S: Socket>(
    alloc: Global,
    endpoint: &mut Endpoint,
    connection: &mut Connection,
    socket: &mut S,
    log: &mut Log,
    now: u64,
) -> Turn
    ensures on { GoesOn connection.old connection.new }
    ensures writes { TakesTurn connection.old.waits endpoint.old connection.old connection.new
        (S.contents socket.old) (S.remaining socket.old) (S.contents socket.new) }
    ensures waits { (waits : Waits) → result ≡ Turn.Waits waits → connection.new.waits ≡ waits }
    ensures all { (connection.old.waits ≡ Waits.Readable → connection.old.unwritten ≡ []) → result ≡ Turn.Waits Waits.Readable → connection.new.unwritten ≡ [] }
{
    let turn = match connection.waits {
        Waits::Readable => listen(alloc, endpoint, connection, socket, log, now),
        Waits::Writable => speak(alloc, endpoint, connection, socket, log, now),
    };
    match turn {
        Ok(Turn::Waits(waits)) => {
            connection.waits = waits;
            Turn::Waits(waits)
        }
        Ok(Turn::Over) => Turn::Over,
        Err(_) => {
            connection.has_failed = true;
            Turn::Over
        }
    }
}

// Reads, and writes what is due then.
fn listen<S: Socket>(
    alloc: Global,
    endpoint: &mut Endpoint,
    connection: &mut Connection,
    socket: &mut S,
    log: &mut Log,
    now: u64,
) -> Result<Turn, Broken>
    ensures on { GoesOn connection.old connection.new }
    ensures writes { WritesThen endpoint.old connection.old connection.new (S.remaining socket.old) (S.contents socket.new)
        ⊎ IsSame connection.old connection.new }
    ensures all { connection.old.unwritten ≡ [] → result ≡ Ok (Turn.Waits Waits.Readable) → connection.new.unwritten ≡ [] }
{
    match hear(alloc, endpoint, connection, socket, log, now) {
        Ok(Heard::Octets) => speak(alloc, endpoint, connection, socket, log, now),
        // A socket that can be written is ready at once: the next turn goes on.
        Ok(Heard::More) => Ok(Turn::Waits(Waits::Writable)),
        Ok(Heard::Nothing) => Ok(Turn::Waits(Waits::Readable)),
        Ok(Heard::End) => Ok(Turn::Over),
        Err(broken) => Err(broken),
    }
}

// Reads once, right to where the octets are to stand, and does what they ask for. Once the output is shut down, what comes is
// dropped: who sends on keeps the connection no longer open.
fn hear<S: Socket>(
    alloc: Global,
    endpoint: &mut Endpoint,
    connection: &mut Connection,
    socket: &mut S,
    log: &mut Log,
    now: u64,
) -> Result<Heard, Broken>
    ensures same { IsSame connection.old connection.new }
    ensures came { result ≡ Ok Heard.Octets →
        Hears endpoint.old endpoint.new connection.old connection.new (S.remaining socket.old) (S.remaining socket.new) }
    ensures more { result ≡ Ok Heard.More → (n : ℕ) × (at : EndpointState) ×
        Took endpoint.old at connection.old.stream (S.remaining socket.old) (S.remaining socket.new) n ×
        ActsOn connection.old.region connection.old.stream
        (standing at connection.old) (standing endpoint.new connection.new) }
    ensures nothing { result ≡ Ok Heard.Nothing → (connection.old.phase ≡ Phase.Shut) ⊎ ((endpoint.new ≡ endpoint.old) × Keeps (S.remaining socket.old) (S.remaining socket.new)) }
    ensures end { result ≡ Ok Heard.End → (endpoint.new ≡ endpoint.old) × IsAtEnd (S.remaining socket.new) }
{
    match take(endpoint, connection.stream, socket) {
        Ok(Intake::Came(_)) => {
            if connection.phase == Phase::Shut {
                return Ok(Heard::Nothing);
            }
            match act(alloc, endpoint, connection, log, now) {
                Ok(true) => Ok(Heard::Octets),
                Ok(false) => Ok(Heard::More),
                Err(broken) => Err(broken),
            }
        }
        Ok(Intake::End) => Ok(Heard::End),
        // The window is full although there is nothing to do: it would stay so.
        Ok(Intake::Full) => Err(Broken),
        Err(CallRefusal::Refused(error)) => {
            if is_for_later(error.kind()) {
                return Ok(Heard::Nothing);
            }
            Err(Broken)
        }
        Err(CallRefusal::NoSuchStream) => Err(Broken),
    }
}

// Writes what is due. Once all is written of a stream that has ended, shuts the output down.
fn speak<S: Socket>(
    alloc: Global,
    endpoint: &mut Endpoint,
    connection: &mut Connection,
    socket: &mut S,
    log: &mut Log,
    now: u64,
) -> Result<Turn, Broken>
    ensures on { GoesOn connection.old connection.new }
    ensures writes { Writes endpoint.old connection.old connection.new (S.contents socket.old) (S.contents socket.new) }
    ensures all { result ≡ Ok (Turn.Waits Waits.Readable) → (connection.new.unwritten ≡ []) × (has_due endpoint.new connection.old.stream ≡ false) }
{
    match write_some(alloc, endpoint, connection, socket, log, now) {
        Ok(true) => after_writing(connection, socket),
        Ok(false) => Ok(Turn::Waits(Waits::Writable)),
        Err(broken) => Err(broken),
    }
}

// What comes once nothing more is due.
fn after_writing<S: Socket>(connection: &mut Connection, socket: &mut S) -> Result<Turn, Broken>
    ensures same { IsSame connection.old connection.new }
    ensures contents { Keeps (S.contents socket.old) (S.contents socket.new) }
{
    match connection.phase {
        Phase::Starting | Phase::Running | Phase::Shut => Ok(Turn::Waits(Waits::Readable)),
        Phase::Closed => Ok(Turn::Over),
        Phase::Ended => {
            connection.phase = Phase::Shut;
            match socket.end() {
                Ok(()) => Ok(Turn::Waits(Waits::Readable)),
                Err(_) => Err(Broken),
            }
        }
    }
}

// Writes what is left of what was emitted, or what is due next if nothing is left. Returns whether nothing more is due.
fn write_some<S: Socket>(
    alloc: Global,
    endpoint: &mut Endpoint,
    connection: &mut Connection,
    socket: &mut S,
    log: &mut Log,
    now: u64,
) -> Result<bool, Broken>
    ensures on { GoesOn connection.old connection.new }
    ensures writes { Writes endpoint.old connection.old connection.new (S.contents socket.old) (S.contents socket.new) }
    ensures all { result ≡ Ok true → (connection.new.unwritten ≡ []) × (has_due endpoint.new connection.old.stream ≡ false) }
{
    match gather(endpoint, connection) {
        Ok(()) => {}
        Err(broken) => return Err(broken),
    }
    match write_out(connection, socket, now) {
        Ok(true) => settle(alloc, endpoint, connection, log, now),
        Ok(false) => Ok(false),
        Err(broken) => Err(broken),
    }
}

// Emits what is due, unless something is left to write.
fn gather(endpoint: &mut Endpoint, connection: &mut Connection) -> Result<(), Broken>
    ensures on { GoesOn connection.old connection.new }
    ensures gathers { Gathers endpoint.old connection.old.stream connection.old.unwritten connection.new.unwritten endpoint.new }
{
    if connection.unwritten.len() > 0 {
        return Ok(());
    }
    match connection
        .unwritten
        .fill(endpoint, connection.stream, MOST_WRITTEN)
    {
        Ok(Filled::All) => Ok(()),
        Ok(Filled::More) => Ok(()),
        Ok(Filled::Fault(_)) => {
            connection.end_by_fault();
            Ok(())
        }
        Err(_) => Err(Broken),
    }
}

// Writes what was emitted. Returns whether nothing is left.
fn write_out<S: Socket>(
    connection: &mut Connection,
    socket: &mut S,
    now: u64,
) -> Result<bool, Broken>
    ensures on { GoesOn connection.old connection.new }
    ensures takes { Takes (S.contents socket.old) (S.contents socket.new) connection.old.unwritten connection.new.unwritten }
    ensures all { IfOk result (λ is_all. IsTrue is_all ↔ (connection.new.unwritten ≡ [])) }
{
    let before = connection.unwritten.len();
    let written = connection.unwritten.write_to(socket);
    if connection.unwritten.len() < before {
        connection.moved = now;
    }
    match written {
        Ok(is_all) => Ok(is_all),
        Err(_) => Err(Broken),
    }
}

// All that was emitted is written: what was posted may be done. Returns whether nothing is left to do, and nothing more is due.
fn settle(
    alloc: Global,
    endpoint: &mut Endpoint,
    connection: &mut Connection,
    log: &mut Log,
    now: u64,
) -> Result<bool, Broken>
    ensures same { IsSame connection.old connection.new }
    ensures all { result ≡ Ok true → ActsAll connection.old.region connection.old.stream
        (standing endpoint.old connection.old) (standing endpoint.new connection.new) }
    ensures due { result ≡ Ok true → has_due endpoint.new connection.old.stream ≡ false }
{
    match act(alloc, endpoint, connection, log, now) {
        Ok(true) => {}
        Ok(false) => return Ok(false),
        Err(broken) => return Err(broken),
    }
    match endpoint.has_due(connection.stream) {
        Ok(due) => Ok(!due),
        Err(_) => Err(Broken),
    }
}
