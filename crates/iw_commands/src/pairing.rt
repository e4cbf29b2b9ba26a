ghost use Rattle.std.specs.Prelude.{◌≡◌, ◌<◌, ◌≤◌, length, true, IfOk, OnErr};
ghost use Rattle.std.specs.Io.KnownBytes.{IsAtEnd};
ghost use Rattle.iw_endpoint.specs.Endpoint.{EndpointState};
ghost use Rattle.iw_links.specs.Exchange.{Asks, plan_for, with_domain};
ghost use Rattle.iw_commands.specs.Printed.{IsTold, Prints, PrintsFront, PrintsBeside};

use crate::asking::{Request, ask_peer};
use crate::fault::CommandFault;
use crate::peers::{Calls, Peers};
use crate::port::read_port;
use crate::printing::{print_report, unmade};
use crate::starting::listener;
use crate::timed::Pace;
use iw_endpoint::Endpoint;
use iw_links::{Counted, MOST_READS, Report, Terms, caller};
use iw_output::Status;
use std::alloc::Global;
use std::cell::Cell;
use std::io::{Read, Write};
use std::net::Net;
use std::process::{Child, OpenProcess, Processes};
use std::time::Clock;

// The most octets that one read of the pipe takes: as many as a pipe holds.
const MOST_PIPED: usize = 65_536;

/// How the requests of `pair` went.
#[derive(Clone, Copy, Debug, PartialEq, Eq)]
pub struct Talked {
    /// The program's status after them.
    pub status: Status,
    /// Whether each connection was made, and output of the other process was read after each. If not, that process may
    /// wait for ever.
    pub is_whole: bool,
}

// Makes a request on the next connection, then reads some of what the other process printed: at least a line for each
// connection that it had. Returns whether there was a connection, and such a read.
fn ask_next<P: Peers, I: Read>(
    alloc: Global,
    peers: &mut P,
    pipe: &mut Counted<I>,
    endpoint: &mut Endpoint,
    terms: Terms,
    text: &str,
    buffer: &mut [u8],
) -> (Report, bool)
    requires reads { pipe.old.reads ≤ 1000000 }
    requires room { 0 < length buffer.old }
    ensures told { IsTold (plan_for terms (Asks text.now)) endpoint.old endpoint.new result.0 }
    ensures bounded { pipe.new.reads ≤ 1000000 }
    ensures room { length buffer.new ≡ length buffer.old }
{
    match peers.next_peer() {
        Ok(peer) => {
            let report = ask_peer(alloc, endpoint, terms, text, peer);
            let read = pipe.next(buffer);
            (report, read.is_ok())
        }
        Err(_) => (unmade(), false),
    }
}

// Makes the requests, and prints the lines of each.
fn ask_each<P: Peers, I: Read, W: Write>(
    alloc: Global,
    peers: &mut P,
    pipe: &mut Counted<I>,
    endpoint: &mut Endpoint,
    request: &Request<'_>,
    buffer: &mut [u8],
    print: &mut W,
) -> Result<Talked, CommandFault>
    requires reads { pipe.old.reads ≤ 1000000 }
    requires room { 0 < length buffer.old }
    ensures printed { IfOk result (λ talked. Prints request.now.options (Asks request.now.text.now)
        endpoint.old endpoint.new request.now.count (W.contents print.old) (W.contents print.new) talked.status) }
    ensures stopped { OnErr result (PrintsFront request.now.options (Asks request.now.text.now)
        endpoint.old endpoint.new request.now.count (W.contents print.old) (W.contents print.new)) }
    ensures bounded { pipe.new.reads ≤ 1000000 }
{
    let mut status = Status::Completed;
    let mut is_whole = true;
    for stream in 0..request.count {
        let terms = request.options.at(stream);
        let (report, is_heard) = ask_next(
            alloc,
            peers,
            pipe,
            endpoint,
            terms,
            request.text,
            buffer,
        );
        match print_report(alloc, print, stream, &report) {
            Ok(next) => status = status.with(next),
            Err(fault) => return Err(fault),
        }
        is_whole = is_whole && is_heard;
    }
    Ok(Talked { status, is_whole })
}

/// Makes requests as [`connect_all`](crate::connect_all) does, to a process that prints its lines into `pipe`. After
/// each connection it reads from the pipe, up to 65,536 octets at once, so that the process, which prints at least a
/// line for each connection, never waits for room in the pipe.
pub fn talk<P: Peers, I: Read, W: Write>(
    alloc: Global,
    peers: &mut P,
    pipe: &mut Counted<I>,
    request: &Request<'_>,
    buffer: &mut [u8],
    print: &mut W,
) -> Result<Talked, CommandFault>
    requires reads { pipe.old.reads ≤ 1000000 }
    requires room { 0 < length buffer.old }
    ensures printed { IfOk result (λ talked. (last : EndpointState) × Prints request.now.options (Asks request.now.text.now)
        with_domain last request.now.count (W.contents print.old) (W.contents print.new) talked.status) }
    ensures stopped { OnErr result ((last : EndpointState) × PrintsFront request.now.options (Asks request.now.text.now)
        with_domain last request.now.count (W.contents print.old) (W.contents print.new)) }
    ensures bounded { pipe.new.reads ≤ 1000000 }
{
    let Ok(mut endpoint) = caller(alloc) else {
        return Err(CommandFault::NoMemory);
    };
    match ask_each(alloc, peers, pipe, &mut endpoint, request, buffer, print) {
        Ok(talked) => Ok(talked),
        Err(fault) => Err(fault),
    }
}

/// Reads what another process prints, to the end. Returns whether the end came: `false` if a read failed, or after
/// 1,000,000 reads.
pub fn drain<I: Read>(pipe: &mut Counted<I>, buffer: &mut [u8]) -> bool
    requires reads { pipe.old.reads ≤ 1000000 }
    requires room { 0 < length buffer.old }
    ensures end { result ≡ true → IsAtEnd (I.remaining pipe.new.reader) }
    ensures bounded { pipe.new.reads ≤ 1000000 }
{
    'reads: for _ in 0..MOST_READS {
        match pipe.next(buffer) {
            Ok(0) => return true,
            Ok(_) => {}
            Err(_) => return false,
        }
    }
    false
}

// Reads the rest of what the other process prints, and waits for it to exit.
fn finish<P: OpenProcess, I: Read>(
    child: &mut Child<P>,
    pipe: &mut Counted<I>,
    buffer: &mut [u8],
) -> Status
    requires reads { pipe.old.reads ≤ 1000000 }
    requires room { 0 < length buffer.old }
{
    if !drain(pipe, buffer) {
        return give_up(child);
    }
    match child.wait() {
        Ok(ended) if ended.success() => Status::Completed,
        _ => Status::Failed,
    }
}

// Kills the other process, and waits for it.
fn give_up<P: OpenProcess>(child: &mut Child<P>) -> Status {
    let _ = child.kill();
    let _ = child.wait();
    Status::Failed
}

// Reads the port that the other process prints, and makes the requests there.
fn meet<N: Net + Clock, I: Read, W: Write>(
    alloc: Global,
    net: &N,
    pipe: &mut Counted<I>,
    request: &Request<'_>,
    buffer: &mut [u8],
    print: &mut W,
) -> Result<Talked, CommandFault>
    requires reads { pipe.old.reads ≤ 1000000 }
    requires room { 0 < length buffer.old }
    ensures printed { IfOk result (λ talked. (last : EndpointState) × Prints request.now.options (Asks request.now.text.now)
        with_domain last request.now.count (W.contents print.old) (W.contents print.new) talked.status) }
    ensures stopped { OnErr result ((last : EndpointState) × PrintsFront request.now.options (Asks request.now.text.now)
        with_domain last request.now.count (W.contents print.old) (W.contents print.new)) }
    ensures bounded { pipe.new.reads ≤ 1000000 }
{
    let is_met = Cell::new(false);
    match read_port(alloc, pipe) {
        Ok(port) => talk(
            alloc,
            &mut Calls::new(net, port, Pace::UNBOUNDED, &is_met),
            pipe,
            request,
            buffer,
            print,
        ),
        Err(fault) => Err(fault),
    }
}

// Starts the other process.
fn start<R: Processes>(
    alloc: Global,
    rt: &R,
    program: &str,
    request: &Request<'_>,
) -> Result<Child<R::Started>, CommandFault> {
    let Ok(mut command) = listener(alloc, program, request) else {
        return Err(CommandFault::NoMemory);
    };
    match command.spawn(rt) {
        Ok(child) => Ok(child),
        Err(_) => Err(CommandFault::Program),
    }
}

/// Starts `program` as a second process that listens at any free port, for as many connections and with the same
/// options; makes the requests there, and waits for it to exit. It prints the lines of its own connections; it reads
/// what the other process prints, but does not print it. The other process is killed if it names no port, if a
/// connection to it cannot be made, or if it prints without end.
///
/// An `Err` is `Program` if the process could not be started or named no port (then nothing was printed), `Output` if a
/// line could not be printed, or `NoMemory`. The process has then ended too.
pub fn pair<R: Net + Clock + Processes, W: Write>(
    alloc: Global,
    rt: &R,
    program: &str,
    request: &Request<'_>,
    print: &mut W,
) -> Result<Status, CommandFault>
    ensures printed { IfOk result (PrintsBeside request.now.options (Asks request.now.text.now)
        with_domain request.now.count (W.contents print.old) (W.contents print.new)) }
    ensures stopped { OnErr result ((last : EndpointState) × PrintsFront request.now.options (Asks request.now.text.now)
        with_domain last request.now.count (W.contents print.old) (W.contents print.new)) }
{
    let Ok(mut buffer) = vec![in alloc; 0u8; MOST_PIPED] else {
        return Err(CommandFault::NoMemory);
    };
    let mut child = match start(alloc, rt, program, request) {
        Ok(child) => child,
        Err(fault) => return Err(fault),
    };
    let Some(stdout) = child.stdout.take() else {
        give_up(&mut child);
        return Err(CommandFault::Program);
    };
    let mut pipe = Counted::new(stdout);
    match meet(alloc, rt, &mut pipe, request, buffer.as_mut_slice(), print) {
        Ok(talked) => {
            let ended = if talked.is_whole {
                finish(&mut child, &mut pipe, buffer.as_mut_slice())
            } else {
                give_up(&mut child)
            };
            Ok(talked.status.with(ended))
        }
        Err(fault) => {
            give_up(&mut child);
            Err(fault)
        }
    }
}
