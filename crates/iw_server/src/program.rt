//! What the program does with the words of its command line.

ghost use Rattle.std.specs.Prelude.{◌≡◌, ◌≢◌};

use crate::options::{Request, USAGE, WordsRefusal, request_of};
use crate::outlet::Outlet;
use crate::serving::{ServeFault, Tally, serve};
use crate::sockets::Sockets;
use crate::terms::Terms;
use crate::workers::lead;
use std::net::Net;
use std::process::{Processes, SystemProcess};
use std::random::RandomSource;
use std::rt::Runtime;
use std::{env, io};

// The words behind the program's name.
fn words<R: Runtime + AllocGlobal>(rt: &R) -> io::Result<Vec<String>> {
    let mut words = Vec::new(rt.alloc());
    for word in env::args(rt)?.skip(1) {
        words.push(word)?;
    }
    Ok(words)
}

// The exit status of a server that served all its connections: 0 only if none of them failed.
fn status_of(tally: Tally) -> u8
    ensures completed { tally.failed ≡ 0 → result ≡ 0 }
    ensures failed { tally.failed ≢ 0 → result ≡ 1 }
{
    if tally.failed == 0 { 0 } else { 1 }
}

// The exit status of a server that stopped: 2 only if memory ran out before the first connection.
fn status_of_fault(fault: ServeFault) -> u8
    ensures memory { fault ≡ ServeFault.NoMemory → result ≡ 2 }
    ensures failed { fault ≢ ServeFault.NoMemory → result ≡ 1 }
{
    match fault {
        ServeFault::NoMemory => 2,
        ServeFault::Host | ServeFault::NumbersSpent => 1,
    }
}

// Serves so many connections, and returns the exit status.
fn serve_at<R: Runtime + AllocGlobal + Net + RandomSource>(
    rt: &R,
    count: u64,
    terms: Terms,
    sockets: &mut Sockets<'_, R>,
) -> io::Result<u8> {
    let bound = sockets.port()?;
    println!(rt; "port {bound}")?;
    let mut output = Outlet::new(io::writer(rt));
    match serve(rt.alloc(), terms, count, sockets, &mut output) {
        Ok(tally) => {
            tell_unprinted(rt, tally.unprinted)?;
            Ok(status_of(tally))
        }
        // Its parent is gone, and with it who reads this.
        Err(_) if sockets.is_orphaned() => Ok(0),
        Err(fault) => {
            eprintln!(rt; "server: {fault}")?;
            Ok(status_of_fault(fault))
        }
    }
}

// Tells how many lines standard output did not take.
fn tell_unprinted<R: Runtime>(rt: &R, lines: u64) -> io::Result<()> {
    if lines > 0 {
        eprintln!(rt; "server: {lines} lines were left out: standard output did not take them")?;
    }
    Ok(())
}

// Serves at a port of its own.
fn listen<R: Runtime + AllocGlobal + Net + RandomSource>(
    rt: &R,
    count: u64,
    terms: Terms,
    port: u16,
) -> io::Result<u8> {
    let mut sockets = Sockets::bind(rt.alloc(), rt, rt, port)?;
    let count = if count == 0 { u64::MAX } else { count };
    serve_at(rt, count, terms, &mut sockets)
}

// Serves at a port that others share.
fn work<R: Runtime + AllocGlobal + Net + RandomSource>(
    rt: &R,
    terms: Terms,
    port: u16,
) -> io::Result<u8> {
    let mut sockets = Sockets::share(rt.alloc(), rt, rt, port)?;
    serve_at(rt, u64::MAX, terms, &mut sockets)
}

fn refuse<R: Runtime>(rt: &R, refusal: WordsRefusal) -> io::Result<u8> {
    match refusal {
        WordsRefusal::Words => eprint!(rt; "{USAGE}")?,
        WordsRefusal::Processes | WordsRefusal::Count => eprintln!(rt; "server: {refusal}")?,
    }
    Ok(2)
}

fn try_run<R: Runtime + AllocGlobal + Net + RandomSource + Processes<Started = SystemProcess>>(
    rt: &R,
) -> io::Result<u8> {
    let words = words(rt)?;
    match request_of(&words) {
        Ok(Request::Help) => {
            print!(rt; "{USAGE}")?;
            Ok(0)
        }
        Ok(Request::Serve { count, terms, port }) => listen(rt, count, terms, port),
        Ok(Request::Lead { crew, terms, port }) => lead(rt, crew, terms, port),
        Ok(Request::Work { terms, port }) => work(rt, terms, port),
        Err(refusal) => refuse(rt, refusal),
    }
}

/// Does what this process's command line asks for, and returns the exit status. What goes wrong is told at standard error.
pub fn run<R: Runtime + AllocGlobal + Net + RandomSource + Processes<Started = SystemProcess>>(
    rt: &R,
) -> u8 {
    match try_run(rt) {
        Ok(status) => status,
        Err(error) => {
            let _ = eprintln!(rt; "server: {error}");
            let is_full = error.kind() == io::ErrorKind::OutOfMemory;
            if is_full { 2 } else { 1 }
        }
    }
}
