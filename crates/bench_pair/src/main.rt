//! Carries loads between two processes over loopback TCP, as Writes and as a plain copy.
//!
//! `bench_pair send NAME BLOCKS ROUNDS` prints its port, sends BLOCKS blocks a round over the first connection, and
//! prints the nanoseconds that each round took, a line for each; `bench_pair receive PORT NAME BLOCKS ROUNDS` receives
//! them. With no arguments it carries a few blocks each way between two processes, in two rounds, and prints which
//! came.
#![tactic(auto)]

mod carry;
mod end;
mod load;

use anyhow::{Context, Result, bail};
use bytes::Bytes;
use load::{Load, WAYS, Way};
use std::alloc::Global;
use std::net::{Ipv4Addr, Net, OpenListener, OpenStream, TcpListener, TcpStream};
use std::process::{Child, Command, Processes, Stdio};
use std::rt::Runtime;
use std::time::Instant;

// This program's own file.
const SELF: &str = "/proc/self/exe";

// How many blocks are carried in a round, and in how many rounds, if no time is measured.
const FEW: &str = "20";

const TWICE: &str = "2";

fn load_of(name: &str, blocks: &str, rounds: &str) -> Result<Load> {
    let blocks = number(blocks)?;
    let rounds = number(rounds)?;
    match Way::named(name) {
        Some(way) => Ok(Load {
            way,
            blocks,
            rounds,
        }),
        None => bail!("no load is named {name}"),
    }
}

fn number(word: &str) -> Result<u32> {
    Ok(word.parse::<u32>().context(format_args!("{word:?}"))?)
}

fn payload<R: AllocGlobal>(rt: &R) -> Result<Bytes> {
    let octets = load::block(rt.alloc())?;
    Ok(Bytes::copy_from_slice(rt.alloc(), octets.as_slice())?)
}

fn add_words(command: &mut Command, port: &str, name: &str) -> Result<()> {
    for word in ["receive", port, name, FEW, TWICE] {
        command.arg(word)?;
    }
    command.stdin(Stdio::null());
    Ok(())
}

// The command that starts the receiving process.
fn command(alloc: Global, port: &str, name: &str) -> Result<Command> {
    let mut command = Command::new(alloc, SELF)?;
    add_words(&mut command, port, name)?;
    Ok(command)
}

fn start<R: Runtime + AllocGlobal + Processes>(
    rt: &R,
    port: u16,
    name: &str,
) -> Result<Child<R::Started>> {
    let port = format!(in rt.alloc(); "{port}")?;
    let mut command = command(rt.alloc(), port.as_str(), name)?;
    Ok(command.spawn(rt)?)
}

// Carries a load over the next connection. Returns how many nanoseconds each round took.
fn carry_over<R: Runtime + AllocGlobal + Net>(
    rt: &R,
    listener: &R::Listener,
    load: &Load,
) -> Result<Vec<u128>> {
    let (mut stream, _) = listener.accept()?;
    send_over(rt, &mut stream, load)
}

fn send_over<R: Runtime + AllocGlobal + Net>(
    rt: &R,
    stream: &mut R::Stream,
    load: &Load,
) -> Result<Vec<u128>> {
    let octets = payload(rt)?;
    stream.set_nodelay(true)?;
    let mut output = stream.try_clone()?;
    timed(rt, load, &octets, stream, &mut output)
}

fn timed<R: Runtime + AllocGlobal + Net>(
    rt: &R,
    load: &Load,
    octets: &Bytes,
    input: &mut R::Stream,
    output: &mut R::Stream,
) -> Result<Vec<u128>> {
    let mut sender = carry::sending_end(rt.alloc(), load)?;
    let mut times = Vec::new(rt.alloc());
    for _ in 0..load.rounds {
        let start = Instant::now(rt)?;
        carry::send(rt.alloc(), load, octets, &mut sender, input, output)?;
        times.push(start.elapsed(rt)?.as_nanos())?;
    }
    Ok(times)
}

fn bind<R: Runtime + Net>(rt: &R) -> Result<R::Listener> {
    Ok(TcpListener::bind(rt, (Ipv4Addr::LOCALHOST, 0u16))?)
}

// Prints a port, carries a load to the process that connects there, and prints the times.
fn send<R: Runtime + AllocGlobal + Net>(rt: &R, load: &Load) -> Result<()> {
    let listener = bind(rt)?;
    let port = listener.local_addr()?.port();
    println!(rt; "{port}")?;
    let times = carry_over(rt, &listener, load)?;
    for time in times.iter() {
        println!(rt; "{time}")?;
    }
    Ok(())
}

fn carry_to<R: Runtime + AllocGlobal + Net + Processes>(
    rt: &R,
    listener: &R::Listener,
    child: &mut Child<R::Started>,
    load: &Load,
) -> Result<bool> {
    carry_over(rt, listener, load)?;
    Ok(child.wait()?.success())
}

// Carries a load to a second process. Returns whether that process completed.
fn carry_beside<R: Runtime + AllocGlobal + Net + Processes>(
    rt: &R,
    listener: &R::Listener,
    name: &str,
    load: &Load,
) -> Result<bool> {
    let port = listener.local_addr()?.port();
    let mut child = start(rt, port, name)?;
    carry_to(rt, listener, &mut child, load)
}

// Carries a few blocks to a second process.
fn try_out<R: Runtime + AllocGlobal + Net + Processes>(rt: &R, name: &str) -> Result<()> {
    let load = load_of(name, FEW, TWICE)?;
    let listener = bind(rt)?;
    if carry_beside(rt, &listener, name, &load)? {
        println!(rt; "{name}: {FEW} blocks came twice")?;
        return Ok(());
    }
    bail!("{name}: the receiving process failed")
}

fn take_over<R: Runtime + AllocGlobal + Net>(
    rt: &R,
    stream: &mut R::Stream,
    load: &Load,
) -> Result<()> {
    let octets = payload(rt)?;
    stream.set_nodelay(true)?;
    let mut output = stream.try_clone()?;
    carry::receive(rt.alloc(), load, &octets, stream, &mut output)
}

fn receive<R: Runtime + AllocGlobal + Net>(rt: &R, port: &str, load: &Load) -> Result<()> {
    let port = port.parse::<u16>().context(format_args!("{port:?}"))?;
    let mut stream = TcpStream::connect(rt, (Ipv4Addr::LOCALHOST, port))?;
    take_over(rt, &mut stream, load)
}

fn try_all<R: Runtime + AllocGlobal + Net + Processes>(rt: &R) -> Result<()> {
    for name in WAYS {
        try_out(rt, name)?;
    }
    Ok(())
}

fn run<R: Runtime + AllocGlobal + Net + Processes>(rt: &R) -> Result<()> {
    let words: Vec<String> = std::env::args(rt)?.collect(rt.alloc())?;
    follow(rt, words.as_slice())
}

fn follow<R: Runtime + AllocGlobal + Net + Processes>(rt: &R, words: &[String]) -> Result<()> {
    match words {
        [_] => try_all(rt),
        [_, _, name, blocks, rounds] => send(
            rt,
            &load_of(name.as_str(), blocks.as_str(), rounds.as_str())?,
        ),
        [_, _, port, name, blocks, rounds] => receive(
            rt,
            port.as_str(),
            &load_of(name.as_str(), blocks.as_str(), rounds.as_str())?,
        ),
        _ => bail!("send NAME BLOCKS ROUNDS, or receive PORT NAME BLOCKS ROUNDS"),
    }
}

fn main(rt: HostRuntime) -> Result<()> {
    run(&rt)
}
