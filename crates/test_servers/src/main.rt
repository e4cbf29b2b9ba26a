//! Servers of many connections. With arguments it is `server` itself, or, with `ask PORT COUNT`, peers that come to a server one after
//! the other. Without any it starts itself in the shell scripts of `rows`, and prints what they write. Its tests: 10,000 connections
//! at once in memory, whose sockets move few octets at a time; silent ones, and ones whose socket fails; some over TCP; and the words
//! of the program's command line.
#![tactic(auto)]

mod asking;
#[cfg(test)]
mod crowd;
#[cfg(test)]
mod loopback;
#[cfg(test)]
mod many;
mod peer;
mod rows;
#[cfg(test)]
mod words;

use asking::ask;
use rows::run_rows;
use std::io;
use std::net::Net;
use std::process::{ExitCode, Processes, SystemProcess};
use std::random::RandomSource;
use std::rt::Runtime;

// The words of this process's command line, its name first.
fn read_words<R: Runtime + AllocGlobal>(rt: &R) -> io::Result<Vec<String>> {
    let mut words = Vec::new(rt.alloc());
    for word in std::env::args(rt)? {
        words.push(word)?;
    }
    Ok(words)
}

fn run<R: Runtime + AllocGlobal + Net + RandomSource + Processes<Started = SystemProcess>>(
    rt: &R,
) -> anyhow::Result<u8> {
    let words = read_words(rt)?;
    match words.as_slice() {
        [program] => {
            run_rows(rt, program.as_str())?;
            Ok(0)
        }
        [_, word, port, count] if word.as_str() == "ask" => {
            ask(rt, port.as_str().parse()?, count.as_str().parse()?)?;
            Ok(0)
        }
        _ => Ok(iw_server::run(rt)),
    }
}

fn main(rt: HostRuntime) -> anyhow::Result<ExitCode> {
    Ok(ExitCode::from(run(&rt)?))
}
