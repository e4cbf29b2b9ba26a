//! Jobs that users of the endpoint wait for, on inputs that a seed determines (bench/workloads.txt).
//!
//! `bench_jobs NAME SEED SIZE` does a job and prints a digest of all its results; `bench_jobs connections SEED SIZE ALIVE
//! COMMANDS` has so many connections open at a time, of so many commands each. With no arguments it does each job once, in
//! small.
#![tactic(auto)]

mod replay;

use anyhow::{Context, Result, bail};
use bench_traffic::connections::{Load, MANY};
use bench_traffic::{awkward, connections, lossy, storage};
use std::alloc::Global;
use std::rt::Runtime;

/// The jobs, and a small size of each.
const JOBS: [(&str, u32); 6] = [
    ("storage", 1),
    ("storage-crc", 1),
    ("lossy", 2),
    ("replay", 1),
    ("connections", 20),
    ("awkward", 1),
];

fn number(word: &str) -> Result<u32> {
    Ok(word.parse::<u32>().context(format_args!("{word:?}"))?)
}

// Does a job. Returns the digest of its results.
fn job(alloc: Global, name: &str, seed: u32, size: u32) -> Result<u64> {
    match name {
        "storage" => storage::run(alloc, seed, size, false),
        "storage-crc" => storage::run(alloc, seed, size, true),
        "lossy" => lossy::run(alloc, seed, size),
        "replay" => replay::run(alloc, seed, size),
        "connections" => connections::run(alloc, seed, size, MANY),
        "awkward" => awkward::run(alloc, seed, size),
        _ => bail!("no job is named {name}"),
    }
}

fn report<R: Runtime + AllocGlobal>(rt: &R, name: &str, seed: u32, size: u32) -> Result<()> {
    let digest = job(rt.alloc(), name, seed, size)?;
    println!(rt; "{name}: {digest:016x}")?;
    Ok(())
}

// Connections under a load of these words.
fn report_connections<R: Runtime + AllocGlobal>(
    rt: &R,
    seed: u32,
    size: u32,
    load: Load,
) -> Result<()> {
    let digest = connections::run(rt.alloc(), seed, size, load)?;
    println!(rt; "connections: {digest:016x}")?;
    Ok(())
}

fn follow<R: Runtime + AllocGlobal>(rt: &R, words: &[String]) -> Result<()> {
    match words {
        [_] => {
            for (name, size) in JOBS {
                report(rt, name, 1, size)?;
            }
            Ok(())
        }
        [_, name, seed, size] => report(
            rt,
            name.as_str(),
            number(seed.as_str())?,
            number(size.as_str())?,
        ),
        [_, name, seed, size, alive, commands] if name.as_str() == "connections" => {
            let load = Load {
                alive: number(alive.as_str())? as usize,
                commands: number(commands.as_str())?,
            };
            report_connections(rt, number(seed.as_str())?, number(size.as_str())?, load)
        }
        _ => bail!("bench_jobs NAME SEED SIZE, or bench_jobs connections SEED SIZE ALIVE COMMANDS"),
    }
}

fn run<R: Runtime + AllocGlobal>(rt: &R) -> Result<()> {
    let words: Vec<String> = std::env::args(rt)?.collect(rt.alloc())?;
    follow(rt, words.as_slice())
}

fn main(rt: HostRuntime) -> Result<()> {
    run(&rt)
}
