//! Streams that come in several orders: delivered, handed out and released, for the driver in bench/ranges.
#![tactic(auto)]

ghost use Rattle.std.specs.Prelude.{◌≡◌, ℕ, ◌≤◌, ◌<◌, ◌^◌, length, IfOk};
ghost use Rattle.bench_ranges.specs.Whole.{IsWhole};

use iw_ranges::{Islands, NoMemory};
use std::alloc::Global;

const WINDOW: usize = 131_072;

const ISLANDS: u64 = 1_000;

/// Where the islands of `past_islands` begin.
const FAR: u64 = 200_000;

fn started(alloc: Global) -> Result<Islands, NoMemory>
    ensures { IfOk result (λ islands. IsWhole islands.arrived) }
{
    Islands::new(alloc)
}

fn deliver(islands: &mut Islands, place: u64, octets: &[u8]) -> Result<(), NoMemory>
    requires { IsWhole islands.old.arrived }
    ensures { IsWhole islands.new.arrived }
{
    islands.add(place, octets)?;
    Ok(())
}

/// Hands out what came in order, and returns how many octets that was.
fn consume(islands: &mut Islands) -> u64
    requires { IsWhole islands.old.arrived }
    ensures { IsWhole islands.new.arrived }
{
    let from = islands.floor();
    let to = islands.missing();
    let mut count = 0u64;
    for part in islands.parts(from, to) {
        count = count.wrapping_add(part.len() as u64);
    }
    if to <= 1 << 62 {
        islands.advance(to);
    }
    count
}

/// Each segment as it comes.
fn in_order(alloc: Global, octets: &[u8], segment: usize) -> Result<u64, NoMemory>
    requires { 0 < segment }
{
    let mut islands = started(alloc)?;
    let mut place = 0u64;
    let mut count = 0u64;
    for piece in octets.chunks(segment) {
        deliver(&mut islands, place, piece)?;
        count = count.wrapping_add(consume(&mut islands));
        place = place.wrapping_add(piece.len() as u64);
    }
    Ok(count)
}

/// The second segment of each pair before the first.
fn swapped(alloc: Global, octets: &[u8], segment: usize) -> Result<u64, NoMemory>
    requires { (0 < segment) × (segment < 2 ^ 32) }
{
    let mut islands = started(alloc)?;
    let mut place = 0u64;
    let mut count = 0u64;
    for pair in octets.chunks(2 * segment) {
        let (first, second) = pair.split_at(segment.min(pair.len()));
        deliver(&mut islands, place.wrapping_add(first.len() as u64), second)?;
        count = count.wrapping_add(consume(&mut islands));
        deliver(&mut islands, place, first)?;
        count = count.wrapping_add(consume(&mut islands));
        place = place.wrapping_add(pair.len() as u64);
    }
    Ok(count)
}

/// The segments of a window with odd numbers, or those with even numbers.
fn every_second(
    islands: &mut Islands,
    place: u64,
    window: &[u8],
    segment: usize,
    odd: bool,
) -> Result<u64, NoMemory>
    requires whole { IsWhole islands.old.arrived }
    requires some { 0 < segment }
    ensures { IsWhole islands.new.arrived }
{
    let mut at = place;
    let mut turn = false;
    let mut count = 0u64;
    for piece in window.chunks(segment) {
        if turn == odd {
            deliver(islands, at, piece)?;
            count = count.wrapping_add(consume(islands));
        }
        turn = !turn;
        at = at.wrapping_add(piece.len() as u64);
    }
    Ok(count)
}

/// In each window of 128 KiB, every second segment first.
fn halves(alloc: Global, octets: &[u8], segment: usize) -> Result<u64, NoMemory>
    requires { 0 < segment }
{
    let mut islands = started(alloc)?;
    let mut place = 0u64;
    let mut count = 0u64;
    for window in octets.chunks(WINDOW) {
        count = count.wrapping_add(every_second(&mut islands, place, window, segment, true)?);
        count = count.wrapping_add(every_second(&mut islands, place, window, segment, false)?);
        place = place.wrapping_add(window.len() as u64);
    }
    Ok(count)
}

/// Segments of one octet in order, while islands of one octet wait further ahead.
fn past_islands(alloc: Global, octets: &[u8], islands_too: bool) -> Result<u64, NoMemory> {
    let mut islands = started(alloc)?;
    if islands_too {
        for i in 0..ISLANDS {
            deliver(&mut islands, FAR + 2 * i, b"x")?;
        }
    }
    let mut place = 0u64;
    let mut count = 0u64;
    for piece in octets.chunks(1) {
        deliver(&mut islands, place, piece)?;
        count = count.wrapping_add(consume(&mut islands));
        place = place.wrapping_add(1);
    }
    Ok(count)
}

#[unsafe(no_mangle)]
pub extern "C" fn ranges_in_order(alloc: Global, octets: &[u8], segment: usize) -> u64
    requires { 0 < segment }
{
    in_order(alloc, octets, segment).unwrap_or(0)
}

#[unsafe(no_mangle)]
pub extern "C" fn ranges_swapped(alloc: Global, octets: &[u8], segment: usize) -> u64
    requires { (0 < segment) × (segment < 2 ^ 32) }
{
    swapped(alloc, octets, segment).unwrap_or(0)
}

#[unsafe(no_mangle)]
pub extern "C" fn ranges_halves(alloc: Global, octets: &[u8], segment: usize) -> u64
    requires { 0 < segment }
{
    halves(alloc, octets, segment).unwrap_or(0)
}

#[unsafe(no_mangle)]
pub extern "C" fn ranges_past_islands(alloc: Global, octets: &[u8], islands_too: bool) -> u64 {
    past_islands(alloc, octets, islands_too).unwrap_or(0)
}
