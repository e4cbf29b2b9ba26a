use crate::end::Stop;
use crate::ends::Ends;
use crate::load::Load;
use bytes::Bytes;
use std::alloc::Global;

// The messages have, by turns, the octets from 0 on and those from here on.
const SHIFT: usize = 64;

// The octets of the messages, by turns.
fn payloads(alloc: Global, load: Load, octets: &[u8]) -> Result<(Bytes, Bytes), Stop> {
    if octets.len() < SHIFT || octets.len() - SHIFT != load.message {
        return Err(Stop);
    }
    let all = Bytes::copy_from_slice(alloc, octets)?;
    Ok((all.slice(..load.message)?, all.slice(SHIFT..)?))
}

/// What is repeated.
#[derive(Clone, Copy)]
pub(crate) enum Work {
    /// Rounds of messages are carried from the streams to the others.
    Carry,
    /// The frames of one round are delivered.
    Receive,
    /// The frames of one round are delivered to new streams, except the first of each `gap` deliveries.
    Window,
}

/// Does the work with new streams. Returns how many octets were placed; for `Window`, how many deliveries there were.
pub(crate) fn perform(alloc: Global, load: &Load, octets: &[u8], work: Work) -> Result<u64, Stop> {
    let load = *load;
    let (even, odd) = payloads(alloc, load, octets)?;
    let mut ends = Ends::new(alloc, load, octets)?;
    match work {
        Work::Carry => carry(&mut ends, load, &even, &odd),
        Work::Receive => receive(&mut ends, load, &even),
        Work::Window => window(alloc, &mut ends, load, &even),
    }
}

fn carry(ends: &mut Ends, load: Load, even: &Bytes, odd: &Bytes) -> Result<u64, Stop> {
    let mut placed = 0u64;
    for _ in 0..load.rounds / 2 {
        placed = placed.wrapping_add(ends.carry(even, 0)?);
        placed = placed.wrapping_add(ends.carry(odd, SHIFT as u64)?);
    }
    Ok(placed)
}

fn receive(ends: &mut Ends, load: Load, octets: &Bytes) -> Result<u64, Stop> {
    ends.emit(octets)?;
    let mut placed = 0u64;
    for round in 0..load.rounds {
        let more = if load.in_place {
            ends.read_again()?
        } else {
            ends.repeat(round as u64)?
        };
        placed = placed.wrapping_add(more);
    }
    ends.compare(octets)?;
    Ok(placed)
}

fn window(alloc: Global, ends: &mut Ends, load: Load, octets: &Bytes) -> Result<u64, Stop> {
    ends.emit(octets)?;
    ends.lie();
    let mut deliveries = 0u64;
    for _ in 0..load.rounds {
        deliveries = deliveries.wrapping_add(ends.take_window(alloc)?);
    }
    Ok(deliveries)
}
