//! The two ends of a connection that carries a load: one sends, the other answers once all of it came.

use crate::end::{self, Came, REGION_BLOCKS, STREAM};
use crate::load::{BLOCK, Load, Way};
use anyhow::{Result, bail, ensure};
use bytes::Bytes;
use iw_endpoint::{Endpoint, Message, Request, Stag};
use std::alloc::Global;
use std::io::{Read, Write};

// The region of the receiving end: the first of its domain.
fn region() -> Stag {
    Stag::from_octets([1, 0, 0, 0])
}

fn post(endpoint: &mut Endpoint, message: Message<Bytes>) -> Result<()> {
    match endpoint.post(STREAM, Request::Message(message)) {
        Ok(()) => Ok(()),
        Err((refusal, _)) => bail!("post: {refusal:?}"),
    }
}

fn post_write(endpoint: &mut Endpoint, number: u32, octets: &Bytes) -> Result<()> {
    let place = number % REGION_BLOCKS;
    post(
        endpoint,
        Message::Write {
            stag: region(),
            to: u64::from(place).saturating_mul(BLOCK as u64),
            octets: octets.clone()?,
        },
    )
}

fn post_end(endpoint: &mut Endpoint) -> Result<()> {
    post(
        endpoint,
        Message::Send {
            octets: Bytes::new(),
            solicited: false,
            invalidate: None,
        },
    )
}

// Writes out all that is due.
fn flush<W: Write>(endpoint: &mut Endpoint, out: &mut Vec<u8>, output: &mut W) -> Result<()> {
    end::gather(endpoint, out)?;
    output.write_all(out.as_slice())?;
    end::work(endpoint)?;
    Ok(())
}

// Writes out each block when it is posted, as the plain copy does.
fn send_blocks<W: Write>(
    endpoint: &mut Endpoint,
    octets: &Bytes,
    blocks: u32,
    out: &mut Vec<u8>,
    output: &mut W,
) -> Result<()> {
    for number in 0..blocks {
        post_write(endpoint, number, octets)?;
        flush(endpoint, out, output)?;
    }
    post_end(endpoint)?;
    flush(endpoint, out, output)
}

// Reads until a message came.
fn hear<R: Read>(endpoint: &mut Endpoint, input: &mut R) -> Result<()> {
    for _ in 0..u64::MAX {
        if let Came::Message = end::read(endpoint, input)? {
            break;
        }
    }
    Ok(())
}

fn copy_out<W: Write>(octets: &[u8], blocks: u32, output: &mut W) -> Result<()> {
    for _ in 0..blocks {
        output.write_all(octets)?;
    }
    Ok(())
}

fn copy_in<R: Read>(blocks: u32, buffer: &mut [u8], input: &mut R) -> Result<()> {
    let mut left = u64::from(blocks).saturating_mul(BLOCK as u64);
    for _ in 0..u64::MAX {
        if left == 0 {
            break;
        }
        let n = input.read(buffer)?;
        ensure!(n > 0, "the other end is gone");
        left = left.saturating_sub(n as u64);
    }
    Ok(())
}

/// The end that sends a load; `None` for a plain copy.
pub(crate) fn sending_end(alloc: Global, load: &Load) -> Result<Option<Endpoint>> {
    match load.way {
        Way::Copied => Ok(None),
        Way::Written { mulpdu, is_framed } => Ok(Some(end::end(alloc, mulpdu, is_framed)?)),
    }
}

/// Sends the blocks of a round, and waits until the other end says that they came.
pub(crate) fn send<R: Read, W: Write>(
    alloc: Global,
    load: &Load,
    octets: &Bytes,
    sender: &mut Option<Endpoint>,
    input: &mut R,
    output: &mut W,
) -> Result<()> {
    match sender {
        None => send_copied(load.blocks, octets.as_slice(), input, output),
        Some(endpoint) => send_written(alloc, load, octets, endpoint, input, output),
    }
}

fn send_copied<R: Read, W: Write>(
    blocks: u32,
    octets: &[u8],
    input: &mut R,
    output: &mut W,
) -> Result<()> {
    copy_out(octets, blocks, output)?;
    let mut answer = [0u8; 16];
    ensure!(input.read(&mut answer)? == 1, "no answer");
    Ok(())
}

fn send_written<R: Read, W: Write>(
    alloc: Global,
    load: &Load,
    octets: &Bytes,
    endpoint: &mut Endpoint,
    input: &mut R,
    output: &mut W,
) -> Result<()> {
    let mut out = Vec::new(alloc);
    send_blocks(endpoint, octets, load.blocks, &mut out, output)?;
    hear(endpoint, input)?;
    end::lend_buffer(alloc, endpoint)
}

// Whether each block of the region that was written to is as it was sent.
fn is_written(endpoint: &Endpoint, stag: Stag, octets: &[u8], blocks: u32) -> bool {
    let Some(all) = endpoint.local(stag) else {
        return false;
    };
    let count = blocks.min(REGION_BLOCKS) as usize;
    all.chunks(BLOCK).take(count).all(|block| block == octets)
}

// Clears the region, so that the next round must write it again.
fn clear(endpoint: &mut Endpoint, stag: Stag) {
    if endpoint.local(stag).is_some() {
        endpoint.local_mut(stag).fill(0);
    }
}

// Receives a round and answers it.
fn serve_round<R: Read, W: Write>(
    alloc: Global,
    load: &Load,
    endpoint: &mut Endpoint,
    stag: Stag,
    octets: &[u8],
    input: &mut R,
    output: &mut W,
) -> Result<()> {
    hear(endpoint, input)?;
    ensure!(
        is_written(endpoint, stag, octets, load.blocks),
        "other octets were written"
    );
    clear(endpoint, stag);
    end::lend_buffer(alloc, endpoint)?;
    post_end(endpoint)?;
    let mut out = Vec::new(alloc);
    flush(endpoint, &mut out, output)
}

fn serve<R: Read, W: Write>(
    alloc: Global,
    load: &Load,
    endpoint: &mut Endpoint,
    octets: &[u8],
    input: &mut R,
    output: &mut W,
) -> Result<()> {
    let length = (REGION_BLOCKS as usize).saturating_mul(BLOCK);
    let stag = end::lend_region(endpoint, vec![in alloc; 0u8; length]?)?;
    for _ in 0..load.rounds {
        serve_round(alloc, load, endpoint, stag, octets, input, output)?;
    }
    Ok(())
}

/// Receives a load, and answers each round once it came.
pub(crate) fn receive<R: Read, W: Write>(
    alloc: Global,
    load: &Load,
    octets: &Bytes,
    input: &mut R,
    output: &mut W,
) -> Result<()> {
    match load.way {
        Way::Copied => receive_copied(alloc, load, input, output),
        Way::Written { mulpdu, is_framed } => {
            let mut endpoint = end::end(alloc, mulpdu, is_framed)?;
            serve(alloc, load, &mut endpoint, octets.as_slice(), input, output)
        }
    }
}

fn receive_copied<R: Read, W: Write>(
    alloc: Global,
    load: &Load,
    input: &mut R,
    output: &mut W,
) -> Result<()> {
    let mut buffer = vec![in alloc; 0u8; BLOCK]?;
    for _ in 0..load.rounds {
        copy_in(load.blocks, buffer.as_mut_slice(), input)?;
        output.write_all(&[1])?;
    }
    Ok(())
}
