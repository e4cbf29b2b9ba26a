//! Two streams without an endpoint, joined in memory: for a program that keeps its regions and its streams itself.

use anyhow::{Result, bail};
use bytes::Bytes;
use iw_memory::Memory;
use iw_octets::{MAX_PLACE, Message};
use iw_stream::{Config, Establishment, PrivateData, Request, Role, Step, Stream};
use std::alloc::Global;
use std::rt::Runtime;

const DOMAIN: u8 = 1;

const TEXT: &[u8] = b"no endpoint";

// A stream that is open at once, without start-up frames.
fn open(alloc: Global) -> Result<Stream> {
    let config = Config {
        markers: true,
        crc: true,
        establishment: Establishment::Plain,
        private: PrivateData::new(),
    };
    Ok(Stream::new(alloc, DOMAIN, Role::Preset, config)?)
}

fn post_recv(stream: &mut Stream, buffer: Vec<u8>) -> Result<()> {
    match stream.post_recv(buffer) {
        Ok(()) => Ok(()),
        Err((refusal, _)) => bail!("post_recv: {refusal}"),
    }
}

fn post_send(stream: &mut Stream, octets: Bytes) -> Result<()> {
    let send = Message::Send {
        octets,
        solicited: false,
        invalidate: None,
    };
    match stream.post(Request::Message(send)) {
        Ok(()) => Ok(()),
        Err((refusal, _)) => bail!("post: {refusal}"),
    }
}

// Emits the next frame of `from`, and delivers it to `to` with the sequence number of its first octet.
fn pass(from: &mut Stream, to: &mut Stream, memory: &Memory, wire: &mut Vec<u8>) -> Result<()> {
    let place = from.sent();
    if place > MAX_PLACE {
        bail!("too many octets were emitted");
    }
    from.emit(memory, wire)?;
    to.deliver((place % (1 << 32)) as u32, wire.as_slice())?;
    Ok(())
}

// Works up to a message that came whole, and returns how many octets it has.
fn receive(stream: &mut Stream, memory: &mut Memory) -> Result<Option<usize>> {
    for _ in 0..u64::MAX {
        if stream.in_order_point() > MAX_PLACE {
            bail!("too many octets came");
        }
        match stream.work(memory)? {
            Step::Received { len, .. } => return Ok(Some(len)),
            Step::Idle => break,
            _ => {}
        }
    }
    Ok(None)
}

// `receiver` posts a buffer and `sender` a message, which goes from one to the other in a frame.
fn carry(
    alloc: Global,
    sender: &mut Stream,
    receiver: &mut Stream,
    memory: &mut Memory,
) -> Result<Option<usize>> {
    let mut wire = Vec::new(alloc);
    post_recv(receiver, vec![in alloc; 0; 64]?)?;
    post_send(sender, Bytes::copy_from_slice(alloc, TEXT)?)?;
    pass(sender, receiver, memory, &mut wire)?;
    receive(receiver, memory)
}

fn send_one(alloc: Global) -> Result<Option<usize>> {
    let mut memory = Memory::new(alloc);
    let mut sender = open(alloc)?;
    let mut receiver = open(alloc)?;
    carry(alloc, &mut sender, &mut receiver, &mut memory)
}

/// Sends a message from one stream to another, and prints how many octets came.
pub(crate) fn talk<R: Runtime + AllocGlobal>(rt: &R) -> Result<()> {
    let Some(len) = send_one(rt.alloc())? else {
        bail!("no message came");
    };
    println!(rt; "without an endpoint: received a message of {len} octets")?;
    Ok(())
}
