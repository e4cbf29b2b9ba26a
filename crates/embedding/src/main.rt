//! A program around two endpoints, joined in memory as two programs would be by a socket.
//!
//! `a` opens the connection. `b` accepts it and names in its private data the region that `a` may use. `a` writes
//! there, sends a message, and reads back what it wrote. Then it invalidates the region by a Send and reads from it all
//! the same: `b` ends the stream by a Terminate, and each end gets back what it had posted. Then `c` opens a connection to
//! `d`, which gets the octets of a message out of order, and hands them to its endpoint with their sequence numbers. Each
//! end prints what it does. At last a message goes from one stream to another without an endpoint.
#![tactic(auto)]

mod alone;
mod end;
mod numbered;

use anyhow::{Result, bail};
use bytes::Bytes;
use end::End;
use iw_endpoint::{Message, ReadRequest, Request, Rights, Role, Stag};
use numbered::NumberedEnd;
use std::alloc::Global;
use std::collections::VecDeque;
use std::rt::Runtime;

// What a peer may do with a region.
const SHARED: Rights = Rights {
    write: true,
    read: true,
    sink: false,
    invalidate: true,
};

const SINK: Rights = Rights {
    write: false,
    read: false,
    sink: true,
    invalidate: false,
};

const TEXT: &[u8] = b"remote memory";

// Carries what one end has to write to the other. Returns whether there was anything.
fn pass<R: Runtime + AllocGlobal>(
    rt: &R,
    from: &mut End,
    to: &mut End,
    wire: &mut VecDeque<u8>,
) -> Result<bool> {
    let went = from.is_writable(rt, wire)?;
    for _ in 0..u64::MAX {
        if wire.is_empty() {
            break;
        }
        to.is_readable(rt, wire)?;
    }
    Ok(went)
}

// Carries what both ends have to write to the other, until neither has anything.
fn carry<R: Runtime + AllocGlobal>(rt: &R, a: &mut End, b: &mut End) -> Result<()> {
    let mut wire = VecDeque::new(rt.alloc());
    for _ in 0..u64::MAX {
        let came = pass(rt, a, b, &mut wire)?;
        let went = pass(rt, b, a, &mut wire)?;
        if !came && !went {
            return Ok(());
        }
    }
    Ok(())
}

fn write(stag: Stag, octets: Bytes) -> Request<Bytes> {
    Request::Message(Message::Write {
        stag,
        to: 0,
        octets,
    })
}

fn send(octets: Bytes, invalidate: Option<Stag>) -> Request<Bytes> {
    Request::Message(Message::Send {
        octets,
        solicited: false,
        invalidate,
    })
}

// A Read of the text, from the peer's region into one of this end's.
fn read(sink: Stag, source: Stag) -> Request<Bytes> {
    Request::Read(ReadRequest {
        sink,
        sink_to: 0,
        size: TEXT.len() as u32,
        source,
        source_to: 0,
    })
}

// `b` offers a region, and posts a buffer for a message.
fn prepare(alloc: Global, b: &mut End) -> Result<Stag> {
    let shared = b.register(vec![in alloc; 0; 16]?, SHARED)?;
    b.offer(shared);
    b.post_recv(vec![in alloc; 0; 64]?)?;
    Ok(shared)
}

// `a` posts a Write to the region that it was offered, a Send, and a Read of what it wrote.
fn post(alloc: Global, a: &mut End) -> Result<Stag> {
    let Some(offered) = a.offered() else {
        bail!("no region was offered");
    };
    let sink = a.register(vec![in alloc; 0; 16]?, SINK)?;
    a.post(write(offered, Bytes::copy_from_slice(alloc, TEXT)?))?;
    a.post(send(Bytes::copy_from_slice(alloc, b"it is written")?, None))?;
    a.post(read(sink, offered))?;
    Ok(sink)
}

// `a` posts a Send that invalidates the region, and a Read from it.
fn overreach(alloc: Global, a: &mut End, sink: Stag) -> Result<()> {
    let Some(offered) = a.offered() else {
        bail!("no region was offered");
    };
    let words = Bytes::copy_from_slice(alloc, b"it is done with")?;
    a.post(send(words, Some(offered)))?;
    a.post(read(sink, offered))
}

fn talk<R: Runtime + AllocGlobal>(rt: &R, a: &mut End, b: &mut End) -> Result<()> {
    let shared = prepare(rt.alloc(), b)?;
    carry(rt, a, b)?;
    let sink = post(rt.alloc(), a)?;
    carry(rt, a, b)?;
    a.show(rt, sink)?;
    b.show(rt, shared)?;
    overreach(rt.alloc(), a, sink)?;
    carry(rt, a, b)?;
    a.closed(rt)?;
    b.closed(rt)
}

// Carries what `c` has to write to `d`: the back of it comes before the front, which has this many octets at most.
fn pass_reversed<R: Runtime + AllocGlobal>(
    rt: &R,
    c: &mut End,
    d: &mut NumberedEnd,
    most: usize,
    wire: &mut Vec<u8>,
) -> Result<()> {
    wire.clear();
    c.is_writable(rt, wire)?;
    let middle = wire.len().min(most);
    let (front, back) = wire.as_slice().split_at(middle);
    d.back_came_first(rt, front, back)
}

// Carries what `d` has to write to `c`.
fn answer<R: Runtime + AllocGlobal>(
    rt: &R,
    d: &mut NumberedEnd,
    c: &mut End,
    wire: &mut Vec<u8>,
) -> Result<()> {
    d.is_writable(rt, wire)?;
    let mut rest = wire.as_slice();
    for _ in 0..u64::MAX {
        if rest.is_empty() {
            break;
        }
        c.is_readable(rt, &mut rest)?;
    }
    Ok(())
}

// Carries what `c` has to write to `d`, which reads it. Then `c` is gone.
fn read_rest<R: Runtime + AllocGlobal>(
    rt: &R,
    c: &mut End,
    d: &mut NumberedEnd,
    wire: &mut Vec<u8>,
) -> Result<()> {
    wire.clear();
    c.is_writable(rt, wire)?;
    c.closed(rt)?;
    let mut rest = wire.as_slice();
    d.is_readable(rt, &mut rest)?;
    d.is_readable(rt, &mut rest)
}

// `c` opens a connection to `d`, and sends two messages, the second of which `d` reads from its socket.
fn talk_by_numbers<R: Runtime + AllocGlobal>(
    rt: &R,
    c: &mut End,
    d: &mut NumberedEnd,
) -> Result<()> {
    let mut wire = Vec::new(rt.alloc());
    d.post_recv(vec![in rt.alloc(); 0; 64]?)?;
    pass_reversed(rt, c, d, 10, &mut wire)?;
    answer(rt, d, c, &mut wire)?;
    c.post(send(Bytes::copy_from_slice(rt.alloc(), TEXT)?, None))?;
    pass_reversed(rt, c, d, 10, &mut wire)?;
    d.post_recv(vec![in rt.alloc(); 0; 64]?)?;
    c.post(send(Bytes::copy_from_slice(rt.alloc(), TEXT)?, None))?;
    read_rest(rt, c, d, &mut wire)
}

fn run_in_order<R: Runtime + AllocGlobal>(rt: &R) -> Result<()> {
    let mut a = End::open(rt.alloc(), "a", Role::Initiator)?;
    let mut b = End::open(rt.alloc(), "b", Role::Responder)?;
    talk(rt, &mut a, &mut b)
}

fn run_out_of_order<R: Runtime + AllocGlobal>(rt: &R) -> Result<()> {
    let mut c = End::open(rt.alloc(), "c", Role::Initiator)?;
    let mut d = NumberedEnd::open(rt.alloc(), "d")?;
    talk_by_numbers(rt, &mut c, &mut d)
}

fn run<R: Runtime + AllocGlobal>(rt: &R) -> Result<()> {
    run_in_order(rt)?;
    run_out_of_order(rt)?;
    alone::talk(rt)
}

fn main(rt: HostRuntime) -> Result<()> {
    run(&rt)
}
