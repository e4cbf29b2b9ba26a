//! Runs of two ends that serve any number of connections.
use bytes::Bytes;
use iw_events::{
    Act, Call, End, Establishment, Options, Request, Role, Seen, ServerAct, ServerCall,
    ServerEntry, ServerEvent, StreamAct, StreamCall,
};
use iw_memory::Rights;
use iw_octets::{Message, Stag};
use iw_world::{World, WorldFault};
use std::alloc::Global;
use std::fmt::Write;
use std::test::Fail;

// How many connections come and go.
const CONNECTIONS: u32 = 100;

// A frame of a Send of one octet, with neither markers nor a CRC.
const FRAME: u64 = 28;

// A frame of a Write of two octets, likewise.
const WRITE_FRAME: u64 = 24;

// More events than any of these runs has.
const MOST_EVENTS: usize = 10_000;

fn event(end: End, call: ServerCall<Bytes>) -> ServerEvent<Bytes> {
    ServerEvent { end, call }
}

fn on(end: End, stream: u32, call: StreamCall<Bytes>) -> ServerEvent<Bytes> {
    event(end, ServerCall::Stream { stream, call })
}

fn domain(end: End) -> ServerEvent<Bytes> {
    event(end, ServerCall::Plain(Call::Domain { pd: 1 }))
}

fn opening(end: End) -> ServerEvent<Bytes> {
    let options = Options {
        markers: false,
        crc: false,
        establishment: Establishment::Plain,
    };
    event(
        end,
        ServerCall::OpenNext {
            pd: 1,
            role: Role::Preset,
            options,
            private: Bytes::new(),
        },
    )
}

fn send(alloc: Global) -> Result<Request<Bytes>, Fail> {
    Ok(Request::Message(Message::Send {
        octets: Bytes::copy_from_slice(alloc, b"h")?,
        solicited: false,
        invalidate: None,
    }))
}

// A Send goes from `a` to `b` on a stream.
fn exchange(alloc: Global, stream: u32, events: &mut Vec<ServerEvent<Bytes>>) -> Result<(), Fail> {
    let message = send(alloc)?;
    events.push(on(End::B, stream, StreamCall::Recv { len: 1 }))?;
    events.push(on(End::A, stream, StreamCall::Post { message }))?;
    events.push(on(End::A, stream, StreamCall::Emit))?;
    events.push(on(
        End::B,
        stream,
        StreamCall::Deliver {
            from: 0,
            len: FRAME,
        },
    ))?;
    events.push(on(End::B, stream, StreamCall::Work))?;
    events.push(on(End::B, stream, StreamCall::Work))?;
    Ok(())
}

// The first region of the domain.
fn region() -> Stag {
    Stag::new(1, 0, 0)
}

// `b` registers a region that peers may write, for a stream alone.
fn limiting(alloc: Global, stream: u32) -> Result<ServerEvent<Bytes>, Fail> {
    Ok(event(
        End::B,
        ServerCall::RegisterFor {
            stream,
            base: 0,
            rights: Rights {
                write: true,
                read: false,
                sink: false,
                invalidate: false,
            },
            octets: Bytes::copy_from_slice(alloc, b"....")?,
        },
    ))
}

// A Write into that region goes from `a` to `b` on a stream.
fn write_there(
    alloc: Global,
    stream: u32,
    events: &mut Vec<ServerEvent<Bytes>>,
) -> Result<(), Fail> {
    let message = Request::Message(Message::Write {
        stag: region(),
        to: 0,
        octets: Bytes::copy_from_slice(alloc, b"hi")?,
    });
    events.push(on(End::A, stream, StreamCall::Post { message }))?;
    events.push(on(End::A, stream, StreamCall::Emit))?;
    events.push(on(
        End::B,
        stream,
        StreamCall::Deliver {
            from: 0,
            len: WRITE_FRAME,
        },
    ))?;
    events.push(on(End::B, stream, StreamCall::Work))?;
    Ok(())
}

// The link of a stream breaks at an end, which hands back what was posted and closes the stream.
fn ending(end: End, stream: u32, events: &mut Vec<ServerEvent<Bytes>>) -> Result<(), Fail> {
    events.push(on(end, stream, StreamCall::Break))?;
    events.push(on(end, stream, StreamCall::Work))?;
    events.push(event(end, ServerCall::Close { stream }))?;
    Ok(())
}

fn domains(alloc: Global) -> Result<Vec<ServerEvent<Bytes>>, Fail> {
    let mut events = Vec::new(alloc);
    events.push(domain(End::A))?;
    events.push(domain(End::B))?;
    Ok(events)
}

// What is told of openings, of messages that came and of closings.
fn told(alloc: Global, trace: &[ServerEntry<Bytes>]) -> Result<String, Fail> {
    let mut text = String::new(alloc);
    for entry in trace {
        match &entry.act {
            ServerAct::OpenNext {
                answer: Ok(number),
                ..
            } => writeln!(text, "open {number}")?,
            ServerAct::Stream {
                stream,
                act: StreamAct::Work(Seen::Received { .. }),
            } => writeln!(text, "received {stream}")?,
            ServerAct::Close {
                stream,
                refused: None,
            } => writeln!(text, "close {stream}")?,
            ServerAct::Close { stream, .. } => writeln!(text, "open still {stream}")?,
            _ => {}
        }
    }
    Ok(text)
}

// What is told of regions.
fn regions_told(alloc: Global, trace: &[ServerEntry<Bytes>]) -> Result<String, Fail> {
    let mut text = String::new(alloc);
    for entry in trace {
        match &entry.act {
            ServerAct::RegisterFor {
                stream,
                answer: Ok(stag),
                ..
            } => writeln!(text, "{stag:?} for {stream}")?,
            ServerAct::RegisterFor {
                stream,
                answer: Err(refusal),
                ..
            } => writeln!(text, "none for {stream}: {refusal}")?,
            ServerAct::Stream {
                stream,
                act: StreamAct::Work(Seen::Placed { stag, .. }),
            } => writeln!(text, "{stag:?} written by {stream}")?,
            ServerAct::Stream {
                stream,
                act: StreamAct::Work(Seen::Fault(fault)),
            } => writeln!(text, "{fault} of {stream}")?,
            ServerAct::Plain(
                Act::Deregister {
                    answer: Ok(octets),
                    ..
                },
            ) => writeln!(text, "octets {:?}", octets.as_slice())?,
            _ => {}
        }
    }
    Ok(text)
}

const MIDDLE: &str = "open 64
open 64
open 65
open 65
open still 64
close 64
received 65
open 66
";

// One stream is closed in the midst of the others. Its number is not given again.
#[test]
fn a_stream_is_closed_in_the_middle(rt: HostRuntime) -> Result<(), Fail> {
    let alloc = rt.alloc();
    let mut events = domains(alloc)?;
    for _i in 0..2u32 {
        events.push(opening(End::A))?;
        events.push(opening(End::B))?;
    }
    events.push(event(End::A, ServerCall::Close { stream: 64 }))?;
    ending(End::A, 64, &mut events)?;
    exchange(alloc, 65, &mut events)?;
    events.push(opening(End::A))?;
    assert!(rt; events.len() <= MOST_EVENTS);
    let trace = World::serve(alloc, &events)?;
    assert_eq!(rt; told(alloc, &trace)?.as_str(), MIDDLE);
    Ok(())
}

// Connections come and go: each has the next number at both ends, and leaves nothing.
#[test]
fn connections_come_and_go(rt: HostRuntime) -> Result<(), Fail> {
    let alloc = rt.alloc();
    let mut events = domains(alloc)?;
    let mut wanted = String::new(alloc);
    for stream in 64..64 + CONNECTIONS {
        events.push(opening(End::A))?;
        events.push(opening(End::B))?;
        exchange(alloc, stream, &mut events)?;
        ending(End::A, stream, &mut events)?;
        ending(End::B, stream, &mut events)?;
        write!(
            wanted,
            "open {stream}\nopen {stream}\nreceived {stream}\nclose {stream}\nclose {stream}\n"
        )?;
    }
    assert!(rt; events.len() <= MOST_EVENTS);
    let trace = World::serve(alloc, &events)?;
    assert_eq!(rt; told(alloc, &trace)?.as_str(), wanted.as_str());
    Ok(())
}

// No call names a stream that was closed. The fault has the number of the event.
#[test]
fn a_closed_stream_has_nothing_to_do(rt: HostRuntime) -> Result<(), Fail> {
    let alloc = rt.alloc();
    let mut events = domains(alloc)?;
    events.push(opening(End::A))?;
    ending(End::A, 64, &mut events)?;
    events.push(on(End::A, 64, StreamCall::Work))?;
    assert!(rt; events.len() <= MOST_EVENTS);
    assert!(rt; World::serve(alloc, &events).err() == Some(WorldFault::NoSuchStream(7)));
    Ok(())
}

const LIMITED: &str = "Stag(01000000) for 64
Stag(01000000) written by 64
fault of layer 1, type 1, code 2 of 65
none for 65: the stream has ended: close it
octets [104, 105, 46, 46]
";

// A region is for one stream alone: that of another stream is told that its STag is of another domain (RFC 5041 7.2). It stays
// its owner's once the stream is closed.
#[test]
fn a_region_is_for_one_stream(rt: HostRuntime) -> Result<(), Fail> {
    let alloc = rt.alloc();
    let mut events = domains(alloc)?;
    for _i in 0..2u32 {
        events.push(opening(End::A))?;
        events.push(opening(End::B))?;
    }
    events.push(limiting(alloc, 64)?)?;
    write_there(alloc, 64, &mut events)?;
    write_there(alloc, 65, &mut events)?;
    events.push(limiting(alloc, 65)?)?;
    ending(End::B, 64, &mut events)?;
    events.push(event(
        End::B,
        ServerCall::Plain(Call::Deregister { stag: region() }),
    ))?;
    assert!(rt; events.len() <= MOST_EVENTS);
    let trace = World::serve(alloc, &events)?;
    assert_eq!(rt; regions_told(alloc, &trace)?.as_str(), LIMITED);
    events.push(limiting(alloc, 64)?)?;
    assert!(rt; events.len() <= MOST_EVENTS);
    assert!(rt; World::serve(alloc, &events).err() == Some(WorldFault::NoSuchStream(21)));
    Ok(())
}
