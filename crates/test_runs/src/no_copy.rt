//! No frame is copied before its payload is placed: the steps that place frames before their turn ask for memory only
//! for the records that they keep of them, and that memory is reused.

use bytes::Bytes;
use iw_memory::{Memory, Rights};
use iw_octets::{MAX_PLACE, Message, Stag};
use iw_stream::{Config, Establishment, PrivateData, Request, Role, Step, Stream};
use std::alloc::{AllocError, Global};
use std::test::Fail;
use test_support::FailsAt;

type Heap<'h> = &'h FailsAt<Global>;

// The length of a frame, with the marker before it, and of its payload.
const FRAME: usize = 512;

const PAYLOAD: usize = 488;

const RIGHTS: Rights = Rights {
    write: true,
    read: false,
    sink: false,
    invalidate: false,
};

fn opened<'h>(heap: Heap<'h>) -> Result<Stream<Heap<'h>>, AllocError> {
    let config = Config {
        markers: true,
        crc: false,
        establishment: Establishment::Plain,
        private: PrivateData::new(),
    };
    Stream::new(heap, 1, Role::Preset, config)
}

// Octets of value `k`.
fn payload<'h>(heap: Heap<'h>, k: u8) -> Result<Bytes<Heap<'h>>, Fail> {
    let octets = vec![in heap; k; PAYLOAD]?;
    Ok(Bytes::from_vec(octets)?)
}

// Posts a Write to tagged offset 0.
fn post<'h>(stream: &mut Stream<Heap<'h>>, octets: Bytes<Heap<'h>>) {
    let _ = stream.post(Request::Message(Message::Write {
        stag: Stag::new(1, 0, 0),
        to: 0,
        octets,
    }));
}

fn emit<'h>(
    stream: &mut Stream<Heap<'h>>,
    memory: &Memory<Heap<'h>>,
    wire: &mut Vec<u8, Heap<'h>>,
) -> Result<(), Fail> {
    if stream.sent() <= MAX_PLACE {
        stream.emit(memory, wire)?;
    }
    Ok(())
}

// Emits four Writes to tagged offset 0; the k-th has octets of value k.
fn emit_all<'h>(
    heap: Heap<'h>,
    stream: &mut Stream<Heap<'h>>,
    memory: &Memory<Heap<'h>>,
    wire: &mut Vec<u8, Heap<'h>>,
) -> Result<(), Fail> {
    for k in 0..4u8 {
        post(stream, payload(heap, k)?);
        emit(stream, memory, wire)?;
    }
    Ok(())
}

// Their frames have 512 octets each, with the marker before them.
fn frames<'h>(heap: Heap<'h>, wire: &mut Vec<u8, Heap<'h>>) -> Result<(), Fail> {
    let memory = Memory::new(heap);
    let mut stream = opened(heap)?;
    emit_all(heap, &mut stream, &memory, wire)
}

fn register<'h>(memory: &mut Memory<Heap<'h>>, octets: Vec<u8, Heap<'h>>) {
    let _ = memory.add_domain(1);
    let _ = memory.register(1, 0, octets, RIGHTS);
}

// Domain 1 with a region.
fn shared<'h>(heap: Heap<'h>) -> Result<Memory<Heap<'h>>, Fail> {
    let mut memory = Memory::new(heap);
    register(&mut memory, vec![in heap; 0u8; PAYLOAD + 4]?);
    Ok(memory)
}

// The outcome of a step.
#[derive(Clone, Copy, Debug, PartialEq, Eq)]
enum Came {
    Idle,
    Placed,
    Refused,
    Other,
}

// The receiving end, and how many of its steps ran out of memory.
#[derive(Drop)]
struct Receiver<'h> {
    stream: Stream<Heap<'h>>,
    memory: Memory<Heap<'h>>,
    refused: u32,
    placed: u32,
}

impl<'h> Receiver<'h> {
    fn new(heap: Heap<'h>) -> Result<Receiver<'h>, Fail> {
        Ok(Receiver {
            stream: opened(heap)?,
            memory: shared(heap)?,
            refused: 0,
            placed: 0,
        })
    }

    fn step(&mut self) -> Came {
        if self.stream.in_order_point() > MAX_PLACE {
            return Came::Other;
        }
        match self.stream.work(&mut self.memory) {
            Ok(Step::Idle) => Came::Idle,
            Ok(Step::Placed { .. }) => Came::Placed,
            Ok(_) => Came::Other,
            Err(AllocError) => Came::Refused,
        }
    }

    // Works until there is nothing to do. A step that runs out of memory is made again.
    fn work(&mut self) -> Result<(), Fail> {
        for _ in 0..10u8 {
            match self.step() {
                Came::Idle => return Ok(()),
                Came::Placed => self.placed = self.placed.saturating_add(1),
                Came::Refused => self.refused = self.refused.saturating_add(1),
                Came::Other => {}
            }
        }
        Err("work without end".into())
    }

    // Delivers octets. A delivery that runs out of memory is made again.
    fn deliver(&mut self, from: u32, octets: &[u8]) -> Result<(), Fail> {
        if self.stream.deliver(from, octets).is_err() {
            self.stream.deliver(from, octets)?;
        }
        Ok(())
    }

    // Delivers the frame from stream place `from` to `to`, and works until there is nothing to do.
    fn take(&mut self, wire: &[u8], from: usize, to: usize) -> Result<(), Fail> {
        let frame = wire.get(from..to).ok_or("a frame")?;
        self.deliver((from % (1 << 32)) as u32, frame)?;
        self.work()
    }
}

// Two frames come, the later first: how many steps ran out of memory.
fn take_pair(end: &mut Receiver<'_>, wire: &[u8], from: usize) -> Result<u32, Fail> {
    let before = end.refused;
    let middle = from.saturating_add(FRAME);
    end.take(wire, middle, middle.saturating_add(FRAME))?;
    end.take(wire, from, middle)?;
    Ok(end.refused.saturating_sub(before))
}

// Two pairs of frames come: how many steps ran out of memory for the first pair. None does for the second, which uses
// the memory of the first.
fn take_pairs(end: &mut Receiver<'_>, wire: &[u8]) -> Result<u32, Fail> {
    let first = take_pair(end, wire, 0)?;
    let second = take_pair(end, wire, 2 * FRAME)?;
    if second != 0 || end.placed != 4 {
        return Err(
            "a step was refused memory for the second pair, or a frame was not placed".into(),
        );
    }
    Ok(first)
}

fn refused_of(heap: Heap<'_>, n: u64, wire: &[u8]) -> Result<u32, Fail> {
    let mut end = Receiver::new(heap)?;
    heap.refuse_after(n);
    take_pairs(&mut end, wire)
}

// The same with one request for memory refused; `None` if there was none left to refuse.
fn refused_at(alloc: Global, n: u64) -> Result<Option<u32>, Fail> {
    let heap = FailsAt::new(alloc, u64::MAX);
    let mut wire = Vec::new(&heap);
    frames(&heap, &mut wire)?;
    let refused = refused_of(&heap, n, &wire)?;
    Ok(heap.has_refused().then_some(refused))
}

#[test]
fn no_frame_is_copied(rt: HostRuntime) -> Result<(), Fail> {
    let mut refused = 0u32;
    for n in 0..1_000u64 {
        match refused_at(rt.alloc(), n)? {
            None => {
                println!(rt; "work was refused {refused} of {n} requests for memory")?;
                assert!(rt; refused > 0);
                return Ok(());
            }
            Some(before) => refused = refused.saturating_add(before),
        }
    }
    Err("requests without end".into())
}
