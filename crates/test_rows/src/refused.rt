//! Schedules whose requests for memory are refused.

use bytes::Bytes;
use iw_endpoint::{Establishment, OpenNextRefusal, Rights, Stag};
use iw_events::{Call as EndCall, End, Entry, Event, Options};
use iw_program::replay;
use iw_schedules::{print_trace, read_schedule};
use std::alloc::{AllocError, Global};
use test_ends::{CALLS, Call, Ends, Heap, Stopped};
use test_support::FailsAt;

/// The most requests for memory of one replay.
const MOST_REQUESTS: u64 = 1_000_000;

// Whether the replay ends out of memory, and writes nothing, if its request after the next `n` is refused; `None` if
// there is no such request.
fn is_refused(alloc: Global, schedule: &[u8], n: u64) -> Result<Option<bool>, AllocError> {
    let heap = FailsAt::new(alloc, n);
    let mut written = Vec::new(alloc);
    let mut input = schedule;
    let ended = replay(&heap, &mut input, &mut written);
    if !heap.has_refused() {
        return Ok(None);
    }
    Ok(Some(match ended {
        Ok(_) => false,
        Err(fault) => written.is_empty() && fault.to_string(alloc)?.as_str() == "no memory",
    }))
}

/// Replays a schedule with its first request for memory refused, then with only the second refused, and so on to the
/// last. Returns how many there were; `None` if one of these replays did not end out of memory.
pub(crate) fn each_refused(alloc: Global, schedule: &[u8]) -> Result<Option<u64>, AllocError> {
    for n in 0..MOST_REQUESTS {
        match is_refused(alloc, schedule, n)? {
            None => return Ok(Some(n)),
            Some(true) => {}
            Some(false) => return Ok(None),
        }
    }
    Ok(None)
}

/// How often each call was made, and how many of its requests for memory were refused.
#[derive(Drop)]
pub(crate) struct Counts {
    counts: [(u64, u64); 28],
}

impl Counts {
    pub(crate) fn new() -> Counts {
        Counts {
            counts: [(0, 0); 28],
        }
    }

    fn add(&mut self, ends: &Ends<'_>) {
        for (counts, (call, _)) in self.counts.iter_mut().zip(CALLS) {
            let (made, refused) = ends.counted(call);
            counts.0 = counts.0.saturating_add(made);
            counts.1 = counts.1.saturating_add(refused);
        }
    }

    /// Each call with its counts, and whether it allocates.
    pub(crate) fn each(&self) -> [(Call, bool, u64, u64); 28] {
        let mut each = [(Call::New, true, 0, 0); 28];
        for (it, ((call, takes_memory), (made, refused))) in each
            .iter_mut()
            .zip(CALLS.into_iter().zip(self.counts))
        {
            *it = (call, takes_memory, made, refused);
        }
        each
    }
}

// Makes the calls of the events one after the other, with each of their requests for memory refused in turn.
fn entries<'h>(
    ends: &mut Ends<'h>,
    heap: Heap<'h>,
    events: &[Event<Bytes<Heap<'h>>>],
) -> Result<Vec<Entry<Bytes<Heap<'h>>>, Heap<'h>>, Stopped> {
    let mut entries = Vec::new(heap);
    for event in events {
        entries.push(ends.happen(event)?)?;
    }
    Ok(entries)
}

/// Whether this is the trace of a schedule at two endpoints, if each request for memory of each call is refused in
/// turn, and the same call is made again.
pub(crate) fn made_again(
    alloc: Global,
    schedule: &[u8],
    trace: &[u8],
    counts: &mut Counts,
) -> anyhow::Result<bool> {
    let heap = FailsAt::new(alloc, u64::MAX);
    let events = read_schedule(&heap, schedule)?;
    let mut ends = Ends::new(&heap, true)?;
    let entries = entries(&mut ends, &heap, events.as_slice())?;
    counts.add(&ends);
    let text = print_trace(&heap, entries.as_slice())?;
    Ok(text.as_bytes() == trace)
}

// A call at end A.
fn at_a<'h>(call: EndCall<Bytes<Heap<'h>>>) -> Event<Bytes<Heap<'h>>> {
    Event { end: End::A, call }
}

// Whether these streams got the next four numbers.
fn are_next(numbers: [Result<u32, OpenNextRefusal>; 4]) -> bool {
    numbers.into_iter().eq([Ok(64), Ok(65), Ok(66), Ok(67)])
}

/// Whether the calls that no schedule has give the numbers and STags of a run with enough memory, if each request for
/// memory of each of them is refused in turn, and the same call is made again: `open_next`, `open_shared_next` and
/// `register_for`, each twice.
pub(crate) fn given_again(alloc: Global, counts: &mut Counts) -> anyhow::Result<bool> {
    let heap = FailsAt::new(alloc, u64::MAX);
    let mut ends = Ends::new(&heap, true)?;
    let options = Options {
        markers: false,
        crc: true,
        establishment: Establishment::Plain,
    };
    ends.happen(&at_a(EndCall::Domain { pd: 1 }))?;
    ends.happen(&at_a(EndCall::Share { pd: 1 }))?;
    let numbers = [
        ends.open_next(1, options)?,
        ends.open_next(1, options)?,
        ends.open_shared_next(1, options)?,
        ends.open_shared_next(1, options)?,
    ];
    let rights = Rights {
        write: true,
        read: false,
        sink: false,
        invalidate: false,
    };
    let first = ends.register_for(64, rights, 8)?;
    let second = ends.register_for(66, rights, 8)?;
    counts.add(&ends);
    Ok(are_next(numbers) && first == Ok(Stag::new(1, 0, 0)) && second == Ok(Stag::new(1, 1, 0)))
}
