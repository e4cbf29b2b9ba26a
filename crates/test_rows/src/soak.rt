//! Runs a schedule of any length at two endpoints.

use bytes::Bytes;
use iw_events::{Call, Event};
use iw_schedules::{print_trace, read_schedule};
use std::io::{BufRead, BufReader};
use std::rt::Runtime;
use test_ends::{Ends, Heap};
use test_support::FailsAt;

// The stream of this call.
fn stream_of(event: &Event<Bytes<Heap<'_>>>) -> Option<u8> {
    match &event.call {
        Call::Stream { stream, .. } => Some(*stream),
        _ => None,
    }
}

// Runs the lines, and returns what is to be printed.
fn happen<'h>(
    ends: &mut Ends<'h>,
    heap: Heap<'h>,
    lines: &[u8],
) -> anyhow::Result<String<Heap<'h>>> {
    let events = read_schedule(heap, lines)?;
    let mut entries = Vec::new(heap);
    for event in &events {
        entries.push(ends.happen(event)?)?;
        if let Some(stream) = stream_of(event) {
            ends.forget(stream);
        }
    }
    Ok(print_trace(heap, entries.as_slice())?)
}

/// Runs the schedule of the standard input, as long as that goes on.
///
/// At an empty line the lines before it are run, and their part of the trace is printed, and an empty line. What was
/// emitted and had its turn is dropped, so the memory does not grow with the octets that were carried. If `is_refusing`,
/// each request for memory of each call of an endpoint is refused in turn, and the call is made again.
pub(crate) fn run<R: Runtime + AllocGlobal>(rt: &R, is_refusing: bool) -> anyhow::Result<()> {
    let heap = FailsAt::new(rt.alloc(), u64::MAX);
    let mut ends = Ends::new(&heap, is_refusing)?;
    let mut lines = Vec::new(rt.alloc());
    for line in BufReader::new(rt.alloc(), rt.reader())?.lines(rt.alloc()) {
        let line = line?;
        if line.is_empty() {
            let text = happen(&mut ends, &heap, lines.as_slice())?;
            println!(rt; "{text}")?;
            lines.clear();
        } else {
            lines.extend_from_slice(line.as_bytes())?;
            lines.push(b'\n')?;
        }
    }
    Ok(())
}
