ghost use Rattle.std.specs.Prelude.{◌≡◌};
ghost use Rattle.iw_program.specs.Status.{sees_fault, shows_fault, is_fault, status_of};

use bytes::Bytes;
use iw_events::{Act, Entry, Seen, Shown, StreamAct};
use iw_output::Status;
use std::alloc::Allocator;

// Whether a step of work found a fault, or one in the peer's start-up frame, or the peer's Terminate.
fn is_fault_seen<A: Allocator>(seen: &Seen<Bytes<A>>) -> bool
    ensures { result ≡ sees_fault seen.now }
{
    match seen {
        Seen::Closed(_) | Seen::Terminated(_) | Seen::Fault(_) => true,
        Seen::Done(_)
        | Seen::Flushed(_)
        | Seen::FlushedRecv(_)
        | Seen::Asked { .. }
        | Seen::Opened { .. }
        | Seen::Placed { .. }
        | Seen::Buffered { .. }
        | Seen::Requested { .. }
        | Seen::Tried(_)
        | Seen::Passed
        | Seen::Received { .. }
        | Seen::Idle => false,
    }
}

// Whether a call of `emit` found that the peer may not read what its Read asks for.
fn is_fault_shown<A: Allocator>(shown: &Shown<Bytes<A>>) -> bool
    ensures { result ≡ shows_fault shown.now }
{
    match shown {
        Shown::Fault(_) => true,
        Shown::Frame { .. } | Shown::Fetched { .. } | Shown::Nothing => false,
    }
}

// Whether a stream ended by a fault (of start-up too) or by the peer's Terminate.
fn is_fault_entry<A: Allocator>(entry: &Entry<Bytes<A>>) -> bool
    ensures { result ≡ is_fault entry.now }
{
    match &entry.act {
        Act::Stream {
            act: StreamAct::Emit(shown),
            ..
        } => is_fault_shown(shown),
        Act::Stream {
            act: StreamAct::Work(seen),
            ..
        } => is_fault_seen(seen),
        _ => false,
    }
}

/// The program's status after a run with this trace.
pub(crate) fn trace_status<A: Allocator>(trace: &[Entry<Bytes<A>>]) -> Status
    ensures { result ≡ status_of trace.now }
{
    for entry in trace {
        if is_fault_entry(entry) {
            return Status::Failed;
        }
    }
    Status::Completed
}
