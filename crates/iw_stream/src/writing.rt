//! Frames that go out: headers, the octets of messages and responses, and the Terminate.
ghost use Rattle.std.specs.Prelude.{◌≡◌, ◌+◌, ◌-◌, ◌<◌, ◌≤◌, ◌%◌, ◌^◌, ◌++◌, length, OnOk, OnErr, IsOk};
ghost use Rattle.std.specs.Prelude.{vec_len, vec_capacity};
ghost use Rattle.iw_octets.specs.declared.segment.Segment.TheVariants.{Tagged, Untagged};
ghost use Rattle.iw_octets.specs.Segment.{segment_octets};
ghost use Rattle.iw_fpdu.specs.Frame.{frame_octets, max_sent};
ghost use Rattle.iw_queues.specs.Request.{payload, header_len};
ghost use Rattle.iw_queues.specs.Segments.{first_numbers, segment_of, numbers_after, numbers_beyond};
ghost use Rattle.iw_queues.specs.Segments.{write_head, send_head, request_head};
ghost use Rattle.iw_queues.specs.Shown.{shown_part};
ghost use Rattle.iw_rdmap.specs.Laws.{terminate_head};
ghost use Rattle.iw_stream.specs.Emitting.{numbers_of};
ghost use Rattle.iw_stream.specs.Rtr.{rtr_stag, rtr_request, rtr_message, rtr_segment};

use iw_fpdu::{Layout, write_segment};
use iw_octets::{
    DDP_VERSION, Message, ReadRequest, Stag, TAGGED_HEADER, TaggedHead, UNTAGGED_HEADER,
    UntaggedHead,
};
use iw_queues::{Outgoing, Part, Request};
use iw_rdmap::{MAX_TERMINATE, TaggedOperation, UntaggedOperation};
use iw_startup::Rtr;
use std::alloc::{AllocError, Allocator};

/// The message sequence numbers of the next Send and of the next Read: each queue counts its own (RFC 5041 4.3).
#[derive(Clone, Copy, Debug, PartialEq, Eq)]
pub(crate) struct Numbers {
    pub(crate) send: u32,
    pub(crate) read: u32,
}

impl Numbers {
    /// Those of the first messages.
    pub(crate) fn first() -> Numbers
        ensures { numbers_of result ≡ first_numbers }
    {
        Numbers { send: 1, read: 1 }
    }

    /// Those after a part that is sent: a message has its number until its last part.
    pub(crate) fn beyond<A: Allocator>(self, part: &Part<&Request<Outgoing<A>>>) -> Numbers
        ensures { numbers_of result ≡ numbers_beyond (numbers_of self) (shown_part part.now) }
    {
        let Numbers { send, read } = self;
        if !part.last {
            return self;
        }
        match part.message {
            Request::Message(Message::Write { .. }) => self,
            Request::Message(Message::Send { .. }) => Numbers {
                send: send.wrapping_add(1),
                read,
            },
            Request::Read(_) => Numbers {
                send,
                read: read.wrapping_add(1),
            },
        }
    }

    /// Those after the RTR.
    pub(crate) fn beyond_rtr(self, rtr: Rtr) -> Numbers
        ensures { numbers_of result ≡ numbers_after (numbers_of self) (rtr_message rtr) }
    {
        let Numbers { send, read } = self;
        match rtr {
            Rtr::Write => self,
            Rtr::Read => Numbers {
                send,
                read: read.wrapping_add(1),
            },
        }
    }
}

// The header of a part of a Write.
fn write_head(stag: Stag, to: u64, offset: usize, last: bool) -> TaggedHead
    ensures { result ≡ write_head stag to offset last }
{
    TaggedHead {
        last,
        ddp_version: DDP_VERSION,
        control: TaggedOperation::Write.control(),
        stag,
        to: to.wrapping_add(offset as u64),
    }
}

// The header of a part of a Send: each has the opcode, and the STag to invalidate (RFC 5040 4.1).
fn send_head(
    msn: u32,
    solicited: bool,
    invalidate: Option<Stag>,
    offset: usize,
    last: bool,
) -> UntaggedHead
    requires { offset < 2 ^ 32 }
    ensures { result ≡ send_head msn solicited invalidate offset last }
{
    let operation = UntaggedOperation::Send {
        solicited,
        invalidates: invalidate.is_some(),
    };
    UntaggedHead {
        last,
        ddp_version: DDP_VERSION,
        control: operation.control(),
        tail: invalidate.map_or(0, u32::from),
        queue: operation.queue(),
        msn,
        mo: offset as u32,
    }
}

// The header of a Read's request, which goes by a queue of its own (RFC 5040 5.2.1).
fn request_head(msn: u32) -> UntaggedHead
    ensures { result ≡ request_head msn }
{
    UntaggedHead {
        last: true,
        ddp_version: DDP_VERSION,
        control: UntaggedOperation::ReadRequest.control(),
        tail: 0,
        queue: UntaggedOperation::ReadRequest.queue(),
        msn,
        mo: 0,
    }
}

/// Appends the frame of a tagged segment, to stand at frame place `at`.
///
/// An `Err` means out of memory, comes only if `out` has no room for the frame, and leaves `out` as it was.
#[tactic(auto, unfolding(iw_octets::specs::Segment::segment_octets))]
#[inline(never)]
pub(crate) fn write_tagged<A: Allocator>(
    layout: Layout,
    at: u64,
    head: TaggedHead,
    payload: &[u8],
    out: &mut Vec<u8, A>,
) -> Result<(), AllocError>
    requires place { at < 2 ^ 63 }
    requires aligned { at % 4 ≡ 0 }
    requires version { head.ddp_version < 4 }
    requires short { TAGGED_HEADER + length payload.now ≤ max_sent }
    ensures ok { OnOk result (out.new.items ≡ out.old.items ++ frame_octets layout at (segment_octets (Tagged head payload.now))) }
    ensures err { OnErr result (out.new.items ≡ out.old.items) }
    ensures memory { vec_len out.old + length (frame_octets layout at (segment_octets (Tagged head payload.now))) ≤ vec_capacity out.old
        → IsOk result }
{
    write_segment(layout, at, head.write(), payload, out)
}

// Appends the frame of an untagged segment, to stand at frame place `at`. An `Err` is as at `write_tagged`.
#[tactic(auto, unfolding(iw_octets::specs::Segment::segment_octets))]
#[inline(never)]
fn write_untagged<A: Allocator>(
    layout: Layout,
    at: u64,
    head: UntaggedHead,
    payload: &[u8],
    out: &mut Vec<u8, A>,
) -> Result<(), AllocError>
    requires place { at < 2 ^ 63 }
    requires aligned { at % 4 ≡ 0 }
    requires version { head.ddp_version < 4 }
    requires short { UNTAGGED_HEADER + length payload.now ≤ max_sent }
    ensures ok { OnOk result (out.new.items ≡ out.old.items ++ frame_octets layout at (segment_octets (Untagged head payload.now))) }
    ensures err { OnErr result (out.new.items ≡ out.old.items) }
    ensures memory { vec_len out.old + length (frame_octets layout at (segment_octets (Untagged head payload.now))) ≤ vec_capacity out.old
        → IsOk result }
{
    write_segment(layout, at, head.write(), payload, out)
}

/// Appends the frame of a part, to stand at frame place `at`, if the next messages have these numbers.
///
/// An `Err` means out of memory, comes only if `out` has no room for the frame, and leaves `out` as it was.
#[inline(always)]
pub(crate) fn write_part<A: Allocator, B: Allocator>(
    layout: Layout,
    at: u64,
    numbers: Numbers,
    part: &Part<&Request<Outgoing<B>>>,
    out: &mut Vec<u8, A>,
) -> Result<(), AllocError>
    requires place { at < 2 ^ 63 }
    requires aligned { at % 4 ≡ 0 }
    requires within { part.now.offset + part.now.n ≤ length (payload part.now.message.now) }
    requires short { header_len part.now.message.now + part.now.n ≤ max_sent }
    requires offset { part.now.offset < 2 ^ 32 }
    ensures ok { OnOk result (out.new.items ≡ out.old.items ++ frame_octets layout at (segment_octets (segment_of (numbers_of numbers) (shown_part part.now)))) }
    ensures err { OnErr result (out.new.items ≡ out.old.items) }
    ensures memory { vec_len out.old + length (frame_octets layout at (segment_octets (segment_of (numbers_of numbers) (shown_part part.now)))) ≤ vec_capacity out.old
        → IsOk result }
{
    match part.message {
        Request::Message(Message::Write { stag, to, .. }) => {
            let head = write_head(*stag, *to, part.offset, part.last);
            write_tagged(layout, at, head, part.octets(), out)
        }
        Request::Message(
            Message::Send {
                solicited,
                invalidate,
                ..
            },
        ) => {
            let head = send_head(
                numbers.send,
                *solicited,
                *invalidate,
                part.offset,
                part.last,
            );
            write_untagged(layout, at, head, part.octets(), out)
        }
        Request::Read(request) => {
            let octets = request.write();
            write_untagged(
                layout,
                at,
                request_head(numbers.read),
                octets.as_slice(),
                out,
            )
        }
    }
}

// The STag that the RTR names.
fn rtr_stag() -> Stag
    ensures { result ≡ rtr_stag }
{
    Stag::new(0, 0, 1)
}

/// The RTR, if it is a Read: one of no octets (RFC 6581 9.2).
pub(crate) fn rtr_request() -> ReadRequest
    ensures { result ≡ rtr_request }
{
    ReadRequest {
        sink: rtr_stag(),
        sink_to: 0,
        size: 0,
        source: rtr_stag(),
        source_to: 0,
    }
}

/// Appends the frame of the RTR, to stand at frame place `at`, if the next messages have these numbers.
///
/// An `Err` means out of memory, comes only if `out` has no room for the frame, and leaves `out` as it was.
pub(crate) fn write_rtr<A: Allocator>(
    layout: Layout,
    at: u64,
    numbers: Numbers,
    rtr: Rtr,
    out: &mut Vec<u8, A>,
) -> Result<(), AllocError>
    requires place { at < 2 ^ 63 }
    requires aligned { at % 4 ≡ 0 }
    ensures ok { OnOk result (out.new.items ≡ out.old.items ++ frame_octets layout at (segment_octets (rtr_segment (numbers_of numbers) rtr))) }
    ensures err { OnErr result (out.new.items ≡ out.old.items) }
    ensures memory { vec_len out.old + length (frame_octets layout at (segment_octets (rtr_segment (numbers_of numbers) rtr))) ≤ vec_capacity out.old
        → IsOk result }
{
    match rtr {
        Rtr::Write => write_tagged(layout, at, write_head(rtr_stag(), 0, 0, true), &[], out),
        Rtr::Read => {
            let octets = rtr_request().write();
            write_untagged(
                layout,
                at,
                request_head(numbers.read),
                octets.as_slice(),
                out,
            )
        }
    }
}

// The header of a Terminate: its queue's first message, in one segment (RFC 5040 5.4).
fn terminate_head() -> UntaggedHead
    ensures { result ≡ terminate_head }
{
    UntaggedHead {
        last: true,
        ddp_version: DDP_VERSION,
        control: UntaggedOperation::Terminate.control(),
        tail: 0,
        queue: UntaggedOperation::Terminate.queue(),
        msn: 1,
        mo: 0,
    }
}

/// Appends the frame of a Terminate with this payload, to stand at frame place `at`.
///
/// An `Err` means out of memory, comes only if `out` has no room for the frame, and leaves `out` as it was.
pub(crate) fn write_terminate<A: Allocator>(
    layout: Layout,
    at: u64,
    payload: &[u8],
    out: &mut Vec<u8, A>,
) -> Result<(), AllocError>
    requires place { at < 2 ^ 63 }
    requires aligned { at % 4 ≡ 0 }
    requires short { length payload.now ≤ MAX_TERMINATE }
    ensures ok { OnOk result (out.new.items ≡ out.old.items ++ frame_octets layout at (segment_octets (Untagged terminate_head payload.now))) }
    ensures err { OnErr result (out.new.items ≡ out.old.items) }
    ensures memory { vec_len out.old + length (frame_octets layout at (segment_octets (Untagged terminate_head payload.now))) ≤ vec_capacity out.old
        → IsOk result }
{
    write_untagged(layout, at, terminate_head(), payload, out)
}
