//! What the turn of a frame does beyond the octets that were placed (RFC 5041 5.3).
ghost use Rattle.std.specs.Result.{result_err};
ghost use Rattle.std.specs.Option.{option_map};
ghost use Rattle.std.specs.Prelude.{◌≡◌, ◌+◌, ◌≤◌, length, IfOk, OnOk, OnErr};
ghost use Rattle.iw_memory.specs.Table.{invalidate_denial_for, invalidated};
ghost use Rattle.iw_octets.specs.Stag.{stag_of};
ghost use Rattle.iw_untagged.specs.Receiving.{HasRoom, turned};
ghost use Rattle.iw_stream.specs.Frames.{placed, head_in, payload_len};
ghost use Rattle.iw_stream.specs.Judging.{answered, answering_by, is_response, tagged_turn, tagged_left};
ghost use Rattle.iw_stream.specs.Judging.{send_turning, invalidate_fault, send_turn, table_turned};
ghost use Rattle.iw_stream.specs.Judging.{segment_turn, receiving_turned, reads_left};
ghost use Rattle.iw_stream.specs.Kept.{HasRoomInTurn, IsPosted};

use crate::landing::{PlacedFrame, Turning};
use iw_memory::{InvalidateDeny, Memory, Peer};
use iw_octets::{Fault, Segment, Short, Stag, TaggedHead, TaggedOperation, UntaggedHead};
use iw_rdmap::UntaggedOperation;
use iw_reads::Reads;
use iw_untagged::RecvQueue;
use std::alloc::Allocator;

// The STag that a number is.
fn stag_of(number: u32) -> Stag
    ensures { result ≡ stag_of number }
{
    let stag = Stag::from(number);
    stag.known();
    stag
}

// A Send is complete with its last segment, whose opcode and STag count.
fn send_turning(head: &UntaggedHead) -> Turning
    ensures { result ≡ send_turning head.now }
{
    if !head.last {
        return Turning::Passed;
    }
    match UntaggedOperation::of(head.control) {
        Some(
            UntaggedOperation::Send {
                solicited,
                invalidates,
            },
        ) => {
            let invalidate = if invalidates {
                Some(stag_of(head.tail))
            } else {
                None
            };
            Turning::Completed {
                solicited,
                invalidate,
            }
        }
        _ => Turning::Completed {
            solicited: false,
            invalidate: None,
        },
    }
}

// What a denial is reported as.
fn invalidate_fault(deny: InvalidateDeny) -> Fault
    ensures { result ≡ invalidate_fault deny }
{
    match deny {
        InvalidateDeny::NotAssociated => Fault::PROTECTION_NOT_ASSOCIATED,
        InvalidateDeny::Invalid => Fault::PROTECTION_INVALID_STAG,
        InvalidateDeny::NotAllowed => Fault::PROTECTION_CANNOT_INVALIDATE,
    }
}

// Invalidates a region for this peer. An `Err` changes nothing.
fn invalidate<A: Allocator>(stag: Stag, peer: Peer, memory: &mut Memory<A>) -> Result<(), Fault>
    ensures denied { result_err result ≡ option_map invalidate_fault (invalidate_denial_for memory.old peer stag) }
    ensures ok { OnOk result (memory.new ≡ invalidated memory.old stag) }
    ensures err { OnErr result (memory.new ≡ memory.old) }
{
    match memory.invalidate_remote_for(peer, stag) {
        Ok(()) => Ok(()),
        Err(deny) => Err(invalidate_fault(deny)),
    }
}

// Gives a Send's segment of `n` octets that was placed its turn. An `Err` changes nothing.
fn turn_send<A: Allocator, B: Allocator>(
    head: UntaggedHead,
    n: usize,
    peer: Peer,
    memory: &mut Memory<B>,
    receiving: &mut RecvQueue<A>,
) -> Result<Turning, Fault>
    requires { head.msn ≡ receiving.old.due → HasRoom receiving.old (head.mo + n) }
    ensures turn { result ≡ send_turn memory.old peer receiving.old head }
    ensures ok { OnOk result (receiving.new ≡ turned receiving.old n) }
    ensures memory { IfOk result (λ turning. memory.new ≡ table_turned memory.old turning) }
    ensures err { OnErr result ((receiving.new ≡ receiving.old) × (memory.new ≡ memory.old)) }
{
    let turning = send_turning(&head);
    if let Turning::Completed {
        invalidate: Some(stag),
        ..
    } = turning
    {
        // With no octets a turn is its checks alone.
        receiving.turn(head.msn, head.mo, 0)?;
        invalidate(stag, peer, memory)?;
    }
    receiving.turn(head.msn, head.mo, n)?;
    Ok(turning)
}

fn answering_by(finished: Option<u64>) -> Turning
    ensures { result ≡ answering_by finished }
{
    match finished {
        None => Turning::Passed,
        Some(ticket) => Turning::Answered(ticket),
    }
}

/// Whether a tagged segment carries part of the response to a Read.
#[inline(always)]
pub(crate) fn is_response(head: &TaggedHead) -> bool
    ensures { result ≡ is_response head.now }
{
    matches!(
        TaggedOperation::of(head.control),
        Some(TaggedOperation::ReadResponse)
    )
}

/// Gives a tagged segment with `n` octets that was placed its turn; the answer is the ticket of the Read that it finishes, if
/// it finishes one. An `Err` changes nothing.
#[inline(always)]
pub(crate) fn turn_reads<A: Allocator>(
    head: TaggedHead,
    n: usize,
    reads: &mut Reads<A>,
) -> Result<Option<u64>, Fault>
    ensures turn { answered result ≡ tagged_turn reads.old head n }
    ensures ok { OnOk result (reads.new ≡ tagged_left reads.old head n) }
    ensures err { OnErr result (reads.new ≡ reads.old) }
{
    if !is_response(&head) {
        return Ok(None);
    }
    reads.turn(&head, n)
}

// Gives a tagged segment with `n` octets that was placed its turn. An `Err` changes nothing.
#[inline(always)]
fn turn_tagged<A: Allocator>(
    head: TaggedHead,
    n: usize,
    reads: &mut Reads<A>,
) -> Result<Turning, Fault>
    ensures turn { result ≡ tagged_turn reads.old head n }
    ensures ok { OnOk result (reads.new ≡ tagged_left reads.old head n) }
    ensures err { OnErr result (reads.new ≡ reads.old) }
{
    let finished = turn_reads(head, n, reads)?;
    Ok(answering_by(finished))
}

/// Gives a frame that was placed its turn. An `Err` changes nothing.
#[inline(always)]
pub(crate) fn turn_frame<A: Allocator, B: Allocator>(
    frame: &PlacedFrame,
    peer: Peer,
    reads: &mut Reads<B>,
    memory: &mut Memory<B>,
    receiving: &mut RecvQueue<A>,
) -> Result<Turning, Fault>
    requires header { length frame.now.header.items ≤ frame.now.len }
    requires room { HasRoomInTurn receiving.old (payload_len frame.now) (head_in frame.now) }
    ensures turn { result ≡ segment_turn memory.old peer receiving.old reads.old (payload_len frame.now) (head_in frame.now) }
    ensures receiving { OnOk result (receiving.new ≡ receiving_turned receiving.old frame.now) }
    ensures reads { OnOk result (reads.new ≡ reads_left reads.old frame.now) }
    ensures memory { IfOk result (λ turning. memory.new ≡ table_turned memory.old turning) }
    ensures err { OnErr result ((receiving.new ≡ receiving.old) × (reads.new ≡ reads.old) × (memory.new ≡ memory.old)) }
    ensures posted { IfOk result (λ turning. IsPosted turning receiving.new) }
{
    match Segment::read(frame.header.as_slice()) {
        Err(Short) => Err(Fault::SEGMENT_SHORT),
        Ok(Segment::Tagged(head, _)) => turn_tagged(head, frame.payload_len(), reads),
        Ok(Segment::Untagged(head, _)) => {
            receiving.limits();
            turn_send(head, frame.payload_len(), peer, memory, receiving)
        }
    }
}
