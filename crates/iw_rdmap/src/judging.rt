ghost use Rattle.std.specs.Prelude.{◌≡◌, ◌≤◌, Bool, IfOk, IfErr};
ghost use Rattle.iw_octets.specs.Segment.{read_segment};
ghost use Rattle.iw_rdmap.specs.Head.{header_octets};
ghost use Rattle.iw_rdmap.specs.Judging.{IsFront, judged, judged_request, judged_terminate};
ghost use Rattle.iw_rdmap.specs.Judging.{tagged_checked, untagged_checked, tagged_in};
ghost use Rattle.iw_rdmap.specs.Terminate.{FitsFault, HasCause, HasHeaders};

use crate::head::Head;
use crate::sizes::{FIRST_OCTETS, MAX_TERMINATE};
use iw_octets::{
    DDP_VERSION, Fault, MAX_UNANSWERED, RDMAP_VERSION, READ_REQUEST_HEADER, ReadRequest, Segment,
    Short, TaggedHead, TaggedOperation, TerminateWord, UNTAGGED_HEADER, UntaggedHead,
    UntaggedOperation, is_tagged, rdmap_version,
};

// The number of a queue's first message.
const FIRST_MSN: u32 = 1;

// The highest queue number.
const LAST_QUEUE: u32 = 2;

/// The checks of a tagged header up to that of its opcode: the operation, or the first fault.
#[inline(always)]
pub(crate) fn tagged_operation(head: &TaggedHead) -> Result<TaggedOperation, Fault>
    ensures { result ≡ tagged_checked head.now }
{
    if head.ddp_version != DDP_VERSION {
        return Err(Fault::TAGGED_VERSION);
    }
    if rdmap_version(head.control) != RDMAP_VERSION {
        return Err(Fault::OPERATION_VERSION);
    }
    TaggedOperation::of(head.control).ok_or(Fault::OPERATION_UNEXPECTED)
}

/// The checks of an untagged header up to that of its opcode: the operation, or the first fault.
#[inline(always)]
pub(crate) fn untagged_operation(head: &UntaggedHead) -> Result<UntaggedOperation, Fault>
    ensures { result ≡ untagged_checked head.now }
{
    if head.ddp_version != DDP_VERSION {
        return Err(Fault::UNTAGGED_VERSION);
    }
    if head.queue > LAST_QUEUE {
        return Err(Fault::UNTAGGED_INVALID_QUEUE);
    }
    if rdmap_version(head.control) != RDMAP_VERSION {
        return Err(Fault::OPERATION_VERSION);
    }
    match UntaggedOperation::of(head.control) {
        Some(operation) if operation.queue() == head.queue => Ok(operation),
        _ => Err(Fault::OPERATION_UNEXPECTED),
    }
}

// A Read Request past the check of its opcode, with `n` octets of payload, of which these are the first.
#[tactic(auto, unfolding(iw_octets::specs::Payload::read_request))]
#[inline(never)]
fn judge_request(
    head: UntaggedHead,
    payload: &[u8],
    n: usize,
    next: u32,
    unanswered: usize,
) -> Result<Head, Fault>
    requires { IsFront READ_REQUEST_HEADER payload.now n }
    ensures { result ≡ judged_request head payload.now n next unanswered }
{
    if head.msn != next {
        return Err(Fault::UNTAGGED_MSN_RANGE);
    }
    if unanswered >= MAX_UNANSWERED {
        return Err(Fault::UNTAGGED_NO_BUFFER);
    }
    if head.mo != 0 {
        return Err(Fault::UNTAGGED_INVALID_OFFSET);
    }
    if n > READ_REQUEST_HEADER || !head.last {
        return Err(Fault::UNTAGGED_TOO_LONG);
    }
    match ReadRequest::read(payload) {
        Ok((request, _)) => Ok(Head::Request(head, request)),
        Err(Short) => Err(Fault::SEGMENT_SHORT),
    }
}

// A Terminate past the check of its opcode, with `n` octets of payload, of which these are the first.
#[tactic(auto, unfolding(iw_octets::specs::Payload::read_word))]
#[inline(never)]
fn judge_terminate(head: UntaggedHead, payload: &[u8], n: usize) -> Result<Head, Fault>
    requires { IsFront READ_REQUEST_HEADER payload.now n }
    ensures { result ≡ judged_terminate head payload.now n }
{
    if head.msn != FIRST_MSN {
        return Err(Fault::UNTAGGED_MSN_RANGE);
    }
    if head.mo != 0 {
        return Err(Fault::UNTAGGED_INVALID_OFFSET);
    }
    if n > MAX_TERMINATE || !head.last {
        return Err(Fault::UNTAGGED_TOO_LONG);
    }
    match TerminateWord::read(payload) {
        Ok((word, _)) => Ok(Head::Terminate(head, word)),
        Err(Short) => Err(Fault::SEGMENT_SHORT),
    }
}

/// Judges a ULPDU of `len` octets by its header: what it is, or the first check that it fails, up to those that need a
/// buffer, a region or an outstanding Read (RFC 5040 4 and 7.2, RFC 5041 4 and 7.1).
///
/// `first` holds the first [`FIRST_OCTETS`] octets of the ULPDU, or all of them if it has fewer. `next` is the message
/// sequence number of the Read Request that is due, `unanswered` the number of Read Requests that wait for their responses.
///
/// The fault is that of the first check that fails, in this order:
/// - [`Fault::SEGMENT_SHORT`]: the ULPDU has no octets, or fewer than its header.
/// - Of a tagged segment: [`Fault::TAGGED_VERSION`]; [`Fault::OPERATION_VERSION`]; [`Fault::OPERATION_UNEXPECTED`], the
///   opcode is not that of a Write or a Read Response.
/// - Of an untagged segment: [`Fault::UNTAGGED_VERSION`]; [`Fault::UNTAGGED_INVALID_QUEUE`], a queue number over 2;
///   [`Fault::OPERATION_VERSION`]; [`Fault::OPERATION_UNEXPECTED`], the opcode is not one of the queue's.
/// - Then of a Read Request: [`Fault::UNTAGGED_MSN_RANGE`], it is not `next`; [`Fault::UNTAGGED_NO_BUFFER`], 16 are
///   unanswered; [`Fault::UNTAGGED_INVALID_OFFSET`], its offset is not 0; [`Fault::UNTAGGED_TOO_LONG`], more than 28 octets,
///   or not the message's last segment; [`Fault::SEGMENT_SHORT`], fewer than 28.
/// - Then of a Terminate: [`Fault::UNTAGGED_MSN_RANGE`], its number is not 1; [`Fault::UNTAGGED_INVALID_OFFSET`];
///   [`Fault::UNTAGGED_TOO_LONG`], more than 52 octets, or not the last segment; [`Fault::SEGMENT_SHORT`], fewer than 4.
///
/// `first` holds all that [`terminate`](crate::terminate) takes of the ULPDU, both with this fault and with any fault that
/// is found later in a segment that passes; of a Read Request, that includes the 28 octets of its own header.
#[inline(always)]
pub fn judge(first: &[u8], len: u16, next: u32, unanswered: usize) -> Result<Head, Fault>
    requires { IsFront FIRST_OCTETS first.now len }
    ensures judged { result ≡ judged first.now len next unanswered }
    ensures header { IfOk result (λ head. header_octets head ≤ len) }
    ensures headers { IfOk result (λ head. HasHeaders head first.now) }
    ensures fits { IfErr result (λ fault. FitsFault fault) }
    ensures cause { IfErr result (λ fault. (request : Bool) → HasCause fault first.now request) }
{
    judge_segment(first, len, next, unanswered)
}

#[inline(always)]
fn judge_segment(first: &[u8], len: u16, next: u32, unanswered: usize) -> Result<Head, Fault>
    requires { IsFront FIRST_OCTETS first.now len }
    ensures { result ≡ judged first.now len next unanswered }
{
    match Segment::read(first) {
        Err(Short) => Err(Fault::SEGMENT_SHORT),
        Ok(Segment::Tagged(head, _)) => match tagged_operation(&head)? {
            TaggedOperation::Write => Ok(Head::Write(head)),
            TaggedOperation::ReadResponse => Ok(Head::Response(head)),
        },
        Ok(Segment::Untagged(head, payload)) => {
            let n = usize::from(len) - UNTAGGED_HEADER;
            match untagged_operation(&head)? {
                UntaggedOperation::Send { .. } => Ok(Head::Send(head)),
                UntaggedOperation::ReadRequest => {
                    judge_request(head, payload, n, next, unanswered)
                }
                UntaggedOperation::Terminate => judge_terminate(head, payload, n),
            }
        }
    }
}

/// The header of a Write or a Read Response, if a ULPDU begins with one that passes its checks, which are those of
/// [`judge`].
///
/// `first` holds the first octets of the ULPDU, as for [`judge`]; 14 of them are enough to tell such a segment.
#[tactic(auto, unfolding(iw_octets::specs::Segment::read_segment))]
#[inline(always)]
pub fn tagged_head(first: &[u8]) -> Option<TaggedHead>
    ensures { result ≡ tagged_in (read_segment first.now) }
{
    if first.is_empty() || !is_tagged(first[0]) {
        return None;
    }
    match TaggedHead::read(first) {
        Err(Short) => None,
        Ok((head, _)) => match tagged_operation(&head) {
            Ok(_) => Some(head),
            Err(_) => None,
        },
    }
}
