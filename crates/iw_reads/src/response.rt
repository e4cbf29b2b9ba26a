ghost use Rattle.std.specs.Prelude.{◌≡◌, ◌+◌, ◌<◌, ◌≤◌, ◌^◌, IfOk, length};
ghost use Rattle.std.specs.Result.{result_err};
ghost use Rattle.iw_octets.specs.Head.{FitsTagged};
ghost use Rattle.iw_reads.specs.Response.{response_head, part_of_response, fetch_fault, fetched_octets};

use crate::source::readable;
use iw_memory::{Memory, Peer};
use iw_octets::{DDP_VERSION, Fault, Part, ReadRequest, Stag, TaggedHead, TaggedOperation};
use std::alloc::Allocator;

/// A part of the response to a Read: what one segment carries.
#[derive(Clone, Copy, Debug, PartialEq, Eq)]
pub struct ResponsePart {
    /// The segment's header, which names the sink.
    pub head: TaggedHead,
    /// The region that its octets are fetched from.
    pub stag: Stag,
    /// The tagged offset of the first of them.
    pub to: u64,
    /// How many there are.
    pub n: usize,
}

/// The header of a segment of the response whose octets begin `offset` octets into what was asked for.
fn response_head(request: &ReadRequest, offset: usize, last: bool) -> TaggedHead
    ensures head { result ≡ response_head request.now offset last }
    ensures fits { FitsTagged result }
{
    let stag = request.sink;
    stag.known();
    TaggedHead {
        last,
        ddp_version: DDP_VERSION,
        control: TaggedOperation::ReadResponse.control(),
        stag,
        to: request.sink_to.wrapping_add(offset as u64),
    }
}

/// A part of what was asked for, with its header and its place in the source.
pub(crate) fn part_of_response(request: &ReadRequest, part: Part) -> ResponsePart
    requires { 0 < part.offset → request.now.source_to + part.offset < 2 ^ 64 }
    ensures part { result ≡ part_of_response request.now part }
    ensures fits { FitsTagged result.head }
{
    ResponsePart {
        head: response_head(request, part.offset, part.last),
        stag: request.source,
        to: request.source_to + part.offset as u64,
        n: part.n,
    }
}

/// The offset past the next `n` of `len` octets.
#[inline(always)]
pub(crate) fn past_part(len: u32, offset: u32, n: usize) -> u32
    requires { offset + n ≤ len }
    ensures { result ≡ offset + n }
{
    offset + n as u32
}

/// The octets of a part, lent by the region, for this peer. Whether it may read them is checked again for each part
/// (RFC 5040 7.2): the fault is the first that [`check_source`](crate::check_source) names, for these octets.
pub fn fetch<'a, A: Allocator>(
    part: &ResponsePart,
    memory: &'a Memory<A>,
    peer: Peer,
) -> Result<&'a [u8], Fault>
    ensures denied { result_err result ≡ fetch_fault memory.now peer part.now }
    ensures octets { IfOk result (λ octets. octets.now ≡ fetched_octets memory.now part.now) }
    ensures len { IfOk result (λ octets. length octets.now ≡ part.now.n) }
{
    readable(memory, peer, part.stag, part.to, part.n)
}
