ghost use Rattle.std.specs.Prelude.{◌≡◌, ℕ, List, IfOk, OnOk, OnErr};
ghost use Rattle.std.specs.Result.{result_err};
ghost use Rattle.std.specs.Iterator.{IsFinite};
ghost use Rattle.iw_octets.specs.Pieces.{AddUpTo, JoinTo};
ghost use Rattle.iw_memory.specs.Table.{put};
ghost use Rattle.iw_tagged.specs.Placing.{denial_fault, placing_fault};

use iw_memory::{Deny, Memory, Peer, Right};
use iw_octets::{Fault, Stag, TaggedHead, gather};
use std::alloc::Allocator;

/// What was placed: `n` octets in a region, at tagged offset `to`.
#[derive(Clone, Copy, Debug, PartialEq, Eq)]
pub struct Placed {
    pub stag: Stag,
    pub to: u64,
    pub n: usize,
}

/// `Ok` if a segment from this peer with this header and `n` octets of payload may be placed. Ask for the right `Write`
/// for an RDMA Write, and `Sink` for a Read Response. With no octets nothing is checked.
///
/// The `Err` is the first of these that applies: the STag is another domain's, or names a region that is limited to
/// another stream; it names no valid region; the tagged offset wraps; the octets lie outside the region; the region does
/// not grant the right (RFC 5041 7.1, RFC 5040 4.8, RFC 5042 6.1.1).
#[inline(always)]
pub fn check<A: Allocator>(
    head: TaggedHead,
    n: usize,
    memory: &Memory<A>,
    peer: Peer,
    right: Right,
) -> Result<(), Fault>
    ensures { result_err result ≡ placing_fault memory.now peer head n right }
{
    match memory.check_for(peer, head.stag, head.to, n, right) {
        Ok(()) => Ok(()),
        Err(deny) => Err(fault_of(deny)),
    }
}

/// Places a segment's payload, `n` octets in pieces, in the region that its header names, if [`check`] answers `Ok`.
/// Nothing else changes. An `Err` is that of `check`, and changes nothing.
#[inline(always)]
pub fn place<'a, A: Allocator, I: Iterator<Item = &'a [u8]>>(
    head: TaggedHead,
    n: usize,
    pieces: I,
    memory: &mut Memory<A>,
    peer: Peer,
    right: Right,
) -> Result<Placed, Fault>
    requires can { I.can_next pieces }
    requires ends { IsFinite (I.remaining pieces) }
    requires fits { AddUpTo I.next_gives pieces n }
    ensures refused { result_err result ≡ placing_fault memory.old peer head n right }
    ensures placed { IfOk result (λ placed. placed ≡ record { stag = head.stag; to = head.to; n = n }) }
    ensures ok { OnOk result ((octets : List ℕ) × JoinTo I.next_gives pieces octets
        × (memory.new ≡ put memory.old head.stag head.to octets)) }
    ensures err { OnErr result (memory.new ≡ memory.old) }
{
    let TaggedHead { stag, to, .. } = head;
    check(head, n, memory, peer, right)?;
    gather(pieces, memory.part_mut_for(peer, stag, to, n, right));
    Ok(Placed { stag, to, n })
}

/// The fault by which a denial is reported.
fn fault_of(deny: Deny) -> Fault
    ensures { result ≡ denial_fault deny }
{
    match deny {
        Deny::NotAssociated => Fault::TAGGED_NOT_ASSOCIATED,
        Deny::Invalid => Fault::TAGGED_INVALID_STAG,
        Deny::ToWrap => Fault::TAGGED_OFFSET_WRAP,
        Deny::Bounds => Fault::TAGGED_BOUNDS,
        Deny::Rights => Fault::PROTECTION_RIGHTS,
    }
}
