ghost use Rattle.std.specs.Prelude.{◌≡◌, OnOk, IfOk, length};
ghost use Rattle.std.specs.Result.{result_err};
ghost use Rattle.iw_memory.specs.Table.{octets_at};
ghost use Rattle.iw_reads.specs.Source.{denial_fault, reading_fault, source_fault, IsInRange};

use iw_memory::{Deny, Memory, Peer, Right};
use iw_octets::{Fault, ReadRequest, Stag};
use std::alloc::Allocator;

/// Checks that this peer may read all octets that a Read asks for. The fault is the first that applies of RDMAP's
/// protection errors: the STag belongs to another domain, or names a region that is limited to another stream; it names
/// no valid region; the offsets wrap; they leave the region; the region does not grant the right to read (RFC 5040 5.2.1,
/// 7.2, RFC 5042 6.1.1). A Read of no octets passes whatever its STag is.
pub fn check_source<A: Allocator>(
    request: &ReadRequest,
    memory: &Memory<A>,
    peer: Peer,
) -> Result<(), Fault>
    ensures fault { result_err result ≡ source_fault memory.now peer request.now }
    ensures range { OnOk result (IsInRange request.now) }
{
    match memory.check_for(
        peer,
        request.source,
        request.source_to,
        request.size as usize,
        Right::Read,
    ) {
        Ok(()) => Ok(()),
        Err(deny) => Err(fault_of(deny)),
    }
}

/// The `n` octets from tagged offset `to` on, if this peer may read them.
pub(crate) fn readable<'a, A: Allocator>(
    memory: &'a Memory<A>,
    peer: Peer,
    stag: Stag,
    to: u64,
    n: usize,
) -> Result<&'a [u8], Fault>
    ensures denied { result_err result ≡ reading_fault memory.now peer stag to n }
    ensures octets { IfOk result (λ octets. octets.now ≡ octets_at memory.now stag to n) }
    ensures len { IfOk result (λ octets. length octets.now ≡ n) }
{
    match memory.part_for(peer, stag, to, n, Right::Read) {
        Ok(octets) => Ok(octets),
        Err(deny) => Err(fault_of(deny)),
    }
}

// What a denial is reported as.
fn fault_of(deny: Deny) -> Fault
    ensures { result ≡ denial_fault deny }
{
    match deny {
        Deny::NotAssociated => Fault::PROTECTION_NOT_ASSOCIATED,
        Deny::Invalid => Fault::PROTECTION_INVALID_STAG,
        Deny::ToWrap => Fault::PROTECTION_OFFSET_WRAP,
        Deny::Bounds => Fault::PROTECTION_BOUNDS,
        Deny::Rights => Fault::PROTECTION_RIGHTS,
    }
}
