ghost use Rattle.std.specs.Prelude.{◌≡◌, ◌+◌, ◌≤◌, ◌++◌, length};
ghost use Rattle.arrayvec.specs.ArrayVec.{array_vec_len};
ghost use Rattle.iw_rdmap.specs.Terminate.{FitsFault, HasCause, has_segment, has_request};
ghost use Rattle.iw_rdmap.specs.Terminate.{word_for, header_len, terminate_octets};

use crate::sizes::MAX_TERMINATE;
use arrayvec::ArrayVec;
use iw_octets::{
    Fault, READ_REQUEST_HEADER, TAGGED_HEADER, TerminateWord, UNTAGGED_HEADER, is_tagged,
};

// The layers whose faults are those of a segment, and the type of RDMAP's remote protection errors.
const RDMAP: u8 = 0;

const DDP: u8 = 1;

const REMOTE_PROTECTION: u8 = 1;

// Whether the segment's length and its DDP header come with this fault.
fn has_segment(fault: Fault) -> bool
    ensures { result ≡ has_segment fault }
{
    fault.layer <= DDP && fault != Fault::SEGMENT_SHORT
}

// Whether its Read Request header comes too.
fn has_request(fault: Fault, request: bool) -> bool
    ensures { result ≡ has_request fault request }
{
    request && fault.layer == RDMAP && fault.kind == REMOTE_PROTECTION
}

fn word_for(fault: Fault, request: bool) -> TerminateWord
    ensures { result ≡ word_for fault request }
{
    let has_segment = has_segment(fault);
    TerminateWord {
        layer: fault.layer,
        kind: fault.kind,
        code: fault.code,
        has_length: has_segment,
        has_ddp: has_segment,
        has_request: has_request(fault, request),
    }
}

// How many octets the DDP header of a segment has that begins with these.
fn header_len(first: &[u8]) -> usize
    ensures len { result ≡ header_len first.now }
    ensures most { result ≤ UNTAGGED_HEADER }
{
    match first.first() {
        Some(&octet) if is_tagged(octet) => TAGGED_HEADER,
        _ => UNTAGGED_HEADER,
    }
}

fn append(payload: &mut ArrayVec<u8, MAX_TERMINATE>, octets: &[u8])
    requires { array_vec_len payload.old + length octets.now ≤ MAX_TERMINATE }
    ensures items { payload.new.items ≡ payload.old.items ++ octets.now }
    ensures len { array_vec_len payload.new ≡ array_vec_len payload.old + length octets.now }
{
    let _ = payload.try_extend_from_slice(octets);
}

/// The payload of the Terminate that a fault ends the stream with (RFC 5040 4.8).
///
/// `first` holds the first octets of the ULPDU of `len` octets that had the fault, and `request` says that it is a Read
/// Request. With a fault of RDMAP or DDP, the payload has the ULPDU's length and its DDP header, as it came, reserved
/// bits and all; with a remote protection error of a Read Request, also its Read Request header. `first` must hold what
/// the payload has of the ULPDU. With [`Fault::SEGMENT_SHORT`] and with a fault of MPA the payload has nothing of it, and
/// `first` may be any octets.
#[tactic(auto, unfolding(iw_octets::specs::Payload::word_octets))]
pub fn terminate(fault: Fault, first: &[u8], len: u16, request: bool) -> ArrayVec<u8, MAX_TERMINATE>
    requires fits { FitsFault fault }
    requires cause { HasCause fault first.now request }
    ensures { result.items ≡ terminate_octets fault first.now len request }
{
    let word = word_for(fault, request);
    let mut payload = ArrayVec::new();
    append(&mut payload, word.write().as_slice());
    if word.has_ddp {
        append(&mut payload, &len.to_be_bytes());
        append(&mut payload, &first[..header_len(first)]);
    }
    if word.has_request {
        let header = header_len(first);
        append(&mut payload, &first[header..header + READ_REQUEST_HEADER]);
    }
    payload
}
