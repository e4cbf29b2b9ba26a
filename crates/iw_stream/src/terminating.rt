//! Terminates: the one that a fault makes due, and the one that came (RFC 5040 4.8).
ghost use Rattle.std.specs.Prelude.{◌≡◌, ◌<◌, ◌≤◌, length, take, false};
ghost use Rattle.iw_fpdu.specs.Found.{HoldsSpan, ulpdu};
ghost use Rattle.iw_rdmap.specs.Terminate.{FitsFault, HasCause, header_len, has_segment};
ghost use Rattle.iw_reads.specs.Requests.{Requested};
ghost use Rattle.iw_stream.specs.Frames.{Frame, frame_by};
ghost use Rattle.iw_stream.specs.Stream.{over};
ghost use Rattle.iw_stream.specs.Terminating.{is_request_of, terminate_alone, terminate_judged, terminate_turned, terminate_fetched};
ghost use Rattle.iw_stream.specs.Work.{clash_fault};

use crate::ending::Ending;
use crate::incoming::Incoming;
use crate::landing::{PlacedFrame, first_octets};
use crate::starting::Start;
use arrayvec::ArrayVec;
use iw_fpdu::Fpdu;
use iw_octets::Fault;
use iw_rdmap::{MAX_TERMINATE, judge, terminate};
use iw_reads::{REQUEST_HEADERS, Requests};
use std::alloc::Allocator;

/// The payload of a Terminate.
pub(crate) type LastWord = ArrayVec<u8, MAX_TERMINATE>;

/// The end by a fault, with the Terminate that is then due; a responder at which no frame had its turn ends without one.
pub(crate) fn over<A: Allocator>(
    terminate: LastWord,
    start: &Start,
    arrived: &Incoming<A>,
) -> Ending
    ensures { result ≡ over start.now arrived.now.arrived terminate.items }
{
    if start.is_responder() && arrived.floor() == start.first_place_in() {
        return Ending::Over(None);
    }
    Ending::Over(Some(terminate))
}

/// The payload of the Terminate for a whole frame that was judged and found to have this fault.
#[inline(never)]
pub(crate) fn terminate_judged<A: Allocator>(
    fpdu: &Fpdu<'_, A>,
    fault: Fault,
    asked: &Requests,
) -> LastWord
    requires holds { HoldsSpan fpdu.now }
    requires fits { FitsFault fault }
    requires cause { HasCause fault (take 46 (ulpdu fpdu.now)) (is_request_of asked.now (ulpdu fpdu.now)) }
    ensures { result.items ≡ terminate_judged asked.now (frame_by fpdu.now) fault }
{
    let first = first_octets(fpdu);
    let len = fpdu.len() as u16;
    let asks = match judge(first.as_slice(), len, asked.next_msn(), asked.len()) {
        Ok(head) => head.is_request(),
        Err(_) => false,
    };
    terminate(fault, first.as_slice(), len, asks)
}

/// The payload of the Terminate for a frame at the in-order point that lies over one that was placed early. Nothing of the
/// frame comes with it, so that its octets, some of which were given up, are not looked at.
#[inline(never)]
pub(crate) fn terminate_clashed() -> LastWord
    ensures { (asked : Requested) → (frame : Frame) → result.items ≡ terminate_judged asked frame clash_fault }
{
    terminate(Fault::MARKER_MISMATCH, &[], 0, false)
}

/// The payload of the Terminate for a fault of no frame.
pub(crate) fn terminate_alone(fault: Fault) -> LastWord
    requires fits { FitsFault fault }
    requires alone { has_segment fault ≡ false }
    ensures { result.items ≡ terminate_alone fault }
{
    terminate(fault, &[], 0, false)
}

/// The payload of the Terminate for a frame whose turn has this fault.
#[inline(never)]
pub(crate) fn terminate_turned(frame: &PlacedFrame, fault: Fault) -> LastWord
    requires fits { FitsFault fault }
    requires whole { header_len frame.now.header.items ≤ length frame.now.header.items }
    ensures { result.items ≡ terminate_turned frame.now fault }
{
    terminate(fault, frame.header.as_slice(), frame.len, false)
}

/// The payload of the Terminate for the oldest Read Request, if a part of its source is denied by this fault.
#[inline(never)]
pub(crate) fn terminate_fetched(asked: &Requests, fault: Fault) -> LastWord
    requires fits { FitsFault fault }
    requires waits { 0 < length asked.now.unanswered }
    ensures { result.items ≡ terminate_fetched asked.now fault }
{
    let first = asked.oldest_headers();
    terminate(fault, first.as_slice(), REQUEST_HEADERS as u16, true)
}
