//! Where the payload of a frame goes: to a region or a receive buffer, or nowhere.
ghost use Rattle.std.specs.Prelude.{◌≡◌, ◌-◌, ◌≤◌, ◌++◌, if◌then◌else◌, ℕ, List, [], take, drop, length, slice_index};
ghost use Rattle.std.specs.Prelude.{true, Some, None, Ok, IfOk, IfSome, IfNone, OnSome, OnOk, OnErr};
ghost use Rattle.iw_octets.specs.Head.{is_tagged};
ghost use Rattle.iw_octets.specs.Segment.{read_segment};
ghost use Rattle.iw_memory.specs.Table.{Table, put};
ghost use Rattle.iw_fpdu.specs.Found.{HoldsSpan, ulpdu, ulpdu_len};
ghost use Rattle.iw_rdmap.specs.Head.{header_octets};
ghost use Rattle.iw_rdmap.specs.Judging.{judged, tagged_in};
ghost use Rattle.std.specs.Result.{result_err};
ghost use Rattle.iw_reads.specs.Outstanding.{sink_fault};
ghost use Rattle.iw_reads.specs.Requests.{Requested};
ghost use Rattle.iw_reads.specs.Source.{source_fault};
ghost use Rattle.iw_tagged.specs.Placing.{placing_fault};
ghost use Rattle.iw_untagged.specs.Receiving.{Receiving, buffer_fault, written};
ghost use Rattle.iw_stream.specs.Frames.{frame_by, payload_of, placed, header_in, payload_len};
ghost use Rattle.iw_stream.specs.Judging.{Standing, IsFirst, as_tagged, right_of, is_response};
ghost use Rattle.iw_stream.specs.Judging.{mismatch_fault, fault_or, write_verdict, response_verdict};
ghost use Rattle.iw_stream.specs.Judging.{place_in, place_verdict, segment_verdict, verdict};
ghost use Rattle.iw_stream.specs.Judging.{may_be_early, early_verdict, table_tried, receiving_tried, landing_of};
ghost use Rattle.iw_stream.specs.Judging.{table_landed, receiving_landed};

use crate::effects::is_response;
use arrayvec::ArrayVec;
use iw_fpdu::{Fpdu, Mismatch, Pieces};
use iw_memory::{Memory, Peer, Right};
use iw_octets::{
    Fault, ReadRequest, Stag, TAGGED_HEADER, TaggedHead, UNTAGGED_HEADER, UntaggedHead, gather,
    is_tagged,
};
use iw_rdmap::{FIRST_OCTETS, Head, early, judge, tagged_head};
use iw_reads::{Reads, Requests, check_source};
use iw_tagged::Placed;
use iw_untagged::RecvQueue;
use std::alloc::Allocator;

/// Where the payload of a segment goes.
#[derive(Clone, Copy, Debug, PartialEq, Eq)]
pub enum Landing {
    /// A Write's, in a region.
    Write(Placed),
    /// That of part of the response to a Read, in the region that the Read named.
    Response(Placed),
    /// A Send's, in the buffer of its message, `len` octets from the message's octet `mo` on.
    Send { msn: u32, mo: u32, len: usize },
    /// A Read Request's: it is taken up.
    Request(ReadRequest),
    /// A Terminate's: it tells why the peer has ended the stream.
    Terminate(Fault),
}

/// Where a Send's payload went: `len` octets of message `msn`, from its octet `mo` on.
pub(crate) struct Buffered {
    pub(crate) msn: u32,
    pub(crate) mo: u32,
    pub(crate) len: usize,
}

/// What the turn of a frame comes to.
#[derive(Clone, Copy, Debug, PartialEq, Eq)]
pub enum Turning {
    /// There is nothing more to say of it.
    Passed,
    /// A Send is complete with it. It may be solicited, and may have invalidated a region.
    Completed {
        solicited: bool,
        invalidate: Option<Stag>,
    },
    /// The response to a Read is complete with it: the Read with this ticket is finished.
    Answered(u64),
}

/// The octets of a frame's DDP header, as they came.
pub(crate) type Header = ArrayVec<u8, 18>;

/// What is kept of a frame from its placement to its turn: the frame place where it begins, the length of its ULPDU, and the
/// octets of its DDP header as they came.
#[derive(Debug, Drop)]
pub struct PlacedFrame {
    pub header: ArrayVec<u8, 18>,
    pub start: u64,
    pub len: u16,
}

impl PlacedFrame {
    /// How many octets the segment's payload has.
    #[inline(always)]
    pub(crate) fn payload_len(&self) -> usize
        requires { length self.now.header.items ≤ self.now.len }
        ensures { result ≡ payload_len self.now }
    {
        usize::from(self.len) - self.header.len()
    }
}

/// The same octets.
pub(crate) fn copy_of(header: &Header) -> Header
    ensures { result ≡ header.now }
{
    let mut copy = ArrayVec::new();
    let _ = copy.try_extend_from_slice(header.as_slice());
    copy
}

fn fault_of(mismatch: Mismatch) -> Fault
    ensures { result ≡ mismatch_fault mismatch }
{
    match mismatch {
        Mismatch::CrcMismatch => Fault::CRC_MISMATCH,
        Mismatch::MarkerMismatch => Fault::MARKER_MISMATCH,
    }
}

// Appends as many of the octets as there is room for.
fn fill(first: &mut ArrayVec<u8, FIRST_OCTETS>, octets: &[u8])
    ensures { first.new.items ≡ take 46 (first.old.items ++ octets.now) }
{
    let room = first.remaining_capacity();
    let (front, _) = octets.split_at(room.min(octets.len()));
    let _ = first.try_extend_from_slice(front);
}

/// The octets of a ULPDU at which its header is judged, copied.
pub(crate) fn first_octets<A: Allocator>(fpdu: &Fpdu<'_, A>) -> ArrayVec<u8, FIRST_OCTETS>
    requires { HoldsSpan fpdu.now }
    ensures { result.items ≡ take 46 (ulpdu fpdu.now) }
{
    let mut first = ArrayVec::new();
    for piece in fpdu.pieces(0) {
        fill(&mut first, piece);
        if first.is_full() {
            return first;
        }
    }
    first
}

// The octets of a ULPDU up to the first marker among them; none if the ULPDU has none.
#[inline(always)]
fn front<'a, A: Allocator>(fpdu: &Fpdu<'a, A>) -> Option<&'a [u8]>
    requires { HoldsSpan fpdu.now }
    ensures { IfSome result (λ front. (beyond : List ℕ) × (ulpdu fpdu.now ≡ front.now ++ beyond)) }
{
    fpdu.pieces(0).next()
}

/// The octets of a ULPDU that are the header of a tagged segment, and the payload past them, if more octets than the header's
/// stand before the first marker.
#[inline(always)]
pub(crate) fn tagged_parts<'a, A: Allocator>(fpdu: &Fpdu<'a, A>) -> Option<(&'a [u8], Pieces<'a>)>
    requires { HoldsSpan fpdu.now }
    ensures { IfSome result (λ parts. (ulpdu fpdu.now ≡ parts.0.now ++ parts.1) × (length parts.0.now ≡ TAGGED_HEADER)) }
{
    fpdu.pieces(0).split_front(TAGGED_HEADER)
}

// The octets at which a header is judged, if they lie in one piece among those that came.
fn first_piece<'a, A: Allocator>(fpdu: &Fpdu<'a, A>) -> Option<&'a [u8]>
    requires { HoldsSpan fpdu.now }
    ensures { IfSome result (λ first. IsFirst (ulpdu fpdu.now) first.now) }
{
    let first = front(fpdu)?;
    if first.len() < FIRST_OCTETS.min(fpdu.len()) {
        return None;
    }
    Some(first)
}

// Copies the octets of a payload among which markers stand.
#[inline(never)]
fn copy_divided(payload: Pieces<'_>, out: &mut [u8])
    requires { length out.old ≡ length payload }
    ensures { out.new ≡ payload.entry }
{
    gather(payload, out);
}

// Copies the octets of a payload.
#[inline(always)]
fn copy_payload(payload: Pieces<'_>, out: &mut [u8])
    requires { length out.old ≡ length payload }
    ensures { out.new ≡ payload.entry }
{
    match payload.whole() {
        Some(octets) => out.copy_from_slice(octets),
        None => copy_divided(payload, out),
    }
}

// Places the payload of a tagged segment. An `Err` changes nothing.
#[inline(always)]
fn place_tagged<A: Allocator, B: Allocator>(
    head: TaggedHead,
    right: Right,
    fpdu: &Fpdu<'_, A>,
    payload: Pieces<'_>,
    peer: Peer,
    memory: &mut Memory<B>,
) -> Result<Placed, Fault>
    requires holds { HoldsSpan fpdu.now }
    requires long { TAGGED_HEADER ≤ ulpdu_len fpdu.now }
    requires payload { payload ≡ drop TAGGED_HEADER (ulpdu fpdu.now) }
    ensures placed { result ≡ fault_or (placing_fault memory.old peer head (ulpdu_len fpdu.now - TAGGED_HEADER) right) (place_in head (ulpdu_len fpdu.now - TAGGED_HEADER)) }
    ensures ok { OnOk result (memory.new ≡ put memory.old head.stag head.to (drop TAGGED_HEADER (ulpdu fpdu.now))) }
    ensures err { OnErr result (memory.new ≡ memory.old) }
{
    let n = fpdu.len() - TAGGED_HEADER;
    let TaggedHead { stag, to, .. } = head;
    iw_tagged::check(head, n, memory, peer, right)?;
    copy_payload(payload, memory.part_mut_for(peer, stag, to, n, right));
    Ok(Placed { stag, to, n })
}

/// The right that a tagged segment is placed with.
#[inline(always)]
pub(crate) fn right_of(response: bool) -> Right
    ensures { result ≡ right_of response }
{
    if response { Right::Sink } else { Right::Write }
}

// Whether a Read asked for the `n` octets of a Read Response. A Write is not asked for.
#[inline(always)]
fn check_sink<A: Allocator>(
    response: bool,
    head: &TaggedHead,
    n: usize,
    reads: &Reads<A>,
) -> Result<(), Fault>
    ensures { result_err result ≡ (if response then sink_fault reads.now head.now n else None) }
{
    if !response {
        return Ok(());
    }
    // A copy is lent, so that the header needs no place in memory.
    let asked = *head;
    reads.check(&asked, n)
}

/// Judges a whole frame that begins with this header of a Write or a Read Response, what is wrong with the frame itself
/// first, and places its payload (RFC 5044 8, RFC 5041 7.1, RFC 5040 4.8). An `Err` changes nothing.
#[inline(always)]
pub(crate) fn land_tagged<A: Allocator, B: Allocator>(
    response: bool,
    head: TaggedHead,
    fpdu: &Fpdu<'_, A>,
    payload: Pieces<'_>,
    peer: Peer,
    reads: &Reads<B>,
    memory: &mut Memory<B>,
) -> Result<Placed, Fault>
    requires holds { HoldsSpan fpdu.now }
    requires tagged { Some head ≡ tagged_in (read_segment (ulpdu fpdu.now)) }
    requires response { response ≡ is_response head }
    requires payload { payload ≡ drop TAGGED_HEADER (ulpdu fpdu.now) }
    ensures landed { (at : Standing) → at.table ≡ memory.old → at.peer ≡ peer → at.reads ≡ reads.now → as_tagged response result ≡ verdict at (frame_by fpdu.now) }
    ensures memory { IfOk result (λ at. memory.new ≡ put memory.old at.stag at.to (payload_of (read_segment (ulpdu fpdu.now)))) }
    ensures err { OnErr result (memory.new ≡ memory.old) }
{
    if let Err(wrong) = fpdu.check() {
        return Err(fault_of(wrong));
    }
    if let Err(fault) = check_sink(response, &head, fpdu.len() - TAGGED_HEADER, reads) {
        return Err(fault);
    }
    place_tagged(head, right_of(response), fpdu, payload, peer, memory)
}

// Places the payload of a Write's segment. An `Err` changes nothing.
#[inline(always)]
fn place_write<A: Allocator, B: Allocator>(
    head: TaggedHead,
    fpdu: &Fpdu<'_, A>,
    peer: Peer,
    memory: &mut Memory<B>,
) -> Result<Landing, Fault>
    requires holds { HoldsSpan fpdu.now }
    requires long { TAGGED_HEADER ≤ ulpdu_len fpdu.now }
    ensures landed { result ≡ write_verdict memory.old peer head (ulpdu_len fpdu.now - TAGGED_HEADER) }
    ensures memory { IfOk result (λ at. memory.new ≡ table_landed memory.old (drop TAGGED_HEADER (ulpdu fpdu.now)) at) }
    ensures receiving { (r : Receiving) → IfOk result (λ at. r ≡ receiving_landed r (drop TAGGED_HEADER (ulpdu fpdu.now)) at) }
    ensures err { OnErr result (memory.new ≡ memory.old) }
{
    let payload = fpdu.pieces(TAGGED_HEADER);
    match place_tagged(head, Right::Write, fpdu, payload, peer, memory) {
        Ok(placed) => Ok(Landing::Write(placed)),
        Err(fault) => Err(fault),
    }
}

// Places the payload of a segment of a Read Response, if a Read asked for it. An `Err` changes nothing.
fn place_response<A: Allocator, B: Allocator>(
    head: TaggedHead,
    fpdu: &Fpdu<'_, A>,
    peer: Peer,
    reads: &Reads<B>,
    memory: &mut Memory<B>,
) -> Result<Landing, Fault>
    requires holds { HoldsSpan fpdu.now }
    requires long { TAGGED_HEADER ≤ ulpdu_len fpdu.now }
    ensures landed { result ≡ response_verdict memory.old peer reads.now head (ulpdu_len fpdu.now - TAGGED_HEADER) }
    ensures memory { IfOk result (λ at. memory.new ≡ table_landed memory.old (drop TAGGED_HEADER (ulpdu fpdu.now)) at) }
    ensures receiving { (r : Receiving) → IfOk result (λ at. r ≡ receiving_landed r (drop TAGGED_HEADER (ulpdu fpdu.now)) at) }
    ensures err { OnErr result (memory.new ≡ memory.old) }
{
    if let Err(fault) = reads.check(&head, fpdu.len() - TAGGED_HEADER) {
        return Err(fault);
    }
    let payload = fpdu.pieces(TAGGED_HEADER);
    match place_tagged(head, Right::Sink, fpdu, payload, peer, memory) {
        Ok(placed) => Ok(Landing::Response(placed)),
        Err(fault) => Err(fault),
    }
}

// Places the payload of an untagged segment. An `Err` changes nothing.
#[inline(always)]
fn place_send<A: Allocator, B: Allocator>(
    head: UntaggedHead,
    fpdu: &Fpdu<'_, A>,
    receiving: &mut RecvQueue<B>,
) -> Result<Landing, Fault>
    requires holds { HoldsSpan fpdu.now }
    requires long { UNTAGGED_HEADER ≤ ulpdu_len fpdu.now }
    ensures landed { result ≡ fault_or (buffer_fault receiving.old head.msn head.mo (ulpdu_len fpdu.now - UNTAGGED_HEADER)) (Landing.Send head.msn head.mo (ulpdu_len fpdu.now - UNTAGGED_HEADER)) }
    ensures receiving { IfOk result (λ at. receiving.new ≡ receiving_landed receiving.old (drop UNTAGGED_HEADER (ulpdu fpdu.now)) at) }
    ensures memory { (table : Table) → IfOk result (λ at. table ≡ table_landed table (drop UNTAGGED_HEADER (ulpdu fpdu.now)) at) }
    ensures err { OnErr result (receiving.new ≡ receiving.old) }
{
    let len = fpdu.len() - UNTAGGED_HEADER;
    let UntaggedHead { msn, mo, .. } = head;
    receiving.place(msn, mo, len, fpdu.pieces(UNTAGGED_HEADER))?;
    Ok(Landing::Send { msn, mo, len })
}

// Whether the source of a Read may be read.
fn place_request<A: Allocator>(
    request: ReadRequest,
    peer: Peer,
    memory: &Memory<A>,
) -> Result<Landing, Fault>
    ensures landed { result ≡ fault_or (source_fault memory.now peer request) (Landing.Request request) }
    ensures memory { (table : Table) → (payload : List ℕ) → IfOk result (λ at. table ≡ table_landed table payload at) }
    ensures receiving { (r : Receiving) → (payload : List ℕ) → IfOk result (λ at. r ≡ receiving_landed r payload at) }
{
    check_source(&request, memory, peer)?;
    Ok(Landing::Request(request))
}

// Places the payload of a frame whose header passed its checks. An `Err` changes nothing.
#[inline(always)]
fn land<A: Allocator, B: Allocator>(
    head: Head,
    fpdu: &Fpdu<'_, A>,
    peer: Peer,
    reads: &Reads<B>,
    memory: &mut Memory<B>,
    receiving: &mut RecvQueue<B>,
) -> Result<Landing, Fault>
    requires holds { HoldsSpan fpdu.now }
    requires long { header_octets head ≤ ulpdu_len fpdu.now }
    ensures landed { (asked : Requested) → result ≡ place_verdict (record { table = memory.old; peer = peer; receiving = receiving.old; reads = reads.now; asked = asked }) head (ulpdu_len fpdu.now - header_octets head) }
    ensures memory { IfOk result (λ at. memory.new ≡ table_landed memory.old (drop (header_octets head) (ulpdu fpdu.now)) at) }
    ensures receiving { IfOk result (λ at. receiving.new ≡ receiving_landed receiving.old (drop (header_octets head) (ulpdu fpdu.now)) at) }
    ensures err { OnErr result ((memory.new ≡ memory.old) × (receiving.new ≡ receiving.old)) }
{
    match head {
        Head::Write(head) => place_write(head, fpdu, peer, memory),
        Head::Response(head) => place_response(head, fpdu, peer, reads, memory),
        Head::Send(head) => place_send(head, fpdu, receiving),
        Head::Request(_, request) => place_request(request, peer, memory),
        Head::Terminate(_, word) => Ok(Landing::Terminate(word.fault())),
    }
}

// Judges a frame with which nothing is wrong by the octets at its front, and places its payload. An `Err` changes nothing.
#[inline(always)]
fn land_by<A: Allocator, B: Allocator>(
    first: &[u8],
    fpdu: &Fpdu<'_, A>,
    peer: Peer,
    reads: &Reads<B>,
    asked: &Requests,
    memory: &mut Memory<B>,
    receiving: &mut RecvQueue<B>,
) -> Result<Landing, Fault>
    requires holds { HoldsSpan fpdu.now }
    requires first { IsFirst (ulpdu fpdu.now) first.now }
    ensures landed { result ≡ segment_verdict (record { table = memory.old; peer = peer; receiving = receiving.old; reads = reads.now; asked = asked.now }) (ulpdu fpdu.now) }
    ensures memory { IfOk result (λ at. memory.new ≡ table_landed memory.old (payload_of (read_segment (ulpdu fpdu.now))) at) }
    ensures receiving { IfOk result (λ at. receiving.new ≡ receiving_landed receiving.old (payload_of (read_segment (ulpdu fpdu.now))) at) }
    ensures err { OnErr result ((memory.new ≡ memory.old) × (receiving.new ≡ receiving.old)) }
{
    match judge(first, fpdu.len() as u16, asked.next_msn(), asked.len()) {
        Err(fault) => Err(fault),
        Ok(head) => land(head, fpdu, peer, reads, memory, receiving),
    }
}

/// Judges a whole frame, what is wrong with the frame itself before its segment, and places its payload (RFC 5044 8,
/// RFC 5041 7.1, RFC 5040 7.2). An `Err` changes nothing.
#[inline(always)]
pub(crate) fn land_frame<A: Allocator, B: Allocator>(
    fpdu: &Fpdu<'_, A>,
    peer: Peer,
    reads: &Reads<B>,
    asked: &Requests,
    memory: &mut Memory<B>,
    receiving: &mut RecvQueue<B>,
) -> Result<Landing, Fault>
    requires { HoldsSpan fpdu.now }
    ensures landed { result ≡ verdict (record { table = memory.old; peer = peer; receiving = receiving.old; reads = reads.now; asked = asked.now }) (frame_by fpdu.now) }
    ensures memory { IfOk result (λ at. memory.new ≡ table_landed memory.old (payload_of (read_segment (ulpdu fpdu.now))) at) }
    ensures receiving { IfOk result (λ at. receiving.new ≡ receiving_landed receiving.old (payload_of (read_segment (ulpdu fpdu.now))) at) }
    ensures err { OnErr result ((memory.new ≡ memory.old) × (receiving.new ≡ receiving.old)) }
{
    if let Err(mismatch) = fpdu.check() {
        return Err(fault_of(mismatch));
    }
    match first_piece(fpdu) {
        Some(first) => land_by(first, fpdu, peer, reads, asked, memory, receiving),
        None => {
            let first = first_octets(fpdu);
            land_by(
                first.as_slice(),
                fpdu,
                peer,
                reads,
                asked,
                memory,
                receiving,
            )
        }
    }
}

/// Where the payload of a Read Response, or else of a Write, was placed.
#[inline(always)]
pub(crate) fn landing_of(response: bool, placed: Placed) -> Landing
    ensures { result ≡ landing_of response placed }
{
    if response {
        Landing::Response(placed)
    } else {
        Landing::Write(placed)
    }
}

// Judges a whole frame that begins with this header of a Write or a Read Response before its turn, and places its payload
// if it passes every check.
#[inline(always)]
fn land_tagged_early<A: Allocator, B: Allocator>(
    head: TaggedHead,
    fpdu: &Fpdu<'_, A>,
    payload: Pieces<'_>,
    peer: Peer,
    reads: &Reads<B>,
    memory: &mut Memory<B>,
) -> Option<Landing>
    requires holds { HoldsSpan fpdu.now }
    requires tagged { Some head ≡ tagged_in (read_segment (ulpdu fpdu.now)) }
    requires payload { payload ≡ drop TAGGED_HEADER (ulpdu fpdu.now) }
    ensures landed { (at : Standing) → at.table ≡ memory.old → at.peer ≡ peer → at.reads ≡ reads.now → result ≡ early_verdict at (frame_by fpdu.now) }
    ensures memory { memory.new ≡ table_tried memory.old (frame_by fpdu.now) result }
    ensures receiving { (r : Receiving) → r ≡ receiving_tried r (frame_by fpdu.now) result }
{
    let response = is_response(&head);
    match land_tagged(response, head, fpdu, payload, peer, reads, memory) {
        Ok(placed) => Some(landing_of(response, placed)),
        Err(_) => None,
    }
}

/// Judges a whole frame before its turn. That of a Write, a Read Response or a Send which passes every check is placed, in the
/// region or the receive buffer that its header names; any other changes nothing.
pub(crate) fn land_early<A: Allocator, B: Allocator>(
    fpdu: &Fpdu<'_, A>,
    peer: Peer,
    reads: &Reads<B>,
    asked: &Requests,
    memory: &mut Memory<B>,
    receiving: &mut RecvQueue<B>,
) -> Option<Landing>
    requires { HoldsSpan fpdu.now }
    ensures landed { result ≡ early_verdict (record { table = memory.old; peer = peer; receiving = receiving.old; reads = reads.now; asked = asked.now }) (frame_by fpdu.now) }
    ensures memory { memory.new ≡ table_tried memory.old (frame_by fpdu.now) result }
    ensures receiving { receiving.new ≡ receiving_tried receiving.old (frame_by fpdu.now) result }
{
    if let Some((front, payload)) = tagged_parts(fpdu)
        && let Some(head) = tagged_head(front)
    {
        return land_tagged_early(head, fpdu, payload, peer, reads, memory);
    }
    if !is_early(fpdu, asked) {
        return None;
    }
    match land_frame(fpdu, peer, reads, asked, memory, receiving) {
        Ok(landing) => Some(landing),
        Err(_) => None,
    }
}

// Whether the frame's header passes its checks and its segment may be placed before its turn.
fn is_early<A: Allocator>(fpdu: &Fpdu<'_, A>, asked: &Requests) -> bool
    requires { HoldsSpan fpdu.now }
    ensures { result ≡ may_be_early (judged (ulpdu fpdu.now) (length (ulpdu fpdu.now)) asked.now.next (length asked.now.unanswered)) }
{
    let first = first_octets(fpdu);
    match judge(
        first.as_slice(),
        fpdu.len() as u16,
        asked.next_msn(),
        asked.len(),
    ) {
        Ok(head) => early(&head),
        Err(_) => false,
    }
}

/// The octets of a frame's DDP header.
pub(crate) fn header_of<A: Allocator>(fpdu: &Fpdu<'_, A>) -> Header
    requires { HoldsSpan fpdu.now }
    ensures { result ≡ (placed (frame_by fpdu.now)).header }
{
    let mut header = ArrayVec::new();
    keep_header(&mut header, fpdu);
    header
}

// Appends DDP's header at the front of these octets.
#[inline(always)]
fn append_header(header: &mut ArrayVec<u8, 18>, octets: &[u8])
    requires { header.old.items ≡ [] }
    ensures { header.new.items ≡ header_in octets.now }
{
    match octets {
        [first, ..] if is_tagged(*first) => append_front::<TAGGED_HEADER>(header, octets),
        _ => append_front::<UNTAGGED_HEADER>(header, octets),
    }
}

// Appends the first `N` of these octets, or all if they are fewer.
#[inline(always)]
fn append_front<const N: usize>(header: &mut ArrayVec<u8, 18>, octets: &[u8])
    requires empty { header.old.items ≡ [] }
    requires few { N ≤ UNTAGGED_HEADER }
    ensures { header.new.items ≡ take N octets.now }
{
    let _ = match octets.first_chunk::<N>() {
        Some(front) => header.try_extend_from_slice(front),
        None => header.try_extend_from_slice(octets),
    };
}

// Appends DDP's header at the front of a ULPDU.
#[inline(always)]
fn keep_header<A: Allocator>(header: &mut ArrayVec<u8, 18>, fpdu: &Fpdu<'_, A>)
    requires empty { header.old.items ≡ [] }
    requires holds { HoldsSpan fpdu.now }
    ensures { header.new.items ≡ header_in (ulpdu fpdu.now) }
{
    match first_piece(fpdu) {
        Some(first) => append_header(header, first),
        None => append_header(header, first_octets(fpdu).as_slice()),
    }
}

/// What is kept of a frame that was placed; it begins at frame place `start`.
#[inline(always)]
pub(crate) fn placed_frame<A: Allocator>(fpdu: &Fpdu<'_, A>, start: u64) -> PlacedFrame
    requires holds { HoldsSpan fpdu.now }
    requires start { start ≡ fpdu.now.start }
    ensures { result ≡ placed (frame_by fpdu.now) }
{
    let mut header = ArrayVec::new();
    keep_header(&mut header, fpdu);
    PlacedFrame {
        header,
        start,
        len: fpdu.len() as u16,
    }
}

/// Keeps what is kept of a frame that was placed, in place of what was kept before; the frame begins at frame place `start`.
#[inline(always)]
pub(crate) fn keep_frame<A: Allocator>(
    kept: &mut Option<PlacedFrame>,
    fpdu: &Fpdu<'_, A>,
    start: u64,
)
    requires holds { HoldsSpan fpdu.now }
    requires start { start ≡ fpdu.now.start }
    ensures { kept.new ≡ Some (placed (frame_by fpdu.now)) }
{
    let frame = kept.insert(PlacedFrame {
        header: ArrayVec::new(),
        start,
        len: fpdu.len() as u16,
    });
    keep_header(&mut frame.header, fpdu);
}

// Keeps what is kept of a frame that was placed, in place of what was kept before. The frame begins at frame place `start`, and
// its header is judged by these octets.
#[inline(always)]
fn keep_first<A: Allocator>(
    kept: &mut Option<PlacedFrame>,
    fpdu: &Fpdu<'_, A>,
    first: &[u8],
    start: u64,
)
    requires start { start ≡ fpdu.now.start }
    requires first { IsFirst (ulpdu fpdu.now) first.now }
    ensures { kept.new ≡ Some (placed (frame_by fpdu.now)) }
{
    let frame = kept.insert(PlacedFrame {
        header: ArrayVec::new(),
        start,
        len: fpdu.len() as u16,
    });
    append_header(&mut frame.header, first);
}

/// Judges a whole frame. If it is a Send's that passes its checks, its payload is placed, and what is kept of the frame takes
/// the place of what was kept before; the frame begins at frame place `start`. Otherwise nothing changes: it is another frame,
/// or at fault, or a marker stands among the octets that its header is judged by.
#[inline(always)]
pub(crate) fn land_send<A: Allocator, B: Allocator>(
    kept: &mut Option<PlacedFrame>,
    fpdu: Fpdu<'_, A>,
    start: u64,
    asked: &Requests,
    receiving: &mut RecvQueue<B>,
) -> Option<Buffered>
    requires holds { HoldsSpan fpdu }
    requires start { start ≡ fpdu.start }
    ensures landed { (at : Standing) → at.receiving ≡ receiving.old → at.asked ≡ asked.now
        → IfSome result (λ to. verdict at (frame_by fpdu.entry) ≡ Ok (Landing.Send to.msn to.mo to.len)) }
    ensures receiving { IfSome result (λ to. receiving.new ≡ written receiving.old to.msn to.mo (payload_of (read_segment (ulpdu fpdu.entry)))) }
    ensures kept { OnSome result (kept.new ≡ Some (placed (frame_by fpdu.entry))) }
    ensures none { IfNone result ((kept.new ≡ kept.old) × (receiving.new ≡ receiving.old)) }
{
    let Ok(()) = fpdu.check() else {
        return None;
    };
    let first = first_piece(&fpdu)?;
    let Ok(Head::Send(head)) = judge(first, fpdu.len() as u16, asked.next_msn(), asked.len()) else {
        return None;
    };
    let Ok(Landing::Send { msn, mo, len }) = place_send(head, &fpdu, receiving) else {
        return None;
    };
    keep_first(kept, &fpdu, first, start);
    Some(Buffered { msn, mo, len })
}

/// Keeps what is kept of a tagged frame that was placed, in place of what was kept before. The frame begins at frame place
/// `start`, and its ULPDU with these octets, which include the header.
#[inline(always)]
pub(crate) fn keep_tagged<A: Allocator>(
    kept: &mut Option<PlacedFrame>,
    fpdu: &Fpdu<'_, A>,
    front: &[u8],
    start: u64,
)
    requires start { start ≡ fpdu.now.start }
    requires front { (beyond : List ℕ) × (ulpdu fpdu.now ≡ front.now ++ beyond) }
    requires tagged { is_tagged (slice_index front.now 0) ≡ true }
    requires long { TAGGED_HEADER ≤ length front.now }
    ensures { kept.new ≡ Some (placed (frame_by fpdu.now)) }
{
    let frame = kept.insert(PlacedFrame {
        header: ArrayVec::new(),
        start,
        len: fpdu.len() as u16,
    });
    let (header, _) = front.split_at(TAGGED_HEADER);
    let _ = frame.header.try_extend_from_slice(header);
}
