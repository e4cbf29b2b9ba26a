ghost use Rattle.std.specs.Prelude.{◌≡◌, ◌↔◌, ◌+◌, ◌<◌, ◌≤◌, [], length, IsTrue, IsSome, IfSome};
ghost use Rattle.iw_octets.specs.Head.{FitsTagged};
ghost use Rattle.iw_octets.specs.Parts.{part_at};
ghost use Rattle.iw_reads.specs.Requests.{nothing_asked, taken_up, HoldsLimits};
ghost use Rattle.iw_reads.specs.Requests.{response_part, part_fetched, oldest_headers};
ghost use Rattle.iw_reads.specs.Source.{IsInRange};

use crate::response::{ResponsePart, part_of_response, past_part};
use arrayvec::ArrayVec;
use iw_octets::{
    MAX_UNANSWERED, Part, READ_REQUEST_HEADER, ReadRequest, Stag, TAGGED_HEADER, UNTAGGED_HEADER,
};
use std::marker::Model;

/// How many octets the headers of a Read Request have: DDP's, and its own after it.
pub const REQUEST_HEADERS: usize = UNTAGGED_HEADER + READ_REQUEST_HEADER;

/// A Read Request of the peer that was taken: its DDP header as it came, 18 octets, which a later Terminate carries,
/// and the request after it.
#[derive(Debug, Drop)]
pub struct Asked {
    pub header: ArrayVec<u8, 18>,
    pub request: ReadRequest,
}

// A request as it is kept. The numbers of 64 bits come first, so that there is no padding between fields.
#[derive(Drop)]
struct Kept {
    sink_to: u64,
    source_to: u64,
    size: u32,
    sink: Stag,
    source: Stag,
    header: [u8; UNTAGGED_HEADER],
}

impl Model for Kept {
    ghost use Rattle.iw_reads.specs.declared.requests.Asked.{Asked};

    ghost Value = { Asked };

    ghost view = { λ k. record {
      header = record { items = k.header };
      request = record { sink = k.sink; sink_to = k.sink_to; size = k.size; source = k.source; source_to = k.source_to };
    } };
}

// What a place holds before a request is put there.
impl Default for Kept {
    fn default() -> Kept {
        Kept {
            sink_to: 0,
            source_to: 0,
            size: 0,
            sink: Stag::new(0, 0, 0),
            source: Stag::new(0, 0, 0),
            header: [0; UNTAGGED_HEADER],
        }
    }
}

impl Kept {
    // The Read Request.
    fn request(&self) -> ReadRequest
        ensures { result ≡ self.now.request }
    {
        ReadRequest {
            sink: self.sink,
            sink_to: self.sink_to,
            size: self.size,
            source: self.source,
            source_to: self.source_to,
        }
    }
}

/// The Read Requests of a stream's peer: the number of the one that is due, and those that wait for their responses,
/// oldest first, at most [`MAX_UNANSWERED`]. A request waits until the last part of its response was fetched.
#[derive(Drop)]
pub struct Requests {
    // The message sequence number that is due on queue number 1.
    next: u32,
    // How many octets were fetched for the oldest.
    fetched: u32,
    unanswered: ArrayVec<Kept, MAX_UNANSWERED>,
}

impl Model for Requests {
    ghost use Rattle.iw_reads.specs.Requests.{Requested, HoldsLimits};

    ghost Value = { Requested };

    ghost view = { λ s. record { next = s.next; unanswered = s.unanswered.items; fetched = s.fetched } };

    ghost invariant = { λ s. HoldsLimits (record { next = s.next; unanswered = s.unanswered.items; fetched = s.fetched }) };
}

impl Requests {
    /// No request was taken. The first has the message sequence number 1 (RFC 5041 4.3).
    pub fn new() -> Requests
        ensures { result ≡ nothing_asked }
    {
        Requests {
            next: 1,
            fetched: 0,
            unanswered: ArrayVec::new(),
        }
    }

    /// The message sequence number of the request that is due.
    pub fn next_msn(&self) -> u32
        ensures { result ≡ self.now.next }
    {
        self.next
    }

    /// How many requests wait for their responses.
    pub fn len(&self) -> usize
        ensures len { result ≡ length self.now.unanswered }
        ensures limits { HoldsLimits self.now }
    {
        self.unanswered.len()
    }

    pub fn is_empty(&self) -> bool
        ensures { IsTrue result ↔ (self.now.unanswered ≡ []) }
    {
        self.unanswered.is_empty()
    }

    /// For the prover alone: it does nothing. Its clause states the limits that the requests keep: at most [`MAX_UNANSWERED`] wait,
    /// each with a whole header and offsets that don't wrap.
    pub fn limits(&self)
        ensures { HoldsLimits self.now }
    {
        let _ = &self.unanswered;
    }

    /// The headers of the request that has waited longest, 46 octets: DDP's, as it came, and the Read Request's after
    /// it. There are no octets if no request waits.
    pub fn oldest_headers(&self) -> ArrayVec<u8, REQUEST_HEADERS>
        ensures octets { result.items ≡ oldest_headers self.now }
        ensures len { 0 < length self.now.unanswered → length result.items ≡ REQUEST_HEADERS }
    {
        let mut headers = ArrayVec::new();
        if let Some(asked) = self.unanswered.as_slice().first() {
            let _ = headers.try_extend_from_slice(&asked.header);
            let _ = headers.try_extend_from_slice(asked.request().write().as_slice());
        }
        headers
    }

    /// Takes the request that is due: it waits after the others, and the next number is due. There must be room for
    /// it, its header must be whole, and the offsets of its source must not wrap, which
    /// [`check_source`](crate::check_source) checks.
    pub fn take(&mut self, asked: Asked)
        requires room { length self.old.unanswered < MAX_UNANSWERED }
        requires header { length asked.header.items ≡ UNTAGGED_HEADER }
        requires range { IsInRange asked.request }
        ensures { self.new ≡ taken_up self.old asked }
    {
        let Asked { header, request } = asked;
        self.next = self.next.wrapping_add(1);
        self.unanswered.push(to_keep(header, request));
    }

    /// The part that is to be fetched next, of the response to the oldest request, if one waits. Nothing changes.
    ///
    /// `max` is the largest ULPDU that may be sent, in octets. A part is as long as the ULPDU allows after the header,
    /// and the last one has what is left. Only the part of a Read of no octets is empty.
    pub fn next_part(&self, max: usize) -> Option<ResponsePart>
        requires { 14 < max }
        ensures part { result ≡ response_part self.now max }
        ensures short { IfSome result (λ part. TAGGED_HEADER + part.n ≤ max) }
        ensures fits { IfSome result (λ part. FitsTagged part.head) }
    {
        let asked = self.unanswered.as_slice().first()?;
        let part = part_at(asked.size, max - TAGGED_HEADER, self.fetched);
        Some(part_of_response(&asked.request(), part))
    }

    /// Says that the part that `next_part(max)` shows was fetched and sent. With the last part, the oldest request is
    /// answered.
    pub fn part_fetched(&mut self, max: usize)
        requires max { 14 < max }
        requires part { IsSome (response_part self.old max) }
        ensures { self.new ≡ part_fetched self.old (response_part self.old max) }
    {
        let Some(asked) = self.unanswered.as_slice().first() else {
            return;
        };
        let part = part_at(asked.size, max - TAGGED_HEADER, self.fetched);
        if part.last {
            let _ = self.unanswered.remove(0);
            self.fetched = 0;
            return;
        }
        self.fetched = past_part(asked.size, self.fetched, part.n);
    }
}

// The request as it is kept.
fn to_keep(header: ArrayVec<u8, UNTAGGED_HEADER>, request: ReadRequest) -> Kept
    requires { length header.items ≡ UNTAGGED_HEADER }
    ensures { result ≡ record { header = header; request = request } }
{
    let Ok(header) = header.into_inner() else {
        unreachable!();
    };
    Kept {
        sink_to: request.sink_to,
        source_to: request.source_to,
        size: request.size,
        sink: request.sink,
        source: request.source,
        header,
    }
}

// The part from `offset` on of `len` octets, if a part has at most `size`.
fn part_at(len: u32, size: usize, offset: u32) -> Part
    requires { offset ≤ len }
    ensures { result ≡ part_at len size offset }
{
    let left = (len - offset) as usize;
    Part {
        offset: offset as usize,
        n: left.min(size),
        last: left <= size,
    }
}
