ghost use Rattle.std.specs.Prelude.{◌≡◌, ◌↔◌, ◌+◌, ◌<◌, ◌≤◌, ◌^◌, ◌==◌, ◌&&◌, ◌||◌, not, nat_le};
ghost use Rattle.std.specs.Prelude.{[], length, IsTrue, IfOk, OnOk, OnErr};
ghost use Rattle.std.specs.Result.{result_err};
ghost use Rattle.iw_reads.specs.Outstanding.{most_reads, asked_for, HoldsLimits};
ghost use Rattle.iw_reads.specs.Outstanding.{same_stag, is_inside, asks_for, is_asked, sink_fault};
ghost use Rattle.iw_reads.specs.Outstanding.{goes_on, response_turn_fault, reads_turned, finished_read};

use crate::response::past_part;
use iw_octets::{Fault, MAX_UNANSWERED, ReadRequest, Stag, TaggedHead};
use std::alloc::{AllocError, Allocator, Global};
use std::marker::Model;

/// A Read whose request was sent, and whose response has not ended: its last segment had no turn yet.
#[derive(Clone, Copy, Debug, PartialEq, Eq)]
pub struct Outstanding {
    /// The number that it was given when it was posted. `None` if it was not posted.
    pub ticket: Option<u64>,
    pub request: ReadRequest,
    /// How many octets of its response had their turn.
    pub turned: u32,
}

// An outstanding Read as it is kept. The numbers of 64 bits come first, so that there is no padding between fields.
#[derive(Drop)]
struct Kept {
    ticket: Option<u64>,
    sink_to: u64,
    source_to: u64,
    size: u32,
    turned: u32,
    sink: Stag,
    source: Stag,
}

impl Model for Kept {
    ghost use Rattle.iw_reads.specs.declared.reads.Outstanding.{Outstanding};

    ghost Value = { Outstanding };

    ghost view = { λ r. record {
      ticket = r.ticket;
      request = record { sink = r.sink; sink_to = r.sink_to; size = r.size; source = r.source; source_to = r.source_to };
      turned = r.turned;
    } };
}

/// The outstanding Reads of one end of a stream, oldest first, at most [`MAX_UNANSWERED`].
#[derive(Drop)]
pub struct Reads<A: Allocator = Global> {
    reads: Vec<Kept, A>,
}

impl<A: Allocator> Model for Reads<A> {
    ghost use Rattle.std.specs.Prelude.{List, vec_capacity};
    ghost use Rattle.iw_reads.specs.declared.reads.Outstanding.{Outstanding};
    ghost use Rattle.iw_reads.specs.Outstanding.{HasPlaces};

    ghost Value = { List Outstanding };

    ghost view = { λ s. s.reads.items };

    ghost invariant = { λ s. HasPlaces s.reads.items (vec_capacity s.reads) };
}

impl<A: Allocator> Reads<A> {
    /// No Read is outstanding. No memory is taken yet.
    pub fn new(alloc: A) -> Reads<A>
        ensures { result ≡ [] }
    {
        Reads {
            reads: Vec::new(alloc),
        }
    }

    /// How many Reads are outstanding.
    pub fn len(&self) -> usize
        ensures len { result ≡ length self.now }
        ensures limits { HoldsLimits self.now }
    {
        self.reads.len()
    }

    pub fn is_empty(&self) -> bool
        ensures { IsTrue result ↔ (self.now ≡ []) }
    {
        self.reads.is_empty()
    }

    /// For the prover alone: it does nothing. Its clause states the limits that the Reads keep: there are at most
    /// [`MAX_UNANSWERED`], and only of the oldest one's response had any octets their turn.
    pub fn limits(&self)
        ensures { HoldsLimits self.now }
    {
        let _ = &self.reads;
    }

    /// Whether as many Reads are outstanding as may be, so that no request may be sent.
    pub fn is_full(&self) -> bool
        ensures { result ≡ nat_le most_reads (length self.now) }
    {
        self.reads.len() >= MAX_UNANSWERED
    }

    /// Says that the request of the Read with this ticket was sent. There must be room for it. A Read that was not posted
    /// has no ticket.
    ///
    /// The first Read takes the memory for all [`MAX_UNANSWERED`]. So an `Err`, which means out of memory, comes only if no
    /// Read is outstanding. It changes nothing.
    pub fn add(&mut self, ticket: Option<u64>, request: ReadRequest) -> Result<(), AllocError>
        requires { length self.old < most_reads }
        ensures ok { OnOk result (self.new ≡ asked_for self.old ticket request) }
        ensures err { OnErr result (self.new ≡ self.old) }
        ensures memory { OnErr result (self.old ≡ []) }
    {
        self.reads.reserve_exact(MAX_UNANSWERED - self.reads.len())?;
        self.reads.push_reserved(Kept {
            ticket,
            sink_to: request.sink_to,
            source_to: request.source_to,
            size: request.size,
            turned: 0,
            sink: request.sink,
            source: request.source,
        });
        Ok(())
    }

    /// Checks that a segment of a Read Response with this header and `n` octets of payload was asked for: a Read is
    /// outstanding with the header's STag as its sink, and the octets lie inside the sink, whose tagged offsets count
    /// modulo 2^64; with no octets any tagged offset will do. Otherwise the fault is [`Fault::OPERATION_UNEXPECTED`]. The
    /// region itself is not checked, and nothing changes (RFC 5040 4.8, 5.2.2).
    pub fn check(&self, head: &TaggedHead, n: usize) -> Result<(), Fault>
        ensures { result_err result ≡ sink_fault self.now head.now n }
    {
        if is_asked(self.reads.as_slice(), head, n) {
            return Ok(());
        }
        Err(Fault::OPERATION_UNEXPECTED)
    }

    /// Gives a segment of a Read Response with this header and `n` octets of payload, which was placed, its turn. The
    /// answer is the ticket of the Read that the segment ends, if the segment is the last of its response and the Read has
    /// a ticket.
    ///
    /// Responses come in the order of the requests (RFC 5040 5.2.2): the segment must go on with the response of the
    /// oldest Read, at the tagged offset past the octets that had their turn. It may not run past the Read's size, and may
    /// be the last of its response only if the size is reached with it; a segment without octets may come even past that
    /// size's last octet. Otherwise, and if no Read is outstanding, the fault is [`Fault::PROTECTION_BOUNDS`], which changes
    /// nothing.
    #[inline(always)]
    pub fn turn(&mut self, head: &TaggedHead, n: usize) -> Result<Option<u64>, Fault>
        ensures refused { result_err result ≡ response_turn_fault self.old head.now n }
        ensures finished { IfOk result (λ finished. finished ≡ finished_read self.old head.now) }
        ensures ok { OnOk result (self.new ≡ reads_turned self.old head.now n) }
        ensures err { OnErr result (self.new ≡ self.old) }
    {
        let Some(read) = self.reads.as_slice().first() else {
            return Err(Fault::PROTECTION_BOUNDS);
        };
        if !goes_on(read, head, n) {
            return Err(Fault::PROTECTION_BOUNDS);
        }
        if head.last {
            let ticket = read.ticket;
            let _ = self.reads.remove(0);
            return Ok(ticket);
        }
        self.reads[0] = turned_by(read, n);
        Ok(None)
    }
}

// The Read after `n` octets more of its response had their turn.
#[inline(always)]
fn turned_by(read: &Kept, n: usize) -> Kept
    requires { read.now.turned + n ≤ read.now.request.size }
    ensures { result ≡ record read.now { turned = read.now.turned + n } }
{
    Kept {
        ticket: read.ticket,
        sink_to: read.sink_to,
        source_to: read.source_to,
        size: read.size,
        turned: past_part(read.size, read.turned, n),
        sink: read.sink,
        source: read.source,
    }
}

#[tactic(auto, using(crate::proofs::Checks::same_numbers))]
#[inline(always)]
fn same_stag(a: &Stag, b: &Stag) -> bool
    ensures { result ≡ same_stag a.now b.now }
{
    a.known();
    b.known();
    a == b
}

// Whether the `n` octets from tagged offset `to` on lie inside the sink.
fn is_inside(read: &Kept, to: u64, n: usize) -> bool
    ensures { result ≡ is_inside read.now.request to n }
{
    let size = read.size as u64;
    let offset = to.wrapping_sub(read.sink_to);
    n == 0 || (offset <= size && n as u64 <= size - offset)
}

// Whether the response of the Read goes on with this segment.
#[inline(always)]
fn goes_on(read: &Kept, head: &TaggedHead, n: usize) -> bool
    requires { read.now.turned ≤ read.now.request.size }
    ensures goes_on { result ≡ goes_on read.now head.now n }
    ensures small { IsTrue result → n < 2 ^ 32 }
{
    let next = read.sink_to.wrapping_add(read.turned as u64);
    same_stag(&read.sink, &head.stag)
        && head.to == next
        && fits(read.size, read.turned, head.last, n)
}

// Whether the `n` octets after those that had their turn do not run past the size, and reach it if they are the last.
#[inline(always)]
fn fits(size: u32, turned: u32, last: bool, n: usize) -> bool
    requires { turned ≤ size }
    ensures small { IsTrue result → n < 2 ^ 32 }
    ensures fits { result ≡ (nat_le (turned + n) size && (not last || (turned + n == size))) }
{
    let left = (size - turned) as usize;
    n <= left && (!last || n == left)
}

// Whether the Read asked for what the segment brings.
fn asks_for(head: &TaggedHead, n: usize, read: &Kept) -> bool
    ensures { result ≡ asks_for head.now n read.now }
{
    same_stag(&read.sink, &head.stag) && is_inside(read, head.to, n)
}

fn is_asked(reads: &[Kept], head: &TaggedHead, n: usize) -> bool
    ensures { result ≡ is_asked reads.now head.now n }
{
    for read in reads {
        if asks_for(head, n, read) {
            return true;
        }
    }
    false
}
