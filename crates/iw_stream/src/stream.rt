//! A stream: how it is made, its postings, and what is told of it; its other calls are in `stream/`.
ghost use Rattle.std.specs.Prelude.{◌≡◌, ◌-◌, length, true, false, None, IfSome, IfNone, IfOk, IfErr, IsErr, OnOk, OnErr};
ghost use Rattle.std.specs.Result.{result_err};
ghost use Rattle.iw_queues.specs.Outgoing.{request_of};
ghost use Rattle.iw_ranges.specs.Arrived.{BringsOctets};
ghost use Rattle.iw_stream.specs.Ending.{has_ended, last_word};
ghost use Rattle.iw_stream.specs.Starting.{is_open, exceeds_request, private_in, told_in, options_in, agreement_in};
ghost use Rattle.iw_stream.specs.Stream.{post_refusal_of, recv_refusal_of};

mod emission;
mod judgement;
mod lending;
mod reading;
mod room;
mod sharing;
mod tasks;
mod turns;

use crate::answer::{
    AnswerRefusal, FirstRefusal, PostRefusal, RecvRefusal, Role, SizeRefusal, Standing,
};
use crate::ending::Ending;
use crate::incoming::Incoming;
use crate::landing::PlacedFrame;
use crate::starting::Start;
use crate::terminating::{LastWord, over};
use crate::writing::Numbers;
use bytes::Bytes;
use iw_memory::Peer;
use iw_octets::{MAX_ULPDU, Message};
use iw_queues::{Refusal, Request, SendQueue};
use iw_ranges::Delivery;
use iw_ranges::nearest::near;
use iw_reads::{Reads, Requests};
use iw_startup::{Agreed, Config, EnhancedData, PeerOptions, PrivateData};
use iw_untagged::{BufferRefusal, RecvQueue};
use std::alloc::{AllocError, Allocator, Global};
use std::marker::Model;
use std_alloc::vec::Lodged;

// The ULPDU size of a stream for which none was set, in octets.
const FIRST_MULPDU: u16 = 1400;

const MIN_MULPDU: u32 = 128;

const MAX_MULPDU: u32 = MAX_ULPDU as u32;

/// One stream of a domain: what was posted at it, and what came.
#[derive(Drop)]
pub struct Stream<A: Allocator = Global> {
    // What came from the peer, from the in-order point on, and the frames among it that were judged early.
    arrived: Incoming<A>,
    // The frame at the in-order point, once it was placed.
    front: Option<PlacedFrame>,
    // What each step and each frame looks at stands together.
    domain: u8,
    // Whether octets were delivered, and kept or dropped.
    answered: bool,
    mulpdu: u16,
    // The sequence number of the peer's first octet.
    first: u32,
    // The stream's number at its endpoint, if it was given one.
    number: Option<u32>,
    sent: u64,
    numbers: Numbers,
    ending: Ending,
    queue: SendQueue<A>,
    receiving: RecvQueue<A>,
    // The Reads of this end whose responses have not come whole.
    reads: Reads<A>,
    // The peer's Read Requests.
    asked: Requests,
    start: Start,
}

impl<A: Allocator> Model for Stream<A> {
    ghost use Rattle.iw_stream.specs.Stream.{StreamState};

    ghost Value = { StreamState };

    ghost use Rattle.iw_stream.specs.Fields.{state_of, IsSound};

    ghost view = { λ s. state_of s };

    ghost invariant = { λ s. IsSound s };
}

fn post_refusal_of(refusal: Refusal) -> PostRefusal
    ensures { result ≡ post_refusal_of refusal }
{
    match refusal {
        Refusal::Full => PostRefusal::Full,
        Refusal::TooLong => PostRefusal::TooLong,
        Refusal::NoMemory => PostRefusal::NoMemory,
    }
}

fn recv_refusal_of(refusal: BufferRefusal) -> RecvRefusal
    ensures { result ≡ recv_refusal_of refusal }
{
    match refusal {
        BufferRefusal::Full => RecvRefusal::Full,
        BufferRefusal::NoMemory => RecvRefusal::NoMemory,
    }
}

impl<A: Allocator> Stream<A> {
    ghost use Rattle.iw_stream.specs.Stream.{opened, opened_shared, numbered, peer_of, shares, ended, standing_of, quits, ends_by, breaks, answer_refusal, accepted, rejected};
    ghost use Rattle.iw_stream.specs.Stream.{post_refusal, with_request, recv_refusal, with_buffer};
    ghost use Rattle.iw_stream.specs.Stream.{first_refusal, with_first, place_of, left_out};
    ghost use Rattle.iw_stream.specs.Stream.{delivery_of, after_deliver, size_refusal, with_mulpdu};
    ghost use Rattle.iw_stream.specs.Kept.{IsWithin};

    /// A stream of this domain with a ULPDU size of 1,400 octets, which begins as its role says: open at once, with the
    /// markers and CRCs that `config` asks for in both directions, or with start-up frames, which agree on them.
    ///
    /// An initiator that asks for revision 2 has at most 508 octets of private data ([`exceeds_request`](crate::exceeds_request)).
    ///
    /// An `Err` means out of memory.
    pub fn new(alloc: A, domain: u8, role: Role, config: Config) -> Result<Stream<A>, AllocError>
    where
        A: Copy,
        requires { exceeds_request role config ≡ false }
        ensures { IfOk result (λ stream. stream ≡ opened domain role config) }
    {
        let receiving = RecvQueue::new(alloc)?;
        Stream::with_queue(alloc, domain, role, config, receiving)
    }

    /// The same, of a stream whose receive buffers come from a pool that it shares with others of its domain
    /// ([`Stream::work_shared`]).
    ///
    /// An `Err` means out of memory.
    pub fn new_shared(
        alloc: A,
        domain: u8,
        role: Role,
        config: Config,
    ) -> Result<Stream<A>, AllocError>
    where
        A: Copy,
        requires { exceeds_request role config ≡ false }
        ensures { IfOk result (λ stream. stream ≡ opened_shared domain role config) }
    {
        let receiving = RecvQueue::shared(alloc)?;
        Stream::with_queue(alloc, domain, role, config, receiving)
    }

    // A stream with this receive queue.
    fn with_queue(
        alloc: A,
        domain: u8,
        role: Role,
        config: Config,
        receiving: RecvQueue<A>,
    ) -> Result<Stream<A>, AllocError>
    where
        A: Copy,
        requires { exceeds_request role config ≡ false }
        ensures { IfOk result (λ stream. stream ≡ record (opened domain role config) { receiving = receiving }) }
    {
        let start = Start::new(role, config);
        let arrived = Incoming::new(alloc, start.expecting())?;
        Ok(Stream {
            arrived,
            front: None,
            ending: Ending::Runs,
            domain,
            number: None,
            mulpdu: FIRST_MULPDU,
            sent: 0,
            numbers: Numbers::first(),
            queue: SendQueue::new(alloc),
            receiving,
            reads: Reads::new(alloc),
            asked: Requests::new(),
            first: 0,
            answered: false,
            start,
        })
    }

    /// The stream's domain.
    pub fn domain(&self) -> u8
        ensures { result ≡ self.now.domain }
    {
        self.domain
    }

    /// Gives the stream its number at the endpoint, so that its peer may use the regions that are limited to it
    /// (RFC 5042 2.2.5). Of several calls the last counts.
    pub fn set_number(&mut self, number: u32)
        ensures { self.new ≡ numbered self.old number }
    {
        self.number = Some(number);
    }

    /// Who asks for the use of regions on the stream: its peer, by the stream's domain and its number, if it was given one.
    pub fn peer(&self) -> Peer
        ensures { result ≡ peer_of self.now }
    {
        Peer {
            domain: self.domain,
            stream: self.number,
        }
    }

    /// Whether the stream has ended.
    pub fn has_ended(&self) -> bool
        ensures { result ≡ ended self.now }
    {
        self.ending.has_ended()
    }

    /// Whether the stream shares a pool.
    pub fn is_shared(&self) -> bool
        ensures { result ≡ shares self.now }
    {
        self.receiving.is_shared()
    }

    /// For the prover alone: it does nothing. Its clause states the limits that a stream keeps: at most 1,024 islands of octets
    /// that came, within 262,144 octets from the in-order point on; at most 256 posted messages, of at most 16,777,216 octets
    /// each; at most 256 receive buffers; at most 16 Reads of each end that are not answered; a maximum ULPDU of 128 to 64,512
    /// octets.
    pub fn limits(&self)
        ensures { IsWithin self.now }
    {
        self.arrived.limits();
        self.queue.limits();
        self.receiving.limits();
        self.reads.limits();
        self.asked.limits();
    }

    /// How many octets were emitted: the place past them in the stream.
    pub fn sent(&self) -> u64
        ensures { result ≡ self.now.sent }
    {
        self.sent
    }

    /// The place of the first octet that is not done with: the end of the last frame that had its turn, or of the peer's
    /// start-up frame.
    pub fn in_order_point(&self) -> u64
        ensures { result ≡ self.now.arrived.floor }
    {
        self.arrived.floor()
    }

    /// Accepts the peer's Request; the Reply carries this private data. The stream is open from then on, and as a responder
    /// sends its first frame once one of the peer's had its turn (RFC 5044 7.1.2).
    ///
    /// An `Err` changes nothing: a Request that waits for an answer goes on waiting.
    pub fn accept(&mut self, private: PrivateData) -> Result<Agreed, AnswerRefusal>
        ensures refused { result_err result ≡ answer_refusal self.old private.items }
        ensures agreed { IfOk result (λ agreed. agreed ≡ agreement_in self.old.start) }
        ensures ok { OnOk result (self.new ≡ accepted self.old private) }
        ensures err { OnErr result (self.new ≡ self.old) }
    {
        if self.ending.has_ended() {
            return Err(AnswerRefusal::NotAsked);
        }
        let agreed = self.start.accept(private)?;
        self.arrived.lay_out(self.start.expecting());
        Ok(agreed)
    }

    /// Rejects the peer's Request; the Reply carries this private data. The stream has ended, and the Reply is still emitted.
    ///
    /// An `Err` changes nothing. It comes when that of [`Stream::accept`] does.
    pub fn reject(&mut self, private: PrivateData) -> Result<(), AnswerRefusal>
        ensures refused { result_err result ≡ answer_refusal self.old private.items }
        ensures ok { OnOk result (self.new ≡ rejected self.old private) }
        ensures err { OnErr result (self.new ≡ self.old) }
    {
        if self.ending.has_ended() {
            return Err(AnswerRefusal::NotAsked);
        }
        self.start.reject(private)?;
        self.end(Ending::Over(None));
        Ok(())
    }

    /// The private data of the peer's start-up frame; empty before it was read, and if there is none.
    pub fn private(&self) -> &[u8]
        ensures { result.now ≡ private_in self.now.start }
    {
        self.start.private()
    }

    /// What the peer told in its start-up frame by the word of IRD and ORD (RFC 6581 9), once that was read, if it has one.
    pub fn told(&self) -> Option<EnhancedData>
        ensures { result ≡ told_in self.now.start }
    {
        self.start.told()
    }

    /// What the peer asks for in its start-up frame, once that was read.
    pub fn peer_options(&self) -> Option<PeerOptions>
        ensures { result ≡ options_in self.now.start }
    {
        self.start.peer_options()
    }

    /// Whether the stream is starting, is open or has ended.
    pub fn standing(&self) -> Standing
        ensures { result ≡ standing_of self.now }
    {
        if self.ending.has_ended() {
            return Standing::Ended;
        }
        if self.start.is_open() {
            return Standing::Open;
        }
        Standing::Starting
    }

    /// Posts a message or a Read after the others. An `Err` changes nothing, and hands back what was to be posted.
    pub fn post(
        &mut self,
        request: Request<Bytes<A>>,
    ) -> Result<(), (PostRefusal, Request<Bytes<A>>)>
        // The refusal if one applies, and otherwise out of memory alone.
        ensures refused { IfSome (post_refusal self.old request) (λ refusal. IfErr result (λ e. e.0 ≡ refusal) × IsErr result) }
        ensures memory { IfNone (post_refusal self.old request) (IfErr result (λ e. e.0 ≡ PostRefusal.NoMemory)) }
        ensures back { IfErr result (λ e. e.1 ≡ request) }
        ensures err { OnErr result (self.new ≡ self.old) }
        ensures ok { OnOk result (self.new ≡ with_request self.old request) }
    {
        if self.ending.has_ended() || !self.start.is_open() {
            return Err((PostRefusal::NotOpen, request));
        }
        if matches!(request, Request::Read(_)) && self.start.most_reads() == 0 {
            return Err((PostRefusal::NoReads, request));
        }
        match self.queue.post(request) {
            Ok(_) => Ok(()),
            Err((refusal, request)) => Err((post_refusal_of(refusal), request)),
        }
    }

    /// Posts a message after the others, whose octets are in memory that a program keeps: they are read where they are, as the
    /// message's frames are emitted, so the program leaves them alone until the message is handed out. An `Err` changes
    /// nothing, and hands back what was to be posted.
    pub fn post_kept(
        &mut self,
        message: Message<Vec<u8, Lodged>>,
    ) -> Result<(), (PostRefusal, Message<Vec<u8, Lodged>>)>
        // The refusal if one applies, and otherwise out of memory alone.
        ensures refused { IfSome (post_refusal self.old (request_of message)) (λ refusal. IfErr result (λ e. e.0 ≡ refusal) × IsErr result) }
        ensures memory { IfNone (post_refusal self.old (request_of message)) (IfErr result (λ e. e.0 ≡ PostRefusal.NoMemory)) }
        ensures back { IfErr result (λ e. e.1 ≡ message) }
        ensures err { OnErr result (self.new ≡ self.old) }
        ensures ok { OnOk result (self.new ≡ with_request self.old (request_of message)) }
    {
        if self.ending.has_ended() || !self.start.is_open() {
            return Err((PostRefusal::NotOpen, message));
        }
        match self.queue.post_kept(message) {
            Ok(_) => Ok(()),
            Err((refusal, message)) => Err((post_refusal_of(refusal), message)),
        }
    }

    /// Posts a receive buffer after the others. An `Err` changes nothing, and hands the vector back.
    pub fn post_recv(&mut self, buffer: Vec<u8, A>) -> Result<(), (RecvRefusal, Vec<u8, A>)>
        // The refusal if one applies, and otherwise out of memory alone.
        ensures refused { IfSome (recv_refusal self.old) (λ refusal. IfErr result (λ e. e.0 ≡ refusal) × IsErr result) }
        ensures memory { IfNone (recv_refusal self.old) (IfErr result (λ e. e.0 ≡ RecvRefusal.NoMemory)) }
        ensures back { IfErr result (λ e. e.1 ≡ buffer) }
        ensures err { OnErr result (self.new ≡ self.old) }
        ensures ok { OnOk result (self.new ≡ with_buffer self.old buffer.items) }
    {
        if self.receiving.is_shared() {
            return Err((RecvRefusal::Shared, buffer));
        }
        if self.ending.has_ended() {
            return Err((RecvRefusal::Ended, buffer));
        }
        match self.receiving.post(buffer) {
            Ok(()) => Ok(()),
            Err((refusal, buffer)) => Err((recv_refusal_of(refusal), buffer)),
        }
    }

    /// Sets the maximum ULPDU, which is how many octets a ULPDU that is sent has at most: 128 to 64,512. It holds for each
    /// part that is cut from then on. An `Err` changes nothing.
    pub fn set_mulpdu(&mut self, size: u32) -> Result<(), SizeRefusal>
        ensures refused { result_err result ≡ size_refusal size }
        ensures ok { OnOk result (self.new ≡ with_mulpdu self.old size) }
        ensures err { OnErr result (self.new ≡ self.old) }
    {
        if size < MIN_MULPDU || size > MAX_MULPDU {
            return Err(SizeRefusal::BadSize);
        }
        self.mulpdu = size as u16;
        Ok(())
    }

    /// Sets the sequence number of the peer's first octet, which is 0 if none is set. Of several calls the last counts.
    ///
    /// `Late`: octets were delivered before, and kept or dropped. An `Err` changes nothing.
    pub fn first_number(&mut self, number: u32) -> Result<(), FirstRefusal>
        ensures refused { result_err result ≡ first_refusal self.old }
        ensures ok { OnOk result (self.new ≡ with_first self.old number) }
        ensures err { OnErr result (self.new ≡ self.old) }
    {
        if self.answered {
            return Err(FirstRefusal::Late);
        }
        self.first = number;
        Ok(())
    }

    /// The sequence number of the peer's first octet.
    pub fn peer_first(&self) -> u32
        ensures { result ≡ self.now.first }
    {
        self.first
    }

    /// Takes octets that came, the first of which has this sequence number: numbers count modulo 2^32 (RFC 9293 3.4), from that
    /// of the peer's first octet ([`Stream::first_number`]). Of the places with that number it has the one nearest to the
    /// in-order point, less than 2^31 octets past it or at most 2^31 before it.
    ///
    /// Octets before the in-order point are ignored, and so are those before the peer's first. All of them are dropped if one
    /// lies 262,144 octets or more past the in-order point, if they would make more than 1,024 islands, or if the stream has
    /// ended. An `Err` means out of memory, comes only if they would be kept and one of them is new, and changes nothing.
    pub fn deliver(&mut self, number: u32, octets: &[u8]) -> Result<Delivery, AllocError>
        ensures delivery { IfOk result (λ delivery. delivery ≡ delivery_of self.old number (length octets.now)) }
        ensures after { IfOk result (λ delivery. self.new ≡ after_deliver self.old number octets.now delivery) }
        ensures err { OnErr result (self.new ≡ self.old) }
        ensures memory { OnErr result ((ended self.old ≡ false)
            × BringsOctets self.old.arrived (place_of self.old number) (length octets.now - left_out self.old number)) }
    {
        if self.ending.has_ended() {
            self.answered = true;
            return Ok(Delivery::Dropped);
        }
        self.arrived.limits();
        let (place, octets) = near(number, self.first, self.arrived.floor(), octets);
        let delivery = self.arrived.add(place, octets)?;
        self.answered = true;
        Ok(delivery)
    }

    /// Says that the link broke: the stream has ended, and nothing more is emitted, not even a Terminate or a start-up frame
    /// that was due. [`Stream::work`] hands back what was posted.
    pub fn break_link(&mut self)
        ensures { self.new ≡ breaks self.old }
    {
        self.end(Ending::Broken);
    }

    // The stream has ended so. What came and had no turn is given up, with what is kept of frames, and their memory.
    #[inline(never)]
    pub(crate) fn end(&mut self, ending: Ending)
        requires over { has_ended ending ≡ true }
        requires silent { is_open self.old.start ≡ false → last_word ending ≡ None }
        ensures { self.new ≡ record (quits self.old) { ending = ending } }
    {
        self.arrived.give_up();
        self.front = None;
        self.ending = ending;
    }

    // An open stream has ended by a fault, which has this Terminate.
    #[inline(never)]
    pub(crate) fn end_by(&mut self, terminate: LastWord)
        requires { is_open self.old.start ≡ true }
        ensures { self.new ≡ ends_by self.old terminate.items }
    {
        let ending = over(terminate, &self.start, &self.arrived);
        self.end(ending);
    }
}
