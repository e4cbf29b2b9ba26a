ghost use Rattle.std.specs.Prelude.{◌≡◌, ◌↔◌, ◌+◌, ◌%◌, ◌<◌, ◌≤◌, ◌^◌, nat_lt, length, take, drop, slice_get};
ghost use Rattle.std.specs.Prelude.{IsTrue, MatchBool, Some, IfSome, IfNone, IfOk, IfErr, IsErr, OnOk, OnErr};
ghost use Rattle.std.specs.Option.{option_map};
ghost use Rattle.std.specs.VecDeque.{deque_len, deque_capacity};
ghost use Rattle.iw_queues.specs.Request.{kind_of, payload};

use crate::completions::{Completions, Done};
use crate::outgoing::Outgoing;
use crate::request::{Kind, Refusal, Request, kept_len, kept_request};
use bytes::Bytes;
use iw_octets::{MAX_OCTETS, Message};
use std::alloc::{AllocError, Allocator, Global};
use std::collections::VecDeque;
use std::marker::Model;
use std_alloc::vec::Lodged;

/// How many messages may be posted and not yet handed out.
const MAX_POSTED: usize = 256;

/// A part of a message: `n` octets of its payload from `offset` on. The message's type is the parameter.
#[derive(Clone, Copy, Debug, PartialEq, Eq)]
pub struct Part<M> {
    /// The message's ticket.
    pub ticket: u64,
    pub message: M,
    pub offset: usize,
    pub n: usize,
    /// Whether it is the message's last part.
    pub last: bool,
}

/// The messages posted at one end of a stream and not yet handed out, in posting order.
///
/// Each has a ticket: 0 for the first, and one more than the last, modulo 2^64, for each next.
#[derive(Drop)]
pub struct SendQueue<A: Allocator = Global> {
    // The messages that were sent whole, with room for each of the others.
    sent: Completions<A>,
    // The others.
    unsent: VecDeque<Request<Outgoing<A>>, A>,
    // How many octets of the first of them were sent.
    offset: usize,
}

impl<'a, A: Allocator> Part<&'a Request<Outgoing<A>>> {
    /// The part's octets, lent by the message.
    pub fn octets(&self) -> &'a [u8]
        requires { self.now.offset + self.now.n ≤ length (payload self.now.message.now) }
        ensures { result.now ≡ take self.now.n (drop self.now.offset (payload self.now.message.now)) }
    {
        let (_, rest) = self.message.payload().split_at(self.offset);
        let (octets, _) = rest.split_at(self.n);
        octets
    }
}

impl<A: Allocator> Model for SendQueue<A> {
    ghost use Rattle.iw_queues.specs.Queue.{Queue};

    ghost Value = { Queue };

    ghost use Rattle.iw_queues.specs.Inside.{queue_of, Keeps};

    ghost view = { λ q. queue_of q.sent q.unsent.items q.offset };

    ghost invariant = { λ q. Keeps q.sent q.unsent.items q.offset };
}

impl<A: Allocator> SendQueue<A> {
    ghost use Rattle.iw_queues.specs.Completions.{IsAwaited, finished};
    ghost use Rattle.iw_queues.specs.Outgoing.{request_of};
    ghost use Rattle.iw_queues.specs.Queue.{nothing_posted, post_refusal, size_refusal, ticket_past, posted, IsWithinLimits};
    ghost use Rattle.iw_queues.specs.Queue.{next_part, part_sent, sent_with, IsNext};
    ghost use Rattle.iw_queues.specs.Queue.{done_in, oldest_in, handed_from};
    ghost use Rattle.iw_queues.specs.Shown.{shown};

    /// A queue to which nothing was posted.
    pub fn new(alloc: A) -> SendQueue<A>
    where
        A: Copy,
        ensures { result ≡ nothing_posted }
    {
        SendQueue {
            sent: Completions::new(alloc),
            unsent: VecDeque::new(alloc),
            offset: 0,
        }
    }

    /// How many messages are posted and not yet handed out, at most 256.
    pub fn len(&self) -> usize
        ensures len { result ≡ length self.now.sent.messages + length self.now.unsent }
        ensures limits { IsWithinLimits self.now }
        ensures first { self.now.sent.first < 2 ^ 64 }
    {
        self.sent.len() + self.unsent.len()
    }

    pub fn is_empty(&self) -> bool
        ensures { IsTrue result ↔ (length self.now.sent.messages + length self.now.unsent ≡ 0) }
    {
        self.len() == 0
    }

    /// For the prover alone: it does nothing. Its clause states the limits that the queue keeps: at most 256 messages, and at most
    /// 16,777,216 octets in each that is left to be sent.
    pub fn limits(&self)
        ensures { IsWithinLimits self.now }
    {
        let _ = &self.sent;
    }

    /// Whether a part of the next message was sent, but not its last.
    pub fn is_begun(&self) -> bool
        ensures { result ≡ nat_lt 0 self.now.offset }
    {
        self.offset > 0
    }

    /// Posts a message after the others; the answer is its ticket. `NoMemory` comes only if no other refusal applies. An
    /// `Err` changes nothing, and hands the message back.
    pub fn post(&mut self, message: Request<Bytes<A>>) -> Result<u64, (Refusal, Request<Bytes<A>>)>
        // The refusal if one applies, and otherwise out of memory alone.
        ensures refused { IfSome (post_refusal self.old message)
            (λ refusal. IfErr result (λ e. e.0 ≡ refusal) × IsErr result) }
        ensures memory { IfNone (post_refusal self.old message) (IfErr result (λ e. e.0 ≡ Refusal.NoMemory)) }
        ensures back { IfErr result (λ e. e.1 ≡ message) }
        ensures err { OnErr result (self.new ≡ self.old) }

        ensures ticket { IfOk result (λ ticket. ticket ≡ ticket_past self.old) }
        ensures ok { OnOk result (self.new ≡ posted self.old message) }
    {
        if let Some(refusal) = self.refusal(message.size()) {
            return Err((refusal, message));
        }
        match make_room(&mut self.sent, &mut self.unsent) {
            Err(AllocError) => Err((Refusal::NoMemory, message)),
            Ok(ticket) => {
                self.unsent.push_back_reserved(message.outgoing());
                Ok(ticket)
            }
        }
    }

    /// Posts a message as [`post`](Self::post) does, whose octets are in memory that a program keeps. They are read where they
    /// are as its parts are sent: the program leaves them alone until the message is handed out. An `Err` changes nothing, and
    /// hands the message back.
    pub fn post_kept(
        &mut self,
        message: Message<Vec<u8, Lodged>>,
    ) -> Result<u64, (Refusal, Message<Vec<u8, Lodged>>)>
        // The refusal if one applies, and otherwise out of memory alone.
        ensures refused { IfSome (post_refusal self.old (request_of message))
            (λ refusal. IfErr result (λ e. e.0 ≡ refusal) × IsErr result) }
        ensures memory { IfNone (post_refusal self.old (request_of message)) (IfErr result (λ e. e.0 ≡ Refusal.NoMemory)) }
        ensures back { IfErr result (λ e. e.1 ≡ message) }
        ensures err { OnErr result (self.new ≡ self.old) }

        ensures ticket { IfOk result (λ ticket. ticket ≡ ticket_past self.old) }
        ensures ok { OnOk result (self.new ≡ posted self.old (request_of message)) }
    {
        if let Some(refusal) = self.refusal(kept_len(&message)) {
            return Err((refusal, message));
        }
        match make_room(&mut self.sent, &mut self.unsent) {
            Err(AllocError) => Err((Refusal::NoMemory, message)),
            Ok(ticket) => {
                self.unsent.push_back_reserved(kept_request(message));
                Ok(ticket)
            }
        }
    }

    // Why a message of `n` octets is not posted, except that there is no memory.
    fn refusal(&self, n: usize) -> Option<Refusal>
        ensures { result ≡ size_refusal self.now n }
    {
        if self.len() >= MAX_POSTED {
            return Some(Refusal::Full);
        }
        if n > MAX_OCTETS {
            return Some(Refusal::TooLong);
        }
        None
    }

    /// The part that is to be sent next, if a message is left to be sent. Nothing changes.
    ///
    /// `max` is the largest ULPDU that may be sent, in octets. A part is as long as the ULPDU allows after the header,
    /// and the last one has what is left. Only the part of an empty message is empty. A Read is one part without octets.
    #[inline(always)]
    pub fn next_part(&self, max: usize) -> Option<Part<&Request<Outgoing<A>>>>
        requires { 128 ≤ max }
        ensures part { shown result ≡ next_part self.now max }
        ensures within { IfSome result (λ part. part.offset + part.n ≤ length (payload part.message.now)) }
    {
        let message = self.unsent.front()?;
        let ticket = self.sent.next_ticket();
        let room = max - message.header_len();
        let left = message.payload().len() - self.offset;
        Some(Part {
            ticket,
            message,
            offset: self.offset,
            n: left.min(room),
            last: left <= room,
        })
    }

    /// Says that the part that `next_part` shows was sent: it has `n` octets, and `last` tells whether it is its message's
    /// last. The last part of a Write or a Send finishes it.
    #[inline(always)]
    pub fn part_sent(&mut self, n: usize, last: bool)
        requires { IsNext self.old n last }
        ensures { (next : IsNext self.old n last) → self.new ≡ part_sent self.old (Some next.part) }
    {
        if !last {
            self.offset += n;
            return;
        }
        let Some(kind) = take_first(&mut self.unsent) else {
            return;
        };
        self.sent.add(kind);
        self.offset = 0;
    }

    /// Whether this is the ticket of a Read that was sent and is neither finished nor handed out.
    pub fn awaits(&self, ticket: u64) -> bool
        ensures { MatchBool result (IsAwaited self.now.sent ticket) (¬ IsAwaited self.now.sent ticket) }
    {
        self.sent.awaits(ticket)
    }

    /// Finishes the Read with this ticket, whose whole response has come.
    pub fn finish(&mut self, ticket: u64)
        requires { IsAwaited self.old.sent ticket }
        ensures { self.new ≡ sent_with self.old (finished self.old.sent ticket) }
    {
        self.sent.finish(ticket);
    }

    /// Hands out the oldest message, if it is finished: messages complete in posting order (RFC 5040 5.5).
    #[inline(always)]
    pub fn next(&mut self) -> Option<Done>
        ensures done { result ≡ done_in self.old }
        ensures after { self.new ≡ handed_from self.old result }
    {
        self.sent.next()
    }

    /// Gives up the oldest message, finished or not.
    pub fn flush(&mut self) -> Option<Done>
        ensures done { result ≡ oldest_in self.old }
        ensures after { self.new ≡ handed_from self.old result }
    {
        if !self.sent.is_empty() {
            return self.sent.flush();
        }
        // A message that was not sent whole is given up as if it were.
        let kind = take_first(&mut self.unsent)?;
        self.offset = 0;
        self.sent.add(kind);
        self.sent.flush()
    }
}

// Makes room for one more message, and tells its ticket.
fn make_room<A: Allocator>(
    sent: &mut Completions<A>,
    unsent: &mut VecDeque<Request<Outgoing<A>>, A>,
) -> Result<u64, AllocError>
    ensures sent { sent.new.outstanding ≡ sent.old.outstanding }
    ensures unsent { unsent.new.items ≡ unsent.old.items }
    ensures ticket { IfOk result (λ ticket. ticket
        ≡ (sent.old.outstanding.first + (length sent.old.outstanding.messages + length unsent.old.items)) % 2 ^ 64) }
    ensures kept { sent.old.room ≤ sent.new.room }
    ensures room { OnOk result (length unsent.old.items + 1 ≤ sent.new.room) }
    ensures spare { OnOk result (deque_len unsent.new < deque_capacity unsent.new) }
{
    let n = unsent.len();
    sent.ready(n + 1)?;
    unsent.reserve(1)?;
    Ok(sent.next_ticket().wrapping_add(n as u64))
}

// Takes the first message and tells what it is. Its octets are dropped.
fn take_first<A: Allocator>(messages: &mut VecDeque<Request<Outgoing<A>>, A>) -> Option<Kind>
    ensures kind { result ≡ option_map kind_of (slice_get messages.old.items 0) }
    ensures rest { messages.new.items ≡ drop 1 messages.old.items }
{
    Some(messages.pop_front()?.kind())
}
