ghost use Rattle.std.specs.Prelude.{◌≡◌, ◌+◌, ◌<◌, ◌≤◌, ◌↔◌, ◌^◌, [], length, IsTrue, MatchBool, OnOk, OnErr};

use crate::request::Kind;
use std::alloc::{AllocError, Allocator, Global};
use std::collections::VecDeque;
use std::marker::Model;

/// A message that is handed out, finished or given up.
#[derive(Clone, Copy, Debug, PartialEq, Eq)]
pub struct Done {
    /// The number that it was given when it was posted.
    pub ticket: u64,
    pub kind: Kind,
}

/// A message that was sent whole and not yet handed out.
#[derive(Clone, Copy, Debug, PartialEq, Eq)]
pub(crate) struct Sent {
    kind: Kind,
    finished: bool,
}

/// The messages that were sent and not yet handed out, in posting order.
///
/// Each has a ticket: 0 for the first, and one more than the last, modulo 2^64, for each next.
#[derive(Drop)]
pub struct Completions<A: Allocator = Global> {
    // The ticket of the oldest message.
    first: u64,
    messages: VecDeque<Sent, A>,
}

impl<A: Allocator> Model for Completions<A> {
    ghost use Rattle.std.specs.Prelude.{◌-◌};
    ghost use Rattle.std.specs.VecDeque.{deque_len, deque_capacity};
    ghost use Rattle.iw_queues.specs.Completions.{Held};

    ghost Value = { Held };

    ghost view = { λ c. record {
      outstanding = record { first = c.first; messages = c.messages.items };
      room = deque_capacity c.messages - deque_len c.messages;
    } };
}

impl<A: Allocator> Completions<A> {
    ghost use Rattle.iw_queues.specs.Completions.{nothing_sent, next_ticket, oldest, added, handed_out};
    ghost use Rattle.iw_queues.specs.Completions.{IsAwaited, finished, done};

    /// No message yet.
    pub fn new(alloc: A) -> Completions<A>
        ensures { result.outstanding ≡ nothing_sent }
    {
        Completions {
            first: 0,
            messages: VecDeque::new(alloc),
        }
    }

    /// How many messages there are.
    pub fn len(&self) -> usize
        ensures len { result ≡ length self.now.outstanding.messages }
        ensures first { self.now.outstanding.first < 2 ^ 64 }
    {
        let _first = self.first;
        self.messages.len()
    }

    pub fn is_empty(&self) -> bool
        ensures empty { IsTrue result ↔ (self.now.outstanding.messages ≡ []) }
    {
        self.messages.is_empty()
    }

    /// The ticket of the next message.
    pub fn next_ticket(&self) -> u64
        ensures { result ≡ next_ticket self.now.outstanding }
    {
        self.first.wrapping_add(self.messages.len() as u64)
    }

    /// Makes room for `n` more messages. The room stays until it is used. An `Err` means out of memory. It leaves the
    /// messages as they are, and comes only if there was less room.
    pub fn ready(&mut self, n: usize) -> Result<(), AllocError>
        ensures same { self.new.outstanding ≡ self.old.outstanding }
        ensures ok { OnOk result (n ≤ self.new.room) }
        ensures full { OnErr result (self.old.room < n) }
        ensures room { self.old.room ≤ self.new.room }
    {
        self.messages.reserve(n)
    }

    /// Adds a message that was sent whole. A Write or a Send is then finished, a Read is not (RFC 5040 5.5). The message
    /// takes the room of one.
    pub fn add(&mut self, kind: Kind)
        requires { 0 < self.old.room }
        ensures added { self.new.outstanding ≡ added self.old.outstanding kind }
        ensures room { self.new.room + 1 ≡ self.old.room }
    {
        self.messages.push_back_reserved(Sent {
            kind,
            finished: kind != Kind::Read,
        });
    }

    /// Whether this is the ticket of a Read that is not finished.
    pub fn awaits(&self, ticket: u64) -> bool
        ensures { MatchBool result (IsAwaited self.now.outstanding ticket) (¬ IsAwaited self.now.outstanding ticket) }
    {
        let place = ticket.wrapping_sub(self.first) as usize;
        let awaited = Sent {
            kind: Kind::Read,
            finished: false,
        };
        match self.messages.get(place) {
            Some(message) => *message == awaited,
            None => false,
        }
    }

    /// Finishes the Read with this ticket, whose whole response has come.
    pub fn finish(&mut self, ticket: u64)
        requires { IsAwaited self.old.outstanding ticket }
        ensures finished { self.new.outstanding ≡ finished self.old.outstanding ticket }
        ensures room { self.new.room ≡ self.old.room }
    {
        let place = ticket.wrapping_sub(self.first) as usize;
        self.messages[place] = Sent {
            kind: Kind::Read,
            finished: true,
        };
    }

    /// Hands out the oldest message, if it is finished: messages complete in posting order (RFC 5040 5.5).
    #[inline(always)]
    pub fn next(&mut self) -> Option<Done>
        ensures done { result ≡ done self.old.outstanding }
        ensures after { self.new.outstanding ≡ handed_out self.old.outstanding result }
        ensures room { self.old.room ≤ self.new.room }
    {
        if !self.messages.front()?.finished {
            return None;
        }
        self.flush()
    }

    /// Gives up the oldest message, finished or not.
    #[inline(never)]
    pub fn flush(&mut self) -> Option<Done>
        ensures done { result ≡ oldest self.old.outstanding }
        ensures after { self.new.outstanding ≡ handed_out self.old.outstanding result }
        ensures room { self.old.room ≤ self.new.room }
    {
        let message = self.messages.pop_front()?;
        let ticket = self.first;
        self.first = self.first.wrapping_add(1);
        Some(Done {
            ticket,
            kind: message.kind,
        })
    }
}
