ghost use Rattle.std.specs.Prelude.{◌≡◌, ◌+◌, ◌≤◌, ◌==◌, nat_le, ℕ, List, length, false};
ghost use Rattle.std.specs.Prelude.{IsSome, IfSome, IfNone, IsOkAnd, IfOk, IfErr, IsErr, OnOk, OnErr};
ghost use Rattle.std.specs.Result.{result_err};
ghost use Rattle.std.specs.Option.{option_map};
ghost use Rattle.std.specs.Iterator.{IsFinite};
ghost use Rattle.iw_octets.specs.Pieces.{AddUpTo, JoinTo};

use crate::buffers::Buffers;
use crate::pool::SharedQueue;
use crate::received::Received;
use iw_octets::{Fault, Octets};
use std::alloc::{AllocError, Allocator, Global};
use std::collections::VecDeque;
use std::marker::Model;
use thiserror::Error;

// How many buffers may be posted.
const MAX_BUFFERS: usize = 256;

// A message sequence number this far past the due one is out of range.
const MSN_RANGE: u32 = 256;

/// Why a receive buffer was not posted: the first reason that holds.
#[derive(Clone, Copy, Debug, PartialEq, Eq, Error)]
pub enum BufferRefusal {
    /// A queue has 256 buffers, or a pool 1,024: one has to go first. A queue that shares a pool takes none.
    #[error("a queue has at most 256 buffers, a pool 1,024, and a queue that shares a pool none")]
    Full,
    /// Out of memory: the call may be made again.
    #[error("no memory: the call may be made again")]
    NoMemory,
}

/// The receive buffers of a stream, and how much of the due message had its turn. Message sequence numbers count modulo
/// 2^32.
///
/// Either the buffers were posted to the queue: the oldest is for the due message, and each next one for the next
/// message. Or the queue shares a pool with others ([`RecvQueue::shared`]): when a segment of a message that has no
/// buffer is placed, the pool's oldest buffer is bound to that message, and stays bound until it is handed out.
#[derive(Drop)]
pub struct RecvQueue<A: Allocator = Global> {
    buffers: Buffers<A>,
    due: u32,
    turned: usize,
}

impl<A: Allocator> Model for RecvQueue<A> {
    ghost use Rattle.iw_untagged.specs.Receiving.{Receiving, HoldsLimits};

    ghost Value = { Receiving };

    ghost use Rattle.iw_untagged.specs.Store.{source_of};

    ghost view = { λ q. record { source = source_of q.buffers; due = q.due; turned = q.turned } };

    ghost invariant = { λ q. HoldsLimits (record { source = source_of q.buffers; due = q.due; turned = q.turned }) };
}

impl<A: Allocator> RecvQueue<A> {
    ghost use Rattle.iw_untagged.specs.Receiving.{receiving_from, sharing, is_shared, ahead_of, buffer_in, HoldsLimits};
    ghost use Rattle.iw_untagged.specs.Receiving.{full_refusal, with_buffer, lent, exchanged, buffer_fault, written};
    ghost use Rattle.iw_untagged.specs.Receiving.{turn_fault, HasRoom, turned, due_buffer, received, finished};
    ghost use Rattle.iw_untagged.specs.Receiving.{first_buffer, flushed, count_in};

    /// A queue with no buffer, whose first message has the number 1. It allocates nothing, and answers `Ok`.
    pub fn new(alloc: A) -> Result<RecvQueue<A>, AllocError>
        ensures { IsOkAnd result (λ queue. queue ≡ receiving_from 1) }
    {
        RecvQueue::starting_at(alloc, 1)
    }

    /// A queue with no buffer, whose first message has this number. It allocates nothing, and answers `Ok`.
    pub fn starting_at(alloc: A, msn: u32) -> Result<RecvQueue<A>, AllocError>
        ensures { IsOkAnd result (λ queue. queue ≡ receiving_from msn) }
    {
        Ok(RecvQueue {
            buffers: Buffers::Own(VecDeque::new(alloc)),
            due: msn,
            turned: 0,
        })
    }

    /// A queue that shares a pool, with no buffer bound. Its first message has the number 1. It allocates all that it
    /// will ever need, so placing never allocates. An `Err` means out of memory.
    pub fn shared(alloc: A) -> Result<RecvQueue<A>, AllocError>
    where
        A: Copy,
        ensures { IfOk result (λ queue. queue ≡ sharing) }
    {
        let buffers = Buffers::shared(alloc)?;
        Ok(RecvQueue {
            buffers,
            due: 1,
            turned: 0,
        })
    }

    /// Whether the queue shares a pool.
    pub fn is_shared(&self) -> bool
        ensures { result ≡ is_shared self.now }
    {
        match &self.buffers {
            Buffers::Own(_) => false,
            Buffers::Shared(_) => true,
        }
    }

    /// Posts a buffer, after the others. An `Err` changes nothing and gives the buffer back.
    pub fn post(&mut self, buffer: Vec<u8, A>) -> Result<(), (BufferRefusal, Vec<u8, A>)>
        // The first refusal that applies; if none does, only `NoMemory`.
        ensures refused { IfSome (full_refusal self.old) (λ refusal. IfErr result (λ e. e.0 ≡ refusal) × IsErr result) }
        ensures memory { IfNone (full_refusal self.old) (IfErr result (λ e. e.0 ≡ BufferRefusal.NoMemory)) }
        ensures back { IfErr result (λ e. e.1 ≡ buffer) }
        ensures err { OnErr result (self.new ≡ self.old) }
        ensures ok { OnOk result (self.new ≡ with_buffer self.old buffer.items) }
    {
        let Buffers::Own(buffers) = &mut self.buffers else {
            return Err((BufferRefusal::Full, buffer));
        };
        if buffers.len() >= MAX_BUFFERS {
            return Err((BufferRefusal::Full, buffer));
        }
        if buffers.reserve(1).is_err() {
            return Err((BufferRefusal::NoMemory, buffer));
        }
        buffers.push_back_reserved(Octets::from_vec(buffer));
        Ok(())
    }

    /// How many buffers the queue has: those posted to it, or those bound to a message.
    pub fn len(&self) -> usize
        ensures { result ≡ count_in self.now.source }
    {
        self.buffers.len()
    }

    /// Whether the queue has no buffer.
    pub fn is_empty(&self) -> bool
        ensures { result ≡ (count_in self.now.source == 0) }
    {
        self.buffers.len() == 0
    }

    /// The length of the due message's buffer; `None` if it has none.
    pub fn room(&self) -> Option<usize>
        ensures { result ≡ option_map length (buffer_in self.now.source 0) }
    {
        self.buffers.due_len()
    }

    // The length of the due message's buffer; 0 if it has none.
    fn due_len(&self) -> usize
        ensures { result ≡ length (due_buffer self.now.source) }
    {
        match self.room() {
            Some(len) => len,
            None => 0,
        }
    }

    /// For the prover alone: it does nothing. Its clause states the limits that the queue keeps.
    pub fn limits(&self)
        ensures { HoldsLimits self.now }
    {
        let _ = &self.buffers;
    }

    /// Exchanges `pool` with the pool that is lent to the queue: call it once to lend a pool, and again to take it
    /// back. It does nothing if the queue does not share a pool.
    pub fn lend(&mut self, pool: &mut SharedQueue<A>)
        ensures after { self.new ≡ lent self.old pool.old }
        ensures pool { pool.new ≡ exchanged self.old.source pool.old }
    {
        self.buffers.lend(pool);
    }

    #[inline(always)]
    fn ahead(&self, msn: u32) -> u32
        ensures { result ≡ ahead_of self.now.due msn }
    {
        msn.wrapping_sub(self.due)
    }

    /// Writes the payload of a segment, `n` octets in pieces, into the buffer of message `msn`, at message offset `mo`.
    /// Segments may be placed in any order: before their turns, and those of a later message before those of the due
    /// one. It allocates nothing.
    ///
    /// If the queue shares a pool and the message has no buffer, the oldest buffer of the pool that is lent is bound to
    /// it.
    ///
    /// An `Err` changes nothing. It is the first of these that applies: `msn` is out of range (256 or more after the
    /// due one); there is no buffer for it; or the segment ends past the end of the buffer, even if it is empty (RFC
    /// 5041 7.1).
    pub fn place<'a, I: Iterator<Item = &'a [u8]>>(
        &mut self,
        msn: u32,
        mo: u32,
        n: usize,
        pieces: I,
    ) -> Result<(), Fault>
        requires can { I.can_next pieces }
        requires ends { IsFinite (I.remaining pieces) }
        requires fills { AddUpTo I.next_gives pieces n }
        ensures refused { result_err result ≡ buffer_fault self.old msn mo n }
        ensures ok { OnOk result ((octets : List ℕ) × JoinTo I.next_gives pieces octets
            × (self.new ≡ written self.old msn mo octets)) }
        ensures err { OnErr result (self.new ≡ self.old) }
    {
        self.check(msn, mo, n)?;
        let index = self.ahead(msn) as usize;
        self.buffers.bind(index);
        self.buffers.write(index, mo as usize, n, pieces);
        Ok(())
    }

    /// As [`RecvQueue::place`], with this pool lent to the queue for the call.
    pub fn place_shared<'a, I: Iterator<Item = &'a [u8]>>(
        &mut self,
        pool: &mut SharedQueue<A>,
        msn: u32,
        mo: u32,
        n: usize,
        pieces: I,
    ) -> Result<(), Fault>
        requires can { I.can_next pieces }
        requires ends { IsFinite (I.remaining pieces) }
        requires fills { AddUpTo I.next_gives pieces n }
        ensures refused { result_err result ≡ buffer_fault (lent self.old pool.old) msn mo n }
        ensures ok { OnOk result ((octets : List ℕ) × JoinTo I.next_gives pieces octets
            × (lent self.new pool.new ≡ written (lent self.old pool.old) msn mo octets)) }
        ensures own { is_shared self.old ≡ false → pool.new ≡ pool.old }
        ensures err { OnErr result ((self.new ≡ self.old) × (pool.new ≡ pool.old)) }
    {
        self.lend(pool);
        let placed = self.place(msn, mo, n, pieces);
        self.lend(pool);
        placed
    }

    // `Ok` if there is a buffer for the message, with room for `n` octets at offset `mo`.
    #[inline(always)]
    fn check(&self, msn: u32, mo: u32, n: usize) -> Result<(), Fault>
        ensures { result_err result ≡ buffer_fault self.now msn mo n }
    {
        let ahead = self.ahead(msn);
        if ahead >= MSN_RANGE {
            return Err(Fault::UNTAGGED_MSN_RANGE);
        }
        let Some(len) = self.buffers.len_for(ahead as usize) else {
            return Err(Fault::UNTAGGED_NO_BUFFER);
        };
        if !has_room(len, mo as usize, n) {
            return Err(Fault::UNTAGGED_TOO_LONG);
        }
        Ok(())
    }

    /// Gives a placed segment of `n` octets its turn. The segments of a message must have their turns in order, and the
    /// messages in the order of their numbers. It allocates nothing. If message `msn` is due, it must have a buffer
    /// with room for the segment.
    ///
    /// An `Err` changes nothing. It is the first of these that applies: another message is due; or `mo` is not the
    /// number of octets of the message that had their turn.
    pub fn turn(&mut self, msn: u32, mo: u32, n: usize) -> Result<(), Fault>
        requires { msn ≡ self.old.due → HasRoom self.old (mo + n) }
        ensures refused { result_err result ≡ turn_fault self.old msn mo }
        ensures ok { OnOk result (self.new ≡ turned self.old n) }
        ensures err { OnErr result (self.new ≡ self.old) }
    {
        if self.ahead(msn) != 0 {
            return Err(Fault::UNTAGGED_MSN_RANGE);
        }
        if mo as usize != self.turned {
            return Err(Fault::UNTAGGED_INVALID_OFFSET);
        }
        let left = self.due_len() - self.turned;
        prove!(n <= left);
        self.turned += n;
        Ok(())
    }

    /// Hands out the due message with its buffer. Its octets are those that had their turn. The next message is due
    /// then. The message must have a buffer. It allocates nothing.
    pub fn finish(&mut self) -> Received<Octets<A>>
        requires { IsSome (buffer_in self.old.source 0) }
        ensures message { result ≡ received self.old }
        ensures within { result.len ≤ length result.buffer }
        ensures after { self.new ≡ finished self.old }
    {
        let buffer = self.buffers.take_due();
        let msn = self.due;
        let len = self.turned;
        self.due = msn.wrapping_add(1);
        self.turned = 0;
        Received { msn, buffer, len }
    }

    /// Hands back, whole and without a message, the buffer of the first message that has one; `None` if none has. The
    /// number of the due message stays. It allocates nothing.
    pub fn flush(&mut self) -> Option<Vec<u8, A>>
        ensures buffer { option_map (λ buffer. buffer.items) result ≡ first_buffer self.old.source }
        ensures after { self.new ≡ flushed self.old }
    {
        self.turned = 0;
        let buffer = self.buffers.take_first()?;
        Some(buffer.into_vec())
    }
}

// Whether `n` octets at place `at` lie within `len` octets.
fn has_room(len: usize, at: usize, n: usize) -> bool
    ensures { result ≡ nat_le (at + n) len }
{
    at <= len && n <= len - at
}
