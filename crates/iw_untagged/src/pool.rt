ghost use Rattle.std.specs.Prelude.{◌≡◌, ◌≤◌, ◌↔◌, [], ◌∷◌, ◌++◌, drop, length, slice_get};
ghost use Rattle.std.specs.Prelude.{IsTrue, IfSome, IfNone, IfOk, IfErr, IsErr, OnOk, OnErr};
ghost use Rattle.std.specs.Option.{option_map};

use crate::queue::BufferRefusal;
use iw_octets::Octets;
use std::alloc::{AllocError, Allocator, Global};
use std::collections::VecDeque;
use std::marker::Model;
use std::mem::swap;

// How many buffers a pool may hold.
const MAX_POOL: usize = 1024;

/// A pool of receive buffers that several queues share, oldest first: those that were posted to it, and neither taken nor
/// bound to a message.
#[derive(Drop)]
pub struct SharedQueue<A: Allocator = Global> {
    // In a box, so that lending a pool moves one pointer.
    buffers: Box<VecDeque<Octets<A>, A>, A>,
}

impl<A: Allocator> Model for SharedQueue<A> {
    ghost use Rattle.std.specs.Prelude.{List, ℕ, ◌≤◌, length};

    ghost Value = { List (List ℕ) };

    ghost view = { λ pool. pool.buffers.value.items };

    ghost invariant = { λ pool. length pool.buffers.value.items ≤ 1024 };
}

impl<A: Allocator> SharedQueue<A> {
    ghost use Rattle.iw_untagged.specs.Receiving.{pool_refusal};

    /// A pool with no buffer. An `Err` means out of memory.
    pub fn new(alloc: A) -> Result<SharedQueue<A>, AllocError>
    where
        A: Copy,
        ensures { IfOk result (λ pool. pool ≡ []) }
    {
        let buffers = Box::new(alloc, VecDeque::new(alloc))?;
        Ok(SharedQueue { buffers })
    }

    /// Posts a buffer, after the others; a pool holds at most 1,024. An `Err` changes nothing and gives the buffer
    /// back.
    pub fn post(&mut self, buffer: Vec<u8, A>) -> Result<(), (BufferRefusal, Vec<u8, A>)>
        // The first refusal that applies; if none does, only `NoMemory`.
        ensures refused { IfSome (pool_refusal self.old) (λ refusal. IfErr result (λ e. e.0 ≡ refusal) × IsErr result) }
        ensures memory { IfNone (pool_refusal self.old) (IfErr result (λ e. e.0 ≡ BufferRefusal.NoMemory)) }
        ensures back { IfErr result (λ e. e.1 ≡ buffer) }
        ensures err { OnErr result (self.new ≡ self.old) }
        ensures ok { OnOk result (self.new ≡ self.old ++ buffer.items ∷ []) }
    {
        if self.buffers.len() >= MAX_POOL {
            return Err((BufferRefusal::Full, buffer));
        }
        if self.buffers.reserve(1).is_err() {
            return Err((BufferRefusal::NoMemory, buffer));
        }
        self.buffers.push_back_reserved(Octets::from_vec(buffer));
        Ok(())
    }

    /// Takes the oldest buffer out; `None` if the pool is empty.
    pub fn take(&mut self) -> Option<Vec<u8, A>>
        ensures buffer { option_map (λ buffer. buffer.items) result ≡ slice_get self.old 0 }
        ensures after { self.new ≡ drop 1 self.old }
    {
        match self.take_oldest() {
            None => None,
            Some(buffer) => Some(buffer.into_vec()),
        }
    }

    // The same, without turning it into a vector.
    pub(crate) fn take_oldest(&mut self) -> Option<Octets<A>>
        ensures buffer { result ≡ slice_get self.old 0 }
        ensures after { self.new ≡ drop 1 self.old }
    {
        self.buffers.pop_front()
    }

    /// Exchanges the buffers of the pool with these, of which there are at most 1,024. It allocates nothing.
    pub fn exchange(&mut self, buffers: &mut VecDeque<Octets<A>, A>)
        requires { length buffers.old.items ≤ 1024 }
        ensures pool { self.new ≡ buffers.old.items }
        ensures taken { buffers.new.items ≡ self.old }
        ensures few { length buffers.new.items ≤ 1024 }
    {
        swap(&mut *self.buffers, buffers);
    }

    /// How many buffers the pool has: at most 1,024.
    pub fn len(&self) -> usize
        ensures len { result ≡ length self.now }
        ensures limit { result ≤ 1024 }
    {
        self.buffers.len()
    }

    /// Whether the pool has no buffer.
    pub fn is_empty(&self) -> bool
        ensures { IsTrue result ↔ (self.now ≡ []) }
    {
        self.buffers.is_empty()
    }

    /// The length of the oldest buffer; `None` if the pool is empty.
    pub fn room(&self) -> Option<usize>
        ensures { result ≡ option_map length (slice_get self.now 0) }
    {
        match self.buffers.front() {
            None => None,
            Some(buffer) => Some(buffer.len()),
        }
    }
}
