ghost use Rattle.std.specs.Prelude.{◌≡◌, ◌+◌, ◌≤◌, ℕ, List, [], length, None, IsSome, IfOk};
ghost use Rattle.std.specs.Prelude.{slice_get, unwrap_or};
ghost use Rattle.std.specs.Option.{option_map};
ghost use Rattle.std.specs.Iterator.{IsFinite};
ghost use Rattle.iw_octets.specs.Octets.{splice};
ghost use Rattle.iw_octets.specs.Pieces.{AddUpTo, JoinTo};
ghost use Rattle.iw_untagged.specs.Receiving.{Pooled, seeing, exchanged, buffer_in, buffer_for, bound_to, written_in, count_in};
ghost use Rattle.iw_untagged.specs.Receiving.{due_buffer, shifted, first_buffer, without_first};

use crate::places::Places;
use crate::pool::SharedQueue;
use iw_octets::Octets;
use std::alloc::{AllocError, Allocator};
use std::collections::VecDeque;
use std::mem::swap;

/// The buffers of a receive queue.
#[derive(Drop)]
pub(crate) enum Buffers<A: Allocator> {
    /// Those posted to the queue, oldest first.
    Own(VecDeque<Octets<A>, A>),
    /// Those from a pool that other queues share.
    Shared(Box<Bound<A>, A>),
}

/// What a queue that shares a pool holds.
#[derive(Drop)]
pub(crate) struct Bound<A: Allocator> {
    /// The buffers that are bound to the next messages.
    pub(crate) places: Places<A>,
    /// The pool, while it is lent; else an empty one.
    pub(crate) pool: SharedQueue<A>,
}

impl<A: Allocator> Buffers<A> {
    ghost use Rattle.iw_untagged.specs.Store.{source_of};
    ghost use Rattle.iw_untagged.specs.Receiving.{sharing, is_full, with_last};

    /// The 256 places of a queue that shares a pool, with no buffer bound, and no pool lent.
    pub(crate) fn shared(alloc: A) -> Result<Buffers<A>, AllocError>
    where
        A: Copy,
        ensures { IfOk result (λ buffers. source_of buffers ≡ sharing.source) }
    {
        let places = Places::new(alloc)?;
        let pool = SharedQueue::new(alloc)?;
        let bound = Box::new(alloc, Bound { places, pool })?;
        Ok(Buffers::Shared(bound))
    }

    /// Exchanges `pool` with the one that is lent.
    pub(crate) fn lend(&mut self, pool: &mut SharedQueue<A>)
        ensures source { source_of self.new ≡ seeing (source_of self.old) pool.old }
        ensures pool { pool.new ≡ exchanged (source_of self.old) pool.old }
    {
        match self {
            Buffers::Own(_) => (),
            Buffers::Shared(bound) => swap(&mut bound.pool, pool),
        }
    }

    /// The length of the buffer for the message that is `ahead` after the due one; `None` if there is no buffer for it.
    #[inline(always)]
    pub(crate) fn len_for(&self, ahead: usize) -> Option<usize>
        ensures { result ≡ option_map length (buffer_for (source_of self.now) ahead) }
    {
        match self {
            Buffers::Own(buffers) => posted_len(buffers, ahead),
            Buffers::Shared(bound) => bound.places.len_for(ahead, &bound.pool),
        }
    }

    /// The length of the due message's buffer; `None` if it has none.
    pub(crate) fn due_len(&self) -> Option<usize>
        ensures { result ≡ option_map length (buffer_in (source_of self.now) 0) }
    {
        match self {
            Buffers::Own(buffers) => posted_len(buffers, 0),
            Buffers::Shared(bound) => bound.places.len_at(0),
        }
    }

    /// How many buffers there are.
    pub(crate) fn len(&self) -> usize
        ensures { result ≡ count_in (source_of self.now) }
    {
        match self {
            Buffers::Own(buffers) => buffers.len(),
            Buffers::Shared(bound) => bound.places.count(),
        }
    }

    /// Binds the pool's oldest buffer to the message that is `ahead` after the due one, unless one is bound to it.
    #[inline(always)]
    pub(crate) fn bind(&mut self, ahead: usize)
        requires there { IsSome (buffer_for (source_of self.old) ahead) }
        ensures { source_of self.new ≡ bound_to (source_of self.old) ahead }
    {
        match self {
            Buffers::Own(_) => {}
            Buffers::Shared(bound) => bind_place(bound, ahead),
        }
    }

    /// Writes pieces, one after the other, into the buffer of the message that is `ahead` after the due one.
    pub(crate) fn write<'a, I: Iterator<Item = &'a [u8]>>(
        &mut self,
        ahead: usize,
        at: usize,
        n: usize,
        pieces: I,
    )
        requires can { I.can_next pieces }
        requires ends { IsFinite (I.remaining pieces) }
        requires fills { AddUpTo I.next_gives pieces n }
        requires there { IsSome (buffer_in (source_of self.old) ahead) }
        requires room { at + n ≤ length (unwrap_or (buffer_in (source_of self.old) ahead) []) }
        ensures { (octets : List ℕ) × JoinTo I.next_gives pieces octets
            × (source_of self.new ≡ written_in (source_of self.old) ahead at octets) }
    {
        match self {
            Buffers::Own(buffers) => write_pieces(&mut buffers[ahead], at, n, pieces),
            Buffers::Shared(bound) => bound.places.write(ahead, at, n, pieces),
        }
    }

    /// Takes the due message's buffer. The next message is due then.
    pub(crate) fn take_due(&mut self) -> Octets<A>
        requires there { IsSome (buffer_in (source_of self.old) 0) }
        ensures buffer { result ≡ due_buffer (source_of self.old) }
        ensures source { source_of self.new ≡ shifted (source_of self.old) }
    {
        match self {
            Buffers::Own(buffers) => buffers.pop_front().unwrap(),
            Buffers::Shared(bound) => bound.places.shift(),
        }
    }

    /// Takes the buffer of the first message that has one; `None` if none has.
    pub(crate) fn take_first(&mut self) -> Option<Octets<A>>
        ensures buffer { result ≡ first_buffer (source_of self.old) }
        ensures source { source_of self.new ≡ without_first (source_of self.old) }
    {
        match self {
            Buffers::Own(buffers) => buffers.pop_front(),
            Buffers::Shared(bound) => bound.places.take_first(),
        }
    }
}

fn posted_len<A: Allocator>(buffers: &VecDeque<Octets<A>, A>, ahead: usize) -> Option<usize>
    ensures { result ≡ option_map length (slice_get buffers.now.items ahead) }
{
    match buffers.get(ahead) {
        None => None,
        Some(buffer) => Some(buffer.len()),
    }
}

// Binds the pool's oldest buffer to the message that is `ahead` after the due one, unless one is bound to it.
#[inline(always)]
fn bind_place<A: Allocator>(bound: &mut Bound<A>, ahead: usize)
    requires { IsSome (buffer_for (Pooled bound.old.places bound.old.pool) ahead) }
    ensures { Pooled bound.new.places bound.new.pool ≡ bound_to (Pooled bound.old.places bound.old.pool) ahead }
{
    bound.places.bind(ahead, &mut bound.pool);
}

// Writes pieces, one after the other, over the octets from a place on.
pub(crate) fn write_pieces<'a, A: Allocator, I: Iterator<Item = &'a [u8]>>(
    buffer: &mut Octets<A>,
    at: usize,
    n: usize,
    pieces: I,
)
    requires can { I.can_next pieces }
    requires ends { IsFinite (I.remaining pieces) }
    requires fills { AddUpTo I.next_gives pieces n }
    requires room { at + n ≤ length buffer.old }
    ensures { (octets : List ℕ) × JoinTo I.next_gives pieces octets × (buffer.new ≡ splice buffer.old at octets) }
{
    let room = buffer.len() - at;
    prove!(n <= room);
    let mut end = at;
    for piece in pieces {
        buffer.write_at(end, piece);
        end += piece.len();
    }
}
