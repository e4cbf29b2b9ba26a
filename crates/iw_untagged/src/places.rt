ghost use Rattle.std.specs.Prelude.{◌≡◌, count_by, replicate, ◌+◌, ◌≤◌, ℕ, List, [], ◌∷◌, ◌++◌, length, None, IsSome, IfOk};
ghost use Rattle.std.specs.Prelude.{slice_get, slice_set, slice_index_or, drop, is_some, is_none, unwrap_or, if◌then◌else◌};
ghost use Rattle.std.specs.List.{position_or_len};
ghost use Rattle.std.specs.Option.{option_map, option_or};
ghost use Rattle.std.specs.Iterator.{IsFinite};
ghost use Rattle.iw_octets.specs.Octets.{splice};
ghost use Rattle.iw_octets.specs.Pieces.{AddUpTo, JoinTo};
ghost use Rattle.iw_untagged.specs.Receiving.{Pooled, buffer_for, bound_to};
ghost use Rattle.iw_untagged.specs.Bound.{IsBoundBefore};

use crate::buffers::write_pieces;
use crate::pool::SharedQueue;
use iw_octets::Octets;
use std::alloc::{AllocError, Allocator};
use std::collections::VecDeque;
use std::marker::Model;

/// How many messages, from the due one on, may have a buffer in a queue that shares a pool.
const PLACES: usize = 256;

/// A place for each of the next 256 messages, with the buffer that is bound to it. Contracts see the list of places.
#[derive(Drop)]
pub(crate) struct Places<A: Allocator> {
    items: VecDeque<Option<Octets<A>>, A>,
    // No place from here on has a buffer.
    end: usize,
}

impl<A: Allocator> Model for Places<A> {
    ghost use Rattle.std.specs.Prelude.{Option, List, ℕ};
    ghost use Rattle.iw_untagged.specs.Bound.{IsBoundBefore};

    ghost Value = { List (Option (List ℕ)) };

    ghost view = { λ places. places.items.items };

    ghost invariant = { λ places. IsBoundBefore places.end places.items.items };
}

impl<A: Allocator> Places<A> {
    /// 256 places without a buffer.
    pub(crate) fn new(alloc: A) -> Result<Places<A>, AllocError>
        ensures { IfOk result (λ places. places ≡ replicate 256 None) }
    {
        let items = no_places(alloc)?;
        Ok(Places { items, end: 0 })
    }

    /// The length of the buffer at a place; `None` if it has none.
    pub(crate) fn len_at(&self, index: usize) -> Option<usize>
        ensures { result ≡ option_map length (slice_index_or self.now index None) }
    {
        match self.items.get(index) {
            Some(Some(buffer)) => Some(buffer.len()),
            Some(None) => None,
            None => None,
        }
    }

    /// The length of the buffer at a place, or else of the pool's oldest.
    #[inline(always)]
    pub(crate) fn len_for(&self, index: usize, pool: &SharedQueue<A>) -> Option<usize>
        ensures { result ≡ option_map length (buffer_for (Pooled self.now pool.now) index) }
    {
        match self.items.get(index) {
            Some(Some(buffer)) => Some(buffer.len()),
            Some(None) => pool.room(),
            None => None,
        }
    }

    /// How many places have a buffer.
    pub(crate) fn count(&self) -> usize
        ensures { result ≡ count_by is_some self.now }
    {
        count_bound(&self.items, self.end)
    }

    /// Binds the pool's oldest buffer to a place, unless it has one.
    #[inline(always)]
    pub(crate) fn bind(&mut self, index: usize, pool: &mut SharedQueue<A>)
        requires { IsSome (buffer_for (Pooled self.old pool.old) index) }
        ensures { Pooled self.new pool.new ≡ bound_to (Pooled self.old pool.old) index }
    {
        fill_place(&mut self.items[index], pool);
        if self.end <= index {
            self.end = index + 1;
        }
    }

    /// Writes pieces, one after the other, into the buffer at a place.
    pub(crate) fn write<'a, I: Iterator<Item = &'a [u8]>>(
        &mut self,
        index: usize,
        at: usize,
        n: usize,
        pieces: I,
    )
        requires can { I.can_next pieces }
        requires ends { IsFinite (I.remaining pieces) }
        requires fills { AddUpTo I.next_gives pieces n }
        requires there { IsSome (slice_index_or self.old index None) }
        requires room { at + n ≤ length (unwrap_or (slice_index_or self.old index None) []) }
        ensures { (octets : List ℕ) × JoinTo I.next_gives pieces octets
            × (self.new ≡ slice_set self.old index (option_map (λ buffer. splice buffer at octets) (slice_index_or self.old index None))) }
    {
        write_place(&mut self.items[index], at, n, pieces);
    }

    /// Takes the buffer at the first place, and moves the others up.
    pub(crate) fn shift(&mut self) -> Octets<A>
        requires { IsSome (slice_index_or self.old 0 None) }
        ensures buffer { result ≡ unwrap_or (slice_index_or self.old 0 None) [] }
        ensures places { self.new ≡ drop 1 self.old ++ None ∷ [] }
    {
        let buffer = self.items[0].take().unwrap();
        move_up(&mut self.items, self.end);
        self.end = self.end.saturating_sub(1);
        buffer
    }

    /// Takes the buffer at the first place that has one; `None` if none has.
    pub(crate) fn take_first(&mut self) -> Option<Octets<A>>
        ensures buffer { result ≡ slice_index_or self.old (position_or_len is_some self.old) None }
        ensures places { self.new ≡ slice_set self.old (position_or_len is_some self.old) None }
    {
        let index = first_bound(&self.items, self.end);
        if index >= self.items.len() {
            return None;
        }
        self.items[index].take()
    }
}

fn no_places<A: Allocator>(alloc: A) -> Result<VecDeque<Option<Octets<A>>, A>, AllocError>
    ensures { IfOk result (λ places. places.items ≡ replicate 256 None) }
{
    let mut places = VecDeque::with_capacity(alloc, PLACES)?;
    for _ in 0..PLACES {
        places.push_back_reserved(None);
    }
    Ok(places)
}

// Binds the pool's oldest buffer to a place, unless it has one.
fn fill_place<A: Allocator>(place: &mut Option<Octets<A>>, pool: &mut SharedQueue<A>)
    ensures place { place.new ≡ option_or place.old (slice_get pool.old 0) }
    ensures pool { pool.new ≡ (if is_none place.old then drop 1 pool.old else pool.old) }
{
    if place.is_none() {
        *place = pool.take_oldest();
    }
}

// Writes pieces into the buffer at a place.
fn write_place<'a, A: Allocator, I: Iterator<Item = &'a [u8]>>(
    place: &mut Option<Octets<A>>,
    at: usize,
    n: usize,
    pieces: I,
)
    requires can { I.can_next pieces }
    requires ends { IsFinite (I.remaining pieces) }
    requires fills { AddUpTo I.next_gives pieces n }
    requires there { IsSome place.old }
    requires room { at + n ≤ length (unwrap_or place.old []) }
    ensures { (octets : List ℕ) × JoinTo I.next_gives pieces octets
        × (place.new ≡ option_map (λ buffer. splice buffer at octets) place.old) }
{
    match place {
        Some(buffer) => write_pieces(buffer, at, n, pieces),
        None => unreachable!(),
    }
}

// Moves the places up; the first one, which has no buffer, becomes the last. No place from `end` on has a buffer.
fn move_up<A: Allocator>(places: &mut VecDeque<Option<Octets<A>>, A>, end: usize)
    requires bound { IsBoundBefore end places.old.items }
    requires first { slice_index_or places.old.items 0 None ≡ None }
    ensures { places.new.items ≡ drop 1 places.old.items ++ None ∷ [] }
{
    // With no buffer in any place, this would change nothing but the memory that is used next.
    if end > 1 {
        places.rotate_left(1);
    }
}

// The first place that has a buffer; the number of places if none has. No place from `end` on has one.
fn first_bound<A: Allocator>(places: &VecDeque<Option<Octets<A>>, A>, end: usize) -> usize
    requires { IsBoundBefore end places.now.items }
    ensures { result ≡ position_or_len is_some places.now.items }
{
    for index in 0..end {
        if places[index].is_some() {
            return index;
        }
    }
    places.len()
}

// How many places have a buffer. No place from `end` on has one.
fn count_bound<A: Allocator>(places: &VecDeque<Option<Octets<A>>, A>, end: usize) -> usize
    requires { IsBoundBefore end places.now.items }
    ensures { result ≡ count_by is_some places.now.items }
{
    let mut count = 0;
    for index in 0..end {
        if places[index].is_some() {
            count += 1;
        }
    }
    count
}
