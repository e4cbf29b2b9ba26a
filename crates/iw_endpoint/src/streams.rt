//! The streams of an endpoint, by number.
ghost use Rattle.std.specs.Prelude.{◌≡◌, ◌<◌, ◌≤◌, length, nat_eq, slice_index_or, slice_set, OnOk, OnErr, None, Some};
ghost use Rattle.std.specs.Option.{option_copied, option_copied_mut};
ghost use Rattle.std.specs.Borrow.{sem};
ghost use Rattle.std.specs.HashMap as hash;
ghost use Rattle.slab.specs.Slab as slab;
ghost use Rattle.iw_endpoint.specs.Inside.{Stays, IsLaid};
ghost use Rattle.iw_endpoint.specs.Numbers.{put_at};

use iw_stream::Stream;
use slab::Slab;
use std::alloc::{AllocError, Allocator, Global};
use std::collections::HashMap;
use std::hash::{BuildHasherDefault, FoldHasher};
use std::marker::Model;

/// How many numbers an application picks from, from 0 on. [`Endpoint::open_next`](crate::Endpoint::open_next) gives those past them.
pub const STREAM_NUMBERS: usize = 64;

/// A stream, in memory of its own.
#[derive(Drop)]
struct Place<A: Allocator = Global> {
    stream: Box<Stream<A>, A>,
}

impl<A: Allocator> Model for Place<A> {
    ghost use Rattle.iw_stream.specs.Stream.{StreamState};

    ghost Value = { StreamState };

    ghost view = { λ p. p.stream.value };
}

impl<A: Allocator> Place<A> {
    ghost use Rattle.iw_endpoint.specs.Places.{LendsPlace};

    fn get(&self) -> &Stream<A>
        ensures { result.now ≡ self.now }
    {
        self.stream.as_ref()
    }

    fn get_mut(&mut self) -> &mut Stream<A>
        ensures* lends { sem 𝓛 (LendsPlace A.row A.Allocator self.entry result) }
        ensures found { result.now ≡ self.old }
    {
        self.stream.as_mut()
    }
}

// Puts a stream into a place of its own, under a number that has none. An `Err` means out of memory and changes nothing.
fn lay<A: Allocator>(
    keys: &mut HashMap<u32, usize, BuildHasherDefault<FoldHasher>, A>,
    places: &mut Slab<Place<A>, A>,
    alloc: A,
    number: u32,
    stream: Stream<A>,
) -> Result<(), AllocError>
where
    A: Copy,
    ensures ok { OnOk result (IsLaid (hash.get nat_eq keys.old) (hash.get nat_eq keys.new) (slab.get places.old) (slab.get places.new) number stream) }
    ensures err { OnErr result (Stays (hash.get nat_eq keys.old) (hash.get nat_eq keys.new) × Stays (slab.get places.old) (slab.get places.new)) }
{
    keys.reserve(1)?;
    places.reserve(1)?;
    let stream = Box::new(alloc, stream)?;
    let place = places.insert_reserved(Place { stream });
    // There is room for it.
    let _ = keys.insert(number, place);
    Ok(())
}

/// The streams, by number. Each takes memory when it is opened; none is taken before.
#[derive(Drop)]
pub(crate) struct Streams<A: Allocator = Global> {
    // The place of the stream that was opened under a number.
    keys: HashMap<u32, usize, BuildHasherDefault<FoldHasher>, A>,
    places: Slab<Place<A>, A>,
    // The next number that is given.
    next: u64,
    alloc: A,
}

impl<A: Allocator> Model for Streams<A> {
    ghost use Rattle.std.specs.Prelude.{List, Option, nat_eq};
    ghost use Rattle.std.specs.HashMap as hash;
    ghost use Rattle.slab.specs.Slab as slab;
    ghost use Rattle.iw_stream.specs.Stream.{StreamState};

    ghost Value = { List (Option StreamState) };

    ghost use Rattle.iw_endpoint.specs.Inside.{listed, Keeps};

    ghost view = { λ s. listed (hash.get nat_eq s.keys) (slab.get s.places) s.next };

    ghost invariant = { λ s. Keeps (hash.get nat_eq s.keys) (slab.get s.places) s.next };
}

impl<A: Allocator> Streams<A> {
    ghost use Rattle.iw_endpoint.specs.Endpoint.{no_streams, stream_numbers, next_in};
    ghost use Rattle.iw_endpoint.specs.Places.{LendsStream};

    /// No stream was opened.
    pub(crate) fn new(alloc: A) -> Streams<A>
    where
        A: Copy,
        ensures { result ≡ no_streams }
    {
        Streams {
            keys: HashMap::new(alloc),
            places: Slab::new(alloc),
            next: STREAM_NUMBERS as u64,
            alloc,
        }
    }

    /// For the prover alone: it does nothing. Its clause states that there is a place for each number that an application picks.
    pub(crate) fn limits(&self)
        ensures { stream_numbers ≤ length self.now }
    {
        let _ = &self.places;
    }

    /// The next number, if one is left.
    pub(crate) fn next_number(&self) -> Option<u32>
        ensures { result ≡ next_in self.now }
    {
        if self.next < 1 << 32 {
            Some(self.next as u32)
        } else {
            None
        }
    }

    /// The allocator of the streams that are put.
    pub(crate) fn allocator(&self) -> A
    where
        A: Copy,
    {
        self.alloc
    }

    /// Streams that are put from now on stand in memory of this allocator.
    pub(crate) fn set_allocator(&mut self, alloc: A)
    where
        A: Copy,
        ensures { self.new ≡ self.old }
    {
        self.alloc = alloc;
    }

    /// The stream that was opened under this number, if one was.
    pub(crate) fn get(&self, number: u32) -> Option<&Stream<A>>
        ensures { option_copied result ≡ slice_index_or self.now number None }
    {
        let place = *self.keys.get(&number)?;
        Some(self.places.get(place)?.get())
    }

    /// As `get`, for changing it.
    pub(crate) fn get_mut(&mut self, number: u32) -> Option<&mut Stream<A>>
        ensures* lends { sem 𝓛 (LendsStream A.row A.Allocator self.entry number result) }
        ensures found { option_copied_mut result ≡ slice_index_or self.old number None }
    {
        let place = *self.keys.get(&number)?;
        Some(self.places.get_mut(place)?.get_mut())
    }

    /// Puts a stream under a number that an application picks, or under the next. An `Err` means out of memory and changes
    /// nothing.
    pub(crate) fn put(&mut self, number: u32, stream: Stream<A>) -> Result<(), AllocError>
    where
        A: Copy,
        requires within { number ≤ length self.old }
        requires free { slice_index_or self.old number None ≡ None }
        ensures ok { OnOk result (self.new ≡ put_at self.old number stream) }
        ensures err { OnErr result (self.new ≡ self.old) }
    {
        lay(&mut self.keys, &mut self.places, self.alloc, number, stream)?;
        self.next = self.next.max(number as u64 + 1);
        Ok(())
    }

    /// Forgets the stream of a number, if it has one, and gives its memory back.
    pub(crate) fn remove(&mut self, number: u32)
        ensures { self.new ≡ slice_set self.old number None }
    {
        let Some(place) = self.keys.remove(&number) else {
            return;
        };
        self.places.remove(place);
    }
}
