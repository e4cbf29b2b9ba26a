ghost use Rattle.std.specs.Prelude.{◌≡◌, ◌+◌, ◌≤◌, ◌==◌, [], length, take, drop, vec_len, vec_capacity, IfOk, IfErr, OnOk, OnErr};

use bytes::{Bytes, BytesMut};
use std::alloc::{AllocError, AllocFailed, Global};
use std::marker::Model;
use std::ptr::{NonNull, null_mut};

/// What a buffer has: its octets. Contracts also see for how many there is room before memory is asked for; for octets that
/// came by [`Contents::take_back`] none is promised.
#[derive(Drop)]
pub struct Contents {
    form: Form,
}

#[derive(Drop)]
enum Form {
    Vector(Vec<u8>),
    // Octets that were shared, as they came back, and a vector with no octets and room for as many. No clause of `bytes`
    // says that the octets become a vector without memory: if they do not, they are copied into that one.
    Returned(BytesMut, Vec<u8>),
}

impl Model for Contents {
    ghost use Rattle.iw_buffer.specs.Octets.{Stored};
    ghost use Rattle.iw_buffer.specs.Contents.{stored_in, HasRoom};

    ghost Value = { Stored };

    ghost view = { λ contents. stored_in contents.form };

    ghost invariant = { λ contents. HasRoom contents.form };
}

impl Contents {
    /// No octets.
    pub fn nothing(alloc: Global) -> Contents
        ensures { result.octets ≡ [] }
    {
        Contents::of(Vec::new(alloc))
    }

    /// The octets of a vector.
    pub fn of(octets: Vec<u8>) -> Contents
        ensures octets { result.octets ≡ octets.items }
        ensures room { result.room ≡ vec_capacity octets }
    {
        Contents {
            form: Form::Vector(octets),
        }
    }

    /// How many octets there are.
    pub fn len(&self) -> usize
        ensures { result ≡ length self.now.octets }
    {
        match &self.form {
            Form::Vector(octets) => octets.len(),
            Form::Returned(octets, _) => octets.len(),
        }
    }

    /// Whether there are none.
    pub fn is_empty(&self) -> bool
        ensures { result ≡ (length self.now.octets == 0) }
    {
        self.len() == 0
    }

    /// Where the octets stand: an address that is good until a call moves or frees them. No clause says which it is.
    pub fn address(&mut self) -> *mut u8
        ensures { self.new ≡ self.old }
    {
        match &mut self.form {
            Form::Vector(octets) => octets.as_mut_ptr(),
            Form::Returned(octets, _) => first_place(octets.as_mut_slice()),
        }
    }

    /// Keeps the first `n` octets, or all if there are no more. Memory for the others stays.
    pub fn truncate(&mut self, alloc: Global, n: usize)
        ensures octets { self.new.octets ≡ take n self.old.octets }
        ensures room { self.old.room ≤ self.new.room }
    {
        match &mut self.form {
            Form::Vector(octets) => octets.truncate(n),
            Form::Returned(octets, room) => {
                octets.truncate(n);
                if n == 0 {
                    self.form = Form::Vector(std::mem::replace(room, Vec::new(alloc)));
                }
            }
        }
    }

    /// Drops the first `n` octets, or all if there are no more: the others move to the front, at the same address. Memory stays.
    pub fn drop_front(&mut self, alloc: Global, n: usize)
        ensures octets { self.new.octets ≡ drop n self.old.octets }
        ensures room { self.old.room ≤ self.new.room }
    {
        let len = self.len();
        if n >= len {
            self.truncate(alloc, 0);
            return;
        }
        match &mut self.form {
            Form::Vector(octets) => {
                octets.copy_within(n.., 0);
                octets.truncate(len - n);
            }
            Form::Returned(octets, _) => {
                octets.as_mut_slice().copy_within(n.., 0);
                octets.truncate(len - n);
            }
        }
    }

    /// The octets as a vector. Those that came by [`Contents::take_back`] are written once more for that, where they stand,
    /// or are copied into memory that was taken then: so this cannot fail.
    pub fn into_vec(self) -> Vec<u8>
        ensures octets { result.items ≡ self.octets }
        ensures room { self.room ≤ vec_capacity result }
    {
        match self.form {
            Form::Vector(octets) => octets,
            Form::Returned(octets, room) => match octets.into_vec() {
                Ok(octets) => octets,
                Err(AllocFailed { value }) => filled(room, value.as_slice()),
            },
        }
    }

    /// Takes the octets out, as [`Contents::into_vec`] gives them. Then there are none.
    pub fn take_vec(&mut self, alloc: Global) -> Vec<u8>
        ensures octets { result.items ≡ self.old.octets }
        ensures room { self.old.room ≤ vec_capacity result }
        ensures after { self.new.octets ≡ [] }
    {
        match &mut self.form {
            Form::Vector(octets) => std::mem::replace(octets, Vec::new(alloc)),
            Form::Returned(_, _) => std::mem::replace(self, Contents::nothing(alloc)).into_vec(),
        }
    }

    /// Has the octets of a vector in place of those that were here.
    pub fn set(&mut self, octets: Vec<u8>)
        ensures octets { self.new.octets ≡ octets.items }
        ensures room { self.new.room ≡ vec_capacity octets }
    {
        *self = Contents::of(octets);
    }

    /// Takes the octets out to be shared. Nothing is copied: only the count of those that share them is allocated, and, if the
    /// octets did not come by [`Contents::take_back`], room for them to come back with. Then there are none here. An `Err`
    /// means out of memory, and changes nothing.
    pub fn share(&mut self, alloc: Global) -> Result<Bytes, AllocError>
        ensures octets { IfOk result (λ shared. shared ≡ self.old.octets) }
        ensures ok { OnOk result (self.new.octets ≡ []) }
        ensures err { OnErr result (self.new.octets ≡ self.old.octets) }
    {
        match std::mem::replace(self, Contents::nothing(alloc)).form {
            Form::Vector(octets) => self.share_vector(alloc, octets),
            Form::Returned(octets, room) => self.share_returned(octets, room),
        }
    }

    // Shares a vector, and the contents are room for as many octets. If there is no memory for that, they are the vector.
    fn share_vector(&mut self, alloc: Global, octets: Vec<u8>) -> Result<Bytes, AllocError>
        ensures octets { IfOk result (λ shared. shared ≡ octets.items) }
        ensures ok { OnOk result (self.new.octets ≡ []) }
        ensures err { OnErr result (self.new.octets ≡ octets.items) }
    {
        let Ok(room) = Vec::with_capacity(alloc, octets.len()) else {
            self.set(octets);
            return Err(AllocError);
        };
        match Bytes::from_vec(octets) {
            Ok(shared) => {
                self.set(room);
                Ok(shared)
            }
            Err(AllocFailed { value }) => {
                self.set(value);
                Err(AllocError)
            }
        }
    }

    // Shares octets that came back, and the contents are the room. If there is no memory for that, they are both.
    fn share_returned(&mut self, octets: BytesMut, room: Vec<u8>) -> Result<Bytes, AllocError>
        requires empty { room.items ≡ [] }
        requires room { vec_len room + length octets.items ≤ vec_capacity room }
        ensures octets { IfOk result (λ shared. shared ≡ octets.items) }
        ensures ok { OnOk result (self.new.octets ≡ []) }
        ensures err { OnErr result (self.new.octets ≡ octets.items) }
    {
        match octets.freeze() {
            Ok(shared) => {
                self.set(room);
                Ok(shared)
            }
            Err(AllocFailed { value }) => {
                *self = Contents::returned(value, room);
                Err(AllocError)
            }
        }
    }

    /// Takes in octets that were shared, in place of those that were here. None is copied or written, unless something else
    /// still shares them. [`Contents::into_vec`] may want room for as many: it is that which [`Contents::share`] left, or is
    /// allocated. An `Err`, which gives the octets back, means out of memory, and changes nothing.
    pub fn take_back(&mut self, alloc: Global, shared: Bytes) -> Result<(), Bytes>
        ensures ok { OnOk result (self.new.octets ≡ shared) }
        ensures err { OnErr result (self.new.octets ≡ self.old.octets) }
        ensures back { IfErr result (λ back. back ≡ shared) }
    {
        let mut room = self.take_room(alloc);
        if shared.is_empty() {
            self.set(room);
            return Ok(());
        }
        if room.reserve(shared.len()).is_err() {
            self.put_room(room);
            return Err(shared);
        }
        match unshared(alloc, shared) {
            Ok(octets) => {
                *self = Contents::returned(octets, room);
                Ok(())
            }
            Err(shared) => {
                self.put_room(room);
                Err(shared)
            }
        }
    }

    // Octets that came back, and room for as many.
    fn returned(octets: BytesMut, room: Vec<u8>) -> Contents
        requires empty { room.items ≡ [] }
        requires room { vec_len room + length octets.items ≤ vec_capacity room }
        ensures { result.octets ≡ octets.items }
    {
        Contents {
            form: Form::Returned(octets, room),
        }
    }

    // Takes out a vector with no octets, for its memory, or makes one.
    fn take_room(&mut self, alloc: Global) -> Vec<u8>
        ensures empty { result.items ≡ [] }
        ensures same { self.new.octets ≡ self.old.octets }
    {
        if let Form::Vector(octets) = &mut self.form {
            if octets.is_empty() {
                return std::mem::replace(octets, Vec::new(alloc));
            }
        }
        Vec::new(alloc)
    }

    // Puts it back where it was.
    fn put_room(&mut self, room: Vec<u8>)
        requires { room.items ≡ [] }
        ensures { self.new.octets ≡ self.old.octets }
    {
        if let Form::Vector(octets) = &mut self.form {
            if octets.is_empty() {
                *octets = room;
            }
        }
    }
}

// Puts octets into a vector that has none, and has room for them.
fn filled(mut room: Vec<u8>, octets: &[u8]) -> Vec<u8>
    requires empty { room.items ≡ [] }
    requires room { vec_len room + length octets.now ≤ vec_capacity room }
    ensures { result.items ≡ octets.now }
{
    match room.extend_from_slice(octets) {
        Ok(()) => room,
        Err(_) => unreachable!(),
    }
}

// Octets of which this may be the only owner. An `Err`, which gives them back, means that there is no memory to copy them.
fn unshared(alloc: Global, octets: Bytes) -> Result<BytesMut, Bytes>
    ensures ok { IfOk result (λ sole. sole.items ≡ octets) }
    ensures err { IfErr result (λ shared. shared ≡ octets) }
{
    match octets.try_into_mut() {
        Ok(sole) => Ok(sole),
        Err(shared) => match BytesMut::copy_from_slice(alloc, shared.as_slice()) {
            Ok(copy) => Ok(copy),
            Err(_) => Err(shared),
        },
    }
}

// Where the first octet stands; null if there is none.
fn first_place(octets: &mut [u8]) -> *mut u8
    ensures { octets.new ≡ octets.old }
{
    match octets.first_mut() {
        Some(first) => NonNull::from_mut(first).as_ptr(),
        None => null_mut(),
    }
}
